//! A FEN looked at: its canonical form, how its position stands, and its board.

ghost use Rattle.std.specs.Prelude.{◌≡◌, ◌++◌, IfOk};
ghost use Rattle.chess_moves.specs.Verdicts.{verdict_of};
ghost use Rattle.chess_views.specs.Looks.{check_words, look_board_text, look_text, reached_text, side_words, standing_by};

use crate::boards::board_text;
use crate::lines::push_line;
use chess_board::{Colour, Fen, Position};
use chess_moves::{Rays, Verdict, verdict};
use std::alloc::{AllocError, Global};

/// Whether the side to move is in check, in words.
fn check_words(position: &Position) -> &'static str
    ensures { result.now ≡ check_words position.now }
{
    if position.in_check() {
        "check"
    } else {
        "no check"
    }
}

/// How the position stands, in words.
fn standing_words(rays: &Rays, position: &Position) -> &'static str
    ensures { result.now ≡ standing_by (verdict_of position.now) position.now }
{
    match verdict(rays, position) {
        Verdict::Play => check_words(position),
        Verdict::Mate => "mate",
        Verdict::Stalemate => "stalemate",
    }
}

/// Who is to move, in words.
fn side_words(side: Colour) -> &'static str
    ensures { result.now ≡ side_words side }
{
    match side {
        Colour::White => "White to move",
        Colour::Black => "Black to move",
    }
}

/// The FEN in its canonical form, and whether the side to move is in check.
#[tactic(auto, unfolding(crate::specs::Looks::look_text))]
pub fn look_text(alloc: Global, fen: &Fen) -> Result<Vec<u8>, AllocError>
    ensures { IfOk result (λ text. text.items ≡ look_text fen.now) }
{
    let canonical = fen.text();
    let mut text = Vec::new(alloc);
    push_line(&mut text, canonical.as_str())?;
    push_line(&mut text, check_words(&fen.position))?;
    Ok(text)
}

/// The same, then the board as a side sees it, and who is to move.
#[tactic(auto, unfolding(crate::specs::Looks::look_board_text))]
pub fn look_board_text(alloc: Global, fen: &Fen, from: Colour) -> Result<Vec<u8>, AllocError>
    ensures { IfOk result (λ text. text.items ≡ look_board_text from fen.now) }
{
    let board = board_text(alloc, &fen.position, from)?;
    let mut text = look_text(alloc, fen)?;
    text.extend_from_slice(board.as_slice())?;
    push_line(&mut text, side_words(fen.position.side()))?;
    Ok(text)
}

/// The FEN that was reached, in its canonical form, and how its position stands: `mate`, `stalemate`, `check` or `no check`, the first
/// that holds.
#[tactic(auto, unfolding(crate::specs::Looks::reached_text))]
pub fn reached_text(alloc: Global, rays: &Rays, fen: &Fen) -> Result<Vec<u8>, AllocError>
    ensures { IfOk result (λ text. text.items ≡ reached_text fen.now) }
{
    let canonical = fen.text();
    let mut text = Vec::new(alloc);
    push_line(&mut text, canonical.as_str())?;
    push_line(&mut text, standing_words(rays, &fen.position))?;
    Ok(text)
}
