//! The legal moves of a FEN, a line for each, or all on one.

ghost use Rattle.std.specs.Prelude.{◌≡◌, ◌++◌, ◌∷◌, IfOk, flat_map, true};
ghost use Rattle.chess_board.specs.Legality.{is_legal};
ghost use Rattle.chess_board.specs.Characters.{char};
ghost use Rattle.chess_moves.specs.inside.Listing.{legal_moves};
ghost use Rattle.chess_notation.specs.SanText.{san_text};
ghost use Rattle.chess_views.specs.Lines.{line};
ghost use Rattle.chess_views.specs.Listings.{list_text, move_line, moves_line, moves_text, spaced_moves};

use crate::columns::Columns;
use crate::lines::{one_line, push_cell, push_line};
use crate::played::after_fen;
use chess_board::{Fen, Move, Position};
use chess_moves::{Rays, Verdict, legal, legal_listed, verdict};
use chess_notation::san;
use std::alloc::{AllocError, Global};

/// Adds the line of a legal move.
fn push_move(
    text: &mut Vec<u8>,
    rays: &Rays,
    fen: &Fen,
    m: Move,
    columns: Columns,
) -> Result<(), AllocError>
    requires { is_legal fen.now.position m ≡ true }
    ensures { IfOk result (λ _. text.new.items ≡ text.old.items ++ move_line columns fen.now m) }
{
    let name = san(rays, &fen.position, m);
    let coordinates = m.text();
    match columns {
        Columns::San => push_line(text, name.as_str()),
        Columns::Coordinates => push_line(text, coordinates.as_str()),
        Columns::SanFen => {
            push_cell(text, name.as_str())?;
            push_line(text, after_fen(fen, m).text().as_str())?;
            Ok(())
        }
        Columns::SanCoordinatesFen => {
            push_cell(text, name.as_str())?;
            push_cell(text, coordinates.as_str())?;
            push_line(text, after_fen(fen, m).text().as_str())?;
            Ok(())
        }
    }
}

/// Each legal move on a line, in move order.
#[tactic(auto, unfolding(crate::specs::Listings::list_text))]
fn list_text(alloc: Global, rays: &Rays, fen: &Fen, columns: Columns) -> Result<Vec<u8>, AllocError>
    ensures { IfOk result (λ text. text.items ≡ list_text columns fen.now) }
{
    let moves = legal(rays, &fen.position);
    // That each of them is legal by itself, as `san` asks.
    legal_listed();
    let mut text = Vec::new(alloc);
    for m in moves.as_slice() {
        push_move(&mut text, rays, fen, *m, columns)?;
    }
    Ok(text)
}

/// The legal moves, a line for each in move order, with these columns; or how the game has ended where there is none.
#[tactic(auto, unfolding(crate::specs::Listings::moves_text))]
pub fn moves_text(
    alloc: Global,
    rays: &Rays,
    fen: &Fen,
    columns: Columns,
) -> Result<Vec<u8>, AllocError>
    ensures { IfOk result (λ text. text.items ≡ moves_text columns fen.now) }
{
    match verdict(rays, &fen.position) {
        Verdict::Play => list_text(alloc, rays, fen, columns),
        Verdict::Mate => one_line(alloc, "mate"),
        Verdict::Stalemate => one_line(alloc, "stalemate"),
    }
}

/// The legal moves of a position in SAN, each behind a space.
fn moves_behind_spaces(
    alloc: Global,
    rays: &Rays,
    position: &Position,
) -> Result<Vec<u8>, AllocError>
    ensures { IfOk result (λ text. text.items ≡ flat_map (λ m. char " " ∷ san_text position.now m) (legal_moves position.now)) }
{
    let moves = legal(rays, position);
    // That each of them is legal by itself, as `san` asks.
    legal_listed();
    let mut text = Vec::new(alloc);
    for m in moves.as_slice() {
        let name = san(rays, position, *m);
        text.push(b' ')?;
        text.extend_from_slice(name.as_str().as_bytes())?;
    }
    Ok(text)
}

/// The legal moves of a position in SAN on one line.
#[tactic(auto, unfolding(crate::specs::Listings::spaced_moves))]
fn spaced_line(alloc: Global, rays: &Rays, position: &Position) -> Result<Vec<u8>, AllocError>
    ensures { IfOk result (λ text. text.items ≡ line (spaced_moves position.now (legal_moves position.now))) }
{
    let mut text = moves_behind_spaces(alloc, rays, position)?;
    if !text.is_empty() {
        text.remove(0);
    }
    text.push(b'\n')?;
    Ok(text)
}

/// The legal moves in SAN on one line, in move order and with a space between each two; or how the game has ended where there is none.
#[tactic(auto, unfolding(crate::specs::Listings::moves_line))]
pub fn moves_line(alloc: Global, rays: &Rays, fen: &Fen) -> Result<Vec<u8>, AllocError>
    ensures { IfOk result (λ text. text.items ≡ moves_line fen.now) }
{
    let ending = match verdict(rays, &fen.position) {
        Verdict::Play => return spaced_line(alloc, rays, &fen.position),
        Verdict::Mate => "mate",
        Verdict::Stalemate => "stalemate",
    };
    one_line(alloc, ending)
}
