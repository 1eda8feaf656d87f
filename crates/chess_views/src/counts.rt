//! The lines of play counted (perft), also by their first moves.

ghost use Rattle.std.specs.Prelude.{◌≡◌, ◌++◌, ◌≤◌, IfOk, codes, decimal, length};
ghost use Rattle.chess_board.specs.Moves.{move_text};
ghost use Rattle.chess_moves.specs.Plays.{plays};
ghost use Rattle.chess_views.specs.Lines.{line};
ghost use Rattle.chess_views.specs.Counts.{DivisionSums, divided_text, perft_text, shares_text};

use crate::lines::push_line;
use chess_board::{Fen, Move, Position, after};
use chess_moves::{Rays, legal, legal_listed, perft};
use itoa::Buffer;
use std::alloc::{AllocError, Global};

/// How many lines of so many legal moves there are, on a line.
#[tactic(auto, unfolding(crate::specs::Counts::perft_text))]
pub fn perft_text(alloc: Global, rays: &Rays, fen: &Fen, depth: u8) -> Result<Vec<u8>, AllocError>
    requires { depth ≤ 6 }
    ensures { IfOk result (λ text. text.items ≡ perft_text depth fen.now) }
{
    let count = perft(rays, &fen.position, depth);
    let mut digits = Buffer::new();
    let mut text = Vec::new(alloc);
    push_line(&mut text, digits.format(count))?;
    Ok(text)
}

/// Adds the line of a first move: its coordinates, and how many lines begin with it.
fn push_share(text: &mut Vec<u8>, m: Move, count: u64) -> Result<(), AllocError>
    ensures { IfOk result (λ _. text.new.items ≡ text.old.items ++ line (move_text m ++ codes ": " ++ decimal count)) }
{
    let coordinates = m.text();
    let mut digits = Buffer::new();
    text.extend_from_slice(coordinates.as_str().as_bytes())?;
    text.extend_from_slice(b": ")?;
    push_line(text, digits.format(count))
}

/// Adds the lines of all first moves, and gives how many lines of play there are together. 128 bits hold the sum of any 1,024 counts.
#[tactic(auto, using(crate::proofs::DividedCounts::plays_none))]
fn push_shares(
    text: &mut Vec<u8>,
    rays: &Rays,
    position: &Position,
    depth: u8,
) -> Result<u128, AllocError>
    requires { depth ≤ 6 }
    ensures text { IfOk result (λ _. text.new.items ≡ text.old.items ++ shares_text position.now depth) }
    ensures sum { IfOk result (λ sum. sum ≡ length (plays position.now depth)) }
{
    if depth == 0 {
        return Ok(1);
    }
    // That the sum is the count, and that each move is legal by itself, as `after` asks.
    division_sums();
    legal_listed();
    let moves = legal(rays, position);
    let mut sum = 0u128;
    for m in moves.as_slice() {
        let count = perft(rays, &after(position, *m), depth - 1);
        push_share(text, *m, count)?;
        sum += u128::from(count);
    }
    Ok(sum)
}

/// For each legal move, in move order, its coordinates and how many lines of so many moves begin with it; then how many lines there
/// are together, on a line.
#[tactic(auto, unfolding(crate::specs::Counts::divided_text, crate::specs::Counts::perft_text))]
pub fn divided_text(alloc: Global, rays: &Rays, fen: &Fen, depth: u8) -> Result<Vec<u8>, AllocError>
    requires { depth ≤ 6 }
    ensures { IfOk result (λ text. text.items ≡ divided_text depth fen.now) }
{
    let mut text = Vec::new(alloc);
    let sum = push_shares(&mut text, rays, &fen.position, depth)?;
    let mut digits = Buffer::new();
    push_line(&mut text, digits.format(sum))?;
    Ok(text)
}

/// Together the numbers of lines that begin with each legal move are the number of all.
pub fn division_sums()
    ensures { DivisionSums }
{}
