//! Positions that games reach: random legal moves from known positions.

use crate::stops::Stop;
use crate::variants::Variants;
use chess_board::{Position, after, read_fen};
use chess_moves::{Rays, is_legal, legal_moves};
use std::alloc::{AllocError, Global};

/// How many moves a walk has: so many at least, and less than so many more.
const LEAST_MOVES: usize = 8;

const MORE_MOVES: usize = 40;

/// The position after a legal move by chance; none where there is no move.
fn step(rays: &Rays, position: &Position, variants: &mut Variants) -> Option<Position> {
    let count = legal_moves(rays, position).count();
    let mut before = variants.below(count);
    for m in legal_moves(rays, position) {
        if before == 0 && is_legal(rays, position, m) {
            return Some(after(position, m));
        }
        before = before.wrapping_sub(1);
    }
    None
}

/// Where a walk of so many moves from a position ends, or where the game does.
fn end_of_walk(
    rays: &Rays,
    position: &Position,
    moves: usize,
    variants: &mut Variants,
) -> Position {
    let mut reached = *position;
    for _ in 0..moves {
        match step(rays, &reached, variants) {
            Some(next) => reached = next,
            None => return reached,
        }
    }
    reached
}

/// Lines of positions, none of them twice, each some moves after a known one.
pub(crate) fn walked(
    alloc: Global,
    rays: &Rays,
    known: &[&str],
    count: usize,
    variants: &mut Variants,
) -> Result<String, Stop> {
    let mut text = String::new(alloc);
    for number in 0..count {
        let number = number.checked_rem(known.len()).unwrap_or(0);
        let from = known.get(number).ok_or("known")?;
        push_walk(alloc, rays, &mut text, from, variants)?;
    }
    Ok(text)
}

/// Appends the position that a walk from a known one reaches, if it is a new one.
fn push_walk(
    alloc: Global,
    rays: &Rays,
    text: &mut String,
    from: &str,
    variants: &mut Variants,
) -> Result<(), Stop> {
    let fen = read_fen(from.as_bytes()).ok().ok_or("fen")?;
    let moves = variants.below(MORE_MOVES).wrapping_add(LEAST_MOVES);
    let reached = end_of_walk(rays, &fen.position, moves, variants);
    if variants.is_new(alloc, reached.text().as_str())? {
        push_line(text, &reached)?;
    }
    Ok(())
}

fn push_line(text: &mut String, position: &Position) -> Result<(), AllocError> {
    text.push_str(position.text().as_str())?;
    text.push('\n')
}
