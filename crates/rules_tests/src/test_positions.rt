//! What the tests share: positions, squares and moves by their texts, and what refuses a row.

use chess_board::{Fen, Kind, Move, Position, Square, read_fen};
use std::fmt::Debug;
use std::process::Abort;

/// The position before the first move.
pub(crate) const INITIAL: &str = "rnbqkbnr/pppppppp/8/8/8/8/PPPPPPPP/RNBQKBNR w KQkq - 0 1";

pub(crate) fn fen_of(rt: &impl Abort, text: &str) -> Fen {
    read_fen(text.as_bytes()).expect(rt, text)
}

pub(crate) fn position_of(rt: &impl Abort, text: &str) -> Position {
    fen_of(rt, text).position
}

/// The square of a letter and a digit.
fn square_at(rt: &impl Abort, file: u8, rank: u8) -> Square {
    Square::at(file.wrapping_sub(b'a'), rank.wrapping_sub(b'1')).expect(rt, "square")
}

/// The square of a name such as e5.
pub(crate) fn square_of(rt: &impl Abort, name: &str) -> Square {
    match name.as_bytes() {
        [file, rank] => square_at(rt, *file, *rank),
        _ => rt.panic(name),
    }
}

/// What a pawn becomes by no letter, or by a small one.
fn promotion_of(rt: &impl Abort, letters: &[u8]) -> Option<Kind> {
    match letters {
        [] => None,
        b"p" => Some(Kind::Pawn),
        b"n" => Some(Kind::Knight),
        b"b" => Some(Kind::Bishop),
        b"r" => Some(Kind::Rook),
        b"q" => Some(Kind::Queen),
        b"k" => Some(Kind::King),
        _ => rt.panic("promotion"),
    }
}

/// The move that a text such as `e2e4` or `a7a8q` writes.
pub(crate) fn move_of(rt: &impl Abort, text: &str) -> Move {
    match text.as_bytes() {
        [a, b, c, d, letters @ ..] => Move {
            origin: square_at(rt, *a, *b),
            target: square_at(rt, *c, *d),
            promotion: promotion_of(rt, letters),
        },
        _ => rt.panic(text),
    }
}

/// Refuses where a row was answered otherwise. One assertion serves all rows, since each is proved anew.
pub(crate) fn same<R: Debug, T: PartialEq + Debug>(
    rt: &impl Abort,
    row: &R,
    found: &T,
    wanted: &T,
) {
    assert_eq!(rt; found, wanted, "{row:?}");
}

/// Refuses where these are not the moves of a position, in this order.
pub(crate) fn same_moves(rt: &impl Abort, text: &str, found: &[Move], wanted: &[&str]) {
    same(rt, &text, &found.len(), &wanted.len());
    for (m, wanted) in found.iter().zip(wanted) {
        same(rt, &text, &m.text().as_str(), wanted);
    }
}
