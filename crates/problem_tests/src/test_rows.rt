//! What the tests share: positions, moves, records and problems by their texts, and what refuses a row.

use chess_board::{Fen, Kind, Move, Position, Square, read_fen};
use chess_moves::Rays;
use chess_notation::{EpdFault, Record, read_record};
use chess_problems::{AvoidList, Bound, Outcome, Problem};
use mate_answers::solve_input;
use mate_search::Memo;
use std::alloc::Global;
use std::fmt::Debug;
use std::process::Abort;

/// Refuses where a row was answered otherwise. One assertion serves all rows, since each is proved anew.
pub(crate) fn same<R: Debug, T: PartialEq + Debug>(
    rt: &impl Abort,
    row: &R,
    found: &T,
    wanted: &T,
) {
    assert_eq!(rt; found, wanted, "{row:?}");
}

/// Refuses where these are not the moves, in this order.
pub(crate) fn same_moves(rt: &impl Abort, text: &str, found: &[Move], wanted: &[&str]) {
    same(rt, &text, &found.len(), &wanted.len());
    for (m, wanted) in found.iter().zip(wanted) {
        same(rt, &text, &m.text().as_str(), wanted);
    }
}

pub(crate) fn fen_of(rt: &impl Abort, text: &str) -> Fen {
    read_fen(text.as_bytes()).expect(rt, text)
}

pub(crate) fn position_of(rt: &impl Abort, text: &str) -> Position {
    fen_of(rt, text).position
}

/// The square of a letter and a digit.
fn square_at(rt: &impl Abort, file: u8, rank: u8) -> Square {
    Square::at(file.wrapping_sub(b'a'), rank.wrapping_sub(b'1')).expect(rt, "square")
}

/// What a pawn becomes by no letter, or by a small one.
fn promotion_of(rt: &impl Abort, letters: &[u8]) -> Option<Kind> {
    match letters {
        [] => None,
        b"n" => Some(Kind::Knight),
        b"b" => Some(Kind::Bishop),
        b"r" => Some(Kind::Rook),
        b"q" => Some(Kind::Queen),
        _ => rt.panic("promotion"),
    }
}

/// The move that a text such as `e2e4` or `a7a8q` writes.
pub(crate) fn move_of(rt: &impl Abort, text: &str) -> Move {
    match text.as_bytes() {
        [a, b, c, d, letters @ ..] => Move {
            origin: square_at(rt, *a, *b),
            target: square_at(rt, *c, *d),
            promotion: promotion_of(rt, letters),
        },
        _ => rt.panic(text),
    }
}

pub(crate) fn bound_of(rt: &impl Abort, moves: u8) -> Bound {
    Bound::new(moves).expect(rt, "bound")
}

pub(crate) fn memo_of(rt: &impl Abort, alloc: Global, entries: usize) -> Memo {
    Memo::new(alloc, entries).expect(rt, "memo")
}

/// One of up to 65,536 entries is the same as that.
pub(crate) fn large_memo_of(rt: &impl Abort, alloc: Global, entries: usize) -> Memo {
    Memo::large(alloc, entries).expect(rt, "large memo")
}

/// The record of a line, where a bound of 3 is asked by default, or the line's fault.
pub(crate) fn read(rt: &impl Abort, alloc: Global, line: &[u8]) -> Result<Record, EpdFault> {
    read_record(alloc, &Rays::new(), line, bound_of(rt, 3))
}

/// A problem, by its position and bound, and what there is to say of it: the least number of moves, or 0 where there is no mate; the
/// keys; and the line of play.
pub(crate) type Known = (
    &'static str,
    u8,
    u8,
    &'static [&'static str],
    &'static [&'static str],
);

/// Refuses where this is not what there is to say of a problem.
pub(crate) fn check_outcome(rt: &impl Abort, known: &Known, outcome: &Outcome) {
    let (text, bound, wanted, wanted_keys, wanted_pv) = *known;
    match outcome {
        Outcome::Mate { dm, keys, pv } => {
            same(rt, &(text, bound), &dm.get(), &wanted);
            same_moves(rt, text, keys.as_slice(), wanted_keys);
            same_moves(rt, text, pv.as_slice(), wanted_pv);
        }
        Outcome::NoMate => same(rt, &(text, bound), &0, &wanted),
    }
}

pub(crate) fn problem_of(rt: &impl Abort, text: &str, bound: u8) -> Problem {
    Problem {
        position: position_of(rt, text),
        bound: bound_of(rt, bound),
        avoid: AvoidList::new(),
    }
}

/// Refuses where an input, whose records ask mate in one by default, is answered otherwise.
pub(crate) fn check_input<R: Debug>(
    rt: &impl Abort,
    alloc: Global,
    memo: &mut Memo,
    row: &R,
    input: &[u8],
    (text, refused): (&str, usize),
) {
    let default = bound_of(rt, 1);
    let output = solve_input(alloc, &Rays::new(), input, default, memo).expect(rt, text);
    let found = (output.text.as_slice(), output.refused);
    same(rt, row, &found, &(text.as_bytes(), refused));
}
