//! Whether two moves, two lists of moves or two problems are one.

ghost use Rattle.std.specs.Prelude.{◌≡◌, ◌↔◌, IsTrue};
ghost use Rattle.std.specs.List.{list_any};
ghost use Rattle.chess_problems.specs.SameProblems.{are_same_moves as are_same_lists, is_same_move as are_one, SameMoveReads, SameProblemReads};

use chess_board::{Move, equal_reads};

/// Whether two moves are one.
pub fn is_same_move(m: Move, n: Move) -> bool
    ensures { result ≡ are_one m n }
{
    m == n
}

/// Whether a move is one of these.
pub fn is_among(m: Move, moves: &[Move]) -> bool
    ensures { result ≡ list_any (are_one m) moves.now }
{
    for n in moves {
        if is_same_move(m, *n) {
            return true;
        }
    }
    false
}

/// Whether two lists of moves are one.
pub fn are_same_moves(first: &[Move], second: &[Move]) -> bool
    ensures { result ≡ are_same_lists first.now second.now }
{
    let mut left = first;
    let mut right = second;
    while let [m, ms @ ..] = left {
        match right {
            [] => return false,
            [n, ns @ ..] => {
                if !is_same_move(*m, *n) {
                    return false;
                }
                left = ms;
                right = ns;
            }
        }
    }
    right.is_empty()
}

/// Two moves agree in origin, target and promotion exactly where they are one.
pub fn same_move_reads()
    ensures { SameMoveReads }
{}

/// Two problems of sound positions agree exactly where they are one.
pub fn same_problem_reads()
    ensures { SameProblemReads }
{
    equal_reads();
}
