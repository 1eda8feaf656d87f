//! Whether a record asks a problem.

ghost use Rattle.std.specs.Prelude.{◌≡◌, ◌↔◌, IsTrue};
ghost use Rattle.chess_notation.specs.Records.{problem_of};
ghost use Rattle.chess_problems.specs.SameProblems.{is_same_problem as is_same_value};

use chess_notation::Record;
use chess_problems::{Problem, are_same_moves, same_problem_reads};

/// Whether a record and a problem agree in position, bound and the moves to avoid.
#[tactic(auto, unfolding(chess_problems::specs::SameProblems::is_same_problem))]
fn agree(asked: &Record, problem: &Problem) -> bool
    ensures { result ≡ is_same_value (problem_of asked.now) problem.now }
{
    asked.position == problem.position
        && asked.bound == problem.bound
        && are_same_moves(asked.avoid.as_slice(), problem.avoid.as_slice())
}

/// Whether a record asks this problem: the position, the bound and the moves to avoid are equal. No problem is made to compare.
pub fn asks(asked: &Record, problem: &Problem) -> bool
    ensures value { result ≡ is_same_value (problem_of asked.now) problem.now }
    ensures same { IsTrue result ↔ (problem_of asked.now ≡ problem.now) }
{
    // The last clause rests on this law, which is one of sound positions.
    same_problem_reads();
    asked.position.side();
    problem.position.side();
    agree(asked, problem)
}
