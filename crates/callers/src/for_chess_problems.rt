//! A caller of `chess_problems`.

ghost use Rattle.std.specs.Prelude.{◌≡◌, ◌≤◌, [], IfNone, IfSome};
ghost use Rattle.chess_problems.specs.Problems.{max_bound};

use chess_board::Position;
use chess_problems::{AvoidList, Bound, Problem};

/// The problem whether the side to move mates within so many moves, whatever its first; none where that is no bound.
pub fn mate_within(moves: u8, position: Position) -> Option<Problem>
    ensures none { IfNone result (¬ ((1 ≤ moves) × (moves ≤ max_bound))) }
    ensures problem { IfSome result (λ problem. problem ≡ record { position = position; bound = moves; avoid = [] }) }
{
    Some(Problem {
        position,
        bound: Bound::new(moves)?,
        avoid: AvoidList::new(),
    })
}
