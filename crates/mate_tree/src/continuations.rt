//! How the attacker goes on.

ghost use Rattle.std.specs.Prelude.{◌≡◌, ◌≤◌};
ghost use Rattle.chess_problems.specs.Outcomes.{IsPlayable};
ghost use Rattle.mate_tree.specs.Continuations.{has_dual, soonest};

use chess_board::Position;
use chess_moves::Rays;
use chess_problems::{AvoidList, Bound, Outcome, Problem};
use mate_search::{Memo, solve};

/// What is true of a position with so many moves left to the attacker: the shortest mate and all moves that begin it, or that there is
/// none.
#[tactic(auto, unfolding(crate::specs::Continuations::soonest, chess_problems::specs::Outcomes::IsPlayable))]
pub(crate) fn soonest(rays: &Rays, position: &Position, left: u8, memo: &mut Memo) -> Outcome
    requires { left ≤ 15 }
    ensures truth { result ≡ soonest left position.now }
    ensures playable { IsPlayable position.now result }
    ensures room { memo.new.room ≡ memo.old.room }
{
    match Bound::new(left) {
        Some(bound) => solve(
            rays,
            &Problem {
                position: *position,
                bound,
                avoid: AvoidList::new(),
            },
            memo,
        ),
        None => Outcome::NoMate,
    }
}

/// Whether there is more than one move to go on.
pub(crate) fn has_dual(outcome: &Outcome) -> bool
    ensures { result ≡ has_dual outcome.now }
{
    match outcome {
        Outcome::Mate { keys, .. } => 1 < keys.len(),
        Outcome::NoMate => false,
    }
}
