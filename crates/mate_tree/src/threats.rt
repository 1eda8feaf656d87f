//! What the attacker threatens.

ghost use Rattle.std.specs.Prelude.{◌≡◌, ◌≤◌};
ghost use Rattle.chess_problems.specs.Outcomes.{IsPlayable};
ghost use Rattle.mate_tree.specs.Threats.{idea_text, threat_text};
ghost use Rattle.mate_tree.specs.inside.Writers.{AddsText};

use crate::continuations::soonest;
use crate::lines::{Level, push_attacks};
use crate::passing::passed;
use crate::writers::TreeWriter;
use chess_board::Position;
use chess_problems::Outcome;
use std::io::Write;

/// Adds the moves that would mate soonest, or that there is no mate.
#[tactic(auto, unfolding(chess_problems::specs::Outcomes::IsPlayable))]
fn push_threat<O: Write>(
    writer: &mut TreeWriter<'_, O>,
    position: &Position,
    outcome: &Outcome,
    number: u16,
)
    requires { IsPlayable position.now outcome.now }
    ensures { AddsText O.contents writer.old writer.new (threat_text number position.now outcome.now) }
{
    match outcome {
        Outcome::Mate { keys, .. } => {
            writer.push(b" threat");
            push_attacks(writer, position, keys.as_slice(), number);
        }
        Outcome::NoMate => writer.push(b" zugzwang"),
    }
}

/// Adds what would come at a place in the tree, were the defender to pass: nothing where it is in check.
pub(crate) fn push_idea<O: Write>(writer: &mut TreeWriter<'_, O>, position: &Position, at: Level)
    requires { at.left ≤ 15 }
    ensures { AddsText O.contents writer.old writer.new (idea_text at.number at.left position.now) }
{
    match passed(position) {
        Some(other) => {
            let outcome = soonest(writer.rays, &other, at.left, writer.memo);
            push_threat(writer, &other, &outcome, at.number);
        }
        None => {}
    }
}
