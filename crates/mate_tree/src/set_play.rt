//! Set play: what the attacker has ready, were the defender to move first.

ghost use Rattle.std.specs.Prelude.{◌≡◌, ◌≤◌, true};
ghost use Rattle.chess_board.specs.Legality.{is_legal};
ghost use Rattle.chess_board.specs.Moves.{Move};
ghost use Rattle.chess_board.specs.Positions.{Setup};
ghost use Rattle.chess_board.specs.MakeMove.{after_setup};
ghost use Rattle.chess_problems.specs.Outcomes.{IsPlayable};
ghost use Rattle.mate_tree.specs.SetPlay.{headed, set_line, set_lines, set_play};
ghost use Rattle.mate_tree.specs.inside.Sheets.{is_some_line};
ghost use Rattle.mate_tree.specs.inside.Writers.{Adds};

use crate::continuations::soonest;
use crate::layouts::set_play_heading;
use crate::lines::{push_attacks, push_defence};
use crate::passing::passed;
use crate::writers::TreeWriter;
use chess_board::{Move, Position, after};
use chess_moves::{legal, legal_listed};
use chess_problems::Outcome;
use std::io::Write;

/// Whether a move of the defender's has a line: where there is a mate behind it.
fn has_line(outcome: &Outcome) -> bool
    ensures { (q : Setup) (r : Move) → result ≡ is_some_line (set_line q r outcome.now) }
{
    match outcome {
        Outcome::Mate { .. } => true,
        Outcome::NoMate => false,
    }
}

/// Writes a move of the defender's with all that mate soonest behind it, where there is a mate.
#[tactic(auto, unfolding(chess_problems::specs::Outcomes::IsPlayable))]
fn write_set_line<O: Write>(
    writer: &mut TreeWriter<'_, O>,
    position: &Position,
    r: Move,
    outcome: &Outcome,
)
    requires legal { is_legal position.now r ≡ true }
    requires playable { IsPlayable (after_setup position.now r) outcome.now }
    ensures { Adds O.contents writer.old writer.new (set_line position.now r outcome.now) }
{
    match outcome {
        Outcome::Mate { keys, .. } => {
            writer.begin();
            writer.push(b"  ");
            push_defence(writer, position, r, 1);
            push_attacks(writer, &after(position, r), keys.as_slice(), 2);
            writer.end();
        }
        Outcome::NoMate => {}
    }
}

/// Writes each of the defender's moves after which there is a mate within the moves that are left, below a heading.
fn write_set_lines<O: Write>(
    writer: &mut TreeWriter<'_, O>,
    position: &Position,
    heading: &[u8],
    left: u8,
)
    requires { left ≤ 15 }
    ensures { Adds O.contents writer.old writer.new (headed heading.now (set_lines left position.now)) }
{
    // That each of them is legal by itself, as `after` asks.
    legal_listed();
    let replies = legal(writer.rays, position);
    let mut is_open = false;
    for r in replies.as_slice() {
        if writer.sheet.is_closed() {
            return;
        }
        let outcome = soonest(writer.rays, &after(position, *r), left, writer.memo);
        let has = has_line(&outcome);
        writer.write_name(heading, is_open, has);
        write_set_line(writer, position, *r, &outcome);
        is_open |= has;
    }
}

/// Writes set play, with so many moves left to the attacker, which passes: none where it is in check.
#[tactic(auto, unfolding(crate::specs::SetPlay::set_play))]
pub(crate) fn write_set_play<O: Write>(
    writer: &mut TreeWriter<'_, O>,
    position: &Position,
    column: bool,
    left: u8,
)
    requires { left ≤ 15 }
    ensures { Adds O.contents writer.old writer.new (set_play column left position.now) }
{
    match passed(position) {
        Some(other) => write_set_lines(writer, &other, set_play_heading(column), left),
        None => {}
    }
}
