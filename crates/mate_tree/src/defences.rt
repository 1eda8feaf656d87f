//! The tree below a move of the attacker's.

ghost use Rattle.std.specs.Prelude.{◌≡◌, ◌+◌, ◌-◌, ◌<◌, ◌≤◌, [], ◌∷◌, true};
ghost use Rattle.chess_board.specs.Legality.{is_legal};
ghost use Rattle.chess_problems.specs.Outcomes.{AreLegal};
ghost use Rattle.mate_tree.specs.Lines.{attack_line as attack_line_of, defence_line as defence_line_of};
ghost use Rattle.mate_tree.specs.Defences.{attack, attacks, defence, defences};
ghost use Rattle.mate_tree.specs.inside.Writers.{Adds};

use crate::continuations::{has_dual, soonest};
use crate::lines::{Level, push_attack, push_defence, push_dual, push_length, push_spaces};
use crate::writers::TreeWriter;
use chess_board::{Move, Position, after};
use chess_moves::{legal, legal_listed};
use chess_problems::Outcome;
use std::io::Write;

/// Writes the line of an attacker's move, with which it mates in as many moves as are left.
fn write_attack_line<O: Write>(
    writer: &mut TreeWriter<'_, O>,
    position: &Position,
    m: Move,
    at: Level,
)
    requires legal { is_legal position.now m ≡ true }
    requires some { 1 ≤ at.number }
    ensures { Adds O.contents writer.old writer.new (attack_line_of at.shown at.number at.left position.now m ∷ []) }
{
    writer.begin();
    push_spaces(writer, 4 * (at.number as usize) - 4);
    push_attack(writer, position, m, at.number);
    push_length(writer, at.shown, at.left);
    writer.end();
}

/// Writes the line of a defender's move.
pub(crate) fn write_defence_line<O: Write>(
    writer: &mut TreeWriter<'_, O>,
    position: &Position,
    m: Move,
    at: Level,
    dual: bool,
)
    requires legal { is_legal position.now m ≡ true }
    requires some { 1 ≤ at.number }
    ensures { Adds O.contents writer.old writer.new (defence_line_of at.number position.now m dual ∷ []) }
{
    writer.begin();
    push_spaces(writer, 4 * (at.number as usize) - 2);
    push_defence(writer, position, m, at.number);
    push_dual(writer, dual);
    writer.end();
}

/// Writes all defences in move order, and below each how the attacker goes on.
#[tactic(auto, unfolding(chess_problems::specs::Outcomes::IsPlayable))]
#[cycle(tree)]
pub(crate) fn write_defences<O: Write>(
    writer: &mut TreeWriter<'_, O>,
    position: &Position,
    at: Level,
)
    requires some { 1 ≤ at.number }
    requires left { at.left ≤ 15 }
    requires few { at.number + at.shown ≤ 255 }
    ensures { Adds O.contents writer.old writer.new (defences at.shown at.number at.left position.now) }
{
    if at.shown == 0 {
        return;
    }
    // That each of them is legal by itself, as `after` asks.
    legal_listed();
    let replies = legal(writer.rays, position);
    for r in replies.as_slice() {
        if writer.sheet.is_closed() {
            return;
        }
        write_defence(writer, position, *r, at);
    }
}

/// Writes one defence, and below it how the attacker goes on.
#[tactic(auto, unfolding(chess_problems::specs::Outcomes::IsPlayable))]
#[cycle(tree)]
fn write_defence<O: Write>(writer: &mut TreeWriter<'_, O>, position: &Position, r: Move, at: Level)
    requires legal { is_legal position.now r ≡ true }
    requires some { 1 ≤ at.number }
    requires left { at.left ≤ 15 }
    requires shown { 0 < at.shown }
    requires few { at.number + at.shown ≤ 255 }
    ensures { Adds O.contents writer.old writer.new
        (defence (defences (at.shown - 1) (at.number + 1)) (at.shown - 1) at.number at.left position.now r) }
{
    let next = after(position, r);
    let outcome = soonest(writer.rays, &next, at.left, writer.memo);
    write_defence_line(writer, position, r, at, has_dual(&outcome));
    match &outcome {
        Outcome::Mate { dm, keys, .. } => {
            let below = Level {
                number: at.number + 1,
                left: dm.get(),
                shown: at.shown - 1,
            };
            write_attacks(writer, &next, keys.as_slice(), below);
        }
        Outcome::NoMate => {}
    }
}

/// Writes an attacker's moves, each with the tree below it.
#[tactic(auto, unfolding(chess_problems::specs::Outcomes::IsPlayable))]
#[cycle(tree)]
fn write_attacks<O: Write>(
    writer: &mut TreeWriter<'_, O>,
    position: &Position,
    moves: &[Move],
    at: Level,
)
    requires legal { AreLegal position.now moves.now }
    requires some { 1 ≤ at.number }
    requires left { (1 ≤ at.left) × (at.left ≤ 15) }
    requires few { at.number + at.shown ≤ 255 }
    ensures { Adds O.contents writer.old writer.new (attacks (defences at.shown at.number) at.shown at.number at.left position.now moves.now) }
{
    // That a move of the list is legal is the clause of `legal_listed`.
    legal_listed();
    for index in 0..moves.len() {
        if writer.sheet.is_closed() {
            return;
        }
        write_attack(writer, position, moves[index], at);
    }
}

/// Writes one move of the attacker's with the tree below it.
#[tactic(auto, unfolding(chess_problems::specs::Outcomes::IsPlayable))]
#[cycle(tree)]
fn write_attack<O: Write>(writer: &mut TreeWriter<'_, O>, position: &Position, m: Move, at: Level)
    requires legal { is_legal position.now m ≡ true }
    requires some { 1 ≤ at.number }
    requires left { (1 ≤ at.left) × (at.left ≤ 15) }
    requires few { at.number + at.shown ≤ 255 }
    ensures { Adds O.contents writer.old writer.new (attack (defences at.shown at.number) at.shown at.number at.left position.now m) }
{
    write_attack_line(writer, position, m, at);
    let below = Level {
        left: at.left - 1,
        ..at
    };
    write_defences(writer, &after(position, m), below);
}
