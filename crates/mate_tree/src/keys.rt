//! The keys, what each threatens, and the tree below each.

ghost use Rattle.std.specs.Prelude.{◌≡◌, ◌-◌, ◌<◌, ◌≤◌, [], ◌∷◌, true};
ghost use Rattle.chess_board.specs.Legality.{is_legal};
ghost use Rattle.chess_problems.specs.Outcomes.{AreLegal};
ghost use Rattle.mate_tree.specs.Keys.{below_key, key_line as key_line_of, key_lines, lines_of_key};
ghost use Rattle.mate_tree.specs.inside.Writers.{Adds};

use crate::defences::write_defences;
use crate::lines::{Level, push_attack, push_length};
use crate::threats::push_idea;
use crate::variations::write_variations;
use crate::writers::TreeWriter;
use chess_board::{Move, Position, after};
use chess_moves::legal_listed;
use std::io::Write;

/// Writes the line of a key.
fn write_key_line<O: Write>(writer: &mut TreeWriter<'_, O>, position: &Position, m: Move, at: Level)
    requires legal { is_legal position.now m ≡ true }
    requires left { (1 ≤ at.left) × (at.left ≤ 15) }
    ensures { Adds O.contents writer.old writer.new (key_line_of at.shown at.left position.now m ∷ []) }
{
    let threat = Level {
        number: 2,
        left: at.left - 1,
        ..at
    };
    writer.begin();
    push_attack(writer, position, m, 1);
    writer.push(b"!");
    push_idea(writer, &after(position, m), threat);
    push_length(writer, at.shown, at.left);
    writer.end();
}

/// Writes what stands below a key: all defences, or those that parry alone.
fn write_below<O: Write>(
    writer: &mut TreeWriter<'_, O>,
    position: &Position,
    alone: bool,
    at: Level,
)
    requires first { at.number ≡ 1 }
    requires left { at.left ≤ 15 }
    requires few { at.shown < 255 }
    ensures { Adds O.contents writer.old writer.new (below_key alone at.shown at.left position.now) }
{
    if alone {
        write_variations(writer, position, at);
    } else {
        write_defences(writer, position, at);
    }
}

/// Writes a key with the tree below it.
fn write_key<O: Write>(
    writer: &mut TreeWriter<'_, O>,
    position: &Position,
    m: Move,
    alone: bool,
    at: Level,
)
    requires legal { is_legal position.now m ≡ true }
    requires first { at.number ≡ 1 }
    requires left { (1 ≤ at.left) × (at.left ≤ 15) }
    requires few { at.shown < 255 }
    ensures { Adds O.contents writer.old writer.new (lines_of_key alone at.shown at.left position.now m) }
{
    write_key_line(writer, position, m, at);
    let below = Level {
        left: at.left - 1,
        ..at
    };
    write_below(writer, &after(position, m), alone, below);
}

/// Writes all keys, each with the tree below it.
pub(crate) fn write_keys<O: Write>(
    writer: &mut TreeWriter<'_, O>,
    position: &Position,
    keys: &[Move],
    alone: bool,
    at: Level,
)
    requires legal { AreLegal position.now keys.now }
    requires first { at.number ≡ 1 }
    requires left { (1 ≤ at.left) × (at.left ≤ 15) }
    requires few { at.shown < 255 }
    ensures { Adds O.contents writer.old writer.new (key_lines alone at.shown at.left position.now keys.now) }
{
    // That a move of the list is legal is the clause of `legal_listed`.
    legal_listed();
    for index in 0..keys.len() {
        if writer.sheet.is_closed() {
            return;
        }
        write_key(writer, position, keys[index], alone, at);
    }
}
