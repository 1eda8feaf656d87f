//! The tree of a record.

ghost use Rattle.std.specs.Prelude.{◌≡◌, ◌≤◌, [], if◌then◌else◌};
ghost use Rattle.chess_problems.specs.Outcomes.{IsPlayable};
ghost use Rattle.chess_notation.specs.Records.{problem_of};
ghost use Rattle.mate_tree.specs.SetPlay.{set_play};
ghost use Rattle.mate_tree.specs.Tries.{tries};
ghost use Rattle.mate_tree.specs.Trees.{tree_lines};
ghost use Rattle.mate_tree.specs.inside.Writers.{Adds};

use crate::forms::Form;
use crate::keys::write_keys;
use crate::lines::Level;
use crate::set_play::write_set_play;
use crate::tries::write_tries;
use crate::writers::TreeWriter;
use chess_board::Position;
use chess_notation::Record;
use chess_problems::Outcome;
use std::io::Write;

/// Writes set play, where it is asked for.
fn write_set_if_asked<O: Write>(
    writer: &mut TreeWriter<'_, O>,
    position: &Position,
    form: &Form,
    left: u8,
)
    requires { left ≤ 15 }
    ensures { Adds O.contents writer.old writer.new (if form.now.set_play then set_play form.now.column left position.now else []) }
{
    if form.set_play {
        write_set_play(writer, position, form.column, left);
    }
}

/// Writes tries, where they are asked for.
fn write_tries_if_asked<O: Write>(
    writer: &mut TreeWriter<'_, O>,
    record: &Record,
    form: &Form,
    left: u8,
)
    requires { left ≤ 15 }
    ensures { Adds O.contents writer.old writer.new
        (if form.now.tries then tries form.now.column left «record».now.position «record».now.avoid else []) }
{
    if form.tries {
        write_tries(
            writer,
            &record.position,
            record.avoid.as_slice(),
            form.column,
            left,
        );
    }
}

/// Writes the tree of a record, by what there is to say of its problem.
#[tactic(auto, unfolding(crate::specs::Trees::tree_lines, chess_problems::specs::Outcomes::IsPlayable))]
pub(crate) fn write_tree<O: Write>(
    writer: &mut TreeWriter<'_, O>,
    form: &Form,
    record: &Record,
    outcome: &Outcome,
)
    requires { IsPlayable «record».now.position outcome.now }
    ensures { Adds O.contents writer.old writer.new (tree_lines form.now (problem_of «record».now) outcome.now) }
{
    match outcome {
        Outcome::Mate { dm, keys, .. } => {
            let n = dm.get();
            let at = Level {
                number: 1,
                left: n,
                shown: form.moves_shown(n).saturating_sub(1),
            };
            write_set_if_asked(writer, &record.position, form, n - 1);
            write_keys(writer, &record.position, keys.as_slice(), form.defences, at);
            write_tries_if_asked(writer, record, form, n - 1);
        }
        Outcome::NoMate => {}
    }
}
