//! The tree of a record as a part of a text.

ghost use Rattle.std.specs.Prelude.{◌≡◌, ◌++◌, IfOk, true};
ghost use Rattle.chess_problems.specs.Outcomes.{IsPlayable};
ghost use Rattle.chess_notation.specs.Records.{problem_of};
ghost use Rattle.mate_tree.specs.Layouts.{column_text};
ghost use Rattle.mate_tree.specs.Trees.{shown_lines, tree_lines};

use crate::forms::Form;
use crate::sheets::Sheet;
use crate::trees::write_tree;
use crate::writers::TreeWriter;
use byte_streams::NoMemory;
use chess_moves::Rays;
use chess_notation::Record;
use chess_problems::Outcome;
use mate_search::Memo;

/// Adds a record's tree in a column to a text, without its end: the solution as a magazine's column has it. The form asks for a column. Only
/// a growth that is refused is an error.
pub fn push_column(
    rays: &Rays,
    form: Form,
    record: &Record,
    outcome: &Outcome,
    memo: &mut Memo,
    text: &mut Vec<u8>,
) -> Result<(), NoMemory>
    requires column { form.column ≡ true }
    requires playable { IsPlayable «record».now.position outcome.now }
    ensures text { IfOk result (λ _. text.new.items ≡ text.old.items
        ++ column_text (shown_lines form (tree_lines form (problem_of «record».now) outcome.now))) }
    ensures room { memo.new.room ≡ memo.old.room }
{
    let mut writer = TreeWriter {
        rays,
        memo,
        sheet: Sheet::new(form),
        out: text,
    };
    write_tree(&mut writer, &form, record, outcome);
    match writer.finish(b"") {
        Ok(()) => Ok(()),
        Err(_) => Err(NoMemory),
    }
}
