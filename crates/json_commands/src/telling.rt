//! The command `tree --json`.

ghost use Rattle.std.specs.Prelude.{◌≡◌, IfErr, IfOk, map};
ghost use Rattle.file_answers.specs.Writing.{Gains};
ghost use Rattle.json_commands.specs.Told.{StopsTellingJson, TellsJson};

use crate::json_files::{JsonHandler, answer_json};
use byte_streams::Stop;
use file_answers::{Source, SourceFiles};
use json_replies::{Form, Gathered};
use mate_search::Memo;
use mate_tree::TreeReplies;
use std::alloc::Global;
use std::io::Write;

/// Tells the trees of records, but in JSON: a line for each that isn't blank, whole in memory before it is written. It gives whether a line
/// was refused, and names a file that can't be read on `err`.
pub fn tell_json<S: Source, O: Write, E: Write>(
    alloc: Global,
    trees: &TreeReplies,
    files: &SourceFiles<S>,
    memo: &mut Memo,
    out: &mut O,
    err: &mut E,
) -> Result<bool, Stop>
    ensures ok { IfOk result (λ refused. Gains (TellsJson (S.holds files.now.source.now) trees.now.default trees.now.form files.now.from
        (map (λ s. s.now) files.now.names.now) refused) (O.contents out.old) (O.contents out.new)) }
    ensures err { IfErr result (λ stop. StopsTellingJson (S.holds files.now.source.now) (S.refuses files.now.source.now) trees.now.default
        trees.now.form files.now.from (map (λ s. s.now) files.now.names.now) stop (O.contents out.old) (O.contents out.new)) }
{
    let gathered = Gathered { writer: trees };
    let json = JsonHandler {
        handler: &gathered,
        form: Form::Tree,
    };
    answer_json(alloc, &json, files, memo, out, err)
}
