//! Files that are answered in JSON.

ghost use Rattle.std.specs.Prelude.{◌≡◌, ◌-◌, IfErr, IfOk, map};
ghost use Rattle.file_answers.specs.FileAnswers.{AnswersTold};
ghost use Rattle.file_answers.specs.Writing.{Gains};
ghost use Rattle.json_commands.specs.JsonFiles.{AnswersJson, StopsJson, file_told, has_several as are_several};

use byte_streams::{Input, Stop};
use file_answers::{FileAnswers, FileStart, Source, SourceFiles, answer_files};
use json_replies::{Form, JsonReplies, front_of};
use std::alloc::Global;
use std::io::Write;
use text_lines::{LineHandler, LinesFrom, answer_lines};

/// Who answers lines without JSON, and the form that replies have in it.
#[derive(Clone, Copy)]
pub(crate) struct JsonHandler<'a, H> {
    pub(crate) handler: &'a H,
    pub(crate) form: Form,
}

/// Answers the lines of files so, in JSON.
#[derive(Clone, Copy)]
struct JsonFiles<'a, H> {
    json: &'a JsonHandler<'a, H>,
    /// Whether an object names its file.
    several: bool,
}

impl<H: LineHandler> FileAnswers for JsonFiles<'_, H> {
    ghost use Rattle.json_commands.specs.JsonFiles.{file_replies, file_told, first_file_replies};

    type Memory = H::Memory;

    ghost ready = { λ files. H.ready files.json.now.handler.now };

    ghost replies = { λ files. file_replies files.json.now.form files.several (H.replies files.json.now.handler.now) };

    ghost told = { λ files. file_told files.json.now.form files.several (H.replies files.json.now.handler.now) (H.marks files.json.now.handler.now) };

    ghost tally = { λ memory. H.tally memory };

    ghost tells = { λ _ _ _ _ _ _ _ told. told.0 };

    ghost first = { λ files. first_file_replies files.json.now.form files.several (H.replies files.json.now.handler.now) };

    fn answer<S: Source, I: Input + Drop, O: Write>(
        &self,
        alloc: Global,
        start: &FileStart<S>,
        input: I,
        memory: &mut H::Memory,
        out: &mut O,
    ) -> Result<usize, Stop> {
        let front = front_of(alloc, self.several, start.name)?;
        let json = JsonReplies {
            handler: self.json.handler,
            form: self.json.form,
            front: front.as_slice(),
        };
        answer_lines(
            alloc,
            &LinesFrom {
                by: &json,
                from: start.from,
                progress: start.source,
            },
            input,
            memory,
            out,
        )
    }

    #[tactic(auto, using(crate::proofs::Unopened::no_file_reply))]
    fn begins_with_nothing(&self) {}
}

/// Whether there are several files.
pub(crate) fn has_several(names: &[&str]) -> bool
    ensures { result ≡ are_several (map (λ s. s.now) names.now) }
{
    names.len() > 1
}

/// Answers the lines of files in order, but those of the first file that are passed over, in such a form;
/// gives whether a line was refused; how many marks there are more, the memory tells. A file that can't be read is named on `err`.
pub(crate) fn answer_json<H: LineHandler, S: Source, O: Write, E: Write>(
    alloc: Global,
    json: &JsonHandler<H>,
    files: &SourceFiles<S>,
    memory: &mut H::Memory,
    out: &mut O,
    err: &mut E,
) -> Result<bool, Stop>
    requires ready { H.ready json.now.handler.now }
    ensures ok { IfOk result (λ refused. Gains (AnswersJson (S.holds files.now.source.now) json.now.form (H.replies json.now.handler.now)
        files.now.from (map (λ s. s.now) files.now.names.now) refused) (O.contents out.old) (O.contents out.new)) }
    ensures told { IfOk result (λ refused. Gains (AnswersTold (S.holds files.now.source.now)
        (file_told json.now.form (are_several (map (λ s. s.now) files.now.names.now)) (H.replies json.now.handler.now)
        (H.marks json.now.handler.now)) files.now.from (map (λ s. s.now) files.now.names.now) refused
        (H.tally memory.new - H.tally memory.old)) (O.contents out.old) (O.contents out.new)) }
    ensures err { IfErr result (λ stop. StopsJson (S.holds files.now.source.now) (S.refuses files.now.source.now) json.now.form
        (H.replies json.now.handler.now) files.now.from (map (λ s. s.now) files.now.names.now) stop (O.contents out.old) (O.contents out.new)) }
{
    let answers = JsonFiles {
        json,
        several: has_several(files.names),
    };
    answer_files(alloc, &answers, files, memory, out, err)
}
