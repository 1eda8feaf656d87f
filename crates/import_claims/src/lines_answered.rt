//! The problems of an input from one of its lines on.

ghost use Rattle.std.specs.Prelude.{◌≡◌, ◌≤◌, ℕ, List, IfErr, IfOk};
ghost use Rattle.std.specs.Io.KnownBytes.{Appends};
ghost use Rattle.byte_streams.specs.Inputs.{MayBe};
ghost use Rattle.byte_streams.specs.Stops.{AppendsBy};
ghost use Rattle.text_lines.specs.Lines.{texts_of};
ghost use Rattle.mail_lines.specs.Mails.{mailed};
ghost use Rattle.problem_import.specs.Problems.{AnswersSourced, IsEnded, IsEndedFirst, IsProblemReply};
ghost use Rattle.text_lines.specs.LinesFrom.{IsReplyOn, IsReplyToFirstOn, lines_from};

use byte_streams::{Input, Stop};
use file_answers::{FileStart, Source};
use mail_lines::answer_mails;
use problem_import::{ProblemHandler, ProblemLines, ProblemMemory};
use std::alloc::Global;
use std::io::Write;
use text_lines::LinesFrom;

/// Answers the problems of an input that its lines from that of a number on say. Gives at how many lines, the end of the input for one, a
/// refusal is among it.
pub(crate) fn answer_problems_from<H: ProblemHandler, S: Source, I: Input + Drop, O: Write>(
    alloc: Global,
    lines: &ProblemLines<H>,
    start: &FileStart<S>,
    input: I,
    memory: &mut ProblemMemory<H::Memory>,
    out: &mut O,
) -> Result<usize, Stop>
    requires from { 1 ≤ start.now.from }
    ensures ok { IfOk result (λ count. (bytes : List ℕ) × (text : List ℕ) × MayBe (I.left input) bytes
        × (IsEnded lines.now.printing.keep lines.now.printing.bound (H.records lines.now.handler.now) (H.rows lines.now.handler.now)
        (IsReplyOn (IsProblemReply lines.now.printing.letters.moves lines.now.printing.keep lines.now.printing.bound (H.records lines.now.handler.now) (H.rows lines.now.handler.now))
        start.now.from (mailed lines.now.printing.letters.placements bytes)) text count
        × AnswersSourced lines.now.printing.letters.placements lines.now.printing.bound (H.records lines.now.handler.now) (H.rows lines.now.handler.now)
        (lines_from start.now.from (texts_of (mailed lines.now.printing.letters.placements bytes))) text)
        × Appends (O.contents out.old) (O.contents out.new) text) }
    ensures err { IfErr result (λ stop. (bytes : List ℕ) × (text : List ℕ) × MayBe (I.left input) bytes
        × (IsEndedFirst lines.now.printing.keep lines.now.printing.bound (H.records lines.now.handler.now) (H.rows lines.now.handler.now)
        (IsReplyToFirstOn (IsProblemReply lines.now.printing.letters.moves lines.now.printing.keep lines.now.printing.bound (H.records lines.now.handler.now)
        (H.rows lines.now.handler.now)) start.now.from (mailed lines.now.printing.letters.placements bytes))
        text
        × AnswersSourced lines.now.printing.letters.placements lines.now.printing.bound (H.records lines.now.handler.now) (H.rows lines.now.handler.now)
        (lines_from start.now.from (texts_of (mailed lines.now.printing.letters.placements bytes))) text)
        × AppendsBy stop (O.contents out.old) (O.contents out.new) text) }
    ensures unreadable { IfErr result (λ stop. stop ≡ Stop.Unreadable → I.breaks input) }
{
    memory.begin(&lines.printing.letters);
    match answer_mails(
        alloc,
        &lines.printing.letters.placements,
        &LinesFrom {
            by: lines,
            from: start.from,
            progress: start.source,
        },
        input,
        memory,
        out,
    ) {
        Ok(count) => lines.put_last(alloc, count, memory, out),
        Err(stop) => Err(stop),
    }
}
