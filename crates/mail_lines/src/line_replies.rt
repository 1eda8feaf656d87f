//! The reply to one line, or to a problem with the lines that it takes on.

ghost use Rattle.std.specs.Prelude.{◌≡◌, ◌<◌, ◌≤◌, ℕ, List, IfErr, IfOk, false, length, true, ◌≢◌};
ghost use Rattle.std.specs.Io.KnownBytes.{Appends};
ghost use Rattle.byte_streams.specs.Stops.{AppendsPart, is_of_output};
ghost use Rattle.chess_notation.specs.Records.{max_line};
ghost use Rattle.chess_notation.specs.Words.{is_blank as is_blank_text};
ghost use Rattle.mail_lines.specs.inside.MailReplies.{BreaksIn, IsWritten, rules_from, rules_of};
ghost use Rattle.mail_lines.specs.inside.OpenMails.{IsTextOf};

use byte_streams::{Stop, put};
use chess_notation::is_blank;
use std::alloc::Global;
use std::io::Write;
use text_lines::{LineHandler, LinesFrom, MAX_LINE, Output, Progress, TakenLine};

/// Writes a reply, and tells it once it is written; gives how many lines it refuses.
fn put_reply<P: Progress, O: Write>(
    out: &mut O,
    progress: &P,
    output: &Output,
) -> Result<usize, Stop>
    ensures ok { IfOk result (λ refused. (refused ≡ output.now.refused) × Appends (O.contents out.old) (O.contents out.new) output.now.text.items) }
    ensures err { IfErr result (λ stop. (is_of_output stop ≡ true) × AppendsPart (O.contents out.old) (O.contents out.new) output.now.text.items) }
{
    match put(out, output.text.as_slice()) {
        Ok(()) => {
            progress.ends(output.text.as_slice());
            Ok(output.refused)
        }
        Err(stop) => Err(stop),
    }
}

/// Writes the reply to a text that is longer than a record may be.
fn refuse_text<H: LineHandler, P: Progress, O: Write>(
    alloc: Global,
    lines: &LinesFrom<H, P>,
    number: usize,
    out: &mut O,
) -> Result<usize, Stop>
    ensures ok { IfOk result (λ refused. (memory : H.Memory) (text : List ℕ) → is_blank_text text ≡ false → max_line < length text
        → IsWritten (rules_of (H.replies lines.now.by.now) (H.knows lines.now.by.now) (H.follows lines.now.by.now)) number text memory memory
        (O.contents out.old) (O.contents out.new) refused) }
    ensures err { IfErr result (λ stop. (memory : H.Memory) (text : List ℕ) → is_blank_text text ≡ false → max_line < length text
        → BreaksIn (rules_of (H.replies lines.now.by.now) (H.knows lines.now.by.now) (H.follows lines.now.by.now)) number text memory
        (O.contents out.old) (O.contents out.new) stop) }
    ensures few { IfOk result (λ refused. refused ≤ 1) }
    ensures readable { IfErr result (λ stop. stop ≢ Stop.Unreadable) }
{
    lines.progress.begins(number);
    match lines.by.refuse_long(alloc, number) {
        Ok(output) => put_reply(out, lines.progress, &output),
        Err(_) => Err(Stop::NoMemory),
    }
}

/// Writes the reply to a text that is neither blank nor longer than a record may be.
fn answer_text<H: LineHandler, P: Progress, O: Write>(
    alloc: Global,
    lines: &LinesFrom<H, P>,
    number: usize,
    text: &[u8],
    memory: &mut H::Memory,
    out: &mut O,
) -> Result<usize, Stop>
    requires ready { H.ready lines.now.by.now }
    requires filled { is_blank_text text.now ≡ false }
    requires short { length text.now ≤ max_line }
    ensures ok { IfOk result (IsWritten (rules_of (H.replies lines.now.by.now) (H.knows lines.now.by.now) (H.follows lines.now.by.now)) number text.now
        memory.old memory.new (O.contents out.old) (O.contents out.new)) }
    ensures err { IfErr result (BreaksIn (rules_of (H.replies lines.now.by.now) (H.knows lines.now.by.now) (H.follows lines.now.by.now)) number text.now
        memory.old (O.contents out.old) (O.contents out.new)) }
    ensures few { IfOk result (λ refused. refused ≤ 1) }
    ensures readable { IfErr result (λ stop. stop ≢ Stop.Unreadable) }
    ensures grows { IfOk result (λ _. H.tally memory.old ≤ H.tally memory.new) }
    ensures room { H.room memory.new ≡ H.room memory.old }
{
    lines.progress.begins(number);
    match lines.by.answer(alloc, number, text, memory) {
        Ok(output) => put_reply(out, lines.progress, &output),
        Err(_) => Err(Stop::NoMemory),
    }
}

/// Writes the reply to a line by what is kept of it.
fn answer_line<H: LineHandler, P: Progress, O: Write>(
    alloc: Global,
    lines: &LinesFrom<H, P>,
    number: usize,
    line: &TakenLine,
    memory: &mut H::Memory,
    out: &mut O,
) -> Result<usize, Stop>
    requires ready { H.ready lines.now.by.now }
    ensures ok { IfOk result (λ refused. (text : List ℕ) → IsTextOf line.now text
        → IsWritten (rules_of (H.replies lines.now.by.now) (H.knows lines.now.by.now) (H.follows lines.now.by.now)) number text
        memory.old memory.new (O.contents out.old) (O.contents out.new) refused) }
    ensures err { IfErr result (λ stop. (text : List ℕ) → IsTextOf line.now text
        → BreaksIn (rules_of (H.replies lines.now.by.now) (H.knows lines.now.by.now) (H.follows lines.now.by.now)) number text
        memory.old (O.contents out.old) (O.contents out.new) stop) }
    ensures few { IfOk result (λ refused. refused ≤ 1) }
    ensures readable { IfErr result (λ stop. stop ≢ Stop.Unreadable) }
    ensures grows { IfOk result (λ _. H.tally memory.old ≤ H.tally memory.new) }
    ensures room { H.room memory.new ≡ H.room memory.old }
{
    match line {
        TakenLine::Text(text) if text.len() <= MAX_LINE && !is_blank(text.as_slice()) => {
            answer_text(alloc, lines, number, text.as_slice(), memory, out)
        }
        TakenLine::Text(text) if is_blank(text.as_slice()) => Ok(0),
        TakenLine::Blank => Ok(0),
        _ => refuse_text(alloc, lines, number, out),
    }
}

/// Writes the reply to a line that isn't passed over; gives how many refusals that is.
pub(crate) fn answer_from<H: LineHandler, P: Progress, O: Write>(
    alloc: Global,
    lines: &LinesFrom<H, P>,
    number: usize,
    line: &TakenLine,
    memory: &mut H::Memory,
    out: &mut O,
) -> Result<usize, Stop>
    requires ready { H.ready lines.now.by.now }
    ensures ok { IfOk result (λ refused. (text : List ℕ) → IsTextOf line.now text
        → IsWritten (rules_from (H.replies lines.now.by.now) (H.knows lines.now.by.now) (H.follows lines.now.by.now) lines.now.from) number text
        memory.old memory.new (O.contents out.old) (O.contents out.new) refused) }
    ensures err { IfErr result (λ stop. (text : List ℕ) → IsTextOf line.now text
        → BreaksIn (rules_from (H.replies lines.now.by.now) (H.knows lines.now.by.now) (H.follows lines.now.by.now) lines.now.from) number text
        memory.old (O.contents out.old) (O.contents out.new) stop) }
    ensures few { IfOk result (λ refused. refused ≤ 1) }
    ensures readable { IfErr result (λ stop. stop ≢ Stop.Unreadable) }
    ensures grows { IfOk result (λ _. H.tally memory.old ≤ H.tally memory.new) }
    ensures room { H.room memory.new ≡ H.room memory.old }
{
    if number < lines.from {
        return Ok(0);
    }
    answer_line(alloc, lines, number, line, memory, out)
}
