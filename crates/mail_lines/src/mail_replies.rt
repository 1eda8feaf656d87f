//! The replies to an input whose lines are joined.

ghost use Rattle.std.specs.Prelude.{◌≡◌, ◌<◌, ◌≤◌, ◌+◌, ℕ, List, [], IfErr, IfOk, None, Some, false, true, ◌≢◌};
ghost use Rattle.std.specs.Io.KnownBytes.{Appends};
ghost use Rattle.byte_streams.specs.Inputs.{MayBe};
ghost use Rattle.byte_streams.specs.Stops.{AppendsBy};
ghost use Rattle.text_lines.specs.Lines.{lines_of, texts_of};
ghost use Rattle.text_lines.specs.LinesFrom.{IsReplyOn, IsReplyToFirstOn, lines_from};
ghost use Rattle.text_lines.specs.Replies.{IsReply, IsReplyToFirst, behind};
ghost use Rattle.mail_lines.specs.Mails.{ends_mail as does_end_mail, mailed};
ghost use Rattle.mail_lines.specs.inside.MailReplies.{AreWritten, BreakIn, EndsWith, StopsAtEnd, StopsOn, TakesOn, rules_from};
ghost use Rattle.mail_lines.specs.inside.OpenMails.{IsTextOf};

use crate::line_replies::answer_from;
use crate::open_mails::{
    OpenMail, bared_line, begins, heads, joined, lettered_line, text_taken_on,
};
use byte_streams::{Input, Stop};
use move_words::Letters;
use std::alloc::Global;
use std::io::Write;
use text_lines::{LineHandler, LinesFrom, Progress, TakenLine, TakenLines};

/// How many bytes are asked for at once.
const PIECE: usize = 4096;

/// What there is once a line is taken: how many refusals were written with it, the problem that is open now, and whether the next line is headed.
#[derive(Drop)]
struct Next {
    refused: usize,
    mail: Option<OpenMail>,
    is_headed: bool,
}

/// Takes a line where no problem is open.
fn take_first<H: LineHandler, P: Progress, O: Write>(
    alloc: Global,
    lines: &LinesFrom<H, P>,
    number: usize,
    line: TakenLine,
    is_headed: bool,
    memory: &mut H::Memory,
    out: &mut O,
) -> Result<Next, Stop>
    requires ready { H.ready lines.now.by.now }
    ensures ok { IfOk result (λ next. TakesOn (rules_from (H.replies lines.now.by.now) (H.knows lines.now.by.now) (H.follows lines.now.by.now)
        lines.now.from) line number None is_headed next.mail next.is_headed memory.old memory.new (O.contents out.old) (O.contents out.new) next.refused) }
    ensures err { IfErr result (StopsOn (rules_from (H.replies lines.now.by.now) (H.knows lines.now.by.now) (H.follows lines.now.by.now)
        lines.now.from) line number None is_headed memory.old (O.contents out.old) (O.contents out.new)) }
    ensures few { IfOk result (λ next. next.refused ≤ 1) }
    ensures readable { IfErr result (λ stop. stop ≢ Stop.Unreadable) }
    ensures grows { IfOk result (λ _. H.tally memory.old ≤ H.tally memory.new) }
    ensures room { H.room memory.new ≡ H.room memory.old }
{
    let text = bared_line(alloc, line)?;
    if begins(is_headed, &text) {
        return Ok(Next {
            refused: 0,
            mail: Some(OpenMail { number, text }),
            is_headed: false,
        });
    }
    Ok(Next {
        refused: answer_from(alloc, lines, number, &text, memory, out)?,
        mail: None,
        is_headed: heads(is_headed, &text),
    })
}

/// Takes a line that ends an open problem, whose reply is written before.
fn take_behind<H: LineHandler, P: Progress, O: Write>(
    alloc: Global,
    lines: &LinesFrom<H, P>,
    number: usize,
    line: TakenLine,
    mail: &OpenMail,
    memory: &mut H::Memory,
    out: &mut O,
) -> Result<Next, Stop>
    requires ready { H.ready lines.now.by.now }
    requires ends { (text : List ℕ) → IsTextOf line text → does_end_mail text ≡ true }
    ensures ok { IfOk result (λ next. TakesOn (rules_from (H.replies lines.now.by.now) (H.knows lines.now.by.now) (H.follows lines.now.by.now)
        lines.now.from) line number (Some mail.now) false next.mail next.is_headed memory.old memory.new (O.contents out.old) (O.contents out.new) next.refused) }
    ensures err { IfErr result (StopsOn (rules_from (H.replies lines.now.by.now) (H.knows lines.now.by.now) (H.follows lines.now.by.now)
        lines.now.from) line number (Some mail.now) false memory.old (O.contents out.old) (O.contents out.new)) }
    ensures few { IfOk result (λ next. next.refused ≤ 2) }
    ensures readable { IfErr result (λ stop. stop ≢ Stop.Unreadable) }
    ensures grows { IfOk result (λ _. H.tally memory.old ≤ H.tally memory.new) }
    ensures room { H.room memory.new ≡ H.room memory.old }
{
    let refused = answer_from(alloc, lines, mail.number, &mail.text, memory, out)?;
    let next = take_first(alloc, lines, number, line, false, memory, out)?;
    Ok(Next {
        refused: refused + next.refused,
        mail: next.mail,
        is_headed: next.is_headed,
    })
}

/// Takes a line, whether a problem is open or not.
fn take_next<H: LineHandler, P: Progress, O: Write>(
    alloc: Global,
    lines: &LinesFrom<H, P>,
    number: usize,
    line: TakenLine,
    mail: Option<OpenMail>,
    is_headed: bool,
    memory: &mut H::Memory,
    out: &mut O,
) -> Result<Next, Stop>
    requires ready { H.ready lines.now.by.now }
    ensures ok { IfOk result (λ next. TakesOn (rules_from (H.replies lines.now.by.now) (H.knows lines.now.by.now) (H.follows lines.now.by.now)
        lines.now.from) line number mail is_headed next.mail next.is_headed memory.old memory.new (O.contents out.old) (O.contents out.new) next.refused) }
    ensures err { IfErr result (StopsOn (rules_from (H.replies lines.now.by.now) (H.knows lines.now.by.now) (H.follows lines.now.by.now)
        lines.now.from) line number mail is_headed memory.old (O.contents out.old) (O.contents out.new)) }
    ensures few { IfOk result (λ next. next.refused ≤ 2) }
    ensures readable { IfErr result (λ stop. stop ≢ Stop.Unreadable) }
    ensures grows { IfOk result (λ _. H.tally memory.old ≤ H.tally memory.new) }
    ensures room { H.room memory.new ≡ H.room memory.old }
{
    let Some(mail) = mail else {
        return take_first(alloc, lines, number, line, is_headed, memory, out);
    };
    let Some(more) = text_taken_on(&line) else {
        return take_behind(alloc, lines, number, line, &mail, memory, out);
    };
    Ok(Next {
        refused: 0,
        mail: Some(OpenMail {
            number: mail.number,
            text: joined(mail.text, more)?,
        }),
        is_headed: false,
    })
}

/// Answers the problem that is open behind the last line.
fn answer_last<H: LineHandler, P: Progress, O: Write>(
    alloc: Global,
    lines: &LinesFrom<H, P>,
    mail: &Option<OpenMail>,
    memory: &mut H::Memory,
    out: &mut O,
) -> Result<usize, Stop>
    requires ready { H.ready lines.now.by.now }
    ensures ok { IfOk result (EndsWith (rules_from (H.replies lines.now.by.now) (H.knows lines.now.by.now) (H.follows lines.now.by.now)
        lines.now.from) mail.now memory.old memory.new (O.contents out.old) (O.contents out.new)) }
    ensures err { IfErr result (StopsAtEnd (rules_from (H.replies lines.now.by.now) (H.knows lines.now.by.now) (H.follows lines.now.by.now)
        lines.now.from) mail.now memory.old (O.contents out.old) (O.contents out.new)) }
    ensures few { IfOk result (λ refused. refused ≤ 1) }
    ensures readable { IfErr result (λ stop. stop ≢ Stop.Unreadable) }
    ensures grows { IfOk result (λ _. H.tally memory.old ≤ H.tally memory.new) }
    ensures room { H.room memory.new ≡ H.room memory.old }
{
    match mail {
        Some(mail) => answer_from(alloc, lines, mail.number, &mail.text, memory, out),
        None => Ok(0),
    }
}

/// Takes all lines of an input, and answers each, or the problem that takes it on, before a line behind that is waited for.
fn write_mails<H: LineHandler, P: Progress, I: Input + Drop, O: Write>(
    alloc: Global,
    letters: &Letters,
    lines: &LinesFrom<H, P>,
    input: I,
    memory: &mut H::Memory,
    out: &mut O,
) -> Result<usize, Stop>
    requires ready { H.ready lines.now.by.now }
    ensures ok { IfOk result (λ refused. (bytes : List ℕ) × MayBe (I.left input) bytes
        × AreWritten (rules_from (H.replies lines.now.by.now) (H.knows lines.now.by.now) (H.follows lines.now.by.now) lines.now.from)
        memory.old memory.new (O.contents out.old) (O.contents out.new) (lines_of (mailed letters.now bytes)) refused) }
    ensures err { IfErr result (λ stop. (bytes : List ℕ) × MayBe (I.left input) bytes
        × BreakIn (rules_from (H.replies lines.now.by.now) (H.knows lines.now.by.now) (H.follows lines.now.by.now) lines.now.from)
        memory.old stop (O.contents out.old) (O.contents out.new) (lines_of (mailed letters.now bytes))) }
    ensures unreadable { IfErr result (λ stop. stop ≡ Stop.Unreadable → I.breaks input) }
    ensures grows { IfOk result (λ _. H.tally memory.old ≤ H.tally memory.new) }
    ensures room { H.room memory.new ≡ H.room memory.old }
{
    let mut rest = TakenLines::new(alloc, input, PIECE);
    let mut mail = None;
    let mut is_headed = false;
    let mut refused = 0;
    for number in 1..usize::MAX {
        let taken = rest.take(alloc)?;
        let line = lettered_line(alloc, letters, taken.line)?;
        let next = take_next(alloc, lines, number, line, mail, is_headed, memory, out)?;
        refused += next.refused;
        mail = next.mail;
        is_headed = next.is_headed;
        if taken.is_last {
            return Ok(refused + answer_last(alloc, lines, &mail, memory, out)?);
        }
    }
    Err(Stop::NoMemory)
}

/// Answers an input line by line, from that of a number on, where men have such letters in placements, and a problem takes on the lines behind it and is answered with them: what is
/// written is what `answer_lines` writes for the input whose lines are so joined. Each line is answered before the next is waited for, and
/// a problem once a line has come that ends it. Gives how many lines are refused.
///
/// Where it stops before the end, the replies to some of the first lines are written. A line is taken into memory no further than a record is
/// long, and a problem with its lines no further than that.
pub fn answer_mails<H: LineHandler, P: Progress, I: Input + Drop, O: Write>(
    alloc: Global,
    letters: &Letters,
    lines: &LinesFrom<H, P>,
    input: I,
    memory: &mut H::Memory,
    out: &mut O,
) -> Result<usize, Stop>
    requires ready { H.ready lines.now.by.now }
    requires from { 1 ≤ lines.now.from }
    ensures ok { IfOk result (λ refused. (bytes : List ℕ) × (text : List ℕ) × MayBe (I.left input) bytes
        × IsReplyOn (H.replies lines.now.by.now) lines.now.from (mailed letters.now bytes) text refused
        × Appends (O.contents out.old) (O.contents out.new) text) }
    ensures followed { IfOk result (λ refused. H.knows lines.now.by.now memory.old [] → (bytes : List ℕ) × (text : List ℕ)
        × MayBe (I.left input) bytes
        × (IsReplyOn (behind (H.follows lines.now.by.now) (lines_from lines.now.from (texts_of (mailed letters.now bytes)))) lines.now.from (mailed letters.now bytes) text
        refused × H.knows lines.now.by.now memory.new (lines_from lines.now.from (texts_of (mailed letters.now bytes))))
        × Appends (O.contents out.old) (O.contents out.new) text) }
    ensures grows { IfOk result (λ _. H.tally memory.old ≤ H.tally memory.new) }
    ensures err { IfErr result (λ stop. (bytes : List ℕ) × (text : List ℕ) × MayBe (I.left input) bytes
        × IsReplyToFirstOn (H.replies lines.now.by.now) lines.now.from (mailed letters.now bytes) text
        × AppendsBy stop (O.contents out.old) (O.contents out.new) text) }
    ensures broken { IfErr result (λ stop. H.knows lines.now.by.now memory.old [] → (bytes : List ℕ) × (text : List ℕ)
        × MayBe (I.left input) bytes
        × IsReplyToFirstOn (behind (H.follows lines.now.by.now) (lines_from lines.now.from (texts_of (mailed letters.now bytes)))) lines.now.from (mailed letters.now bytes)
        text × AppendsBy stop (O.contents out.old) (O.contents out.new) text) }
    ensures unreadable { IfErr result (λ stop. stop ≡ Stop.Unreadable → I.breaks input) }
    ensures room { H.room memory.new ≡ H.room memory.old }
{
    write_mails(alloc, letters, lines, input, memory, out)
}

/// The same from the first line on, of which nobody is told.
#[tactic(auto, unfolding(text_lines::specs::Replies::IsReply, text_lines::specs::Replies::IsReplyToFirst, text_lines::specs::LinesFrom::IsReplyOn, text_lines::specs::LinesFrom::IsReplyToFirstOn))]
pub fn answer_mails_input<H: LineHandler, I: Input + Drop, O: Write>(
    alloc: Global,
    letters: &Letters,
    handler: &H,
    input: I,
    memory: &mut H::Memory,
    out: &mut O,
) -> Result<usize, Stop>
    requires ready { H.ready handler.now }
    ensures ok { IfOk result (λ refused. (bytes : List ℕ) × (text : List ℕ) × MayBe (I.left input) bytes
        × IsReply (H.replies handler.now) (mailed letters.now bytes) text refused
        × Appends (O.contents out.old) (O.contents out.new) text) }
    ensures followed { IfOk result (λ refused. H.knows handler.now memory.old [] → (bytes : List ℕ) × (text : List ℕ)
        × MayBe (I.left input) bytes
        × (IsReply (behind (H.follows handler.now) (texts_of (mailed letters.now bytes))) (mailed letters.now bytes) text refused
        × H.knows handler.now memory.new (texts_of (mailed letters.now bytes)))
        × Appends (O.contents out.old) (O.contents out.new) text) }
    ensures grows { IfOk result (λ _. H.tally memory.old ≤ H.tally memory.new) }
    ensures err { IfErr result (λ stop. (bytes : List ℕ) × (text : List ℕ) × MayBe (I.left input) bytes
        × IsReplyToFirst (H.replies handler.now) (mailed letters.now bytes) text
        × AppendsBy stop (O.contents out.old) (O.contents out.new) text) }
    ensures broken { IfErr result (λ stop. H.knows handler.now memory.old [] → (bytes : List ℕ) × (text : List ℕ)
        × MayBe (I.left input) bytes × IsReplyToFirst (behind (H.follows handler.now) (texts_of (mailed letters.now bytes))) (mailed letters.now bytes) text
        × AppendsBy stop (O.contents out.old) (O.contents out.new) text) }
    ensures unreadable { IfErr result (λ stop. stop ≡ Stop.Unreadable → I.breaks input) }
    ensures room { H.room memory.new ≡ H.room memory.old }
{
    let lines = LinesFrom {
        by: handler,
        from: 1,
        progress: &(),
    };
    answer_mails(alloc, letters, &lines, input, memory, out)
}
