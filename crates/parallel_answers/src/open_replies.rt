//! The replies to lines that were taken, up to where they are written.

ghost use Rattle.std.specs.Prelude.{◌≡◌, ◌∷◌, ◌++◌, ◌+◌, ℕ, List, [], None, IfErr, IfNone, IfOk, IfSome, OnOk};
ghost use Rattle.text_lines.specs.Lines.{without_cr};
ghost use Rattle.text_lines.specs.TakenLines.{IsTakenAs};
ghost use Rattle.text_lines.specs.inside.LinesFrom.{RepliesFrom};
ghost use Rattle.parallel_answers.specs.inside.OpenReplies.{CountsOne, Gains, IsOpen, KnownFrom, MarksFrom, rules_from, rules_of};

use crate::answered_lines::AnsweredLine;
use crate::line_tasks::{LineTask, Reply};
use crate::workers::Arrived;
use byte_streams::Stop;
use chess_moves::Rays;
use std::alloc::Global;
use std::collections::VecDeque;
use text_lines::{LinesFrom, TakenLine};

/// The reply to a line: it is there, or the line, without its CR, waits for an answer.
#[derive(Drop)]
pub(crate) enum OpenReply<M: Drop> {
    Said(Reply<M>),
    Awaited(Vec<u8>),
}

/// Replies that are not written yet, in the order of their lines; the number of the line of the first; and how many lines were refused
/// before it.
#[derive(Drop)]
pub(crate) struct OpenReplies<M: Drop> {
    pub(crate) replies: VecDeque<OpenReply<M>>,
    pub(crate) first: usize,
    pub(crate) refused: usize,
}

/// A reply to a line that says nothing: it is neither answered nor refused, nor counted.
fn nothing<M: Drop>(alloc: Global) -> Reply<M>
    ensures text { result.text.items ≡ [] }
    ensures none { result.refused ≡ 0 }
    ensures mark { result.mark ≡ None }
{
    Reply {
        text: Vec::new(alloc),
        refused: 0,
        mark: None,
    }
}

/// What there is to say to a line before anybody answers it.
fn looked_at<T: LineTask>(
    alloc: Global,
    rays: &Rays,
    task: &T,
    number: usize,
    line: TakenLine,
) -> Result<OpenReply<T::Mark>, Stop>
    ensures open { IfOk result (λ reply. (whole : List ℕ) → IsTakenAs line whole
        → IsOpen (rules_of (T.replies task.now) (T.waits task.now) (T.marks task.now)) number reply whole) }
    ensures memory { IfErr result (λ stop. stop ≡ Stop.NoMemory) }
{
    let text = match line {
        TakenLine::Blank => return Ok(OpenReply::Said(nothing(alloc))),
        TakenLine::Long => return Ok(OpenReply::Said(task.refuse_long(alloc, rays, number)?)),
        TakenLine::Text(text) => text,
    };
    match task.look(alloc, rays, number, text.as_slice())? {
        Some(reply) => Ok(OpenReply::Said(reply)),
        None => Ok(OpenReply::Awaited(text)),
    }
}

/// The same where the first lines are passed over.
pub(crate) fn open_reply<T: LineTask, P>(
    alloc: Global,
    rays: &Rays,
    lines: &LinesFrom<T, P>,
    number: usize,
    line: TakenLine,
) -> Result<OpenReply<T::Mark>, Stop>
    ensures open { IfOk result (λ reply. (whole : List ℕ) → IsTakenAs line whole
        → IsOpen (rules_from (T.replies lines.now.by.now) (T.waits lines.now.by.now) (T.marks lines.now.by.now) lines.now.from)
        number reply whole) }
    ensures memory { IfErr result (λ stop. stop ≡ Stop.NoMemory) }
{
    if number < lines.from {
        return Ok(OpenReply::Said(nothing(alloc)));
    }
    looked_at(alloc, rays, lines.by, number, line)
}

/// The reply to a line that awaits it. One to another line, or by another task, is none.
fn reply_to<T: LineTask>(
    task: &T,
    number: usize,
    line: &[u8],
    answered: Option<AnsweredLine<T>>,
) -> Result<Reply<T::Mark>, Stop>
    ensures reply { IfOk result (λ reply. ∥ T.replies task.now number line.now reply.text.items reply.refused ∥₁) }
    ensures mark { IfOk result (λ reply. ∥ T.marks task.now line.now reply.mark ∥₁) }
    ensures memory { IfErr result (λ stop. stop ≡ Stop.NoMemory) }
{
    match answered {
        Some(answered)
            if answered.number == number
                && answered.line.as_slice() == line
                && task.is(&answered.task) => { Ok(answered.reply) }
        _ => Err(Stop::NoMemory),
    }
}

/// A reply that is there, or has arrived.
fn said<T: LineTask, P>(
    lines: &LinesFrom<T, P>,
    number: usize,
    reply: OpenReply<T::Mark>,
    answered: Option<AnsweredLine<T>>,
) -> Result<Reply<T::Mark>, Stop>
    ensures reply { IfOk result (λ said. (line : List ℕ)
        → IsOpen (rules_from (T.replies lines.now.by.now) (T.waits lines.now.by.now) (T.marks lines.now.by.now) lines.now.from)
        number reply line → RepliesFrom (T.replies lines.now.by.now) lines.now.from number (without_cr line) said.text.items said.refused) }
    ensures mark { IfOk result (λ said. (line : List ℕ)
        → IsOpen (rules_from (T.replies lines.now.by.now) (T.waits lines.now.by.now) (T.marks lines.now.by.now) lines.now.from)
        number reply line → MarksFrom (T.marks lines.now.by.now) lines.now.from number (without_cr line) said.mark) }
    ensures memory { IfErr result (λ stop. stop ≡ Stop.NoMemory) }
{
    // That a reply which somebody has made is the line's is this law.
    lines.by.joins();
    match reply {
        OpenReply::Said(reply) => Ok(reply),
        OpenReply::Awaited(line) => reply_to(lines.by, number, line.as_slice(), answered),
    }
}

/// Counts a reply, where anything is counted of it.
fn count_reply<T: LineTask, P>(
    lines: &LinesFrom<T, P>,
    number: usize,
    mark: &Option<T::Mark>,
    tally: &mut T::Tally,
) -> Result<(), Stop>
    ensures counted { OnOk result ((line : List ℕ) → MarksFrom (T.marks lines.now.by.now) lines.now.from number (without_cr line) mark.now
        → CountsOne (KnownFrom (T.knows lines.now.by.now) lines.now.from) number tally.old tally.new line) }
    ensures memory { IfErr result (λ stop. stop ≡ Stop.NoMemory) }
{
    if let Some(mark) = mark {
        lines.by.count(tally, mark)?;
    }
    Ok(())
}

/// A number and so much more. No input has so many lines that there is none.
fn sum(number: usize, more: usize) -> Result<usize, Stop>
    ensures sum { IfOk result (λ all. all ≡ number + more) }
    ensures memory { IfErr result (λ stop. stop ≡ Stop.NoMemory) }
{
    match number.checked_add(more) {
        Some(all) => Ok(all),
        None => Err(Stop::NoMemory),
    }
}

impl<M: Drop> OpenReplies<M> {
    /// None, before the first line.
    pub(crate) fn new(alloc: Global) -> OpenReplies<M>
        ensures none { result.replies.items ≡ [] }
        ensures first { result.first ≡ 1 }
        ensures refused { result.refused ≡ 0 }
    {
        OpenReplies {
            replies: VecDeque::new(alloc),
            first: 1,
            refused: 0,
        }
    }

    /// Puts the reply to one line more behind them.
    pub(crate) fn add(&mut self, reply: OpenReply<M>) -> Result<(), Stop>
        ensures replies { OnOk result (self.new.replies.items ≡ self.old.replies.items ++ reply ∷ []) }
        ensures first { self.new.first ≡ self.old.first }
        ensures refused { self.new.refused ≡ self.old.refused }
        ensures memory { IfErr result (λ stop. stop ≡ Stop.NoMemory) }
    {
        match self.replies.push_back(reply) {
            Ok(()) => Ok(()),
            Err(_) => Err(Stop::NoMemory),
        }
    }

    /// Whether the first is there.
    fn has_first<T: LineTask>(&self, arrived: &Arrived<T>) -> bool {
        match self.replies.front() {
            None => false,
            Some(OpenReply::Said(_)) => true,
            Some(OpenReply::Awaited(_)) => arrived.has(self.first),
        }
    }
}

/// Takes the first, where it is there, and counts it.
pub(crate) fn take_first<T: LineTask, P>(
    lines: &LinesFrom<T, P>,
    replies: &mut OpenReplies<T::Mark>,
    arrived: &mut Arrived<T>,
    tally: &mut T::Tally,
) -> Result<Option<Reply<T::Mark>>, Stop>
    ensures none { IfOk result (λ first. IfNone first (replies.new ≡ replies.old)) }
    ensures uncounted { IfOk result (λ first. IfNone first (tally.new ≡ tally.old)) }
    ensures some { IfOk result (λ first. IfSome first
        (λ reply. Gains (rules_from (T.replies lines.now.by.now) (T.waits lines.now.by.now) (T.marks lines.now.by.now) lines.now.from)
        (KnownFrom (T.knows lines.now.by.now) lines.now.from) replies.old replies.new tally.old tally.new reply.text.items)) }
    ensures memory { IfErr result (λ stop. stop ≡ Stop.NoMemory) }
{
    if !replies.has_first(arrived) {
        return Ok(None);
    }
    let Some(open) = replies.replies.pop_front() else {
        return Err(Stop::NoMemory);
    };
    let reply = said(lines, replies.first, open, arrived.take(replies.first))?;
    count_reply(lines, replies.first, &reply.mark, tally)?;
    replies.first = sum(replies.first, 1)?;
    replies.refused = sum(replies.refused, reply.refused)?;
    Ok(Some(reply))
}
