//! An input answered by workers, in the order of its lines, and counted in it.

ghost use Rattle.std.specs.Prelude.{◌≡◌, ◌≢◌, ◌≤◌, ◌+◌, ◌++◌, ◌∷◌, [], List, ℕ, IfErr, IfOk, OnOk, length};
ghost use Rattle.std.specs.Io.KnownBytes.{Appends};
ghost use Rattle.byte_streams.specs.Inputs.{MayBe};
ghost use Rattle.byte_streams.specs.Stops.{AppendsBy};
ghost use Rattle.text_lines.specs.Lines.{texts_of};
ghost use Rattle.text_lines.specs.LinesFrom.{IsReplyOn, IsReplyToFirstOn, lines_from};
ghost use Rattle.text_lines.specs.Replies.{IsReply, IsReplyToFirst};
ghost use Rattle.text_lines.specs.TakenLines.{IsTakenAs};
ghost use Rattle.text_lines.specs.inside.LinesFrom.{RepliesFrom};
ghost use Rattle.parallel_answers.specs.inside.OpenReplies.{AreOpen, Breaks, Gains, KnownFrom, rules_from};

use crate::line_tasks::LineTask;
use crate::open_replies::{OpenReplies, OpenReply, open_reply};
use crate::ready_replies::write_ready;
use crate::workers::{MOST_OPEN, Workers};
use byte_streams::{Input, Stop};
use chess_moves::Rays;
use std::alloc::Global;
use std::io::Write;
use std::sync::Wait;
use text_lines::{LinesFrom, Progress, TakenLine, TakenLines, lines_begin};

/// How many bytes are asked for at once. All answers to them are written before more is asked for, since that may have to wait.
const PIECE: usize = 262_144;

/// What replies are written over: what is asked of each line, and who is told.
#[derive(Drop)]
pub struct Answering<'a, R, T, P> {
    pub rt: &'a R,
    pub alloc: Global,
    pub rays: &'a Rays,
    pub lines: &'a LinesFrom<'a, T, P>,
}

impl<R: Wait, T: LineTask, P: Progress> Answering<'_, R, T, P> {
    /// Opens the reply to a line, and hands one that waits for an answer to the workers.
    fn hand_in(
        &self,
        workers: &mut Workers<T>,
        replies: &mut OpenReplies<T::Mark>,
        number: usize,
        line: TakenLine,
    ) -> Result<(), Stop>
        ensures opened { OnOk result ((whole : List ℕ) (lines : List (List ℕ)) → IsTakenAs line whole
            → replies.old.first + length lines ≡ number → AreOpen (rules_from (T.replies self.now.lines.now.by.now) (T.waits self.now.lines.now.by.now)
            (T.marks self.now.lines.now.by.now) self.now.lines.now.from)
            replies.old.first replies.old.replies.items lines → AreOpen (rules_from (T.replies self.now.lines.now.by.now) (T.waits self.now.lines.now.by.now)
            (T.marks self.now.lines.now.by.now) self.now.lines.now.from)
            replies.old.first replies.new.replies.items (lines ++ whole ∷ [])) }
        ensures first { replies.new.first ≡ replies.old.first }
        ensures refused { replies.new.refused ≡ replies.old.refused }
        ensures memory { IfErr result (λ stop. stop ≡ Stop.NoMemory) }
    {
        let reply = open_reply(self.alloc, self.rays, self.lines, number, line)?;
        if let OpenReply::Awaited(text) = &reply {
            if replies.replies.is_empty() {
                self.lines.progress.begins(number);
            }
            workers.hand_out(self.rt, self.alloc, self.lines.by, number, text.as_slice())?;
        }
        replies.add(reply)
    }

    /// Writes the replies that are there, and counts them.
    fn write<O: Write>(
        &self,
        workers: &mut Workers<T>,
        tally: &mut T::Tally,
        replies: &mut OpenReplies<T::Mark>,
        out: &mut O,
    ) -> Result<(), Stop>
        ensures gains { OnOk result ((text : List ℕ) × Gains (rules_from (T.replies self.now.lines.now.by.now) (T.waits self.now.lines.now.by.now)
            (T.marks self.now.lines.now.by.now) self.now.lines.now.from)
            (KnownFrom (T.knows self.now.lines.now.by.now) self.now.lines.now.from) replies.old replies.new tally.old tally.new text
            × Appends (O.contents out.old) (O.contents out.new) text) }
        ensures breaks { IfErr result (λ stop. Breaks (rules_from (T.replies self.now.lines.now.by.now) (T.waits self.now.lines.now.by.now)
            (T.marks self.now.lines.now.by.now) self.now.lines.now.from)
            replies.old stop (O.contents out.old) (O.contents out.new)) }
        ensures readable { IfErr result (λ stop. stop ≢ Stop.Unreadable) }
    {
        let first = replies.first;
        let arrived = &mut workers.arrived;
        write_ready(self.alloc, self.lines, replies, arrived, tally, out)?;
        if replies.first != first && !replies.replies.is_empty() {
            self.lines.progress.begins(replies.first);
        }
        Ok(())
    }

    /// Writes replies until no more of them are open than may be, and waits for answers as long as more are.
    fn write_on<O: Write>(
        &self,
        workers: &mut Workers<T>,
        tally: &mut T::Tally,
        replies: &mut OpenReplies<T::Mark>,
        most: usize,
        out: &mut O,
    ) -> Result<(), Stop>
        ensures gains { OnOk result ((text : List ℕ) × Gains (rules_from (T.replies self.now.lines.now.by.now) (T.waits self.now.lines.now.by.now)
            (T.marks self.now.lines.now.by.now) self.now.lines.now.from)
            (KnownFrom (T.knows self.now.lines.now.by.now) self.now.lines.now.from) replies.old replies.new tally.old tally.new text
            × Appends (O.contents out.old) (O.contents out.new) text) }
        ensures few { OnOk result (length replies.new.replies.items ≤ most) }
        ensures breaks { IfErr result (λ stop. Breaks (rules_from (T.replies self.now.lines.now.by.now) (T.waits self.now.lines.now.by.now)
            (T.marks self.now.lines.now.by.now) self.now.lines.now.from)
            replies.old stop (O.contents out.old) (O.contents out.new)) }
        ensures readable { IfErr result (λ stop. stop ≢ Stop.Unreadable) }
    {
        for _ in self.rt.forever() {
            self.write(workers, tally, replies, out)?;
            if replies.replies.len() <= most {
                return Ok(());
            }
            workers.wait(self.rt, self.alloc)?;
        }
        unreachable!()
    }
}

/// Takes all lines of an input, hands those to workers that aren't passed over, writes all replies in order, and counts them; gives how many are
/// refused.
fn answer_each<R: Wait, T: LineTask, P: Progress, I: Input + Drop, O: Write>(
    answering: &Answering<R, T, P>,
    workers: &mut Workers<T>,
    tally: &mut T::Tally,
    input: I,
    out: &mut O,
) -> Result<usize, Stop>
    ensures ok { IfOk result (λ refused. (bytes : List ℕ) × (text : List ℕ) × MayBe (I.left input) bytes
        × (IsReply (RepliesFrom (T.replies answering.now.lines.now.by.now) answering.now.lines.now.from) bytes text refused
        × ((counted : List (List ℕ)) → KnownFrom (T.knows answering.now.lines.now.by.now) answering.now.lines.now.from tally.old counted []
        → KnownFrom (T.knows answering.now.lines.now.by.now) answering.now.lines.now.from tally.new counted (texts_of bytes)))
        × Appends (O.contents out.old) (O.contents out.new) text) }
    ensures err { IfErr result (λ stop. (bytes : List ℕ) × (text : List ℕ) × MayBe (I.left input) bytes
        × IsReplyToFirst (RepliesFrom (T.replies answering.now.lines.now.by.now) answering.now.lines.now.from) bytes text
        × AppendsBy stop (O.contents out.old) (O.contents out.new) text) }
    ensures unreadable { IfErr result (λ stop. stop ≡ Stop.Unreadable → I.breaks input) }
{
    // That lines which were taken are the first of the input is this law.
    lines_begin();
    let mut lines = TakenLines::new(answering.alloc, input, PIECE);
    let mut replies = OpenReplies::new(answering.alloc);
    for number in 1..usize::MAX {
        // To read on may have to wait.
        let most = if lines.has_line() { MOST_OPEN } else { 0 };
        answering.write_on(workers, tally, &mut replies, most, out)?;
        let taken = lines.take(answering.alloc)?;
        answering.hand_in(workers, &mut replies, number, taken.line)?;
        if taken.is_last {
            answering.write_on(workers, tally, &mut replies, 0, out)?;
            return Ok(replies.refused);
        }
    }
    Err(Stop::NoMemory)
}

/// Answers an input line by line from that of a number on, in order, by workers, who are asked nothing else at the time. Each reply is written
/// once it and all before it are there, and counted then; before more is read, all are.
///
/// Gives how many lines are refused. Where it stops before the end, the replies to some of the first lines are written. A line is taken into
/// memory no further than a record is long, and no more lines than may be open, or were read at once.
pub fn answer_in_order<R: Wait, T: LineTask, P: Progress, I: Input + Drop, O: Write>(
    answering: &Answering<R, T, P>,
    workers: &mut Workers<T>,
    tally: &mut T::Tally,
    input: I,
    out: &mut O,
) -> Result<usize, Stop>
    requires from { 1 ≤ answering.now.lines.now.from }
    ensures ok { IfOk result (λ refused. (bytes : List ℕ) × (text : List ℕ) × MayBe (I.left input) bytes
        × IsReplyOn (T.replies answering.now.lines.now.by.now) answering.now.lines.now.from bytes text refused
        × Appends (O.contents out.old) (O.contents out.new) text) }
    ensures counted { IfOk result (λ refused. (before : List (List ℕ)) → T.knows answering.now.lines.now.by.now tally.old before
        → (bytes : List ℕ) × (text : List ℕ) × MayBe (I.left input) bytes
        × (IsReplyOn (T.replies answering.now.lines.now.by.now) answering.now.lines.now.from bytes text refused
        × T.knows answering.now.lines.now.by.now tally.new (before ++ lines_from answering.now.lines.now.from (texts_of bytes)))
        × Appends (O.contents out.old) (O.contents out.new) text) }
    ensures err { IfErr result (λ stop. (bytes : List ℕ) × (text : List ℕ) × MayBe (I.left input) bytes
        × IsReplyToFirstOn (T.replies answering.now.lines.now.by.now) answering.now.lines.now.from bytes text
        × AppendsBy stop (O.contents out.old) (O.contents out.new) text) }
    ensures unreadable { IfErr result (λ stop. stop ≡ Stop.Unreadable → I.breaks input) }
{
    answer_each(answering, workers, tally, input, out)
}
