//! Replies that are there, written and counted in their order.

ghost use Rattle.std.specs.Prelude.{◌≡◌, ◌≢◌, ◌++◌, List, ℕ, [], IfErr, IfOk, OnErr, OnOk, true};
ghost use Rattle.std.specs.Io.KnownBytes.{Appends};
ghost use Rattle.byte_streams.specs.Stops.{AppendsPart, is_of_output};
ghost use Rattle.parallel_answers.specs.inside.OpenReplies.{Breaks, Gains, KnownFrom, rules_from};

use crate::line_tasks::LineTask;
use crate::open_replies::{OpenReplies, take_first};
use crate::workers::Arrived;
use byte_streams::{Stop, put_counted};
use std::alloc::{AllocError, Global};
use std::io::Write;
use text_lines::{LinesFrom, Progress};

/// The number of a line, and where the reply to it ends in a text.
#[derive(Clone, Copy)]
struct ReplyEnd {
    number: usize,
    end: usize,
}

/// Replies as one text, and where each of them ends that is not empty.
#[derive(Drop)]
struct GatheredReplies {
    text: Vec<u8>,
    ends: Vec<ReplyEnd>,
}

impl GatheredReplies {
    /// None.
    fn new(alloc: Global) -> GatheredReplies
        ensures { result.text.items ≡ [] }
    {
        GatheredReplies {
            text: Vec::new(alloc),
            ends: Vec::new(alloc),
        }
    }

    /// Puts the reply to the line of this number behind them.
    fn add(&mut self, number: usize, reply: &[u8]) -> Result<(), AllocError>
        ensures { OnOk result (self.new.text.items ≡ self.old.text.items ++ reply.now) }
    {
        self.text.extend_from_slice(reply)?;
        if !reply.is_empty() {
            let end = self.text.len();
            self.ends.push(ReplyEnd { number, end })?;
        }
        Ok(())
    }

    /// Tells of the replies that are whole among so many bytes of the text, and which line comes next, or was the last.
    fn tell<P: Progress>(&self, progress: &P, written: usize) {
        let mut whole = 0;
        let mut line = None;
        for reply in self.ends.iter() {
            line = Some(reply.number);
            if reply.end > written {
                break;
            }
            whole = reply.end;
        }
        if let Some(replies) = self.text.as_slice().get(..whole) {
            progress.ends(replies);
        }
        if let Some(number) = line {
            progress.begins(number);
        }
    }

    /// Writes the text, and tells of the replies that are written whole.
    fn write<P: Progress, O: Write>(&self, progress: &P, out: &mut O) -> Result<(), Stop>
        ensures ok { OnOk result (Appends (O.contents out.old) (O.contents out.new) self.now.text.items) }
        ensures err { IfErr result (λ stop. is_of_output stop ≡ true) }
        ensures part { OnErr result (AppendsPart (O.contents out.old) (O.contents out.new) self.now.text.items) }
    {
        let mut written = 0;
        let ended = put_counted(out, self.text.as_slice(), &mut written);
        self.tell(progress, written);
        ended
    }
}

/// Takes all that are there, up to the first that is not, into one text, and counts them.
fn gather<T: LineTask, P>(
    alloc: Global,
    lines: &LinesFrom<T, P>,
    replies: &mut OpenReplies<T::Mark>,
    arrived: &mut Arrived<T>,
    tally: &mut T::Tally,
) -> Result<GatheredReplies, Stop>
    ensures gains { IfOk result (λ gathered. Gains
        (rules_from (T.replies lines.now.by.now) (T.waits lines.now.by.now) (T.marks lines.now.by.now) lines.now.from)
        (KnownFrom (T.knows lines.now.by.now) lines.now.from) replies.old replies.new tally.old tally.new gathered.text.items) }
    ensures memory { IfErr result (λ stop. stop ≡ Stop.NoMemory) }
{
    let mut gathered = GatheredReplies::new(alloc);
    for _ in 0..u64::MAX {
        let number = replies.first;
        let Some(reply) = take_first(lines, replies, arrived, tally)? else {
            return Ok(gathered);
        };
        gathered.add(number, reply.text.as_slice())?;
    }
    Err(Stop::NoMemory)
}

/// Writes all that are there, up to the first that is not, counts them, and tells of those that are written whole.
pub(crate) fn write_ready<T: LineTask, P: Progress, O: Write>(
    alloc: Global,
    lines: &LinesFrom<T, P>,
    replies: &mut OpenReplies<T::Mark>,
    arrived: &mut Arrived<T>,
    tally: &mut T::Tally,
    out: &mut O,
) -> Result<(), Stop>
    ensures gains { OnOk result ((text : List ℕ) × Gains
        (rules_from (T.replies lines.now.by.now) (T.waits lines.now.by.now) (T.marks lines.now.by.now) lines.now.from)
        (KnownFrom (T.knows lines.now.by.now) lines.now.from) replies.old replies.new tally.old tally.new text
        × Appends (O.contents out.old) (O.contents out.new) text) }
    ensures breaks { IfErr result (λ stop. Breaks
        (rules_from (T.replies lines.now.by.now) (T.waits lines.now.by.now) (T.marks lines.now.by.now) lines.now.from)
        replies.old stop (O.contents out.old) (O.contents out.new)) }
    ensures readable { IfErr result (λ stop. stop ≢ Stop.Unreadable) }
{
    let gathered = gather(alloc, lines, replies, arrived, tally)?;
    if gathered.text.is_empty() {
        return Ok(());
    }
    gathered.write(lines.progress, out)?;
    Ok(())
}
