//! Commands where each record may take so many seconds, and the thread that counts them.

ghost use Rattle.std.specs.Prelude.{◌≡◌, ◌-◌, ℕ, IfErr, IfOk, Some, true};
ghost use Rattle.command_words.specs.Asked.{Asked, asks_threads};
ghost use Rattle.plain_commands.specs.Command.{Ends, Stops};
ghost use Rattle.matedesk.specs.InTime.{ShownInTime};

use crate::counting::{Counting, start, status_in_time, unsolved};
use crate::tick_limit::TickLimit;
use byte_streams::Stop;
use file_answers::{Source, no_memory};
use file_solving::{limited_none, solves_none};
use plain_commands::{ends_by_status, ends_in_part, tells_none};
use std::alloc::Global;
use std::io::Write;
use std::sync::Wait;
use std::thread::Threads;

/// The source of a command's files, and the limit that each of their records has.
#[derive(Clone, Copy)]
pub(crate) struct TimedSource<'a, S> {
    pub(crate) source: &'a S,
    pub(crate) limit: &'a TickLimit,
}

/// A command where each record may take so many seconds.
pub(crate) trait TimedCommand {
    /// What goes from record to record.
    type Memory: Drop;

    /// That it may answer, as where it starts threads.
    ghost ready: { Self → Type 0 } = { λ _. Unit {0} };

    /// What the words ask for.
    ghost asks: { Self → Asked };

    /// How many records were not decided so far.
    ghost undecided: { Self.Memory → ℕ };

    /// It is one that starts threads.
    ghost starts: { (command : Self) → asks_threads (Some (asks command)) ≡ true };

    /// How many seconds a record may take.
    fn seconds(&self) -> u32;

    /// What there is before the first record.
    fn memory(&self, alloc: Global) -> Result<Self::Memory, Stop>
        ensures { IfOk result (λ memory. undecided memory ≡ 0) };

    /// Answers its files, where a record that the limit stops before it is decided is answered so, and counted; gives whether a line was
    /// refused. A file that can't be read is named on `err`.
    fn answer<S: Source, O: Write, E: Write>(
        &self,
        alloc: Global,
        timed: &TimedSource<S>,
        memory: &mut Self::Memory,
        out: &mut O,
        err: &mut E,
    ) -> Result<bool, Stop>
        requires ready { ready self.now }
        ensures ok { IfOk result (λ refused. ShownInTime (S.holds timed.now.source.now) (asks self.now) refused
            (undecided memory.new - undecided memory.old) (O.contents out.old) (O.contents out.new)) }
        ensures err { IfErr result
            (λ stop. Stops (S.holds timed.now.source.now) (S.refuses timed.now.source.now) (asks self.now) stop
            (O.contents out.old) (O.contents out.new)) };

    /// How many records were not decided.
    fn count(&self, memory: &Self::Memory) -> usize
        ensures { result ≡ undecided memory.now };
}

/// Answers the files of such a command; a thread counts the seconds of each record.
pub(crate) fn answer_in_time<
    R: Threads + Wait + Clone + Drop + Send + 'static,
    C: TimedCommand,
    S: Source,
    O: Write,
    E: Write,
>(rt: &R, alloc: Global, command: &C, source: &S, out: &mut O, err: &mut E) -> u8
    requires ready { C.ready command.now }
    ensures { Ends (S.holds source.now) (S.refuses source.now) (Some (C.asks command.now)) result (O.contents out.old) (O.contents out.new) }
{
    // How it ends with the status of what was written, and with nothing written.
    ends_by_status(source);
    ends_in_part(source);
    limited_none();
    solves_none();
    tells_none();
    let Ok(mut memory) = command.memory(alloc) else {
        return no_memory(err);
    };
    match start(rt, alloc, command.seconds()) {
        Ok(Counting { limit, thread }) => {
            let timed = TimedSource {
                source,
                limit: &*limit,
            };
            let ended = command.answer(alloc, &timed, &mut memory, out, err);
            limit.end();
            thread.join(rt);
            status_in_time(ended, command.count(&memory), err)
        }
        Err(fault) => unsolved(fault, err),
    }
}
