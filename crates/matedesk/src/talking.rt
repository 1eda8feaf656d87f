//! The command `uci`.

ghost use Rattle.std.specs.Prelude.{◌≡◌, Some};
ghost use Rattle.command_words.specs.Asked.{uci as uci_asked};
ghost use Rattle.plain_commands.specs.Command.{Ends};
ghost use Rattle.matedesk.specs.Talking.{talk_status};

use byte_streams::Stop;
use command_words::VERSION;
use file_answers::{NO_THREAD, Source, SourceFault, complain, complain_unreadable, status_of};
use plain_commands::ends_by_status;
use std::alloc::Global;
use std::io::Write;
use std::sync::Wait;
use std::thread::Threads;
use uci_engine::{TalkFault, run_engine};

/// The name of standard input.
const INPUT: &str = "-";

/// Gives the status of an engine that ended, and says why where it wasn't told to.
fn ended<E: Write>(ended: Result<(), TalkFault>, err: &mut E) -> u8
    ensures { result ≡ talk_status ended }
{
    match ended {
        Ok(()) => status_of(Ok(false), err),
        Err(TalkFault::Stop(stop)) => status_of(Err(stop), err),
        Err(TalkFault::NoThread) => {
            complain(err, "NoThread");
            NO_THREAD
        }
    }
}

/// Answers a board's questions as an engine, on threads: one reads standard input, one searches, and one counts time.
pub fn talk<R: Threads + Wait + Sync, S: Source, O: Write, E: Write>(
    rt: &R,
    alloc: Global,
    source: &S,
    out: &mut O,
    err: &mut E,
) -> u8
where
    S::File: Send,
    ensures { Ends (S.holds source.now) (S.refuses source.now) (Some uci_asked) result (O.contents out.old) (O.contents out.new) }
{
    // How it ends with the status of what was written.
    ends_by_status(source);
    match source.open(alloc, INPUT) {
        Ok(input) => ended(run_engine(rt, alloc, VERSION, input, out), err),
        Err(SourceFault::NoMemory) => status_of(Err(Stop::NoMemory), err),
        Err(SourceFault::Unreadable) => {
            complain_unreadable(err, INPUT);
            status_of(Err(Stop::Unreadable), err)
        }
    }
}
