//! An engine: three threads beside the one that calls it.

ghost use Rattle.std.specs.Thread.{IsSync, IsSend};

use crate::events::Event;
use crate::reader::run_reader;
use crate::searcher::{Job, Searcher};
use crate::signals::Signals;
use crate::talk::{Reply, Talk};
use byte_streams::{Input, InputFault, Stop, put};
use chess_moves::Rays;
use chess_problems::Bound;
use crossbeam_channel::{Receiver, Sender, bounded};
use std::alloc::{AllocError, Global};
use std::io::Write;
use std::sync::Wait;
use std::thread;
use std::thread::{Scope, Threads};
use uci_commands::start_fen;

/// How many events may wait to be answered.
const WAITING: usize = 64;

/// Mate is looked for within so many moves where nothing is said of that.
const MAX_BOUND: u8 = 15;

/// Why an engine ends before it was told to.
#[derive(Clone, Copy, PartialEq, Eq)]
pub enum TalkFault {
    /// No thread was to be had.
    NoThread,
    /// Memory was refused, or reading or writing broke off.
    Stop(Stop),
}

impl From<AllocError> for TalkFault {
    ghost use Rattle.std.specs.Prelude.{◌≡◌};
    ghost use Rattle.byte_streams.specs.declared.stops.Stop.TheVariants.{NoMemory};
    ghost use Rattle.uci_engine.specs.declared.engine.TalkFault.TheVariants.{Stop as Stopped};

    ghost from_gives = { λ _ fault. fault ≡ Stopped NoMemory };

    fn from(_refused: AllocError) -> TalkFault {
        TalkFault::Stop(Stop::NoMemory)
    }
}

impl From<Stop> for TalkFault {
    ghost use Rattle.std.specs.Prelude.{◌≡◌};
    ghost use Rattle.uci_engine.specs.declared.engine.TalkFault.TheVariants.{Stop as Stopped};

    ghost from_gives = { λ stop fault. fault ≡ Stopped stop };

    fn from(stop: Stop) -> TalkFault {
        TalkFault::Stop(stop)
    }
}

/// The ends of channels that the thread which talks takes for its own. Who waits for one of them waits no longer once they are gone.
#[derive(Drop)]
struct Ends {
    events: Receiver<Event, Global>,
    planned: Sender<Job, Global>,
}

/// What the threads that are started take for their own: the one that searches its jobs, and the one that reads its input.
#[derive(Drop)]
struct Intake<I: Drop> {
    jobs: Receiver<Job, Global>,
    input: I,
}

/// Answers what comes next; gives whether it was the last.
fn answer_next<R: Wait, O: Write>(
    rt: &R,
    talk: &mut Talk,
    ends: &Ends,
    out: &mut O,
) -> Result<bool, TalkFault> {
    let Ok(event) = ends.events.recv(rt) else {
        return Err(TalkFault::NoThread);
    };
    let Reply { text, job, is_last } = talk.take(event)?;
    put(out, text.as_slice())?;
    let is_refused = match job {
        Some(job) => ends.planned.send(rt, job).is_err(),
        None => false,
    };
    if is_refused {
        Err(TalkFault::Stop(Stop::NoMemory))
    } else {
        Ok(is_last)
    }
}

/// Answers what comes, until the last of it is answered.
fn answer_events<R: Wait, O: Write>(
    rt: &R,
    talk: &mut Talk,
    ends: &Ends,
    out: &mut O,
) -> Result<(), TalkFault> {
    for _ in rt.forever() {
        if answer_next(rt, talk, ends, out)? {
            break;
        }
    }
    match talk.fault() {
        Some(InputFault::Unreadable) => Err(TalkFault::Stop(Stop::Unreadable)),
        Some(InputFault::NoMemory) => Err(TalkFault::Stop(Stop::NoMemory)),
        None => Ok(()),
    }
}

/// Starts the threads one after the other; gives whether all were to be had.
fn start_threads<'s, R: Threads + Wait + Sync, I: Input + Drop + Send + 's, E>(
    scope: &Scope<'s, E>,
    rt: &'s R,
    searcher: Searcher<'s>,
    intake: Intake<I>,
) -> bool
    requires { IsSync R.row × IsSend I.row }
{
    let Intake { jobs, input } = intake;
    let counting = move ||
        requires { IsSync R.row }
    { searcher.signals.run_clock(rt, searcher.events) };
    if scope.spawn(counting).is_err() {
        return false;
    }
    let searching = move ||
        requires { IsSync R.row }
    { searcher.run(rt, jobs) };
    if scope.spawn(searching).is_err() {
        return false;
    }
    let reading = move ||
        requires { IsSync R.row × IsSend I.row }
    { run_reader(rt, searcher.alloc, input, searcher.events) };
    scope.spawn(reading).is_ok()
}

/// Starts the threads, and answers what comes in this one.
fn run_threads<R: Threads + Wait + Sync, I: Input + Drop + Send, O: Write>(
    rt: &R,
    searcher: Searcher,
    talk: &mut Talk,
    ends: Ends,
    intake: Intake<I>,
    out: &mut O,
) -> Result<(), TalkFault> {
    thread::scope(
        thread::scope_env(),
        rt,
        move |scope| -> Result<(), TalkFault>
            requires { IsSync R.row × IsSend I.row }
        {
            let ended = if start_threads(scope, rt, searcher, intake) {
                answer_events(rt, talk, &ends, out)
            } else {
                Err(TalkFault::NoThread)
            };
            searcher.signals.stop(u64::MAX);
            searcher.signals.end();
            ended
        },
    )
}

/// Runs an engine that speaks UCI (Universal Chess Interface, April 2006) until its input says `quit`, or ends and the search that it asked
/// for last is over, which `infinite` and `ponder` end there: a thread reads, one searches, one counts time, and the one that calls this
/// writes.
pub fn run_engine<R: Threads + Wait + Sync, I: Input + Drop + Send, O: Write>(
    rt: &R,
    alloc: Global,
    version: &str,
    input: I,
    out: &mut O,
) -> Result<(), TalkFault> {
    let (Some(fen), Some(bound)) = (start_fen(), Bound::new(MAX_BOUND)) else {
        return Err(TalkFault::Stop(Stop::NoMemory));
    };
    let rays = Rays::new();
    let signals = Signals::new();
    let (said, events) = bounded(alloc, WAITING)?;
    let (planned, jobs) = bounded(alloc, 1)?;
    let searcher = Searcher {
        alloc,
        rays: &rays,
        signals: &signals,
        events: &said,
    };
    let mut talk = Talk::new(alloc, searcher.rays, searcher.signals, version, fen, bound);
    run_threads(
        rt,
        searcher,
        &mut talk,
        Ends { events, planned },
        Intake { jobs, input },
        out,
    )
}
