//! A limit of time, the thread that counts for it, and the status of a command that has one.

ghost use Rattle.std.specs.Prelude.{◌≡◌, ◌<◌, IfErr, IfOk};
ghost use Rattle.file_answers.specs.Status.{status_of};

use crate::tick_limit::TickLimit;
use byte_streams::Stop;
use file_answers::{NO_THREAD, complain, in_part, no_memory, status_of};
use std::alloc::{AllocError, Global};
use std::io::Write;
use std::sync::{Arc, Wait};
use std::thread;
use std::thread::{JoinHandle, Threads};

/// A limit, and the thread that counts for it.
#[derive(Drop)]
pub(crate) struct Counting {
    pub(crate) limit: Arc<TickLimit, Global>,
    pub(crate) thread: JoinHandle<()>,
}

/// Why nothing is counted.
#[derive(Clone, Copy, PartialEq, Eq)]
pub(crate) enum Uncounted {
    NoMemory,
    NoThread,
}

impl From<AllocError> for Uncounted {
    ghost use Rattle.matedesk.specs.declared.counting.Uncounted.TheVariants.{NoMemory};

    ghost from_gives = { λ _ fault. fault ≡ NoMemory };

    fn from(_refused: AllocError) -> Uncounted {
        Uncounted::NoMemory
    }
}

/// Starts a thread that counts, for a limit of so many seconds.
pub(crate) fn start<R: Threads + Wait + Clone + Drop + Send + 'static>(
    rt: &R,
    alloc: Global,
    seconds: u32,
) -> Result<Counting, Uncounted> {
    let Ok(limit) = Arc::new(alloc, TickLimit::new(seconds)) else {
        return Err(Uncounted::NoMemory);
    };
    let theirs = Arc::try_clone(&limit)?;
    let own: R = rt.clone()?;
    match thread::spawn(rt, move || theirs.count(&own)) {
        Ok(thread) => Ok(Counting { limit, thread }),
        Err(_) => Err(Uncounted::NoThread),
    }
}

/// Says why nothing is solved, and gives the status.
pub(crate) fn unsolved<E: Write>(fault: Uncounted, err: &mut E) -> u8
    ensures { result ≡ 3 }
{
    if fault == Uncounted::NoMemory {
        return no_memory(err);
    }
    complain(err, "NoThread");
    NO_THREAD
}

/// The status of a command that ended so, and how many records were not decided then.
pub(crate) fn status_in_time<E: Write>(
    ended: Result<bool, Stop>,
    undecided: usize,
    err: &mut E,
) -> u8
    ensures in_part { IfOk ended (λ _. 0 < undecided → result ≡ 5) }
    ensures decided { undecided ≡ 0 → result ≡ status_of ended }
    ensures stopped { IfErr ended (λ _. result ≡ status_of ended) }
{
    match ended {
        Ok(_) if undecided > 0 => in_part(err, undecided),
        _ => status_of(ended, err),
    }
}
