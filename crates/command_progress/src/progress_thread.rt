//! The thread that tells on standard error how far a command is.

use crate::console::Console;
use crate::progress_counts::{MOST_OF_NAME, ProgressCounts, TICKS_A_SECOND};
use file_answers::{IN_PART, MISUSED};
use std::alloc::Global;
use std::io::Write;
use std::sync::atomic::Ordering;
use std::sync::{Arc, Wait};
use std::thread;
use std::thread::{JoinHandle, Threads};
use std::time::Duration;

/// For how many milliseconds the thread parks at once.
const TICK: u64 = 100;

/// After how many ticks it tells first, and on a terminal again.
const SOON: u64 = TICKS_A_SECOND / 2;

/// After how many ticks it tells again where each line stays.
const LATER: u64 = 10 * TICKS_A_SECOND;

/// How many bytes of a file's name are told on a terminal, whose rows may be short.
const MOST_ON_TERMINAL: usize = 16;

/// What is printed behind a line that the next is written over: the rest of the row is cleared, and the next begins where it began.
const OVER: &str = "\x1b[K\r";

/// What a command has done, and the thread that tells of it.
#[derive(Drop)]
pub struct Telling {
    pub progress: Arc<ProgressCounts, Global>,
    thread: JoinHandle<()>,
    is_terminal: bool,
}

/// Whether it is told at this tick.
fn is_due(tick: u64, is_terminal: bool) -> bool {
    tick == SOON || tick % (if is_terminal { SOON } else { LATER }) == 0
}

/// Whether a command with such a status at the end stopped before it.
fn has_stopped(status: u8) -> bool {
    status > MISUSED && status != IN_PART
}

/// Tells once how far all is. That memory is refused, or nothing can be written, changes nothing.
fn tell<N: Write>(progress: &ProgressCounts, alloc: Global, notes: &mut N, is_terminal: bool) {
    let (begin, most, end) = if is_terminal {
        ("", MOST_ON_TERMINAL, OVER)
    } else {
        ("matedesk: ", MOST_OF_NAME, "\n")
    };
    let Ok(told) = progress.told(alloc, most) else {
        return;
    };
    if told.is_empty() {
        return;
    }
    if let Ok(line) = format!(in alloc; "{begin}{told}{end}") {
        let _ = notes.write_all(line.as_bytes());
    }
}

/// Tells how far all is, until it is to end.
fn tell_on<R: Wait, N: Write>(
    rt: &R,
    alloc: Global,
    progress: &ProgressCounts,
    notes: &mut N,
    is_terminal: bool,
) {
    for _ in rt.forever() {
        progress
            .has_ended
            .park_timeout(rt, 0, Duration::from_millis(TICK));
        if progress.has_ended.load(Ordering::SeqCst) != 0 {
            return;
        }
        let before = progress.ticks.fetch_add(1, Ordering::SeqCst);
        if is_due(before.wrapping_add(1), is_terminal) {
            tell(progress, alloc, notes, is_terminal);
        }
    }
}

/// What the command and the thread share.
fn shared(alloc: Global, words: &[String]) -> Option<Arc<ProgressCounts, Global>> {
    Arc::new(alloc, ProgressCounts::new(alloc, words).ok()?).ok()
}

/// Starts the thread that tells of this.
fn start_thread<R: Threads + Wait + Console + Clone + Drop + Send + 'static>(
    rt: &R,
    alloc: Global,
    progress: Arc<ProgressCounts, Global>,
    is_terminal: bool,
) -> Option<JoinHandle<()>> {
    let own: R = rt.clone().ok()?;
    let mut notes = rt.notes();
    thread::spawn(rt, move || {
        tell_on(&own, alloc, &progress, &mut notes, is_terminal)
    })
    .ok()
}

impl Telling {
    /// Starts the thread, for a command of such words; none where memory or a thread is refused.
    pub fn start<R: Threads + Wait + Console + Clone + Drop + Send + 'static>(
        rt: &R,
        alloc: Global,
        words: &[String],
    ) -> Option<Telling> {
        let progress = shared(alloc, words)?;
        let theirs = Arc::try_clone(&progress).ok()?;
        let is_terminal = rt.is_terminal();
        let thread = start_thread(rt, alloc, theirs, is_terminal)?;
        Some(Telling {
            progress,
            thread,
            is_terminal,
        })
    }

    /// Ends the thread, and tells what came of it all, with such a status at the end.
    pub fn end<R: Threads + Wait, E: Write>(self, rt: &R, alloc: Global, status: u8, err: &mut E) {
        let Telling {
            progress,
            thread,
            is_terminal,
        } = self;
        progress.has_ended.store(1, Ordering::SeqCst);
        progress.has_ended.wake_one();
        thread.join(rt);
        let clear = if is_terminal { "\x1b[K" } else { "" };
        if let Ok(summary) = progress.summary(alloc, has_stopped(status)) {
            let _ = writeln!(err, "{clear}matedesk: {summary}");
        }
    }
}
