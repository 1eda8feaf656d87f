//! A limit of time, counted by a thread that parks, since no clock of the system is at hand.

ghost use Rattle.std.specs.Prelude.{◌≡◌, ◌*◌};

use mate_answers::TimeLimit;
use mate_search::Halt;
use std::sync::Wait;
use std::sync::atomic::{AtomicU64, Ordering};
use std::time::Duration;

/// For how many milliseconds the thread that counts parks at once.
const TICK: u64 = 10;

/// How many ticks a second has.
const TICKS_A_SECOND: u64 = 100;

/// How many ticks there were, and up to which a record is searched.
#[derive(Drop)]
pub(crate) struct TickLimit {
    /// How many ticks a record may take.
    each: u64,
    ticks: AtomicU64,
    end: AtomicU64,
    /// Whether the thread that counts is to end.
    has_ended: AtomicU64,
}

impl TickLimit {
    /// That of so many seconds for each record.
    pub(crate) fn new(seconds: u32) -> TickLimit
        ensures { result.each ≡ seconds * 100 }
    {
        TickLimit {
            each: u64::from(seconds) * TICKS_A_SECOND,
            ticks: AtomicU64::new(0),
            end: AtomicU64::new(u64::MAX),
            has_ended: AtomicU64::new(0),
        }
    }

    /// Counts ticks until it is to end.
    pub(crate) fn count<R: Wait>(&self, rt: &R) {
        for _ in rt.forever() {
            if self.has_ended.load(Ordering::SeqCst) != 0 {
                return;
            }
            self.has_ended
                .park_timeout(rt, 0, Duration::from_millis(TICK));
            self.ticks.fetch_add(1, Ordering::SeqCst);
        }
    }

    /// Has the thread that counts end.
    pub(crate) fn end(&self) {
        self.has_ended.store(1, Ordering::SeqCst);
        self.has_ended.wake_one();
    }
}

impl Halt for TickLimit {
    ghost use Rattle.std.specs.Prelude.{⊤};

    ghost may_stop = { λ _. ⊤ };

    fn is_stopped(&self) -> bool {
        self.end.load(Ordering::SeqCst) <= self.ticks.load(Ordering::SeqCst)
    }
}

impl TimeLimit for TickLimit {
    fn begin(&self) {
        let now = self.ticks.load(Ordering::SeqCst);
        self.end
            .store(now.saturating_add(self.each), Ordering::SeqCst);
    }
}
