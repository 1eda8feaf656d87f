//! What the threads of an engine tell each other in words that they share: which searches are to stop, how long one has lasted, and how many
//! positions it has searched.

use crate::events::Event;
use crate::texts::Costs;
use crossbeam_channel::Sender;
use std::alloc::Global;
use std::sync::Wait;
use std::sync::atomic::{AtomicU64, Ordering};
use std::time::Duration;

/// How many milliseconds the clock's thread parks at once while a search is timed.
const TICK: u64 = 5;

/// After how many milliseconds it is told, again and again, how far a search is: often enough that it is each second where ticks are late.
const TELLING: u64 = 250;

/// That a search may last as long as it will.
pub(crate) const FOR_EVER: u64 = u64::MAX;

/// No search is timed.
const NONE: u64 = 0;

/// What threads share by reference. Searches are numbered from 1, each number greater than those before it.
#[derive(Drop)]
pub(crate) struct Signals {
    /// The searches up to this number are to stop.
    stopped: AtomicU64,
    /// The search that is timed.
    timed: AtomicU64,
    /// For how many milliseconds it has been.
    elapsed: AtomicU64,
    /// After how many it is to stop.
    limit: AtomicU64,
    /// How many positions it has searched.
    nodes: AtomicU64,
    /// Whether the clock's thread is to end.
    has_ended: AtomicU64,
    /// Changes with each of these, and the clock's thread parks while it doesn't.
    changes: AtomicU64,
}

impl Signals {
    /// No search is timed or is to stop.
    pub(crate) fn new() -> Signals {
        Signals {
            stopped: AtomicU64::new(NONE),
            timed: AtomicU64::new(NONE),
            elapsed: AtomicU64::new(0),
            limit: AtomicU64::new(FOR_EVER),
            nodes: AtomicU64::new(0),
            has_ended: AtomicU64::new(0),
            changes: AtomicU64::new(0),
        }
    }

    /// The searches up to this number are to stop.
    pub(crate) fn stop(&self, number: u64) {
        for _ in 0..u64::MAX {
            let seen = self.stopped.load(Ordering::SeqCst);
            if number <= seen {
                return;
            }
            let stored = self
                .stopped
                .compare_exchange(seen, number, Ordering::SeqCst, Ordering::SeqCst);
            if stored.is_ok() {
                return;
            }
        }
    }

    /// Whether the search of this number is to stop.
    pub(crate) fn is_stopped(&self, number: u64) -> bool {
        number <= self.stopped.load(Ordering::SeqCst)
    }

    /// Has the clock's thread look again.
    fn wake_clock(&self) {
        self.changes.fetch_add(1, Ordering::SeqCst);
        self.changes.wake_one();
    }

    /// The search of this number begins, and is to stop after so many milliseconds.
    pub(crate) fn start_clock(&self, number: u64, limit: u64) {
        self.timed.store(NONE, Ordering::SeqCst);
        self.elapsed.store(0, Ordering::SeqCst);
        self.limit.store(limit, Ordering::SeqCst);
        self.nodes.store(0, Ordering::SeqCst);
        self.timed.store(number, Ordering::SeqCst);
        self.wake_clock();
    }

    /// The search that is timed is to stop after so many milliseconds from now on.
    pub(crate) fn limit_from_now(&self, limit: u64) {
        let elapsed = self.elapsed();
        self.limit
            .store(elapsed.saturating_add(limit), Ordering::SeqCst);
    }

    /// The search is over.
    pub(crate) fn stop_clock(&self) {
        self.timed.store(NONE, Ordering::SeqCst);
    }

    /// How many milliseconds the search that is timed has lasted.
    fn elapsed(&self) -> u64 {
        self.elapsed.load(Ordering::SeqCst)
    }

    /// Counts one position more; gives how many there are.
    pub(crate) fn count_node(&self) -> u64 {
        self.nodes.fetch_add(1, Ordering::SeqCst).saturating_add(1)
    }

    /// What the search that was timed last has cost. The position that it began with was searched, too.
    pub(crate) fn costs(&self) -> Costs {
        Costs {
            nodes: self.nodes.load(Ordering::SeqCst).max(1),
            time: self.elapsed(),
        }
    }

    /// The clock's thread is to end.
    pub(crate) fn end(&self) {
        self.has_ended.store(1, Ordering::SeqCst);
        self.wake_clock();
    }

    /// Counts a tick of the search of this number, and tells it to stop once its time is up. It answers whether it is to be told how far that
    /// is.
    fn tick(&self, number: u64) -> bool {
        if self.timed.load(Ordering::SeqCst) != number {
            return false;
        }
        let elapsed = self
            .elapsed
            .fetch_add(TICK, Ordering::SeqCst)
            .saturating_add(TICK);
        if elapsed >= self.limit.load(Ordering::SeqCst) {
            self.stop(number);
        }
        elapsed % TELLING < TICK
    }

    /// What the clock's thread does: it counts time by parking, since no clock is at hand. A wake-up that comes too early counts as a
    /// tick.
    pub(crate) fn run_clock<R: Wait>(&self, rt: &R, events: &Sender<Event, Global>) {
        for _ in rt.forever() {
            let changes = (self.changes.load(Ordering::SeqCst) % 4_294_967_296) as u32;
            if self.has_ended.load(Ordering::SeqCst) != 0 {
                return;
            }
            let number = self.timed.load(Ordering::SeqCst);
            if number == NONE {
                self.changes.park(rt, changes);
            } else {
                self.changes
                    .park_timeout(rt, changes, Duration::from_millis(TICK));
                if self.tick(number) {
                    // Time is counted on where there is no room.
                    let _ = events.try_send(rt, Event::Tick(number));
                }
            }
        }
    }
}
