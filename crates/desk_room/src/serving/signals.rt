//! The signals by which threads that serve tell each other to look again, and all to stop.

use crate::serving::backoff::Backoff;
use crate::serving::park_words::ParkWord;
use chess_notation::NoMemory;
use std::alloc::AllocError;
use std::sync::Wait;
use std::sync::atomic::{AtomicU64, Ordering};

/// Why nothing is served.
#[derive(Clone, Copy, PartialEq, Eq)]
pub(crate) enum StopReason {
    /// Memory was refused.
    NoMemory,
    /// A thread was refused.
    NoThread,
}

impl From<AllocError> for StopReason {
    ghost use Rattle.std.specs.Prelude.{◌≡◌};
    ghost use Rattle.desk_room.specs.declared.serving.signals.StopReason.TheVariants.{NoMemory};

    ghost from_gives = { λ _ reason. reason ≡ NoMemory };

    fn from(_refused: AllocError) -> StopReason {
        StopReason::NoMemory
    }
}

impl From<NoMemory> for StopReason {
    ghost use Rattle.std.specs.Prelude.{◌≡◌};
    ghost use Rattle.desk_room.specs.declared.serving.signals.StopReason.TheVariants.{NoMemory};

    ghost from_gives = { λ _ reason. reason ≡ NoMemory };

    fn from(_refused: NoMemory) -> StopReason {
        StopReason::NoMemory
    }
}

const NOT_STOPPED: u64 = 0;

const NO_MEMORY: u64 = 1;

const NO_THREAD: u64 = 2;

/// The words of the windows, or of the benches, of which a room has at most 16.
#[derive(Drop)]
struct Words {
    words: [ParkWord; 16],
}

impl Words {
    /// None of them is parked.
    fn new() -> Words {
        Words {
            words: [
                ParkWord::new(),
                ParkWord::new(),
                ParkWord::new(),
                ParkWord::new(),
                ParkWord::new(),
                ParkWord::new(),
                ParkWord::new(),
                ParkWord::new(),
                ParkWord::new(),
                ParkWord::new(),
                ParkWord::new(),
                ParkWord::new(),
                ParkWord::new(),
                ParkWord::new(),
                ParkWord::new(),
                ParkWord::new(),
            ],
        }
    }

    /// The word of the thread that has this number, counted from 0.
    fn of(&self, number: usize) -> &ParkWord {
        &self.words[number % 16]
    }

    /// Wakes those that are parked, up to so many.
    fn wake(&self, most: usize) {
        let mut left = most;
        for word in self.words.iter() {
            if left == 0 {
                return;
            }
            if word.wake() {
                left -= 1;
            }
        }
    }
}

/// What threads that serve share by reference: a stop signal, which is sent once and for all, and a word for each thing that one of
/// them may park for.
#[derive(Drop)]
pub(crate) struct Signals {
    stop: AtomicU64,
    keeper: ParkWord,
    windows: Words,
    benches_for_orders: Words,
    benches_for_places: Words,
}

impl Signals {
    /// Nobody is parked, and nobody told to stop.
    pub(crate) fn new() -> Signals {
        Signals {
            stop: AtomicU64::new(NOT_STOPPED),
            keeper: ParkWord::new(),
            windows: Words::new(),
            benches_for_orders: Words::new(),
            benches_for_places: Words::new(),
        }
    }

    /// Tells all threads to end. The first reason stands.
    pub(crate) fn stop(&self, reason: StopReason) {
        let word = match reason {
            StopReason::NoMemory => NO_MEMORY,
            StopReason::NoThread => NO_THREAD,
        };
        // Where it was sent already, the threads know.
        let _ = self
            .stop
            .compare_exchange(NOT_STOPPED, word, Ordering::SeqCst, Ordering::SeqCst);
        self.wake_all();
    }

    /// The reason to end, once it was sent.
    pub(crate) fn reason(&self) -> Option<StopReason> {
        match self.stop.load(Ordering::SeqCst) {
            NOT_STOPPED => None,
            NO_MEMORY => Some(StopReason::NoMemory),
            _ => Some(StopReason::NoThread),
        }
    }

    /// The word on which the keeper parks.
    pub(crate) fn keeper(&self) -> &ParkWord {
        &self.keeper
    }

    /// The word on which the thread at a window parks.
    fn window(&self, number: usize) -> &ParkWord {
        self.windows.of(number)
    }

    /// The word on which a bench parks that has no order.
    pub(crate) fn bench_for_order(&self, number: usize) -> &ParkWord {
        self.benches_for_orders.of(number)
    }

    /// The word on which a bench parks whose ring has no place.
    pub(crate) fn bench_for_place(&self, number: usize) -> &ParkWord {
        self.benches_for_places.of(number)
    }

    /// Something was put into a ring that the keeper takes from, or taken from one that it puts into.
    pub(crate) fn wake_keeper(&self) {
        self.keeper.wake();
    }

    /// Letters were taken from the windows, or deliveries put into their rings.
    pub(crate) fn wake_windows(&self) {
        self.windows.wake(16);
    }

    /// So many orders were put out.
    pub(crate) fn wake_for_orders(&self, orders: usize) {
        self.benches_for_orders.wake(orders);
    }

    /// What the benches gave back was taken from their rings.
    pub(crate) fn wake_for_places(&self) {
        self.benches_for_places.wake(16);
    }

    /// The keeper is gone, or all are told to stop.
    pub(crate) fn wake_all(&self) {
        self.wake_keeper();
        self.wake_windows();
        self.wake_for_orders(16);
        self.wake_for_places();
    }
}

/// Wakes the keeper for several things that one thread put in or took out, at the latest before that thread waits: to wake it for each
/// would cost more than to solve a mate in one.
#[derive(Drop)]
pub(crate) struct KeeperCalls<'a> {
    signals: &'a Signals,
    untold: u32,
}

/// For how many things the keeper is woken at once.
const TOGETHER: u32 = 4;

impl<'a> KeeperCalls<'a> {
    /// There is nothing to tell yet.
    pub(crate) fn new(signals: &'a Signals) -> KeeperCalls<'a> {
        KeeperCalls { signals, untold: 0 }
    }

    /// A letter was sent, a delivery collected, or a job given back.
    pub(crate) fn count(&mut self) {
        self.untold = self.untold.saturating_add(1);
        if self.untold >= TOGETHER {
            self.tell();
        }
    }

    /// Wakes the keeper if something was not told yet.
    pub(crate) fn tell(&mut self) {
        if self.untold != 0 {
            self.untold = 0;
            self.signals.wake_keeper();
        }
    }
}

/// The signals as the thread at one window has them.
#[derive(Drop)]
pub(crate) struct WindowSignals<'a> {
    all: &'a Signals,
    number: usize,
    calls: KeeperCalls<'a>,
}

/// How often the thread at a window looks again at once.
const LOOKS: u32 = 100;

impl<'a> WindowSignals<'a> {
    /// Of the window that has this number, counted from 0.
    pub(crate) fn new(all: &'a Signals, number: usize) -> WindowSignals<'a> {
        WindowSignals {
            all,
            number,
            calls: KeeperCalls::new(all),
        }
    }

    /// Tells all threads to end.
    pub(crate) fn stop(&self, reason: StopReason) {
        self.all.stop(reason);
    }

    /// The reason to end, once it was sent.
    pub(crate) fn reason(&self) -> Option<StopReason> {
        self.all.reason()
    }

    /// A letter was sent or a delivery collected.
    pub(crate) fn count(&mut self) {
        self.calls.count();
    }

    /// Begins to wait, on the window's own word.
    pub(crate) fn backoff(&self) -> Backoff<'a> {
        Backoff::new(self.all.window(self.number), LOOKS)
    }

    /// Waits after a look that found nothing.
    pub(crate) fn wait<R: Wait>(&mut self, rt: &R, backoff: &mut Backoff) {
        self.calls.tell();
        backoff.wait(rt);
    }

    /// Nothing more is sent or collected.
    pub(crate) fn end(&mut self) {
        self.calls.tell();
    }
}
