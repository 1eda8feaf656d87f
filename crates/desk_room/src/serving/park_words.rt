//! Words on which a thread parks until another wakes it.

use std::sync::Wait;
use std::sync::atomic::{AtomicU64, Ordering};
use std::time::Duration;

const AWAKE: u64 = 0;

const PARKED: u64 = 1;

/// How long a thread stays parked at most, in milliseconds: so much time a wake-up that was lost would cost, and never an answer.
const LONGEST: u64 = 100;

/// Whether one thread is parked, or about to be.
///
/// The thread announces it, looks once more, and only then parks; who puts something in where it looks wakes it afterwards. Each of
/// these steps is sequentially consistent, as are those of the rings and of the deque. So either the thread's last look comes after
/// what was put in, and finds it, or the announcement comes before the waker's load, which sees it.
#[derive(Drop)]
pub(crate) struct ParkWord {
    word: AtomicU64,
}

impl ParkWord {
    /// Of a thread that is awake.
    pub(crate) fn new() -> ParkWord {
        ParkWord {
            word: AtomicU64::new(AWAKE),
        }
    }

    /// Announces that the thread will park unless it finds something at its next look.
    pub(crate) fn announce(&self) {
        self.word.store(PARKED, Ordering::SeqCst);
    }

    /// Withdraws what was announced.
    pub(crate) fn withdraw(&self) {
        self.word.store(AWAKE, Ordering::SeqCst);
    }

    /// Parks the thread, unless it was woken since it announced that.
    pub(crate) fn park<R: Wait>(&self, rt: &R) {
        self.word
            .park_timeout(rt, PARKED as u32, Duration::from_millis(LONGEST));
        self.withdraw();
    }

    /// Wakes the thread where it is parked or has announced to be; answers whether it was.
    pub(crate) fn wake(&self) -> bool {
        // Mostly it is awake, and to load costs less than to swap.
        if self.word.load(Ordering::SeqCst) == AWAKE {
            return false;
        }
        if self.word.swap(AWAKE, Ordering::SeqCst) == AWAKE {
            return false;
        }
        self.word.wake_one();
        true
    }
}
