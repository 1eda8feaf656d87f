//! How threads of a test behave, and at which pace.

use std::random::RandomSource;
use std::sync::Wait;
use std::thread;
use std::thread::Parker;
use std::time::Duration;

/// How windows and benches behave.
#[derive(Clone, Copy, PartialEq)]
pub(crate) enum Manner {
    /// A window sends records alone, and a bench solves each job.
    Plain,
    /// A bench gives each third job back unsolved.
    Returns,
    /// Before each job that it solves, a bench gives back another problem under the same ticket.
    MakesUp,
    /// A window withdraws each third record once it is sent.
    Withdraws,
}

pub(crate) fn is_third(number: usize) -> bool {
    number % 3 == 2
}

/// How a thread goes on from one step to the next: it yields, and at times it sleeps for a while.
#[derive(Drop)]
pub(crate) struct Pace {
    sleeper: Parker,
    drawn: u64,
    // It sleeps at a step where these bits of what is drawn are 0: at each one, or at one of 4, 16 or 64.
    bits: u64,
}

impl Pace {
    pub(crate) fn new<R: RandomSource>(rt: &R) -> Pace {
        let mut bytes = [0; 8];
        // Where there are no random bytes, each pace is the same.
        let _ = rt.fill_bytes(&mut bytes);
        let drawn = u64::from_le_bytes(bytes);
        Pace {
            sleeper: Parker::new(),
            drawn,
            bits: [0, 3, 15, 63][(drawn % 4) as usize],
        }
    }

    pub(crate) fn go_on<R: Wait>(&mut self, rt: &R) {
        self.drawn = self.drawn.wrapping_mul(6364136223846793005).wrapping_add(1);
        if (self.drawn >> 40) & self.bits > 0 {
            thread::yield_now();
            return;
        }
        let time = Duration::from_micros((self.drawn >> 32) % 256);
        self.sleeper.park_timeout(rt, time);
    }
}
