//! How a thread waits that finds nothing to do.

use crate::serving::park_words::ParkWord;
use std::hint::spin_loop;
use std::sync::Wait;

/// How often it looks after that: a bench whose look loses the race for one order may find the next.
const LAST_LOOKS: u32 = 16;

/// A thread that waits, and how often in a row it found nothing.
#[derive(Drop)]
pub(crate) struct Backoff<'a> {
    word: &'a ParkWord,
    looks: u32,
    empty_looks: u32,
}

impl<'a> Backoff<'a> {
    /// It has just begun, and parks on this word. It looks again at once so often before it announces that it will park.
    pub(crate) fn new(word: &'a ParkWord, looks: u32) -> Backoff<'a> {
        Backoff {
            word,
            looks,
            empty_looks: 0,
        }
    }

    /// Something was found: whatever is awaited next may be near.
    pub(crate) fn reset(&mut self) {
        if self.empty_looks > self.looks {
            self.word.withdraw();
        }
        self.empty_looks = 0;
    }

    /// Waits after a look that found nothing: at first hardly at all, and at last, announced before some last looks, until it is woken.
    pub(crate) fn wait<R: Wait>(&mut self, rt: &R) {
        if self.empty_looks >= self.looks.saturating_add(LAST_LOOKS) {
            self.word.park(rt);
            self.empty_looks = 0;
            return;
        }
        if self.empty_looks == self.looks {
            self.word.announce();
        } else {
            spin_loop();
        }
        self.empty_looks = self.empty_looks.saturating_add(1);
    }
}
