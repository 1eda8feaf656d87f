//! Which move is to be judged next.

use std::sync::atomic::{AtomicU64, Ordering};

/// The places of moves in the order in which they are taken, and how many were taken. Workers share it; nothing is proved of it.
#[derive(Drop)]
pub(crate) struct Turns<'a> {
    order: &'a [usize],
    taken: AtomicU64,
}

impl<'a> Turns<'a> {
    /// None of these was taken.
    pub(crate) fn new(order: &'a [usize]) -> Turns<'a> {
        Turns {
            order,
            taken: AtomicU64::new(0),
        }
    }

    /// The next place that nobody took.
    pub(crate) fn next(&self) -> Option<usize> {
        let next = self.taken.fetch_add(1, Ordering::SeqCst) as usize;
        self.order.get(next).copied()
    }
}
