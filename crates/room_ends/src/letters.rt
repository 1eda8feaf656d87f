//! What goes over the rings.

use chess_notation::Record;
use mate_jobs::{Done, Job};

/// What a window sends the keeper.
#[derive(Drop)]
pub enum Letter {
    /// A record to be answered.
    Record(Record),
    /// The record that the window sent as its n-th, counted from 0, is withdrawn.
    Withdrawal(u64),
    /// Nothing follows.
    Farewell,
}

/// What a bench gives back to the keeper.
#[derive(Drop)]
pub enum Back {
    /// A job that was solved.
    Solved(Done),
    /// A job that was not.
    Returned(Job),
}
