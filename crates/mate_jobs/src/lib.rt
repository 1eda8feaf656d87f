//! A problem on its way from who asks it to who solves it and back: a job to be solved, a job that was solved, an answer, and what is
//! delivered to who asked.
//!
//! Solving is `mate_search`'s business, and texts of records are `chess_notation`'s. To read: `specs/Jobs.antt`, `tickets` and `jobs`, what
//! a desk hands out and takes back; `deliveries`; then `asked_problems`, by which one outcome answers each record that asks its problem.
#![tactic(auto)]

mod asked_problems;
mod deliveries;
mod jobs;
mod tickets;

pub use asked_problems::asks;
pub use deliveries::Delivery;
pub use jobs::{Answer, Done, Job};
pub use tickets::Ticket;
