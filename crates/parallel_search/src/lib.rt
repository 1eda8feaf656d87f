//! Problems solved on several threads, with the same outcomes as on one.
//!
//! For each length the first moves are judged by workers, each with a memo of its own, whose entries that took long to find the others hear
//! of: which worker takes which move is told by a counter that they share, and what is heard when, of that nothing is proved. Each entry is
//! true by its type and each result of theirs by that, and what none of them judged `solve_told` of `mate_search` judges: so the outcome is
//! the truth. To read: `turns`, `workers`; `judging`, where the threads are; `rounds` and `solving`.
#![tactic(auto)]

mod judging;
mod rounds;
mod solving;
mod turns;
mod workers;

pub use solving::{OnThreads, ThreadMemory, solve_on_threads};
