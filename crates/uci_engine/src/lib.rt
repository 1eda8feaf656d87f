//! An engine that speaks UCI (Universal Chess Interface, April 2006), with a search that answers mates alone.
//!
//! What commands say is the business of `uci_commands`, and what is true of a problem that of `mate_search`. To read: `commands`, which
//! command a line gives; `texts`, what is written; `plans`, how long and how far a search goes; `signals` and `watches`, how a search is
//! told to stop and time is counted; what each thread does, `reader`, `searcher` and `talk`, which is sent `events` by the others; and
//! `engine`.
#![tactic(auto)]

mod commands;
mod engine;
mod events;
mod plans;
mod reader;
mod searcher;
mod signals;
mod talk;
mod texts;
mod watches;

pub use engine::{TalkFault, run_engine};
