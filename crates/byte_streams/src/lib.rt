//! Bytes as they come and go: where an input comes from, how an output is written, and why either stops.
//!
//! What the bytes say is none of this crate's business. To read: `inputs`, then `no_memory` and `stops`, and `specs/Stops.antt` with
//! `writing`. No call takes memory.
#![tactic(auto)]

mod inputs;
mod no_memory;
mod stops;
mod writing;

pub use inputs::{Input, InputFault};
pub use no_memory::NoMemory;
pub use stops::Stop;
pub use writing::{put, put_counted, stop_of_output, whole_lines};
