//! Lines answered on several threads, in their order, as they come.
//!
//! One thread takes lines, writes replies and says what is wrong with lines that say no record; workers, each with a memo of its own, answer
//! those that say one. What comes back from them is true by its type, `answered_lines`, and is held against the line that waits for it: so
//! nothing is proved of the channels, and an answer that is lost, or meant for another line, is never written. To read: `line_tasks`, what is
//! asked of a line; `answered_lines`; `open_replies`, what is not written yet, and `ready_replies`, which of it is there; `workers`, where
//! the threads are; and `ordered_answers`.
#![tactic(auto)]

mod answered_lines;
mod line_tasks;
mod open_replies;
mod ordered_answers;
mod ready_replies;
mod workers;

pub use line_tasks::{LineTask, Reply};
pub use ordered_answers::{Answering, answer_in_order};
pub use workers::{NoWorkers, Prepared, Worker, Workers, prepare};
