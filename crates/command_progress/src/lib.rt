//! How far a command is: what the thread that answers leaves, and the thread that tells of it on standard error.
//!
//! No answer depends on it. To read: `progress_counts` (what is counted, and how it is told), by what replies have `said`; `watched_files`, which
//! leave it there; and `progress_thread`, which tells it on a `console`.
#![tactic(auto)]

mod console;
mod progress_counts;
mod progress_thread;
mod said;
mod watched_files;

pub use console::Console;
pub use progress_counts::ProgressCounts;
pub use progress_thread::Telling;
pub use watched_files::{WatchedFile, WatchedFiles};
