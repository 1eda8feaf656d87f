//! What workers are asked of the lines of records: that a record is solved, held against its claims, or told with its tree.
//!
//! Each task says what a line is answered whoever answers it, and what the first thread can say before anybody searches. To read:
//! `solve_tasks`, `claim_tasks` and `tree_tasks`.
#![tactic(auto)]

mod claim_tasks;
mod solve_tasks;
mod tree_tasks;

pub use claim_tasks::{ClaimTally, ClaimTask, LineVerdict, start_verifying};
pub use solve_tasks::{SolveTask, start_solving};
pub use tree_tasks::{TreeTask, start_telling};
