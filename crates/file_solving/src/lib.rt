//! Files of records, solved one after the other.
//!
//! What a record is answered is `mate_answers`'s business, and how files are opened and stop that of `file_answers`. To read: `specs/Solved.antt`
//! and `lengths` (solvers that tell which length they search), `solving`, then `limited_solving`, where each record may take so many seconds.
#![tactic(auto)]

mod lengths;
mod limited_solving;
mod solving;

pub use lengths::{Lengthwise, ToldLength};
pub use limited_solving::{limited_none, solve_limited};
pub use solving::{new_memo, solve, solve_by, solves_none};
