//! Files of records held against their own claims, one after the other.
//!
//! What is told of a line is `mate_claims`'s business, and how files are opened and stop that of `file_answers`. To read: `specs/Verified.antt`,
//! `headings` and `verifying`, then `limited_verifying`, where each record may take so long.
#![tactic(auto)]

mod headings;
mod limited_verifying;
mod verifying;

pub use headings::{Rows, ToldHints, tell_counts};
pub use limited_verifying::verify_limited;
pub use verifying::{RowStart, Verifier, verify, verify_by};
