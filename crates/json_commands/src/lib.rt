//! The commands that write JSON: files of records answered one after the other, a line of JSON for each that isn't blank.
//!
//! How a reply looks in JSON is `json_replies`'s business, and how files are opened and stop that of `file_answers`. To read:
//! `specs/JsonFiles.antt` and `json_files`; then `specs/Solved.antt` and `solving`, `specs/Verified.antt`, `verifying` and `limited_verifying`,
//! `specs/Told.antt` and `telling`.
#![tactic(auto)]

mod json_files;
mod limited_verifying;
mod solving;
mod telling;
mod verifying;

pub use limited_verifying::verify_json_limited;
pub use solving::{solve_json, solve_json_by, solve_json_limited};
pub use telling::tell_json;
pub use verifying::verify_json;
