//! What an input of records is answered, line by line.
//!
//! What a record says and its answer's text are `chess_notation`'s business, lines are taken and replies written by `text_lines`, and
//! solving is `mate_search`'s. To read: `specs/InputReplies.antt` and `input_replies`; then
//! `limited_replies`, where each record may take so long.
#![tactic(auto)]

mod input_replies;
mod limited_replies;

pub use input_replies::{Answers, answer_input, replies_go_on, solve_input};
pub use limited_replies::{Limited, LimitedMemory, TimeLimit, decide};
pub use text_lines::{Output, fault_text, first_line, without_cr};
