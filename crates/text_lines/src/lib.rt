//! The lines of an input as they come, and the replies to them.
//!
//! What a line says and is answered is the business of a `LineHandler`, or of a `LineWriter`, who is told how far that is a `Progress`, and where
//! bytes come from and go to that of `byte_streams`. To read: `specs/Replies.antt` and `specs/LinesFrom.antt` (the lines from one on), and
//! `writers`, over `input_lines` and `progress`; `replies`; then `refusals`, for lines that say no record; and `taken_lines`, for who answers
//! lines later than it takes them.
#![tactic(auto)]

mod input_lines;
mod progress;
mod refusals;
mod replies;
mod taken_lines;
mod writers;

pub use input_lines::{MAX_LINE, first_line, without_cr};
pub use progress::Progress;
pub use refusals::{fault_text, refusal};
pub use replies::{LineHandler, Output, answer_bytes, answer_input, answer_lines, replies_go_on};
pub use taken_lines::{TakenLine, TakenLines, TakenNext, lines_begin};
pub use writers::{LineWriter, LinesFrom, write_replies};
