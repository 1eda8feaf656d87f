//! Lines of positions: the FEN that a line says, and the reply to it.
//!
//! A line is a FEN, or a position in the first four fields of one, as records begin. What there is to show of a FEN is the business of a
//! `FenView`, lines are taken and replies written by `text_lines`. To read: `specs/LineFens.antt` and `line_fens`; then
//! `specs/PositionReplies.antt` and `position_replies`.
#![tactic(auto)]

mod line_fens;
mod position_replies;

pub use line_fens::{fens_read, line_fen};
pub use position_replies::{FenView, answer_positions};
