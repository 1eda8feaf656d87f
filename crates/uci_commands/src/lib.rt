//! What the commands say that a board gives an engine by the Universal Chess Interface (UCI, April 2006): a position, how to search it, an
//! option.
//!
//! Threads, time and what an engine answers are none of this crate's business. To read: `line_words` and `marks` (words behind one that
//! names them), then `position_commands`, `go_commands`, `move_searches` (the problem that a search asks) and `option_commands`, each over
//! the file of `specs/` with its name, and `boards` (which position is to be searched).
#![tactic(auto)]

mod boards;
mod go_commands;
mod line_words;
mod marks;
mod move_searches;
mod option_commands;
mod position_commands;

pub use boards::Board;
pub use go_commands::{Go, read_go};
pub use line_words::words_of;
pub use move_searches::{only_these, searched_moves, within};
pub use option_commands::{Setting, Spin, read_setting};
pub use position_commands::{PositionFault, place, start_fen};
