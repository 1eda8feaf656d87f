//! What there is to show of a FEN, as text: the position that moves lead to, its legal moves, their count, and its board.
//!
//! What a word names is the business of `chess_notation`; where a text goes, and what the words of a command ask for, is none of this
//! crate's. To read: `lines`; `played` (the FEN after a move, and after words that name moves), `boards` and `looks`, `columns` and
//! `listings`, `counts`, each over the file of `specs/` with its name. A text is made whole before any of it is given.
#![tactic(auto)]

mod boards;
mod columns;
mod counts;
mod lines;
mod listings;
mod looks;
mod played;

pub use boards::board_text;
pub use columns::Columns;
pub use counts::{divided_text, division_sums, perft_text};
pub use lines::push_line;
pub use listings::{moves_line, moves_text};
pub use looks::{look_board_text, look_text, reached_text};
pub use played::{after_fen, play};
