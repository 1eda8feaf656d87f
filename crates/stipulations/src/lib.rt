//! Stipulations: mates in so many moves, as magazines print them.
//!
//! A text is bytes, mostly ASCII. It is cut into parts; a part that is a whole phrase, in one of eight languages or in signs, says a number
//! of moves, and one that speaks of an aim in other words isn't understood. Nothing here knows a position. To read, each with its file in
//! `specs/`: `stipulations`, what a text asks; `parts`, `phrases` over `patterns` and `numbers`, and `aims` over `words`, `signs` and
//! `other_numbers`; `sides`, who is said to move; `men`, how many men are told; and `asked`. No call takes memory.
#![tactic(auto)]

mod aims;
mod asked;
mod men;
mod numbers;
mod other_numbers;
mod parts;
mod patterns;
mod phrases;
mod sides;
mod signs;
mod stipulations;
mod words;

pub use asked::Asked;
pub use men::tells_other_men;
pub use sides::says_side;
pub use stipulations::{moves_asked, moves_named, speaks_of_aim};
