//! What is wrong with a FEN or a record, thing by thing and where.
//!
//! Whether anything is wrong is what `read_fen` and `read_record` say; here is told what. To read: `specs/Told.antt`, which says all that is
//! told, and `told`; `placements`, what a placement says of each square, right or wrong; `sentences`, of which lines are made; then `ranks`,
//! `men`, `fields`, `checks`, `blanks`, a file for each part, and `warnings`, of what can't come about by play; and `asked`, which words are one.
#![tactic(auto)]

mod asked;
mod blanks;
mod checks;
mod fields;
mod men;
mod placements;
mod ranks;
mod sentences;
mod told;
mod warnings;

pub use asked::{say_position, tell_words};
pub use told::{Told, tell};
