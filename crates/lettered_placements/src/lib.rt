//! Placements whose men have the letters of a language, read in English (PGN Specification, sections 16.1.3.1 and 17).
//!
//! What a placement has to be is `chess_board`'s business: here its letters alone are read. To read: `specs/Readings.antt`, then `readings`.
#![tactic(auto)]

mod readings;

pub use readings::{line_read, text_read};
