//! Words that name a move as people write it: `1.Bh1!`, `Bg2-h1`, `0-0`, `f8R`, `exd6 e.p.`.
//!
//! A word here is ASCII, and men have the letters of a language. SAN and coordinates, exactly as they have to be, are `chess_notation`'s
//! business. To read: `specs/Patterns.antt` and `specs/Naming.antt`, what a word says and which moves that fits; then `languages`,
//! `letters`, `places`, `parts` (a word, cut), `patterns` and `naming`. No call takes memory.
#![tactic(auto)]

mod languages;
mod letters;
mod naming;
mod parts;
mod patterns;
mod places;

pub use languages::Letters;
pub use naming::{Named, is_aside, named_move};
