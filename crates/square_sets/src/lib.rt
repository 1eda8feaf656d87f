//! Sets of squares, as words of 64 bits: bit i stands for the square of number i, a1 for 0 and h8 for 63.
//!
//! What stands on the squares is none of this crate's business. To read: `specs/Members.antt` and `members`, then
//! `specs/BitScan.antt` and `bit_scan`. No call takes memory.
#![tactic(auto)]

mod bit_scan;
mod members;

pub use bit_scan::{SquareScan, lowest, squares, without_lowest};
pub use members::{contains, single, with, without};
