//! Squares, men, sound positions, attack, FEN, moves, and the position after one.
//!
//! A `Position` is always sound: its type keeps it. What it is to a caller stands in `specs/Positions.antt` (the men on 64
//! squares, the side to move, the castling rights, the en passant target) and not in how it is kept. Which moves are legal
//! is defined here, in `specs/Legality.antt`, since `after` asks for it; to tell them is none of this crate's business.
//!
//! To read: `squares`, `men`, `boards`, `attacks`, `setups`, `soundness`, `positions`; then `placement`, `fields` and `fens`, the text
//! of a position field by field, over `cuts` and `faults`; then `moves`, `castling`, `en_passant` and `make_move`; and `laws`, each a
//! function that does nothing and whose contract says what holds. No call takes memory.
#![tactic(auto)]

mod attacks;
mod boards;
mod castling;
mod cuts;
mod en_passant;
mod faults;
mod fens;
mod fields;
mod laws;
mod make_move;
mod men;
mod moves;
mod placement;
mod positions;
mod setups;
mod soundness;
mod squares;

pub use castling::{is_castling, king_goal, king_home, rook_home, wing_of};
pub use cuts::cut_at;
pub use en_passant::{captured_pawn, is_en_passant};
pub use faults::FenFault;
pub use fens::{Fen, read_fen, read_fields, reads_back};
pub use laws::{
    attacked_reads, clear_reads, equal_reads, legal_reads, printed_spells, sound_after, spells_one,
};
pub use make_move::after;
pub use men::{Colour, Kind, Man, Rights, Wing};
pub use moves::{Move, comes_before};
pub use positions::Position;
pub use squares::{Square, push_square};
