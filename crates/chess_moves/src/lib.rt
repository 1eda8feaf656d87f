//! The legal moves of a position, those that give check, its verdict, and the count of the lines of play.
//!
//! A position is `chess_board`'s business; here stand all the legal moves together. The list is
//! exact: each legal move once, in the order of moves. Each call takes the `Rays`, which are made once for the program. No move is
//! found by making it: sets of squares tell where each man may go.
//!
//! To read: `specs/Laws.antt` (which moves the list has) and `specs/inside/Listing.antt` (how it is put together); `directions`,
//! `ray_tables`, `side_men`, `attackers` and `slider_lines` (what is seen and attacked, and what is between), `legality_info` and
//! `movers` (a position with all that its moves are asked about, and a man to move), `castling_targets`, `en_passant_targets`,
//! `pseudo_legal_targets` and `checks_and_pins` (where a man goes, and where it leaves its king safe), `legal_targets` and `promotions`;
//! then `move_generation`, `verdicts` and `verdict_of_position`, and `perft_count`; `check_squares` and `gives_check`;
//! `discovered_checks`, `attacked_sets`, `flights`, `mating_men`, `mate_in_one` and `mating_moves`; `king_steps`, `escapes` and
//! `escape_guards`. `laws` says what the lists hold in words that do not speak of how they are made. No call takes memory.
#![tactic(auto)]

mod attacked_sets;
mod attackers;
mod castling_targets;
mod check_squares;
mod checks_and_pins;
mod directions;
mod discovered_checks;
mod en_passant_targets;
mod escape_guards;
mod escapes;
mod flights;
mod gives_check;
mod king_steps;
mod laws;
mod legal_targets;
mod legality_info;
mod mate_in_one;
mod mating_men;
mod mating_moves;
mod move_generation;
mod movers;
mod perft_count;
mod promotions;
mod pseudo_legal_targets;
mod ray_tables;
mod side_men;
mod slider_lines;
mod verdict_of_position;
mod verdicts;

pub use attackers::attacked;
pub use escape_guards::{EscapeGuards, guards_of_escapes, leaves_escape};
pub use escapes::king_escapes;
pub use gives_check::checks;
pub use laws::{legal_listed, legal_rise, plays_listed, plays_once};
pub use mate_in_one::has_mating_move;
pub use mating_moves::push_mating_moves;
pub use move_generation::{LegalMoves, MoveList, is_legal, legal, legal_moves, legal_moves_of};
pub use perft_count::perft;
pub use ray_tables::{Rays, rays_in_order};
pub use verdict_of_position::{in_check, is_mated, verdict};
pub use verdicts::Verdict;
