//! Forced mate: whether the side to move, the attacker, mates within so many moves, by which first moves, and along which line.
//!
//! The rules are `chess_moves`'s business, and problems and outcomes are `chess_problems`'s. What a mate within n moves is stands in
//! `specs/Wins.antt`, keys and the principal variation in `specs/PrincipalVariation.antt`, and what there is to say of a problem in
//! `specs/Laws.antt`; an outcome is exactly that.
//!
//! To read: `memo_entries`, `peers`, `killers`, `side_occupancy`, `recent_positions`, `reply_table`, `memo`, `halting`, `searching`,
//! `root_results`, `principal_variation`, `findings`, `solving`, `solvers`; `laws` says of the definitions what they are meant to say. `solve`
//! takes memory for its memo alone, and never fails for want of it; `solve_until` can be stopped.
#![tactic(auto)]

mod findings;
mod halting;
mod killers;
mod laws;
mod memo;
mod memo_entries;
mod peers;
mod principal_variation;
mod recent_positions;
mod reply_table;
mod root_results;
mod searching;
mod side_occupancy;
mod solvers;
mod solving;

pub use halting::{Guide, Halt, Never, Stopped};
pub use laws::{
    among_all, dist_reads, keys_read, keys_rise, line_mates, line_reads, lost_reads, no_dist_reads,
    truth_playable, truth_reads, win_grows, win_reads,
};
pub use memo::{MAX_LARGE_ENTRIES, Memo, MemoFault};
pub use peers::{Peers, connect_peers};
pub use root_results::{RootResult, leaves_lost, result_on};
pub use solvers::{OneThread, Solver};
pub use solving::{first_moves, solve, solve_told, solve_until};
