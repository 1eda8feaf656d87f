//! Direct-mate problems: what one asks, what there is to say of it, and when two are one.
//!
//! How a problem is written is `chess_notation`'s business, and solving it is `mate_search`'s. To read: `specs/Problems.antt` and
//! `problems`, `outcomes` and `specs/Outcomes.antt`, then `specs/SameProblems.antt` and `same_problems`. No call takes memory.
#![tactic(auto)]

mod outcomes;
mod problems;
mod same_problems;

pub use outcomes::{Outcome, Variation};
pub use problems::{AvoidList, Bound, Problem};
pub use same_problems::{
    are_same_moves, is_among, is_same_move, same_move_reads, same_problem_reads,
};
