//! What there is to say of a problem.

use crate::problems::Bound;
use arrayvec::ArrayVec;
use chess_board::Move;
use chess_moves::MoveList;

/// A principal variation, with room for the longest: 15 moves of the attacker and the 14 replies between them.
pub type Variation = ArrayVec<Move, 29>;

/// What there is to say of a problem: plain data of fixed size.
#[derive(Clone, Debug, PartialEq, Eq, Drop)]
pub enum Outcome {
    /// The least number of moves in which the attacker mates, all its first moves that do so in the order of moves, and one
    /// line of play.
    Mate {
        dm: Bound,
        keys: MoveList,
        pv: Variation,
    },
    /// There is no mate within the bound.
    NoMate,
}
