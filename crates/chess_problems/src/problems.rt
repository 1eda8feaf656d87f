//! Problems and their bounds.

ghost use Rattle.std.specs.Prelude.{◌≡◌, ◌≤◌, ℕ};
ghost use Rattle.chess_problems.specs.Problems.{bound_of, max_bound};

use arrayvec::ArrayVec;
use chess_board::{Move, Position};
use std::marker::Model;

/// The greatest bound.
const MAX_BOUND: u8 = 15;

/// Within how many moves of the attacker mate is asked for, 1 to 15: what `dm` says (PGN Specification, section 16.2.5).
#[derive(Clone, Copy, Debug, PartialEq, Eq, PartialOrd, Ord)]
pub struct Bound {
    moves: u8,
}

impl Model for Bound {
    ghost use Rattle.std.specs.Prelude.{◌≤◌, ℕ};
    ghost use Rattle.chess_problems.specs.Problems.{max_bound};

    ghost Value = { ℕ };

    ghost view = { λ b. b.moves };

    ghost invariant = { λ b. (1 ≤ b.moves) × (b.moves ≤ max_bound) };

    ghost inverse = { λ n. record { moves = n } };
}

impl Bound {
    /// The bound of so many moves; none outside 1 to 15.
    pub fn new(moves: u8) -> Option<Bound>
        ensures { result ≡ bound_of moves }
    {
        if 1 <= moves && moves <= MAX_BOUND {
            Some(Bound { moves })
        } else {
            None
        }
    }

    /// The number of moves.
    pub fn get(self) -> u8
        ensures moves { result ≡ self }
        ensures some { 1 ≤ result }
        ensures few { result ≤ max_bound }
    {
        self.moves
    }
}

/// Moves to avoid, with room for all that a line can name: each has two bytes at least there, and a space between it and the next.
pub type AvoidList = ArrayVec<Move, 341>;

/// A direct-mate problem: whether the side to move mates within so many of its moves, the first of them none of those to avoid,
/// which rise in the order of moves. It is of fixed size, and can't be cloned: `Record::problem` makes it anew.
#[derive(Debug, Drop)]
pub struct Problem {
    pub position: Position,
    pub bound: Bound,
    pub avoid: AvoidList,
}

impl Model for Problem {
    ghost use Rattle.chess_moves.specs.Laws.{IsRising};
    ghost use Rattle.chess_problems.specs.Problems.{ProblemValue};

    ghost Value = { ProblemValue };

    ghost view = { λ p. record { position = p.position; bound = p.bound; avoid = p.avoid.items } };

    ghost invariant = { λ p. IsRising p.avoid.items };
}
