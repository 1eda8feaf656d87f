//! What is found of a problem, in the place where it is found.

ghost use Rattle.std.specs.Prelude.{◌≡◌};
ghost use Rattle.mate_search.specs.inside.Findings.{outcome_of, IsBlank};

use chess_moves::MoveList;
use chess_problems::{Bound, Outcome, Variation};

/// The keys and the line of play of a mate. They are large, so whoever finds them writes them here, and no layer between copies them.
#[derive(Drop)]
pub(crate) struct Finding {
    pub(crate) keys: MoveList,
    pub(crate) pv: Variation,
}

impl Finding {
    /// Nothing found yet.
    #[inline(always)]
    pub(crate) fn new() -> Finding
        ensures { IsBlank result }
    {
        Finding {
            keys: MoveList::new(),
            pv: Variation::new(),
        }
    }

    /// What there is to say where this is the least number of moves, or where there is none.
    #[inline(always)]
    pub(crate) fn into_outcome(self, dm: Option<Bound>) -> Outcome
        ensures { result ≡ outcome_of dm self }
    {
        match dm {
            Some(dm) => Outcome::Mate {
                dm,
                keys: self.keys,
                pv: self.pv,
            },
            None => Outcome::NoMate,
        }
    }
}
