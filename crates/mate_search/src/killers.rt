//! Killers: replies that refuted a move of the attacker.

use chess_board::Move;

/// The two replies that refuted last with one move left to the attacker, to be tried before all others there. They say nothing about
/// any position.
#[derive(Clone, Copy)]
pub(crate) struct Killers {
    last: Option<Move>,
    earlier: Option<Move>,
}

impl Killers {
    /// None yet.
    pub(crate) fn none() -> Killers {
        Killers {
            last: None,
            earlier: None,
        }
    }

    /// The two replies, the one that refuted last before the other.
    pub(crate) fn two(&self) -> (Option<Move>, Option<Move>) {
        (self.last, self.earlier)
    }

    /// Keeps a reply that refuted.
    pub(crate) fn keep(&mut self, reply: Move) {
        if self.last != Some(reply) {
            self.earlier = self.last;
            self.last = Some(reply);
        }
    }
}
