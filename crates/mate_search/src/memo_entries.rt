//! An entry of the memo: what is known of a position whose side to move is the attacker.

ghost use Rattle.std.specs.Prelude.{◌≡◌, IfSome, true, false};
ghost use Rattle.chess_board.specs.Positions.{Setup};
ghost use Rattle.chess_board.specs.Soundness.{IsSound};
ghost use Rattle.mate_search.specs.Wins.{win};
ghost use Rattle.mate_search.specs.inside.MemoEntries.{IsTrueOf};

/// What is known of a position: the greatest number of moves within which there is no mate, and the least within which there is
/// one, where such a number was found.
#[derive(Clone, Copy, PartialEq, Eq)]
pub(crate) struct Entry {
    pub none_within: u8,
    pub win_within: Option<u8>,
}

impl Entry {
    /// What is known of a position that was never met: there is no mate within 0.
    pub(crate) fn nothing() -> Entry
        ensures { (p : Setup) → IsSound p → IsTrueOf p result }
    {
        Entry {
            none_within: 0,
            win_within: None,
        }
    }

    /// Whether the attacker mates within `n` moves, where that is known.
    pub(crate) fn answer(self, n: u8) -> Option<bool>
        ensures { (p : Setup) → IsTrueOf p self → IfSome result (λ found. found ≡ win n p) }
    {
        if n <= self.none_within {
            return Some(false);
        }
        match self.win_within {
            Some(k) if k <= n => Some(true),
            _ => None,
        }
    }

    /// What is known once one more fact is: whether the attacker mates within `n` moves.
    pub(crate) fn with(self, n: u8, found: bool) -> Entry
        ensures { (p : Setup) → IsTrueOf p self → found ≡ win n p → IsTrueOf p result }
    {
        if !found {
            return Entry {
                none_within: self.none_within.max(n),
                win_within: self.win_within,
            };
        }
        match self.win_within {
            Some(k) if k <= n => self,
            _ => Entry {
                none_within: self.none_within,
                win_within: Some(n),
            },
        }
    }
    /// What is known by both.
    pub(crate) fn with_all_of(self, other: Entry) -> Entry
        ensures { (p : Setup) → IsTrueOf p self → IsTrueOf p other → IsTrueOf p result }
    {
        let known = self.with(other.none_within, false);
        match other.win_within {
            Some(k) => known.with(k, true),
            None => known,
        }
    }

    /// The number of moves up to which it says something.
    #[inline(always)]
    pub(crate) fn moves(self) -> u8 {
        match self.win_within {
            Some(k) => self.none_within.max(k),
            None => self.none_within,
        }
    }
}
