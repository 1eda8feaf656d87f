//! What a search keeps, in its plain form: a memo, which is asked about each position, and the table of replies.

use crate::plain_table::PlainTable;
use chess_board::{Move, Position};
use lru::LruCache;
use std::alloc::Global;
use std::num::NonZeroUsize;

/// What is known of a position: the greatest number of moves within which there is no mate, and the least within which there is
/// one, where such a number was found.
#[derive(Clone, Copy, PartialEq, Eq)]
pub(crate) struct Entry {
    pub none_within: u8,
    pub win_within: Option<u8>,
}

impl Entry {
    /// What is known of a position that was never met: there is no mate within 0.
    pub(crate) fn nothing() -> Entry {
        Entry {
            none_within: 0,
            win_within: None,
        }
    }

    /// Whether the attacker mates within `n` moves, where that is known.
    pub(crate) fn answer(self, n: u8) -> Option<bool> {
        if n <= self.none_within {
            return Some(false);
        }
        match self.win_within {
            Some(k) if k <= n => Some(true),
            _ => None,
        }
    }

    /// What is known once one more fact is: whether the attacker mates within `n` moves.
    pub(crate) fn with(self, n: u8, found: bool) -> Entry {
        if !found {
            return Entry {
                none_within: self.none_within.max(n),
                win_within: self.win_within,
            };
        }
        match self.win_within {
            Some(k) if k <= n => self,
            _ => Entry {
                none_within: self.none_within,
                win_within: Some(n),
            },
        }
    }
}

/// The two replies that refuted last with one move left to the attacker, to be tried before all others there. They say nothing about
/// any position.
#[derive(Clone, Copy)]
struct Killers {
    last: Option<Move>,
    earlier: Option<Move>,
}

impl Killers {
    /// None yet.
    fn none() -> Killers {
        Killers {
            last: None,
            earlier: None,
        }
    }

    /// The two replies, the one that refuted last before the other.
    fn two(&self) -> (Option<Move>, Option<Move>) {
        (self.last, self.earlier)
    }

    /// Keeps a reply that refuted.
    fn keep(&mut self, reply: Move) {
        if self.last != Some(reply) {
            self.earlier = self.last;
            self.last = Some(reply);
        }
    }
}

/// What a search found about the positions that it met last, at most as many as there is room for, those with the defender to move in a
/// table of their own, and the replies that refuted last.
#[derive(Drop)]
pub(crate) struct PlainMemo {
    cache: LruCache<Position, Entry>,
    replies: PlainTable,
    killers: Killers,
}

impl PlainMemo {
    /// An empty memo with room for so many entries; none where there is none, or memory is refused.
    pub(crate) fn new(alloc: Global, entries: usize) -> Option<PlainMemo> {
        let cache = LruCache::new(alloc, NonZeroUsize::new(entries)?).ok()?;
        Some(PlainMemo {
            cache,
            replies: PlainTable::none(alloc, entries),
            killers: Killers::none(),
        })
    }

    /// How many entries are kept.
    pub(crate) fn len(&self) -> usize {
        self.cache.len()
    }

    /// What is known of a position, which becomes the one that was met last.
    pub(crate) fn entry(&mut self, position: &Position) -> Entry {
        match self.cache.get(position) {
            Some(entry) => *entry,
            None => Entry::nothing(),
        }
    }

    /// Keeps what is known of a position in place of what was kept of it. Where memory is refused, it is not kept.
    pub(crate) fn keep(&mut self, position: &Position, entry: Entry) {
        // A put that is refused loses this entry and nothing else, and no outcome depends on it.
        let _ = self.cache.put(*position, entry);
    }

    /// Whether the defender is lost in a position with so many moves left to the attacker, where that is kept.
    pub(crate) fn judged(&self, position: &Position, moves: u8) -> Option<bool> {
        self.replies.answer(position, moves)
    }

    /// Keeps whether it is.
    pub(crate) fn keep_judged(&mut self, position: &Position, moves: u8, is_lost: bool) {
        self.replies.keep(position, moves, is_lost);
    }

    /// The two replies that refuted last with one move left to the attacker.
    pub(crate) fn killers(&self) -> (Option<Move>, Option<Move>) {
        self.killers.two()
    }

    /// Keeps a reply that refuted with one move left to the attacker.
    pub(crate) fn keep_refutation(&mut self, reply: Move) {
        self.killers.keep(reply);
    }
}
