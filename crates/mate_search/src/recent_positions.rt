//! Which positions a memo may hold, told in less time than it takes to look for one.

use crate::side_occupancy::SideOccupancy;
use std::alloc::Global;

/// How many positions there are to a word of a half, at most: most that were never met have no mark there.
const A_WORD: usize = 8;

/// How many words a half has at first, at most. Most problems meet no more positions than it has room for.
const FIRST_WORDS: usize = 1024;

/// How many times as many marks a half has room for once it has grown, at most: a memo that stays small keeps a small filter.
const GROWTH: usize = 8;

/// How many words a half has at most: as many as the bits of a hash name that name a word.
const MOST_WORDS: usize = 16_777_216;

/// How many words a half has for so many marks, the least power of two that is enough, where there may be so many.
fn words_for(marks: usize) -> usize {
    marks.div_ceil(A_WORD).next_power_of_two().min(MOST_WORDS)
}

/// The word of a half that a hash names; none where there are no words, of which there are a power of two.
#[inline(always)]
fn word_of(hash: u64, half: &[u64]) -> usize {
    (hash >> 40) as usize & half.len().wrapping_sub(1)
}

/// The mark of a hash in its word.
#[inline(always)]
fn mark_of(hash: u64) -> u64 {
    1 << (hash % 64)
}

/// Whether a half has the mark of a hash.
#[inline(always)]
fn has_mark(half: &[u64], hash: u64) -> bool {
    match half.get(word_of(hash, half)) {
        Some(word) => *word & mark_of(hash) != 0,
        None => false,
    }
}

/// A Bloom filter (Bloom, Space/Time Trade-offs in Hash Coding with Allowable Errors, 1970) of one hash over the positions that a memo
/// holds, in two halves. A position is marked in the newer one at each use; once that has as many marks as the memo has entries, it takes
/// the place of the older, and a new one begins. So what has no mark was used before as many others, and the memo, which forgets what was
/// used least recently, holds it no more. What has one may yet be none of its positions. Where memory is refused, each may be one.
///
/// No proof speaks of it, since the truth of an outcome does not depend on what a memo tells.
#[derive(Drop)]
pub(crate) struct RecentPositions {
    alloc: Global,
    newer: Vec<u64>,
    older: Vec<u64>,
    /// How many marks were set since the newer half began, and of how many it is full: 0 before it has begun.
    marks: usize,
    full: usize,
    /// How many entries the memo has room for.
    most: usize,
}

impl RecentPositions {
    /// None yet, of a memo with room for so many entries. It asks for no memory before a position is marked.
    pub(crate) fn new(alloc: Global, entries: usize) -> RecentPositions {
        RecentPositions {
            alloc,
            newer: Vec::new(alloc),
            older: Vec::new(alloc),
            marks: 0,
            full: 0,
            most: entries,
        }
    }

    /// Whether a position whose men stand so may be one that the memo holds.
    #[inline(always)]
    pub(crate) fn may_have(&self, occupancy: SideOccupancy) -> bool {
        let hash = occupancy.hash();
        self.newer.is_empty() || has_mark(&self.newer, hash) || has_mark(&self.older, hash)
    }

    /// Marks a position that is used: it was put into the memo, or found there.
    pub(crate) fn mark(&mut self, occupancy: SideOccupancy) {
        if self.full == 0 {
            self.begin();
        }
        let hash = occupancy.hash();
        if self.newer.is_empty() || has_mark(&self.newer, hash) {
            return;
        }
        if self.marks >= self.full {
            self.make_room();
        }
        let number = word_of(hash, &self.newer);
        if let Some(word) = self.newer.get_mut(number) {
            *word |= mark_of(hash);
        }
        self.marks = self.marks.saturating_add(1);
    }

    /// Begins with the first position, or, where memory is refused, never: that position would have no mark.
    fn begin(&mut self) {
        let words = words_for(self.most).min(FIRST_WORDS);
        self.full = self.most.min(words.saturating_mul(A_WORD)).max(1);
        if let Ok(newer) = Vec::from_elem(self.alloc, 0, words) {
            self.newer = newer;
        }
    }

    /// Makes room for marks, where the newer half is full.
    fn make_room(&mut self) {
        if self.full < self.most {
            self.grow();
        } else {
            self.turn();
        }
    }

    /// Lets the newer half grow. Each word stands in the larger one wherever a hash that named it may name it now. Where memory is refused,
    /// it stays as it is.
    fn grow(&mut self) {
        self.full = self.full.saturating_mul(GROWTH).min(self.most);
        let words = words_for(self.full);
        let Ok(mut larger) = Vec::with_capacity(self.alloc, words) else {
            return;
        };
        for _ in 0..words / self.newer.len().max(1) {
            if larger.extend_from_slice(&self.newer).is_err() {
                return;
            }
        }
        self.newer = larger;
    }

    /// Lets the newer half take the older's place. Where memory for another is refused, it goes on.
    fn turn(&mut self) {
        self.marks = 0;
        if self.older.is_empty() {
            if let Ok(fresh) = Vec::from_elem(self.alloc, 0, self.newer.len()) {
                self.older = fresh;
                std::mem::swap(&mut self.newer, &mut self.older);
            }
            return;
        }
        std::mem::swap(&mut self.newer, &mut self.older);
        for word in self.newer.iter_mut() {
            *word = 0;
        }
    }
}
