//! The transposition table of replies: what was found of positions with the defender to move, in which lines meet that differ in the order
//! of their moves. It is small; the large one is the memo, of positions with the attacker to move.

ghost use Rattle.std.specs.Prelude.{◌≡◌, IfSome, true};
ghost use Rattle.chess_board.specs.Laws.{are_equal};
ghost use Rattle.chess_board.specs.Positions.{Setup};
ghost use Rattle.mate_search.specs.Wins.{lost};

use crate::side_occupancy::SideOccupancy;
use chess_board::{Colour, Kind, Position, equal_reads};
use std::alloc::Global;
use std::hash::{FoldHasher, Hasher};
use std::marker::Model;

/// How many places there are, at most. They are few, so that they stay where they are read soon: lines that meet do so before long.
const PLACES: usize = 4096;

/// For how many entries that the memo has room for there may be a place, so that a small memo has a small table. A place takes 81 bytes with
/// its tag: no more than 21 for each of these entries.
const ENTRIES_A_PLACE: usize = 4;

/// After how many positions that were judged it is looked whether there are to be more places. Each place that is made is paid for by one
/// that was judged since places were made last.
const JUDGED_A_LOOK: usize = 1024;

/// Whether the defender is lost in a position, with so many moves left to the attacker.
#[derive(Clone, Copy)]
pub(crate) struct Judged {
    position: Position,
    moves: u8,
    is_lost: bool,
}

impl Model for Judged {
    ghost use Rattle.std.specs.Prelude.{◌≡◌};
    ghost use Rattle.mate_search.specs.Wins.{lost};
    ghost use Rattle.mate_search.specs.inside.ReplyTable.{JudgedValue};

    ghost Value = { JudgedValue };

    ghost view = { λ j. record { position = j.position; moves = j.moves; is_lost = j.is_lost } };

    ghost invariant = { λ j. j.is_lost ≡ lost j.moves j.position };

    ghost inverse = { λ v. record { position = v.position; moves = v.moves; is_lost = v.is_lost } };
}

/// The positions that were judged last, each in the place that its hash names, where it takes another's. Each is true, so no outcome
/// depends on what is kept.
#[derive(Drop)]
pub(crate) struct ReplyTable {
    alloc: Global,
    places: Vec<Judged>,
    /// A byte of the hash of the position in each place: most that is asked about is told to be another by it, and no place is read.
    tags: Vec<u8>,
    /// How many places there may be.
    most: usize,
    /// How many positions were judged since there are so many places, and after how many it is looked whether there are to be more.
    judged: usize,
    enough: usize,
}

/// Where a position is kept, by a number that its hash names, and its tag.
#[derive(Clone, Copy)]
pub(crate) struct TablePlace {
    number: usize,
    tag: u8,
}

/// The squares of all queens and knights.
#[inline(always)]
fn queens_and_knights(position: &Position) -> u64 {
    position.men(Colour::White, Kind::Queen)
        | position.men(Colour::Black, Kind::Queen)
        | position.men(Colour::White, Kind::Knight)
        | position.men(Colour::Black, Kind::Knight)
}

/// The place that a position's hash names. It goes by the squares of each side's men, and of queens and knights: to hash the whole position
/// costs more than is lost where two that differ in other kinds, in a right or in a target take each other's place.
#[inline(always)]
pub(crate) fn place_of(position: &Position) -> TablePlace {
    let mut hasher = FoldHasher::default();
    hasher.write_u64(SideOccupancy::of(position).hash() ^ queens_and_knights(position));
    let hash = hasher.finish();
    TablePlace {
        number: (hash >> 40) as usize,
        tag: (hash >> 32 & 255) as u8,
    }
}

/// Whether two positions are one, by `==`.
#[inline(always)]
fn is_same_position(p: &Position, q: &Position) -> bool
    ensures { result ≡ are_equal p.now q.now }
{
    p == q
}

/// Whether what was found with so many moves left tells it with so many others: who is lost is lost where more are left, and who is not is
/// not where fewer are.
#[inline(always)]
fn tells(judged: u8, is_lost: bool, moves: u8) -> bool
    ensures { (p : Setup) → is_lost ≡ lost judged p → result ≡ true → is_lost ≡ lost moves p }
{
    if is_lost {
        judged <= moves
    } else {
        moves <= judged
    }
}

impl ReplyTable {
    /// None yet, of a memo with room for so many entries.
    pub(crate) fn none(alloc: Global, entries: usize) -> ReplyTable {
        ReplyTable {
            alloc,
            places: Vec::new(alloc),
            tags: Vec::new(alloc),
            most: (entries / ENTRIES_A_PLACE).min(PLACES),
            judged: 0,
            enough: JUDGED_A_LOOK,
        }
    }

    /// The index of a place among those that there are: so many 2^24ths of their number.
    #[inline(always)]
    fn index_of(&self, place: TablePlace) -> usize {
        place.number.wrapping_mul(self.tags.len()) >> 24
    }

    /// Whether the defender is lost in a position with so many moves left to the attacker, where what this place keeps tells it.
    #[inline(always)]
    pub(crate) fn judged(&self, place: TablePlace, position: &Position, moves: u8) -> Option<bool>
        ensures { IfSome result (λ is_lost. is_lost ≡ lost moves position.now) }
    {
        let index = self.index_of(place);
        match self.tags.get(index) {
            Some(tag) if *tag == place.tag => (),
            _ => return None,
        }
        // That two positions which `==` calls equal are one is a law of sound positions.
        equal_reads();
        let Some(judged) = self.places.get(index) else {
            return None;
        };
        // That both are sound is a clause of these calls.
        position.side();
        judged.position.side();
        if is_same_position(&judged.position, position)
            && tells(judged.moves, judged.is_lost, moves)
        {
            return Some(judged.is_lost);
        }
        None
    }

    /// Keeps what was found of a position, in this place. Where memory is refused, it is not kept.
    pub(crate) fn keep(&mut self, place: TablePlace, position: &Position, moves: u8, is_lost: bool)
        requires { is_lost ≡ lost moves position.now }
    {
        let judged = Judged {
            position: *position,
            moves,
            is_lost,
        };
        if self.judged >= self.enough {
            self.grow(judged);
        }
        self.judged = self.judged.saturating_add(1);
        let index = self.index_of(place);
        if let Some(tag) = self.tags.get_mut(index) {
            *tag = place.tag;
        }
        if let Some(kept) = self.places.get_mut(index) {
            *kept = judged;
        }
    }

    /// Makes more places, a quarter more at least or all that there may be, each with this position, and forgets what was kept. Those before go
    /// first, so that both never take memory. Where it is refused, there are none until the next look.
    fn grow(&mut self, judged: Judged) {
        self.enough = self.judged.saturating_add(JUDGED_A_LOOK);
        let places = self.judged.min(self.most);
        let least = (self.tags.len() / 4).saturating_add(self.tags.len());
        if places <= self.tags.len() || places < least.min(self.most) {
            return;
        }
        self.tags = Vec::new(self.alloc);
        self.places = Vec::new(self.alloc);
        let Ok(tags) = Vec::from_elem(self.alloc, 0, places) else {
            return;
        };
        let Ok(fresh) = Vec::from_elem(self.alloc, judged, places) else {
            return;
        };
        self.places = fresh;
        self.tags = tags;
        self.judged = 0;
        self.enough = if places == self.most {
            usize::MAX
        } else {
            JUDGED_A_LOOK
        };
    }
}
