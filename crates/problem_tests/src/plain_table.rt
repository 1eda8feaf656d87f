//! The table of replies in its plain form: positions with the defender to move, each in the place that its hash names.

use chess_board::{Colour, Kind, Position};
use std::alloc::Global;
use std::hash::{FoldHasher, Hasher};

static COLOURS: [Colour; 2] = [Colour::White, Colour::Black];

static KINDS: [Kind; 6] = [
    Kind::Pawn,
    Kind::Knight,
    Kind::Bishop,
    Kind::Rook,
    Kind::Queen,
    Kind::King,
];

/// The squares of the men of these colours and kinds.
fn squares_of(position: &Position, colours: &[Colour], kinds: &[Kind]) -> u64 {
    let mut squares = 0;
    for colour in colours {
        for kind in kinds {
            squares |= position.men(*colour, *kind);
        }
    }
    squares
}

/// Whether the defender is lost in a position, with so many moves left to the attacker.
#[derive(Clone, Copy)]
struct Judged {
    position: Position,
    moves: u8,
    is_lost: bool,
}

/// The positions that were judged last, in no more places than were judged since there are so many.
#[derive(Drop)]
pub(crate) struct PlainTable {
    alloc: Global,
    places: Vec<Judged>,
    most: usize,
    judged: usize,
    enough: usize,
}

impl PlainTable {
    /// None yet, of a memo with room for so many entries.
    pub(crate) fn none(alloc: Global, entries: usize) -> PlainTable {
        PlainTable {
            alloc,
            places: Vec::new(alloc),
            most: (entries / 4).min(4096),
            judged: 0,
            enough: 1024,
        }
    }

    /// The place of a position, of so many as there are.
    fn place(&self, position: &Position) -> usize {
        let mut sides = FoldHasher::default();
        sides.write_u64(squares_of(position, &[Colour::White], &KINDS));
        sides.write_u64(squares_of(position, &[Colour::Black], &KINDS));
        let two = squares_of(position, &COLOURS, &[Kind::Queen, Kind::Knight]);
        let mut hasher = FoldHasher::default();
        hasher.write_u64(sides.finish() ^ two);
        ((hasher.finish() >> 40) as usize).wrapping_mul(self.places.len()) >> 24
    }

    /// Whether the defender is lost in a position with so many moves left to the attacker, where that is kept.
    pub(crate) fn answer(&self, position: &Position, moves: u8) -> Option<bool> {
        let judged = self.places.get(self.place(position))?;
        let is_told = if judged.is_lost {
            judged.moves <= moves
        } else {
            moves <= judged.moves
        };
        if judged.position == *position && is_told {
            Some(judged.is_lost)
        } else {
            None
        }
    }

    /// Keeps what was found of a position.
    pub(crate) fn keep(&mut self, position: &Position, moves: u8, is_lost: bool) {
        if self.judged >= self.enough {
            self.grow(position);
        }
        self.judged = self.judged.saturating_add(1);
        let place = self.place(position);
        if let Some(kept) = self.places.get_mut(place) {
            *kept = Judged {
                position: *position,
                moves,
                is_lost,
            };
        }
    }

    /// Makes more places, a quarter more at least or all that there may be, and forgets what was kept.
    fn grow(&mut self, position: &Position) {
        self.enough = self.judged.saturating_add(1024);
        let places = self.judged.min(self.most);
        let least = (self.places.len() / 4).saturating_add(self.places.len());
        if places <= self.places.len() || places < least.min(self.most) {
            return;
        }
        self.places = Vec::new(self.alloc);
        // No question has so many moves left that this is told.
        let nothing = Judged {
            position: *position,
            moves: 0,
            is_lost: false,
        };
        if let Ok(fresh) = Vec::from_elem(self.alloc, nothing, places) {
            self.places = fresh;
            self.judged = 0;
            self.enough = if places == self.most {
                usize::MAX
            } else {
                1024
            };
        }
    }
}
