//! Records near problems: some of a problem's men stand elsewhere, so that each record is another, and the like of a composed one.

use crate::chance::Chance;
use crate::stops::Stop;
use chess_board::{Colour, Kind, Man, Position, Square, read_fields};
use chess_moves::Rays;
use chess_notation::read_record;
use chess_problems::Bound;
use std::alloc::{AllocError, Global};
use std::collections::BTreeSet;

/// The men on the 64 squares, a1 first.
pub(crate) type Men = [Option<Man>; 64];

/// How often it is tried to find a sound position.
const TRIES: usize = 64;

/// A problem: its men, within how many moves it is asked, and what stands behind the men in its record.
#[derive(Drop)]
pub(crate) struct Pattern<'a> {
    pub men: Men,
    pub bound: u8,
    pub rest: &'a str,
}

/// The men of a position.
pub(crate) fn men_of(position: &Position) -> Men {
    let mut men = [None; 64];
    for number in 0..64u8 {
        men[number as usize] = position.man(Square::numbered(number));
    }
    men
}

/// The problem of a line.
pub(crate) fn pattern_of<'a>(
    alloc: Global,
    rays: &Rays,
    line: &'a str,
) -> Result<Pattern<'a>, Stop> {
    let bound = Bound::new(3).ok_or("bound")?;
    let (_, rest) = line.split_once(' ').ok_or("fields")?;
    match read_record(alloc, rays, line.as_bytes(), bound) {
        Ok(record) => Ok(Pattern {
            men: men_of(&record.position),
            bound: record.bound.get(),
            rest,
        }),
        Err(_) => Err(Stop("record")),
    }
}

/// Whether a man may be put elsewhere.
fn is_movable(place: Option<Man>) -> bool {
    match place {
        Some(man) => man.kind != Kind::King,
        None => false,
    }
}

/// Puts a man that is no king on an empty square.
fn move_one(men: &mut Men, chance: &mut Chance) {
    for _ in 0..TRIES * 16 {
        let from = chance.below(64) % 64;
        let to = chance.below(64) % 64;
        if is_movable(men[from]) && men[to].is_none() {
            men[to] = men[from];
            men[from] = None;
            return;
        }
    }
}

/// The letter of a man: a capital for White's.
fn letter_of(man: Man) -> char {
    let letter = man.kind.letter() as char;
    match man.colour {
        Colour::White => letter,
        Colour::Black => letter.to_ascii_lowercase(),
    }
}

/// Writes so many empty squares.
fn push_empty(text: &mut String, empty: usize) -> Result<(), AllocError> {
    if empty == 0 {
        return Ok(());
    }
    text.push((b'0' + (empty % 10) as u8) as char)
}

/// Writes the men of a rank.
fn push_rank(text: &mut String, men: &Men, rank: usize) -> Result<(), AllocError> {
    let mut empty: usize = 0;
    for file in 0..8usize {
        match men[rank.wrapping_mul(8).wrapping_add(file) % 64] {
            Some(man) => {
                push_empty(text, empty)?;
                empty = 0;
                text.push(letter_of(man))?;
            }
            None => empty = empty.wrapping_add(1),
        }
    }
    push_empty(text, empty)
}

/// The first field of a FEN.
fn placement_of(alloc: Global, men: &Men) -> Result<String, AllocError> {
    let mut text = String::new(alloc);
    for from_the_eighth in 0..8usize {
        if from_the_eighth != 0 {
            text.push('/')?;
        }
        push_rank(&mut text, men, 7 - from_the_eighth)?;
    }
    Ok(text)
}

/// Positions made by chance, none of them twice.
#[derive(Drop)]
pub(crate) struct Variants {
    chance: Chance,
    seen: BTreeSet<String>,
}

impl Variants {
    /// What follows from a seed, a sequence of its own for each use.
    pub(crate) fn of(alloc: Global, seed: u64, using: u64) -> Variants {
        Variants {
            chance: Chance::of(seed, using),
            seen: BTreeSet::new(alloc),
        }
    }

    /// A number below `count`; 0 where that is 0.
    pub(crate) fn below(&mut self, count: usize) -> usize {
        self.chance.below(count)
    }

    /// Whether a text is a new one.
    pub(crate) fn is_new(&mut self, alloc: Global, text: &str) -> Result<bool, Stop> {
        match self.seen.insert(String::from_str(alloc, text)?) {
            Ok(is_new) => Ok(is_new),
            Err(_) => Err(Stop("NoMemory")),
        }
    }

    /// Appends the fields of a position where so many men stand elsewhere, if it is sound and a new one.
    fn has_pushed(
        &mut self,
        alloc: Global,
        text: &mut String,
        men: &Men,
        moved: usize,
    ) -> Result<bool, Stop> {
        let mut other = *men;
        for _ in 0..moved {
            move_one(&mut other, &mut self.chance);
        }
        let placement = placement_of(alloc, &other)?;
        let is_sound = read_fields(placement.as_bytes(), b"w", b"-", b"-").is_ok();
        if !is_sound || !self.is_new(alloc, placement.as_str())? {
            return Ok(false);
        }
        text.push_str(placement.as_str())?;
        text.push(' ')?;
        Ok(true)
    }

    /// Appends the fields of a new sound position for White to move, up to its rights, where so many men stand elsewhere, or more
    /// where it is hard to find a new one so.
    pub(crate) fn push(
        &mut self,
        alloc: Global,
        text: &mut String,
        men: &Men,
        moved: usize,
    ) -> Result<(), Stop> {
        for tried in 0..TRIES {
            if self.has_pushed(alloc, text, men, moved.saturating_add(tried / 8))? {
                return Ok(());
            }
        }
        Err(Stop("no variant"))
    }
}
