//! What searches on several threads tell one another of positions, each over a memo of its own: by a ring between each two of them, both ways.

ghost use Rattle.std.specs.Prelude.{◌≡◌, IfOk, length};
ghost use Rattle.mate_search.specs.inside.MemoEntries.{IsTrueOf};

use crate::memo_entries::Entry;
use chess_board::Position;
use rtrb::{Consumer, Producer, RingBuffer};
use std::alloc::{AllocError, Global};
use std::marker::Model;

/// How many entries a ring holds that were told and not yet heard.
const RING: usize = 64;

/// To tell and hear of positions with fewer moves left took longer than it spared.
const LEAST_MOVES: u8 = 3;

/// What is known of a position: the truth, by its type.
#[derive(Clone, Copy)]
pub(crate) struct Learned {
    pub(crate) position: Position,
    pub(crate) known: Entry,
}

impl Model for Learned {
    ghost use Rattle.mate_search.specs.inside.MemoEntries.{IsTrueOf, LearnedValue};

    ghost Value = { LearnedValue };

    ghost view = { λ l. record { position = l.position; known = l.known } };

    ghost invariant = { λ l. IsTrueOf l.position l.known };

    ghost inverse = { λ v. record { position = v.position; known = v.known } };
}

/// The ends of the rings that a memo has: one to each other memo, and one from each. What is told is true by its type, so that no outcome
/// depends on who tells what, or when.
#[derive(Drop)]
pub struct Peers {
    told: Vec<Producer<Learned, Global>>,
    heard: Vec<Consumer<Learned, Global>>,
}

impl Peers {
    /// Those of a memo that nobody tells anything.
    pub(crate) fn none(alloc: Global) -> Peers {
        Peers {
            told: Vec::new(alloc),
            heard: Vec::new(alloc),
        }
    }

    /// Tells all others what is known of a position, where it takes long to find. Who has no room for it isn't told.
    #[inline(always)]
    pub(crate) fn tell(&mut self, position: &Position, known: Entry)
        requires { IsTrueOf position.now known }
    {
        if !self.told.is_empty() && known.moves() >= LEAST_MOVES {
            self.tell_each(position, known);
        }
    }

    fn tell_each(&mut self, position: &Position, known: Entry)
        requires { IsTrueOf position.now known }
    {
        for ring in self.told.iter_mut() {
            let _ = ring.push(Learned {
                position: *position,
                known,
            });
        }
    }

    /// What another told that was not heard yet.
    #[inline(always)]
    pub(crate) fn next(&mut self) -> Option<Learned> {
        for ring in self.heard.iter_mut() {
            if let Ok(learned) = ring.pop() {
                return Some(learned);
            }
        }
        None
    }
}

/// Lays a ring from one memo to another, by their places.
fn lay_ring(
    alloc: Global,
    all: &mut [Peers],
    teller: usize,
    hearer: usize,
) -> Result<(), AllocError>
    ensures { length all.new ≡ length all.old }
{
    let (told, heard) = RingBuffer::new(alloc, RING)?;
    if let Some(peers) = all.get_mut(teller) {
        peers.told.push(told)?;
    }
    if let Some(peers) = all.get_mut(hearer) {
        peers.heard.push(heard)?;
    }
    Ok(())
}

/// The ends for so many memos, each of which is to hear from each other.
pub fn connect_peers(alloc: Global, count: usize) -> Result<Vec<Peers>, AllocError>
    ensures { IfOk result (λ all. length all.items ≡ count) }
{
    let mut all = Vec::new(alloc);
    for _ in 0..count {
        all.push(Peers::none(alloc))?;
    }
    for teller in 0..count {
        for hearer in 0..count {
            if teller != hearer {
                lay_ring(alloc, all.as_mut_slice(), teller, hearer)?;
            }
        }
    }
    Ok(all)
}
