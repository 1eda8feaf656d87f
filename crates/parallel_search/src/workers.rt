//! Workers, which judge first moves over a memo of their own.

ghost use Rattle.std.specs.Prelude.{◌≡◌, ◌≤◌, true, All, length};
ghost use Rattle.chess_board.specs.Legality.{is_legal};
ghost use Rattle.mate_search.specs.RootResults.{AreTrueIn};

use crate::turns::Turns;
use arrayvec::ArrayVec;
use chess_board::{Move, Position};
use chess_problems::is_same_move;
use mate_search::{Guide, Halt, Memo, RootResult, leaves_lost};
use std::cell::Cell;

/// A memo, what was found with it of the first moves in one round, and how many positions were searched for each of these results.
#[derive(Drop)]
pub(crate) struct Worker {
    pub(crate) memo: Memo,
    pub(crate) found: ArrayVec<RootResult, 1024>,
    pub(crate) costs: ArrayVec<u64, 1024>,
}

/// What is to be judged: whether these first moves of a position leave the defender lost with `k` more.
#[derive(Clone, Copy)]
pub(crate) struct Question<'a> {
    pub(crate) position: &'a Position,
    pub(crate) first: &'a [Move],
    pub(crate) k: u8,
}

/// Counts how many positions are searched, and is told to stop as another is.
#[derive(Drop)]
struct Counted<'a, H> {
    halt: &'a H,
    count: Cell<u64>,
}

impl<H: Halt> Halt for Counted<'_, H> {
    ghost may_stop = { λ counted. H.may_stop counted.halt.now };

    fn is_stopped(&self) -> bool {
        self.count.set(self.count.get().saturating_add(1));
        self.halt.is_stopped()
    }
}

impl Worker {
    /// One that has judged nothing.
    pub(crate) fn new(memo: Memo) -> Worker {
        Worker {
            memo,
            found: ArrayVec::new(),
            costs: ArrayVec::new(),
        }
    }

    /// Judges moves as its turns come, until all are taken or it is told to stop: whether they leave the defender lost with as many more as is asked.
    #[tactic(auto, using(crate::proofs::Told::none_true, crate::proofs::Told::one_more_true))]
    pub(crate) fn judge<H: Halt>(&mut self, guide: &Guide<H>, asked: &Question, turns: &Turns)
        requires few { length asked.now.first.now ≤ 1024 }
        requires legal { All (λ m. is_legal asked.now.position.now m ≡ true) asked.now.first.now }
        ensures { AreTrueIn asked.now.position.now self.new.found.items }
    {
        let (first, k) = (asked.first, asked.k);
        self.found.clear();
        self.costs.clear();
        for _ in 0..first.len() {
            let Some(place) = turns.next() else {
                return;
            };
            if place >= first.len() {
                return;
            }
            let m = first[place];
            let halt = Counted {
                halt: guide.halt,
                count: Cell::new(0),
            };
            let counted = Guide {
                rays: guide.rays,
                halt: &halt,
            };
            let Ok(is_lost) = leaves_lost(&counted, asked.position, m, k, &mut self.memo) else {
                return;
            };
            self.found.push(RootResult { m, k, is_lost });
            self.costs.push(halt.count.get());
        }
    }
    /// How many positions were searched to judge a move, if it was judged.
    pub(crate) fn cost_of(&self, m: Move) -> Option<u64> {
        for n in 0..self.found.len() {
            if is_same_move(self.found[n].m, m) {
                return self.costs.get(n).copied();
            }
        }
        None
    }
}

/// Exchanges the memos of a worker and of the caller, where both have room for as many entries.
pub(crate) fn exchange_memos(worker: &mut Worker, memo: &mut Memo)
    ensures room { memo.new.room ≡ memo.old.room }
{
    if worker.memo.room() == memo.room() {
        worker.memo.exchange(memo);
    }
}
