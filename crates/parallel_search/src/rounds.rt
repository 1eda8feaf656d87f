//! Rounds, in each of which workers judge the first moves for one length.

ghost use Rattle.std.specs.Prelude.{◌≡◌, ◌<◌, ◌≤◌, true, All, IfSome, length};
ghost use Rattle.chess_board.specs.Legality.{is_legal};
ghost use Rattle.chess_board.specs.Positions.{Setup};
ghost use Rattle.mate_search.specs.RootResults.{AreTrueIn};
ghost use Rattle.parallel_search.specs.inside.RootResults.{AreAllTrueIn};

use crate::judging::judge_all;
use crate::workers::{Question, Worker, exchange_memos};
use arrayvec::ArrayVec;
use chess_board::Move;
use chess_problems::Problem;
use mate_search::{
    Guide, Halt, Memo, RootResult, connect_peers, first_moves, leaves_lost, result_on,
};
use std::alloc::Global;
use std::thread::Threads;

/// For a mate in so many moves one thread is quicker than to start others.
const ALONE: u8 = 2;

/// Workers, the order in which they are to take the first moves, and what was found in all rounds.
#[derive(Drop)]
pub(crate) struct Workers {
    workers: Vec<Worker>,
    order: ArrayVec<usize, 1024>,
    pub(crate) told: Vec<RootResult>,
}

impl Workers {
    /// So many, each with a memo of so many entries, or as many as there is memory for. Each memo hears what takes long to find from each
    /// other, unless memory is refused for that.
    pub(crate) fn new(alloc: Global, count: usize, entries: usize) -> Workers {
        let mut workers = Vec::new(alloc);
        for _ in 0..count {
            let Ok(memo) = Memo::large(alloc, entries) else {
                break;
            };
            if workers.push(Worker::new(memo)).is_err() {
                break;
            }
        }
        join_memos(alloc, workers.as_mut_slice());
        Workers {
            workers,
            order: ArrayVec::new(),
            told: Vec::new(alloc),
        }
    }
}

/// Has the memos of workers hear from one another; where memory is refused, none does.
fn join_memos(alloc: Global, workers: &mut [Worker]) {
    let Ok(mut peers) = connect_peers(alloc, workers.len()) else {
        return;
    };
    for worker in workers.iter_mut() {
        if let Some(peers) = peers.pop() {
            worker.memo.join(peers);
        }
    }
}

/// Keeps what the workers found. What is not kept for want of memory is judged once more.
#[tactic(auto, using(crate::proofs::Told::both_true, crate::proofs::Told::worker_true))]
fn keep_found(workers: &[Worker], told: &mut Vec<RootResult>)
    ensures { (p : Setup) → AreAllTrueIn p workers.now → AreTrueIn p told.old.items → AreTrueIn p told.new.items }
{
    for worker in workers {
        if told.extend_from_slice(worker.found.as_slice()).is_err() {
            return;
        }
    }
}

/// Who found that a move is a key.
fn finder_of(workers: &[Worker], m: Move, k: u8) -> Option<usize>
    ensures { IfSome result (λ n. n < length workers.now) }
{
    for n in 0..workers.len() {
        if result_on(workers[n].found.as_slice(), m, k) == Some(true) {
            return Some(n);
        }
    }
    None
}

/// Who found the first key, if there is one.
fn first_finder(workers: &[Worker], first: &[Move], k: u8) -> Option<usize>
    ensures { IfSome result (λ n. n < length workers.now) }
{
    for m in first {
        if let Some(n) = finder_of(workers, *m, k) {
            return Some(n);
        }
    }
    None
}

/// How many positions were searched to judge a move.
fn cost_of(workers: &[Worker], m: Move) -> u64 {
    for worker in workers {
        if let Some(cost) = worker.cost_of(m) {
            return cost;
        }
    }
    0
}

/// The places of so many moves as they stand.
fn in_order(count: usize, order: &mut ArrayVec<usize, 1024>)
    requires few { count ≤ 1024 }
{
    order.clear();
    for place in 0..count {
        order.push(place);
    }
}

/// The places of the first moves, those first that cost most to judge.
fn costliest_first(workers: &[Worker], first: &[Move], order: &mut ArrayVec<usize, 1024>)
    requires few { length first.now ≤ 1024 }
{
    let mut costs = ArrayVec::<(u64, usize), 1024>::new();
    for place in 0..first.len() {
        costs.push((u64::MAX - cost_of(workers, first[place]), place));
    }
    costs.as_mut_slice().sort_unstable();
    order.clear();
    for (_, place) in costs.as_slice() {
        if order.try_push(*place).is_err() {
            return;
        }
    }
}

/// Judges the first moves here. Answers whether there is no key, so that more moves are to be tried.
#[tactic(auto, using(crate::proofs::Told::one_more_true))]
fn judge_here<H: Halt>(
    guide: &Guide<H>,
    asked: &Question,
    told: &mut Vec<RootResult>,
    memo: &mut Memo,
) -> bool
    requires legal { All (λ m. is_legal asked.now.position.now m ≡ true) asked.now.first.now }
    requires told { AreTrueIn asked.now.position.now told.old.items }
    ensures told { AreTrueIn asked.now.position.now told.new.items }
    ensures room { memo.new.room ≡ memo.old.room }
{
    let k = asked.k;
    let mut has_key = false;
    for m in asked.first {
        let Ok(is_lost) = leaves_lost(guide, asked.position, *m, k, memo) else {
            return false;
        };
        if told.push(RootResult { m: *m, k, is_lost }).is_err() {
            return false;
        }
        has_key |= is_lost;
    }
    !has_key
}

/// Has the workers judge the first moves. Answers whether there is no key, and where there is one, exchanges memos with who found the
/// first, whose memo has what the line of play asks for.
fn judge_there<R: Threads + Sync, H: Halt + Sync>(
    rt: &R,
    guide: &Guide<H>,
    asked: &Question,
    workers: &mut Workers,
    memo: &mut Memo,
) -> bool
    requires few { length asked.now.first.now ≤ 1024 }
    requires legal { All (λ m. is_legal asked.now.position.now m ≡ true) asked.now.first.now }
    requires told { AreTrueIn asked.now.position.now workers.old.told.items }
    ensures told { AreTrueIn asked.now.position.now workers.new.told.items }
    ensures room { memo.new.room ≡ memo.old.room }
{
    let Workers {
        workers,
        order,
        told,
    } = workers;
    if order.len() != asked.first.len() {
        in_order(asked.first.len(), order);
    }
    judge_all(rt, guide, asked, order.as_slice(), workers.as_mut_slice());
    keep_found(workers.as_slice(), told);
    costliest_first(workers.as_slice(), asked.first, order);
    match first_finder(workers.as_slice(), asked.first, asked.k) {
        Some(n) => {
            exchange_memos(&mut workers[n], memo);
            false
        }
        None => true,
    }
}

/// Judges the first moves of a problem for one length after the other, up to the first at which there is a key, or until the search is
/// told to stop. The shortest lengths are judged here, all others by the workers, if there are any.
#[tactic(auto, using(crate::proofs::Told::none_true))]
pub(crate) fn judge_ahead<R: Threads + Sync, H: Halt + Sync>(
    rt: &R,
    guide: &Guide<H>,
    problem: &Problem,
    workers: &mut Workers,
    memo: &mut Memo,
)
    ensures told { AreTrueIn problem.now.position workers.new.told.items }
    ensures room { memo.new.room ≡ memo.old.room }
{
    workers.told.clear();
    workers.order.clear();
    if workers.workers.is_empty() {
        return;
    }
    let first = first_moves(guide.rays, problem);
    for k in 0..problem.bound.get() {
        let asked = Question {
            position: &problem.position,
            first: first.as_slice(),
            k,
        };
        let goes_on = if k < ALONE {
            judge_here(guide, &asked, &mut workers.told, memo)
        } else {
            judge_there(rt, guide, &asked, workers, memo)
        };
        if !goes_on || guide.halt.is_stopped() {
            return;
        }
    }
}
