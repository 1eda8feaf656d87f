//! Problems solved by workers.

ghost use Rattle.std.specs.Prelude.{◌≡◌, IfErr, IfOk};
ghost use Rattle.std.specs.Thread.{IsSync};
ghost use Rattle.chess_problems.specs.Outcomes.{IsPlayable};
ghost use Rattle.mate_search.specs.inside.Truth.{truth};

use crate::rounds::{Workers, judge_ahead};
use chess_problems::{Outcome, Problem};
use mate_search::{Guide, Halt, Memo, Never, Solver, Stopped, solve_told};
use std::alloc::Global;
use std::thread::Threads;

/// A memo, and workers with memos of their own.
#[derive(Drop)]
pub struct ThreadMemory {
    pub memo: Memo,
    workers: Workers,
}

impl ThreadMemory {
    /// This memo, and so many workers, each with room for so many entries; or as many workers as there is memory for.
    pub fn new(alloc: Global, memo: Memo, workers: usize, entries: usize) -> ThreadMemory
        ensures { result.memo ≡ memo }
    {
        ThreadMemory {
            memo,
            workers: Workers::new(alloc, workers, entries),
        }
    }
}

/// What there is to say of a problem, unless it is told to stop. Workers judge its first moves, each on a thread of its own, one of them
/// on this; where no thread is to be had, those that run do the work of all.
pub fn solve_on_threads<R: Threads + Sync, H: Halt + Sync>(
    rt: &R,
    guide: &Guide<H>,
    problem: &Problem,
    memory: &mut ThreadMemory,
) -> Result<Outcome, Stopped>
    ensures truth { IfOk result (λ outcome. outcome ≡ truth problem.now) }
    ensures playable { IfOk result (λ outcome. IsPlayable problem.now.position outcome) }
    ensures stopped { IfErr result (λ _. H.may_stop guide.now.halt.now) }
    ensures room { memory.new.memo.room ≡ memory.old.memo.room }
{
    let ThreadMemory { memo, workers } = memory;
    judge_ahead(rt, guide, problem, workers, memo);
    solve_told(guide, problem, workers.told.as_slice(), memo)
}

/// Workers solve, for as long as it takes.
#[derive(Clone, Copy)]
pub struct OnThreads<'a, R> {
    pub rt: &'a R,
}

impl<R: Threads + Sync> Solver<Never> for OnThreads<'_, R> {
    type Memory = ThreadMemory;

    ghost ready = { λ _. IsSync R.row };

    ghost room = { λ memory. memory.memo.room };

    fn solve(
        &self,
        guide: &Guide<Never>,
        problem: &Problem,
        memory: &mut ThreadMemory,
    ) -> Result<Outcome, Stopped> {
        solve_on_threads(self.rt, guide, problem, memory)
    }
}
