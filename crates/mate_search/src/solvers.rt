//! Who solves problems, and over which memory.

ghost use Rattle.std.specs.Prelude.{◌≡◌, ℕ, IfErr, IfOk};
ghost use Rattle.chess_problems.specs.Outcomes.{IsPlayable};
ghost use Rattle.mate_search.specs.inside.Truth.{truth};

use crate::halting::{Guide, Halt, Stopped};
use crate::memo::Memo;
use crate::solving::solve_until;
use chess_problems::{Outcome, Problem};

/// Who solves problems, unless told to stop.
pub trait Solver<H: Halt> {
    /// What goes from each problem to the next.
    type Memory;

    /// That it may solve, as where it may start threads.
    ghost ready: { Self → Type 0 } = { λ _. Unit {0} };

    /// What of the memory stays as it is.
    ghost room: { Self.Memory → ℕ };

    /// What there is to say of a problem, unless it is told to stop.
    fn solve(
        &self,
        guide: &Guide<H>,
        problem: &Problem,
        memory: &mut Self::Memory,
    ) -> Result<Outcome, Stopped>
        requires ready { ready self.now }
        ensures truth { IfOk result (λ outcome. outcome ≡ truth problem.now) }
        ensures playable { IfOk result (λ outcome. IsPlayable problem.now.position outcome) }
        ensures stopped { IfErr result (λ _. H.may_stop guide.now.halt.now) }
        ensures room { room memory.new ≡ room memory.old };
}

/// One thread solves, over one memo.
#[derive(Clone, Copy)]
pub struct OneThread;

impl<H: Halt> Solver<H> for OneThread {
    type Memory = Memo;

    ghost room = { λ memo. memo.room };

    fn solve(
        &self,
        guide: &Guide<H>,
        problem: &Problem,
        memory: &mut Memo,
    ) -> Result<Outcome, Stopped> {
        solve_until(guide.rays, problem, memory, guide.halt)
    }
}
