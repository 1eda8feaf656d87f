//! Solvers that tell which length they search.

ghost use Rattle.std.specs.Prelude.{◌≡◌, ◌≢◌, ◌<◌, ◌+◌, IfErr, IfOk, false, true};
ghost use Rattle.chess_problems.specs.Outcomes.{IsPlayable};
ghost use Rattle.chess_problems.specs.declared.outcomes.Outcome.TheVariants.{NoMate};
ghost use Rattle.mate_search.specs.inside.Truth.{truth};

use chess_problems::{AvoidList, Bound, Outcome, Problem};
use mate_search::{Guide, Halt, Solver, Stopped, dist_reads};
use text_lines::Progress;

/// Solves as another does, and tells first in how many moves mate is asked for.
#[derive(Clone, Copy)]
pub struct ToldLength<'a, V, P> {
    pub solver: V,
    pub progress: &'a P,
}

impl<H: Halt, V: Solver<H>, P: Progress> Solver<H> for ToldLength<'_, V, P> {
    type Memory = V::Memory;

    ghost ready = { λ told. V.ready told.solver };

    ghost room = { λ memory. V.room memory };

    fn solve(
        &self,
        guide: &Guide<H>,
        problem: &Problem,
        memory: &mut V::Memory,
    ) -> Result<Outcome, Stopped> {
        self.progress.searches(problem.bound.get());
        self.solver.solve(guide, problem, memory)
    }
}

/// Solves as another does. Where lengths are followed, that one is asked for one length after the other, and each is told.
#[derive(Clone, Copy)]
pub struct Lengthwise<'a, V, P> {
    pub solver: V,
    pub progress: &'a P,
}

/// The bound of one move more.
fn one_more(none: u8) -> Bound
    requires { none < 15 }
    ensures { result ≡ none + 1 }
{
    match Bound::new(none + 1) {
        Some(bound) => bound,
        None => unreachable!(),
    }
}

/// Whether it says that there is no mate.
fn is_no_mate(outcome: &Outcome) -> bool
    ensures yes { result ≡ true → outcome.now ≡ NoMate }
    ensures no { result ≡ false → outcome.now ≢ NoMate }
{
    match outcome {
        Outcome::NoMate => true,
        Outcome::Mate { .. } => false,
    }
}

/// The same problem within so many moves.
fn within(bound: Bound, problem: &Problem) -> Problem
    ensures { result ≡ record { position = problem.now.position; bound = bound; avoid = problem.now.avoid } }
{
    let mut avoid = AvoidList::new();
    for m in problem.avoid.as_slice() {
        avoid.push(*m);
    }
    Problem {
        position: problem.position,
        bound,
        avoid,
    }
}

/// What there is to say of a problem: mate is asked for within one move more at a time, and that is told first. What was found
/// before stands in the memory.
#[tactic(auto, unfolding(chess_problems::specs::Outcomes::IsPlayable))]
fn solve_by_length<H: Halt, V: Solver<H>, P: Progress>(
    told: &Lengthwise<V, P>,
    guide: &Guide<H>,
    problem: &Problem,
    memory: &mut V::Memory,
) -> Result<Outcome, Stopped>
    requires { V.ready told.now.solver }
    ensures truth { IfOk result (λ outcome. outcome ≡ truth problem.now) }
    ensures playable { IfOk result (λ outcome. IsPlayable problem.now.position outcome) }
    ensures stopped { IfErr result (λ _. H.may_stop guide.now.halt.now) }
    ensures room { V.room memory.new ≡ V.room memory.old }
{
    // That a mate within fewer moves is one within more rests on this law.
    dist_reads();
    for none in 0..problem.bound.get() {
        let bound = one_more(none);
        told.progress.searches(bound.get());
        let outcome = told.solver.solve(guide, &within(bound, problem), memory)?;
        if !is_no_mate(&outcome) {
            return Ok(outcome);
        }
    }
    Ok(Outcome::NoMate)
}

impl<H: Halt, V: Solver<H>, P: Progress> Solver<H> for Lengthwise<'_, V, P> {
    type Memory = V::Memory;

    ghost ready = { λ lengthwise. V.ready lengthwise.solver };

    ghost room = { λ memory. V.room memory };

    fn solve(
        &self,
        guide: &Guide<H>,
        problem: &Problem,
        memory: &mut V::Memory,
    ) -> Result<Outcome, Stopped> {
        if self.progress.follows_lengths() {
            solve_by_length(self, guide, problem, memory)
        } else {
            self.solver.solve(guide, problem, memory)
        }
    }
}
