//! Rooms across threads: two windows and two benches on threads of their own, and the keeper on the test's.

ghost use Rattle.std.specs.Prelude.{◌≡◌};
ghost use Rattle.desk_room.specs.Keepers.{SameRoom};

use crate::test_manners::{Manner, Pace};
use crate::test_rows::same;
use crate::test_scenes::ends_of_two;
use crate::test_solvers::Solver;
use crate::test_submitters::{RECORDS, SameEnds, Submitter};
use desk_room::{Keeper, Settled, Turn, Window};
use std::alloc::Global;
use std::process::Abort;
use std::random::RandomSource;
use std::snapshot::Snapshot;
use std::sync::Wait;
use std::test::Fail;
use std::thread;
use std::thread::{PromisedHandle, Threads};

/// How many turns the keeper makes at most.
const TURNS: u32 = 1_000_000;

/// The counts of turns added up.
fn together(some: Turn, more: Turn) -> Turn {
    Turn {
        accepted: some.accepted.wrapping_add(more.accepted),
        byes: some.byes.wrapping_add(more.byes),
        withdrawn: some.withdrawn.wrapping_add(more.withdrawn),
        ordered: some.ordered.wrapping_add(more.ordered),
        solved: some.solved.wrapping_add(more.solved),
        returned: some.returned.wrapping_add(more.returned),
        strangers: some.strangers.wrapping_add(more.strangers),
        delivered: some.delivered.wrapping_add(more.delivered),
    }
}

/// Turns until both windows have said bye, and answers what the turns did together.
#[tactic(auto, using(crate::proofs::Rooms::room_same, crate::proofs::Rooms::room_then))]
fn keep<R: Wait>(rt: &R, keeper: &mut Keeper, mut pace: Pace) -> Turn
    ensures { SameRoom keeper.old keeper.new }
{
    let mut done = keeper.turn();
    for _ in 1..TURNS {
        if 2 <= keeper.byes() {
            break;
        }
        pace.go_on(rt);
        done = together(done, keeper.turn());
    }
    done
}

/// Refuses where the turns did otherwise together.
fn check_counts(rt: &impl Abort, ring: usize, manner: Manner, done: Turn) {
    let all = 2 * RECORDS;
    let withdraws = manner == Manner::Withdraws;
    let wanted = Turn {
        accepted: all,
        byes: 2,
        withdrawn: if withdraws { done.withdrawn } else { 0 },
        ordered: done.solved.wrapping_add(done.returned),
        solved: if withdraws { done.solved } else { all },
        returned: if manner == Manner::Returns {
            done.returned
        } else {
            0
        },
        strangers: if manner == Manner::MakesUp { all } else { 0 },
        delivered: all,
    };
    same(rt, &ring, &done, &wanted);
    let returns = manner == Manner::Returns;
    same(rt, &ring, &(done.returned > 0), &returns);
}

/// Puts a window to work on a thread of its own.
fn start<R: Abort + Threads + Wait + RandomSource + Copy + Send + 'static>(
    rt: R,
    alloc: Global,
    window: Window,
    manner: Manner,
) -> PromisedHandle<Submitter, SameEnds>
    ensures { result.promise.0.value ≡ window }
{
    let promise = SameEnds(Snapshot::of(&window));
    let submitter = Submitter::new(window, manner, Pace::new(&rt));
    thread::spawn_with(&rt, promise, move || submitter.hand_in(&rt, alloc)).expect(&rt, "a thread")
}

/// Refuses where what windows collect is not for each of their records, in order and each once, or where something is left.
fn check_across<R: Abort + Threads + Wait + RandomSource + Copy + Send + 'static>(
    rt: R,
    alloc: Global,
    ring: usize,
    manner: Manner,
) -> Result<(), Fail> {
    let (mut keeper, first, second, mut benches) = ends_of_two(alloc, 2, ring)?;
    let one = Solver::new(&rt, alloc, benches.pop().expect(&rt, "no bench"), manner);
    let other = Solver::new(&rt, alloc, benches.pop().expect(&rt, "one bench"), manner);
    let first = start(rt, alloc, first, manner);
    let second = start(rt, alloc, second, manner);
    let one = thread::spawn(&rt, move || one.work(&rt)).expect(&rt, "a thread");
    let other = thread::spawn(&rt, move || other.work(&rt)).expect(&rt, "a thread");
    let done = keep(&rt, &mut keeper, Pace::new(&rt));
    // Where a window has not said bye, this ends the test, which else would wait for its thread.
    check_counts(&rt, ring, manner, done);
    let mut first = first.join(&rt);
    let mut second = second.join(&rt);
    let wrong = (first.wrong, second.wrong);
    same(&rt, &ring, &wrong, &(None, None));
    same(&rt, &ring, &keeper.is_drained(), &true);
    keeper.close();
    same(&rt, &ring, &keeper.send_home(), &0);
    one.join(&rt);
    other.join(&rt);
    let nothing = Settled {
        left: 0,
        uncollected: 0,
    };
    same(&rt, &ring, &keeper.settle(&mut first.window), &nothing);
    same(&rt, &ring, &keeper.settle(&mut second.window), &nothing);
    Ok(())
}

fn check_rings<R: Abort + Threads + Wait + RandomSource + Copy + Send + 'static>(
    rt: R,
    alloc: Global,
    manner: Manner,
) -> Result<(), Fail> {
    for ring in [1, 3, 8] {
        check_across(rt, alloc, ring, manner)?;
    }
    Ok(())
}

#[test]
fn answers_come_in_order_across_threads(rt: HostRuntime) -> Result<(), Fail> {
    check_rings(rt, rt.alloc(), Manner::Plain)
}

#[test]
fn returned_jobs_are_ordered_again_across_threads(rt: HostRuntime) -> Result<(), Fail> {
    check_rings(rt, rt.alloc(), Manner::Returns)
}

#[test]
fn strangers_change_nothing_across_threads(rt: HostRuntime) -> Result<(), Fail> {
    check_rings(rt, rt.alloc(), Manner::MakesUp)
}

#[test]
fn withdrawn_records_are_noticed_in_order_across_threads(rt: HostRuntime) -> Result<(), Fail> {
    check_rings(rt, rt.alloc(), Manner::Withdraws)
}
