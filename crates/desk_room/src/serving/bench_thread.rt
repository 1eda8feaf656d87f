//! What the thread of a bench does.

ghost use Rattle.std.specs.Prelude.{◌≡◌, ◌<◌, ◌++◌, Bool, [], ◌∷◌, true};
ghost use Rattle.room_ends.specs.Benches.{got, given, places_known};
ghost use Rattle.desk_room.specs.Serving.{back_of};
ghost use Rattle.desk_room.specs.inside.Threads.{HeedsAll};

use crate::serving::backoff::Backoff;
use crate::serving::signals::{KeeperCalls, Signals, StopReason};
use crate::serving::solve_gates::Gate;
use chess_moves::Rays;
use mate_jobs::Job;
use mate_search::Memo;
use room_ends::{Back, Bench, Taken};
use std::alloc::Global;
use std::sync::Wait;

/// How often a bench looks again at once.
const LOOKS: u32 = 100;

/// Waits until the bench's ring has a place, unless the stop signal comes first. It answers whether it has one.
fn await_place<R: Wait>(
    rt: &R,
    bench: &mut Bench,
    number: usize,
    signals: &Signals,
    calls: &mut KeeperCalls,
) -> bool
    ensures place { result ≡ true → 0 < places_known bench.new }
    ensures got { got bench.new ≡ got bench.old }
    ensures given { given bench.new ≡ given bench.old }
{
    let mut backoff = Backoff::new(signals.bench_for_place(number), LOOKS);
    for _ in rt.forever() {
        if bench.has_place() {
            backoff.reset();
            return true;
        }
        if signals.reason().is_some() {
            return false;
        }
        calls.tell();
        backoff.wait(rt);
    }
    false
}

/// Gives a job back, solved exactly where the gate lets it pass. What is solved goes straight to its place in the ring.
fn solve_or_return<G: Gate>(
    rays: &Rays,
    memo: &mut Memo,
    gate: &G,
    number: usize,
    bench: &mut Bench,
    job: Job,
)
    requires { 0 < places_known bench.old }
    ensures got { got bench.new ≡ got bench.old }
    ensures given { (passed : Bool) × G.answers gate.now number job.ticket passed × (given bench.new ≡ given bench.old ++ back_of passed job ∷ []) }
{
    if gate.pass(number, job.ticket()) {
        bench.give(Back::Solved(job.solve(rays, memo)));
    } else {
        bench.give(Back::Returned(job));
    }
}

/// What all benches work with: each has a memo of so many entries.
#[derive(Clone, Copy)]
pub(crate) struct BenchTools<'a, G: Gate> {
    pub(crate) rays: &'a Rays,
    pub(crate) entries: usize,
    pub(crate) gate: &'a G,
    pub(crate) signals: &'a Signals,
}

impl<'a, G: Gate> BenchTools<'a, G> {
    /// Of these parts.
    pub(crate) fn new(
        rays: &'a Rays,
        entries: usize,
        gate: &'a G,
        signals: &'a Signals,
    ) -> BenchTools<'a, G>
        ensures { result.gate.now ≡ gate.now }
    {
        BenchTools {
            rays,
            entries,
            gate,
            signals,
        }
    }
}

/// Takes orders until the bench is sent home, or the stop signal comes. The bench is known to the gate by its number.
pub(crate) fn run_bench<R: Wait, G: Gate>(
    rt: &R,
    alloc: Global,
    bench: &mut Bench,
    number: usize,
    tools: &BenchTools<'_, G>,
)
    ensures { HeedsAll (G.answers tools.now.gate.now number) bench.old bench.new }
{
    let BenchTools {
        rays,
        entries,
        gate,
        signals,
    } = *tools;
    let Ok(mut memo) = Memo::new(alloc, entries) else {
        signals.stop(StopReason::NoMemory);
        return;
    };
    let mut calls = KeeperCalls::new(signals);
    let mut backoff = Backoff::new(signals.bench_for_order(number), LOOKS);
    for _ in rt.forever() {
        if signals.reason().is_some() {
            return;
        }
        match bench.take() {
            Taken::Job(job) => {
                backoff.reset();
                if !await_place(rt, bench, number, signals, &mut calls) {
                    return;
                }
                solve_or_return(rays, &mut memo, gate, number, bench, job);
                calls.count();
            }
            Taken::Stop => return,
            Taken::Nothing => {
                calls.tell();
                backoff.wait(rt);
            }
        }
    }
}
