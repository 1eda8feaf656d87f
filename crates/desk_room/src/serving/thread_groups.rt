//! Windows and benches, each on a thread of its own.

ghost use Rattle.std.specs.Prelude.{◌≡◌, List, ℕ, [], ◌∷◌, ◌++◌, length, map, vec_len, IfOk};
ghost use Rattle.std.specs.Thread.{IsSync};
ghost use Rattle.room_ends.specs.declared.benches.Bench.{Bench};
ghost use Rattle.desk_room.specs.inside.Threads.{AllFresh, IsFreshWindow, AllHeed, AllReport, HeedsAll};
ghost use Rattle.desk_room.specs.inside.Submitters.{Reports};

use crate::serving::bench_thread::{BenchTools, run_bench};
use crate::serving::signals::{Signals, StopReason};
use crate::serving::solve_gates::Gate;
use crate::serving::window_thread::{Report, run_window};
use chess_moves::Rays;
use room_ends::{Bench, Window};
use std::alloc::{AllocError, Global};
use std::snapshot::Snapshot;
use std::sync::Wait;
use std::thread;
use std::thread::{Promise, Threads};

/// What the thread of several windows brings back.
#[derive(Drop)]
struct ReportsOf<'a> {
    windows: Snapshot<Vec<Window>>,
    inputs: &'a [Vec<u8>],
}

impl<'a> Promise<Result<Vec<Report>, AllocError>> for ReportsOf<'a> {
    ghost kept_by = { λ p r. IfOk r (λ all. AllReport p.windows.value.items (map (λ v. v.items) p.inputs.now) all.items) };
}

/// These items, and one more behind them.
fn with_one<T: Drop>(mut items: Vec<T>, one: T) -> Result<Vec<T>, AllocError>
    ensures { IfOk result (λ all. all.items ≡ items.items ++ one ∷ []) }
{
    match items.push(one) {
        Ok(()) => Ok(items),
        Err(_) => Err(AllocError),
    }
}

/// Hands each input in at the window of its place: the last in this thread, beside a thread that does the same for the others.
#[tactic(auto, using(crate::proofs::Joined::fresh_front))]
#[cycle(windows)]
pub(crate) fn run_windows<R: Threads + Wait + Sync>(
    rt: &R,
    alloc: Global,
    rays: &Rays,
    mut windows: Vec<Window>,
    inputs: &[Vec<u8>],
    signals: &Signals,
) -> Result<Vec<Report>, AllocError>
    requires as_many { vec_len windows ≡ length inputs.now }
    requires fresh { AllFresh windows.items }
    ensures { IfOk result (λ all. AllReport windows.items (map (λ v. v.items) inputs.now) all.items) }
{
    let Some(window) = windows.pop() else {
        return Ok(Vec::new(alloc));
    };
    let Some((input, rest)) = inputs.split_last() else {
        unreachable!()
    };
    if windows.is_empty() {
        let only = run_window(rt, alloc, rays, window, input.as_slice(), signals);
        return with_one(Vec::new(alloc), only);
    }
    let (mine, theirs) = thread::scope(
        thread::scope_env(),
        rt,
        move |scope| -> (Report, Result<Vec<Report>, AllocError>)
            requires { IsSync R.row × (vec_len windows ≡ length rest.now) × AllFresh windows.items × IsFreshWindow window }
            ensures { Reports window input.entry.now.items result.0
                × IfOk result.1 (λ all. AllReport windows.items (map (λ v. v.items) rest.entry.now) all.items) }
        {
            let promise = ReportsOf {
                windows: Snapshot::of(&windows),
                inputs: rest,
            };
            let others = move || -> Result<Vec<Report>, AllocError>
                requires { IsSync R.row × (vec_len windows ≡ length rest.now) × AllFresh windows.items }
                ensures { IfOk result (λ all. AllReport windows.items (map (λ v. v.items) rest.entry.now) all.items) }
            { run_windows(rt, alloc, rays, windows, rest, signals) };
            let spawned = scope.spawn_with(promise, others);
            if spawned.is_err() {
                signals.stop(StopReason::NoThread);
            }
            let mine = run_window(rt, alloc, rays, window, input.as_slice(), signals);
            match spawned {
                Ok(child) => (mine, child.join(rt)),
                Err(refused) => (mine, (refused.value)()),
            }
        },
    );
    let all = theirs?;
    with_one(all, mine)
}

/// What the thread of several benches brings back: them, when they have heeded the gate.
#[derive(Drop)]
pub(crate) struct BenchesOf<'a, G: Gate> {
    pub(crate) benches: Snapshot<Vec<Bench>>,
    pub(crate) gate: &'a G,
}

impl<'a, G: Gate> Promise<Result<Vec<Bench>, AllocError>> for BenchesOf<'a, G> {
    ghost kept_by = { λ p r. IfOk r (λ all. AllHeed (G.answers p.gate.now) 0 p.benches.value.items all.items) };
}

/// Runs a bench in this thread, beside a thread for those before it.
#[cycle(benches)]
fn run_beside<R: Threads + Wait + Sync, G: Gate>(
    rt: &R,
    alloc: Global,
    bench: Bench,
    benches: Vec<Bench>,
    tools: &BenchTools<'_, G>,
) -> (Bench, Result<Vec<Bench>, AllocError>)
    ensures bench { HeedsAll (G.answers tools.now.gate.now (vec_len benches)) bench result.0 }
    ensures benches { IfOk result.1 (λ all. AllHeed (G.answers tools.now.gate.now) 0 benches.items all.items) }
{
    let number = benches.len();
    let BenchTools {
        rays,
        entries,
        gate,
        signals,
    } = *tools;
    thread::scope(
        thread::scope_env(),
        rt,
        move |scope| -> (Bench, Result<Vec<Bench>, AllocError>)
            requires { IsSync R.row × IsSync G.row }
            ensures { HeedsAll (G.answers gate.entry.now number) bench result.0
                × IfOk result.1 (λ all. AllHeed (G.answers gate.entry.now) 0 benches.items all.items) }
        {
            let promise = BenchesOf {
                benches: Snapshot::of(&benches),
                gate,
            };
            let others = move || -> Result<Vec<Bench>, AllocError>
                requires { IsSync R.row × IsSync G.row }
                ensures { IfOk result (λ all. AllHeed (G.answers gate.entry.now) 0 benches.items all.items) }
            {
                let tools = BenchTools::new(rays, entries, gate, signals);
                run_benches(rt, alloc, benches, &tools)
            };
            let mut mine = bench;
            match scope.spawn_with(promise, others) {
                Ok(child) => {
                    let tools = BenchTools::new(rays, entries, gate, signals);
                    run_bench(rt, alloc, &mut mine, number, &tools);
                    (mine, child.join(rt))
                }
                Err(refused) => {
                    signals.stop(StopReason::NoThread);
                    (mine, (refused.value)())
                }
            }
        },
    )
}

/// Runs each bench, known to the gate by its place: the last in this thread, beside a thread for the others.
#[cycle(benches)]
pub(crate) fn run_benches<R: Threads + Wait + Sync, G: Gate>(
    rt: &R,
    alloc: Global,
    mut benches: Vec<Bench>,
    tools: &BenchTools<'_, G>,
) -> Result<Vec<Bench>, AllocError>
    ensures { IfOk result (λ all. AllHeed (G.answers tools.now.gate.now) 0 benches.items all.items) }
{
    let Some(mut bench) = benches.pop() else {
        return Ok(Vec::new(alloc));
    };
    if benches.is_empty() {
        run_bench(rt, alloc, &mut bench, 0, tools);
        return with_one(benches, bench);
    }
    let (mine, theirs) = run_beside(rt, alloc, bench, benches, tools);
    with_one(theirs?, mine)
}
