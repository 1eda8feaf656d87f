//! Inputs served by threads.
//!
//! To read: `solve_gates`; `signals`, `park_words` and `backoff`, how the threads end, wait and are woken; `submitters`, one at
//! each window; what each thread does,
//! `window_thread`, `bench_thread` and `keeper_thread`; and `thread_groups`.

ghost use Rattle.std.specs.Prelude.{◌≡◌, ◌≢◌, ◌↔◌, ◌⊎◌, ◌<◌, ◌≤◌, length, map, vec_len, IfOk, IfSome, Err};
ghost use Rattle.std.specs.Thread.{IsSync};
ghost use Rattle.desk_room.specs.Serving.{AreReplies};
ghost use Rattle.desk_room.specs.inside.Threads.{AllFresh, AllHeed, AllOf, AllReport, AllSettled, IsSettled};
ghost use Rattle.desk_room.specs.Keepers.{IsOf, SameRoom};
ghost use Rattle.desk_room.specs.declared.rooms.RoomFault.TheVariants as fault;

mod backoff;
mod bench_thread;
mod keeper_thread;
mod park_words;
mod signals;
mod solve_gates;
mod submitters;
mod thread_groups;
mod window_thread;

use crate::keepers::Keeper;
use crate::rooms::{Room, RoomFault, open_room};
use crate::serving::bench_thread::BenchTools;
use crate::serving::keeper_thread::run_keeper;
use crate::serving::signals::{Signals, StopReason};
use crate::serving::thread_groups::{BenchesOf, run_benches, run_windows};
use crate::serving::window_thread::Report;
use chess_moves::Rays;
use chess_problems::Bound;
use mate_answers::Output;
use room_ends::{Bench, Window};
pub use solve_gates::{Gate, OpenGate};
use std::alloc::{AllocError, Global};
use std::snapshot::Snapshot;
use std::sync::Wait;
use std::thread;
use std::thread::{Promise, Threads};

/// How many entries the memo of each bench has where none are asked for.
const ENTRIES: usize = 16_384;

/// How many places each ring has.
const RING: usize = 32;

/// What the keeper's thread brings back: the keeper of the same room.
#[derive(Drop)]
struct KeeperOf(Snapshot<Keeper>);

impl Promise<Keeper> for KeeperOf {
    ghost kept_by = { λ p k. SameRoom p.0.value k };
}

/// What the threads of windows and benches bring back, where memory sufficed.
#[derive(Drop)]
struct Ended {
    reports: Result<Vec<Report>, AllocError>,
    benches: Result<Vec<Bench>, AllocError>,
}

/// Runs the benches beside the windows.
// The tools are taken apart here and below, since a closure that captures the struct would ensure nothing.
fn run_ends<R: Threads + Wait + Sync, G: Gate>(
    rt: &R,
    alloc: Global,
    windows: Vec<Window>,
    inputs: &[Vec<u8>],
    benches: Vec<Bench>,
    tools: &BenchTools<'_, G>,
) -> Ended
    requires as_many { vec_len windows ≡ length inputs.now }
    requires fresh { AllFresh windows.items }
    ensures reports { IfOk result.reports (λ all. AllReport windows.items (map (λ v. v.items) inputs.now) all.items) }
    ensures benches { IfOk result.benches (λ all. AllHeed (G.answers tools.now.gate.now) 0 benches.items all.items) }
{
    let BenchTools {
        rays,
        entries,
        gate,
        signals,
    } = *tools;
    thread::scope(
        thread::scope_env(),
        rt,
        move |scope| -> Ended
            requires { IsSync R.row × IsSync G.row × (vec_len windows ≡ length inputs.now) × AllFresh windows.items }
            ensures { IfOk result.reports (λ all. AllReport windows.items (map (λ v. v.items) inputs.entry.now) all.items)
                × IfOk result.benches (λ all. AllHeed (G.answers gate.entry.now) 0 benches.items all.items) }
        {
            let promise = BenchesOf {
                benches: Snapshot::of(&benches),
                gate,
            };
            let working = move || -> Result<Vec<Bench>, AllocError>
                requires { IsSync R.row × IsSync G.row }
                ensures { IfOk result (λ all. AllHeed (G.answers gate.entry.now) 0 benches.items all.items) }
            {
                let tools = BenchTools::new(rays, entries, gate, signals);
                run_benches(rt, alloc, benches, &tools)
            };
            match scope.spawn_with(promise, working) {
                Ok(child) => {
                    let reports = run_windows(rt, alloc, rays, windows, inputs, signals);
                    let benches = child.join(rt);
                    Ended { reports, benches }
                }
                Err(refused) => {
                    signals.stop(StopReason::NoThread);
                    let benches = (refused.value)();
                    let reports = run_windows(rt, alloc, rays, windows, inputs, signals);
                    Ended { reports, benches }
                }
            }
        },
    )
}

/// Runs the keeper beside the other ends, until all have joined.
fn run<R: Threads + Wait + Sync, G: Gate>(
    rt: &R,
    alloc: Global,
    room: Room,
    inputs: &[Vec<u8>],
    tools: &BenchTools<'_, G>,
) -> (Keeper, Result<Vec<Report>, AllocError>)
    requires as_many { vec_len room.windows ≡ length inputs.now }
    requires fresh { AllFresh room.windows.items }
    ensures keeper { SameRoom room.keeper result.0 }
    ensures reports { IfOk result.1 (λ all. AllReport room.windows.items (map (λ v. v.items) inputs.now) all.items) }
{
    let Room {
        keeper,
        windows,
        benches,
    } = room;
    let most = windows.len();
    let BenchTools {
        rays,
        entries,
        gate,
        signals,
    } = *tools;
    thread::scope(
        thread::scope_env(),
        rt,
        move |scope| -> (Keeper, Result<Vec<Report>, AllocError>)
            requires { IsSync R.row × IsSync G.row × (vec_len windows ≡ length inputs.now) × AllFresh windows.items }
            ensures { SameRoom keeper result.0 × IfOk result.1 (λ all. AllReport windows.items (map (λ v. v.items) inputs.entry.now) all.items) }
        {
            let promise = KeeperOf(Snapshot::of(&keeper));
            let keeping = move || -> Keeper
                ensures { SameRoom keeper result }
            { run_keeper(rt, keeper, most, signals) };
            let spawned = scope.spawn_with(promise, keeping);
            if spawned.is_err() {
                signals.stop(StopReason::NoThread);
            }
            let tools = BenchTools::new(rays, entries, gate, signals);
            let Ended { reports, .. } = run_ends(rt, alloc, windows, inputs, benches, &tools);
            if reports.is_err() {
                signals.stop(StopReason::NoMemory);
            }
            match spawned {
                Ok(child) => (child.join(rt), reports),
                Err(refused) => ((refused.value)(), reports),
            }
        },
    )
}

/// The reply to an input, once its window and the keeper have met.
fn settle_one(keeper: &mut Keeper, report: Report) -> Option<Output>
    requires { IsOf report.window keeper.old }
    ensures room { SameRoom keeper.old keeper.new }
    ensures settled { IfSome result (λ output. IsSettled report output) }
{
    let Report { mut window, reply } = report;
    keeper.settle(&mut window);
    reply
}

/// The replies to all inputs; none where one of them is not whole.
#[tactic(auto, using(crate::proofs::Staying::room_same, crate::proofs::Staying::room_then))]
#[cycle(settling)]
fn settle_all(
    alloc: Global,
    keeper: &mut Keeper,
    mut reports: Vec<Report>,
) -> Result<Option<Vec<Output>>, AllocError>
    requires { AllOf keeper.old reports.items }
    ensures room { SameRoom keeper.old keeper.new }
    ensures settled { IfOk result (λ all. IfSome all (λ outputs. AllSettled reports.items outputs.items)) }
{
    let Some(report) = reports.pop() else {
        return Ok(Some(Vec::new(alloc)));
    };
    let Some(one) = settle_one(keeper, report) else {
        return Ok(None);
    };
    let Some(mut all) = settle_all(alloc, keeper, reports)? else {
        return Ok(None);
    };
    match all.push(one) {
        Ok(()) => Ok(Some(all)),
        Err(_) => Err(AllocError),
    }
}

/// The replies to all inputs, or why one of them is not whole.
fn settle_reports(
    alloc: Global,
    keeper: &mut Keeper,
    reports: Vec<Report>,
    signals: &Signals,
) -> Result<Vec<Output>, RoomFault>
    requires { AllOf keeper.old reports.items }
    ensures settled { IfOk result (λ outputs. AllSettled reports.items outputs.items) }
    ensures good_windows { result ≢ Err fault.BadWindows }
    ensures good_benches { result ≢ Err fault.BadBenches }
    ensures good_ring { result ≢ Err fault.BadRing }
{
    match settle_all(alloc, keeper, reports) {
        Ok(Some(outputs)) => Ok(outputs),
        Ok(None) => match signals.reason() {
            Some(StopReason::NoThread) => Err(RoomFault::NoThread),
            _ => Err(RoomFault::NoMemory),
        },
        Err(_) => Err(RoomFault::NoMemory),
    }
}

/// The reply to each input, as `serve` gives it, by benches whose memos have so many entries each, 1 to 65,536.
pub fn serve_with_memo<R: Threads + Wait + Sync, G: Gate>(
    rt: &R,
    alloc: Global,
    rays: &Rays,
    inputs: &[Vec<u8>],
    default: Bound,
    benches: usize,
    entries: usize,
    gate: &G,
) -> Result<Vec<Output>, RoomFault>
    requires { (1 ≤ entries) × (entries ≤ 65536) }
    ensures replies { IfOk result (λ outputs. AreReplies default (map (λ input. input.items) inputs.now) outputs.items) }
    ensures bad_windows { (result ≡ Err fault.BadWindows) ↔ ((length inputs.now ≡ 0) ⊎ (16 < length inputs.now)) }
    ensures bad_benches { (result ≡ Err fault.BadBenches)
        ↔ (((1 ≤ length inputs.now) × (length inputs.now ≤ 16)) × ((benches ≡ 0) ⊎ (16 < benches))) }
    ensures good_ring { result ≢ Err fault.BadRing }
{
    let room = open_room(alloc, inputs.len(), benches, RING, default)?;
    let signals = Signals::new();
    let tools = BenchTools::new(rays, entries, gate, &signals);
    let (mut keeper, reports) = run(rt, alloc, room, inputs, &tools);
    let Ok(reports) = reports else {
        return Err(RoomFault::NoMemory);
    };
    settle_reports(alloc, &mut keeper, reports, &signals)
}

/// The reply to each input, as `solve_input` gives it: by a thread for each of 1 to 16 inputs, a thread for each of 1 to 16 benches,
/// and a keeper. A line that asks for no bound is read with the default one.
///
/// It returns once each record is solved, so never where the gate always hands back.
pub fn serve<R: Threads + Wait + Sync, G: Gate>(
    rt: &R,
    alloc: Global,
    rays: &Rays,
    inputs: &[Vec<u8>],
    default: Bound,
    benches: usize,
    gate: &G,
) -> Result<Vec<Output>, RoomFault>
    ensures replies { IfOk result (λ outputs. AreReplies default (map (λ input. input.items) inputs.now) outputs.items) }
    ensures bad_windows { (result ≡ Err fault.BadWindows) ↔ ((length inputs.now ≡ 0) ⊎ (16 < length inputs.now)) }
    ensures bad_benches { (result ≡ Err fault.BadBenches)
        ↔ (((1 ≤ length inputs.now) × (length inputs.now ≤ 16)) × ((benches ≡ 0) ⊎ (16 < benches))) }
    ensures good_ring { result ≢ Err fault.BadRing }
{
    serve_with_memo(rt, alloc, rays, inputs, default, benches, ENTRIES, gate)
}
