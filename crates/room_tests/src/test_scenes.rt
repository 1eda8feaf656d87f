//! Calls on the ends of a room on one thread, told with their replies.

ghost use Rattle.std.specs.Prelude.{IfOk};
ghost use Rattle.room_ends.specs.Windows.{SameWindow};
ghost use Rattle.desk_room.specs.Keepers.{IsOf, SameRoom};

use crate::test_crews::{Crew, told};
use crate::test_rows::same;
use chess_moves::Rays;
use chess_notation::Record;
use chess_problems::Bound;
use desk_room::{Bench, Keeper, Room, Turn, Window, open_room};
use mate_desk::Delivery;
use mate_jobs::Ticket;
use std::alloc::Global;
use std::fmt::Display;
use std::process::Abort;
use std::test::Fail;

/// Two lines, and their answers.
pub(crate) const A: &str = "6k1/5ppp/8/8/8/8/8/R3K3 w Q - dm 1;";

pub(crate) const ANSWER_A: &str = "6k1/5ppp/8/8/8/8/8/R3K3 w Q - bm Ra8#; dm 1; pv Ra8#;";

pub(crate) const B: &str = "7k/8/5K2/8/8/8/8/R7 w - - dm 2;";

pub(crate) const ANSWER_B: &str = "7k/8/5K2/8/8/8/8/R7 w - - bm Kf7 Kg6; dm 2; pv Kg6 Kg8 Ra8#;";

/// A call of a window, of the keeper, or of a bench by its number. A job is named by its ticket.
#[derive(Clone, Copy)]
pub(crate) enum Call {
    Submit(&'static str),
    Withdraw(u64),
    Bye,
    Collect,
    Settle,
    Turn,
    Byes,
    Drained,
    Close,
    SendHome,
    Take(usize),
    Solve(usize, u64),
    Return(usize, u64),
    /// A job of this ticket is made up, and given back.
    MakeUp(usize, u64),
    /// The last bench is dropped.
    Leave,
}

fn default() -> Result<Bound, Fail> {
    Ok(Bound::new(3).ok_or("bound")?)
}

fn answered<E: Display + Drop>(rt: &impl Abort, alloc: Global, reply: Result<(), E>) -> String {
    match reply {
        Ok(()) => told(rt, alloc, "ok"),
        Err(fault) => told(rt, alloc, format_args!("refused {fault}")),
    }
}

fn noticed(rt: &impl Abort, alloc: Global, ticket: Ticket, record: &Record) -> String {
    let position = record.position.text();
    let bound = record.bound.get();
    let notice = format_args!("notice {} of {} dm {bound};", ticket.0, position.as_str());
    told(rt, alloc, notice)
}

fn delivered(rt: &impl Abort, alloc: Global, rays: &Rays, delivery: Delivery) -> String {
    match delivery {
        Delivery::Answer(answer) => answer.text(alloc, rays).expect(rt, "memory"),
        Delivery::Notice(ticket, record) => noticed(rt, alloc, ticket, &record),
    }
}

fn collect(rt: &impl Abort, alloc: Global, rays: &Rays, window: &mut Window) -> String
    ensures { SameWindow window.old window.new }
{
    match window.collect() {
        Some(delivery) => delivered(rt, alloc, rays, delivery),
        None => told(rt, alloc, "none"),
    }
}

/// What a turn did, without the counts that are 0.
fn turned(rt: &impl Abort, alloc: Global, turn: Turn) -> String {
    let mut text = told(rt, alloc, "turned");
    for (name, count) in &[
        ("accepted", turn.accepted),
        ("byes", turn.byes),
        ("withdrawn", turn.withdrawn),
        ("ordered", turn.ordered),
        ("solved", turn.solved),
        ("returned", turn.returned),
        ("strangers", turn.strangers),
        ("delivered", turn.delivered),
    ] {
        if *count > 0 {
            text = told(rt, alloc, format_args!("{text} {name} {count}"));
        }
    }
    text
}

/// A call of the keeper alone.
#[tactic(auto, using(crate::proofs::Rooms::room_same, crate::proofs::Rooms::room_then))]
fn reply_of_keeper(rt: &impl Abort, alloc: Global, keeper: &mut Keeper, call: Call) -> String
    ensures { SameRoom keeper.old keeper.new }
{
    match call {
        Call::Turn => turned(rt, alloc, keeper.turn()),
        Call::SendHome => told(rt, alloc, format_args!("owed {}", keeper.send_home())),
        Call::Close => {
            keeper.close();
            told(rt, alloc, "closed")
        }
        Call::Byes => told(rt, alloc, format_args!("byes {}", keeper.byes())),
        _ => told(rt, alloc, format_args!("drained {}", keeper.is_drained())),
    }
}

/// A call of a bench.
fn reply_of_bench(rt: &impl Abort, crew: &mut Crew, call: Call) -> String {
    match call {
        Call::Take(i) => crew.take(rt, i),
        Call::Solve(i, ticket) => crew.solve(rt, i, ticket),
        Call::Return(i, ticket) => crew.hand_back(rt, i, ticket),
        Call::MakeUp(i, ticket) => crew.make_up(rt, i, ticket, A),
        _ => crew.leave(rt),
    }
}

/// A call of the window, of the keeper or of a bench.
#[tactic(auto, using(crate::proofs::Rooms::of_then, crate::proofs::Rooms::of_window, crate::proofs::Rooms::room_same, crate::proofs::Rooms::room_then))]
fn reply(
    rt: &impl Abort,
    keeper: &mut Keeper,
    window: &mut Window,
    crew: &mut Crew,
    call: Call,
) -> String
    requires { IsOf window.old keeper.old }
    ensures of { IsOf window.new keeper.new }
    ensures room { SameRoom keeper.old keeper.new }
{
    let alloc = crew.alloc;
    match call {
        Call::Submit(line) => answered(
            rt,
            alloc,
            window.submit(alloc, &crew.rays, line.as_bytes()),
        ),
        Call::Withdraw(n) => answered(rt, alloc, window.withdraw(n)),
        Call::Bye => answered(rt, alloc, window.bye()),
        Call::Collect => collect(rt, alloc, &crew.rays, window),
        Call::Settle => {
            let settled = keeper.settle(window);
            let (left, uncollected) = (settled.left, settled.uncollected);
            told(
                rt,
                alloc,
                format_args!("left {left} uncollected {uncollected}"),
            )
        }
        Call::Turn | Call::Byes | Call::Drained | Call::Close | Call::SendHome => {
            reply_of_keeper(rt, alloc, keeper, call)
        }
        _ => reply_of_bench(rt, crew, call),
    }
}

/// The ends of a room of one window.
pub(crate) fn ends_of_one(
    alloc: Global,
    benches: usize,
    ring: usize,
) -> Result<(Keeper, Window, Vec<Bench>), Fail>
    ensures { IfOk result (λ ends. IsOf ends.1 ends.0) }
{
    let Room {
        keeper,
        mut windows,
        benches,
    } = open_room(alloc, 1, benches, ring, default()?)?;
    let Some(window) = windows.pop() else {
        return Err("no window".into());
    };
    Ok((keeper, window, benches))
}

/// Refuses where a room of one window, so many benches and rings of so many places replies otherwise.
pub(crate) fn check_room(
    rt: &impl Abort,
    alloc: Global,
    benches: usize,
    ring: usize,
    calls: &[(Call, &str)],
) -> Result<(), Fail> {
    let (mut keeper, mut window, benches) = ends_of_one(alloc, benches, ring)?;
    let mut crew = Crew::new(rt, alloc, benches);
    for (number, (call, wanted)) in calls.iter().enumerate() {
        let found = reply(rt, &mut keeper, &mut window, &mut crew, *call);
        same(rt, &number, &found.as_str(), wanted);
    }
    Ok(())
}

/// The ends of a room of two windows.
pub(crate) fn ends_of_two(
    alloc: Global,
    benches: usize,
    ring: usize,
) -> Result<(Keeper, Window, Window, Vec<Bench>), Fail>
    ensures first { IfOk result (λ ends. IsOf ends.1 ends.0) }
    ensures second { IfOk result (λ ends. IsOf ends.2 ends.0) }
{
    let Room {
        keeper,
        mut windows,
        benches,
    } = open_room(alloc, 2, benches, ring, default()?)?;
    let Some(second) = windows.pop() else {
        return Err("no window".into());
    };
    let Some(first) = windows.pop() else {
        return Err("one window".into());
    };
    Ok((keeper, first, second, benches))
}

/// The ends of a room of two windows, whose benches a crew has.
#[derive(Drop)]
struct RoomOfTwo {
    keeper: Keeper,
    first: Window,
    second: Window,
    crew: Crew,
}

/// A call of the window of this number, of the keeper or of a bench, where there are two windows.
fn reply_of_two(rt: &impl Abort, room: &mut RoomOfTwo, number: usize, call: Call) -> String
    requires first { IsOf room.old.first room.old.keeper }
    requires second { IsOf room.old.second room.old.keeper }
    ensures first { IsOf room.new.first room.new.keeper }
    ensures second { IsOf room.new.second room.new.keeper }
{
    match number {
        0 => reply(rt, &mut room.keeper, &mut room.first, &mut room.crew, call),
        _ => reply(rt, &mut room.keeper, &mut room.second, &mut room.crew, call),
    }
}

/// Refuses where a room of two windows, so many benches and rings of so many places replies otherwise. With each call goes the number
/// of a window.
pub(crate) fn check_two_windows(
    rt: &impl Abort,
    alloc: Global,
    benches: usize,
    ring: usize,
    calls: &[(usize, Call, &str)],
) -> Result<(), Fail> {
    let (keeper, first, second, benches) = ends_of_two(alloc, benches, ring)?;
    let mut room = RoomOfTwo {
        keeper,
        first,
        second,
        crew: Crew::new(rt, alloc, benches),
    };
    for (number, (at, call, wanted)) in calls.iter().enumerate() {
        let found = reply_of_two(rt, &mut room, *at, *call);
        same(rt, &number, &found.as_str(), wanted);
    }
    Ok(())
}
