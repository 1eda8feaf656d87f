//! Rounds through a room turned by hand, to be timed from outside: `room-rounds WINDOWS BENCHES RING ROUNDS KIND`.
//!
//! In a round of the kind `letters` the last window fills its ring with records, the keeper turns, the last bench solves each job
//! and gives it back, the keeper turns again, and the window collects what it is given. In one of the kind `idle` the keeper turns,
//! and nothing lies in any ring. At last the benches are sent home, and the number of the answers that were collected is answered.
//! Where a growth is refused, what was refused is tried again. `bench/room` runs it, and `tests/no_memory` with refused growths.

use chess_moves::Rays;
use chess_notation::EpdFault;
use chess_problems::Bound;
use desk_room::{Back, Bench, Keeper, Room, Taken, Window, WindowFault, open_room};
use mate_search::Memo;
use std::alloc::Global;

/// A mate in one, whose operation is kept for the answer.
const LINE: &[u8] = b"6k1/5ppp/8/8/8/8/8/R3K3 w Q - dm 1; id \"back rank\";";

/// What is asked for.
#[derive(Clone, Copy)]
struct Rounds {
    windows: usize,
    benches: usize,
    ring: usize,
    rounds: usize,
    are_idle: bool,
}

/// The rounds that five words ask for; none where they ask for none.
fn rounds_of(words: &[String]) -> Option<Rounds> {
    let [windows, benches, ring, rounds, kind] = words else {
        return None;
    };
    Some(Rounds {
        windows: windows.parse::<usize>().ok()?,
        benches: benches.parse::<usize>().ok()?,
        ring: ring.parse::<usize>().ok()?,
        rounds: rounds.parse::<usize>().ok()?,
        are_idle: match kind.as_str() {
            "letters" => false,
            "idle" => true,
            _ => return None,
        },
    })
}

/// Sends a record. Where memory is refused for it, the ring is as it was, and it is sent again.
fn send(alloc: Global, rays: &Rays, window: &mut Window) -> Result<(), &'static str> {
    for _ in 0..2 {
        match window.submit(alloc, rays, LINE) {
            Ok(()) => return Ok(()),
            Err(WindowFault::BadRecord(EpdFault::NoMemory)) => {}
            Err(fault) => return Err(fault.code()),
        }
    }
    Err("NoMemory")
}

/// Solves the jobs that are ordered, and gives them back.
fn solve(rays: &Rays, memo: &mut Memo, bench: &mut Bench, ring: usize) -> Result<(), &'static str> {
    for _ in 0..ring {
        match bench.take() {
            Taken::Job(job) => bench
                .back(Back::Solved(job.solve(rays, memo)))
                .ok()
                .ok_or("back")?,
            _ => break,
        }
    }
    Ok(())
}

/// Collects what the window is given, and counts it.
fn collect(window: &mut Window, ring: usize) -> usize {
    let mut collected: usize = 0;
    for _ in 0..ring {
        if window.collect().is_some() {
            collected = collected.wrapping_add(1);
        }
    }
    collected
}

/// The ends of a room that a round is made with.
#[derive(Drop)]
struct Ends {
    keeper: Keeper,
    window: Window,
    bench: Bench,
}

/// Makes one round, and answers how many deliveries were collected. Where the deque can't grow, jobs wait for a later turn.
fn make_round(
    alloc: Global,
    rays: &Rays,
    memo: &mut Memo,
    ends: &mut Ends,
    ring: usize,
) -> Result<usize, &'static str> {
    for _ in 0..ring {
        send(alloc, rays, &mut ends.window)?;
    }
    let mut collected: usize = 0;
    for _ in 0..=ring {
        ends.keeper.turn();
        solve(rays, memo, &mut ends.bench, ring)?;
        ends.keeper.turn();
        collected = collected.wrapping_add(collect(&mut ends.window, ring));
        if ring <= collected {
            return Ok(collected);
        }
    }
    Err("stuck")
}

/// Sends the benches home. Where the deque can't grow, stops stay owed until one was taken.
fn close(ends: &mut Ends) -> Result<(), &'static str> {
    ends.keeper.close();
    for _ in 0..16 {
        let owed = ends.keeper.send_home();
        match ends.bench.take() {
            Taken::Stop => {}
            _ => return Err("no stop"),
        }
        if owed == 0 {
            return Ok(());
        }
    }
    Err("owed")
}

/// The keeper of a new room, its last window and its last bench.
fn ends_of(alloc: Global, asked: Rounds) -> Result<Ends, &'static str> {
    let default = Bound::new(3).ok_or("bound")?;
    match open_room(alloc, asked.windows, asked.benches, asked.ring, default) {
        Ok(room) => last_ends(room),
        Err(fault) => Err(fault.code()),
    }
}

fn last_ends(room: Room) -> Result<Ends, &'static str> {
    let Room {
        keeper,
        mut windows,
        mut benches,
    } = room;
    match (windows.pop(), benches.pop()) {
        (Some(window), Some(bench)) => Ok(Ends {
            keeper,
            window,
            bench,
        }),
        _ => Err("no window, or no bench"),
    }
}

/// Makes all the rounds that are asked for, sends the benches home, and counts what was collected.
fn turn_rounds(
    alloc: Global,
    rays: &Rays,
    memo: &mut Memo,
    ends: &mut Ends,
    asked: Rounds,
) -> Result<usize, &'static str> {
    let mut collected: usize = 0;
    for _ in 0..asked.rounds {
        if asked.are_idle {
            ends.keeper.turn();
        } else {
            let more = make_round(alloc, rays, memo, ends, asked.ring)?;
            collected = collected.wrapping_add(more);
        }
    }
    close(ends)?;
    Ok(collected)
}

fn make_rounds(alloc: Global, asked: Rounds) -> Result<usize, &'static str> {
    let rays = Rays::new();
    let mut memo = match Memo::new(alloc, 16) {
        Ok(memo) => memo,
        Err(fault) => return Err(fault.code()),
    };
    let mut ends = ends_of(alloc, asked)?;
    turn_rounds(alloc, &rays, &mut memo, &mut ends, asked)
}

/// Makes the rounds that the words ask for.
pub(crate) fn answer(alloc: Global, words: &[String]) -> Result<String, &'static str> {
    let collected = make_rounds(alloc, rounds_of(words).ok_or("words")?)?;
    format!(in alloc; "{collected}").ok().ok_or("NoMemory")
}
