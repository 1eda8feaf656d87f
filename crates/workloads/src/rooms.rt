//! Records through a room that is turned by hand: sixteen windows, a keeper, four benches.

use crate::memory::Digest;
use crate::stops::Stop;
use chess_moves::Rays;
use chess_problems::Bound;
use desk_room::{Back, Bench, Keeper, Room, Taken, Window, open_room};
use mate_jobs::Delivery;
use mate_search::Memo;
use std::alloc::Global;

const WINDOWS: usize = 16;

const BENCHES: usize = 4;

const RING: usize = 8;
/// How often the keeper is turned for the records that are sent at once.
const TURNS: usize = 64;

/// Has a bench solve the jobs that are ordered.
fn work(rays: &Rays, memo: &mut Memo, bench: &mut Bench) -> Result<(), Stop> {
    for _ in 0..RING {
        let Taken::Job(job) = bench.take() else {
            return Ok(());
        };
        if bench.back(Back::Solved(job.solve(rays, memo))).is_err() {
            return Err(Stop("back"));
        }
    }
    Ok(())
}

/// Collects what a window is given, and counts it.
fn collect(
    alloc: Global,
    rays: &Rays,
    window: &mut Window,
    digest: &mut Digest,
) -> Result<usize, Stop> {
    let mut collected: usize = 0;
    for _ in 0..RING {
        let Some(delivery) = window.collect() else {
            return Ok(collected);
        };
        collected = collected.wrapping_add(1);
        add_delivery(alloc, rays, delivery, digest)?;
    }
    Ok(collected)
}

/// Takes the text of an answer in.
fn add_delivery(
    alloc: Global,
    rays: &Rays,
    delivery: Delivery,
    digest: &mut Digest,
) -> Result<(), Stop> {
    let Delivery::Answer(answer) = delivery else {
        return Ok(());
    };
    match answer.text(alloc, rays) {
        Ok(text) => digest.add(text.as_bytes()),
        Err(_) => return Err(Stop("text")),
    }
    Ok(())
}

/// The ends of a room, and what is solved with.
#[derive(Drop)]
struct Ends {
    keeper: Keeper,
    windows: Vec<Window>,
    benches: Vec<Bench>,
    memo: Memo,
}

/// Turns the room until so many deliveries were collected.
fn turn(
    alloc: Global,
    rays: &Rays,
    ends: &mut Ends,
    sent: usize,
    digest: &mut Digest,
) -> Result<(), Stop> {
    let mut collected: usize = 0;
    for _ in 0..TURNS {
        ends.keeper.turn();
        for bench in ends.benches.iter_mut() {
            work(rays, &mut ends.memo, bench)?;
        }
        ends.keeper.turn();
        for window in ends.windows.iter_mut() {
            collected = collected.wrapping_add(collect(alloc, rays, window, digest)?);
        }
        if sent <= collected {
            return Ok(());
        }
    }
    Err(Stop("stuck"))
}

/// The ends of a new room.
fn ends_of(alloc: Global) -> Result<Ends, Stop> {
    let bound = Bound::new(3).ok_or("bound")?;
    let memo = Memo::new(alloc, 4096).ok().ok_or("memo")?;
    match open_room(alloc, WINDOWS, BENCHES, RING, bound) {
        Ok(
            Room {
                keeper,
                windows,
                benches,
            },
        ) => Ok(Ends {
            keeper,
            windows,
            benches,
            memo,
        }),
        Err(_) => Err(Stop("room")),
    }
}

/// Sends a line at the next window, by how many were sent.
fn send(
    alloc: Global,
    rays: &Rays,
    windows: &mut Vec<Window>,
    sent: usize,
    line: &str,
) -> Result<(), Stop> {
    let number = sent.checked_rem(WINDOWS).unwrap_or(0);
    let window = windows.get_mut(number).ok_or("window")?;
    match window.submit(alloc, rays, line.as_bytes()) {
        Ok(()) => Ok(()),
        Err(_) => Err(Stop("submit")),
    }
}

fn send_all(
    alloc: Global,
    rays: &Rays,
    ends: &mut Ends,
    lines: &str,
    digest: &mut Digest,
) -> Result<(), Stop> {
    let mut sent: usize = 0;
    for line in lines.lines() {
        send(alloc, rays, &mut ends.windows, sent, line)?;
        sent = sent.wrapping_add(1);
        if sent == WINDOWS * RING {
            turn(alloc, rays, ends, sent, digest)?;
            sent = 0;
        }
    }
    turn(alloc, rays, ends, sent, digest)
}

/// Sends the lines through a room, a ring of them for each window at a time.
pub(crate) fn through_room(
    alloc: Global,
    rays: &Rays,
    lines: &str,
    digest: &mut Digest,
) -> Result<(), Stop> {
    let mut ends = ends_of(alloc)?;
    send_all(alloc, rays, &mut ends, lines, digest)
}
