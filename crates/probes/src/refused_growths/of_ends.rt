//! Calls of the ends of a room.

use crate::refused_growths::marks::{Stop, default, mark};
use chess_moves::Rays;
use desk_room::{Back, Bench, Keeper, Room, Taken, Window, WindowFault, open_room};
use std::alloc::Global;

/// A mate in one, of which two operations are kept.
const LINE: &[u8] = b"6k1/5ppp/8/8/8/8/8/R3K3 w Q - dm 1; id \"back rank\"; hmvc 0;";

/// The keeper, the one window, and the benches.
fn ends(alloc: Global, benches: usize, ring: usize) -> Result<(Keeper, Window, Vec<Bench>), Stop> {
    match open_room(alloc, 1, benches, ring, default().ok_or("bound")?) {
        Ok(
            Room {
                keeper,
                mut windows,
                benches,
            },
        ) => match windows.pop() {
            Some(window) => Ok((keeper, window, benches)),
            None => Err(Stop("no window")),
        },
        Err(fault) => Err(Stop(fault.code())),
    }
}

fn code_of(sent: Result<(), WindowFault>) -> &'static str {
    match sent {
        Ok(()) => "ok",
        Err(fault) => fault.code(),
    }
}

/// Afterwards: where the record was refused, it is sent again; then the one place of the ring is taken, and one record is accepted.
pub(crate) fn tell_submit(alloc: Global, rays: &Rays) -> Result<String, Stop> {
    let (mut keeper, mut window, _benches) = ends(alloc, 1, 1)?;
    mark(alloc);
    let sent = window.submit(alloc, rays, LINE);
    mark(alloc);
    if sent.is_err() && window.submit(alloc, rays, LINE).is_err() {
        return Err(Stop("refused again"));
    }
    let next = code_of(window.submit(alloc, rays, LINE));
    let accepted = keeper.turn().accepted;
    Ok(format!(in alloc; "{}\n{next} {accepted}", code_of(sent))?)
}

/// The tickets of the orders that a bench takes, whose jobs it gives back unsolved.
fn orders(alloc: Global, bench: &mut Bench) -> Result<String, Stop> {
    let mut told = String::new(alloc);
    for _ in 0..64 {
        match bench.take() {
            Taken::Job(job) => {
                told = format!(in alloc; "{told} {}", job.ticket().0)?;
                if bench.back(Back::Returned(job)).is_err() {
                    return Err(Stop("back"));
                }
            }
            Taken::Stop => return Ok(format!(in alloc; "{told} stop")?),
            Taken::Nothing => return Ok(told),
        }
    }
    Err(Stop("no end of orders"))
}

/// Seven jobs wait, of which a refused growth leaves some waiting. Afterwards: how many a later turn and this one ordered, and what
/// the bench takes.
pub(crate) fn tell_turn(alloc: Global, rays: &Rays) -> Result<String, Stop> {
    let (mut keeper, mut window, mut benches) = ends(alloc, 1, 7)?;
    let mut bench = benches.pop().ok_or("no bench")?;
    for _ in 0..7 {
        if window.submit(alloc, rays, LINE).is_err() {
            return Err(Stop("submit"));
        }
    }
    mark(alloc);
    let first = keeper.turn();
    mark(alloc);
    let later = keeper.turn();
    let ordered = first.ordered.wrapping_add(later.ordered);
    let answer = if first.ordered < 7 {
        "some wait"
    } else {
        "ordered"
    };
    let orders = orders(alloc, &mut bench)?;
    Ok(format!(in alloc;
        "{answer}\n{} {} {ordered}:{orders}",
        first.accepted, later.accepted
    )?)
}

/// Seven benches. Afterwards: how many stops a later call owes, and what each bench takes.
pub(crate) fn tell_send_home(alloc: Global) -> Result<String, Stop> {
    let (mut keeper, _window, mut benches) = ends(alloc, 7, 1)?;
    mark(alloc);
    let owed = keeper.send_home();
    mark(alloc);
    let later = keeper.send_home();
    let answer = if owed > 0 { "owed" } else { "paid" };
    let mut told = format!(in alloc; "{answer}\n{later}:")?;
    for bench in benches.iter_mut() {
        let orders = orders(alloc, bench)?;
        told = format!(in alloc; "{told}{orders}")?;
    }
    Ok(told)
}
