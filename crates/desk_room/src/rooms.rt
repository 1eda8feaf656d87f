//! Rooms.

ghost use Rattle.std.specs.Prelude.{◌≡◌, ◌≢◌, ◌↔◌, ◌⊎◌, ◌<◌, ◌≤◌, codes, IfOk, Err, Some};
ghost use Rattle.desk_room.specs.RoomFaults.{room_fault_name};
ghost use Rattle.desk_room.specs.Rooms.{IsOpen};
ghost use Rattle.desk_room.specs.declared.rooms.RoomFault.TheVariants as fault;

use crate::keepers::Keeper;
use chess_problems::Bound;
use mate_desk::Desk;
use room_ends::{Bench, OrderProducer, Window, open_benches, open_windows};
use std::alloc::{AllocError, Global};
use std::fmt;
use thiserror::Error;

/// The ends of a room. Each may go to a thread of its own.
#[derive(Drop)]
pub struct Room {
    pub keeper: Keeper,
    pub windows: Vec<Window>,
    pub benches: Vec<Bench>,
}

/// Why no room is opened.
#[derive(Clone, Copy, Debug, PartialEq, Eq, Error)]
pub enum RoomFault {
    /// The number of windows is not one of 1 to 16.
    BadWindows,
    /// The number of benches is not one of 1 to 16.
    BadBenches,
    /// The rings would not have 1 to 64 places.
    BadRing,
    /// Memory was refused.
    NoMemory,
    /// The system would start no more threads. Only `serve` starts any.
    NoThread,
}

impl RoomFault {
    /// The fault's name.
    pub fn code(&self) -> &'static str
        ensures { result.now ≡ room_fault_name self.now }
    {
        match self {
            RoomFault::BadWindows => "BadWindows",
            RoomFault::BadBenches => "BadBenches",
            RoomFault::BadRing => "BadRing",
            RoomFault::NoMemory => "NoMemory",
            RoomFault::NoThread => "NoThread",
        }
    }
}

impl fmt::Display for RoomFault {
    ghost output = { λ fault. Some (room_fault_name fault) };

    fn fmt<W: fmt::Write>(&self, f: &mut fmt::Formatter<W>) -> fmt::Result {
        f.write_str(self.code())
    }
}

/// Opens a room of so many windows and benches, 1 to 16 of each, with rings of 1 to 64 places. Each window may have as many records
/// pending at the desk as its rings have places; it reads a line that asks for no bound with the default one.
pub fn open_room(
    alloc: Global,
    windows: usize,
    benches: usize,
    ring: usize,
    default: Bound,
) -> Result<Room, RoomFault>
    ensures room { IfOk result (λ room. IsOpen windows benches ring default room) }
    ensures bad_windows { (result ≡ Err fault.BadWindows) ↔ ((windows ≡ 0) ⊎ (16 < windows)) }
    ensures bad_benches { (result ≡ Err fault.BadBenches) ↔ (((1 ≤ windows) × (windows ≤ 16)) × ((benches ≡ 0) ⊎ (16 < benches))) }
    ensures bad_ring { (result ≡ Err fault.BadRing)
        ↔ (((1 ≤ windows) × (windows ≤ 16)) × ((1 ≤ benches) × (benches ≤ 16)) × ((ring ≡ 0) ⊎ (64 < ring))) }
    ensures no_thread { result ≢ Err fault.NoThread }
{
    if windows == 0 || 16 < windows {
        return Err(RoomFault::BadWindows);
    }
    if benches == 0 || 16 < benches {
        return Err(RoomFault::BadBenches);
    }
    if ring == 0 || 64 < ring {
        return Err(RoomFault::BadRing);
    }
    match open(alloc, windows, benches, ring, default) {
        Ok(room) => Ok(room),
        Err(_) => Err(RoomFault::NoMemory),
    }
}

/// A room of so many windows and benches.
fn open(
    alloc: Global,
    windows: usize,
    benches: usize,
    ring: usize,
    default: Bound,
) -> Result<Room, AllocError>
    requires windows { (1 ≤ windows) × (windows ≤ 16) }
    requires benches { (1 ≤ benches) × (benches ≤ 16) }
    requires ring { (1 ≤ ring) × (ring ≤ 64) }
    ensures room { IfOk result (λ room. IsOpen windows benches ring default room) }
{
    let (window_ends, lines) = open_windows(alloc, windows, ring, default)?;
    let mut producer = OrderProducer::new(alloc)?;
    let (bench_ends, receivers) = open_benches(alloc, benches, ring, &mut producer)?;
    let Ok(desk) = Desk::new(alloc, windows, ring, 0) else {
        return Err(AllocError);
    };
    let keeper = Keeper {
        lines,
        receivers,
        desk,
        producer,
        ring,
        is_home: false,
    };
    Ok(Room {
        keeper,
        windows: window_ends,
        benches: bench_ends,
    })
}
