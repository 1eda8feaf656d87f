//! The calls that open a room of `desk_room`.

use crate::refused_growths::marks::{Stop, default, mark};
use chess_moves::Rays;
use desk_room::{OpenGate, open_room, serve};
use std::alloc::Global;
use std::sync::Wait;
use std::thread::Threads;

/// The inputs that are served.
const INPUTS: [&[u8]; 2] = [
    b"6k1/5ppp/8/8/8/8/8/R3K3 w Q - dm 1; id \"a\";\n8/8/8/8/8/8/8/K7 w - - dm 1;",
    b"7k/8/5K2/8/8/8/8/R7 w - - dm 2;",
];

pub(crate) fn tell_open_room(alloc: Global) -> Result<String, Stop> {
    let default = default().ok_or("bound")?;
    mark(alloc);
    let room = open_room(alloc, 3, 2, 4, default);
    mark(alloc);
    match room {
        Ok(room) => Ok(format!(in alloc;
            "{} windows, {} benches",
            room.windows.len(),
            room.benches.len()
        )?),
        Err(fault) => Ok(format!(in alloc; "{}", fault.code())?),
    }
}

fn inputs(alloc: Global) -> Result<Vec<Vec<u8>>, Stop> {
    let mut inputs = Vec::new(alloc);
    for input in INPUTS {
        let mut copy = Vec::new(alloc);
        copy.extend_from_slice(input)?;
        inputs.push(copy).ok().ok_or("NoMemory")?;
    }
    Ok(inputs)
}

/// The outputs in one line.
pub(crate) fn tell_serve<R: Threads + Wait + Sync>(
    rt: &R,
    alloc: Global,
    rays: &Rays,
) -> Result<String, Stop> {
    let inputs = inputs(alloc)?;
    let default = default().ok_or("bound")?;
    mark(alloc);
    let served = serve(rt, alloc, rays, inputs.as_slice(), default, 2, &OpenGate);
    mark(alloc);
    let outputs = match served {
        Ok(outputs) => outputs,
        Err(fault) => return Ok(format!(in alloc; "{}", fault.code())?),
    };
    let mut told = String::new(alloc);
    for output in outputs.iter() {
        told = format!(in alloc; "{told}{} refused: ", output.refused)?;
        for byte in output.text.iter() {
            told.push(if *byte == b'\n' {
                '|'
            } else {
                char::from(*byte)
            })?;
        }
    }
    Ok(told)
}
