//! Programs of the scripts in `tests/` and `bench/`, to be timed or to have memory refused: `probes PROBE WORD..`.
//!
//! The word for a probe is the name of its module, which says what its words mean and which scripts run it: `desk_rounds`,
//! `room_rounds`, `refused_growths`. What it found is printed. Where something is refused or goes wrong, its name is said on standard
//! error, and the status is 1.
#![tactic(auto)]

mod desk_rounds;
mod refused_growths;
mod room_rounds;

use std::alloc::Global;
use std::env;
use std::process::ExitCode;
use std::rt::Env;
use std::sync::Wait;
use std::thread::Threads;

/// What the probe that the program's words name has found.
fn answer<R: Env + AllocGlobal + Threads + Wait + Sync>(
    rt: &R,
    alloc: Global,
) -> Result<String, &'static str> {
    let words = env::args(rt).ok().ok_or("NoMemory")?;
    let words: Vec<String> = words.collect(alloc).ok().ok_or("NoMemory")?;
    let [_, probe, words @ ..] = words.as_slice() else {
        return Err("no probe");
    };
    match probe.as_str() {
        "desk-rounds" => desk_rounds::answer(alloc, words),
        "room-rounds" => room_rounds::answer(alloc, words),
        "refused-growths" => refused_growths::answer(rt, alloc, words),
        _ => Err("no such probe"),
    }
}

/// A text that can't be written changes no status.
fn main(rt: HostRuntime) -> ExitCode {
    match answer(&rt, rt.alloc()) {
        Ok(text) => {
            let _ = println!(rt; "{text}");
            ExitCode::from(0)
        }
        Err(name) => {
            let _ = eprintln!(rt; "{name}");
            ExitCode::from(1)
        }
    }
}
