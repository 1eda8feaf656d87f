//! A program of `bench/run`: jobs that a user waits for, on inputs made from a number, `workloads JOB SIZE SEED`.
//!
//! Each job makes its input in memory and has the commands of `plain_commands` answer it, or works at a room by hand; what is printed is a
//! digest of all results. To read: `jobs`, then how inputs are made, `variants` of `problems`, `walks`, `scripts`, by `chance`; `rooms`;
//! `memory`, the file that a command reads and the digest that it writes to; `stops`. SIZE multiplies what a job has to do.
#![tactic(auto)]

mod chance;
mod jobs;
mod memory;
mod problems;
mod rooms;
mod scripts;
mod stops;
mod variants;
mod walks;

use memory::Digest;
use std::alloc::Global;
use std::env;
use std::process::ExitCode;
use std::rt::Env;
use stops::Stop;

/// The digest of what the words ask for.
fn answer<R: Env + AllocGlobal>(rt: &R, alloc: Global) -> Result<Digest, &'static str> {
    let words = env::args(rt).ok().ok_or("NoMemory")?;
    let words: Vec<String> = words.collect(alloc).ok().ok_or("NoMemory")?;
    let [_, job, size, seed] = words.as_slice() else {
        return Err("workloads JOB SIZE SEED");
    };
    let size = size.parse::<u32>().ok().ok_or("size")? as usize;
    let seed = seed.parse::<u32>().ok().ok_or("seed")? as u64;
    match jobs::do_job(alloc, job.as_str(), size, seed) {
        Ok(digest) => Ok(digest),
        Err(Stop(name)) => Err(name),
    }
}

/// A text that can't be written changes no status.
fn main(rt: HostRuntime) -> ExitCode {
    match answer(&rt, rt.alloc()) {
        Ok(digest) => {
            let (hash, bytes) = (digest.hash, digest.bytes);
            let _ = println!(rt; "{hash:016x} {bytes}");
            ExitCode::from(0)
        }
        Err(name) => {
            let _ = eprintln!(rt; "{name}");
            ExitCode::from(1)
        }
    }
}
