//! The program `solver`: the command `solve` of `matedesk` by the same words, and nothing else.
//!
//! It stands on half of the crates, and is proved in a third of the processor time: a new clone solves by it until the whole program is
//! proved. Read `solving`.
#![tactic(auto)]

mod solving;

use file_answers::{
    FileInTurn, FileSystem, MISUSED, NamedFiles, NamedRefusals, complain, no_memory,
};
use solving::solve_asked;
use std::alloc::Global;
use std::process::ExitCode;
use std::rt::Env;
use std::{env, io};

/// The words ask for something that this program doesn't do, and nothing is written.
const NOT_SOLVE: u8 = 6;

/// The words that the program was called with.
fn words_of<R: Env + AllocGlobal>(rt: &R, alloc: Global) -> io::Result<Vec<String>> {
    Ok(env::args(rt)?.collect(alloc)?)
}

fn main(rt: HostRuntime) -> ExitCode {
    let alloc = rt.alloc();
    let mut err = rt.stderr();
    let status = match words_of(&rt, alloc) {
        Ok(words) => {
            let files = FileSystem {
                rt: &rt,
                stdin: rt.stdin(),
            };
            let turn = FileInTurn::new(words.as_slice());
            let named = NamedFiles {
                source: &files,
                turn: &turn,
            };
            let mut out = NamedRefusals::new(rt.stdout(), rt.stderr(), &turn);
            solve_asked(alloc, words.as_slice(), &named, &mut out, &mut err).unwrap_or(NOT_SOLVE)
        }
        Err(fault) if fault.kind() == io::ErrorKind::OutOfMemory => no_memory(&mut err),
        Err(_) => {
            complain(&mut err, "a word is not text");
            MISUSED
        }
    };
    ExitCode::from(status)
}
