//! The program `matedesk`: it answers the words that it was called with, from the files and to the outputs of the system.
//!
//! Read `answering` first, where the contract of `command` is the program's, then the commands that start threads: `serving`, `verifying_on`
//! and `trees_on`, whose workers take lines; `solving_on`, whose workers take first moves; `talking`; and with a limit of time `solving_in_time`,
//! `verifying_in_time` and `telling_in_time`, over `in_time`, `counting` and `tick_limit`.
//! What a word means is the business of `command_words`, what all other commands answer that of `plain_commands`, and how it is told how far a
//! command is that of `command_progress`.
#![tactic(auto)]

mod answering;
mod counting;
mod in_time;
mod serving;
mod solving_in_time;
mod solving_on;
mod talking;
mod telling_in_time;
mod tick_limit;
mod trees_on;
mod verifying_in_time;
mod verifying_on;

use answering::command;
use file_answers::{
    FileInTurn, FileSystem, MISUSED, NamedFiles, NamedRefusals, complain, no_memory,
};
use std::alloc::Global;
use std::process::ExitCode;
use std::rt::Env;
use std::{env, io};

/// The words that the program was called with.
fn words_of<R: Env + AllocGlobal>(rt: &R, alloc: Global) -> io::Result<Vec<String>> {
    Ok(env::args(rt)?.collect(alloc)?)
}

fn main(rt: HostRuntime) -> ExitCode {
    let alloc = rt.alloc();
    let mut err = rt.stderr();
    let status = match words_of(&rt, alloc) {
        Ok(words) => {
            let files = FileSystem {
                rt: &rt,
                stdin: rt.stdin(),
            };
            let turn = FileInTurn::new(words.as_slice());
            let named = NamedFiles {
                source: &files,
                turn: &turn,
            };
            let mut out = NamedRefusals::new(rt.stdout(), rt.stderr(), &turn);
            command(&rt, alloc, words.as_slice(), &named, &mut out, &mut err)
        }
        Err(fault) if fault.kind() == io::ErrorKind::OutOfMemory => no_memory(&mut err),
        Err(_) => {
            complain(&mut err, "a word is not text");
            MISUSED
        }
    };
    ExitCode::from(status)
}
