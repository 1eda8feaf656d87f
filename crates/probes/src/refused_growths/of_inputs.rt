//! Calls of `mate_answers` on an input of records.

use crate::refused_growths::marks::{Stop, and_afterwards, default, mark};
use crate::refused_growths::of_search::memo_of;
use chess_moves::Rays;
use chess_notation::{EpdFault, NoMemory};
use chess_problems::Bound;
use mate_answers::{Output, answer_input, fault_text, solve_input};
use mate_search::Memo;
use std::alloc::Global;

/// Of this input the second line is refused.
const INPUT: &[u8] =
    b"7k/8/5K2/8/8/8/8/R7 w - - dm 2; id \"b\";\n8/8/8/8/8/8/8/K7 w - - dm 1;\n\n7k/8/5K2/8/8/8/8/R7 w - - dm 1;";

/// Room for all replies to it.
const ROOM: usize = 4096;

/// What is said of a text, and behind it the text in one line.
fn in_one_line(alloc: Global, said: &str, text: &[u8]) -> Result<String, Stop> {
    let mut line = format!(in alloc; "{said}: ")?;
    for byte in text {
        let next = if *byte == b'\n' {
            '|'
        } else {
            char::from(*byte)
        };
        line.push(next)?;
    }
    Ok(line)
}

/// An output in one line.
fn shown(alloc: Global, text: &[u8], refused: usize) -> Result<String, Stop> {
    let said = format!(in alloc; "{refused} refused")?;
    in_one_line(alloc, said.as_str(), text)
}

/// What all replies came to.
fn told_of(alloc: Global, output: Result<Output, NoMemory>) -> Result<String, Stop> {
    match output {
        Ok(output) => shown(alloc, output.text.as_slice(), output.refused),
        Err(refused) => Ok(format!(in alloc; "{refused}")?),
    }
}

fn solve_twice(
    alloc: Global,
    rays: &Rays,
    default: Bound,
    memo: &mut Memo,
) -> Result<String, Stop> {
    mark(alloc);
    let output = solve_input(alloc, rays, INPUT, default, memo);
    mark(alloc);
    let again = solve_input(alloc, rays, INPUT, default, memo);
    and_afterwards(alloc, told_of(alloc, output), told_of(alloc, again))
}

/// Afterwards: the output by the same memo once more.
pub(crate) fn tell_solve_input(alloc: Global, rays: &Rays) -> Result<String, Stop> {
    let default = default().ok_or("bound")?;
    let mut memo = memo_of(alloc, 64)?;
    solve_twice(alloc, rays, default, &mut memo)
}

/// What was written where the answers end, or where they stop for want of memory.
fn told(
    alloc: Global,
    ended: Result<usize, byte_streams::Stop>,
    text: &[u8],
) -> Result<String, Stop> {
    match ended {
        Ok(refused) => shown(alloc, text, refused),
        Err(byte_streams::Stop::NoMemory) => in_one_line(alloc, "NoMemory", text),
        Err(_) => Err(Stop("stopped otherwise")),
    }
}

fn answer_twice(
    alloc: Global,
    rays: &Rays,
    memo: &mut Memo,
    text: &mut Vec<u8>,
    later: &mut Vec<u8>,
) -> Result<String, Stop> {
    let default = default().ok_or("bound")?;
    mark(alloc);
    let ended = answer_input(alloc, rays, INPUT, default, memo, text);
    mark(alloc);
    let again = answer_input(alloc, rays, INPUT, default, memo, later);
    let first = told(alloc, ended, text.as_slice());
    and_afterwards(alloc, first, told(alloc, again, later.as_slice()))
}

/// The replies go to a list that grows no more. Afterwards: the replies by the same memo once more.
pub(crate) fn tell_answer_input(alloc: Global, rays: &Rays) -> Result<String, Stop> {
    let mut memo = memo_of(alloc, 64)?;
    let mut text = Vec::with_capacity(alloc, ROOM)?;
    let mut later = Vec::with_capacity(alloc, ROOM)?;
    answer_twice(alloc, rays, &mut memo, &mut text, &mut later)
}

/// The reply to a line that was refused.
pub(crate) fn tell_fault_text(alloc: Global) -> Result<String, Stop> {
    mark(alloc);
    let text = fault_text(alloc, 1023, EpdFault::MissingSemicolon);
    mark(alloc);
    match text {
        Ok(text) => in_one_line(alloc, "ok", text.as_slice()),
        Err(_) => in_one_line(alloc, "NoMemory", b""),
    }
}
