//! Calls of `mate_search` and `mate_jobs` on one record, and the text of an outcome.

use crate::refused_growths::marks::{Stop, and_afterwards, default, mark};
use chess_board::Move;
use chess_moves::Rays;
use chess_notation::{NoMemory, Record, answer_text, read_record};
use chess_problems::{Outcome, Problem};
use mate_jobs::{Answer, Done, Job, Ticket};
use mate_search::{Guide, Memo, MemoFault, Never, Solver, Stopped, solve};
use parallel_search::{OnThreads, ThreadMemory};
use std::alloc::{AllocError, Global};
use std::thread::Threads;

/// A mate in three, on the way to which positions are kept in a memo.
const LINE: &[u8] = b"6k1/2r2ppp/3r4/8/8/8/8/R6K w - - dm 3; id \"two replies\";";

/// The same within one move less, in which there is none.
const SHORTER: &[u8] = b"6k1/2r2ppp/3r4/8/8/8/8/R6K w - - dm 2; id \"two replies\";";

/// A memo of this size, with ample memory.
pub(crate) fn memo_of(alloc: Global, entries: usize) -> Result<Memo, Stop> {
    match Memo::new(alloc, entries) {
        Ok(memo) => Ok(memo),
        Err(fault) => Err(Stop(fault.code())),
    }
}

fn record_of(alloc: Global, rays: &Rays, line: &[u8]) -> Result<Record, Stop> {
    match read_record(alloc, rays, line, default().ok_or("bound")?) {
        Ok(record) => Ok(record),
        Err(fault) => Err(Stop(fault.code())),
    }
}

pub(crate) fn tell_new_memo(alloc: Global) -> Result<String, Stop> {
    mark(alloc);
    let memo = Memo::new(alloc, 16);
    mark(alloc);
    memo_text(alloc, memo)
}

pub(crate) fn tell_large_memo(alloc: Global) -> Result<String, Stop> {
    mark(alloc);
    let memo = Memo::large(alloc, 1_000_000);
    mark(alloc);
    memo_text(alloc, memo)
}

/// How many entries a memo has, or why there is none.
fn memo_text(alloc: Global, memo: Result<Memo, MemoFault>) -> Result<String, Stop> {
    match memo {
        Ok(memo) => Ok(format!(in alloc; "a memo of {}", memo.len())?),
        Err(fault) => Ok(format!(in alloc; "{}", fault.code())?),
    }
}

/// How long a mate is, and by which moves.
fn mate_of(alloc: Global, outcome: &Outcome) -> Result<String, Stop> {
    let Outcome::Mate { dm, keys, pv } = outcome else {
        return Err(Stop("no mate"));
    };
    let mut text = format!(in alloc; "mate in {}", dm.get())?;
    push_moves(&mut text, keys.as_slice())?;
    text.push_str(" by")?;
    push_moves(&mut text, pv.as_slice())?;
    Ok(text)
}

fn push_moves(text: &mut String, moves: &[Move]) -> Result<(), AllocError> {
    for m in moves {
        text.push(' ')?;
        text.push_str(m.text().as_str())?;
    }
    Ok(())
}

fn problem_of(alloc: Global, rays: &Rays) -> Result<Problem, Stop> {
    Ok(record_of(alloc, rays, LINE)?.problem())
}

/// Afterwards: the outcome by the same memo once more.
pub(crate) fn tell_solve(alloc: Global, rays: &Rays) -> Result<String, Stop> {
    let problem = problem_of(alloc, rays)?;
    let mut memo = memo_of(alloc, 64)?;
    mark(alloc);
    let outcome = solve(rays, &problem, &mut memo);
    mark(alloc);
    let again = solve(rays, &problem, &mut memo);
    and_afterwards(alloc, mate_of(alloc, &outcome), mate_of(alloc, &again))
}

/// The mate that a search found which may stop, and which nothing stopped.
fn mate_found(alloc: Global, found: Result<Outcome, Stopped>) -> Result<String, Stop> {
    match found {
        Ok(outcome) => mate_of(alloc, &outcome),
        Err(_) => Err(Stop("stopped")),
    }
}

/// The same by three workers, who are made in the call. Afterwards: the outcome by their memos once more.
pub(crate) fn tell_on_threads<R: Threads + Sync>(
    rt: &R,
    alloc: Global,
    rays: &Rays,
) -> Result<String, Stop> {
    let problem = problem_of(alloc, rays)?;
    let memo = memo_of(alloc, 64)?;
    let solver = OnThreads { rt };
    let guide = Guide { rays, halt: &Never };
    mark(alloc);
    let mut memory = ThreadMemory::new(alloc, memo, 3, 64);
    let outcome = solver.solve(&guide, &problem, &mut memory);
    mark(alloc);
    let again = solver.solve(&guide, &problem, &mut memory);
    and_afterwards(alloc, mate_found(alloc, outcome), mate_found(alloc, again))
}

/// The ticket of what was solved.
fn ticket_of(alloc: Global, done: &Done) -> Result<String, Stop> {
    Ok(format!(in alloc; "ticket {}", done.ticket().0)?)
}

/// Afterwards: the ticket of what was solved.
pub(crate) fn tell_job(alloc: Global, rays: &Rays) -> Result<String, Stop> {
    let job = Job::new(Ticket(7), problem_of(alloc, rays)?);
    let mut memo = memo_of(alloc, 64)?;
    mark(alloc);
    let done = job.solve(rays, &mut memo);
    mark(alloc);
    and_afterwards(
        alloc,
        mate_of(alloc, done.outcome()),
        ticket_of(alloc, &done),
    )
}

fn answer_of(alloc: Global, rays: &Rays) -> Result<Answer, Stop> {
    let record = record_of(alloc, rays, LINE)?;
    let mut memo = memo_of(alloc, 64)?;
    let done = Job::new(Ticket(0), record.problem()).solve(rays, &mut memo);
    Ok(done.into_answer(record))
}

/// Afterwards: the text once more.
pub(crate) fn tell_answer(alloc: Global, rays: &Rays) -> Result<String, Stop> {
    let answer = answer_of(alloc, rays)?;
    mark(alloc);
    let text = answer.text(alloc, rays);
    mark(alloc);
    let again = answer.text(alloc, rays);
    and_afterwards(
        alloc,
        text_or_refusal(alloc, text),
        text_or_refusal(alloc, again),
    )
}

fn text_or_refusal(alloc: Global, text: Result<String, NoMemory>) -> Result<String, Stop> {
    match text {
        Ok(text) => Ok(text),
        Err(refused) => Ok(format!(in alloc; "{refused}")?),
    }
}

/// What two answer texts came to.
fn both(
    alloc: Global,
    one: Result<String, NoMemory>,
    other: Result<String, NoMemory>,
) -> Result<String, Stop> {
    match (text_or_refusal(alloc, one), text_or_refusal(alloc, other)) {
        (Ok(one), Ok(other)) => Ok(format!(in alloc; "|{one}|{other}")?),
        (Err(stop), _) => Err(stop),
        (_, Err(stop)) => Err(stop),
    }
}

/// The text of a record's outcome between marks, and once more.
fn told_twice(
    alloc: Global,
    rays: &Rays,
    record: &Record,
    memo: &mut Memo,
) -> (Result<String, NoMemory>, Result<String, NoMemory>) {
    let outcome = solve(rays, &record.problem(), memo);
    mark(alloc);
    let text = answer_text(alloc, rays, record, &outcome);
    mark(alloc);
    (text, answer_text(alloc, rays, record, &outcome))
}

/// The texts of a mate and of no mate, each between marks, or want of memory for it. Afterwards: both texts.
pub(crate) fn tell_answer_text(alloc: Global, rays: &Rays) -> Result<String, Stop> {
    let mate = record_of(alloc, rays, LINE)?;
    let none = record_of(alloc, rays, SHORTER)?;
    let mut memo = memo_of(alloc, 64)?;
    let (mate, mate_again) = told_twice(alloc, rays, &mate, &mut memo);
    let (none, none_again) = told_twice(alloc, rays, &none, &mut memo);
    and_afterwards(
        alloc,
        both(alloc, mate, none),
        both(alloc, mate_again, none_again),
    )
}
