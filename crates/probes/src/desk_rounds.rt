//! Rounds of calls on a full desk, to be timed from outside: `desk-rounds SUBMITTERS ROOM ROUNDS KIND`.
//!
//! The desk is filled first, submitter by submitter in turn. In a round of the kind `notice` the lowest record is taken, withdrawn
//! and handed back, and its notice is collected; in one of the kind `answer` it is taken, solved and finished, and its answer is
//! collected. Then its submitter hands in a record again, so that the desk stays full. What is answered is the text of one answer.
//! `bench/desk` runs it, and `tests/no_memory` with allocations refused.

use chess_moves::Rays;
use chess_notation::{Record, read_record};
use chess_problems::Bound;
use mate_desk::{Delivery, Desk};
use mate_jobs::{Job, Ticket};
use mate_search::Memo;
use std::alloc::Global;

/// A problem that is solved in little time: there is no mate in 1 by a lone king.
const LINE: &[u8] = b"k7/8/8/8/8/8/8/7K w - -";

/// What is asked for.
#[derive(Clone, Copy)]
struct Rounds {
    submitters: usize,
    room: usize,
    rounds: usize,
    are_solved: bool,
}

/// The rounds that four words ask for; none where they ask for none.
fn rounds_of(words: &[String]) -> Option<Rounds> {
    let [submitters, room, rounds, kind] = words else {
        return None;
    };
    Some(Rounds {
        submitters: submitters.parse::<usize>().ok()?,
        room: room.parse::<usize>().ok()?,
        rounds: rounds.parse::<usize>().ok()?,
        are_solved: match kind.as_str() {
            "notice" => false,
            "answer" => true,
            _ => return None,
        },
    })
}

fn record_of(alloc: Global, rays: &Rays) -> Result<Record, &'static str> {
    let bound = Bound::new(1).ok_or("bound")?;
    match read_record(alloc, rays, LINE, bound) {
        Ok(record) => Ok(record),
        Err(fault) => Err(fault.code()),
    }
}

/// The record of a notice, and a new one after an answer.
fn record_after(alloc: Global, rays: &Rays, delivery: Delivery) -> Result<Record, &'static str> {
    match delivery {
        Delivery::Notice(_, record) => Ok(record),
        Delivery::Answer(_) => record_of(alloc, rays),
    }
}

fn submit(desk: &mut Desk, s: usize, record: Record) -> Result<(), &'static str> {
    match desk.submit(s, record) {
        Ok(_) => Ok(()),
        Err((refusal, _)) => Err(refusal.code()),
    }
}

/// A full desk.
fn full_desk(alloc: Global, rays: &Rays, asked: Rounds) -> Result<Desk, &'static str> {
    let mut desk = match Desk::new(alloc, asked.submitters, asked.room, 0) {
        Ok(desk) => desk,
        Err(fault) => return Err(fault.code()),
    };
    for _ in 0..asked.room {
        for s in 0..asked.submitters {
            submit(&mut desk, s, record_of(alloc, rays)?)?;
        }
    }
    Ok(desk)
}

/// Solves a job, and finishes it.
fn finish(desk: &mut Desk, job: Job, rays: &Rays, memo: &mut Memo) -> Result<(), &'static str> {
    match desk.finish(job.solve(rays, memo)) {
        Ok(()) => Ok(()),
        Err(_) => Err("finish"),
    }
}

/// Withdraws the record of a job, and hands the job back.
fn withdraw(desk: &mut Desk, s: usize, n: usize, job: Job) -> Result<(), &'static str> {
    if desk.withdraw(s, n as u64).is_err() {
        return Err("withdraw");
    }
    match desk.hand_back(job) {
        Ok(()) => Ok(()),
        Err(_) => Err("hand back"),
    }
}

/// The record that a submitter hands in next, by what it collects.
fn collected(
    alloc: Global,
    desk: &mut Desk,
    s: usize,
    rays: &Rays,
) -> Result<Record, &'static str> {
    match desk.collect(s) {
        Ok(Some(delivery)) => record_after(alloc, rays, delivery),
        _ => Err("delivery"),
    }
}

/// Makes one round, counted from 0. Since submitters take turns, the record is that of the submitter whose turn it is.
fn make_round(
    alloc: Global,
    desk: &mut Desk,
    asked: Rounds,
    round: usize,
    rays: &Rays,
    memo: &mut Memo,
) -> Result<(), &'static str> {
    let s = round.checked_rem(asked.submitters).ok_or("submitters")?;
    let n = round.checked_div(asked.submitters).ok_or("submitters")?;
    let job = desk.take().ok_or("job")?;
    if asked.are_solved {
        finish(desk, job, rays, memo)?;
    } else {
        withdraw(desk, s, n, job)?;
    }
    let record = collected(alloc, desk, s, rays)?;
    submit(desk, s, record)
}

/// The text of the answer to a record.
fn answer_of(alloc: Global, rays: &Rays, memo: &mut Memo) -> Result<String, &'static str> {
    let record = record_of(alloc, rays)?;
    let done = Job::new(Ticket(0), record.problem()).solve(rays, memo);
    match done.into_answer(record).text(alloc, rays) {
        Ok(text) => Ok(text),
        Err(refused) => Err(refused.code()),
    }
}

/// Makes all the rounds that are asked for, and gives the text of an answer.
fn make_rounds(alloc: Global, asked: Rounds) -> Result<String, &'static str> {
    let rays = Rays::new();
    let mut memo = match Memo::new(alloc, 16) {
        Ok(memo) => memo,
        Err(fault) => return Err(fault.code()),
    };
    let mut desk = full_desk(alloc, &rays, asked)?;
    for round in 0..asked.rounds {
        make_round(alloc, &mut desk, asked, round, &rays, &mut memo)?;
    }
    answer_of(alloc, &rays, &mut memo)
}

/// Makes the rounds that the words ask for.
pub(crate) fn answer(alloc: Global, words: &[String]) -> Result<String, &'static str> {
    make_rounds(alloc, rounds_of(words).ok_or("words")?)
}
