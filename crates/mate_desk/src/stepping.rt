//! One step at a desk with the jobs in hand.

ghost use Rattle.std.specs.Prelude.{ℕ, List, ◌≡◌, ◌<◌, ◌≤◌, ◌+◌, ◌-◌, ◌^◌, Some, true, cond, length, vec_len};
ghost use Rattle.mate_jobs.specs.Jobs.{Task};
ghost use Rattle.mate_desk.specs.Content.{entries, lowest};
ghost use Rattle.mate_desk.specs.inside.Mirrors.{Makes};
ghost use Rattle.mate_desk.specs.inside.Stepping.{delivery_reply, found_reply, answers, collects, finishes, count_done};
ghost use Rattle.mate_desk.specs.declared.steps_and_replies.Step.TheVariants as step;

use crate::desks::Desk;
use crate::held_answers::{AnswerPlace, hold};
use crate::held_jobs::Hand;
use crate::steps_and_replies::{Reply, Step};
use chess_moves::Rays;
use chess_notation::read_record;
use chess_problems::Bound;
use mate_jobs::Delivery;
use mate_search::Memo;
use std::alloc::Global;

/// What lines are read with.
#[derive(Clone, Copy)]
pub(crate) struct Reader<'a> {
    pub(crate) alloc: Global,
    pub(crate) rays: &'a Rays,
    pub(crate) default: Bound,
}

/// Makes one step. An answer is held in one of the places.
pub(crate) fn make(
    reader: &Reader,
    desk: &mut Desk,
    hand: &mut Hand,
    places: &mut Vec<AnswerPlace>,
    step: &Step,
    memo: &mut Memo,
) -> Reply
    requires room { (t : ℕ) → lowest (entries desk.old) ≡ Some t → length hand.old.jobs < hand.old.room }
    requires few { desk.old.next < 2 ^ 64 - 1 }
    requires place { collects step.now ≡ true → 0 < count_done desk.old → 0 < vec_len places.old }
    ensures makes { Makes reader.now.default step.now result desk.old hand.old.jobs desk.new hand.new.jobs }
    ensures room { hand.new.room ≡ hand.old.room }
    ensures grows { length hand.new.jobs ≤ length hand.old.jobs + 1 }
    ensures few { desk.new.next ≤ desk.old.next + 1 }
    ensures left { vec_len places.new + answers result ≡ vec_len places.old }
    ensures asked_for { answers result ≤ cond (collects step.now) 1 0 }
    ensures finished { count_done desk.new + answers result ≤ count_done desk.old + cond (finishes step.now) 1 0 }
    ensures memo_room { memo.new.room ≡ memo.old.room }
    ensures memo_within { memo.new.kept ≤ memo.new.room }
{
    // That a memo keeps no more than it has room for is this call's clause.
    memo.len();
    match step {
        Step::Submit(s, line) => submit(reader, desk, *s, line),
        Step::Take => take(desk, hand),
        Step::Finish(i) => finish(reader.rays, desk, hand, *i, memo),
        Step::HandBack(i) => hand_back(desk, hand, *i),
        Step::Collect(s) => collect(desk, places, *s),
        Step::Withdraw(s, n) => withdraw(desk, *s, *n),
        Step::Drained => drained(desk),
        Step::Close => close(desk),
    }
}

/// Hands in the record that a line says.
fn submit(reader: &Reader, desk: &mut Desk, s: usize, line: &Vec<u8>) -> Reply
    requires { desk.old.next < 2 ^ 64 - 1 }
    ensures makes { (jobs : List Task) → Makes reader.now.default (step.Submit s line.now) result desk.old jobs desk.new jobs }
    ensures few { desk.new.next ≤ desk.old.next + 1 }
    ensures no_answer { answers result ≡ 0 }
    ensures finished { count_done desk.new ≤ count_done desk.old }
{
    let asked = match read_record(reader.alloc, reader.rays, line, reader.default) {
        Ok(asked) => asked,
        Err(fault) => return Reply::BadRecord(fault),
    };
    match desk.submit(s, asked) {
        Ok(ticket) => Reply::Ticket(ticket),
        Err((refusal, _)) => Reply::Refused(refusal),
    }
}

/// Takes a job into the hand.
fn take(desk: &mut Desk, hand: &mut Hand) -> Reply
    requires { (t : ℕ) → lowest (entries desk.old) ≡ Some t → length hand.old.jobs < hand.old.room }
    ensures makes { (default : ℕ) → Makes default step.Take result desk.old hand.old.jobs desk.new hand.new.jobs }
    ensures room { hand.new.room ≡ hand.old.room }
    ensures grows { length hand.new.jobs ≤ length hand.old.jobs + 1 }
    ensures few { desk.new.next ≤ desk.old.next + 1 }
    ensures no_answer { answers result ≡ 0 }
    ensures finished { count_done desk.new ≤ count_done desk.old }
{
    match desk.take() {
        Some(job) => {
            let ticket = job.ticket();
            hand.push(job);
            Reply::Job(ticket)
        }
        None => Reply::Nothing,
    }
}

/// Solves a job in hand and finishes it.
fn finish(rays: &Rays, desk: &mut Desk, hand: &mut Hand, i: usize, memo: &mut Memo) -> Reply
    ensures makes { (default : ℕ) → Makes default (step.Finish i) result desk.old hand.old.jobs desk.new hand.new.jobs }
    ensures room { hand.new.room ≡ hand.old.room }
    ensures grows { length hand.new.jobs ≤ length hand.old.jobs + 1 }
    ensures few { desk.new.next ≤ desk.old.next + 1 }
    ensures memo_room { memo.new.room ≡ memo.old.room }
    ensures memo_within { memo.new.kept ≤ memo.new.room }
    ensures no_answer { answers result ≡ 0 }
    ensures finished { count_done desk.new ≤ count_done desk.old + 1 }
{
    // That a memo keeps no more than it has room for is this call's clause.
    memo.len();
    // That no more than one record is finished rests on this law.
    desk.kept();
    if hand.len() <= i {
        return Reply::NoJob;
    }
    let job = hand.remove(i);
    let ticket = job.ticket();
    match desk.finish(job.solve(rays, memo)) {
        Ok(()) => Reply::Done(ticket),
        Err(_) => Reply::NoJob,
    }
}

/// Hands a job in hand back.
fn hand_back(desk: &mut Desk, hand: &mut Hand, i: usize) -> Reply
    ensures makes { (default : ℕ) → Makes default (step.HandBack i) result desk.old hand.old.jobs desk.new hand.new.jobs }
    ensures room { hand.new.room ≡ hand.old.room }
    ensures grows { length hand.new.jobs ≤ length hand.old.jobs + 1 }
    ensures few { desk.new.next ≤ desk.old.next + 1 }
    ensures no_answer { answers result ≡ 0 }
    ensures finished { count_done desk.new ≤ count_done desk.old }
{
    if hand.len() <= i {
        return Reply::NoJob;
    }
    let unsolved = hand.remove(i);
    let ticket = unsolved.ticket();
    match desk.hand_back(unsolved) {
        Ok(()) => Reply::Back(ticket),
        Err(_) => Reply::NoJob,
    }
}

/// Collects what is owed for a submitter's first pending record.
fn collect(desk: &mut Desk, places: &mut Vec<AnswerPlace>, s: usize) -> Reply
    requires { 0 < count_done desk.old → 0 < vec_len places.old }
    ensures makes { (default : ℕ) (jobs : List Task) → Makes default (step.Collect s) result desk.old jobs desk.new jobs }
    ensures few { desk.new.next ≤ desk.old.next + 1 }
    ensures left { vec_len places.new + answers result ≡ vec_len places.old }
    ensures finished { count_done desk.new + answers result ≤ count_done desk.old }
{
    match desk.collect(s) {
        Ok(found) => collected(found, places),
        Err(_) => Reply::NoSuchSubmitter,
    }
}

/// The reply that hands on what was found.
fn collected(found: Option<Delivery>, places: &mut Vec<AnswerPlace>) -> Reply
    requires { answers (found_reply found) ≤ vec_len places.old }
    ensures reply { result ≡ found_reply found }
    ensures left { vec_len places.new + answers result ≡ vec_len places.old }
{
    match found {
        Some(delivery) => delivered(delivery, places),
        None => Reply::Empty,
    }
}

/// The reply that hands a delivery on.
fn delivered(delivery: Delivery, places: &mut Vec<AnswerPlace>) -> Reply
    requires { answers (delivery_reply delivery) ≤ vec_len places.old }
    ensures reply { result ≡ delivery_reply delivery }
    ensures left { vec_len places.new + answers result ≡ vec_len places.old }
{
    match delivery {
        Delivery::Answer(answer) => Reply::Answer(hold(places, answer)),
        Delivery::Notice(ticket, _) => Reply::Notice(ticket),
    }
}

/// Withdraws a record.
fn withdraw(desk: &mut Desk, s: usize, n: u64) -> Reply
    ensures makes { (default : ℕ) (jobs : List Task) → Makes default (step.Withdraw s n) result desk.old jobs desk.new jobs }
    ensures few { desk.new.next ≤ desk.old.next + 1 }
    ensures no_answer { answers result ≡ 0 }
    ensures finished { count_done desk.new ≤ count_done desk.old }
{
    match desk.withdraw(s, n) {
        Ok(()) => Reply::Withdrawn,
        Err(refusal) => Reply::NotWithdrawn(refusal),
    }
}

/// Whether nothing is pending.
fn drained(desk: &Desk) -> Reply
    ensures makes { (default : ℕ) (jobs : List Task) → Makes default step.Drained result desk.now jobs desk.now jobs }
    ensures no_answer { answers result ≡ 0 }
{
    Reply::Drained(desk.is_drained())
}

/// Closes the desk.
fn close(desk: &mut Desk) -> Reply
    ensures makes { (default : ℕ) (jobs : List Task) → Makes default step.Close result desk.old jobs desk.new jobs }
    ensures few { desk.new.next ≤ desk.old.next + 1 }
    ensures no_answer { answers result ≡ 0 }
    ensures finished { count_done desk.new ≤ count_done desk.old }
{
    desk.close();
    Reply::Closed
}
