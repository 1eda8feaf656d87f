//! Jobs that a desk did not give out, and jobs that are given back twice.

use crate::row_tests::{A, ANSWER_A, B, desk_of, memo_of, record_of, same, submit};
use chess_moves::Rays;
use mate_desk::{Delivery, Desk};
use mate_jobs::{Done, Job, Ticket};
use std::alloc::Global;
use std::process::Abort;

/// The job of a line's record, the first of a new desk.
fn taken(rt: &impl Abort, alloc: Global, desk: &mut Desk, line: &str) -> Job {
    let ticket = submit(rt, alloc, desk, 0, line);
    same(rt, &line, &ticket, &Ok(Ticket(0)));
    desk.take().expect(rt, "take")
}

fn solved(rt: &impl Abort, alloc: Global, job: Job) -> Done {
    job.solve(&Rays::new(), &mut memo_of(rt, alloc))
}

/// Refuses where a desk takes back a job of ticket 0 that is a stranger, as it is or then solved, which it is afterwards.
fn check_stranger(rt: &impl Abort, alloc: Global, desk: &mut Desk, job: Job) -> Done {
    let (stranger, job) = desk.hand_back(job).expect_err(rt, "handed back");
    let found = (stranger.code(), job.ticket());
    same(rt, &"stranger", &found, &("Stranger", Ticket(0)));
    let (_, done) = desk
        .finish(solved(rt, alloc, job))
        .expect_err(rt, "finished");
    done
}

/// Refuses where a desk's only answer is not the one to A.
fn check_answer(rt: &impl Abort, alloc: Global, desk: &mut Desk) {
    match desk.collect(0) {
        Ok(Some(Delivery::Answer(answer))) => {
            let text = answer.text(alloc, &Rays::new()).expect(rt, "memory");
            same(rt, &"answer", &text.as_str(), &ANSWER_A);
        }
        _ => panic!(rt; "no answer"),
    }
    let none = desk.collect(0).expect(rt, "submitter");
    same(rt, &"none", &none.is_none(), &true);
    same(rt, &"drained", &desk.is_drained(), &true);
}

#[test]
fn strangers_are_handed_back(rt: HostRuntime) {
    let alloc = rt.alloc();
    let mut first = desk_of(&rt, alloc, 1, 1, 0);
    let mut second = desk_of(&rt, alloc, 1, 1, 0);
    let own = taken(&rt, alloc, &mut first, A);
    let other = taken(&rt, alloc, &mut second, B);
    let other = check_stranger(&rt, alloc, &mut first, other);
    let own = check_stranger(&rt, alloc, &mut second, own);
    same(&rt, &"own", &first.finish(own).is_ok(), &true);
    same(&rt, &"other", &second.finish(other).is_ok(), &true);
    // A job that nobody gave out.
    let late = Job::new(Ticket(0), record_of(&rt, alloc, A).problem());
    let _ = check_stranger(&rt, alloc, &mut first, late);
}

#[test]
fn an_equal_job_is_taken_once(rt: HostRuntime) {
    let alloc = rt.alloc();
    let mut first = desk_of(&rt, alloc, 1, 1, 0);
    let own = taken(&rt, alloc, &mut first, A);
    let equal = taken(&rt, alloc, &mut desk_of(&rt, alloc, 1, 1, 0), A);
    let finished = first.finish(solved(&rt, alloc, equal));
    same(&rt, &"an equal job", &finished.is_ok(), &true);
    let finished = first.finish(solved(&rt, alloc, own));
    same(&rt, &"its own job, once more", &finished.is_ok(), &false);
    check_answer(&rt, alloc, &mut first);
}
