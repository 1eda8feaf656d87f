//! The benches of a room on one thread, and what they do, told with the replies.

use chess_moves::Rays;
use chess_notation::read_record;
use chess_problems::Bound;
use desk_room::{Back, Bench, Taken};
use mate_jobs::{Job, Ticket};
use mate_search::Memo;
use std::alloc::Global;
use std::fmt::Display;
use std::process::Abort;

/// What a call is answered, as a text.
pub(crate) fn told<D: Display + Drop>(rt: &impl Abort, alloc: Global, reply: D) -> String {
    String::format(alloc, reply).expect(rt, "memory")
}

/// The benches, and the jobs that they took and have yet to give back. A bench goes by its number, a job by its ticket.
#[derive(Drop)]
pub(crate) struct Crew {
    pub(crate) alloc: Global,
    benches: Vec<Bench>,
    jobs: Vec<Job>,
    memo: Memo,
    pub(crate) rays: Rays,
}

impl Crew {
    pub(crate) fn new(rt: &impl Abort, alloc: Global, benches: Vec<Bench>) -> Crew {
        Crew {
            alloc,
            benches,
            jobs: Vec::new(alloc),
            memo: Memo::new(alloc, 16).expect(rt, "memo"),
            rays: Rays::new(),
        }
    }

    pub(crate) fn take(&mut self, rt: &impl Abort, i: usize) -> String {
        let Some(bench) = self.benches.get_mut(i) else {
            panic!(rt; "no such bench");
        };
        match bench.take() {
            Taken::Job(job) => {
                let ticket = job.ticket().0;
                self.jobs.push(job).expect(rt, "memory");
                told(rt, self.alloc, format_args!("job {ticket}"))
            }
            Taken::Stop => told(rt, self.alloc, "stop"),
            Taken::Nothing => told(rt, self.alloc, "nothing"),
        }
    }

    pub(crate) fn solve(&mut self, rt: &impl Abort, i: usize, ticket: u64) -> String {
        let done = held(rt, &mut self.jobs, ticket).solve(&self.rays, &mut self.memo);
        self.give(rt, i, Back::Solved(done))
    }

    pub(crate) fn hand_back(&mut self, rt: &impl Abort, i: usize, ticket: u64) -> String {
        let job = held(rt, &mut self.jobs, ticket);
        self.give(rt, i, Back::Returned(job))
    }

    /// Gives back a job of this ticket that was not taken, and which asks what the line does.
    pub(crate) fn make_up(&mut self, rt: &impl Abort, i: usize, ticket: u64, line: &str) -> String {
        let default = Bound::new(3).expect(rt, "bound");
        let record = read_record(self.alloc, &self.rays, line.as_bytes(), default).expect(rt, line);
        let job = Job::new(Ticket(ticket), record.problem());
        self.give(rt, i, Back::Returned(job))
    }

    /// Drops the last bench.
    pub(crate) fn leave(&mut self, rt: &impl Abort) -> String {
        let left = self.benches.pop().is_some();
        told(rt, self.alloc, format_args!("left {left}"))
    }

    fn give(&mut self, rt: &impl Abort, i: usize, back: Back) -> String {
        let Some(bench) = self.benches.get_mut(i) else {
            panic!(rt; "no such bench");
        };
        match bench.back(back) {
            Ok(()) => told(rt, self.alloc, "ok"),
            Err(back) => refused(rt, self.alloc, &back),
        }
    }
}

/// The job of this ticket, which is taken out of those in hand.
fn held(rt: &impl Abort, jobs: &mut Vec<Job>, ticket: u64) -> Job {
    for i in 0..jobs.len() {
        if jobs[i].ticket().0 == ticket {
            return jobs.remove(i);
        }
    }
    panic!(rt; "no such job in hand")
}

fn refused(rt: &impl Abort, alloc: Global, back: &Back) -> String {
    match back {
        Back::Solved(done) => told(
            rt,
            alloc,
            format_args!("refused solved {}", done.ticket().0),
        ),
        Back::Returned(job) => told(
            rt,
            alloc,
            format_args!("refused returned {}", job.ticket().0),
        ),
    }
}
