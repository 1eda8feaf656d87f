//! A bench on a thread of its own.

use crate::test_manners::{Manner, Pace, is_third};
use chess_moves::Rays;
use chess_notation::{Record, read_record};
use chess_problems::Bound;
use desk_room::{Back, Bench, Taken};
use mate_jobs::Job;
use mate_search::Memo;
use std::alloc::Global;
use std::process::Abort;
use std::random::RandomSource;
use std::sync::Wait;

/// A line that no window sends.
const UNASKED: &str = "k7/8/8/8/8/8/8/K7 w - - dm 1;";

/// A bench at work.
#[derive(Drop)]
pub(crate) struct Solver {
    bench: Bench,
    manner: Manner,
    pace: Pace,
    memo: Memo,
    unasked: Record,
}

impl Solver {
    pub(crate) fn new<R: Abort + RandomSource>(
        rt: &R,
        alloc: Global,
        bench: Bench,
        manner: Manner,
    ) -> Solver {
        let default = Bound::new(3).expect(rt, "bound");
        let unasked = read_record(alloc, &Rays::new(), UNASKED.as_bytes(), default);
        Solver {
            bench,
            manner,
            pace: Pace::new(rt),
            memo: Memo::new(alloc, 16).expect(rt, "memo"),
            unasked: unasked.expect(rt, UNASKED),
        }
    }

    /// Gives it back once the ring has a place.
    fn give<R: Wait>(&mut self, rt: &R, back: Back) {
        let mut left = back;
        for _ in rt.forever() {
            match self.bench.back(left) {
                Ok(()) => return,
                Err(refused) => left = refused,
            }
            self.pace.go_on(rt);
        }
    }

    /// Gives the job back, solved or not; it is the one of this number that the bench took.
    fn give_back<R: Wait>(&mut self, rt: &R, rays: &Rays, job: Job, number: usize) {
        if self.manner == Manner::Returns && is_third(number) {
            return self.give(rt, Back::Returned(job));
        }
        if self.manner == Manner::MakesUp {
            let unasked = Job::new(job.ticket(), self.unasked.problem());
            let done = unasked.solve(rays, &mut self.memo);
            self.give(rt, Back::Solved(done));
        }
        let done = job.solve(rays, &mut self.memo);
        self.give(rt, Back::Solved(done));
    }

    /// Deals with what is ordered, up to the stop.
    pub(crate) fn work<R: Wait>(mut self, rt: &R) {
        let rays = Rays::new();
        let mut taken: usize = 0;
        for _ in rt.forever() {
            match self.bench.take() {
                Taken::Job(job) => {
                    self.give_back(rt, &rays, job, taken);
                    taken = taken.wrapping_add(1);
                }
                Taken::Stop => break,
                Taken::Nothing => {}
            }
            self.pace.go_on(rt);
        }
    }
}
