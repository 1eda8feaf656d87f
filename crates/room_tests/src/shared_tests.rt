//! Jobs put out on one thread and taken on two others.

use crate::serving_tests::{check_served, inputs_of};
use crate::test_rows::same;
use crate::test_scenes::{A, ANSWER_A};
use desk_room::Gate;
use mate_jobs::Ticket;
use std::sync::atomic::{AtomicU64, Ordering};

/// Counts the jobs that were taken, and adds up their tickets.
#[derive(Drop)]
struct CountsJobs {
    jobs: AtomicU64,
    tickets: AtomicU64,
}

impl Gate for CountsJobs {
    ghost use Rattle.std.specs.Prelude.{⊤};

    ghost answers = { λ _ _ _ _. ⊤ };

    fn pass(&self, _bench: usize, ticket: Ticket) -> bool {
        self.jobs.fetch_add(1, Ordering::SeqCst);
        self.tickets.fetch_add(ticket.0, Ordering::SeqCst);
        true
    }
}

#[test]
fn each_job_is_taken_once(rt: HostRuntime) {
    let alloc = rt.alloc();
    let gate = CountsJobs {
        jobs: AtomicU64::new(0),
        tickets: AtomicU64::new(0),
    };
    let inputs = inputs_of(&rt, alloc, 4, &[A; 250]);
    let reply: &[&str] = &[ANSWER_A; 250];
    let replies = [reply; 4];
    check_served(&rt, alloc, inputs.as_slice(), 2, &gate, &replies);
    // The sum of 0 to 999.
    let found = (
        gate.jobs.load(Ordering::SeqCst),
        gate.tickets.load(Ordering::SeqCst),
    );
    same(&rt, &"jobs and tickets", &found, &(1000, 499_500));
}
