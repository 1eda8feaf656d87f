//! The jobs in hand. Where one leaves, the one in the last place goes to its place, and no other is moved; the order of taking is a list
//! of the numbers of their places.

ghost use Rattle.std.specs.Prelude.{ℕ, ◌≡◌, ◌<◌, ◌+◌, ◌==◌, [], ◌∷◌, ◌++◌, length, remove, slice_index_or, count_by, IfOk};

use mate_jobs::Job;
use std::alloc::{AllocError, Global};
use std::marker::Model;

/// The jobs in hand, in places that are reserved, and the number of each one's place in the order of taking.
#[derive(Drop)]
pub(crate) struct Hand {
    jobs: Vec<Job>,
    order: Vec<usize>,
}

impl Model for Hand {
    ghost use Rattle.std.specs.Prelude.{◌≡◌, ◌≤◌, vec_len, vec_capacity};
    ghost use Rattle.mate_desk.specs.inside.HeldJobs.{HandValue, jobs_in, AreNamedOnce};

    ghost Value = { HandValue };

    ghost view = { λ h. record { jobs = jobs_in h.jobs.items h.order.items; room = vec_capacity h.jobs } };

    ghost invariant = { λ h. (vec_len h.order ≡ vec_len h.jobs) × (vec_capacity h.jobs ≤ vec_capacity h.order)
        × AreNamedOnce (vec_len h.jobs) h.order.items };
}

/// Where a place is named. It is sought from the end, where those stand that were taken last.
fn index_of(order: &[usize], place: usize) -> usize
    requires { 0 < count_by (λ n. n == place) order.now }
    ensures inside { result < length order.now }
    ensures named { (d : ℕ) → slice_index_or order.now result d ≡ place }
{
    let mut i = order.len();
    while i > 0 {
        i -= 1;
        if order[i] == place {
            return i;
        }
    }
    unreachable!()
}

impl Hand {
    /// A hand without jobs, with room for so many. Only a growth that is refused is an error.
    pub(crate) fn new(alloc: Global, room: usize) -> Result<Hand, AllocError>
        ensures jobs { IfOk result (λ hand. hand.jobs ≡ []) }
        ensures room { IfOk result (λ hand. hand.room ≡ room) }
    {
        let jobs = Vec::with_capacity(alloc, room)?;
        let order = Vec::with_capacity(alloc, room)?;
        Ok(Hand { jobs, order })
    }

    /// How many jobs are in hand.
    pub(crate) fn len(&self) -> usize
        ensures { result ≡ length self.now.jobs }
    {
        self.jobs.len()
    }

    /// Takes a job into the hand, behind the others.
    pub(crate) fn push(&mut self, job: Job)
        requires { length self.old.jobs < self.old.room }
        ensures jobs { self.new.jobs ≡ self.old.jobs ++ job ∷ [] }
        ensures room { self.new.room ≡ self.old.room }
    {
        self.order.push_reserved(self.jobs.len());
        self.jobs.push_reserved(job);
    }

    /// Takes a job out of the hand.
    pub(crate) fn remove(&mut self, i: usize) -> Job
        requires { i < length self.old.jobs }
        ensures value { result ≡ slice_index_or self.old.jobs i result }
        ensures jobs { self.new.jobs ≡ remove self.old.jobs i }
        ensures fewer { length self.new.jobs + 1 ≡ length self.old.jobs }
        ensures room { self.new.room ≡ self.old.room }
    {
        let place = self.order.remove(i);
        let last = self.jobs.len() - 1;
        if place == last {
            return self.jobs.swap_remove(place);
        }
        let moved = index_of(&self.order, last);
        self.order[moved] = place;
        self.jobs.swap_remove(place)
    }
}
