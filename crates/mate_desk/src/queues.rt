//! What one submitter has pending.

ghost use Rattle.std.specs.Prelude.{◌≡◌, ◌+◌, ◌<◌, ◌≤◌, ◌^◌, [], ◌∷◌, true, false, length, nat_le, count_by};
ghost use Rattle.std.specs.Prelude.{Some, None, is_some, IfOk, IfErr, IfNone, IfSome};
ghost use Rattle.std.specs.List.{list_any};
ghost use Rattle.std.specs.VecDeque.{deque_capacity};
ghost use Rattle.mate_desk.specs.Content.{EntryValue, lowest, waits, waits_as, has_ticket, is_out_with};
ghost use Rattle.mate_desk.specs.Content.{Waiting as waiting_phase, Out as out, Finished as finished};
ghost use Rattle.mate_desk.specs.Calls.{in_queue, into_phase, with_entry, ready_first, collected, withdraw_refusal_of, withdrawn_at};
ghost use Rattle.mate_desk.specs.Deliveries.{delivery};
ghost use Rattle.mate_desk.specs.Laws.{AreBelow};
ghost use Rattle.mate_desk.specs.inside.Keeping.{IsOutAt};

use crate::entries::Entry;
use crate::place_bits::{first_place, lower_places, with_place, without_place};
use crate::refusals::WithdrawRefusal;
use crate::solved::take_solved;
use chess_notation::Record;
use chess_problems::Problem;
use mate_jobs::{Delivery, Done, Job, Ticket};
use std::alloc::{AllocError, Global};
use std::collections::VecDeque;
use std::marker::Model;

/// The pending records of one submitter, in order of acceptance and so by rising tickets, and apart from them what was solved, in
/// any order. Places for both are reserved. A word has the places of the records that wait, so that the first of them is found at
/// once.
#[derive(Drop)]
pub(crate) struct Queue {
    entries: VecDeque<Entry>,
    solved: Vec<Done>,
    room: usize,
    delivered: u64,
    waiting: u64,
}

impl Model for Queue {
    ghost use Rattle.std.specs.Prelude.{◌≤◌, ◌<◌, ◌+◌, ◌^◌, length, vec_capacity};
    ghost use Rattle.std.specs.VecDeque.{deque_capacity};
    ghost use Rattle.mate_desk.specs.Content.{QueueValue};
    ghost use Rattle.mate_desk.specs.Laws.{Rises};
    ghost use Rattle.mate_desk.specs.inside.Keeping.{Marks, AreSolved};

    ghost Value = { QueueValue };

    ghost view = { λ q. record { room = q.room; delivered = q.delivered; pending = q.entries.items } };

    ghost invariant = { λ q. (q.room ≤ deque_capacity q.entries) × (q.room ≤ 64) × (length q.entries.items ≤ q.room)
        × (q.delivered + length q.entries.items < 2 ^ 64) × Rises 0 q.entries.items × Marks q.waiting q.entries.items
        × (q.room ≤ vec_capacity q.solved) × AreSolved q.solved.items q.entries.items };
}

/// The first record, which leaves.
fn leave(entries: &mut VecDeque<Entry>) -> Entry
    requires { 0 < length entries.old.items }
    ensures entries { entries.old.items ≡ result ∷ entries.new.items }
    ensures capacity { deque_capacity entries.new ≡ deque_capacity entries.old }
{
    match entries.pop_front() {
        Some(entry) => entry,
        None => unreachable!(),
    }
}

impl Queue {
    /// An empty queue of so many places.
    pub(crate) fn new(alloc: Global, room: usize) -> Result<Queue, AllocError>
        requires { room ≤ 64 }
        ensures { IfOk result (λ q. q ≡ record { room = room; delivered = 0; pending = [] }) }
    {
        let entries = VecDeque::with_capacity(alloc, room)?;
        let solved = Vec::with_capacity(alloc, room)?;
        Ok(Queue {
            entries,
            solved,
            room,
            delivered: 0,
            waiting: 0,
        })
    }

    /// How many records are pending.
    pub(crate) fn len(&self) -> usize
        ensures { result ≡ length self.now.pending }
    {
        self.entries.len()
    }

    /// Whether no more may be pending.
    pub(crate) fn is_full(&self) -> bool
        ensures { result ≡ nat_le self.now.room (length self.now.pending) }
    {
        self.room <= self.entries.len()
    }

    /// How many records wait.
    pub(crate) fn waiting(&self) -> usize
        ensures waiting { result ≡ count_by waits self.now.pending }
        ensures few { result ≤ 64 }
    {
        self.waiting.count_ones() as usize
    }

    /// A record more, which waits.
    pub(crate) fn push(&mut self, ticket: Ticket, asked: Record)
        requires room { length self.old.pending < self.old.room }
        requires rises { AreBelow ticket self.old.pending }
        requires few { self.old.delivered + length self.old.pending + 1 < 2 ^ 64 }
        ensures { self.new ≡ with_entry ticket asked self.old }
    {
        self.waiting = with_place(self.waiting, self.entries.len());
        self.entries.push_back_reserved(Entry::new(ticket, asked));
    }

    /// The lowest ticket that waits.
    pub(crate) fn lowest(&self) -> Option<u64>
        ensures { result ≡ lowest self.now.pending }
    {
        let place = first_place(self.waiting)?;
        Some(self.entries[place].ticket().0)
    }

    /// Gives the record out that waits under the lowest ticket.
    pub(crate) fn take(&mut self) -> Option<Job>
        ensures none { IfNone result ((lowest self.old.pending ≡ None) × (self.new ≡ self.old)) }
        ensures lowest { IfSome result (λ job. lowest self.old.pending ≡ Some job.ticket) }
        ensures out { IfSome result (λ job. self.new ≡ in_queue (into_phase (waits_as job) out) self.old) }
        ensures by_ticket { IfSome result (λ job. self.new ≡ in_queue (into_phase (has_ticket job.ticket) out) self.old) }
        ensures waited { IfSome result (λ job. list_any (waits_as job) self.old.pending ≡ true) }
        ensures given { IfSome result (λ job. list_any (is_out_with job) self.new.pending ≡ true) }
    {
        let place = first_place(self.waiting)?;
        self.waiting = without_place(self.waiting, place);
        Some(self.entries[place].take())
    }

    /// Where a record is out with a job of that ticket and problem. As tickets rise, its place is found by halving.
    pub(crate) fn place_out(&self, ticket: Ticket, problem: &Problem) -> Option<usize>
        ensures none { IfNone result (list_any (is_out_with (record { ticket = ticket; problem = problem.now })) self.now.pending ≡ false) }
        ensures some { IfSome result (λ place. IsOutAt (record { ticket = ticket; problem = problem.now }) place self.now.pending) }
    {
        let place = self
            .entries
            .partition_point(|entry| entry.ticket().0 < ticket.0);
        if place < self.entries.len() && self.entries[place].is_out_with(ticket, problem) {
            return Some(place);
        }
        None
    }

    /// Takes in what was solved of the record at a place, which is out with that job.
    pub(crate) fn finish(&mut self, place: usize, done: Done)
        requires { IsOutAt done place self.old.pending }
        ensures finished { self.new ≡ in_queue (into_phase (is_out_with done) finished) self.old }
        ensures by_ticket { self.new ≡ in_queue (into_phase (has_ticket done.ticket) finished) self.old }
    {
        self.entries[place].finish();
        self.solved.push_reserved(done);
    }

    /// Takes the job back with which the record at a place is out. It waits again, unless it was withdrawn.
    pub(crate) fn hand_back(&mut self, place: usize, job: &Job)
        requires { IsOutAt job.now place self.old.pending }
        ensures back { self.new ≡ in_queue (into_phase (is_out_with job.now) waiting_phase) self.old }
        ensures by_ticket { self.new ≡ in_queue (into_phase (has_ticket job.now.ticket) waiting_phase) self.old }
    {
        self.entries[place].hand_back();
        if self.entries[place].is_withdrawn() {
            return;
        }
        self.waiting = with_place(self.waiting, place);
    }

    /// Withdraws the n-th record that was accepted, counted from 0.
    pub(crate) fn withdraw(&mut self, n: u64) -> Result<(), WithdrawRefusal>
        ensures accepted { IfOk result (λ _. withdraw_refusal_of (Some self.old) n ≡ None) }
        ensures withdrawn { IfOk result (λ _. self.new ≡ withdrawn_at n self.old) }
        ensures refusal { IfErr result (λ e. withdraw_refusal_of (Some self.old) n ≡ Some e) }
        ensures unchanged { IfErr result (λ _. self.new ≡ self.old) }
    {
        if self.delivered + self.entries.len() as u64 <= n {
            return Err(WithdrawRefusal::NotAccepted);
        }
        if n < self.delivered {
            return Err(WithdrawRefusal::Delivered);
        }
        let place = (n - self.delivered) as usize;
        if self.entries[place].is_withdrawn() {
            return Err(WithdrawRefusal::Withdrawn);
        }
        self.entries[place].withdraw();
        self.waiting = without_place(self.waiting, place);
        Ok(())
    }

    /// Whether the first record may be collected.
    pub(crate) fn is_ready(&self) -> bool
        ensures { result ≡ is_some (ready_first self.now.pending) }
    {
        match self.entries.front() {
            Some(entry) => entry.is_ready(),
            None => false,
        }
    }

    /// The answer or notice of the first record, which may be collected.
    pub(crate) fn deliver(&mut self) -> Delivery
        requires { is_some (ready_first self.old.pending) ≡ true }
        ensures delivery { Some result ≡ delivery (ready_first self.old.pending) }
        ensures content { self.new ≡ collected self.old }
    {
        self.delivered += 1;
        self.waiting = lower_places(self.waiting);
        let first = &self.entries[0];
        if !first.is_finished() {
            return leave(&mut self.entries).into_notice();
        }
        // All else is done before the record is moved: an answer is large, and so it is moved straight to who collects it.
        let is_withdrawn = first.is_withdrawn();
        let done = take_solved(first, &mut self.solved);
        if is_withdrawn {
            return leave(&mut self.entries).into_notice();
        }
        leave(&mut self.entries).into_answer(done)
    }
}
