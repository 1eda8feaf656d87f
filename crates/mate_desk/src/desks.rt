//! The desk.

ghost use Rattle.std.specs.Prelude.{ℕ, ◌≡◌, ◌↔◌, ◌⊎◌, ◌<◌, ◌≤◌, ◌^◌, true, false, length, count_by, slice_get};
ghost use Rattle.std.specs.Prelude.{IfOk, IfErr, IfNone, IfSome, Some, None, Ok, Err, is_none, is_some};
ghost use Rattle.mate_desk.specs.Content.{entries, lowest, waits, waits_as, has_ticket, is_out_with, Waiting as waiting_phase};
ghost use Rattle.mate_desk.specs.Content.{Out as out, Finished as finished};
ghost use Rattle.mate_desk.specs.Calls.{empty, everywhere, into_phase, submit_refusal, after_submit, after_take};
ghost use Rattle.mate_desk.specs.Calls.{has_out, after_return, ready, after_collect, withdraw_refusal, after_withdraw};
ghost use Rattle.mate_desk.specs.Calls.{after_close, pending_of, is_drained as is_drained_content};
ghost use Rattle.mate_desk.specs.Deliveries.{delivery};
ghost use Rattle.mate_desk.specs.Laws.{AreKept};
ghost use Rattle.mate_desk.specs.Refusals.{AreServed, IsRoom};
ghost use Rattle.mate_desk.specs.declared.refusals.DeskFault.TheVariants as fault;

use crate::lookups::{first_waiting, place_out};
use crate::queues::Queue;
use crate::refusals::{DeskFault, NoSuchSubmitter, Stranger, SubmitRefusal, WithdrawRefusal};
use chess_notation::Record;
use mate_jobs::{Delivery, Done, Job, Ticket};
use std::alloc::Global;
use std::marker::Model;

/// A desk: records come in from submitters, go out to be solved, and what is owed for them goes back to each submitter in the
/// order in which it handed them in. Submitters are numbered from 0. Contracts see the desk's content.
#[derive(Drop)]
pub struct Desk {
    queues: Vec<Queue>,
    next: u64,
    closed: bool,
}

impl Model for Desk {
    ghost use Rattle.mate_desk.specs.Content.{Content};
    ghost use Rattle.mate_desk.specs.Laws.{AreKept};

    ghost Value = { Content };

    ghost view = { λ d. record { queues = d.queues.items; next = d.next; closed = d.closed } };

    ghost invariant = { λ d. AreKept d.next d.queues.items };
}

impl Desk {
    /// An empty desk for so many submitters, 1 to 16, each with room for so many pending records, 1 to 64. Tickets are numbered
    /// from `first`. All memory is taken here.
    pub fn new(alloc: Global, submitters: usize, room: usize, first: u64) -> Result<Desk, DeskFault>
        ensures ok { IfOk result (λ _. AreServed submitters × IsRoom room) }
        ensures empty { IfOk result (λ desk. desk ≡ empty submitters room first) }
        ensures bad_submitters { (result ≡ Err fault.BadSubmitters) ↔ ((submitters ≡ 0) ⊎ (16 < submitters)) }
        ensures bad_room { (result ≡ Err fault.BadRoom) ↔ (AreServed submitters × ((room ≡ 0) ⊎ (64 < room))) }
        ensures no_memory { result ≡ Err fault.NoMemory → AreServed submitters × IsRoom room }
    {
        if submitters == 0 || 16 < submitters {
            return Err(DeskFault::BadSubmitters);
        }
        if room == 0 || 64 < room {
            return Err(DeskFault::BadRoom);
        }
        let Ok(mut queues) = Vec::with_capacity(alloc, submitters) else {
            return Err(DeskFault::NoMemory);
        };
        for _ in 0..submitters {
            let Ok(queue) = Queue::new(alloc, room) else {
                return Err(DeskFault::NoMemory);
            };
            queues.push_reserved(queue);
        }
        Ok(Desk {
            queues,
            next: first,
            closed: false,
        })
    }

    /// Hands a record in for a submitter. It waits under the next ticket, or is handed back with why it is refused.
    pub fn submit(
        &mut self,
        submitter: usize,
        asked: Record,
    ) -> Result<Ticket, (SubmitRefusal, Record)>
        ensures accepted { IfOk result (λ _. submit_refusal self.old submitter ≡ None) }
        ensures ticket { IfOk result (λ ticket. ticket ≡ self.old.next) }
        ensures waits { IfOk result (λ _. self.new ≡ after_submit self.old submitter asked) }
        ensures refusal { IfErr result (λ e. submit_refusal self.old submitter ≡ Some e.0) }
        ensures handed_back { IfErr result (λ e. e.1 ≡ asked) }
        ensures unchanged { IfErr result (λ _. self.new ≡ self.old) }
    {
        if self.queues.len() <= submitter {
            return Err((SubmitRefusal::NoSuchSubmitter, asked));
        }
        if self.closed {
            return Err((SubmitRefusal::Closed, asked));
        }
        if self.queues[submitter].is_full() {
            return Err((SubmitRefusal::Full, asked));
        }
        if self.next == u64::MAX {
            return Err((SubmitRefusal::Exhausted, asked));
        }
        let ticket = Ticket(self.next);
        self.queues[submitter].push(ticket, asked);
        self.next += 1;
        Ok(ticket)
    }

    /// Gives the record out that waits under the lowest ticket, as a job; none where nothing waits.
    pub fn take(&mut self) -> Option<Job>
        ensures none { IfNone result (lowest (entries self.old) ≡ None) }
        ensures unchanged { IfNone result (self.new ≡ self.old) }
        ensures lowest { IfSome result (λ job. lowest (entries self.old) ≡ Some job.ticket) }
        ensures out { IfSome result (λ job. self.new ≡ after_take self.old job) }
        // The same change, told by the ticket alone: no other record has it.
        ensures by_ticket { IfSome result (λ job. self.new ≡ everywhere (into_phase (has_ticket job.ticket) out) self.old) }
        ensures one_waited { IfSome result (λ job. count_by (waits_as job) (entries self.old) ≡ 1) }
        ensures none_was_out { IfSome result (λ job. count_by (is_out_with job) (entries self.old) ≡ 0) }
        ensures given { IfSome result (λ job. has_out self.new job ≡ true) }
    {
        let s = first_waiting(&self.queues)?;
        self.queues[s].take()
    }

    /// Takes a solved job in: the record that is out with it is finished. Where none is out under that ticket with an equal
    /// problem, the job is a stranger and is handed back. What was solved of a withdrawn record is never delivered.
    pub fn finish(&mut self, done: Done) -> Result<(), (Stranger, Done)>
        ensures known { IfOk result (λ _. has_out self.old done ≡ true) }
        ensures finished { IfOk result (λ _. self.new ≡ after_return self.old done finished) }
        // The same change, told by the ticket alone: no other record has it.
        ensures by_ticket { IfOk result (λ _. self.new ≡ everywhere (into_phase (has_ticket done.ticket) finished) self.old) }
        ensures stranger { IfErr result (λ _. has_out self.old done ≡ false) }
        ensures handed_back { IfErr result (λ e. e.1 ≡ done) }
        ensures unchanged { IfErr result (λ _. self.new ≡ self.old) }
    {
        match place_out(&self.queues, done.ticket(), done.problem()) {
            Some((s, place)) => {
                self.queues[s].finish(place, done);
                Ok(())
            }
            None => Err((Stranger, done)),
        }
    }

    /// Takes a job back that was not solved: the record that is out with it waits again, unless it was withdrawn. Where none is
    /// out under that ticket with an equal problem, the job is a stranger and is handed back.
    pub fn hand_back(&mut self, job: Job) -> Result<(), (Stranger, Job)>
        ensures known { IfOk result (λ _. has_out self.old job ≡ true) }
        ensures back { IfOk result (λ _. self.new ≡ after_return self.old job waiting_phase) }
        // The same change, told by the ticket alone: no other record has it.
        ensures by_ticket { IfOk result (λ _. self.new ≡ everywhere (into_phase (has_ticket job.ticket) waiting_phase) self.old) }
        ensures stranger { IfErr result (λ _. has_out self.old job ≡ false) }
        ensures handed_back { IfErr result (λ e. e.1 ≡ job) }
        ensures unchanged { IfErr result (λ _. self.new ≡ self.old) }
    {
        match place_out(&self.queues, job.ticket(), job.problem()) {
            Some((s, place)) => {
                self.queues[s].hand_back(place, &job);
                Ok(())
            }
            None => Err((Stranger, job)),
        }
    }

    /// Withdraws the n-th accepted record of a submitter, counted from 0. It is never taken from now on, and its notice is
    /// collected in its place. It stays pending until then, and a job that is out stays out.
    pub fn withdraw(&mut self, submitter: usize, n: u64) -> Result<(), WithdrawRefusal>
        ensures accepted { IfOk result (λ _. withdraw_refusal self.old submitter n ≡ None) }
        ensures withdrawn { IfOk result (λ _. self.new ≡ after_withdraw self.old submitter n) }
        ensures refusal { IfErr result (λ e. withdraw_refusal self.old submitter n ≡ Some e) }
        ensures unchanged { IfErr result (λ _. self.new ≡ self.old) }
    {
        if self.queues.len() <= submitter {
            return Err(WithdrawRefusal::NoSuchSubmitter);
        }
        self.queues[submitter].withdraw(n)
    }

    /// What is owed for the first pending record of a submitter: its answer once it is finished, or its notice where it was
    /// withdrawn and its job is not out. None where there is neither.
    #[tactic(auto, using(crate::proofs::Steps::none_collected))]
    pub fn collect(&mut self, submitter: usize) -> Result<Option<Delivery>, NoSuchSubmitter>
        ensures known { IfOk result (λ _. submitter < length self.old.queues) }
        ensures delivery { IfOk result (λ found. found ≡ delivery (ready self.old submitter)) }
        ensures collected { IfOk result (λ _. self.new ≡ after_collect self.old submitter) }
        ensures unknown { IfErr result (λ _. length self.old.queues ≤ submitter) }
        ensures unchanged { IfErr result (λ _. self.new ≡ self.old) }
    {
        if self.queues.len() <= submitter {
            return Err(NoSuchSubmitter);
        }
        if !self.is_ready(submitter) {
            return Ok(None);
        }
        Ok(Some(self.deliver(submitter)))
    }

    /// Whether something is owed for the first pending record of a submitter, so that `collect` gives it.
    pub fn is_ready(&self, submitter: usize) -> bool
        ensures { result ≡ is_some (ready self.now submitter) }
    {
        submitter < self.queues.len() && self.queues[submitter].is_ready()
    }

    /// What is owed for the first pending record of a submitter that is ready: what `collect` gives. An answer is large, and here
    /// it is moved less often.
    pub fn deliver(&mut self, submitter: usize) -> Delivery
        requires { is_some (ready self.old submitter) ≡ true }
        ensures delivery { Some result ≡ delivery (ready self.old submitter) }
        ensures collected { self.new ≡ after_collect self.old submitter }
    {
        self.queues[submitter].deliver()
    }

    /// Closes the desk: nothing is accepted from now on. All else goes on.
    pub fn close(&mut self)
        ensures { self.new ≡ after_close self.old }
    {
        self.closed = true;
    }

    /// Whether the desk was closed.
    pub fn is_closed(&self) -> bool
        ensures { result ≡ self.now.closed }
    {
        self.closed
    }

    /// How many records of a submitter are pending.
    pub fn pending(&self, submitter: usize) -> Result<usize, NoSuchSubmitter>
        ensures pending { IfOk result (λ n. pending_of (slice_get self.now.queues submitter) ≡ Some n) }
        ensures unknown { IfErr result (λ _. length self.now.queues ≤ submitter) }
    {
        if self.queues.len() <= submitter {
            return Err(NoSuchSubmitter);
        }
        Ok(self.queues[submitter].len())
    }

    /// How many records wait to be taken.
    pub fn waiting(&self) -> usize
        ensures { result ≡ count_by waits (entries self.now) }
    {
        let mut waiting = 0;
        for queue in &self.queues {
            waiting += queue.waiting();
        }
        waiting
    }

    /// Whether nothing is pending, and so no job out.
    pub fn is_drained(&self) -> bool
        ensures { result ≡ is_drained_content self.now }
    {
        self.queues.iter().all(|queue| queue.len() == 0)
    }

    /// Whether a record of that submitter would be accepted.
    pub fn accepts(&self, submitter: usize) -> bool
        ensures { result ≡ is_none (submit_refusal self.now submitter) }
    {
        submitter < self.queues.len()
            && !self.closed
            && !self.queues[submitter].is_full()
            && self.next != u64::MAX
    }

    /// The pending records of a desk have distinct tickets, which rise for each submitter, and no submitter has more pending than
    /// there is room for; the next ticket is 2^64 - 1 at most. It does nothing: its contract is the law.
    pub fn kept(&self)
        ensures kept { AreKept self.now.next self.now.queues }
        ensures next { self.now.next < 2 ^ 64 }
    {
        // A part of the desk is read, so that the proof knows what its type keeps.
        let _next = self.next;
    }
}
