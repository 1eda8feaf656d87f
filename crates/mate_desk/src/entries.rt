//! A pending record.

ghost use Rattle.std.specs.Prelude.{◌≡◌, true, false, not, ◌&&◌};
ghost use Rattle.chess_notation.specs.Records.{problem_of};
ghost use Rattle.mate_desk.specs.Content.{waits, is_ready, is_finished, is_out_with, has_task, Waiting as waiting, Out as out, Finished as finished};
ghost use Rattle.mate_desk.specs.Calls.{withdrawn as withdrawn_entry};
ghost use Rattle.mate_desk.specs.inside.Keeping.{task_of};
ghost use Rattle.mate_jobs.specs.Jobs.{answer_to};
ghost use Rattle.mate_jobs.specs.declared.deliveries.Delivery.TheVariants.{Answer, Notice};

use chess_notation::Record;
use chess_problems::{Problem, same_problem_reads};
use mate_jobs::{Delivery, Done, Job, Ticket, asks};
use std::marker::Model;

/// How far a record came.
#[derive(Clone, Copy, Drop)]
enum Standing {
    Waiting,
    Out,
    Finished,
}

/// A pending record under its ticket. What was solved of it lies apart, since that is large.
#[derive(Drop)]
pub(crate) struct Entry {
    ticket: Ticket,
    asked: Record,
    standing: Standing,
    withdrawn: bool,
}

impl Model for Entry {
    ghost use Rattle.mate_desk.specs.Content.{EntryValue};
    ghost use Rattle.mate_desk.specs.inside.Keeping.{phase_of};

    ghost Value = { EntryValue };

    ghost view = { λ e. record { ticket = e.ticket; asked = e.asked; phase = phase_of e.standing; withdrawn = e.withdrawn } };
}

impl Entry {
    /// A record that waits.
    pub(crate) fn new(ticket: Ticket, asked: Record) -> Entry
        ensures { result ≡ record { ticket = ticket; asked = asked; phase = waiting; withdrawn = false } }
    {
        Entry {
            ticket,
            asked,
            standing: Standing::Waiting,
            withdrawn: false,
        }
    }

    /// Its ticket.
    pub(crate) fn ticket(&self) -> Ticket
        ensures { result ≡ self.now.ticket }
    {
        self.ticket
    }

    /// Whether it was withdrawn.
    pub(crate) fn is_withdrawn(&self) -> bool
        ensures { result ≡ self.now.withdrawn }
    {
        self.withdrawn
    }

    /// Whether it may be collected.
    pub(crate) fn is_ready(&self) -> bool
        ensures { result ≡ is_ready self.now }
    {
        match self.standing {
            Standing::Waiting => self.withdrawn,
            Standing::Out => false,
            Standing::Finished => true,
        }
    }

    /// Whether it was solved.
    pub(crate) fn is_finished(&self) -> bool
        ensures { result ≡ is_finished self.now.phase }
    {
        match self.standing {
            Standing::Waiting => false,
            Standing::Out => false,
            Standing::Finished => true,
        }
    }

    /// Whether it has that ticket and asks that problem.
    fn is_of(&self, ticket: Ticket, problem: &Problem) -> bool
        ensures exact { result ≡ has_task (record { ticket = ticket; problem = problem.now }) self.now }
        ensures same { result ≡ true → problem_of self.now.asked ≡ problem.now }
    {
        self.ticket == ticket && asks(&self.asked, problem)
    }

    /// The job that it is given out as is its own. It does nothing: its contract is the law, which is one of sound positions.
    pub(crate) fn has_own_task(&self)
        ensures { has_task (task_of self.now) self.now ≡ true }
    {
        same_problem_reads();
        self.asked.position.side();
    }

    /// Whether it is out with a job of that ticket and problem.
    pub(crate) fn is_out_with(&self, ticket: Ticket, problem: &Problem) -> bool
        ensures exact { result ≡ is_out_with (record { ticket = ticket; problem = problem.now }) self.now }
        ensures same { result ≡ true → problem_of self.now.asked ≡ problem.now }
    {
        match self.standing {
            Standing::Out => self.is_of(ticket, problem),
            _ => false,
        }
    }

    /// Gives its problem out.
    pub(crate) fn take(&mut self) -> Job
        ensures job { result ≡ record { ticket = self.old.ticket; problem = problem_of self.old.asked } }
        ensures task { has_task result self.old ≡ true }
        ensures out { self.new ≡ record { ticket = self.old.ticket; asked = self.old.asked; phase = out; withdrawn = self.old.withdrawn } }
    {
        // That a job is out with its own problem rests on this law, which is one of sound positions.
        same_problem_reads();
        let problem = self.asked.problem();
        problem.position.side();
        self.standing = Standing::Out;
        Job::new(self.ticket, problem)
    }

    /// It was solved.
    pub(crate) fn finish(&mut self)
        ensures { self.new ≡ record { ticket = self.old.ticket; asked = self.old.asked; phase = finished; withdrawn = self.old.withdrawn } }
    {
        self.standing = Standing::Finished;
    }

    /// It is out no more, and nothing was solved.
    pub(crate) fn hand_back(&mut self)
        ensures { self.new ≡ record { ticket = self.old.ticket; asked = self.old.asked; phase = waiting; withdrawn = self.old.withdrawn } }
    {
        self.standing = Standing::Waiting;
    }

    /// It is withdrawn.
    pub(crate) fn withdraw(&mut self)
        ensures { self.new ≡ withdrawn_entry self.old }
    {
        self.withdrawn = true;
    }

    /// Whether what was solved is of it.
    #[tactic(auto, using(crate::proofs::OwnJobs::own_job))]
    pub(crate) fn is_solved_by(&self, done: &Done) -> bool
        ensures exact { result ≡ has_task done.now self.now }
        ensures same { result ≡ true → done.now ≡ task_of self.now }
    {
        self.is_of(done.ticket(), done.problem())
    }

    /// The notice that it was withdrawn.
    pub(crate) fn into_notice(self) -> Delivery
        ensures { result ≡ Notice self.ticket self.asked }
    {
        Delivery::Notice(self.ticket, self.asked)
    }

    /// The answer to it, of what was solved.
    pub(crate) fn into_answer(self, done: Done) -> Delivery
        requires { problem_of self.asked ≡ done.problem }
        ensures { result ≡ Answer (answer_to self.asked) }
    {
        Delivery::Answer(done.into_answer(self.asked))
    }
}
