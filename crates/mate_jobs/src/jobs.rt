//! A problem on its way: a job to be solved, what was solved, and the answer to who asked.

ghost use Rattle.std.specs.Prelude.{◌≡◌, ◌≤◌, IfOk, string_bytes};
ghost use Rattle.chess_notation.specs.Answers.{answer_text as answer_text_of};
ghost use Rattle.mate_search.specs.inside.Truth.{truth};
ghost use Rattle.chess_notation.specs.Records.{problem_of};
ghost use Rattle.mate_jobs.specs.Jobs.{answer_to};

use crate::tickets::Ticket;
use chess_moves::Rays;
use chess_notation::{NoMemory, Record, answer_text};
use chess_problems::{Outcome, Problem};
use mate_search::{Memo, solve, truth_playable};
use std::alloc::Global;
use std::marker::Model;

/// A problem to be solved, under its ticket. It can't be cloned, and solving it uses it up, so that nothing is solved or
/// handed back twice.
#[derive(Drop)]
pub struct Job {
    ticket: Ticket,
    problem: Problem,
}

impl Model for Job {
    ghost use Rattle.mate_jobs.specs.Jobs.{Task};

    ghost Value = { Task };

    ghost view = { λ j. record { ticket = j.ticket; problem = j.problem } };
}

impl Job {
    /// A job of that ticket and problem.
    pub fn new(ticket: Ticket, problem: Problem) -> Job
        ensures { result ≡ record { ticket = ticket; problem = problem } }
    {
        Job { ticket, problem }
    }

    /// Its ticket.
    pub fn ticket(&self) -> Ticket
        ensures { result ≡ self.now.ticket }
    {
        self.ticket
    }

    /// Its problem.
    pub fn problem(&self) -> &Problem
        ensures { result.now ≡ self.now.problem }
    {
        &self.problem
    }

    /// Solves its problem. It never fails.
    pub fn solve(self, rays: &Rays, memo: &mut Memo) -> Done
        ensures job { result ≡ self }
        ensures room { memo.new.room ≡ memo.old.room }
        ensures within { memo.new.kept ≤ memo.new.room }
    {
        let outcome = solve(rays, &self.problem, memo);
        Done {
            ticket: self.ticket,
            problem: self.problem,
            outcome,
        }
    }
}

/// A job that was solved. Its type keeps that the outcome is the right one of its problem, so contracts see the job alone.
#[derive(Drop)]
pub struct Done {
    ticket: Ticket,
    problem: Problem,
    outcome: Outcome,
}

impl Model for Done {
    ghost use Rattle.std.specs.Prelude.{◌≡◌};
    ghost use Rattle.mate_jobs.specs.Jobs.{Task};
    ghost use Rattle.mate_search.specs.inside.Truth.{truth};

    ghost Value = { Task };

    ghost view = { λ d. record { ticket = d.ticket; problem = d.problem } };

    ghost invariant = { λ d. d.outcome ≡ truth d.problem };
}

impl Done {
    /// The ticket of the job.
    pub fn ticket(&self) -> Ticket
        ensures { result ≡ self.now.ticket }
    {
        self.ticket
    }

    /// The problem of the job.
    pub fn problem(&self) -> &Problem
        ensures { result.now ≡ self.now.problem }
    {
        &self.problem
    }

    /// The outcome that is right for the problem.
    pub fn outcome(&self) -> &Outcome
        ensures { result.now ≡ truth self.now.problem }
    {
        &self.outcome
    }

    /// The answer to a record that asked this problem.
    pub fn into_answer(self, asked: Record) -> Answer
        requires { problem_of asked ≡ self.problem }
        ensures { result ≡ answer_to asked }
    {
        Answer {
            asked,
            outcome: self.outcome,
        }
    }
}

/// A record with its outcome. Its type keeps that the outcome is the right one of the problem that the record asks.
#[derive(Drop)]
pub struct Answer {
    asked: Record,
    outcome: Outcome,
}

impl Model for Answer {
    ghost use Rattle.std.specs.Prelude.{◌≡◌};
    ghost use Rattle.chess_notation.specs.Records.{problem_of};
    ghost use Rattle.mate_jobs.specs.Jobs.{AnswerValue};
    ghost use Rattle.mate_search.specs.inside.Truth.{truth};

    ghost Value = { AnswerValue };

    ghost view = { λ a. record { asked = a.asked; outcome = a.outcome } };

    ghost invariant = { λ a. a.outcome ≡ truth (problem_of a.asked) };
}

impl Answer {
    /// The record that was asked.
    pub fn asked(&self) -> &Record
        ensures { result.now ≡ self.now.asked }
    {
        &self.asked
    }

    /// The outcome that is right for the record's problem.
    pub fn outcome(&self) -> &Outcome
        ensures told { result.now ≡ self.now.outcome }
        ensures right { result.now ≡ truth (problem_of self.now.asked) }
    {
        &self.outcome
    }

    /// The record and its outcome as a line of EPD. Only a growth that is refused is an error.
    pub fn text(&self, alloc: Global, rays: &Rays) -> Result<String, NoMemory>
        ensures { IfOk result (λ text. string_bytes text ≡ answer_text_of self.now.asked (truth (problem_of self.now.asked))) }
    {
        // That the outcome's moves can be played is this law.
        truth_playable();
        answer_text(alloc, rays, &self.asked, &self.outcome)
    }
}
