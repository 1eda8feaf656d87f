//! What is done with a desk, and what it is answered.

ghost use Rattle.std.specs.Prelude.{◌≡◌, false, IfNone, IfSome};
ghost use Rattle.mate_desk.specs.Headline.{AnswersTruly, is_answer};

use crate::held_answers::HeldAnswer;
use crate::refusals::{SubmitRefusal, WithdrawRefusal};
use chess_notation::EpdFault;
use chess_problems::Outcome;
use mate_jobs::Ticket;
use mate_search::truth_reads;

/// What is done with a desk. Submitters are numbered from 0.
#[derive(Debug, PartialEq, Eq, Drop)]
pub enum Step {
    /// A submitter hands in the record that a line says.
    Submit(usize, Vec<u8>),
    /// The record that waits under the lowest ticket is taken, as a job in hand.
    Take,
    /// A job in hand is solved and finished. Jobs in hand stand in the order of taking, numbered from 0; where one leaves, the
    /// later ones close up.
    Finish(usize),
    /// A job in hand is handed back.
    HandBack(usize),
    /// A submitter collects what is owed for its first pending record.
    Collect(usize),
    /// A submitter withdraws its n-th accepted record, counted from 0.
    Withdraw(usize, u64),
    /// Whether nothing is pending, and so no job out.
    Drained,
    /// The desk is closed.
    Close,
}

/// What a step is answered.
#[derive(Drop)]
pub enum Reply {
    /// The record was accepted under this ticket.
    Ticket(Ticket),
    /// The record was not accepted.
    Refused(SubmitRefusal),
    /// The line says no record, or memory was refused for the one that it says.
    BadRecord(EpdFault),
    /// The job of this ticket was taken.
    Job(Ticket),
    /// Nothing waits.
    Nothing,
    /// The job of this ticket was finished.
    Done(Ticket),
    /// There is no job of that number in hand.
    NoJob,
    /// The job of this ticket was handed back.
    Back(Ticket),
    /// The answer to the first pending record.
    Answer(HeldAnswer),
    /// The first pending record was withdrawn; this was its ticket.
    Notice(Ticket),
    /// Nothing can be collected yet.
    Empty,
    /// There is no submitter of that number.
    NoSuchSubmitter,
    /// The record was withdrawn.
    Withdrawn,
    /// The record was not withdrawn.
    NotWithdrawn(WithdrawRefusal),
    /// Whether nothing is pending.
    Drained(bool),
    /// The desk is closed.
    Closed,
}

impl Reply {
    /// What is told in an answer, and that it is true: the least number of moves within the asked bound with a mate forced by a
    /// first move that is not to be avoided, exactly the keys, and the line of play; or that there is none. None where the reply
    /// is no answer.
    pub fn outcome(&self) -> Option<&Outcome>
        ensures true_answer { IfSome result (λ outcome. AnswersTruly self.now outcome.now) }
        ensures no_answer { IfNone result (is_answer self.now ≡ false) }
    {
        truth_reads();
        match self {
            Reply::Answer(held) => Some(held.answer().outcome()),
            _ => None,
        }
    }
}
