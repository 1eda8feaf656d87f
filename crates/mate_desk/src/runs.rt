//! Runs: a list of steps at a new desk, and the reply to each.

ghost use Rattle.std.specs.Prelude.{◌≡◌, ◌⊎◌, ◌↔◌, ◌*◌, ◌<◌, ◌≤◌, [], length, min, count_by, vec_len, vec_capacity, Some};
ghost use Rattle.std.specs.Prelude.{IfOk, IfErr, Err};
ghost use Rattle.mate_desk.specs.Calls.{empty};
ghost use Rattle.mate_desk.specs.Refusals.{AreServed, IsRoom};
ghost use Rattle.mate_desk.specs.History.{past};
ghost use Rattle.mate_desk.specs.Replies.{AreReplies};
ghost use Rattle.mate_desk.specs.Headline.{AfterEachPrefix, DeliversInOrder, GivesNoticeOfWithdrawn, DeliversAllOnceDrained};
ghost use Rattle.mate_desk.specs.Headline.{AcceptsNoneAfterClose, AnswersAreTrue};
ghost use Rattle.mate_desk.specs.RunFaults.{run_fault_name};
ghost use Rattle.mate_desk.specs.inside.Stepping.{collects, finishes};
ghost use Rattle.mate_desk.specs.declared.runs.RunFault.TheVariants as fault;

use crate::desks::Desk;
use crate::held_answers::{AnswerPlace, new_places};
use crate::held_jobs::Hand;
use crate::refusals::DeskFault;
use crate::stepping::{Reader, make};
use crate::steps_and_replies::{Reply, Step};
use chess_moves::Rays;
use chess_problems::Bound;
use mate_search::{Memo, truth_reads};
use std::alloc::Global;
use std::fmt;
use thiserror::Error;

/// Why no step was made.
#[derive(Clone, Copy, Debug, PartialEq, Eq, Error)]
pub enum RunFault {
    /// The number of submitters is not one of 1 to 16.
    BadSubmitters,
    /// The room of a submitter is not one of 1 to 64 records.
    BadRoom,
    /// Memory was refused.
    NoMemory,
}

impl RunFault {
    /// The fault's name.
    pub fn code(&self) -> &'static str
        ensures { result.now ≡ run_fault_name self.now }
    {
        match self {
            RunFault::BadSubmitters => "BadSubmitters",
            RunFault::BadRoom => "BadRoom",
            RunFault::NoMemory => "NoMemory",
        }
    }
}

impl fmt::Display for RunFault {
    ghost output = { λ fault. Some (run_fault_name fault) };

    fn fmt<W: fmt::Write>(&self, f: &mut fmt::Formatter<W>) -> fmt::Result {
        f.write_str(self.code())
    }
}

/// How many of the steps collect.
fn collecting(steps: &[Step]) -> usize
    ensures { result ≡ count_by collects steps.now }
{
    steps
        .iter()
        .filter(|step| matches!(step, Step::Collect(_)))
        .count()
}

/// How many of the steps finish a job.
fn finishing(steps: &[Step]) -> usize
    ensures { result ≡ count_by finishes steps.now }
{
    steps
        .iter()
        .filter(|step| matches!(step, Step::Finish(_)))
        .count()
}

/// There are no more answers than steps that collect, nor than steps that finish a job.
fn most_answers(steps: &[Step]) -> usize
    ensures { result ≡ min (count_by collects steps.now) (count_by finishes steps.now) }
{
    collecting(steps).min(finishing(steps))
}

/// What a run holds.
#[derive(Drop)]
struct Held {
    desk: Desk,
    replies: Vec<Reply>,
    hand: Hand,
    places: Vec<AnswerPlace>,
}

/// A new desk, or why a run has none.
fn new_desk(alloc: Global, submitters: usize, room: usize) -> Result<Desk, RunFault>
    ensures ok { IfOk result (λ _. AreServed submitters × IsRoom room) }
    ensures empty { IfOk result (λ desk. desk ≡ empty submitters room 0) }
    ensures bad_submitters { (result ≡ Err fault.BadSubmitters) ↔ ((submitters ≡ 0) ⊎ (16 < submitters)) }
    ensures bad_room { (result ≡ Err fault.BadRoom) ↔ (AreServed submitters × ((room ≡ 0) ⊎ (64 < room))) }
    ensures no_memory { result ≡ Err fault.NoMemory → AreServed submitters × IsRoom room }
{
    match Desk::new(alloc, submitters, room, 0) {
        Ok(desk) => Ok(desk),
        Err(DeskFault::BadSubmitters) => Err(RunFault::BadSubmitters),
        Err(DeskFault::BadRoom) => Err(RunFault::BadRoom),
        Err(DeskFault::NoMemory) => Err(RunFault::NoMemory),
    }
}

/// Takes all that a run holds.
fn hold_all(alloc: Global, submitters: usize, room: usize, steps: &[Step]) -> Result<Held, RunFault>
    ensures empty { IfOk result (λ held. held.desk ≡ empty submitters room 0) }
    ensures no_replies { IfOk result (λ held. held.replies.items ≡ []) }
    ensures for_replies { IfOk result (λ held. length steps.now ≤ vec_capacity held.replies) }
    ensures no_jobs { IfOk result (λ held. held.hand.jobs ≡ []) }
    ensures for_jobs { IfOk result (λ held. held.hand.room ≡ min (length steps.now) (submitters * room)) }
    ensures for_answers { IfOk result (λ held. vec_len held.places ≡ min (count_by collects steps.now) (count_by finishes steps.now)) }
    ensures ok { IfOk result (λ _. AreServed submitters × IsRoom room) }
    ensures bad_submitters { (result ≡ Err fault.BadSubmitters) ↔ ((submitters ≡ 0) ⊎ (16 < submitters)) }
    ensures bad_room { (result ≡ Err fault.BadRoom) ↔ (AreServed submitters × ((room ≡ 0) ⊎ (64 < room))) }
    ensures no_memory { result ≡ Err fault.NoMemory → AreServed submitters × IsRoom room }
{
    let desk = new_desk(alloc, submitters, room)?;
    let Ok(replies) = Vec::with_capacity(alloc, steps.len()) else {
        return Err(RunFault::NoMemory);
    };
    let Ok(hand) = Hand::new(alloc, steps.len().min(submitters * room)) else {
        return Err(RunFault::NoMemory);
    };
    let Ok(places) = new_places(alloc, most_answers(steps)) else {
        return Err(RunFault::NoMemory);
    };
    Ok(Held {
        desk,
        replies,
        hand,
        places,
    })
}

/// Makes every step in turn at a new desk of so many submitters, 1 to 16, each with room for so many pending records, 1 to 64, and
/// gives the reply to each. Lines without `dm` are read with the default bound. Room for all replies, for all answers among them and
/// for all jobs in hand is taken before the first step; later a line for which memory is refused is a reply, and the other steps go on.
pub fn run(
    alloc: Global,
    rays: &Rays,
    submitters: usize,
    room: usize,
    default: Bound,
    steps: &[Step],
    memo: &mut Memo,
) -> Result<Vec<Reply>, RunFault>
    ensures one_for_each_step { IfOk result (λ replies. length replies.items ≡ length steps.now) }
    ensures fixed_by_the_past { IfOk result (λ replies. AreReplies submitters room default (past steps.now replies.items)) }
    ensures in_order_and_each_once { IfOk result (λ replies. AfterEachPrefix (DeliversInOrder default) steps.now replies.items) }
    ensures notices_for_the_withdrawn { IfOk result (λ replies. AfterEachPrefix GivesNoticeOfWithdrawn steps.now replies.items) }
    ensures all_once_drained { IfOk result (λ replies. AfterEachPrefix (DeliversAllOnceDrained submitters) steps.now replies.items) }
    ensures nothing_after_close { IfOk result (λ replies. AcceptsNoneAfterClose (past steps.now replies.items)) }
    ensures true_answers { IfOk result (λ replies. AnswersAreTrue replies.items) }
    ensures ok { IfOk result (λ _. AreServed submitters × IsRoom room) }
    ensures bad_submitters { (result ≡ Err fault.BadSubmitters) ↔ ((submitters ≡ 0) ⊎ (16 < submitters)) }
    ensures bad_room { (result ≡ Err fault.BadRoom) ↔ (AreServed submitters × ((room ≡ 0) ⊎ (64 < room))) }
    ensures no_memory { result ≡ Err fault.NoMemory → AreServed submitters × IsRoom room }
    ensures no_step { IfErr result (λ _. memo.new ≡ memo.old) }
    ensures memo_room { memo.new.room ≡ memo.old.room }
    ensures memo_within { memo.new.kept ≤ memo.new.room }
{
    // That a memo keeps no more than it has room for is this call's clause, and what is true of a problem this law's.
    memo.len();
    truth_reads();
    let held = hold_all(alloc, submitters, room, steps)?;
    let Held {
        mut desk,
        mut replies,
        mut hand,
        mut places,
    } = held;
    let reader = Reader {
        alloc,
        rays,
        default,
    };
    for step in steps {
        let reply = make(&reader, &mut desk, &mut hand, &mut places, step, memo);
        replies.push_reserved(reply);
    }
    Ok(replies)
}
