//! Replies as texts.

ghost use Rattle.std.specs.Prelude.{◌≡◌, ◌++◌, IfOk, codes, decimal, string_bytes};
ghost use Rattle.mate_desk.specs.ReplyTexts.{reply_text as text_of};

use crate::steps_and_replies::Reply;
use chess_moves::Rays;
use chess_notation::NoMemory;
use mate_jobs::Ticket;
use std::alloc::{AllocError, Global};

/// One text behind another.
fn joined(alloc: Global, first: &str, second: &str) -> Result<String, AllocError>
    ensures { IfOk result (λ text. string_bytes text ≡ first.now ++ second.now) }
{
    let mut text = String::new(alloc);
    text.push_str(first)?;
    text.push_str(second)?;
    Ok(text)
}

/// A word, with the space behind it, and a ticket.
fn numbered(alloc: Global, word: &str, ticket: Ticket) -> Result<String, NoMemory>
    ensures { IfOk result (λ text. string_bytes text ≡ word.now ++ decimal ticket) }
{
    let number = ticket.0.to_string(alloc)?;
    Ok(joined(alloc, word, number.as_str())?)
}

/// The reason of a refusal.
fn refused(alloc: Global, code: &str) -> Result<String, NoMemory>
    ensures { IfOk result (λ text. string_bytes text ≡ codes "refused " ++ code.now) }
{
    Ok(joined(alloc, "refused ", code)?)
}

/// A text by itself.
fn plain(alloc: Global, word: &str) -> Result<String, NoMemory>
    ensures { IfOk result (λ text. string_bytes text ≡ word.now) }
{
    Ok(joined(alloc, word, "")?)
}

/// What a reply prints as. Only a growth that is refused is an error.
#[tactic(auto, unfolding(crate::specs::ReplyTexts::reply_text))]
pub fn reply_text(alloc: Global, rays: &Rays, reply: &Reply) -> Result<String, NoMemory>
    ensures { IfOk result (λ text. string_bytes text ≡ text_of reply.now) }
{
    match reply {
        Reply::Ticket(ticket) => numbered(alloc, "ticket ", *ticket),
        Reply::Refused(refusal) => refused(alloc, refusal.code()),
        Reply::BadRecord(fault) => refused(alloc, fault.code()),
        Reply::Job(ticket) => numbered(alloc, "job ", *ticket),
        Reply::Nothing => plain(alloc, "nothing"),
        Reply::Done(ticket) => numbered(alloc, "done ", *ticket),
        Reply::NoJob => plain(alloc, "no job"),
        Reply::Back(ticket) => numbered(alloc, "back ", *ticket),
        Reply::Answer(held) => held.answer().text(alloc, rays),
        Reply::Notice(ticket) => numbered(alloc, "notice ", *ticket),
        Reply::Empty => plain(alloc, "none"),
        Reply::NoSuchSubmitter => refused(alloc, "NoSuchSubmitter"),
        Reply::Withdrawn => plain(alloc, "withdrawn"),
        Reply::NotWithdrawn(refusal) => refused(alloc, refusal.code()),
        Reply::Drained(true) => plain(alloc, "drained yes"),
        Reply::Drained(false) => plain(alloc, "drained no"),
        Reply::Closed => plain(alloc, "closed"),
    }
}
