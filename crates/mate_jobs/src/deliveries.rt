//! What a submitter collects.

use crate::jobs::Answer;
use crate::tickets::Ticket;
use chess_notation::Record;

/// What is collected for an accepted record: its answer, or the notice that it was withdrawn, with its ticket.
#[derive(Drop)]
pub enum Delivery {
    Answer(Answer),
    Notice(Ticket, Record),
}
