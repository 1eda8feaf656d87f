//! Calls of a room of one window and one bench, and what they answer.

use desk_room::{Settled, Turn};

/// A call of one of the room's ends.
#[derive(Clone, Copy, Debug, PartialEq, Eq)]
pub(crate) enum Call {
    /// The window sends its record of this number.
    Submit(u64),
    Withdraw(u64),
    Bye,
    Collect,
    Take,
    /// The bench gives back what it has in hand, solved.
    Solve,
    /// The same, unsolved.
    Return,
    /// The bench gives back a job that nobody asked for, under this ticket.
    MakeUp(u64),
    Turn,
    Close,
    SendHome,
    Settle,
}

/// What a call answers. A job, an answer and a notice go by the number of the record.
#[derive(Clone, Copy, Debug, PartialEq, Eq)]
pub(crate) enum Reply {
    Done,
    Refused(&'static str),
    Answer(u64),
    Notice(u64),
    Job(u64),
    Stop,
    Nothing,
    /// What lay under this ticket came back.
    HandedBack(u64),
    Turned(Turn),
    Owed(usize),
    Settled(Settled),
    /// Nothing that could be given back is in hand.
    Impossible,
}
