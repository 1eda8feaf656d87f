//! What the threads of an engine send to the one that talks.

use byte_streams::InputFault;
use crossbeam_channel::Sender;
use std::alloc::Global;
use std::sync::Wait;

/// What has come, from the thread that reads, from the one that searches or from the one that counts time.
#[derive(Drop)]
pub(crate) enum Event {
    /// A line of the input.
    Line(Vec<u8>),
    /// The input says `quit`.
    Quit,
    /// The input is at its end, or can't be read on.
    End(Option<InputFault>),
    /// Lines to be written at once, while a search goes on.
    Said(Vec<u8>),
    /// The search of this number goes on for so long that it is to be told how far it is.
    Tick(u64),
    /// What to play, from a search that is over, and why where it found no mate.
    Found(Vec<u8>),
    /// A search for which memory was refused.
    Refused,
}

/// Sends what has come, once there is room; gives whether anyone takes it.
pub(crate) fn send<R: Wait>(rt: &R, events: &Sender<Event, Global>, event: Event) -> bool {
    events.send(rt, event).is_ok()
}
