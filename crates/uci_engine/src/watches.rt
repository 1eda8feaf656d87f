//! What tells a search to stop.

ghost use Rattle.std.specs.Prelude.{⊤};

use crate::signals::Signals;
use mate_search::Halt;

/// Watches one search: it is to stop once a signal says so, or more positions were searched than it may.
#[derive(Drop)]
pub(crate) struct Watch<'a> {
    signals: &'a Signals,
    number: u64,
    most_nodes: u64,
}

impl<'a> Watch<'a> {
    /// Of the search of this number, which may search so many positions.
    pub(crate) fn new(signals: &'a Signals, number: u64, most_nodes: u64) -> Watch<'a> {
        Watch {
            signals,
            number,
            most_nodes,
        }
    }
}

impl Halt for Watch<'_> {
    ghost may_stop = { λ _. ⊤ };

    fn is_stopped(&self) -> bool {
        let nodes = self.signals.count_node();
        nodes > self.most_nodes || self.signals.is_stopped(self.number)
    }
}
