//! Standard error, for a thread of its own.

use std::io::{IsTerminal, Stderr, Write};

/// What has a standard error that any thread may write to.
pub trait Console {
    /// What is written there.
    type Notes: Write + Drop + Send + 'static;

    /// A writer for a thread of its own.
    fn notes(&self) -> Self::Notes;

    /// Whether it is shown on a terminal, where a line can be written over.
    fn is_terminal(&self) -> bool;
}

impl Console for HostRuntime {
    type Notes = Stderr;

    fn notes(&self) -> Stderr {
        self.stderr()
    }

    fn is_terminal(&self) -> bool {
        self.stderr().is_terminal()
    }
}
