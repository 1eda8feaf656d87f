//! A text that could not be made.

ghost use Rattle.std.specs.Prelude.{◌≡◌, codes};

use std::alloc::AllocError;
use thiserror::Error;

/// A growth was refused. It prints as its name.
#[derive(Clone, Copy, Debug, PartialEq, Eq, Error)]
#[error("NoMemory")]
pub struct NoMemory;

impl NoMemory {
    /// The error's name.
    pub fn code(&self) -> &'static str
        ensures { result.now ≡ codes "NoMemory" }
    {
        "NoMemory"
    }
}

impl From<AllocError> for NoMemory {
    fn from(_refused: AllocError) -> NoMemory {
        NoMemory
    }
}
