//! Why a job was not done.

use std::alloc::AllocError;

/// What went wrong, by its name.
#[derive(Drop)]
pub(crate) struct Stop(pub(crate) &'static str);

impl From<AllocError> for Stop {
    fn from(_refused: AllocError) -> Stop {
        Stop("NoMemory")
    }
}

impl From<&'static str> for Stop {
    fn from(name: &'static str) -> Stop {
        Stop(name)
    }
}
