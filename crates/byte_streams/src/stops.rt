//! Why the answers to an input stop before its end.

ghost use Rattle.std.specs.Prelude.{◌≡◌, IfOk};
ghost use Rattle.byte_streams.specs.declared.stops.Stop.TheVariants.{NoMemory};

use crate::inputs::InputFault;
use crate::no_memory::NoMemory;
use std::alloc::AllocError;

/// Why answers stop before their end.
#[derive(Clone, Copy, PartialEq, Eq)]
pub enum Stop {
    /// Memory was refused.
    NoMemory,
    /// The input can't be read, or not to its end.
    Unreadable,
    /// The output can't be written.
    Unwritable,
    /// The output is a pipe that nobody reads any more.
    NoReader,
}

impl From<AllocError> for Stop {
    ghost from_gives = { λ _ stop. stop ≡ NoMemory };

    fn from(_fault: AllocError) -> Stop {
        Stop::NoMemory
    }
}

impl From<NoMemory> for Stop {
    ghost from_gives = { λ _ stop. stop ≡ NoMemory };

    fn from(_fault: NoMemory) -> Stop {
        Stop::NoMemory
    }
}

impl From<InputFault> for Stop {
    ghost use Rattle.byte_streams.specs.Stops.{stop_of};

    ghost from_gives = { λ fault stop. stop ≡ stop_of fault };

    fn from(fault: InputFault) -> Stop {
        match fault {
            InputFault::Unreadable => Stop::Unreadable,
            InputFault::NoMemory => Stop::NoMemory,
        }
    }
}
