//! Where an input comes from.

ghost use Rattle.std.specs.Prelude.{◌≡◌, ◌≤◌, ◌<◌, ℕ, List, Option, Some, IfOk, IfErr, length, take};
ghost use Rattle.std.specs.Io.KnownBytes.{Consumes, IsAtEnd};

use std::alloc::AllocError;
use std::io::Read;

/// Why an input gives no more.
#[derive(Clone, Copy, Debug, PartialEq, Eq)]
pub enum InputFault {
    /// It can't be read, or not to its end.
    Unreadable,
    /// Memory was refused.
    NoMemory,
}

impl From<AllocError> for InputFault {
    ghost use Rattle.std.specs.Prelude.{◌≡◌};
    ghost use Rattle.byte_streams.specs.declared.inputs.InputFault.TheVariants.{NoMemory};

    ghost from_gives = { λ _ fault. fault ≡ NoMemory };

    fn from(_fault: AllocError) -> InputFault {
        InputFault::NoMemory
    }
}

/// Bytes that come piece by piece, as those of a file or of a pipe do.
pub trait Input {
    /// The bytes that are still to come, where they are known.
    ghost left: { Self → Option (List ℕ) };

    /// It may break off before its end.
    ghost breaks: { Self → Type 0 };

    /// Puts what comes next at the start of `room`, and gives how many bytes; none only at the end, or where there is no room.
    fn read(&mut self, room: &mut [u8]) -> Result<usize, InputFault>
        ensures within { IfOk result (λ n. n ≤ length room.new) }
        ensures bytes { IfOk result (λ n. Consumes (left self.old) (left self.new) (take n room.new)) }
        ensures end { IfOk result (λ n. n ≡ 0 → 0 < length room.new → IsAtEnd (left self.new)) }
        ensures unreadable { IfErr result (λ fault. fault ≡ InputFault.Unreadable → breaks self.old) }
        ensures steady { breaks self.new → breaks self.old };
}

/// A text that is there already. It never breaks off.
impl Input for &[u8] {
    ghost use Rattle.std.specs.Prelude.{Some};

    ghost left = { λ text. Some text.now };

    ghost breaks = { λ _. ⊥ };

    fn read(&mut self, room: &mut [u8]) -> Result<usize, InputFault> {
        match Read::read(self, room) {
            Ok(n) => Ok(n),
            Err(_) => unreachable!(),
        }
    }
}
