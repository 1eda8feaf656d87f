//! The statuses that a command ends with.

ghost use Rattle.std.specs.Prelude.{◌≡◌};
ghost use Rattle.file_answers.specs.Status.{status_of};

use crate::writing::{complain, complain_undecided};
use byte_streams::Stop;
use std::io::Write;

/// Everything was answered, or help or the version was asked for.
pub const ANSWERED: u8 = 0;
/// Everything was answered, of which something was refused.
pub const REFUSED: u8 = 1;
/// The words ask for nothing, or for too many files to be served.
pub const MISUSED: u8 = 2;
/// Memory was refused.
pub const NO_MEMORY: u8 = 3;
/// The system would start no more threads.
pub const NO_THREAD: u8 = 3;
/// A file can't be read.
pub const UNREADABLE: u8 = 4;
/// The output can't be written.
pub const UNWRITABLE: u8 = 4;

/// Everything was answered, but some records were not decided in time.
pub const IN_PART: u8 = 5;

/// Says that memory was refused, and gives the status.
pub fn no_memory<E: Write>(err: &mut E) -> u8
    ensures { result ≡ 3 }
{
    complain(err, "no memory");
    NO_MEMORY
}

/// Says how many records were not decided, and gives the status.
pub fn in_part<E: Write>(err: &mut E, undecided: usize) -> u8
    ensures { result ≡ 5 }
{
    complain_undecided(err, undecided);
    IN_PART
}

/// Says that the output can't be written, and gives the status.
pub(crate) fn unwritable<E: Write>(err: &mut E) -> u8
    ensures { result ≡ 4 }
{
    complain(err, "cannot write");
    UNWRITABLE
}

/// The status of a command that ended: with whether it refused anything, or with a stop. A file that can't be read was named
/// where it was opened, and a pipe that nobody reads is no fault to speak of.
pub fn status_of<E: Write>(ended: Result<bool, Stop>, err: &mut E) -> u8
    ensures { result ≡ status_of ended }
{
    match ended {
        Ok(false) => ANSWERED,
        Ok(true) => REFUSED,
        Err(Stop::NoMemory) => no_memory(err),
        Err(Stop::Unreadable) => UNREADABLE,
        Err(Stop::Unwritable) => unwritable(err),
        Err(Stop::NoReader) => UNWRITABLE,
    }
}
