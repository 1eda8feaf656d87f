//! The marks between which growths are refused, and why a call was not made.

use chess_problems::Bound;
use std::alloc::{AllocError, Global};

/// What else went wrong, by its name.
#[derive(Drop)]
pub(crate) struct Stop(pub(crate) &'static str);

impl From<AllocError> for Stop {
    fn from(_refused: AllocError) -> Stop {
        Stop("NoMemory")
    }
}

impl From<&'static str> for Stop {
    fn from(name: &'static str) -> Stop {
        Stop(name)
    }
}

/// What a call answered, and in the next line what was found afterwards. Whoever calls this has nothing left to drop where one of the two
/// could not be told, which is what a proof pays for.
pub(crate) fn and_afterwards(
    alloc: Global,
    answered: Result<String, Stop>,
    found: Result<String, Stop>,
) -> Result<String, Stop> {
    match (answered, found) {
        (Ok(answered), Ok(found)) => Ok(format!(in alloc; "{answered}\n{found}")?),
        (Err(stop), _) => Err(stop),
        (_, Err(stop)) => Err(stop),
    }
}

/// Asks for 2^62 bytes, which no system grants: by that growths are counted from here on, or up to here.
pub(crate) fn mark(alloc: Global) {
    let _refused = Vec::<u8>::with_capacity(alloc, 1 << 62);
}

/// The bound for lines that ask for none.
pub(crate) fn default() -> Option<Bound> {
    Bound::new(3)
}
