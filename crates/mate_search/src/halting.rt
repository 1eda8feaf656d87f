//! What may tell a search to stop.

ghost use Rattle.std.specs.Prelude.{◌≡◌, true};

use chess_moves::Rays;
use thiserror::Error;

/// What may tell a search to stop, as a flag that another thread sets.
pub trait Halt {
    /// That it may tell so at all.
    ghost may_stop: { Self → Type 0 };

    /// Whether to stop.
    fn is_stopped(&self) -> bool
        ensures { result ≡ true → may_stop self.now };
}

/// What never tells a search to stop.
#[derive(Clone, Copy)]
pub struct Never;

impl Halt for Never {
    ghost may_stop = { λ _. ⊥ };

    fn is_stopped(&self) -> bool {
        false
    }
}

/// A search was stopped before it was at its end.
#[derive(Clone, Copy, Debug, PartialEq, Eq, Error)]
#[error("Stopped")]
pub struct Stopped;

/// What a search goes by: the tables of rays, and what may tell it to stop.
#[derive(Clone, Copy)]
pub struct Guide<'a, H> {
    pub rays: &'a Rays,
    pub halt: &'a H,
}
