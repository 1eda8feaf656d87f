//! The keeper's end of a bench's back ring.

ghost use Rattle.std.specs.Prelude.{◌≡◌, ◌≤◌};
ghost use Rattle.rtrb.specs.Ring.{consumer_capacity};

use crate::letters::Back;
use rtrb::Consumer;

/// The end at which the keeper hears what a bench gives back.
#[derive(Drop)]
pub struct BackReceiver {
    pub(crate) back: Consumer<Back>,
    pub(crate) ring: usize,
    ghost places: { consumer_capacity back ≡ ring },
    ghost small: { ring ≤ 64 },
}

impl BackReceiver {
    ghost use Rattle.std.specs.Prelude.{◌≡◌, ◌<◌, ◌≤◌, [], ◌∷◌, ◌++◌, length};
    ghost use mathlib.Core.List.{IsPrefix};
    ghost use Rattle.room_ends.specs.Benches.{heard, back_known, receiver_ring, SameReceiver};

    /// Learns what lies in the ring, and answers how much that is.
    pub fn listen(&mut self) -> usize
        ensures known { result ≡ length (back_known self.new) }
        ensures few { result ≤ receiver_ring self.new }
        ensures more { IsPrefix (back_known self.old) (back_known self.new) }
        ensures heard { heard self.new ≡ heard self.old }
        ensures ring { SameReceiver self.old self.new }
    {
        self.back.slots()
    }

    /// Takes the first of what is known to lie in the ring.
    pub fn take_known(&mut self) -> Back
        requires { 0 < length (back_known self.old) }
        ensures first { back_known self.old ≡ result ∷ back_known self.new }
        ensures heard { heard self.new ≡ heard self.old ++ result ∷ [] }
        ensures ring { SameReceiver self.old self.new }
    {
        self.back.pop_known()
    }
}
