//! Benches, where jobs are solved.

ghost use Rattle.std.specs.Prelude.{◌+◌, ◌≤◌, length};
ghost use Rattle.rtrb.specs.Ring.{sent, known_free, producer_capacity};

use crate::letters::Back;
use crate::order_stealer::{OrderStealer, Taken};
use rtrb::Producer;

/// A solver's end of a room: it takes orders, and gives back what came of them. It may go to a thread of its own, and no call
/// waits.
#[derive(Drop)]
pub struct Bench {
    pub(crate) stealer: OrderStealer,
    pub(crate) back: Producer<Back>,
    ghost places: { producer_capacity back ≤ known_free back + length (sent back) },
}

impl Bench {
    ghost use Rattle.std.specs.Prelude.{◌≡◌, ◌+◌, ◌<◌, ◌≤◌, [], ◌∷◌, ◌++◌, length};
    ghost use Rattle.std.specs.Prelude.{IsOk, OnOk, IfErr, OnErr, MatchResult, true, false};
    ghost use Rattle.room_ends.specs.DequeRule.{stops};
    ghost use Rattle.room_ends.specs.Orders.{taken_order};
    ghost use Rattle.room_ends.specs.Benches.{got, given, places_known, bench_ring, SameBench};
    ghost use Rattle.room_ends.specs.declared.order_stealer.Taken.TheVariants.{Stop};

    /// Tries to take the next order. Once it has answered `Stop` it always does, and takes nothing more.
    pub fn take(&mut self) -> Taken
        ensures taken { stops (got self.old) ≡ 0 → got self.new ≡ got self.old ++ taken_order result }
        ensures stopped { 0 < stops (got self.old) → (result ≡ Stop) × (got self.new ≡ got self.old) }
        ensures given { given self.new ≡ given self.old }
        ensures places { places_known self.new ≡ places_known self.old }
        ensures ends { SameBench self.old self.new }
    {
        self.stealer.take()
    }

    /// Gives a job back, solved or not. A refused value is handed back: the keeper has yet to hear `ring` earlier ones, where the
    /// room was opened with rings of `ring` places.
    pub fn back(&mut self, back: Back) -> Result<(), Back>
        ensures given { OnOk result (given self.new ≡ given self.old ++ back ∷ []) }
        ensures refused { IfErr result (λ value. value ≡ back) }
        ensures unchanged { OnErr result (given self.new ≡ given self.old) }
        ensures full { OnErr result (places_known self.new ≡ 0) }
        ensures succeeds { 0 < places_known self.old → IsOk result }
        ensures first { length (given self.old) < bench_ring self.old → IsOk result }
        ensures places { MatchResult result (λ _. places_known self.old ≤ places_known self.new + 1)
            (λ _. places_known self.old ≤ places_known self.new) }
        ensures got { got self.new ≡ got self.old }
        ensures ends { SameBench self.old self.new }
    {
        if self.back.is_full() {
            return Err(back);
        }
        self.back.push_reserved(back);
        Ok(())
    }

    /// Whether a place of the back ring is known to be free.
    pub fn has_place(&mut self) -> bool
        ensures places { places_known self.old ≤ places_known self.new }
        ensures place { result ≡ true → 0 < places_known self.new }
        ensures no_place { result ≡ false → places_known self.new ≡ 0 }
        ensures given { given self.new ≡ given self.old }
        ensures got { got self.new ≡ got self.old }
        ensures ends { SameBench self.old self.new }
    {
        !self.back.is_full()
    }

    /// Gives a job back, solved or not, where a place of the back ring is known to be free.
    pub fn give(&mut self, back: Back)
        requires { 0 < places_known self.old }
        ensures given { given self.new ≡ given self.old ++ back ∷ [] }
        ensures places { places_known self.old ≡ places_known self.new + 1 }
        ensures got { got self.new ≡ got self.old }
        ensures ends { SameBench self.old self.new }
    {
        self.back.push_reserved(back);
    }
}
