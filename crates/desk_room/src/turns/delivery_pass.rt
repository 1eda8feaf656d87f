//! The fourth pass of a turn: deliveries.

ghost use Rattle.std.specs.Prelude.{◌≡◌, ◌<◌, ◌≤◌, true, length, is_some};
ghost use Rattle.mate_desk.specs.Calls.{ready};
ghost use Rattle.room_ends.specs.WindowRings.{places_free, SameTaken};
ghost use Rattle.desk_room.specs.inside.Steps.{GaveOne};

use crate::keepers::Keeper;
use mate_desk::Desk;
use room_ends::Line;

/// Puts what is ready on the ring, which has a place. Only here is there room for a delivery, which is large: to ask costs little.
fn put_ready(line: &mut Line, desk: &mut Desk, n: usize)
    requires ready { is_some (ready desk.old n) ≡ true }
    requires place { 0 < places_free line.old }
    ensures gave { GaveOne n line.old line.new desk.old desk.new true }
    ensures letters { SameTaken line.old line.new }
{
    line.put(desk.deliver(n));
}

/// Puts a delivery on the ring, where that has a place and one is ready.
#[tactic(auto, using(crate::proofs::Telling::none_ready))]
fn give_delivery(line: &mut Line, desk: &mut Desk, n: usize) -> bool
    requires { n < length desk.old.queues }
    ensures gave { GaveOne n line.old line.new desk.old desk.new result }
    ensures letters { SameTaken line.old line.new }
{
    if !desk.is_ready(n) || line.is_full() {
        return false;
    }
    put_ready(line, desk, n);
    true
}

impl Keeper {
    ghost use Rattle.std.specs.Prelude.{◌≡◌, ◌<◌, ◌≤◌, ◌+◌, ℕ, true, false, [], length, get_or, if◌then◌else◌};
    ghost use Rattle.desk_room.specs.Keepers.{lists, known, ring_of, IsServed, OthersServed};
    ghost use Rattle.desk_room.specs.Passes.{Giving};
    ghost use Rattle.desk_room.specs.inside.Steps.{Untouched, AtLines};
    ghost use Rattle.desk_room.specs.Turns.{GainFew, pending_at};

    /// Puts a delivery on a window's ring, if it can.
    fn give_one(&mut self, n: usize) -> bool
        requires { n < length self.old.lines.items }
        ensures step { Giving (lists self.old) (lists self.new) (if result then 1 else 0) }
        ensures stuck { result ≡ false → IsServed n self.new }
        ensures fewer { result ≡ true → length (pending_at n self.new.desk.queues) + 1 ≡ length (pending_at n self.old.desk.queues) }
        ensures longer { length (get_or (lists self.new).put n []) ≡ length (get_or (lists self.old).put n []) + (if result then 1 else 0) }
        ensures untouched { Untouched n (lists self.old).put (lists self.new).put }
        ensures others { OthersServed n self.old self.new }
        ensures known { known self.new ≡ known self.old }
        ensures ends { AtLines self.old self.new }
    {
        let Keeper { lines, desk, .. } = self;
        give_delivery(&mut lines[n], desk, n)
    }

    /// How many records a window has pending: never more than its rings have places.
    fn pending(&self, n: usize) -> usize
        requires { n < length self.now.lines.items }
        ensures pending { result ≡ length (pending_at n self.now.desk.queues) }
        ensures few { result ≤ ring_of self.now }
    {
        self.desk.kept();
        match self.desk.pending(n) {
            Ok(pending) => pending,
            Err(_) => unreachable!(),
        }
    }

    /// Puts what is ready for a window on its ring, as long as that has a place.
    #[tactic(auto, using(crate::proofs::Runs::giving_none, crate::proofs::Runs::giving_then, crate::proofs::Served::served_same, crate::proofs::Served::served_then, crate::proofs::Served::served_empty, crate::proofs::Staying::at_lines_same, crate::proofs::Staying::at_lines_then, crate::proofs::Fewness::untouched_same, crate::proofs::Fewness::untouched_then))]
    fn give_answers(&mut self, n: usize) -> usize
        requires { n < length self.old.lines.items }
        ensures gave { Giving (lists self.old) (lists self.new) result }
        ensures few { result ≤ ring_of self.old }
        ensures longer { length (get_or (lists self.new).put n []) ≤ length (get_or (lists self.old).put n []) + ring_of self.old }
        ensures untouched { Untouched n (lists self.old).put (lists self.new).put }
        ensures served { IsServed n self.new }
        ensures others { OthersServed n self.old self.new }
        ensures known { known self.new ≡ known self.old }
        ensures ends { AtLines self.old self.new }
    {
        let pending = self.pending(n);
        for given in 0..pending {
            if !self.give_one(n) {
                return given;
            }
        }
        pending
    }

    /// Puts what is ready for each window on its ring, as long as that has a place.
    #[tactic(auto, using(crate::proofs::Runs::giving_none, crate::proofs::Staying::at_lines_same, crate::proofs::Staying::at_lines_then, crate::proofs::Fewness::gain_none, crate::proofs::Fewness::gain_all))]
    pub(crate) fn give_all(&mut self) -> usize
        ensures gave { Giving (lists self.old) (lists self.new) result }
        ensures few { GainFew (ring_of self.old) (lists self.old).put (lists self.new).put }
        ensures served { (n : ℕ) → n < length self.new.lines.items → IsServed n self.new }
        ensures known { known self.new ≡ known self.old }
        ensures ends { AtLines self.old self.new }
    {
        let mut delivered = 0;
        for n in 0..self.lines.len() {
            delivered += self.give_answers(n);
        }
        delivered
    }
}
