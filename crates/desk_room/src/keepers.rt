//! The keeper.

ghost use Rattle.std.specs.Prelude.{◌≡◌, ◌≤◌, ◌<◌, true, false, length, map, replicate, count_by};
ghost use Rattle.room_ends.specs.Letters.{records};
ghost use Rattle.room_ends.specs.DequeRule.{stops};
ghost use Rattle.room_ends.specs.Orders.{orders, passes};
ghost use Rattle.room_ends.specs.WindowRings.{letters_taken, deliveries_put, ring_of as line_ring, has_farewell};
ghost use Rattle.room_ends.specs.Benches.{receiver_ring};
ghost use Rattle.desk_room.specs.Kept.{owed, room_of, EachIsMarked};

use mate_desk::Desk;
use room_ends::{BackReceiver, Line, OrderProducer};

/// The keeper of a room's desk. It alone calls the desk: between turns letters and jobs wait in the rings.
#[derive(Drop)]
pub struct Keeper {
    pub(crate) lines: Vec<Line>,
    pub(crate) receivers: Vec<BackReceiver>,
    pub(crate) desk: Desk,
    pub(crate) producer: OrderProducer,
    pub(crate) ring: usize,
    // Stops were asked for, so that nothing more is ordered.
    pub(crate) is_home: bool,
    ghost windows: { length desk.queues ≡ length lines.items },
    ghost few_windows: { length lines.items ≤ 16 },
    ghost few_benches: { length receivers.items ≤ 16 },
    ghost small: { ring ≤ 64 },
    ghost line_rings: { map line_ring lines.items ≡ replicate (length lines.items) ring },
    ghost receiver_rings: { map receiver_ring receivers.items ≡ replicate (length receivers.items) ring },
    ghost rooms: { map room_of desk.queues ≡ replicate (length desk.queues) ring },
    ghost kept: { map records (map letters_taken lines.items) ≡ owed (map deliveries_put lines.items) desk.queues },
    ghost marked: { ∥ EachIsMarked (map letters_taken lines.items) (map deliveries_put lines.items) desk.queues ∥₁ },
    ghost stealers: { passes producer ≡ length receivers.items },
    ghost a_bench: { 0 < length receivers.items },
    ghost working: { is_home ≡ false → stops (orders producer) ≡ 0 },
    ghost sent_home: { is_home ≡ true → 0 < length (orders producer) },
}

/// How many windows said farewell.
#[tactic(auto, using(crate::proofs::Staying::gone_more))]
fn count_gone(lines: &[Line]) -> usize
    ensures { result ≡ count_by has_farewell lines.now }
{
    let mut gone = 0;
    for line in lines {
        if line.is_gone() {
            gone += 1;
        }
    }
    gone
}

impl Keeper {
    ghost use Rattle.std.specs.Prelude.{◌≡◌, ◌≤◌, ◌⊎◌, ℕ, ◌+◌, ◌++◌, length, true, replicate};
    ghost use Rattle.mate_desk.specs.Calls.{after_close, is_drained as is_drained_content};
    ghost use Rattle.room_ends.specs.DequeRule.{stops};
    ghost use Rattle.desk_room.specs.Kept.{AreOwed, AreMarked};
    ghost use Rattle.desk_room.specs.Keepers.{lists, benches_of, order_places, is_home, windows_gone, SameRings};
    ghost use Rattle.room_ends.specs.declared.deque_rule.Order.TheVariants.{Stop};

    /// What was taken of each window is what was delivered to it and then what it has pending, and withdrawals are marked so. It
    /// does nothing: its contract is the law.
    pub fn kept(&self)
        ensures owed { AreOwed (lists self.now) }
        ensures marked { ∥ AreMarked (lists self.now) ∥₁ }
    {
        // A part of the keeper is read, so that the proof knows what its type keeps.
        let _home = self.is_home;
    }

    /// How many windows said farewell, as far as their letters were taken.
    #[tactic(auto, using(crate::proofs::Staying::gone_counted))]
    pub fn byes(&self) -> usize
        ensures { result ≡ windows_gone (lists self.now).taken }
    {
        count_gone(&self.lines)
    }

    /// Closes the desk: no letter is taken from now on. All else goes on.
    pub fn close(&mut self)
        ensures lists { lists self.new ≡ record (lists self.old) { content = after_close (lists self.old).content } }
        ensures home { is_home self.new ≡ is_home self.old }
        ensures rings { SameRings self.old self.new }
    {
        self.desk.close();
    }

    /// Whether nothing is pending at the desk, and so no job out.
    pub fn is_drained(&self) -> bool
        ensures { result ≡ is_drained_content (lists self.now).content }
    {
        self.desk.is_drained()
    }

    /// Puts a stop out for each bench, behind the orders, and answers how many are still owed because memory was refused. A later
    /// call goes on. From the first call on nothing more is ordered.
    pub fn send_home(&mut self) -> usize
        ensures lists { (n : ℕ) × (lists self.new ≡ record (lists self.old) { orders = (lists self.old).orders ++ replicate n Stop }) }
        ensures owed { result + stops (lists self.new).orders ≡ benches_of self.new }
        ensures full { (result ≡ 0) ⊎ (order_places self.old ≤ length (lists self.new).orders) }
        ensures home { is_home self.new ≡ true }
        ensures rings { SameRings self.old self.new }
    {
        self.is_home = true;
        self.producer.send_home()
    }
}
