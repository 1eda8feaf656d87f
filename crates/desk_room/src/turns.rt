//! A turn.

mod back_pass;
mod delivery_pass;
mod letter_pass;
mod order_pass;

use crate::keepers::Keeper;

/// What a turn of the keeper did.
#[derive(Clone, Copy, Debug, PartialEq, Eq)]
pub struct Turn {
    /// Records that were taken off the record rings.
    pub accepted: usize,
    /// Farewells that were taken off them.
    pub byes: usize,
    /// Withdrawals that were taken off them and that the desk accepted.
    pub withdrawn: usize,
    /// Jobs that were ordered.
    pub ordered: usize,
    /// Jobs that came back solved.
    pub solved: usize,
    /// Jobs that came back unsolved.
    pub returned: usize,
    /// What came back and was not out.
    pub strangers: usize,
    /// Answers and notices that were put on the answer rings.
    pub delivered: usize,
}

impl Keeper {
    ghost use Rattle.std.specs.Prelude.{◌≡◌, ◌<◌, ◌≤◌, ◌+◌, ◌⊎◌, ℕ, [], length, drop, get_or, true};
    ghost use Rattle.desk_room.specs.Keepers.{lists, known, backs_known, windows_of, ring_of, order_places};
    ghost use Rattle.desk_room.specs.Keepers.{is_home, IsServed, Stays};
    ghost use Rattle.desk_room.specs.Turns.{Turned, AreGains, AreFew, IsFilled, gained, pending_at};
    ghost use Rattle.desk_room.specs.Turns.{waiting, outs, still_out, times_ordered, AreFinishedBy};

    /// One turn: hears what the benches gave back, takes the windows' letters, orders the jobs that wait, and gives the windows what
    /// is ready. It never waits.
    pub fn turn(&mut self) -> Turn
        ensures passes { Turned (lists self.old) (lists self.new) result }
        ensures gains { AreGains (lists self.old) (lists self.new) result }
        ensures few { AreFew (ring_of self.old) (lists self.old) (lists self.new) }
        ensures out { (ticket : ℕ) → outs ticket (lists self.new).content
            ≡ times_ordered ticket (drop (length (lists self.old).orders) (lists self.new).orders)
            + still_out ticket (gained (lists self.old).heard (lists self.new).heard) (lists self.old).content }
        ensures finished { (n : ℕ) → AreFinishedBy (gained (lists self.old).heard (lists self.new).heard)
            (drop (length (get_or (lists self.old).put n [])) (get_or (lists self.new).put n []))
            (pending_at n (lists self.old).content.queues) (pending_at n (lists self.new).content.queues) }
        ensures served { (n : ℕ) → n < windows_of self.new → IsServed n self.new }
        ensures read { (n : ℕ) → n < windows_of self.new → (get_or (known self.new) n [] ≡ []) ⊎ IsFilled n (lists self.old) (lists self.new) }
        ensures none_after_close { (lists self.old).content.closed ≡ true → (lists self.new).taken ≡ (lists self.old).taken }
        ensures closed { (lists self.new).content.closed ≡ (lists self.old).content.closed }
        ensures listened { (b : ℕ) → get_or (backs_known self.new) b [] ≡ [] }
        ensures waits { (waiting (lists self.new).content ≡ 0) ⊎ (is_home self.new ≡ true)
            ⊎ (order_places self.old ≤ length (lists self.new).orders) }
        ensures not_the_first { (waiting (lists self.new).content ≡ 0) ⊎ (0 < length (lists self.new).orders) }
        ensures none_once_home { is_home self.old ≡ true → (lists self.new).orders ≡ (lists self.old).orders }
        ensures home { is_home self.new ≡ is_home self.old }
        ensures stays { Stays self.old self.new }
    {
        let heard = self.hear_all();
        let took = self.take_all();
        let ordered = self.order_all();
        let delivered = self.give_all();
        Turn {
            accepted: took.accepted,
            byes: took.byes,
            withdrawn: took.withdrawn,
            ordered,
            solved: heard.solved,
            returned: heard.returned,
            strangers: heard.strangers,
            delivered,
        }
    }
}
