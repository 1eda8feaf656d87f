//! A window and the keeper settle: what is left in the two rings between them.

use crate::keepers::Keeper;
use room_ends::{Settled, Window};

impl Keeper {
    ghost use Rattle.std.specs.Prelude.{◌≡◌, ◌++◌, true, length, map, get_or, []};
    ghost use Rattle.mate_desk.specs.Calls.{is_drained as is_drained_content};
    ghost use Rattle.room_ends.specs.Letters.{records};
    ghost use Rattle.desk_room.specs.Deliveries.{asked};
    ghost use Rattle.desk_room.specs.Kept.{asked_of};
    ghost use Rattle.desk_room.specs.Withdrawals.{marks, are_notices_marked};
    ghost use Rattle.desk_room.specs.Turns.{pending_at};
    ghost use Rattle.room_ends.specs.Windows.{letters_sent, collected, deliveries_known, number_of, WindowLooked};
    ghost use Rattle.desk_room.specs.Keepers.{lists, known, backs_known, is_home, IsOf, Stays};

    /// How many records lie in the record ring of a window of this room, and how many deliveries in its answer ring. It moves
    /// nothing; each end learns what lies there.
    ///
    /// With `settled` and the type of an answer, what the window collected and what lies in its answer ring are the true answers
    /// to the first of the records that it sent, in order, or the notices of those that it withdrew.
    pub fn settle(&mut self, window: &mut Window) -> Settled
        requires { IsOf window.old self.old }
        ensures letters { letters_sent window.new ≡ get_or (lists self.new).taken (number_of window.new) []
            ++ get_or (known self.new) (number_of window.new) [] }
        ensures deliveries { get_or (lists self.new).put (number_of window.new) [] ≡ collected window.new ++ deliveries_known window.new }
        ensures left { result.left ≡ length (records (get_or (known self.new) (number_of window.new) [])) }
        ensures uncollected { result.uncollected ≡ length (deliveries_known window.new) }
        ensures settled { records (letters_sent window.new) ≡ (map asked (collected window.new ++ deliveries_known window.new)
            ++ map asked_of (pending_at (number_of window.new) (lists self.new).content.queues))
            ++ records (get_or (known self.new) (number_of window.new) []) }
        ensures drained { is_drained_content (lists self.new).content ≡ true
            → records (letters_sent window.new) ≡ map asked (collected window.new ++ deliveries_known window.new)
            ++ records (get_or (known self.new) (number_of window.new) []) }
        ensures notices { are_notices_marked (collected window.new ++ deliveries_known window.new)
            (marks (get_or (lists self.new).taken (number_of window.new) [])) ≡ true }
        ensures lists { lists self.new ≡ lists self.old }
        ensures backs_known { backs_known self.new ≡ backs_known self.old }
        ensures window { WindowLooked window.old window.new }
        ensures of { IsOf window.new self.new }
        ensures home { is_home self.new ≡ is_home self.old }
        ensures stays { Stays self.old self.new }
    {
        self.lines[window.number()].settle(window)
    }
}
