//! A window and the keeper's ends of its rings settle: what is left in the two rings between them.

use crate::window_ring_line::Line;
use crate::windows::Window;

/// What a settlement finds.
#[derive(Clone, Copy, Debug, PartialEq, Eq)]
pub struct Settled {
    /// The records that lie in the record ring. Withdrawals and a farewell aren't counted.
    pub left: usize,
    /// The deliveries that lie in the answer ring.
    pub uncollected: usize,
}

impl Line {
    ghost use Rattle.std.specs.Prelude.{◌≡◌, ◌++◌, length};
    ghost use Rattle.room_ends.specs.Letters.{records};
    ghost use Rattle.room_ends.specs.Windows.{letters_sent, collected, deliveries_known, WindowLooked};
    ghost use Rattle.room_ends.specs.WindowRings.{letters_taken, letters_known, deliveries_put, LineLooked, AreEnds};

    /// What is left in the two rings of the window whose ends these are. It moves nothing, and each end learns what lies there.
    #[tactic(auto, using(crate::proofs::LetterCounts::records_count, crate::proofs::LetterCounts::records_few))]
    pub fn settle(&mut self, window: &mut Window) -> Settled
        requires { AreEnds window.old self.old }
        ensures window { WindowLooked window.old window.new }
        ensures line { LineLooked self.old self.new }
        ensures letters { letters_sent window.new ≡ letters_taken self.new ++ letters_known self.new }
        ensures deliveries { deliveries_put self.new ≡ collected window.new ++ deliveries_known window.new }
        ensures left { result.left ≡ length (records (letters_known self.new)) }
        ensures uncollected { result.uncollected ≡ length (deliveries_known window.new) }
    {
        self.letters.slots_beside(&mut window.letters);
        let uncollected = window.answers.slots_beside(&mut self.answers);
        let left = (window.posted - self.taken) as usize;
        Settled { left, uncollected }
    }
}
