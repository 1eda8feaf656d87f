//! The keeper's ends of one window's two rings: its line to that window.

ghost use Rattle.std.specs.Prelude.{◌≡◌, ◌≤◌, nat_lt, length};
ghost use Rattle.rtrb.specs.Ring.{received, consumer_capacity, producer_capacity};
ghost use Rattle.room_ends.specs.Letters.{records, farewells};

use crate::letters::Letter;
use mate_jobs::Delivery;
use rtrb::{Consumer, Producer};

/// The keeper's ends of the two rings of one window, each of `ring` places.
#[derive(Drop)]
pub struct Line {
    pub(crate) letters: Consumer<Letter>,
    pub(crate) answers: Producer<Delivery>,
    pub(crate) ring: usize,
    // The records among the letters taken.
    pub(crate) taken: u64,
    // A farewell is among the letters taken.
    pub(crate) gone: bool,
    ghost counted: { taken ≡ length (records (received letters)) },
    ghost said: { gone ≡ nat_lt 0 (farewells (received letters)) },
    ghost letter_places: { consumer_capacity letters ≡ ring },
    ghost answer_places: { producer_capacity answers ≡ ring },
    ghost small: { ring ≤ 64 },
}

impl Line {
    ghost use Rattle.std.specs.Prelude.{◌≡◌, ◌↔◌, ◌+◌, ◌-◌, ◌^◌, ◌<◌, ◌≤◌, [], ◌∷◌, ◌++◌, length, IsTrue};
    ghost use Rattle.room_ends.specs.Letters.{records};
    ghost use Rattle.room_ends.specs.WindowRings.{letters_taken, letters_known, deliveries_put, places_free, ring_of, has_farewell};
    ghost use Rattle.room_ends.specs.WindowRings.{SamePut, SameTaken, LineLooked};

    /// Learns of the letters that lie in the record ring, and gives their number. It moves none.
    pub fn look(&mut self) -> usize
        ensures looked { LineLooked self.old self.new }
        ensures free { places_free self.new ≡ places_free self.old }
        ensures count { result ≡ length (letters_known self.new) }
        ensures few { result ≤ ring_of self.new }
    {
        self.letters.slots()
    }

    /// Takes the first of the letters that are known to lie in the record ring.
    #[tactic(auto, using(crate::proofs::LetterCounts::records_count, crate::proofs::LetterCounts::farewells_count, crate::proofs::LetterCounts::still_said, crate::proofs::LetterCounts::now_said))]
    pub fn take_known(&mut self) -> Letter
        requires known { 0 < length (letters_known self.old) }
        requires few { length (records (letters_taken self.old)) < 2 ^ 64 - 1 }
        ensures answers { SamePut self.old self.new }
        ensures taken { letters_taken self.new ≡ letters_taken self.old ++ result ∷ [] }
        ensures known { letters_known self.old ≡ result ∷ letters_known self.new }
    {
        let letter = self.letters.pop_known();
        match &letter {
            Letter::Record(_) => self.taken += 1,
            Letter::Withdrawal(_) => {}
            Letter::Farewell => self.gone = true,
        }
        letter
    }

    /// Whether a farewell is among the letters taken.
    pub fn is_gone(&self) -> bool
        ensures { result ≡ has_farewell self.now }
    {
        self.gone
    }

    /// Whether no place of the answer ring is free. The window may free one at any time.
    pub fn is_full(&mut self) -> bool
        ensures looked { LineLooked self.old self.new }
        ensures known { letters_known self.new ≡ letters_known self.old }
        ensures full { IsTrue result ↔ (places_free self.new ≡ 0) }
    {
        self.answers.is_full()
    }

    /// Puts a delivery on the answer ring, of which a place is known to be free.
    pub fn put(&mut self, delivery: Delivery)
        requires { 0 < places_free self.old }
        ensures letters { SameTaken self.old self.new }
        ensures put { deliveries_put self.new ≡ deliveries_put self.old ++ delivery ∷ [] }
        ensures free { places_free self.old ≡ places_free self.new + 1 }
    {
        self.answers.push_reserved(delivery);
    }
}
