//! A submitter's ends of its two rings.

ghost use Rattle.std.specs.Prelude.{◌≡◌, ◌≤◌, ◌+◌, length, if◌then◌else◌};
ghost use Rattle.rtrb.specs.Ring.{sent, known_free, producer_capacity};
ghost use Rattle.room_ends.specs.Letters.{records, farewells};

use crate::letters::Letter;
use crate::window_faults::{ByeFault, WindowFault, WithdrawFault};
use chess_moves::Rays;
use chess_notation::read_record;
use chess_problems::Bound;
use mate_jobs::Delivery;
use rtrb::{Consumer, Producer};
use std::alloc::Global;

/// A window, at which one submitter hands in records and collects deliveries. It may be on a thread of its own.
#[derive(Drop)]
pub struct Window {
    pub(crate) letters: Producer<Letter>,
    pub(crate) answers: Consumer<Delivery>,
    pub(crate) number: usize,
    pub(crate) default: Bound,
    // The records sent.
    pub(crate) posted: u64,
    pub(crate) gone: bool,
    ghost counted: { posted ≡ length (records (sent letters)) },
    ghost said: { farewells (sent letters) ≡ (if gone then 1 else 0) },
    ghost places: { producer_capacity letters ≤ known_free letters + length (sent letters) },
}

impl Window {
    ghost use Rattle.std.specs.Prelude.{◌≡◌, ◌↔◌, ◌+◌, ◌-◌, ◌^◌, ◌<◌, ◌≤◌, [], ◌∷◌, ◌++◌, length};
    ghost use Rattle.std.specs.Prelude.{OnOk, OnErr, IfErr, IfSome, IfNone, Err, true, false};
    ghost use mathlib.Core.List.{IsPrefix};
    ghost use Rattle.chess_notation.specs.Records.{RecordValue};
    ghost use Rattle.mate_jobs.specs.declared.deliveries.Delivery.{Delivery};
    ghost use Rattle.room_ends.specs.Letters.{records};
    ghost use Rattle.room_ends.specs.Windows.{letters_sent, collected, deliveries_known, places_known, is_gone, number_of, default_of};
    ghost use Rattle.room_ends.specs.Windows.{SameAnswers, SameLetters, WindowLooked, HasNoPlace};
    ghost use Rattle.room_ends.specs.WindowFaults.{SaysOnly, RefusesLine};

    /// The window's number in its room, from 0.
    pub fn number(&self) -> usize
        ensures { result ≡ number_of self.now }
    {
        self.number
    }

    /// Sends the record that a line says, with the window's default bound where it asks for none. Memory is asked for only to read
    /// the line.
    #[tactic(auto, using(crate::proofs::LetterCounts::records_count, crate::proofs::LetterCounts::farewells_count, crate::proofs::LetterCounts::is_said))]
    pub fn submit(&mut self, alloc: Global, rays: &Rays, line: &[u8]) -> Result<(), WindowFault>
        ensures answers { SameAnswers self.old self.new }
        ensures stays { is_gone self.new ≡ is_gone self.old }
        ensures sent { OnOk result ((r : RecordValue) × SaysOnly line.now (default_of self.old) r
            × (letters_sent self.new ≡ letters_sent self.old ++ Letter.Record r ∷ [])) }
        ensures unsent { OnErr result (WindowLooked self.old self.new) }
        ensures gone { (result ≡ Err WindowFault.Gone) ↔ (is_gone self.old ≡ true) }
        ensures line { IfErr result (λ fault. RefusesLine line.now (default_of self.old) fault) }
        ensures busy { result ≡ Err WindowFault.Busy → HasNoPlace self.new }
        ensures exhausted { result ≡ Err WindowFault.Exhausted → length (records (letters_sent self.old)) ≡ 2 ^ 64 - 1 }
        ensures not_busy { result ≡ Err WindowFault.Exhausted → 0 < places_known self.new }
        ensures last { OnOk result (length (records (letters_sent self.old)) < 2 ^ 64 - 1) }
        ensures places { OnOk result (places_known self.old ≤ places_known self.new + 1) }
    {
        if self.gone {
            return Err(WindowFault::Gone);
        }
        let record = match read_record(alloc, rays, line, self.default) {
            Ok(record) => record,
            Err(fault) => return Err(WindowFault::BadRecord(fault)),
        };
        if self.letters.is_full() {
            return Err(WindowFault::Busy);
        }
        if self.posted == u64::MAX {
            return Err(WindowFault::Exhausted);
        }
        self.letters.push_reserved(Letter::Record(record));
        self.posted += 1;
        Ok(())
    }

    /// Withdraws the record that the window sent as its n-th, counted from 0. It takes no memory.
    #[tactic(auto, using(crate::proofs::LetterCounts::records_count, crate::proofs::LetterCounts::farewells_count, crate::proofs::LetterCounts::is_said))]
    pub fn withdraw(&mut self, n: u64) -> Result<(), WithdrawFault>
        ensures answers { SameAnswers self.old self.new }
        ensures stays { is_gone self.new ≡ is_gone self.old }
        ensures sent { OnOk result (letters_sent self.new ≡ letters_sent self.old ++ Letter.Withdrawal n ∷ []) }
        ensures unsent { OnErr result (WindowLooked self.old self.new) }
        ensures gone { (result ≡ Err WithdrawFault.Gone) ↔ (is_gone self.old ≡ true) }
        ensures not_sent { (result ≡ Err WithdrawFault.NotSent) ↔ ((is_gone self.old ≡ false) × (length (records (letters_sent self.old)) ≤ n)) }
        ensures busy { result ≡ Err WithdrawFault.Busy → HasNoPlace self.new }
        ensures places { OnOk result (places_known self.old ≤ places_known self.new + 1) }
    {
        if self.gone {
            return Err(WithdrawFault::Gone);
        }
        if self.posted <= n {
            return Err(WithdrawFault::NotSent);
        }
        if self.letters.is_full() {
            return Err(WithdrawFault::Busy);
        }
        self.letters.push_reserved(Letter::Withdrawal(n));
        Ok(())
    }

    /// Says farewell, after which nothing is sent. It takes one place of the record ring.
    #[tactic(auto, using(crate::proofs::LetterCounts::records_count, crate::proofs::LetterCounts::farewells_count, crate::proofs::LetterCounts::is_said))]
    pub fn bye(&mut self) -> Result<(), ByeFault>
        ensures answers { SameAnswers self.old self.new }
        ensures sent { OnOk result (letters_sent self.new ≡ letters_sent self.old ++ Letter.Farewell ∷ []) }
        ensures said { OnOk result (is_gone self.new ≡ true) }
        ensures unsent { OnErr result (WindowLooked self.old self.new) }
        ensures gone { (result ≡ Err ByeFault.Gone) ↔ (is_gone self.old ≡ true) }
        ensures busy { result ≡ Err ByeFault.Busy → HasNoPlace self.new }
        ensures places { OnOk result (places_known self.old ≤ places_known self.new + 1) }
    {
        if self.gone {
            return Err(ByeFault::Gone);
        }
        if self.letters.is_full() {
            return Err(ByeFault::Busy);
        }
        self.letters.push_reserved(Letter::Farewell);
        self.gone = true;
        Ok(())
    }

    /// Whether a place of the record ring is known to be free.
    pub fn has_place(&mut self) -> bool
        ensures looked { WindowLooked self.old self.new }
        ensures known { deliveries_known self.new ≡ deliveries_known self.old }
        ensures place { result ≡ true → 0 < places_known self.new }
        ensures no_place { result ≡ false → HasNoPlace self.new }
    {
        !self.letters.is_full()
    }

    /// Whether a delivery is known to lie in the answer ring. It touches none, so that looking often costs little.
    pub fn has_delivery(&mut self) -> bool
        ensures looked { WindowLooked self.old self.new }
        ensures places { places_known self.new ≡ places_known self.old }
        ensures delivery { result ≡ true → 0 < length (deliveries_known self.new) }
        ensures no_delivery { result ≡ false → deliveries_known self.new ≡ [] }
    {
        !self.answers.is_empty()
    }

    /// The first of the deliveries that are known to lie in the answer ring, left there.
    pub fn first_known(&self) -> &Delivery
        requires { 0 < length (deliveries_known self.now) }
        ensures { IsPrefix (result.now ∷ []) (deliveries_known self.now) }
    {
        self.answers.peek_known()
    }

    /// Collects the first of the deliveries that are known to lie in the answer ring, and lets it go. What was seen of it there need
    /// not be moved.
    pub fn collect_seen(&mut self)
        requires { 0 < length (deliveries_known self.old) }
        ensures letters { SameLetters self.old self.new }
        ensures collected { (d : Delivery) → IsPrefix (d ∷ []) (deliveries_known self.old) → collected self.new ≡ collected self.old ++ d ∷ [] }
        ensures known { (d : Delivery) → IsPrefix (d ∷ []) (deliveries_known self.old) → deliveries_known self.old ≡ d ∷ deliveries_known self.new }
    {
        self.answers.pop_known();
    }

    /// Collects the next delivery, where one is known to lie in the answer ring.
    pub fn collect(&mut self) -> Option<Delivery>
        ensures letters { SameLetters self.old self.new }
        ensures collected { IfSome result (λ d. collected self.new ≡ collected self.old ++ d ∷ []) }
        ensures next { IfSome result (λ d. IsPrefix (deliveries_known self.old) (d ∷ deliveries_known self.new)) }
        ensures unchanged { IfNone result (collected self.new ≡ collected self.old) }
        ensures none_known { IfNone result (deliveries_known self.old ≡ []) }
        ensures none_found { IfNone result (deliveries_known self.new ≡ []) }
    {
        if self.answers.is_empty() {
            return None;
        }
        Some(self.answers.pop_known())
    }
}
