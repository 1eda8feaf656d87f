//! The second pass of a turn: the windows' letters.

ghost use Rattle.std.specs.Prelude.{◌≡◌, ◌<◌, ◌≤◌, ◌-◌, ◌^◌, true, length};
ghost use Rattle.room_ends.specs.Letters.{records};
ghost use Rattle.desk_room.specs.Events.{accepts};
ghost use Rattle.room_ends.specs.WindowRings.{letters_taken, letters_known, SamePut};
ghost use Rattle.desk_room.specs.inside.Steps.{TookOne};

use crate::keepers::Keeper;
use mate_desk::Desk;
use room_ends::{Letter, Line};

/// What came of letters.
#[derive(Clone, Copy, Drop)]
pub(crate) struct Took {
    pub(crate) accepted: usize,
    pub(crate) byes: usize,
    pub(crate) withdrawn: usize,
}

/// Takes a letter off the ring and tells the desk.
#[tactic(auto, using(crate::proofs::Telling::refused_same))]
fn take_letter(line: &mut Line, desk: &mut Desk, n: usize) -> Took
    requires known { 0 < length (letters_known line.old) }
    requires few { length (records (letters_taken line.old)) < 2 ^ 64 - 1 }
    requires accepts { accepts desk.old n ≡ true }
    ensures took { TookOne n line.old line.new desk.old desk.new result }
    ensures few { (result.accepted ≤ 1) × (result.byes ≤ 1) × (result.withdrawn ≤ 1) }
    ensures answers { SamePut line.old line.new }
{
    let mut counts = Took {
        accepted: 0,
        byes: 0,
        withdrawn: 0,
    };
    match line.take_known() {
        Letter::Record(asked) => match desk.submit(n, asked) {
            Ok(_) => counts.accepted = 1,
            Err(_) => unreachable!(),
        },
        Letter::Withdrawal(m) => match desk.withdraw(n, m) {
            Ok(()) => counts.withdrawn = 1,
            Err(_) => {}
        },
        Letter::Farewell => counts.byes = 1,
    }
    counts
}

impl Keeper {
    ghost use Rattle.std.specs.Prelude.{◌≡◌, ◌<◌, ◌≤◌, ◌+◌, ◌-◌, ◌^◌, ℕ, true, [], length, get_or};
    ghost use Rattle.room_ends.specs.Letters.{records};
    ghost use Rattle.desk_room.specs.Events.{accepts};
    ghost use Rattle.desk_room.specs.Keepers.{lists, known, ring_of, IsRead, OthersRead};
    ghost use Rattle.desk_room.specs.Passes.{Taking};
    ghost use Rattle.desk_room.specs.inside.Steps.{Untouched, AtLines};
    ghost use Rattle.desk_room.specs.Turns.{GainFew};

    /// Learns of the letters in a window's ring.
    fn look(&mut self, n: usize) -> usize
        requires { n < length self.old.lines.items }
        ensures same { lists self.new ≡ lists self.old }
        ensures known { result ≡ length (get_or (known self.new) n []) }
        ensures few { result ≤ ring_of self.new }
        ensures others { OthersRead n self.old self.new }
        ensures ends { AtLines self.old self.new }
    {
        self.lines[n].look()
    }

    /// No window sent as many records as there are tickets, since each that was taken has one.
    fn counts(&self, n: usize)
        requires window { n < length self.now.lines.items }
        requires accepts { accepts self.now.desk n ≡ true }
        ensures { length (records (get_or (lists self.now).taken n [])) < 2 ^ 64 - 1 }
    {
        self.desk.kept();
    }

    /// Takes a letter of a window.
    fn take_one(&mut self, n: usize) -> Took
        requires window { n < length self.old.lines.items }
        requires known { 0 < length (get_or (known self.old) n []) }
        requires accepts { accepts self.old.desk n ≡ true }
        ensures step { Taking (lists self.old) (lists self.new) result.accepted result.byes result.withdrawn }
        ensures few { (result.accepted ≤ 1) × (result.byes ≤ 1) × (result.withdrawn ≤ 1) }
        ensures known { length (get_or (known self.new) n []) + 1 ≡ length (get_or (known self.old) n []) }
        ensures longer { length (get_or (lists self.new).taken n []) ≡ length (get_or (lists self.old).taken n []) + 1 }
        ensures untouched { Untouched n (lists self.old).taken (lists self.new).taken }
        ensures others { OthersRead n self.old self.new }
        ensures ends { AtLines self.old self.new }
    {
        self.counts(n);
        let Keeper { lines, desk, .. } = self;
        take_letter(&mut lines[n], desk, n)
    }

    /// Takes the letters of a window that lie in its ring, as long as the desk accepts a record of it.
    #[tactic(auto, using(crate::proofs::Runs::taking_none, crate::proofs::Runs::taking_then, crate::proofs::Ahead::others_same, crate::proofs::Ahead::others_then, crate::proofs::Staying::at_lines_same, crate::proofs::Staying::at_lines_then, crate::proofs::Fewness::untouched_same, crate::proofs::Fewness::untouched_then))]
    fn take_letters(&mut self, n: usize) -> Took
        requires { n < length self.old.lines.items }
        ensures took { Taking (lists self.old) (lists self.new) result.accepted result.byes result.withdrawn }
        ensures few { (result.accepted ≤ ring_of self.old) × (result.byes ≤ ring_of self.old) × (result.withdrawn ≤ ring_of self.old) }
        ensures longer { length (get_or (lists self.new).taken n []) ≤ length (get_or (lists self.old).taken n []) + ring_of self.old }
        ensures untouched { Untouched n (lists self.old).taken (lists self.new).taken }
        ensures read { IsRead n self.new }
        ensures others { OthersRead n self.old self.new }
        ensures ends { AtLines self.old self.new }
    {
        let mut all = Took {
            accepted: 0,
            byes: 0,
            withdrawn: 0,
        };
        let lying = self.look(n);
        for _ in 0..lying {
            if !self.desk.accepts(n) {
                return all;
            }
            let one = self.take_one(n);
            all.accepted += one.accepted;
            all.byes += one.byes;
            all.withdrawn += one.withdrawn;
        }
        all
    }

    /// Takes the letters of each window, as long as the desk accepts a record of it.
    #[tactic(auto, using(crate::proofs::Runs::taking_none, crate::proofs::Runs::taking_then, crate::proofs::Ahead::others_same, crate::proofs::Ahead::others_then, crate::proofs::Staying::at_lines_same, crate::proofs::Staying::at_lines_then, crate::proofs::Fewness::gain_none, crate::proofs::Fewness::gain_all))]
    pub(crate) fn take_all(&mut self) -> Took
        ensures took { Taking (lists self.old) (lists self.new) result.accepted result.byes result.withdrawn }
        ensures few { GainFew (ring_of self.old) (lists self.old).taken (lists self.new).taken }
        ensures read { (n : ℕ) → n < length self.new.lines.items → IsRead n self.new }
        ensures ends { AtLines self.old self.new }
    {
        let mut all = Took {
            accepted: 0,
            byes: 0,
            withdrawn: 0,
        };
        for n in 0..self.lines.len() {
            let one = self.take_letters(n);
            all.accepted += one.accepted;
            all.byes += one.byes;
            all.withdrawn += one.withdrawn;
        }
        all
    }
}
