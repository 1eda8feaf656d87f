//! The first pass of a turn: what the benches gave back.

ghost use Rattle.std.specs.Prelude.{◌≡◌, ◌<◌, ◌+◌, length};
ghost use Rattle.room_ends.specs.Benches.{back_known, SameReceiver};
ghost use Rattle.desk_room.specs.inside.Steps.{HeardOne};

use crate::keepers::Keeper;
use mate_desk::Desk;
use room_ends::{Back, BackReceiver};

/// What came of jobs that came back.
#[derive(Clone, Copy, Drop)]
pub(crate) struct Heard {
    pub(crate) solved: usize,
    pub(crate) returned: usize,
    pub(crate) strangers: usize,
}

/// Takes one job off the ring and tells the desk.
#[tactic(auto, using(crate::proofs::Telling::stranger_same))]
fn hear_back(receiver: &mut BackReceiver, desk: &mut Desk) -> Heard
    requires { 0 < length (back_known receiver.old) }
    ensures heard { HeardOne receiver.old receiver.new desk.old desk.new result }
    ensures one { result.solved + (result.returned + result.strangers) ≡ 1 }
    ensures receiver { SameReceiver receiver.old receiver.new }
{
    let mut counts = Heard {
        solved: 0,
        returned: 0,
        strangers: 0,
    };
    match receiver.take_known() {
        Back::Solved(done) => match desk.finish(done) {
            Ok(()) => counts.solved = 1,
            Err(_) => counts.strangers = 1,
        },
        Back::Returned(job) => match desk.hand_back(job) {
            Ok(()) => counts.returned = 1,
            Err(_) => counts.strangers = 1,
        },
    }
    counts
}

impl Keeper {
    ghost use Rattle.std.specs.Prelude.{◌≡◌, ◌<◌, ◌≤◌, ◌+◌, ℕ, [], length, get_or};
    ghost use Rattle.desk_room.specs.Keepers.{lists, ring_of, backs_known};
    ghost use Rattle.desk_room.specs.Passes.{Hearing};
    ghost use Rattle.desk_room.specs.inside.Steps.{Untouched, AtReceivers};
    ghost use Rattle.desk_room.specs.Turns.{GainFew};

    /// Learns of what lies in a bench's ring.
    fn listen(&mut self, b: usize) -> usize
        requires { b < length self.old.receivers.items }
        ensures same { lists self.new ≡ lists self.old }
        ensures known { result ≡ length (get_or (backs_known self.new) b []) }
        ensures few { result ≤ ring_of self.new }
        ensures untouched { Untouched b (backs_known self.old) (backs_known self.new) }
        ensures ends { AtReceivers self.old self.new }
    {
        self.receivers[b].listen()
    }

    /// Hears one job from a bench.
    fn hear_one(&mut self, b: usize) -> Heard
        requires bench { b < length self.old.receivers.items }
        requires known { 0 < length (get_or (backs_known self.old) b []) }
        ensures step { Hearing (lists self.old) (lists self.new) result.solved result.returned result.strangers }
        ensures one { result.solved + (result.returned + result.strangers) ≡ 1 }
        ensures known { length (get_or (backs_known self.new) b []) + 1 ≡ length (get_or (backs_known self.old) b []) }
        ensures longer { length (get_or (lists self.new).heard b []) ≡ length (get_or (lists self.old).heard b []) + 1 }
        ensures others { Untouched b (lists self.old).heard (lists self.new).heard }
        ensures untouched { Untouched b (backs_known self.old) (backs_known self.new) }
        ensures ends { AtReceivers self.old self.new }
    {
        let Keeper {
            receivers,
            desk,
            ..
        } = self;
        hear_back(&mut receivers[b], desk)
    }

    /// Hears what lies in a bench's ring.
    #[tactic(auto, using(crate::proofs::Runs::hearing_none, crate::proofs::Runs::hearing_then, crate::proofs::Fewness::untouched_same, crate::proofs::Fewness::untouched_then, crate::proofs::Staying::at_receivers_same, crate::proofs::Staying::at_receivers_then))]
    fn hear_from(&mut self, b: usize) -> Heard
        requires { b < length self.old.receivers.items }
        ensures heard { Hearing (lists self.old) (lists self.new) result.solved result.returned result.strangers }
        ensures few { result.solved + (result.returned + result.strangers) ≤ ring_of self.old }
        ensures listened { get_or (backs_known self.new) b [] ≡ [] }
        ensures longer { length (get_or (lists self.new).heard b []) ≤ length (get_or (lists self.old).heard b []) + ring_of self.old }
        ensures others { Untouched b (lists self.old).heard (lists self.new).heard }
        ensures untouched { Untouched b (backs_known self.old) (backs_known self.new) }
        ensures ends { AtReceivers self.old self.new }
    {
        let mut all = Heard {
            solved: 0,
            returned: 0,
            strangers: 0,
        };
        let lying = self.listen(b);
        for _ in 0..lying {
            let one = self.hear_one(b);
            all.solved += one.solved;
            all.returned += one.returned;
            all.strangers += one.strangers;
        }
        all
    }

    /// Hears what lies in the back rings, bench by bench.
    #[tactic(auto, using(crate::proofs::Runs::hearing_none, crate::proofs::Runs::hearing_then, crate::proofs::Fewness::gain_none, crate::proofs::Fewness::gain_all, crate::proofs::Staying::at_receivers_same, crate::proofs::Listening::none_listened, crate::proofs::Listening::all_listened))]
    pub(crate) fn hear_all(&mut self) -> Heard
        ensures heard { Hearing (lists self.old) (lists self.new) result.solved result.returned result.strangers }
        ensures few { GainFew (ring_of self.old) (lists self.old).heard (lists self.new).heard }
        ensures listened { (b : ℕ) → get_or (backs_known self.new) b [] ≡ [] }
        ensures ends { AtReceivers self.old self.new }
    {
        let mut all = Heard {
            solved: 0,
            returned: 0,
            strangers: 0,
        };
        for b in 0..self.receivers.len() {
            let one = self.hear_from(b);
            all.solved += one.solved;
            all.returned += one.returned;
            all.strangers += one.strangers;
        }
        all
    }
}
