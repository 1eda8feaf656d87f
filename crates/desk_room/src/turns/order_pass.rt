//! The third pass of a turn: orders.

ghost use Rattle.std.specs.Prelude.{◌≡◌, ◌≤◌, length};
ghost use Rattle.room_ends.specs.DequeRule.{stops};
ghost use Rattle.room_ends.specs.Orders.{orders, places, StillPuts};
ghost use Rattle.desk_room.specs.inside.Steps.{OrderedOne};
ghost use Rattle.desk_room.specs.declared.turns.order_pass.Tried.TheVariants.{Refused};

use crate::keepers::Keeper;
use mate_desk::Desk;
use room_ends::OrderProducer;

/// What came of trying to order a job.
#[derive(Clone, Copy, Drop)]
pub(crate) enum Tried {
    /// The job that waited under the lowest ticket is ordered.
    Ordered,
    /// The deque could not grow, and the job waits as before.
    Refused,
    /// No job waits.
    NoneWaits,
}

/// Orders the job that waits under the lowest ticket, or hands it back to the desk where the deque can't grow.
#[tactic(auto, using(crate::proofs::Telling::none_waiting))]
fn order_job(desk: &mut Desk, producer: &mut OrderProducer) -> Tried
    requires { stops (orders producer.old) ≡ 0 }
    ensures tried { OrderedOne (orders producer.old) (orders producer.new) desk.old desk.new result }
    ensures full { result ≡ Refused → places producer.old ≤ length (orders producer.old) }
    ensures stays { StillPuts producer.old producer.new }
{
    let Some(job) = desk.take() else {
        return Tried::NoneWaits;
    };
    match producer.order(job) {
        Ok(()) => Tried::Ordered,
        Err(job) => match desk.hand_back(job) {
            Ok(()) => Tried::Refused,
            Err(_) => unreachable!(),
        },
    }
}

impl Keeper {
    ghost use Rattle.std.specs.Prelude.{◌≡◌, ◌<◌, ◌≤◌, ◌⊎◌, true, false, length};
    ghost use Rattle.room_ends.specs.Orders.{orders, places};
    ghost use Rattle.desk_room.specs.Keepers.{lists};
    ghost use Rattle.desk_room.specs.Turns.{waiting};
    ghost use Rattle.desk_room.specs.inside.Steps.{Trying, AtProducer};
    ghost use Rattle.desk_room.specs.Passes.{Ordering};
    ghost use Rattle.desk_room.specs.declared.turns.order_pass.Tried.TheVariants.{Refused};

    /// Tries to order one job.
    fn order_one(&mut self) -> Tried
        requires { self.old.is_home ≡ false }
        ensures tried { Trying (lists self.old) (lists self.new) result }
        ensures full { result ≡ Refused → places self.old.producer ≤ length (orders self.old.producer) }
        ensures places { places self.old.producer ≤ places self.new.producer }
        ensures ends { AtProducer self.old self.new }
    {
        let Keeper { desk, producer, .. } = self;
        order_job(desk, producer)
    }

    /// Orders each job that waits, by rising ticket, until the deque can't grow. Once the benches are sent home it orders nothing.
    #[tactic(auto, using(crate::proofs::Runs::ordering_none, crate::proofs::Runs::ordering_then, crate::proofs::Staying::at_producer_same, crate::proofs::Staying::at_producer_then))]
    pub(crate) fn order_all(&mut self) -> usize
        ensures ordered { Ordering (lists self.old) (lists self.new) result }
        ensures waits { (waiting self.new.desk ≡ 0) ⊎ ((self.new.is_home ≡ true) ⊎ (places self.old.producer ≤ length (orders self.new.producer))) }
        ensures not_the_first { (waiting self.new.desk ≡ 0) ⊎ (0 < length (orders self.new.producer)) }
        ensures none { self.old.is_home ≡ true → lists self.new ≡ lists self.old }
        ensures ends { AtProducer self.old self.new }
    {
        if self.is_home {
            return 0;
        }
        let waiting = self.desk.waiting();
        for ordered in 0..waiting {
            match self.order_one() {
                Tried::Ordered => {}
                Tried::Refused => return ordered,
                Tried::NoneWaits => return ordered,
            }
        }
        waiting
    }
}
