//! A bench's end of the deque of orders.

ghost use Rattle.std.specs.Prelude.{◌≡◌, if◌then◌else◌};
ghost use Rattle.crossbeam_deque.specs.Handles.{view, IsPassOf, stealer_deque, stealer_flavor};
ghost use Rattle.room_ends.specs.DequeRule.{stops, bench_view};

use crate::deque_rule::{Order, OrderRule, Takes, View};
use crossbeam_deque::{Pass, Steal, Stealer};
use mate_jobs::Job;
use std::alloc::Global;

/// What a bench finds to do.
#[derive(Drop)]
pub enum Taken {
    /// This job is to be solved, or to be given back.
    Job(Job),
    /// There is no more work.
    Stop,
    /// There was no order, or another bench took it.
    Nothing,
}

/// What takes orders off the deque, for one bench.
#[derive(Drop)]
pub(crate) struct OrderStealer {
    pub(crate) stealer: Stealer<Order, Global, View, OrderRule>,
    pub(crate) pass: Pass<Order, View>,
    pub(crate) stopped: bool,
    ghost at_deque: { IsPassOf (stealer_deque stealer) pass },
    ghost fifo: { stealer_flavor stealer ≡ 0 },
    ghost knows: { view pass ≡ bench_view (view pass).got },
    ghost told: { stops (view pass).got ≡ (if stopped then 1 else 0) },
}

impl OrderStealer {
    ghost use Rattle.std.specs.Prelude.{◌≡◌, ◌<◌, ◌++◌};
    ghost use Rattle.room_ends.specs.DequeRule.{stops};
    ghost use Rattle.room_ends.specs.Orders.{stealer_got, taken_order, SameStealer};
    ghost use Rattle.room_ends.specs.declared.order_stealer.Taken.TheVariants.{Stop};

    /// Tries one steal, until it has answered `Stop`.
    #[tactic(auto, using(crate::proofs::DequeSteps::stops_append))]
    pub(crate) fn take(&mut self) -> Taken
        ensures taken { stops (stealer_got self.old) ≡ 0 → stealer_got self.new ≡ stealer_got self.old ++ taken_order result }
        ensures stopped { 0 < stops (stealer_got self.old) → (result ≡ Stop) × (stealer_got self.new ≡ stealer_got self.old) }
        ensures deque { SameStealer self.old self.new }
    {
        if self.stopped {
            return Taken::Stop;
        }
        match self.stealer.steal_as::<Takes>(&mut self.pass) {
            Steal::Success(Order::Solve(job)) => Taken::Job(job),
            Steal::Success(Order::Stop) => {
                self.stopped = true;
                Taken::Stop
            }
            Steal::Empty => Taken::Nothing,
            Steal::Retry => Taken::Nothing,
        }
    }
}
