//! The keeper's end of the deque of orders.

ghost use Rattle.std.specs.Prelude.{◌≡◌, ◌≤◌, length, true};
ghost use Rattle.crossbeam_deque.specs.Handles.{worker_port, worker_view, worker_flavor, worker_capacity, worker_index};
ghost use Rattle.room_ends.specs.DequeRule.{stops};

use crate::deque_rule::{Hands, Order, OrderRule, Puts, View};
use crate::order_stealer::OrderStealer;
use crossbeam_deque::Worker;
use mate_jobs::Job;
use std::alloc::{AllocError, Global};

/// What puts orders out, and hands out the stealers by which they are taken.
#[derive(Drop)]
pub struct OrderProducer {
    pub(crate) deque: Worker<Order, Global, View, OrderRule>,
    pub(crate) stealers: usize,
    pub(crate) sent_home: usize,
    ghost front: { worker_port deque ≡ 0 },
    ghost fifo: { worker_flavor deque ≡ 0 },
    ghost a_slot: { 1 ≤ worker_capacity deque },
    ghost keeps: { (worker_view deque).keeps ≡ true },
    ghost handed: { stealers ≡ (worker_view deque).passes },
    ghost told: { sent_home ≡ stops (worker_view deque).orders },
    ghost few: { sent_home ≤ stealers },
    ghost index: { worker_index deque ≡ length (worker_view deque).orders },
}

impl OrderProducer {
    ghost use Rattle.std.specs.Prelude.{◌≡◌, ℕ, ◌+◌, ◌^◌, ◌<◌, ◌≤◌, ◌⊎◌, [], ◌∷◌, ◌++◌, length, replicate, IfOk, OnOk, IfErr, OnErr};
    ghost use Rattle.std.specs.Bool.{OnTrue, OnFalse};
    ghost use Rattle.room_ends.specs.DequeRule.{stops};
    ghost use Rattle.room_ends.specs.Orders.{orders, passes, places, stealer_got, IsStealerOf, SameDeque, StillPuts, PutNone};
    ghost use Rattle.room_ends.specs.declared.deque_rule.Order.TheVariants.{Solve, Stop};

    /// A deque of one slot, with no order and no stealer. It grows as it must.
    pub fn new(alloc: Global) -> Result<OrderProducer, AllocError>
        ensures orders { IfOk result (λ producer. orders producer ≡ []) }
        ensures passes { IfOk result (λ producer. passes producer ≡ 0) }
    {
        let deque = Worker::fifo_as(alloc, 1)?;
        Ok(OrderProducer {
            deque,
            stealers: 0,
            sent_home: 0,
        })
    }

    /// A new stealer. It fails for want of memory alone.
    pub(crate) fn stealer(&mut self) -> Result<OrderStealer, AllocError>
        requires { passes self.old + 1 < 2 ^ 64 }
        ensures got { IfOk result (λ stealer. stealer_got stealer ≡ []) }
        ensures at { IfOk result (λ stealer. IsStealerOf self.new stealer) }
        ensures handed { OnOk result (passes self.new ≡ passes self.old + 1) }
        ensures passes { OnErr result (passes self.new ≡ passes self.old) }
        ensures orders { orders self.new ≡ orders self.old }
        ensures deque { SameDeque self.old self.new }
    {
        let stealer = self.deque.stealer()?;
        let pass = self.deque.another::<Hands>();
        self.stealers += 1;
        Ok(OrderStealer {
            stealer,
            pass,
            stopped: false,
        })
    }

    /// Puts a job out behind the orders, or hands it back where the deque can't grow for want of memory, which is never so for the
    /// first order.
    #[tactic(auto, using(crate::proofs::DequeSteps::stops_append, crate::proofs::DequeSteps::length_orders))]
    pub fn order(&mut self, job: Job) -> Result<(), Job>
        requires { stops (orders self.old) ≡ 0 }
        ensures put { OnOk result (orders self.new ≡ orders self.old ++ Solve job ∷ []) }
        ensures refused { IfErr result (λ back. back ≡ job) }
        ensures none { OnErr result (PutNone self.old self.new) }
        ensures no_stop { stops (orders self.new) ≡ 0 }
        ensures stays { StillPuts self.old self.new }
    {
        match self.deque.push_as::<Puts>(Order::Solve(job)) {
            Ok(()) => Ok(()),
            Err(Order::Solve(job)) => Err(job),
            Err(Order::Stop) => unreachable!(),
        }
    }

    /// Puts a stop out behind the orders, and says whether it did.
    #[tactic(auto, using(crate::proofs::DequeSteps::stops_append, crate::proofs::DequeSteps::length_orders))]
    fn stop(&mut self) -> bool
        requires { stops (orders self.old) < passes self.old }
        ensures put { OnTrue result (orders self.new ≡ orders self.old ++ Stop ∷ []) }
        ensures none { OnFalse result (PutNone self.old self.new) }
        ensures stays { StillPuts self.old self.new }
    {
        match self.deque.push_as::<Puts>(Order::Stop) {
            Ok(()) => {
                self.sent_home += 1;
                true
            }
            Err(_) => false,
        }
    }

    /// Puts a stop out for each stealer, behind the orders, and answers how many are still owed because the deque can't grow for want
    /// of memory. A later call goes on.
    pub fn send_home(&mut self) -> usize
        ensures stops { (n : ℕ) × (orders self.new ≡ orders self.old ++ replicate n Stop) }
        ensures owed { result + stops (orders self.new) ≡ passes self.new }
        ensures some { 0 < passes self.old → 0 < length (orders self.new) }
        ensures full { (result ≡ 0) ⊎ (places self.old ≤ length (orders self.new)) }
        ensures stays { StillPuts self.old self.new }
    {
        while self.sent_home < self.stealers {
            if !self.stop() {
                break;
            }
        }
        self.stealers - self.sent_home
    }
}
