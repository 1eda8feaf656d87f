//! The orders that the keeper puts out for the benches, and the rule of their deque, to which both keep.
//!
//! `specs/DequeRule.antt` says what the rule is. Each of the few steps that anybody takes on the deque keeps it, so it holds at every
//! moment, whoever else is at work.

ghost use Rattle.std.specs.Prelude.{◌≡◌, ◌++◌};
ghost use Rattle.room_ends.specs.DequeRule.{keeper_view, bench_view};

use crossbeam_deque::protocol::{Outcome, Protocol, Split};
use mate_jobs::Job;
use std::collections::LinkedList;

/// An order to a bench.
#[derive(Drop)]
pub enum Order {
    /// Solve this job.
    Solve(Job),
    /// Take no more orders.
    Stop,
}

/// What the holder of a pass to the deque knows: the keeper how many passes it handed out and which orders it put out, a bench
/// which orders it got. No value of it is ever made.
pub struct View {
    pub keeps: bool,
    pub passes: usize,
    pub orders: LinkedList<Order>,
    pub got: LinkedList<Order>,
}

/// The rule of the deque of orders.
pub struct OrderRule;

impl Protocol<Order, View> for OrderRule {
    ghost use Rattle.std.specs.Prelude.{[]};
    ghost use Rattle.room_ends.specs.DequeRule.{keeper_view, bench_view, Ruled};

    ghost holds = { Ruled };

    ghost first = { keeper_view 0 [] };

    ghost guest = { bench_view [] };
}

/// The keeper hands a pass to a bench.
pub struct Hands;

impl Split<View> for Hands {
    ghost use Rattle.std.specs.Prelude.{◌+◌, []};
    ghost use Rattle.room_ends.specs.DequeRule.{keeper_view, bench_view};

    ghost left = { λ v. keeper_view (v.passes + 1) v.orders };

    ghost right = { λ v. bench_view [] };
}

/// The keeper puts orders out.
pub struct Puts;

impl Outcome<Order, View> for Puts {
    ghost then = { λ v xs w. w ≡ keeper_view v.passes (v.orders ++ xs) };
}

/// A bench takes orders, or finds none.
pub struct Takes;

impl Outcome<Order, View> for Takes {
    ghost use Rattle.std.specs.Prelude.{◌≡◌, ◌++◌};
    ghost use Rattle.room_ends.specs.DequeRule.{bench_view};

    ghost then = { λ v xs w. w ≡ bench_view (v.got ++ xs) };
}
