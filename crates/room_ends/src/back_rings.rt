//! The back rings, each from a bench to the keeper.

ghost use Rattle.std.specs.Prelude.{◌≡◌, ◌≤◌, [], length, map, replicate, IfOk};
ghost use Rattle.room_ends.specs.Benches.{given, places_known, bench_ring, heard, back_known, receiver_ring, AreEnds};
ghost use Rattle.room_ends.specs.Orders.{orders, passes, SameDeque};
ghost use Rattle.room_ends.specs.Opening.{AreIdle};

use crate::back_receiver::BackReceiver;
use crate::benches::Bench;
use crate::order_producer::OrderProducer;
use crate::order_stealer::OrderStealer;
use rtrb::RingBuffer;
use std::alloc::{AllocError, Global};

/// A bench at that stealer, and the keeper's end of its back ring, which has `ring` places. It fails for want of memory alone.
fn open_bench(
    alloc: Global,
    ring: usize,
    stealer: OrderStealer,
) -> Result<(Bench, BackReceiver), AllocError>
    requires { ring ≤ 64 }
    ensures stealer { IfOk result (λ ends. ends.0.stealer ≡ stealer) }
    ensures given { IfOk result (λ ends. given ends.0 ≡ []) }
    ensures heard { IfOk result (λ ends. heard ends.1 ≡ []) }
    ensures known { IfOk result (λ ends. back_known ends.1 ≡ []) }
    ensures free { IfOk result (λ ends. places_known ends.0 ≡ ring) }
    ensures bench_ring { IfOk result (λ ends. bench_ring ends.0 ≡ ring) }
    ensures receiver_ring { IfOk result (λ ends. receiver_ring ends.1 ≡ ring) }
    ensures ends { IfOk result (λ ends. AreEnds ends.0 ends.1) }
{
    let (to_keeper, back) = RingBuffer::new(alloc, ring)?;
    let bench = Bench {
        stealer,
        back: to_keeper,
    };
    Ok((bench, BackReceiver { back, ring }))
}

/// So many benches, which take the producer's orders, and the keeper's end of each one's back ring.
#[tactic(auto, using(crate::proofs::Openings::idle_snoc, crate::proofs::Openings::fresh_snoc, crate::proofs::Openings::rings_snoc))]
pub fn open_benches(
    alloc: Global,
    benches: usize,
    ring: usize,
    producer: &mut OrderProducer,
) -> Result<(Vec<Bench>, Vec<BackReceiver>), AllocError>
    requires ring { ring ≤ 64 }
    requires few { benches ≤ 16 }
    requires passes { passes producer.old ≡ 0 }
    ensures benches { IfOk result (λ ends. length ends.0.items ≡ benches) }
    ensures receivers { IfOk result (λ ends. length ends.1.items ≡ benches) }
    ensures idle { IfOk result (λ ends. AreIdle producer.new ring ends.0.items ends.1.items) }
    ensures heard { IfOk result (λ ends. map heard ends.1.items ≡ replicate benches []) }
    ensures rings { IfOk result (λ ends. map receiver_ring ends.1.items ≡ replicate benches ring) }
    ensures passes { IfOk result (λ _. passes producer.new ≡ benches) }
    ensures orders { orders producer.new ≡ orders producer.old }
    ensures deque { SameDeque producer.old producer.new }
{
    let mut ends = Vec::with_capacity(alloc, benches)?;
    let mut receivers = Vec::with_capacity(alloc, benches)?;
    for _ in 0..benches {
        let (bench, receiver) = open_bench(alloc, ring, producer.stealer()?)?;
        ends.push_reserved(bench);
        receivers.push_reserved(receiver);
    }
    Ok((ends, receivers))
}
