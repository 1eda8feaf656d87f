//! The ends of a room: windows and benches, and the keeper's ends of their rings and of the deque of orders. No call waits, and none
//! takes a lock.
//!
//! The keeper, its desk and the threads are those of `desk_room`, which opens rooms. How a ring and a stealing deque work is the business
//! of `rtrb` and `crossbeam_deque`.
//!
//! To read: `letters` (what goes over the rings); `windows`, with `window_faults`, and `window_ring_line`, the keeper's ends of a
//! window's two rings; `window_rings` makes both, and `settling` says what is left in them. Then `deque_rule`, orders and the rule of
//! their deque; `order_producer`, its end at the keeper, and `order_stealer`, its ends at the `benches`; `back_receiver`, the keeper's
//! ends of the `back_rings`.
#![tactic(auto)]

mod back_receiver;
mod back_rings;
mod benches;
mod deque_rule;
mod letters;
mod order_producer;
mod order_stealer;
mod settling;
mod window_faults;
mod window_ring_line;
mod window_rings;
mod windows;

pub use back_receiver::BackReceiver;
pub use back_rings::open_benches;
pub use benches::Bench;
pub use deque_rule::Order;
pub use letters::{Back, Letter};
pub use order_producer::OrderProducer;
pub use order_stealer::Taken;
pub use settling::Settled;
pub use window_faults::{ByeFault, WindowFault, WithdrawFault};
pub use window_ring_line::Line;
pub use window_rings::open_windows;
pub use windows::Window;
