//! The desk across threads: submitters at windows, solvers at benches, and one keeper of the desk between them. No call of theirs
//! waits, and none takes a lock; `serve` runs them all, each on a thread of its own, and waits for them.
//!
//! What a desk holds and what its calls answer is `mate_desk`'s business, solving is `mate_search`'s, and the windows and benches, with
//! the keeper's ends of their rings and of the deque of orders, are those of `room_ends`.
//!
//! To read: `keepers`; `turns`, a turn of the keeper, over its four passes, `back_pass`, `letter_pass`, `order_pass` and `delivery_pass`;
//! `rooms`, which opens all of it; `settling`, of a window with the keeper; and `serving`, over what its threads do.
#![tactic(auto)]

mod keepers;
mod rooms;
mod serving;
mod settling;
mod turns;

pub use keepers::Keeper;
pub use room_ends::{
    Back, Bench, ByeFault, Letter, Order, Settled, Taken, Window, WindowFault, WithdrawFault,
};
pub use rooms::{Room, RoomFault, open_room};
pub use serving::{Gate, OpenGate, serve, serve_with_memo};
pub use turns::Turn;
