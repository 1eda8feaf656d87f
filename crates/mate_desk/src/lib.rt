//! The desk: which submitter asked what, what is out to be solved, and in which order answers go back.
//!
//! Solving is `mate_search`'s business, and texts of records are `chess_notation`'s. What a desk holds stands in
//! `specs/Content.antt`, and what its calls answer and leave behind in `specs/Calls.antt`. Of a run, `specs/History.antt` says how
//! its steps and replies are read, `specs/Replies.antt` what each reply is, and `specs/Headline.antt` what follows.
//!
//! To read: `refusals`; then `desks`, over `lookups`, `queues` (what one submitter has pending), `entries`, `solved`
//! and `place_bits`. `Desk::new` takes all memory that a desk ever needs. Then `steps_and_replies`, with `held_answers`; `runs`, over
//! `stepping` and `held_jobs`; `reply_texts`; and `history_laws`, which tells the history in plain words (`specs/HistoryLaws.antt`).
#![tactic(auto)]

mod desks;
mod entries;
mod held_answers;
mod held_jobs;
mod history_laws;
mod lookups;
mod place_bits;
mod queues;
mod refusals;
mod reply_texts;
mod runs;
mod solved;
mod stepping;
mod steps_and_replies;

pub use desks::Desk;
pub use held_answers::HeldAnswer;
pub use history_laws::{
    accepted_reads, closed_reads, count_reads, delivered_reads, hand_reads, phase_reads,
    withdrawn_reads,
};
pub use mate_jobs::Delivery;
pub use refusals::{DeskFault, NoSuchSubmitter, Stranger, SubmitRefusal, WithdrawRefusal};
pub use reply_texts::reply_text;
pub use runs::{RunFault, run};
pub use steps_and_replies::{Reply, Step};
