//! Replies as JSON (RFC 8259), a line for each.
//!
//! What a line is answered is the business of others: here that very reply is written in another form. To read: `specs/Strings.antt` and
//! `strings`; `specs/Answers.antt`, `operations`, `undecided` and `answers`, for those of `solve`, over `cuts`; `specs/Rows.antt` and `rows`, for those of
//! `verify`; `specs/Trees.antt` and `trees`, for those of `tree`, which `gathered` takes from who writes them; then `replies`; and `moves`, those
//! of a FEN.
#![tactic(auto)]

mod answers;
mod cuts;
mod gathered;
mod moves;
mod operations;
mod replies;
mod rows;
mod strings;
mod trees;
mod undecided;

pub use answers::front_of;
pub use gathered::Gathered;
pub use moves::{error_json, moves_json};
pub use replies::{Form, JsonReplies};
