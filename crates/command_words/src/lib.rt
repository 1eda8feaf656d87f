//! The words of a command line: what they ask for.
//!
//! What a word means is settled here, and what is answered is not. Read `specs/Asked.antt` and `request` first; then `parsing` (words to a
//! request) over `position_requests`, `record_requests` and `tree_requests`, by `matched_values`, and `conflicts` (what is said where they ask
//! for nothing); `command_line` (what `clap` is told, by the tables `commands`, `arguments` and `flags`, in `rows`), `limits`, `memory`,
//! `hyphens`, `texts` and `line_commands` (the words as it is given them), and `help` (what it prints).
#![tactic(auto)]

mod arguments;
mod command_line;
mod commands;
mod conflicts;
mod flags;
mod help;
mod hyphens;
mod limits;
mod line_commands;
mod matched_values;
mod memory;
mod parsing;
mod position_requests;
mod record_requests;
mod request;
mod rows;
mod texts;
mod tree_requests;

pub use conflicts::{goes_without_lines, no_request};
pub use help::VERSION;
pub use hyphens::escaped;
pub use limits::{Depth, LineNumber, MemoSize, Workers};
pub use parsing::{asks_progress, gives_records, parse, request_of};
pub use request::{
    Files, ImportAsked, ImportedAsked, LineView, MoveForm, Request, ServeAsked, SheetAsked,
    SheetForm, SolveAsked, TreeAsked, TreeForm, VerifyAsked,
};
