//! The tree of a problem's solution: its keys and what they threaten, every defence, or those that parry alone, every way for the attacker
//! to go on, set play and tries.
//!
//! What is true of a position is `mate_search`'s business, how a move is written `chess_notation`'s, and which letters men have in a language
//! `move_words`'s. Each definition stands in the file of `specs/` with the same name. To read: `forms`, `lines`, `continuations` and
//! `defences`, the tree below a move; `passing` and `threats`; `parries` and `variations`, of which a magazine prints a solution; `keys`,
//! `set_play`, `tries`; then `trees`; below them `writers`, over `sheets` and `layouts`; and `tree_replies`, `tree_texts`, `limited_trees` and
//! `columns`. `laws` says of the definitions what they are meant to say.
#![tactic(auto)]

mod columns;
mod continuations;
mod defences;
mod forms;
mod keys;
mod laws;
mod layouts;
mod limited_trees;
mod lines;
mod parries;
mod passing;
mod set_play;
mod sheets;
mod threats;
mod tree_replies;
mod tree_texts;
mod trees;
mod tries;
mod variations;
mod writers;

pub use columns::push_column;
pub use forms::{Form, Pieces};
pub use laws::{
    defences_answered, each_has_line, leaves_mate, line_branches, parries_read, soonest_reads,
};
pub use limited_trees::LimitedTrees;
pub use passing::passed;
pub use tree_replies::TreeReplies;
