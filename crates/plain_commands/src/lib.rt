//! The commands of the program `matedesk` that start no thread: `look`, `play`, `moves` and `perft` over a position, or over files of
//! positions, `solve`, `verify` and `tree` over files of problems (without `--workers`, `--limit` and `--progress`), `import`, and `sheet`,
//! `replay` over a script, `explain` over a table of faults, or over a position.
//!
//! What the words of a command line ask for is the business of `command_words`, how files are answered, what is shown and the statuses that
//! of `file_answers`, how files are solved, and held against their claims, that of `file_solving` and `file_verifying`, and what is answered
//! that of the crates of chess and of the desk. To read: `answering`, where the contract of `plain_command` says how each command ends; then
//! `fen_commands` and `playing`; `telling` and `importing`, over `letters`, and `position_answers`, which answer each line of each file;
//! `sheeting`; `replaying`, over the scripts of `desk_scripts`; and `explaining`, over `fault_explanations` and `fen_explanations`.
#![tactic(auto)]

mod answering;
mod explaining;
mod fen_commands;
mod importing;
mod letters;
mod playing;
mod position_answers;
mod replaying;
mod sheeting;
mod telling;

pub use answering::{NO_LETTERS, ends_by_status, ends_in_part, plain_command};
pub use telling::{TREE_ENTRIES, tells_none, tree_form};
