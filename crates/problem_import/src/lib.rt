//! Collections of problems as they are found, made into records: lines of EPD and FEN that want mending, games in PGN, Popeye's input, files
//! of Olive's; men may have the letters of another language.
//!
//! What a record is, is `chess_notation`'s business, and lines are `text_lines`'s. To read: `specs/Imports.antt` and `importing`, where
//! the law of what is printed stands; `problem_lines`, whose problems whoever is a `ProblemHandler` (`problem_handlers`) answers, and `import`
//! by printing them, over `printing`, `import_letters`, `import_faults` and `import_counts`; `line_findings` and `reading_lines`, which tells the
//! forms apart, over `line_kinds` and `reading`, what is open between two lines; `finished_problems`, and `findings`, what is found of it, over
//! `operations`; then each form: `mending` (over `solutions`, `fields`, `tokens`, `lengths`, `letters`, `alphabets`, `figurines` and `changes`)
//! and `moves`, `games` (over `tag_pairs`) and `movetext`, `popeye` (over `popeye_words` and `diagrams`), and `olive`. `texts` stands below all.
#![tactic(auto)]

mod alphabets;
mod changes;
mod diagrams;
mod fields;
mod figurines;
mod findings;
mod finished_problems;
mod games;
mod import_counts;
mod import_faults;
mod import_letters;
mod importing;
mod lengths;
mod letters;
mod line_findings;
mod line_kinds;
mod mending;
mod moves;
mod movetext;
mod olive;
mod operations;
mod popeye;
mod popeye_words;
mod printing;
mod problem_handlers;
mod problem_lines;
mod reading;
mod reading_lines;
mod solutions;
mod tag_pairs;
mod texts;
mod tokens;

pub use import_counts::ImportCounts;
pub use import_faults::ImportFault;
pub use import_letters::ImportLetters;
pub use importing::{import_input, imports_are_records, imports_keep_positions};
pub use printing::Printing;
pub use problem_handlers::ProblemHandler;
pub use problem_lines::{ProblemLines, ProblemMemory, answer_problems, answers_are_imports};
