//! The notations of chess: how a move is written (SAN), what a line of EPD asks, and how it is answered.
//!
//! Which moves are legal is `chess_moves`'s business, what a problem is `chess_problems`'s, and solving is none of this crate's. To
//! read: `specs/SanText.antt` and `san_text`, over `disambiguation`, and `move_reading`, a word that names a move; then `specs/Records.antt`,
//! `records` and `record_reading`, over `epd_faults` (the faults of a line, in their order), `words`, `record_fields`, `segments` (operations
//! cut at their semicolons), `quoting`, `opcodes`, `problem_operations` (what `dm` and `am` ask), `avoid_moves`, `claims` (what `bm` says),
//! `said_bounds` (whether a line has `dm`) and `operations`; at last `specs/Answers.antt` and `answers`. `san_laws` and `record_laws` say what
//! holds of them. Only `read_record`, `claims_text`, `listed_text`, `answer_text` and `undecided_text` take memory.
#![tactic(auto)]

mod answers;
mod avoid_moves;
mod claims;
mod disambiguation;
mod epd_faults;
mod move_reading;
mod opcodes;
mod operations;
mod problem_operations;
mod quoting;
mod record_fields;
mod record_laws;
mod record_reading;
mod records;
mod said_bounds;
mod san_laws;
mod san_text;
mod segments;
mod words;

pub use answers::{answer_text, listed_text, undecided_text};
pub use byte_streams::NoMemory;
pub use chess_problems::{AvoidList, Bound, Outcome, Problem, Variation};
pub use claims::{ClaimFault, bound_claimed, claimed_moves, claims_text};
pub use epd_faults::EpdFault;
pub use move_reading::read_move;
pub use operations::kept_operands;
pub use record_fields::{FourWords, are_digits, four_words, operations_in};
pub use record_laws::{answer_reads, claims_read, records_clear, says_one};
pub use record_reading::read_record;
pub use records::{Operation, Record};
pub use said_bounds::says_bound;
pub use san_laws::{
    bare_texts_apart, named_read, names_one, tells_one, texts_apart, texts_read, texts_short,
};
pub use san_text::san;
pub use segments::first_segment;
pub use words::{after_spaces, is_blank, word_at};
