//! Files by their names, answered line by line and one after the other, and what all commands share: what is shown, messages, and the status
//! at the end.
//!
//! What a line is answered is the business of a `LineHandler` or a `LineWriter` of `text_lines`, and what a command answers its files that of
//! `FileAnswers`. To read: `sources` (a `Source` is the files that a command may read) and `files` (those of the system), `given_texts` (texts in
//! place of files); `writing` and `status`; then `file_answers`, where `answer_files` goes from file to file, and `opened_files`, where all are
//! opened first; and `named_refusals`, who says which file a refused line is of.
#![tactic(auto)]

mod file_answers;
mod files;
mod given_texts;
mod named_refusals;
mod opened_files;
mod sources;
mod status;
mod writing;

pub use file_answers::{FileAnswers, FileStart, SourceFiles, answer_files};
pub use files::{FileSystem, Reading, Stream};
pub use given_texts::{Given, GivenText, GivenTexts};
pub use named_refusals::{FileInTurn, NamedFiles, NamedRefusals};
pub use opened_files::{OpenFiles, answer_opened, open_files};
pub use sources::{NameKind, Source, SourceFault, holds_reads, read_file, read_files, whole};
pub use status::{
    ANSWERED, IN_PART, MISUSED, NO_MEMORY, NO_THREAD, REFUSED, UNREADABLE, UNWRITABLE, in_part,
    no_memory, status_of,
};
pub use writing::{
    complain, complain_faulty, complain_move, complain_of, complain_unreadable, show,
};
