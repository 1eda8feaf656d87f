//! Collections of problems, as they are found, held against their own claims: rows that keep the numbers of the lines that the problems stand in.
//!
//! What a record claims and what its row says is `mate_claims`'s business, what is made of a problem `problem_import`'s, and files are
//! `file_answers`'s. To read: `specs/ImportedRows.antt` and `imported_rows`; then `specs/VerifiedImports.antt` and `verifying_imports`, over
//! `lines_answered`.
#![tactic(auto)]

mod imported_rows;
mod lines_answered;
mod verifying_imports;

pub use verifying_imports::verify_imported;
