//! The problems of an input held against their own claims, row by row.

ghost use Rattle.std.specs.Prelude.{◌≡◌, ◌++◌, IfOk, decimal};

use byte_streams::NoMemory;
use mate_claims::{ClaimMemory, ClaimRows, refused_row};
use problem_import::{ImportFault, ProblemHandler};
use std::alloc::{AllocError, Global};
use std::cell::Cell;
use text_lines::{LineHandler, Output};

/// What holds problems against their own claims, and how many it has refused.
#[derive(Drop)]
pub(crate) struct ImportedRows<'a> {
    pub(crate) rows: ClaimRows<'a>,
    pub(crate) refused: Cell<usize>,
}

impl ImportedRows<'_> {
    /// Counts the problems that were refused, which no count has yet.
    pub(crate) fn count_refused(&self, memory: &mut ClaimMemory) {
        memory.counts = memory.counts.with_refused(self.refused.get());
    }
}

/// The place of a problem, by the number of its first line.
fn place_of(alloc: Global, prefix: &[u8], number: usize) -> Result<Vec<u8>, AllocError>
    ensures { IfOk result (λ place. place.items ≡ prefix.now ++ decimal number) }
{
    let mut place = Vec::from_slice(alloc, prefix)?;
    place.extend_from_slice(number.to_string(alloc)?.as_bytes())?;
    Ok(place)
}

impl ProblemHandler for ImportedRows<'_> {
    ghost use Rattle.mate_claims.specs.ClaimReplies.{IsClaimReply};
    ghost use Rattle.import_claims.specs.ImportedRows.{IsRefusedRow};

    type Memory = ClaimMemory;

    ghost records = { λ imported. IsClaimReply imported.rows.prefix.now imported.rows.default };

    ghost rows = { λ imported. IsRefusedRow imported.rows.prefix.now };

    fn answer(
        &self,
        alloc: Global,
        number: usize,
        line: &[u8],
        memory: &mut ClaimMemory,
    ) -> Result<Output, NoMemory> {
        self.rows.answer(alloc, number, line, memory)
    }

    fn refuse(
        &self,
        alloc: Global,
        number: usize,
        fault: ImportFault,
    ) -> Result<Vec<u8>, NoMemory> {
        self.refused.set(self.refused.get().saturating_add(1));
        let place = place_of(alloc, self.rows.prefix, number)?;
        let row = refused_row(alloc, place.as_slice(), fault.code())?;
        Ok(row)
    }
}
