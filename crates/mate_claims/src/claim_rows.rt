//! The lines of an input held against their own claims, row by row.

ghost use Rattle.std.specs.Prelude.{◌≡◌, ◌++◌, ◌≤◌, IfNone, IfOk, IfSome, decimal};
ghost use Rattle.mate_claims.specs.BoundSources.{SaysClaimed};
ghost use Rattle.mate_claims.specs.ClaimReplies.{IsClaimReply, IsTold, refusals_of};
ghost use Rattle.mate_claims.specs.Counts.{with_one, with_unread};

use crate::claim_replies::{Told, told_of, told_unsolved};
use crate::claim_verdicts::ClaimVerdict;
use crate::counts::Counts;
use crate::hints::Hints;
use crate::rows::refused_row;
use byte_streams::NoMemory;
use chess_moves::Rays;
use chess_notation::EpdFault;
use chess_problems::Bound;
use mate_search::Memo;
use std::alloc::{AllocError, Global};
use text_lines::{LineHandler, Output};

/// What holds lines against their own claims: the bound of a record that asks for none, and what stands before the number of each
/// line in its row.
#[derive(Clone, Copy)]
pub struct ClaimRows<'a> {
    pub rays: &'a Rays,
    pub default: Bound,
    pub prefix: &'a [u8],
}

/// What goes from each line to the next: a memo, how many lines came to which verdict, and what is told beside.
#[derive(Drop)]
pub struct ClaimMemory {
    pub memo: Memo,
    pub counts: Counts,
    pub hints: Hints,
}

impl ClaimMemory {
    /// Counts as refused what is missing of so many lines that aren't sound, since there were so many before.
    pub fn count_unread(&mut self, before: usize, unsound: usize)
        ensures memo { self.new.memo ≡ self.old.memo }
        ensures counts { self.new.counts ≡ with_unread before unsound self.old.counts }
    {
        self.counts = self.counts.with_unread(before, unsound);
    }
}

/// The place of a line, by its number.
pub(crate) fn place_of(alloc: Global, prefix: &[u8], number: usize) -> Result<Vec<u8>, AllocError>
    ensures { IfOk result (λ place. place.items ≡ prefix.now ++ decimal number) }
{
    let mut place = Vec::from_slice(alloc, prefix)?;
    place.extend_from_slice(number.to_string(alloc)?.as_bytes())?;
    Ok(place)
}

/// How many refusals a verdict is, or none.
pub fn refusals(verdict: Option<ClaimVerdict>) -> usize
    ensures count { result ≡ refusals_of verdict }
    ensures few { result ≤ 1 }
{
    match verdict {
        Some(ClaimVerdict::Sound | ClaimVerdict::Undecided) => 0,
        _ => 1,
    }
}

impl ClaimRows<'_> {
    /// What is told of a line that says no record, and nothing of one that says one.
    pub fn look(&self, alloc: Global, number: usize, line: &[u8]) -> Result<Option<Told>, NoMemory>
        ensures told { IfOk result (λ known. IfSome known (λ told. IsTold (self.now.prefix.now ++ decimal number) self.now.default line.now
            told.row.items told.verdict told.source)) }
        ensures record { IfOk result (λ known. IfNone known (SaysClaimed line.now self.now.default)) }
    {
        let place = place_of(alloc, self.prefix, number)?;
        told_unsolved(alloc, self.rays, place.as_slice(), line, self.default)
    }

    /// What is told of a line.
    pub fn told(
        &self,
        alloc: Global,
        number: usize,
        line: &[u8],
        memo: &mut Memo,
    ) -> Result<Told, NoMemory>
        ensures told { IfOk result (λ told. IsTold (self.now.prefix.now ++ decimal number) self.now.default line.now
            told.row.items told.verdict told.source) }
        ensures room { memo.new.room ≡ memo.old.room }
    {
        let place = place_of(alloc, self.prefix, number)?;
        told_of(alloc, self.rays, place.as_slice(), line, self.default, memo)
    }

    /// What is told of a line, which is counted.
    fn tell(
        &self,
        alloc: Global,
        number: usize,
        line: &[u8],
        memory: &mut ClaimMemory,
    ) -> Result<Told, NoMemory>
        ensures told { IfOk result (λ told. IsTold (self.now.prefix.now ++ decimal number) self.now.default line.now
            told.row.items told.verdict told.source) }
        ensures counts { IfOk result (λ told. memory.new.counts ≡ with_one told.verdict told.source memory.old.counts) }
        ensures room { memory.new.memo.room ≡ memory.old.memo.room }
    {
        let told = self.told(alloc, number, line, &mut memory.memo)?;
        let Some(counts) = memory.counts.with(told.verdict, told.source) else {
            return Err(NoMemory);
        };
        memory.counts = counts;
        memory.hints = memory.hints.and(told.hints);
        Ok(told)
    }
}

impl LineHandler for ClaimRows<'_> {
    ghost use Rattle.mate_claims.specs.ClaimReplies.{IsClaimReply, skipped};
    ghost use Rattle.mate_claims.specs.CountedLines.{AreCounted, comes_to, passed};

    type Memory = ClaimMemory;

    ghost replies = { λ rows. IsClaimReply rows.prefix.now rows.default };

    /// Where nothing is counted before, the counts are those of the lines.
    ghost knows = { λ rows memory before. AreCounted (comes_to rows.default) before memory.counts };

    ghost room = { λ memory. memory.memo.room };

    /// The row of a line, with a newline behind it.
    fn answer(
        &self,
        alloc: Global,
        number: usize,
        line: &[u8],
        memory: &mut ClaimMemory,
    ) -> Result<Output, NoMemory> {
        let told = self.tell(alloc, number, line, memory)?;
        Ok(Output {
            refused: refusals(told.verdict),
            text: told.row,
        })
    }

    fn refuse_long(&self, alloc: Global, number: usize) -> Result<Output, NoMemory> {
        let place = place_of(alloc, self.prefix, number)?;
        Ok(Output {
            text: refused_row(alloc, place.as_slice(), EpdFault::TooLong.code())?,
            refused: 1,
        })
    }

    ghost skips = { λ rows number line blank. skipped blank };

    ghost unmarked = { λ _ _ _ _. tt };

    ghost passes = { λ rows memory before line is known. passed before line memory.counts is known };

    ghost skips_behind = { λ _ _ _ _ _. tt };
}
