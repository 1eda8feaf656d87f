//! The lines of an input held against their own claims, row by row, where each record may take so long.

ghost use Rattle.std.specs.Prelude.{◌≡◌, ◌++◌, ◌⊎◌, ℕ, IfOk, IfSome, decimal, false, true};
ghost use Rattle.chess_notation.specs.Words.{words_in};
ghost use Rattle.chess_notation.specs.Records.{problem_of};
ghost use Rattle.chess_problems.specs.declared.outcomes.Outcome.TheVariants.{NoMate};
ghost use Rattle.mate_search.specs.inside.Truth.{truth};
ghost use Rattle.mate_answers.specs.LimitedReplies.{IsNoneSoFar};
ghost use Rattle.mate_claims.specs.ClaimReplies.{IsTold, IsToldBy};
ghost use Rattle.mate_claims.specs.Counts.{with_line};
ghost use Rattle.mate_claims.specs.LimitedClaims.{IsToldInTime, IsToldLate, unjudged};
ghost use Rattle.mate_claims.specs.Said.{said_by};

use crate::bound_sources::bound_source;
use crate::claim_replies::{Told, told_by, told_of_fault, told_of_outcome};
use crate::claim_rows::{place_of, refusals};
use crate::claimed_records::ClaimedRecord;
use crate::counts::Counts;
use crate::hints::Hints;
use crate::rows::refused_row;
use crate::said::said_undecided;
use byte_streams::NoMemory;
use chess_moves::Rays;
use chess_notation::{EpdFault, bound_claimed, claims_text, read_record};
use mate_answers::{Limited, TimeLimit, decide};
use mate_search::{Guide, Solver};
use std::alloc::Global;
use text_lines::{LineHandler, Output};

/// What holds lines against their own claims, by one who solves their records in so many seconds each, and what stands before the number of
/// each line in its row.
#[derive(Clone, Copy)]
pub struct LimitedClaims<'a, 'r, T, S> {
    pub limited: &'a Limited<'r, T, S>,
    pub prefix: &'a [u8],
}

/// What goes from each line to the next: the memory of who solves them, how many lines came to which verdict, and what is told beside.
#[derive(Drop)]
pub struct LimitedClaimMemory<M> {
    pub memory: M,
    pub counts: Counts,
    pub hints: Hints,
}

/// What is told of a record that was not decided.
fn told_of_undecided(
    alloc: Global,
    rays: &Rays,
    claimed: &ClaimedRecord<'_>,
) -> Result<Told, NoMemory>
    ensures told { IfOk result (λ told. IsToldLate claimed.now.place.now claimed.now.«record».now claimed.now.source
        (unjudged (said_by claimed.now.source claimed.now.line.now claimed.now.words.now (words_in claimed.now.words.now) claimed.now.«record».now NoMate))
        told.row.items told.verdict) }
    ensures source { IfOk result (λ told. told.source ≡ Some claimed.now.source) }
    ensures decided { IfOk result (λ told. told.is_decided ≡ false) }
{
    let said = said_undecided(alloc, rays, claimed)?;
    told_by(alloc, claimed, &said, None)
}

/// With one line more, of which this is told. None where a count has no room for it.
fn with_told(counts: Counts, told: &Told) -> Option<Counts>
    ensures { IfSome result (λ more. more ≡ with_line told.now.verdict told.now.source told.now.is_decided counts) }
{
    let counts = counts.with(told.verdict, told.source)?;
    if told.is_decided {
        Some(counts)
    } else {
        counts.with_undecided()
    }
}

impl<T: TimeLimit, S: Solver<T>> LimitedClaims<'_, '_, T, S> {
    /// What is told of a record.
    fn tell_record(
        &self,
        alloc: Global,
        claimed: &ClaimedRecord<'_>,
        memory: &mut S::Memory,
    ) -> Result<Told, NoMemory>
        requires { S.ready self.now.limited.now.solver }
        ensures told { IfOk result (λ told. ((told.is_decided ≡ true)
            × IsToldBy claimed.now.place.now claimed.now.«record».now claimed.now.source
            (said_by claimed.now.source claimed.now.line.now claimed.now.words.now (words_in claimed.now.words.now) claimed.now.«record».now
            (truth (problem_of claimed.now.«record».now))) told.row.items told.verdict)
            ⊎ ((told.is_decided ≡ false) × T.may_stop self.now.limited.now.limit.now × (none : ℕ) × IsNoneSoFar claimed.now.«record».now none
            × IsToldLate claimed.now.place.now claimed.now.«record».now claimed.now.source
            (unjudged (said_by claimed.now.source claimed.now.line.now claimed.now.words.now (words_in claimed.now.words.now) claimed.now.«record».now NoMate))
            told.row.items told.verdict)) }
        ensures source { IfOk result (λ told. told.source ≡ Some claimed.now.source) }
        ensures room { S.room memory.new ≡ S.room memory.old }
    {
        let limited = self.limited;
        limited.limit.begin();
        let rays = limited.rays;
        let guide = Guide {
            rays,
            halt: limited.limit,
        };
        match decide(&guide, &limited.solver, claimed.record, memory) {
            Ok(outcome) => told_of_outcome(alloc, rays, claimed, &outcome),
            Err(_) => told_of_undecided(alloc, rays, claimed),
        }
    }

    /// What is told of a line that isn't blank.
    #[tactic(auto, unfolding(chess_notation::specs::Claims::claim_words))]
    fn tell_line(
        &self,
        alloc: Global,
        place: &[u8],
        line: &[u8],
        memory: &mut S::Memory,
    ) -> Result<Told, NoMemory>
        requires { S.ready self.now.limited.now.solver }
        ensures told { IfOk result (λ told. IsToldInTime (T.may_stop self.now.limited.now.limit.now) place.now
            self.now.limited.now.default line.now told.row.items told.verdict told.source told.is_decided) }
        ensures room { S.room memory.new ≡ S.room memory.old }
    {
        let limited = self.limited;
        let words = claims_text(alloc, line)?;
        let bound = bound_claimed(words.as_slice(), limited.default);
        match read_record(alloc, limited.rays, line, bound) {
            Ok(record) => {
                let words = words.as_slice();
                let default = limited.default;
                let source = bound_source(alloc, limited.rays, line, words, &record, default)?;
                let claimed = ClaimedRecord {
                    place,
                    line,
                    record: &record,
                    source,
                    words,
                };
                self.tell_record(alloc, &claimed, memory)
            }
            Err(fault) => told_of_fault(alloc, place, fault),
        }
    }

    /// What is told of a line, which is counted.
    fn tell(
        &self,
        alloc: Global,
        number: usize,
        line: &[u8],
        memory: &mut LimitedClaimMemory<S::Memory>,
    ) -> Result<Told, NoMemory>
        requires { S.ready self.now.limited.now.solver }
        ensures told { IfOk result (λ told. IsToldInTime (T.may_stop self.now.limited.now.limit.now) (self.now.prefix.now ++ decimal number)
            self.now.limited.now.default line.now told.row.items told.verdict told.source told.is_decided) }
        ensures counts { IfOk result (λ told. memory.new.counts ≡ with_line told.verdict told.source told.is_decided memory.old.counts) }
        ensures room { S.room memory.new.memory ≡ S.room memory.old.memory }
    {
        let place = place_of(alloc, self.prefix, number)?;
        let told = self.tell_line(alloc, place.as_slice(), line, &mut memory.memory)?;
        let Some(counts) = with_told(memory.counts, &told) else {
            return Err(NoMemory);
        };
        memory.counts = counts;
        memory.hints = memory.hints.and(told.hints);
        Ok(told)
    }
}

impl<T: TimeLimit, S: Solver<T>> LineHandler for LimitedClaims<'_, '_, T, S> {
    ghost use Rattle.std.proofs.Common.{inr};
    ghost use Rattle.mate_claims.specs.ClaimReplies.{IsClaimReply, skipped as blank_skipped};
    ghost use Rattle.mate_claims.specs.CountedLines.{AreCounted, comes_in_time_to, passed};
    ghost use Rattle.mate_claims.specs.LimitedClaims.{IsLateClaim, IsLimitedClaim, skipped, unmarked as none_marked};

    type Memory = LimitedClaimMemory<S::Memory>;

    ghost ready = { λ claims. S.ready claims.limited.now.solver };

    ghost replies = { λ claims. IsLimitedClaim (T.may_stop claims.limited.now.limit.now) claims.prefix.now claims.limited.now.default };

    ghost marks = { λ claims. IsLateClaim (T.may_stop claims.limited.now.limit.now) claims.prefix.now claims.limited.now.default };

    ghost tally = { λ memory. memory.counts.undecided };

    /// Where nothing is counted before, the counts are those of the lines.
    ghost knows = { λ claims memory before. AreCounted
        (comes_in_time_to (T.may_stop claims.limited.now.limit.now) claims.limited.now.default) before memory.counts };

    /// Whatever stands before it, a line is answered as without a limit, unless the limit may stop a search at all.
    ghost follows = { λ claims _ number line text refusals. T.may_stop claims.limited.now.limit.now
        ⊎ IsClaimReply claims.prefix.now claims.limited.now.default number line text refusals };

    ghost room = { λ memory. S.room memory.memory };

    /// The row of a line, with a newline behind it. A record that is not decided is counted.
    fn answer(
        &self,
        alloc: Global,
        number: usize,
        line: &[u8],
        memory: &mut LimitedClaimMemory<S::Memory>,
    ) -> Result<Output, NoMemory> {
        let told = self.tell(alloc, number, line, memory)?;
        Ok(Output {
            refused: refusals(told.verdict),
            text: told.row,
        })
    }

    fn refuse_long(&self, alloc: Global, number: usize) -> Result<Output, NoMemory> {
        let place = place_of(alloc, self.prefix, number)?;
        Ok(Output {
            text: refused_row(alloc, place.as_slice(), EpdFault::TooLong.code())?,
            refused: 1,
        })
    }

    ghost skips = { λ claims number line blank. skipped blank };

    ghost unmarked = { λ claims number line blank. none_marked blank };

    ghost passes = { λ claims memory before line is known. passed before line memory.counts is known };

    ghost skips_behind = { λ claims before number line blank. inr (blank_skipped blank) };
}
