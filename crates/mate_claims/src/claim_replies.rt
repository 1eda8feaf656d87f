//! What is told of a line that is held against its own claims.

ghost use Rattle.std.specs.Prelude.{◌≡◌, ◌≢◌, ◌≤◌, IfNone, IfOk, IfSome, None, Some, is_some, option_map, true};
ghost use Rattle.chess_notation.specs.Words.{words_in};
ghost use Rattle.chess_notation.specs.EpdFaults.{epd_fault_name};
ghost use Rattle.chess_notation.specs.Records.{problem_of};
ghost use Rattle.chess_problems.specs.Outcomes.{IsPlayable};
ghost use Rattle.mate_search.specs.inside.Truth.{truth};
ghost use Rattle.mate_claims.specs.BoundSources.{SaysClaimed};
ghost use Rattle.mate_claims.specs.ClaimReplies.{IsTold, IsToldBy};
ghost use Rattle.mate_claims.specs.Rows.{keys_found as keys_found_in, listed, refused_row as refused_row_of, row_of};
ghost use Rattle.mate_claims.specs.Said.{said_by};

use crate::bound_sources::{BoundSource, bound_source};
use crate::claim_verdicts::ClaimVerdict;
use crate::claimed_records::ClaimedRecord;
use crate::hints::Hints;
use crate::rows::{Found, keys_text, push_row, refused_row};
use crate::said::{Said, said_of_record};
use byte_streams::NoMemory;
use chess_moves::Rays;
use chess_notation::{EpdFault, bound_claimed, claims_text, read_record};
use chess_problems::{Bound, Outcome};
use mate_search::{Memo, solve};
use std::alloc::Global;

/// What is told of a line: its row, with a newline; its verdict, if it isn't refused; of a record where its bound comes from; whether it was
/// decided, as all is that is refused by its record; and what is told beside.
#[derive(Drop)]
pub struct Told {
    pub row: Vec<u8>,
    pub verdict: Option<ClaimVerdict>,
    pub source: Option<BoundSource>,
    pub is_decided: bool,
    pub hints: Hints,
}

/// What is told of a line that says no record. Want of memory is no fault of the line.
pub(crate) fn told_of_fault(alloc: Global, place: &[u8], fault: EpdFault) -> Result<Told, NoMemory>
    ensures fault { IfOk result (λ told. fault ≢ EpdFault.NoMemory) }
    ensures row { IfOk result (λ told. told.row.items ≡ refused_row_of place.now (epd_fault_name fault)) }
    ensures verdict { IfOk result (λ told. told.verdict ≡ None) }
    ensures source { IfOk result (λ told. told.source ≡ None) }
    ensures decided { IfOk result (λ told. told.is_decided ≡ true) }
{
    if fault == EpdFault::NoMemory {
        return Err(NoMemory);
    }
    Ok(Told {
        row: refused_row(alloc, place, fault.code())?,
        verdict: None,
        source: None,
        is_decided: true,
        hints: Hints::new(),
    })
}

/// What is told of a record of whose claims this comes, by what was found, if that is known.
pub(crate) fn told_by(
    alloc: Global,
    claimed: &ClaimedRecord<'_>,
    said: &Said,
    found: Option<&Found<'_>>,
) -> Result<Told, NoMemory>
    requires keys { IfSome found (λ f. f.now.keys.now ≡ listed claimed.now.«record».now.position (keys_found_in f.now.outcome.now)) }
    ensures row { IfOk result (λ told. told.row.items ≡ row_of claimed.now.place.now claimed.now.«record».now claimed.now.source
        said.now.word.now (option_map (λ f. f.now.outcome.now) found.entry) said.now.claims.items) }
    ensures verdict { IfOk result (λ told. told.verdict ≡ said.now.verdict) }
    ensures source { IfOk result (λ told. told.source ≡ Some claimed.now.source) }
    ensures decided { IfOk result (λ told. told.is_decided ≡ is_some found.entry) }
{
    let mut row = Vec::new(alloc);
    let record = claimed.record;
    let claims = said.claims.as_slice();
    push_row(alloc, &mut row, claimed, said.word, found, claims)?;
    Ok(Told {
        row,
        verdict: said.verdict,
        source: Some(claimed.source),
        is_decided: found.is_some(),
        hints: Hints::of(said.word, record.rest.as_slice()),
    })
}

/// What is told of a record of which this was found.
fn told_of_found(
    alloc: Global,
    rays: &Rays,
    claimed: &ClaimedRecord<'_>,
    found: &Found<'_>,
) -> Result<Told, NoMemory>
    requires truth { found.now.outcome.now ≡ truth (problem_of claimed.now.«record».now) }
    requires playable { IsPlayable claimed.now.«record».now.position found.now.outcome.now }
    requires keys { found.now.keys.now ≡ listed claimed.now.«record».now.position (keys_found_in found.now.outcome.now) }
    ensures told { IfOk result (λ told. IsToldBy claimed.now.place.now claimed.now.«record».now claimed.now.source
        (said_by claimed.now.source claimed.now.line.now claimed.now.words.now (words_in claimed.now.words.now) claimed.now.«record».now
        (truth (problem_of claimed.now.«record».now))) told.row.items told.verdict) }
    ensures source { IfOk result (λ told. told.source ≡ Some claimed.now.source) }
    ensures decided { IfOk result (λ told. told.is_decided ≡ true) }
{
    let said = said_of_record(alloc, rays, claimed, found)?;
    told_by(alloc, claimed, &said, Some(found))
}

/// What is told of a record with this outcome.
pub(crate) fn told_of_outcome(
    alloc: Global,
    rays: &Rays,
    claimed: &ClaimedRecord<'_>,
    outcome: &Outcome,
) -> Result<Told, NoMemory>
    requires truth { outcome.now ≡ truth (problem_of claimed.now.«record».now) }
    requires playable { IsPlayable claimed.now.«record».now.position outcome.now }
    ensures told { IfOk result (λ told. IsToldBy claimed.now.place.now claimed.now.«record».now claimed.now.source
        (said_by claimed.now.source claimed.now.line.now claimed.now.words.now (words_in claimed.now.words.now) claimed.now.«record».now
        (truth (problem_of claimed.now.«record».now))) told.row.items told.verdict) }
    ensures source { IfOk result (λ told. told.source ≡ Some claimed.now.source) }
    ensures decided { IfOk result (λ told. told.is_decided ≡ true) }
{
    let record = claimed.record;
    let keys = keys_text(alloc, rays, &record.position, outcome)?;
    let found = Found {
        outcome,
        keys: keys.as_bytes(),
    };
    told_of_found(alloc, rays, claimed, &found)
}

/// What is told of a record.
fn told_of_record(
    alloc: Global,
    rays: &Rays,
    claimed: &ClaimedRecord<'_>,
    memo: &mut Memo,
) -> Result<Told, NoMemory>
    ensures told { IfOk result (λ told. IsToldBy claimed.now.place.now claimed.now.«record».now claimed.now.source
        (said_by claimed.now.source claimed.now.line.now claimed.now.words.now (words_in claimed.now.words.now) claimed.now.«record».now
        (truth (problem_of claimed.now.«record».now))) told.row.items told.verdict) }
    ensures source { IfOk result (λ told. told.source ≡ Some claimed.now.source) }
    ensures decided { IfOk result (λ told. told.is_decided ≡ true) }
    ensures room { memo.new.room ≡ memo.old.room }
    ensures within { memo.new.kept ≤ memo.new.room }
{
    // That a memo keeps no more than it has room for is this call's clause.
    memo.len();
    let outcome = solve(rays, &claimed.record.problem(), memo);
    told_of_outcome(alloc, rays, claimed, &outcome)
}

/// What is told of a line that isn't blank: of a record whether it keeps to what it claims. The place of the line, its number in its file for
/// one, is what its row begins with. Only a growth that is refused is an error.
#[tactic(auto, unfolding(chess_notation::specs::Claims::claim_words))]
pub fn told_of(
    alloc: Global,
    rays: &Rays,
    place: &[u8],
    line: &[u8],
    default: Bound,
    memo: &mut Memo,
) -> Result<Told, NoMemory>
    ensures told { IfOk result (λ told. IsTold place.now default line.now told.row.items told.verdict told.source) }
    ensures decided { IfOk result (λ told. told.is_decided ≡ true) }
    ensures room { memo.new.room ≡ memo.old.room }
    ensures within { memo.new.kept ≤ memo.new.room }
{
    // That a memo keeps no more than it has room for is this call's clause.
    memo.len();
    let words = claims_text(alloc, line)?;
    let bound = bound_claimed(words.as_slice(), default);
    match read_record(alloc, rays, line, bound) {
        Ok(record) => {
            let words = words.as_slice();
            let source = bound_source(alloc, rays, line, words, &record, default)?;
            let claimed = ClaimedRecord {
                place,
                line,
                record: &record,
                source,
                words,
            };
            told_of_record(alloc, rays, &claimed, memo)
        }
        Err(fault) => told_of_fault(alloc, place, fault),
    }
}

/// What is told of a line that isn't blank and says no record; nothing of one that says one, which has to be solved first.
#[tactic(auto, unfolding(chess_notation::specs::Claims::claim_words))]
pub(crate) fn told_unsolved(
    alloc: Global,
    rays: &Rays,
    place: &[u8],
    line: &[u8],
    default: Bound,
) -> Result<Option<Told>, NoMemory>
    ensures told { IfOk result (λ known. IfSome known (λ told. IsTold place.now default line.now told.row.items told.verdict told.source)) }
    ensures record { IfOk result (λ known. IfNone known (SaysClaimed line.now default)) }
{
    let words = claims_text(alloc, line)?;
    let within = bound_claimed(words.as_slice(), default);
    match read_record(alloc, rays, line, within) {
        Ok(record) => {
            bound_source(alloc, rays, line, words.as_slice(), &record, default)?;
            Ok(None)
        }
        Err(fault) => Ok(Some(told_of_fault(alloc, place, fault)?)),
    }
}
