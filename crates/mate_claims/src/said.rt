//! What comes of a record's claims: of the moves that `bm` names, and where it names none of the first of the line of play.

ghost use Rattle.std.specs.Prelude.{◌≡◌, ◌==◌, ◌++◌, IfOk, IfSome, None};
ghost use Rattle.chess_notation.specs.Words.{words_in};
ghost use Rattle.chess_notation.specs.AvoidMoves.{named};
ghost use Rattle.chess_notation.specs.Claims.{length_claimed};
ghost use Rattle.chess_notation.specs.MoveReading.{move_named};
ghost use Rattle.chess_notation.specs.Records.{problem_of};
ghost use Rattle.chess_problems.specs.Outcomes.{AreLegal, IsPlayable};
ghost use Rattle.mate_search.specs.inside.Truth.{truth};
ghost use Rattle.chess_problems.specs.declared.outcomes.Outcome.TheVariants.{NoMate};
ghost use Rattle.mate_claims.specs.LimitedClaims.{unjudged};
ghost use Rattle.mate_claims.specs.Rows.{listed, keys_found as keys_found_in};
ghost use Rattle.mate_claims.specs.Said.{claims_refusal, marked as marked_text, play_claimed as play_claimed_in, unread as unread_of};
ghost use Rattle.mate_claims.specs.Said.{said_by, said_of_moves as said_by_moves, said_of_play as said_by_play};

use crate::claim_verdicts::{ClaimVerdict, judge};
use crate::claimed_records::ClaimedRecord;
use crate::play_words::play_word;
use crate::rows::{Found, keys_found};
use byte_streams::NoMemory;
use chess_board::Move;
use chess_moves::{Rays, legal_listed};
use chess_notation::{
    ClaimFault, Record, bound_claimed, claimed_moves, listed_text, names_one, read_move, san,
};
use chess_problems::{Bound, Outcome};
use std::alloc::{AllocError, Global};

/// What comes of a record's claims.
#[derive(Drop)]
pub(crate) struct Said {
    /// The verdict's word, or the name of what is amiss with the claims.
    pub(crate) word: &'static str,
    /// The claims as the row has them, each word behind a space.
    pub(crate) claims: Vec<u8>,
    pub(crate) verdict: Option<ClaimVerdict>,
}

/// A claim of the line of play, marked as such.
fn marked(alloc: Global, text: &[u8]) -> Result<Vec<u8>, AllocError>
    ensures { IfOk result (λ claims. claims.items ≡ marked_text text.now) }
{
    let mut claims = Vec::from_slice(alloc, b" pv ")?;
    claims.extend_from_slice(text)?;
    Ok(claims)
}

/// What comes of claims of which nothing can be said, for a reason of this name.
fn unread(alloc: Global, name: &'static str, words: &[u8]) -> Result<Said, NoMemory>
    ensures { IfOk result (λ said. record { word = said.word.now; claims = said.claims.items; verdict = said.verdict }
        ≡ unread_of name.now words.now) }
{
    Ok(Said {
        word: name,
        claims: Vec::from_slice(alloc, words)?,
        verdict: None,
    })
}

/// What comes of the first word of the line of play, where that is claimed.
fn said_of_play(
    alloc: Global,
    rays: &Rays,
    claimed: &ClaimedRecord<'_>,
    outcome: &Outcome,
    word: &[u8],
) -> Result<Said, NoMemory>
    ensures { IfOk result (λ said. record { word = said.word.now; claims = said.claims.items; verdict = said.verdict }
        ≡ said_by_play claimed.now.source claimed.now.«record».now outcome.now word.now
        (move_named claimed.now.«record».now.position word.now)) }
{
    let record = claimed.record;
    let Some(m) = read_move(rays, &record.position, word) else {
        return Ok(Said {
            word: ClaimFault::NoSuchMove.code(),
            claims: marked(alloc, word)?,
            verdict: None,
        });
    };
    let verdict = judge(claimed.source, record.bound, &[m], outcome);
    let text = san(rays, &record.position, m);
    Ok(Said {
        word: verdict.code(),
        claims: marked(alloc, text.as_str().as_bytes())?,
        verdict: Some(verdict),
    })
}

/// The first word of the line of play, where the moves that `bm` claims, which are these, are none.
fn play_claimed<'a>(moves: &[Move], line: &'a [u8]) -> &'a [u8]
    ensures { result.now ≡ play_claimed_in moves.now line.now }
{
    match moves {
        [] => play_word(line),
        [_, ..] => &[],
    }
}

/// What comes of the moves that `bm` claims, of which this is the text, or of the line of play.
fn said_of_moves(
    alloc: Global,
    rays: &Rays,
    claimed: &ClaimedRecord<'_>,
    outcome: &Outcome,
    moves: &[Move],
    text: &[u8],
) -> Result<Said, NoMemory>
    requires text { text.now ≡ listed claimed.now.«record».now.position moves.now }
    ensures { IfOk result (λ said. record { word = said.word.now; claims = said.claims.items; verdict = said.verdict }
        ≡ said_by_moves claimed.now.source claimed.now.«record».now outcome.now moves.now (play_claimed_in moves.now claimed.now.line.now)) }
{
    let record = claimed.record;
    match play_claimed(moves, claimed.line) {
        [] => {
            let verdict = judge(claimed.source, record.bound, moves, outcome);
            Ok(Said {
                word: verdict.code(),
                claims: Vec::from_slice(alloc, text)?,
                verdict: Some(verdict),
            })
        }
        word => said_of_play(alloc, rays, claimed, outcome, word),
    }
}

/// Whether the first length that these words claim, if they claim one, is the one asked for.
fn agrees(words: &[u8], asked: Bound) -> bool
    ensures { result ≡ (length_claimed (words_in words.now) asked == asked) }
{
    bound_claimed(words, asked).get() == asked.get()
}

/// What comes of what the words claim, read word by word. It stands by itself, so that the moves that are claimed take no room where a
/// problem is solved.
#[inline(never)]
fn said_of_words(
    alloc: Global,
    rays: &Rays,
    claimed: &ClaimedRecord<'_>,
    outcome: &Outcome,
) -> Result<Said, NoMemory>
    ensures { IfOk result (λ said. record { word = said.word.now; claims = said.claims.items; verdict = said.verdict }
        ≡ said_by claimed.now.source claimed.now.line.now claimed.now.words.now (words_in claimed.now.words.now) claimed.now.«record».now outcome.now) }
{
    let (record, words) = (claimed.record, claimed.words);
    let named = match claimed_moves(rays, &record.position, words) {
        Ok(named) => named,
        Err(fault) => return unread(alloc, fault.code(), words),
    };
    if !agrees(words, record.bound) {
        return unread(alloc, "TwoLengths", words);
    }
    let moves = named.as_slice();
    let text = listed_text(alloc, rays, &record.position, moves)?;
    said_of_moves(alloc, rays, claimed, outcome, moves, text.as_bytes())
}

/// What comes of what the words claim, and the line of play, of a record that was not decided.
pub(crate) fn said_undecided(
    alloc: Global,
    rays: &Rays,
    claimed: &ClaimedRecord<'_>,
) -> Result<Said, NoMemory>
    ensures { IfOk result (λ said. record { word = said.word.now; claims = said.claims.items; verdict = said.verdict }
        ≡ unjudged (said_by claimed.now.source claimed.now.line.now claimed.now.words.now (words_in claimed.now.words.now) claimed.now.«record».now NoMate)) }
{
    let said = said_of_words(alloc, rays, claimed, &Outcome::NoMate)?;
    match said.verdict {
        Some(_) => Ok(Said {
            word: ClaimVerdict::Undecided.code(),
            claims: said.claims,
            verdict: Some(ClaimVerdict::Undecided),
        }),
        None => Ok(said),
    }
}

/// The moves that these words claim, where they are none or the keys as they are listed, and say no other length than the one asked for.
fn moves_listed<'a>(words: &[u8], record: &Record, found: &Found<'a>) -> Option<&'a [Move]>
    requires truth { found.now.outcome.now ≡ truth (problem_of «record».now) }
    requires playable { IsPlayable «record».now.position found.now.outcome.now }
    requires keys { found.now.keys.now ≡ listed «record».now.position (keys_found_in found.now.outcome.now) }
    ensures named { IfSome result (λ moves. named «record».now.position (words_in words.now) ≡ moves.now) }
    ensures clear { IfSome result (λ moves. claims_refusal «record».now.position «record».now.bound (words_in words.now) ≡ None) }
    ensures text { IfSome result (λ moves. words.now ≡ listed «record».now.position moves.now) }
{
    // That the words of the keys name them rests on these laws.
    legal_listed();
    names_one();
    if words.is_empty() {
        Some(&[])
    } else if words == found.keys && agrees(words, record.bound) {
        Some(keys_found(found.outcome))
    } else {
        None
    }
}

/// What comes of what the words claim, and the line of play. Most records claim no move, or their keys as they are listed; the others are
/// read word by word.
pub(crate) fn said_of_record(
    alloc: Global,
    rays: &Rays,
    claimed: &ClaimedRecord<'_>,
    found: &Found<'_>,
) -> Result<Said, NoMemory>
    requires truth { found.now.outcome.now ≡ truth (problem_of claimed.now.«record».now) }
    requires playable { IsPlayable claimed.now.«record».now.position found.now.outcome.now }
    requires keys { found.now.keys.now ≡ listed claimed.now.«record».now.position (keys_found_in found.now.outcome.now) }
    ensures { IfOk result (λ said. record { word = said.word.now; claims = said.claims.items; verdict = said.verdict }
        ≡ said_by claimed.now.source claimed.now.line.now claimed.now.words.now (words_in claimed.now.words.now) claimed.now.«record».now found.now.outcome.now) }
{
    match moves_listed(claimed.words, claimed.record, found) {
        Some(moves) => said_of_moves(alloc, rays, claimed, found.outcome, moves, claimed.words),
        None => said_of_words(alloc, rays, claimed, found.outcome),
    }
}
