//! What a line claims of its keys: the operands of `bm`, moves and lengths.

ghost use Rattle.std.specs.Prelude.{◌≡◌, min, IfOk, IfErr, OnOk, Some, None};
ghost use Rattle.std.specs.List.{list_all};
ghost use Rattle.chess_problems.specs.Outcomes.{AreLegal};
ghost use Rattle.chess_notation.specs.Words.{words_in};
ghost use Rattle.chess_notation.specs.Segments.{segments_of};
ghost use Rattle.chess_notation.specs.AvoidMoves.{named};
ghost use Rattle.chess_notation.specs.Claims.{claim_fault_name, is_keys_segment as is_keys_of, keys_text_in, shut_byte as shut_byte_of};
ghost use Rattle.chess_notation.specs.Claims.{shut_from, claims_text as claims_text_of, is_length as is_length_word, length_value};
ghost use Rattle.chess_notation.specs.Claims.{length_claimed, is_some_if_length as is_some_length, is_small_if_length as is_small_length};
ghost use Rattle.chess_notation.specs.Claims.{is_claim as is_claim_of, claims_fault};

use crate::avoid_moves::{is_name, is_named};
use crate::opcodes::is_same_text;
use crate::problem_operations::capped_value;
use crate::record_fields::{is_number, operations_in};
use crate::segments::{first_segment, inside_after};
use crate::words::{is_blank, word_at};
use chess_board::Position;
use chess_moves::{MoveList, Rays, legal_moves};
use chess_problems::Bound;
use std::alloc::{AllocError, Global};
use thiserror::Error;

/// Why nothing can be said of the claims of a record, in the order in which the variants stand. It prints as its name.
#[derive(Clone, Copy, Debug, PartialEq, Eq, Error)]
pub enum ClaimFault {
    /// A `#N` has the value 0.
    #[error("BadBound")]
    BadBound,
    /// A `#N` has a value above 15.
    #[error("BoundTooLarge")]
    BoundTooLarge,
    /// Another claim names no legal move, or is a string.
    #[error("NoSuchMove")]
    NoSuchMove,
}

impl ClaimFault {
    /// The fault's name.
    pub fn code(&self) -> &'static str
        ensures { result.now ≡ claim_fault_name self.now }
    {
        match self {
            ClaimFault::BadBound => "BadBound",
            ClaimFault::BoundTooLarge => "BoundTooLarge",
            ClaimFault::NoSuchMove => "NoSuchMove",
        }
    }
}

/// Whether the opcode of a segment is `bm`.
fn is_keys_segment(segment: &[u8]) -> bool
    ensures { result ≡ is_keys_of segment.now }
{
    is_same_text(b"bm", word_at(segment).0)
}

/// What stands behind `bm`, or nothing.
#[tactic(auto, unfolding(crate::specs::Claims::keys_text_in))]
fn keys_text(text: &[u8]) -> &[u8]
    ensures { result.now ≡ keys_text_in (segments_of text.now).ended }
{
    let mut rest = text;
    while let Some((segment, back)) = first_segment(rest) {
        if is_keys_segment(segment) {
            return word_at(segment).1;
        }
        rest = back;
    }
    &[]
}

/// A byte, or a quotation mark where it is one of a string.
fn shut_byte(is_inside: bool, byte: u8) -> u8
    ensures { result ≡ shut_byte_of is_inside byte }
{
    if is_inside || byte == b'"' {
        b'"'
    } else {
        byte
    }
}

/// What a line claims, of which each word is an operand of `bm`: a string is so many quotation marks.
#[tactic(auto, unfolding(crate::specs::Claims::claims_text, crate::specs::RecordFields::cut_of))]
pub fn claims_text(alloc: Global, line: &[u8]) -> Result<Vec<u8>, AllocError>
    ensures { IfOk result (λ text. text.items ≡ claims_text_of line.now) }
{
    let mut text = Vec::new(alloc);
    let mut is_inside = false;
    for byte in keys_text(operations_in(line)) {
        text.push(shut_byte(is_inside, *byte))?;
        is_inside = inside_after(is_inside, *byte);
    }
    Ok(text)
}

/// Whether a word is `#` and digits.
fn is_length(word: &[u8]) -> bool
    ensures { result ≡ is_length_word word.now }
{
    match word {
        [b'#', digits @ ..] => is_number(digits),
        _ => false,
    }
}

/// The number behind the first byte of a word, or 16 where it is larger.
fn capped_length(word: &[u8]) -> u8
    ensures { result ≡ min (length_value word.now) 16 }
{
    match word {
        [_, digits @ ..] => capped_value(digits),
        [] => 0,
    }
}

/// The bound that is claimed: that of the first `#N`, where N is one, or the default.
#[tactic(auto, using(crate::proofs::WordLists::words_next, crate::proofs::WordLists::words_none, crate::proofs::WordLists::behind_shorter, crate::proofs::CappedValues::bound_capped))]
pub fn bound_claimed(words: &[u8], default: Bound) -> Bound
    ensures { result ≡ length_claimed (words_in words.now) default }
{
    let mut rest = words;
    while !is_blank(rest) {
        let (word, back) = word_at(rest);
        if is_length(word) {
            return Bound::new(capped_length(word)).unwrap_or(default);
        }
        rest = back;
    }
    default
}

/// Whether a word is no length of 0.
fn is_some_if_length(word: &[u8]) -> bool
    ensures { result ≡ is_some_length word.now }
{
    !is_length(word) || 0 < capped_length(word)
}

/// Whether no length that is claimed is 0.
#[tactic(auto, using(crate::proofs::WordLists::words_next, crate::proofs::WordLists::words_none, crate::proofs::WordLists::behind_shorter))]
fn are_some_lengths(words: &[u8]) -> bool
    ensures { result ≡ list_all is_some_length (words_in words.now) }
{
    let mut rest = words;
    while !is_blank(rest) {
        let (word, back) = word_at(rest);
        if !is_some_if_length(word) {
            return false;
        }
        rest = back;
    }
    true
}

/// Whether a word is no length above 15.
fn is_small_if_length(word: &[u8]) -> bool
    ensures { result ≡ is_small_length word.now }
{
    !is_length(word) || capped_length(word) <= 15
}

/// Whether no length that is claimed is above 15.
#[tactic(auto, using(crate::proofs::WordLists::words_next, crate::proofs::WordLists::words_none, crate::proofs::WordLists::behind_shorter))]
fn are_small_lengths(words: &[u8]) -> bool
    ensures { result ≡ list_all is_small_length (words_in words.now) }
{
    let mut rest = words;
    while !is_blank(rest) {
        let (word, back) = word_at(rest);
        if !is_small_if_length(word) {
            return false;
        }
        rest = back;
    }
    true
}

/// Whether a word is a length or names a legal move.
fn is_claim(rays: &Rays, position: &Position, word: &[u8]) -> bool
    ensures { result ≡ is_claim_of position.now word.now }
{
    is_length(word) || is_name(rays, position, word)
}

/// Whether each word is a length or names a legal move.
#[tactic(auto, using(crate::proofs::WordLists::words_next, crate::proofs::WordLists::words_none, crate::proofs::WordLists::behind_shorter))]
fn are_claims(rays: &Rays, position: &Position, words: &[u8]) -> bool
    ensures { result ≡ list_all (is_claim_of position.now) (words_in words.now) }
{
    let mut rest = words;
    while !is_blank(rest) {
        let (word, back) = word_at(rest);
        if !is_claim(rays, position, word) {
            return false;
        }
        rest = back;
    }
    true
}

/// The legal moves that a word names.
#[tactic(auto, unfolding(crate::specs::AvoidMoves::named))]
fn moves_claimed(rays: &Rays, position: &Position, words: &[u8]) -> MoveList
    ensures { result.items ≡ named position.now (words_in words.now) }
{
    let mut moves = MoveList::new();
    for m in legal_moves(rays, position) {
        if is_named(rays, position, words, m) {
            moves.push(m);
        }
    }
    moves
}

/// The legal moves that are claimed, in the order of moves, or the first fault of the claims. It stands by itself, so that its list
/// takes no room where a problem is solved.
#[inline(never)]
pub fn claimed_moves(rays: &Rays, position: &Position, words: &[u8]) -> Result<MoveList, ClaimFault>
    ensures moves { IfOk result (λ moves. moves.items ≡ named position.now (words_in words.now)) }
    ensures legal { IfOk result (λ moves. AreLegal position.now moves.items) }
    ensures clear { OnOk result (claims_fault position.now (words_in words.now) ≡ None) }
    ensures refused { IfErr result (λ fault. claims_fault position.now (words_in words.now) ≡ Some fault) }
{
    if !are_some_lengths(words) {
        return Err(ClaimFault::BadBound);
    }
    if !are_small_lengths(words) {
        return Err(ClaimFault::BoundTooLarge);
    }
    if !are_claims(rays, position, words) {
        return Err(ClaimFault::NoSuchMove);
    }
    Ok(moves_claimed(rays, position, words))
}
