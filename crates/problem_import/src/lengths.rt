//! Numbers of moves, as collections write them.

ghost use Rattle.std.specs.Prelude.{◌≡◌, IfSome, drop, if◌then◌else◌, min};
ghost use Rattle.chess_board.specs.Fields.{digits_value};
ghost use Rattle.chess_notation.specs.Claims.{is_length as is_length_word};
ghost use Rattle.problem_import.specs.Numbers.{asked_by_sign as asked_by_sign_of, bound_of_word as bound_of_text};
ghost use Rattle.stipulations.specs.Stipulations.{asked};

use crate::texts::{are_digits, is_word, trimmed, without_first};
use chess_notation::word_at;
use stipulations::{Asked, moves_asked};

/// Whether a word is `#N`.
pub(crate) fn is_length(word: &[u8]) -> bool
    ensures { result ≡ is_length_word word.now }
{
    match word {
        [b'#', digits @ ..] => are_digits(digits),
        _ => false,
    }
}

/// The digits of a word `#N`.
pub(crate) fn length_digits(word: &[u8]) -> Option<&[u8]> {
    if is_length(word) {
        Some(without_first(word, 1))
    } else {
        None
    }
}

/// A word without the sign before it, if it is `#N`.
fn without_sign(word: &[u8]) -> &[u8]
    ensures { result.now ≡ if is_length_word word.now then drop 1 word.now else word.now }
{
    if is_length(word) {
        without_first(word, 1)
    } else {
        word
    }
}

/// The number that digits spell, or 16 where it is larger.
fn capped_value(digits: &[u8]) -> u8
    ensures { result ≡ min (digits_value digits.now) 16 }
{
    let mut value = 0u8;
    for byte in digits {
        value = (10 * value + byte.saturating_sub(b'0').min(16)).min(16);
    }
    value
}

/// The number of moves that `dm` asks by a word `N` or `#N`, or 16 where it is larger.
pub(crate) fn bound_of_word(word: &[u8]) -> u8
    ensures { result ≡ bound_of_text word.now }
{
    capped_value(without_sign(word))
}

/// Whether a word is `#N` or `N#`.
fn is_signed(word: &[u8]) -> bool {
    match word {
        [digits @ .., b'#'] if are_digits(digits) => true,
        _ => is_length(word),
    }
}

/// The number of moves of a word `#N` or `N#`, of one digit or two.
pub(crate) fn moves_signed(word: &[u8]) -> Option<u8>
    ensures { IfSome result (λ moves. asked word.now ≡ Asked.Moves moves) }
{
    if !is_signed(word) {
        return None;
    }
    match moves_asked(word) {
        Asked::Moves(moves) => Some(moves),
        Asked::Nothing | Asked::Two | Asked::Unknown => None,
    }
}

/// What a word asks that is a sign, as `#2`.
pub(crate) fn asked_by_sign(word: &[u8]) -> Asked
    ensures { result ≡ asked_by_sign_of word.now }
{
    if is_length(word) {
        moves_asked(word)
    } else {
        Asked::Nothing
    }
}

/// The digits of a number that stands alone, with or without a `#`.
fn number_digits(word: &[u8]) -> Option<&[u8]> {
    if are_digits(word) {
        Some(word)
    } else {
        length_digits(word)
    }
}

/// The digits of `mate in N`, with nothing behind but `moves`.
pub(crate) fn mate_digits(text: &[u8]) -> Option<&[u8]> {
    let (mate, rest) = word_at(text);
    let (within, rest) = word_at(rest);
    let (number, rest) = word_at(rest);
    let last = trimmed(rest);
    if !is_word(mate, "mate") || !is_word(within, "in") {
        return None;
    }
    if !(last.is_empty() || is_word(last, "moves") || is_word(last, "move")) {
        return None;
    }
    number_digits(number)
}
