//! Where the sign of a mate stands in a text.

ghost use Rattle.std.specs.Prelude.{◌≡◌, ◌==◌};
ghost use Rattle.chess_board.specs.Characters.{char};
ghost use Rattle.stipulations.specs.Parts.{begins_with, tidied};
ghost use Rattle.stipulations.specs.Signs.{has_digits_before_sign as are_digits_before_sign, has_joined_sign as is_sign_joined};
ghost use Rattle.stipulations.specs.Signs.{has_sign_before_digit as is_sign_before_digit, is_digits_and_sign as are_digits_and_sign};
ghost use Rattle.stipulations.specs.Signs.{begins_word as is_word_begun, has_twin as is_twin_named};
ghost use Rattle.stipulations.specs.Signs.{has_front as is_front_there, has_letter_and_sign as is_letter_and_sign};
ghost use Rattle.stipulations.specs.Signs.{has_parted_sign as is_sign_parted};
ghost use Rattle.stipulations.specs.Signs.{has_sign_apart as is_sign_apart, has_sign_behind as is_sign_behind, is_between as is_byte_between};
ghost use Rattle.stipulations.specs.Signs.{is_letter_or_hyphen as is_byte_of_joined, is_answer as is_text_of_answer};

use crate::numbers::Language;
use crate::parts::{begins_with_digit, trimmed};
use crate::patterns::number_between;

/// Whether the sign of a mate stands directly before a digit.
pub(crate) fn has_sign_before_digit(text: &[u8]) -> bool
    ensures { result ≡ is_sign_before_digit text.now }
{
    let mut rest = text;
    while let [byte, more @ ..] = rest {
        if *byte == b'#' && begins_with_digit(more) {
            return true;
        }
        rest = more;
    }
    false
}

fn begins_with_sign(text: &[u8]) -> bool
    ensures { result ≡ begins_with (λ next. next == char "#") text.now }
{
    match text {
        [first, ..] => *first == b'#',
        [] => false,
    }
}

/// Whether a text begins with digits and the sign of a mate directly behind them.
fn is_digits_and_sign(text: &[u8]) -> bool
    ensures { result ≡ are_digits_and_sign text.now }
{
    let mut rest = text;
    while let [byte, more @ ..] = rest {
        if !byte.is_ascii_digit() {
            return false;
        }
        if begins_with_sign(more) {
            return true;
        }
        rest = more;
    }
    false
}

/// Whether such digits stand behind a space, or where the text begins.
pub(crate) fn has_digits_before_sign(text: &[u8]) -> bool
    ensures { result ≡ are_digits_before_sign (char " ") text.now }
{
    let mut before = b' ';
    let mut rest = text;
    while let [byte, more @ ..] = rest {
        if before == b' ' && is_digits_and_sign(rest) {
            return true;
        }
        before = *byte;
        rest = more;
    }
    false
}

/// Whether a part is what is answered, and asks nothing: an engine's `-#4`, or `no mate in 3`.
pub(crate) fn is_answer(part: &[u8]) -> bool
    ensures { result ≡ is_text_of_answer (tidied part.now) }
{
    number_between(
        Language::Signs,
        &["-#", "no mate in "],
        &[""],
        trimmed(part),
    )
    .is_some()
}

fn begins_word(before: u8) -> bool
    ensures { result ≡ is_word_begun before }
{
    before == b' ' || before == b'('
}

fn begins_with_closing(text: &[u8]) -> bool
    ensures { result ≡ begins_with (λ next. next == char ")") text.now }
{
    match text {
        [first, ..] => *first == b')',
        [] => false,
    }
}

/// Whether a twin is named, as `b)`.
pub(crate) fn has_twin(text: &[u8]) -> bool
    ensures { result ≡ is_twin_named (char " ") text.now }
{
    let mut before = b' ';
    let mut rest = text;
    while let [byte, more @ ..] = rest {
        if begins_word(before) && byte.is_ascii_alphabetic() && begins_with_closing(more) {
            return true;
        }
        before = *byte;
        rest = more;
    }
    false
}

fn is_letter_or_hyphen(byte: u8) -> bool
    ensures { result ≡ is_byte_of_joined byte }
{
    byte.is_ascii_alphabetic() || byte == b'-'
}

/// Whether the sign of a mate stands between a letter or a hyphen and a digit.
pub(crate) fn has_joined_sign(text: &[u8]) -> bool
    ensures { result ≡ is_sign_joined (char " ") text.now }
{
    let mut before = b' ';
    let mut rest = text;
    while let [byte, more @ ..] = rest {
        if is_letter_or_hyphen(before) && *byte == b'#' && begins_with_digit(more) {
            return true;
        }
        before = *byte;
        rest = more;
    }
    false
}

/// Whether a byte may stand between a word and the sign that is its own.
fn is_between(byte: u8) -> bool
    ensures { result ≡ is_byte_between byte }
{
    matches!(byte, b' ' | b'.' | b':' | b'-' | b'(' | b')' | b',')
}

/// Whether the sign of a mate stands behind such bytes, before a digit or behind digits.
fn has_sign_behind(text: &[u8]) -> bool
    ensures { result ≡ is_sign_behind text.now }
{
    let mut rest = text;
    while let [byte, more @ ..] = rest {
        if !is_between(*byte) {
            return *byte == b'#' && begins_with_digit(more) || is_digits_and_sign(rest);
        }
        rest = more;
    }
    false
}

/// The same, and at least one such byte before it.
fn has_sign_apart(text: &[u8]) -> bool
    ensures { result ≡ is_sign_apart text.now }
{
    match text {
        [first, ..] => is_between(*first) && has_sign_behind(text),
        [] => false,
    }
}

/// Whether a text begins with a letter, and has the sign of a mate apart behind it.
fn has_letter_and_sign(text: &[u8]) -> bool
    ensures { result ≡ is_letter_and_sign text.now }
{
    match text {
        [first, behind @ ..] => first.is_ascii_alphabetic() && has_sign_apart(behind),
        [] => false,
    }
}

/// Whether a text begins with one letter or two, and has the sign of a mate apart behind them.
fn has_front(text: &[u8]) -> bool
    ensures { result ≡ is_front_there text.now }
{
    match text {
        [first, behind @ ..] => {
            first.is_ascii_alphabetic() && (has_sign_apart(behind) || has_letter_and_sign(behind))
        }
        [] => false,
    }
}

/// Whether the sign of a mate stands behind a word of one or two letters, as in `H. #2`.
pub(crate) fn has_parted_sign(text: &[u8]) -> bool
    ensures { result ≡ is_sign_parted (char " ") text.now }
{
    let mut before = b' ';
    let mut rest = text;
    while let [byte, more @ ..] = rest {
        if !before.is_ascii_alphabetic() && has_front(rest) {
            return true;
        }
        before = *byte;
        rest = more;
    }
    false
}
