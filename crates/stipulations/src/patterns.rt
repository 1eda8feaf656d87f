//! A number between what stands before and behind it, small and large letters alike.
//!
//! A text here is squeezed while it is read: each run of spaces counts as one, and those at its end as none.

ghost use Rattle.std.specs.Prelude.{◌≡◌, IfNone, IfSome, None, Some, map};
ghost use Rattle.std.specs.Char.{is_ascii_alphabetic, is_ascii_digit};
ghost use Rattle.std.specs.List.{list_any};
ghost use Rattle.stipulations.specs.Parts.{squeezed};
ghost use Rattle.stipulations.specs.Patterns.{behind_front as text_behind_front, behind_number as text_behind_number, behind_run};
ghost use Rattle.stipulations.specs.Patterns.{is_back as is_back_of, number_at, number_before as number_before_one};
ghost use Rattle.stipulations.specs.Patterns.{number_between as number_between_some, run};

use crate::numbers::{Language, number};
use crate::parts::{begins_with_digit, first_squeezed};

/// What stands behind a front, where a text begins with it, small and large letters alike.
pub(crate) fn behind_front<'t>(front: &str, text: &'t [u8]) -> Option<&'t [u8]>
    ensures some { IfSome result (λ behind. text_behind_front front.now (squeezed text.now) ≡ Some (squeezed behind.now)) }
    ensures none { IfNone result (text_behind_front front.now (squeezed text.now) ≡ None) }
{
    let mut front = front.as_bytes();
    let mut rest = text;
    while let [letter, more @ ..] = front {
        let (byte, behind) = first_squeezed(rest)?;
        if *letter != byte.to_ascii_lowercase() {
            return None;
        }
        front = more;
        rest = behind;
    }
    Some(rest)
}

/// The digits with which a text begins, and what stands behind them.
pub(crate) fn cut_digits(text: &[u8]) -> (&[u8], &[u8])
    ensures run { result.0.now ≡ run is_ascii_digit text.now }
    ensures behind { result.1.now ≡ behind_run is_ascii_digit text.now }
{
    for (index, byte) in text.iter().enumerate() {
        if !byte.is_ascii_digit() {
            return text.split_at(index);
        }
    }
    (text, &[])
}

/// The letters with which a text begins, and what stands behind them.
fn cut_letters(text: &[u8]) -> (&[u8], &[u8])
    ensures run { result.0.now ≡ run is_ascii_alphabetic text.now }
    ensures behind { result.1.now ≡ behind_run is_ascii_alphabetic text.now }
{
    for (index, byte) in text.iter().enumerate() {
        if !byte.is_ascii_alphabetic() {
            return text.split_at(index);
        }
    }
    (text, &[])
}

/// The number with which a text begins, in digits or in letters, and what stands behind it.
fn cut_number(text: &[u8]) -> (&[u8], &[u8])
    ensures number { result.0.now ≡ number_at (squeezed text.now) }
    ensures behind { squeezed result.1.now ≡ text_behind_number (squeezed text.now) }
{
    if begins_with_digit(text) {
        cut_digits(text)
    } else {
        cut_letters(text)
    }
}

/// Whether a text is a back, and no more.
fn is_back(text: &[u8], back: &str) -> bool
    ensures { result ≡ is_back_of (squeezed text.now) back.now }
{
    match behind_front(back, text) {
        Some(behind) => first_squeezed(behind).is_none(),
        None => false,
    }
}

/// Whether a text is one of the backs.
pub(crate) fn is_one_back(text: &[u8], backs: &[&str]) -> bool
    ensures { result ≡ list_any (is_back_of (squeezed text.now)) (map (λ back. back.now) backs.now) }
{
    for back in backs {
        if is_back(text, back) {
            return true;
        }
    }
    false
}

/// The number with which a text begins, where one of the backs follows, and nothing more.
fn number_before(language: Language, backs: &[&str], text: &[u8]) -> Option<u8>
    ensures { result ≡ number_before_one language (map (λ back. back.now) backs.now) (squeezed text.now) }
{
    let (digits_or_word, behind) = cut_number(text);
    if is_one_back(behind, backs) {
        number(language, digits_or_word)
    } else {
        None
    }
}

/// The number between one of the fronts and one of the backs.
pub(crate) fn number_between(
    language: Language,
    fronts: &[&str],
    backs: &[&str],
    text: &[u8],
) -> Option<u8>
    ensures { result ≡ number_between_some language (map (λ front. front.now) fronts.now) (map (λ back. back.now) backs.now) (squeezed text.now) }
{
    for front in fronts {
        if let Some(behind) = behind_front(front, text) {
            if let Some(number) = number_before(language, backs, behind) {
                return Some(number);
            }
        }
    }
    None
}
