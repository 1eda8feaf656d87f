//! A number of moves that is cut off from the one before it.

ghost use Rattle.std.specs.Prelude.{◌≡◌};
ghost use Rattle.chess_board.specs.Characters.{char};
ghost use Rattle.stipulations.specs.OtherNumbers.{any_word, is_beside as is_word_beside, is_gap as is_byte_of_gap, is_inside};
ghost use Rattle.stipulations.specs.OtherNumbers.{is_neither as is_word_neither, is_number as is_word_number};
ghost use Rattle.stipulations.specs.OtherNumbers.{says_other_number as does_say_other};
ghost use Rattle.stipulations.specs.Patterns.{run};

use crate::numbers::{Language, number};
use crate::words::is_among;

static WORDS_BESIDE: [&str; 31] = [
    "or",
    "oder",
    "ou",
    "o",
    "of",
    "lub",
    "ili",
    "bzw",
    "to",
    "bis",
    "move",
    "moves",
    "zug",
    "zuge",
    "zuege",
    "zugen",
    "zuegen",
    "coup",
    "coups",
    "jugada",
    "jugadas",
    "movimientos",
    "mossa",
    "mosse",
    "zet",
    "zetten",
    "posuniec",
    "posunieciach",
    "khod",
    "khoda",
    "khodov",
];

/// Whether a word stands beside numbers of moves, or between two.
#[tactic(auto, unfolding(crate::specs::OtherNumbers::is_beside))]
fn is_beside(word: &[u8]) -> bool
    ensures { result ≡ is_word_beside word.now }
{
    is_among(word, &WORDS_BESIDE)
}

/// Whether a word is a number, in digits or in a word of any language.
#[tactic(auto, unfolding(crate::specs::OtherNumbers::is_number))]
fn is_number(word: &[u8]) -> bool
    ensures { result ≡ is_word_number word.now }
{
    number(Language::English, word).is_some()
        || number(Language::German, word).is_some()
        || number(Language::French, word).is_some()
        || number(Language::Spanish, word).is_some()
        || number(Language::Italian, word).is_some()
        || number(Language::Dutch, word).is_some()
        || number(Language::Polish, word).is_some()
        || number(Language::Russian, word).is_some()
}

fn is_neither(word: &[u8]) -> bool
    ensures { result ≡ is_word_neither word.now }
{
    !(is_number(word) || is_beside(word))
}

pub(crate) fn is_gap(byte: u8) -> bool
    ensures { result ≡ is_byte_of_gap byte }
{
    matches!(byte, b' ' | b',' | b'?' | b'/')
}

/// The text up to the first gap.
pub(crate) fn first_word(text: &[u8]) -> &[u8]
    ensures { result.now ≡ run is_inside text.now }
{
    for (index, byte) in text.iter().enumerate() {
        if is_gap(*byte) {
            return text.split_at(index).0;
        }
    }
    text
}

/// Whether a word of a text is a number.
fn has_number(text: &[u8]) -> bool
    ensures { result ≡ any_word is_word_number (char " ") text.now }
{
    let mut before = b' ';
    let mut rest = text;
    while let [byte, more @ ..] = rest {
        if is_gap(before) && !is_gap(*byte) && is_number(first_word(rest)) {
            return true;
        }
        before = *byte;
        rest = more;
    }
    false
}

/// Whether a word of a text stands beside numbers of moves.
fn has_word_beside(text: &[u8]) -> bool
    ensures { result ≡ any_word is_word_beside (char " ") text.now }
{
    let mut before = b' ';
    let mut rest = text;
    while let [byte, more @ ..] = rest {
        if is_gap(before) && !is_gap(*byte) && is_beside(first_word(rest)) {
            return true;
        }
        before = *byte;
        rest = more;
    }
    false
}

/// Whether a word of a text does neither.
fn has_another(text: &[u8]) -> bool
    ensures { result ≡ any_word is_word_neither (char " ") text.now }
{
    let mut before = b' ';
    let mut rest = text;
    while let [byte, more @ ..] = rest {
        if is_gap(before) && !is_gap(*byte) && is_neither(first_word(rest)) {
            return true;
        }
        before = *byte;
        rest = more;
    }
    false
}

/// Whether a part of a text is numbers of moves and words that stand beside them.
#[tactic(auto, unfolding(crate::specs::OtherNumbers::says_other_number))]
pub(crate) fn says_other_number(part: &[u8]) -> bool
    ensures { result ≡ does_say_other part.now }
{
    has_number(part) && has_word_beside(part) && !has_another(part)
}
