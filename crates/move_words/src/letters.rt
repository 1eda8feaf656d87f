//! What the letters and signs of a word say, each by itself.

ghost use Rattle.std.specs.Prelude.{◌≡◌, IfNone, IfSome, None, Some};
ghost use Rattle.std.specs.List.{list_all};
ghost use Rattle.move_words.specs.Letters.{are_kings as are_of_king, behind_man, file_of_letter, first_man, kind_becoming as becoming};
ghost use Rattle.move_words.specs.Languages.{kind_of_letter};
ghost use Rattle.move_words.specs.Letters.{is_sign as is_sign_byte, is_end as is_end_of, rank_of_digit};
ghost use Rattle.move_words.specs.Letters.{behind, is_p_end as is_p_end_of, said, sign_of as sign_of_byte, without_number as word_without_number};
ghost use Rattle.move_words.specs.Letters.{behind_number as text_behind_number};

use crate::languages::Letters;
use chess_board::{Colour, Kind};

/// What stands between two squares.
#[derive(Clone, Copy)]
pub enum Sign {
    /// A hyphen.
    Goes,
    /// The sign of a capture.
    Captures,
}

/// What a pawn becomes, by a capital or, as coordinates have it, a small letter.
fn kind_becoming(letters: &Letters, letter: u8) -> Option<Kind>
    ensures { result ≡ becoming letters.now letter }
{
    match letters.kind(letter.to_ascii_uppercase()) {
        Some(Kind::King | Kind::Pawn) => None,
        kind => kind,
    }
}

fn file_of(letter: u8) -> Option<u8>
    ensures { result ≡ file_of_letter letter }
{
    if b'a' <= letter && letter <= b'h' {
        Some(letter - b'a')
    } else {
        None
    }
}

fn rank_of(digit: u8) -> Option<u8>
    ensures { result ≡ rank_of_digit digit }
{
    if b'1' <= digit && digit <= b'8' {
        Some(digit - b'1')
    } else {
        None
    }
}

fn sign_of(byte: u8) -> Option<Sign>
    ensures { result ≡ sign_of_byte byte }
{
    match byte {
        b'-' => Some(Sign::Goes),
        b'x' | b':' => Some(Sign::Captures),
        _ => None,
    }
}

/// Whether they are the two letters of a king that has two.
fn are_kings(letters: &Letters, first: u8, second: u8) -> bool
    ensures { result ≡ are_of_king letters.now first second }
{
    match letters.behind_king {
        Some(behind) => first == letters.king && second == behind,
        None => false,
    }
}

/// The man whose letter a text begins with, if it is one's, and what stands behind.
fn letter_at<'t>(letters: &Letters, text: &'t [u8]) -> (Option<Kind>, &'t [u8])
    ensures said { result.0 ≡ said (kind_of_letter letters.now) text.now }
    ensures behind { result.1.now ≡ behind (kind_of_letter letters.now) text.now }
{
    let [first, rest @ ..] = text else {
        return (None, text);
    };
    match letters.kind(*first) {
        Some(kind) => (Some(kind), rest),
        None => (None, text),
    }
}

/// The man whose letter a text begins with, or whose two, and what stands behind.
pub(crate) fn man_at<'t>(letters: &Letters, text: &'t [u8]) -> (Option<Kind>, &'t [u8])
    ensures said { result.0 ≡ first_man letters.now text.now }
    ensures behind { result.1.now ≡ behind_man letters.now text.now }
{
    match text {
        [first, second, rest @ ..] if are_kings(letters, *first, *second) => {
            (Some(Kind::King), rest)
        }
        _ => letter_at(letters, text),
    }
}

/// The file whose letter a text begins with, and what stands behind.
pub(crate) fn file_at(text: &[u8]) -> (Option<u8>, &[u8])
    ensures said { result.0 ≡ said file_of_letter text.now }
    ensures behind { result.1.now ≡ behind file_of_letter text.now }
{
    let [first, rest @ ..] = text else {
        return (None, text);
    };
    match file_of(*first) {
        Some(file) => (Some(file), rest),
        None => (None, text),
    }
}

/// The rank whose digit a text begins with, and what stands behind.
pub(crate) fn rank_at(text: &[u8]) -> (Option<u8>, &[u8])
    ensures said { result.0 ≡ said rank_of_digit text.now }
    ensures behind { result.1.now ≡ behind rank_of_digit text.now }
{
    let [first, rest @ ..] = text else {
        return (None, text);
    };
    match rank_of(*first) {
        Some(rank) => (Some(rank), rest),
        None => (None, text),
    }
}

/// The sign that a text begins with, and what stands behind.
pub(crate) fn sign_at(text: &[u8]) -> (Option<Sign>, &[u8])
    ensures said { result.0 ≡ said sign_of_byte text.now }
    ensures behind { result.1.now ≡ behind sign_of_byte text.now }
{
    let [first, rest @ ..] = text else {
        return (None, text);
    };
    match sign_of(*first) {
        Some(sign) => (Some(sign), rest),
        None => (None, text),
    }
}

/// What a text says first that a pawn becomes, and what stands behind.
pub(crate) fn becoming_at<'t>(letters: &Letters, text: &'t [u8]) -> (Option<Kind>, &'t [u8])
    ensures said { result.0 ≡ said (becoming letters.now) text.now }
    ensures behind { result.1.now ≡ behind (becoming letters.now) text.now }
{
    let [first, rest @ ..] = text else {
        return (None, text);
    };
    match kind_becoming(letters, *first) {
        Some(kind) => (Some(kind), rest),
        None => (None, text),
    }
}

fn is_sign(byte: u8) -> bool
    ensures { result ≡ is_sign_byte byte }
{
    matches!(byte, b'+' | b'#' | b'!' | b'?' | b',' | b'.' | b';' | b')')
}

/// Whether a text is signs alone, or none.
fn are_signs(text: &[u8]) -> bool
    ensures { result ≡ list_all is_sign_byte text.now }
{
    for byte in text {
        if !is_sign(*byte) {
            return false;
        }
    }
    true
}

/// Whether a text is a `p` and signs.
fn is_p_end(text: &[u8]) -> bool
    ensures { result ≡ is_p_end_of text.now }
{
    match text {
        [b'p', rest @ ..] => are_signs(rest),
        _ => false,
    }
}

/// Whether a text says nothing more of a move: `ep` or `e.p.`, if it is there, and signs.
pub(crate) fn is_end(text: &[u8]) -> bool
    ensures { result ≡ is_end_of text.now }
{
    match text {
        [b'e', b'.', rest @ ..] => is_p_end(rest),
        [b'e', rest @ ..] => is_p_end(rest),
        _ => are_signs(text),
    }
}

/// What stands behind the number of the first move.
fn behind_number(side: Colour, text: &[u8]) -> Option<&[u8]>
    ensures some { IfSome result (λ rest. text_behind_number side text.now ≡ Some rest.now) }
    ensures none { IfNone result (text_behind_number side text.now ≡ None) }
{
    match text {
        [b'.', b'.', rest @ ..] => {
            if side == Colour::Black {
                Some(rest)
            } else {
                None
            }
        }
        _ => Some(text),
    }
}

/// A word without the number of the first move before it; none where that is a move of Black's and White is to move.
pub(crate) fn without_number(side: Colour, word: &[u8]) -> Option<&[u8]>
    ensures some { IfSome result (λ text. word_without_number side word.now ≡ Some text.now) }
    ensures none { IfNone result (word_without_number side word.now ≡ None) }
{
    match word {
        [b'1', b'.', rest @ ..] => behind_number(side, rest),
        _ => Some(word),
    }
}
