//! A word, cut into its parts.

ghost use Rattle.std.specs.Prelude.{◌≡◌};
ghost use Rattle.move_words.specs.Parts.{after_opening, castling_wing, is_oh as is_oh_byte, parts_of as parts_of_word, wing_behind as wing_behind_of};
ghost use Rattle.move_words.specs.Parts.{wing_if as wing_if_of};

use crate::languages::Letters;
use crate::letters::{Sign, becoming_at, is_end, man_at, sign_at};
use crate::places::{Place, place_at};
use chess_board::{Kind, Wing};

/// The parts of a word: a man's letter, a place, a sign, another place, and what a pawn becomes, each or none; and whether what stands
/// behind says nothing more.
#[derive(Clone, Copy)]
pub struct Parts {
    pub man: Option<Kind>,
    pub first: Place,
    pub sign: Option<Sign>,
    pub second: Place,
    pub promotion: Option<Kind>,
    pub is_ended: bool,
}

/// A text without the sign that may stand before what a pawn becomes.
fn without_opening(text: &[u8]) -> &[u8]
    ensures { result.now ≡ after_opening text.now }
{
    match text {
        [b'=' | b'(' | b'/', rest @ ..] => rest,
        _ => text,
    }
}

/// A word, cut into its parts.
pub(crate) fn parts_of(letters: &Letters, word: &[u8]) -> Parts
    ensures { result ≡ parts_of_word letters.now word.now }
{
    let (man, rest) = man_at(letters, word);
    let (first, rest) = place_at(rest);
    let (sign, rest) = sign_at(rest);
    let (second, rest) = place_at(rest);
    let (promotion, rest) = becoming_at(letters, without_opening(rest));
    Parts {
        man,
        first,
        sign,
        second,
        promotion,
        is_ended: is_end(rest),
    }
}

/// Whether a byte is the letter O, or the digit that is written for it.
fn is_oh(byte: u8) -> bool
    ensures { result ≡ is_oh_byte byte }
{
    byte == b'O' || byte == b'0'
}

/// The wing, if a text says nothing more.
fn wing_if(wing: Wing, text: &[u8]) -> Option<Wing>
    ensures { result ≡ wing_if_of wing text.now }
{
    if is_end(text) { Some(wing) } else { None }
}

/// The wing on which a word castles that has this behind its second O.
fn wing_behind(text: &[u8]) -> Option<Wing>
    ensures { result ≡ wing_behind_of text.now }
{
    match text {
        [b'-', oh, rest @ ..] if is_oh(*oh) => wing_if(Wing::QueenSide, rest),
        _ => wing_if(Wing::KingSide, text),
    }
}

/// The wing on which a word says that the king castles.
pub(crate) fn castling_wing(word: &[u8]) -> Option<Wing>
    ensures { result ≡ castling_wing word.now }
{
    match word {
        [first, b'-', second, rest @ ..] if is_oh(*first) && is_oh(*second) => wing_behind(rest),
        _ => None,
    }
}
