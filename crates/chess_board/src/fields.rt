//! The fields of a FEN after the placement, read and printed: side to move, castling, en passant target, counters.

ghost use Rattle.std.specs.Prelude.{◌≡◌, ◌≢◌, ◌↔◌, ℕ, ◌+◌, ◌++◌, ◌∷◌, ◌<◌, ◌≤◌, IsTrue, IfSome, IfNone, Option, decimal};
ghost use Rattle.arrayvec.specs.ArrayString.{array_string_len};
ghost use Rattle.chess_board.specs.declared.men.Colour.{Colour as ColourValue};
ghost use Rattle.chess_board.specs.Fields.{side_text, times, has_letter, rights_in, has_any, IsRightLetters, IsCastling, SpellsCastling};
ghost use Rattle.chess_board.specs.Fields.{castling_text, letter_if, target_rank, target_text, SpellsTarget, IsCounter, SpellsCounter};

use crate::men::{Colour, Rights};
use crate::squares::{Square, push_square};
use arrayvec::ArrayString;
use itoa::Buffer;

/// The side to move: `w` or `b`.
pub(crate) fn side_of_text(text: &[u8]) -> Option<Colour>
    ensures read { IfSome result (λ side. text.now ≡ side_text side) }
    ensures none { IfNone result ((side : ColourValue) → text.now ≢ side_text side) }
{
    match text {
        b"w" => Some(Colour::White),
        b"b" => Some(Colour::Black),
        _ => None,
    }
}

/// Writes the side to move.
pub(crate) fn push_side(text: &mut ArrayString<96>, side: Colour)
    requires { array_string_len text.old < 96 }
    ensures text { text.new.bytes ≡ text.old.bytes ++ side_text side }
    ensures short { array_string_len text.new ≤ array_string_len text.old + 1 }
{
    match side {
        Colour::White => text.push('w'),
        Colour::Black => text.push('b'),
    }
}

/// How often a letter stands in a text.
fn times(text: &[u8], letter: u8) -> usize
    ensures { result ≡ times letter text.now }
{
    text.iter().filter(|b| **b == letter).count()
}

fn has_letter(text: &[u8], letter: u8) -> bool
    ensures { result ≡ has_letter letter text.now }
{
    text.iter().any(|b| *b == letter)
}

/// Whether a text is letters of `KQkq`, one at least and none of them twice.
fn is_right_letters(text: &[u8]) -> bool
    ensures { IsTrue result ↔ IsRightLetters text.now }
{
    !text.is_empty()
        && text
            .iter()
            .all(|b| *b == b'K' || *b == b'Q' || *b == b'k' || *b == b'q')
        && times(text, b'K') <= 1
        && times(text, b'Q') <= 1
        && times(text, b'k') <= 1
        && times(text, b'q') <= 1
}

/// The rights whose letters stand in a text.
fn rights_in(text: &[u8]) -> Rights
    ensures { result ≡ rights_in text.now }
{
    Rights {
        white_king_side: has_letter(text, b'K'),
        white_queen_side: has_letter(text, b'Q'),
        black_king_side: has_letter(text, b'k'),
        black_queen_side: has_letter(text, b'q'),
    }
}

/// The castling rights: `-`, or letters of `KQkq` in any order.
pub(crate) fn rights_of_text(text: &[u8]) -> Option<Rights>
    ensures read { IfSome result (λ rights. SpellsCastling text.now rights) }
    ensures none { IfNone result (¬ (IsCastling text.now)) }
{
    if text == b"-".as_slice() || is_right_letters(text) {
        Some(rights_in(text))
    } else {
        None
    }
}

/// Whether some right is left.
fn has_any(rights: Rights) -> bool
    ensures { result ≡ has_any rights }
{
    rights.white_king_side
        || rights.white_queen_side
        || rights.black_king_side
        || rights.black_queen_side
}

/// Writes a right's letter where the right is left.
#[inline(always)]
fn push_if(text: &mut ArrayString<96>, has: bool, letter: char)
    requires room { array_string_len text.old < 96 }
    requires ascii { letter < 128 }
    ensures text { text.new.bytes ≡ text.old.bytes ++ letter_if has letter }
    ensures short { array_string_len text.new ≤ array_string_len text.old + 1 }
{
    if has {
        text.push(letter);
    }
}

/// Writes the castling rights in the order `KQkq`, or `-` where none is left.
pub(crate) fn push_castling(text: &mut ArrayString<96>, rights: Rights)
    requires { array_string_len text.old + 4 ≤ 96 }
    ensures text { text.new.bytes ≡ text.old.bytes ++ castling_text rights }
    ensures short { array_string_len text.new ≤ array_string_len text.old + 4 }
{
    if !has_any(rights) {
        text.push('-');
        return;
    }
    push_if(text, rights.white_king_side, 'K');
    push_if(text, rights.white_queen_side, 'Q');
    push_if(text, rights.black_king_side, 'k');
    push_if(text, rights.black_queen_side, 'q');
}

fn target_rank(side: Colour) -> u8
    ensures value { result ≡ target_rank side }
    ensures on_board { result < 8 }
{
    match side {
        Colour::White => 5,
        Colour::Black => 2,
    }
}

/// The en passant target: `-`, or a square on the target rank of the side to move.
pub(crate) fn target_of_text(side: Colour, text: &[u8]) -> Option<Option<Square>>
    ensures read { IfSome result (λ target. SpellsTarget side text.now target) }
    ensures none { IfNone result ((target : Option ℕ) → ¬ (SpellsTarget side text.now target)) }
{
    match text {
        [b'-'] => Some(None),
        [file, rank] if b'a' <= *file && *file <= b'h' && *rank == b'1' + target_rank(side) => {
            Some(Some(Square::numbered(8 * target_rank(side) + (*file - b'a'))))
        }
        _ => None,
    }
}

/// Writes the en passant target, or `-`.
pub(crate) fn push_target(text: &mut ArrayString<96>, target: &Option<Square>)
    requires { array_string_len text.old + 2 ≤ 96 }
    ensures { text.new.bytes ≡ text.old.bytes ++ target_text target.now }
{
    match target {
        None => text.push('-'),
        Some(square) => push_square(text, *square),
    }
}

/// A counter: one to four digits.
pub(crate) fn counter_of_text(text: &[u8]) -> Option<u16>
    ensures read { IfSome result (λ n. SpellsCounter text.now n) }
    ensures small { IfSome result (λ n. n ≤ 9999) }
    ensures none { IfNone result (¬ (IsCounter text.now)) }
{
    if text.is_empty() || text.len() > 4 || !text.iter().all(|b| b'0' <= *b && *b <= b'9') {
        return None;
    }
    let mut n = 0u16;
    for b in text {
        n = 10 * n + u16::from(*b - b'0');
    }
    Some(n)
}

/// Writes a space and a counter, without leading zeros.
pub(crate) fn push_counter(text: &mut ArrayString<128>, n: u16)
    requires room { array_string_len text.old + 5 ≤ 128 }
    requires small { n ≤ 9999 }
    ensures text { text.new.bytes ≡ text.old.bytes ++ 32 ∷ decimal n }
    ensures short { array_string_len text.new ≤ array_string_len text.old + 5 }
{
    let mut digits = Buffer::new();
    text.push(' ');
    text.push_str(digits.format(n));
}
