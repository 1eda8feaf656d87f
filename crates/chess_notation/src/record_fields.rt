//! The fields of a record: the first four of a FEN, and behind them the text of the operations.

ghost use Rattle.std.specs.Prelude.{◌≡◌};
ghost use Rattle.std.specs.List.{list_all};
ghost use Rattle.chess_board.specs.Fens.{Fields};
ghost use Rattle.chess_notation.specs.Operations.{is_digit as is_digit_byte, is_printable as is_printable_byte};
ghost use Rattle.chess_notation.specs.RecordFields.{is_number as is_number_text, is_counter as is_counter_text, line_fields, behind_fields};
ghost use Rattle.chess_notation.specs.RecordFields.{behind_counters as text_behind_counters, operations_in as text_of_operations};

use crate::opcodes::is_digit;
use crate::words::word_at;

/// The first four words of a line, and what follows them.
#[derive(Clone, Copy)]
pub struct FourWords<'a> {
    pub placement: &'a [u8],
    pub side: &'a [u8],
    pub castling: &'a [u8],
    pub target: &'a [u8],
    pub behind: &'a [u8],
}

/// Whether each byte of a text is a decimal digit.
pub fn are_digits(text: &[u8]) -> bool
    ensures { result ≡ list_all is_digit_byte text.now }
{
    for byte in text {
        if !is_digit(*byte) {
            return false;
        }
    }
    true
}

/// Whether a word is digits, one at least.
pub(crate) fn is_number(word: &[u8]) -> bool
    ensures { result ≡ is_number_text word.now }
{
    !word.is_empty() && are_digits(word)
}

/// Whether a word is one to four digits.
fn is_counter(word: &[u8]) -> bool
    ensures { result ≡ is_counter_text word.now }
{
    is_number(word) && word.len() <= 4
}

/// Whether each byte is ASCII and no control.
pub(crate) fn are_printable(text: &[u8]) -> bool
    ensures { result ≡ list_all is_printable_byte text.now }
{
    for byte in text {
        if !(b' '..=b'~').contains(byte) {
            return false;
        }
    }
    true
}

/// The four fields that a line begins with, of which any may be empty, and what follows them.
#[tactic(auto, unfolding(crate::specs::RecordFields::fourth_word, crate::specs::RecordFields::line_fields, crate::specs::RecordFields::behind_fields))]
pub fn four_words(line: &[u8]) -> FourWords<'_>
    ensures fields { line_fields line.now
        ≡ record { placement = result.placement.now; side = result.side.now; castling = result.castling.now; target = result.target.now } }
    ensures behind { result.behind.now ≡ behind_fields line.now }
{
    let (placement, rest) = word_at(line);
    let (side, rest) = word_at(rest);
    let (castling, rest) = word_at(rest);
    let (target, behind) = word_at(rest);
    FourWords {
        placement,
        side,
        castling,
        target,
        behind,
    }
}

/// What follows two counters, where they are there.
#[tactic(auto, unfolding(crate::specs::RecordFields::behind_counters))]
fn behind_counters(text: &[u8]) -> &[u8]
    ensures { result.now ≡ text_behind_counters text.now }
{
    let (halfmove, more) = word_at(text);
    let (fullmove, rest) = word_at(more);
    let has_counters = is_counter(halfmove) && is_counter(fullmove);
    if has_counters { rest } else { text }
}

/// The text of the operations.
#[tactic(auto, unfolding(crate::specs::RecordFields::operations_in))]
pub fn operations_in(line: &[u8]) -> &[u8]
    ensures { result.now ≡ text_of_operations line.now }
{
    behind_counters(four_words(line).behind)
}
