//! The four fields with which a text begins, and what stands behind them.

ghost use Rattle.std.specs.Prelude.{◌≡◌, ◌≢◌, [], IfOk, IsTrue};
ghost use Rattle.chess_notation.specs.RecordFields.{fourth_word};
ghost use Rattle.problem_import.specs.Numbers.{behind_number as behind_number_of};
ghost use Rattle.problem_import.specs.inside.FieldTexts.{GoesOn, IsBehindFields};

use crate::texts::{are_digits, push_word, without_first};
use chess_board::{Position, read_fields};
use chess_notation::{FourWords, after_spaces, four_words, word_at};
use std::alloc::{AllocError, Global};

/// Whether a text has four words.
pub(crate) fn has_fields(text: &[u8]) -> bool
    ensures { IsTrue result → fourth_word text.now ≢ [] }
{
    let fields = four_words(text);
    if fields.target.is_empty() {
        return false;
    }
    true
}

/// What stands behind a counter, if one is there.
fn behind_number(text: &[u8]) -> &[u8]
    ensures { result.now ≡ behind_number_of text.now }
{
    let (word, more) = word_at(text);
    if are_digits(word) { more } else { text }
}

/// What stands behind two counters, as far as they are there.
pub(crate) fn behind_counters(behind: &[u8]) -> &[u8]
    ensures { result.now ≡ behind_number_of (behind_number_of behind.now) }
{
    behind_number(behind_number(behind))
}

/// Adds a counter behind a space, if one is there.
fn push_counter(text: &mut Vec<u8>, behind: &[u8]) -> Result<(), AllocError> {
    let (word, _) = word_at(behind);
    if are_digits(word) {
        push_word(text, word)?;
    }
    Ok(())
}

/// Adds two counters, as far as they are there, each behind a space; gives what stands behind.
pub(crate) fn push_counters<'t>(
    text: &mut Vec<u8>,
    behind: &'t [u8],
) -> Result<&'t [u8], AllocError>
    ensures { IfOk result (λ rest. rest.now ≡ behind_number_of (behind_number_of behind.now)) }
{
    push_counter(text, behind)?;
    let rest = behind_number(behind);
    push_counter(text, rest)?;
    Ok(behind_number(rest))
}

/// Adds what stands behind fields, with one space before it; nothing where that is blank.
pub(crate) fn push_behind(text: &mut Vec<u8>, more: &[u8]) -> Result<(), AllocError>
    ensures { IfOk result (λ _. GoesOn text.old.items text.new.items) }
{
    let more = after_spaces(more);
    if more.is_empty() {
        return Ok(());
    }
    push_word(text, more)?;
    Ok(())
}

/// The position that four fields say, if they say one.
pub(crate) fn position_of(words: &FourWords<'_>) -> Option<Position> {
    read_fields(words.placement, words.side, words.castling, words.target).ok()
}

/// Four fields with one space between each two, and what else is said behind another.
pub(crate) fn text_before(
    alloc: Global,
    words: &FourWords<'_>,
    more: &[u8],
) -> Result<Vec<u8>, AllocError>
    ensures { IfOk result (λ text. IsBehindFields
        (record { placement = words.now.placement.now; side = words.now.side.now; castling = words.now.castling.now; target = words.now.target.now })
        text.items) }
{
    let mut text = Vec::from_slice(alloc, words.placement)?;
    push_word(&mut text, words.side)?;
    push_word(&mut text, words.castling)?;
    push_word(&mut text, words.target)?;
    push_behind(&mut text, more)?;
    Ok(text)
}

/// Whether a word is a placement, as far as its ranks and letters tell.
pub(crate) fn is_placement(word: &[u8]) -> bool {
    let mut strokes = 0_usize;
    for byte in word {
        match *byte {
            b'/' => strokes = strokes.saturating_add(1),
            b'1'..=b'8' | b'p' | b'n' | b'b' | b'r' | b'q' | b'k' => {}
            b'P' | b'N' | b'B' | b'R' | b'Q' | b'K' => {}
            _ => return false,
        }
    }
    strokes == 7
}

/// How many men stand in a placement: White's, and Black's.
pub(crate) fn men_of(placement: &[u8]) -> (u8, u8) {
    let mut white = 0_u8;
    let mut black = 0_u8;
    for byte in placement {
        match *byte {
            b'A'..=b'Z' => white = white.saturating_add(1),
            b'a'..=b'z' => black = black.saturating_add(1),
            _ => {}
        }
    }
    (white, black)
}

/// Whether one of a text's words is a placement.
pub(crate) fn has_placement(text: &[u8]) -> bool {
    let mut rest = text;
    for _ in 0..text.len() {
        let (word, more) = word_at(rest);
        if is_placement(word) {
            return true;
        }
        rest = more;
    }
    false
}

/// How many strokes a text has up to a space or a quotation mark, whether a byte there is beyond ASCII, and how long that is.
fn word_of_ranks(text: &[u8]) -> (usize, bool, usize) {
    let mut strokes = 0_usize;
    let mut is_foreign = false;
    for (index, byte) in text.iter().enumerate() {
        match *byte {
            b' ' | b'\t' | b'"' => return (strokes, is_foreign, index),
            b'/' => strokes = strokes.saturating_add(1),
            byte if byte >= 0x80 => is_foreign = true,
            _ => {}
        }
    }
    (strokes, is_foreign, text.len())
}

/// Whether a placement stands in a line that has a letter beyond ASCII: one that looks as a man's may be another.
pub(crate) fn has_foreign_placement(line: &[u8]) -> bool {
    let mut rest = match line {
        [0xEF, 0xBB, 0xBF, more @ ..] => more,
        _ => line,
    };
    for _ in 0..line.len() {
        let (strokes, is_foreign, length) = word_of_ranks(rest);
        if strokes == 7 && is_foreign {
            return true;
        }
        if length >= rest.len() {
            return false;
        }
        rest = without_first(rest, length.saturating_add(1));
    }
    false
}
