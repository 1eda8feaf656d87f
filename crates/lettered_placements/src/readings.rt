//! Texts whose first word may be a placement, read.

ghost use Rattle.std.specs.Prelude.{◌≡◌, ◌≤◌, IfOk, IfSome, length, map, position};
ghost use Rattle.std.specs.Char.{is_ascii_whitespace};
ghost use Rattle.lettered_placements.specs.Readings.{capital_read as capital_of, is_placement as is_placement_word, letter_read as byte_read};
ghost use Rattle.lettered_placements.specs.Readings.{line_read as line_of, placement_length as length_of, text_read as text_of};

use chess_board::Kind;
use move_words::Letters;
use std::alloc::{AllocError, Global};

/// Whether a word is a placement, as far as can be seen: it has three strokes.
fn is_placement(word: &[u8]) -> bool
    ensures { result ≡ is_placement_word word.now }
{
    word.iter().filter(|byte| **byte == b'/').count() >= 3
}

/// What stands for a man's capital.
fn capital_read(kind: Option<Kind>) -> u8
    ensures { result ≡ capital_of kind }
{
    match kind {
        Some(kind) => kind.letter(),
        None => b'?',
    }
}

/// What stands for a byte of a placement.
fn letter_read(letters: &Letters, byte: u8) -> u8
    ensures { result ≡ byte_read letters.now byte }
{
    if letters.behind_king.is_some() {
        byte
    } else if byte.is_ascii_uppercase() {
        capital_read(letters.kind(byte))
    } else if byte.is_ascii_lowercase() {
        capital_read(letters.kind(byte.to_ascii_uppercase())).to_ascii_lowercase()
    } else {
        byte
    }
}

/// How many bytes stand before the first white space, if some does.
fn word_length(text: &[u8]) -> Option<usize>
    ensures length { result ≡ position is_ascii_whitespace text.now }
    ensures few { IfSome result (λ n. n ≤ length text.now) }
{
    text.iter().position(|byte| byte.is_ascii_whitespace())
}

/// How many bytes the placement has with which a text begins, or 0.
fn placement_length(text: &[u8]) -> usize
    ensures length { result ≡ length_of text.now }
    ensures few { result ≤ length text.now }
{
    match word_length(text) {
        Some(length) if is_placement(text.split_at(length).0) => length,
        _ => 0,
    }
}

/// A placement, read.
fn word_read(alloc: Global, letters: &Letters, word: &[u8]) -> Result<Vec<u8>, AllocError>
    ensures { IfOk result (λ read. read.items ≡ map (byte_read letters.now) word.now) }
{
    word.iter()
        .map(|byte| letter_read(letters, *byte))
        .collect(alloc)
}

/// A text that begins with a placement and white space, read; another as it is.
pub fn text_read(alloc: Global, letters: &Letters, text: &[u8]) -> Result<Vec<u8>, AllocError>
    ensures { IfOk result (λ read. read.items ≡ text_of letters.now text.now) }
{
    let (word, rest) = text.split_at(placement_length(text));
    let mut read = word_read(alloc, letters, word)?;
    read.extend_from_slice(rest)?;
    Ok(read)
}

/// A line that begins with such a text, perhaps behind white space, read.
#[tactic(auto, unfolding(crate::specs::Readings::line_read))]
pub fn line_read(alloc: Global, letters: &Letters, line: &[u8]) -> Result<Vec<u8>, AllocError>
    ensures { IfOk result (λ read. read.items ≡ line_of letters.now line.now) }
{
    let text = line.trim_ascii_start();
    let front = line.split_at(line.len() - text.len()).0;
    let behind = text_read(alloc, letters, text)?;
    let mut read = Vec::from_slice(alloc, front)?;
    read.extend_from_slice(behind.as_slice())?;
    Ok(read)
}
