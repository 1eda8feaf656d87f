//! The tag pairs of a game in PGN (Portable Game Notation Specification, section 8.1.1): which lines are one, and their values.

ghost use Rattle.std.specs.Prelude.{◌≡◌, ◌++◌, IfOk, codes, false};
ghost use Rattle.chess_notation.specs.Operations.{is_opcode_byte};
ghost use Rattle.problem_import.specs.Sources.{IsNamed, fen_read, value_from};
ghost use Rattle.problem_import.specs.TagPairs.{EndsText, after_name as text_after_name, begins_with as does_begin_with};
ghost use Rattle.problem_import.specs.TagPairs.{begins_with_name as does_begin_with_name, ends_pair as does_end_pair};
ghost use Rattle.problem_import.specs.TagPairs.{is_bracket as is_bracket_text, is_named as is_named_text};
ghost use Rattle.problem_import.specs.TagPairs.{is_tag_pair as is_tag_pair_text, is_value as is_value_text};

use crate::texts::{is_word, trimmed, without_first};
use chess_notation::after_spaces;
use lettered_placements::line_read;
use move_words::Letters;
use std::alloc::{AllocError, Global};

/// Whether a text begins with a byte.
pub(crate) fn begins_with(byte: u8, text: &[u8]) -> bool
    ensures { result ≡ does_begin_with byte text.now }
{
    match text {
        [] => false,
        [first, ..] => *first == byte,
    }
}

/// Whether a byte may stand in a tag's name.
fn is_name_byte(byte: u8) -> bool
    ensures { result ≡ is_opcode_byte byte }
{
    byte.is_ascii_alphabetic() || byte.is_ascii_digit() || byte == b'_'
}

/// The text behind a tag's name.
fn after_name(text: &[u8]) -> &[u8]
    ensures { result.now ≡ text_after_name text.now }
{
    let mut rest = text;
    while let [first, more @ ..] = rest {
        if !is_name_byte(*first) {
            return rest;
        }
        rest = more;
    }
    rest
}

/// Whether a text begins with a tag's name.
fn begins_with_name(text: &[u8]) -> bool
    ensures { result ≡ does_begin_with_name text.now }
{
    match text {
        [] => false,
        [first, ..] => is_name_byte(*first),
    }
}

/// Whether a text is a bracket, and no more.
fn is_bracket(text: &[u8]) -> bool
    ensures { result ≡ is_bracket_text text.now }
{
    match text {
        [byte] => *byte == b']',
        _ => false,
    }
}

/// Whether a quotation mark and a bracket end a text.
fn ends_pair(text: &[u8]) -> bool
    ensures { result ≡ does_end_pair text.now }
{
    let mut rest = text;
    while let [first, more @ ..] = rest {
        if *first == b'"' && is_bracket(after_spaces(more)) {
            return true;
        }
        rest = more;
    }
    false
}

/// Whether a text is a value in quotation marks, and a bracket.
fn is_value(text: &[u8]) -> bool
    ensures { result ≡ is_value_text text.now }
{
    begins_with(b'"', text) && ends_pair(without_first(text, 1))
}

/// Whether a text is a name, a value and a bracket.
fn is_named(text: &[u8]) -> bool
    ensures { result ≡ is_named_text text.now }
{
    begins_with_name(text) && is_value(after_spaces(after_name(text)))
}

/// Whether a line is a tag pair, `[Name "value"]`, and nothing else.
pub(crate) fn is_tag_pair(text: &[u8]) -> bool
    ensures { result ≡ is_tag_pair_text text.now }
{
    begins_with(b'[', text) && is_named(after_spaces(without_first(text, 1)))
}

/// Takes the value of a tag pair, up to its last quotation mark but those behind a backslash; gives what stands behind.
pub(crate) fn take_value<'t>(value: &mut Vec<u8>, text: &'t [u8]) -> Result<&'t [u8], AllocError>
    ensures value { IfOk result (λ _. value.new.items ≡ value.old.items ++ value_from false text.now) }
    ensures rest { IfOk result (λ rest. EndsText rest.now text.now) }
{
    let mut is_escaped = false;
    for (index, byte) in text.iter().enumerate() {
        if is_escaped {
            value.push(*byte)?;
            is_escaped = false;
        } else if *byte == b'\\' {
            is_escaped = true;
        } else if *byte == b'"' {
            return Ok(text.split_at(index + 1).1);
        } else {
            value.push(*byte)?;
        }
    }
    Ok(&[])
}

/// The value of a tag: that of `FEN` with English letters, and without white space at its ends.
pub(crate) fn value_read(
    alloc: Global,
    letters: &Letters,
    name: &[u8],
    value: Vec<u8>,
) -> Result<Vec<u8>, AllocError>
    ensures fen { IfOk result (λ read. IsNamed name.now (codes "FEN") → read.items ≡ fen_read letters.now value.items) }
    ensures other { IfOk result (λ read. ¬ (IsNamed name.now (codes "FEN")) → read.items ≡ value.items) }
{
    if !is_word(name, "FEN") {
        return Ok(value);
    }
    if letters.is_english() {
        return Vec::from_slice(alloc, trimmed(value.as_slice()));
    }
    let read = line_read(alloc, letters, value.as_slice())?;
    Vec::from_slice(alloc, trimmed(read.as_slice()))
}
