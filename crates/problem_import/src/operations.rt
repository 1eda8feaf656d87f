//! Operations of the records that are made: `dm` says a number of moves, and `id` what is told of a problem.

ghost use Rattle.std.specs.Prelude.{◌≡◌, ◌++◌, ℕ, List, IfOk, codes};
ghost use Rattle.std.specs.List.{list_all};
ghost use Rattle.chess_notation.specs.Operations.{is_opcode as is_opcode_text, is_opcode_byte as is_byte_of_opcode};
ghost use Rattle.problem_import.specs.inside.FieldTexts.{GoesOn};

use crate::changes::Changes;
use crate::texts::push_byte;
use crate::tokens::{Kind, token_at};
use chess_notation::word_at;
use std::alloc::AllocError;

/// The longest string of a record.
const LONGEST: usize = 255;

/// Adds a number of moves, in one digit or two.
fn push_moves(text: &mut Vec<u8>, moves: u8) -> Result<(), AllocError>
    ensures { IfOk result (λ _. (digits : List ℕ) × (text.new.items ≡ text.old.items ++ digits)) }
{
    if moves > 9 {
        text.push(b'0' + moves / 10 % 10)?;
    }
    push_byte(text, b'0' + moves % 10)
}

/// Adds an operation `dm` of so many moves.
pub(crate) fn push_bound_operation(text: &mut Vec<u8>, moves: u8) -> Result<(), AllocError>
    ensures { IfOk result (λ _. GoesOn text.old.items text.new.items) }
{
    text.extend_from_slice(b" dm ")?;
    push_moves(text, moves)?;
    push_byte(text, b';')?;
    Ok(())
}

/// Adds an operation `bm` with a key.
pub(crate) fn push_claim(text: &mut Vec<u8>, key: &[u8]) -> Result<(), AllocError>
    ensures claim { IfOk result (λ _. text.new.items ≡ text.old.items ++ (codes " bm " ++ (key.now ++ codes ";"))) }
    ensures apart { IfOk result (λ _. GoesOn text.old.items text.new.items) }
{
    text.extend_from_slice(b" bm ")?;
    text.extend_from_slice(key)?;
    push_byte(text, b';')?;
    Ok(())
}

fn is_opcode_byte(byte: u8) -> bool
    ensures { result ≡ is_byte_of_opcode byte }
{
    byte.is_ascii_alphabetic() || byte.is_ascii_digit() || byte == b'_'
}

fn are_opcode_bytes(text: &[u8]) -> bool
    ensures { result ≡ list_all is_byte_of_opcode text.now }
{
    for byte in text {
        if !is_opcode_byte(*byte) {
            return false;
        }
    }
    true
}

/// Whether a word may be an opcode: a letter followed by up to 14 letters, digits and underscores.
fn is_opcode(word: &[u8]) -> bool
    ensures { result ≡ is_opcode_text word.now }
{
    match word {
        [] => false,
        [first, rest @ ..] => {
            first.is_ascii_alphabetic() && rest.len() <= 14 && are_opcode_bytes(rest)
        }
    }
}

/// Whether no string among operands is longer than one of a record.
fn have_short_strings(operands: &[u8]) -> bool {
    let mut rest = operands;
    for _ in 0..operands.len() {
        let Some(token) = token_at(rest) else {
            return true;
        };
        if !matches!(token.kind, Kind::Word) && token.text.len() > LONGEST {
            return false;
        }
        rest = token.rest;
    }
    true
}

/// Whether words may be an operation of a record.
pub(crate) fn is_operation(words: &[u8]) -> bool {
    let (opcode, operands) = word_at(words);
    is_opcode(opcode) && have_short_strings(operands)
}

/// The words of a string, as many as it may have.
pub(crate) fn cut_words<'t>(words: &'t [u8], changes: &mut Changes) -> &'t [u8] {
    if words.len() <= LONGEST {
        return words;
    }
    changes.cut = true;
    words.split_at(LONGEST.min(words.len())).0
}

/// Adds a comment, of `c0` to `c8`.
pub(crate) fn push_comment(text: &mut Vec<u8>, number: u8, words: &[u8]) -> Result<(), AllocError>
    ensures { IfOk result (λ _. GoesOn text.old.items text.new.items) }
{
    text.extend_from_slice(b" c")?;
    push_byte(text, b'0' + number.min(8))?;
    text.extend_from_slice(b" \"")?;
    text.extend_from_slice(words)?;
    text.extend_from_slice(b"\";")?;
    Ok(())
}

/// Whether a value says something.
pub(crate) fn is_said(value: &[u8]) -> bool {
    for byte in value {
        if *byte != b'?' && *byte != b'.' && *byte != b'-' && *byte != b' ' {
            return true;
        }
    }
    false
}

/// Adds to the text of an `id` behind a comma, without double quotation marks, as far as there is room.
pub(crate) fn push_id(
    id: &mut Vec<u8>,
    value: &[u8],
    changes: &mut Changes,
) -> Result<(), AllocError> {
    if !is_said(value) {
        return Ok(());
    }
    if !id.is_empty() {
        id.extend_from_slice(b", ")?;
    }
    for byte in value {
        if id.len() >= LONGEST {
            changes.cut = true;
            break;
        }
        let plain = if *byte == b'"' { b'\'' } else { *byte };
        id.push(plain)?;
    }
    id.truncate(LONGEST);
    Ok(())
}

/// Adds an operation `id`, unless there is nothing in it.
pub(crate) fn push_id_operation(text: &mut Vec<u8>, id: &[u8]) -> Result<(), AllocError>
    ensures { IfOk result (λ _. GoesOn text.old.items text.new.items) }
{
    if id.is_empty() {
        return Ok(());
    }
    text.extend_from_slice(b" id \"")?;
    text.extend_from_slice(id)?;
    text.extend_from_slice(b"\";")?;
    Ok(())
}
