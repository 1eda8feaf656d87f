//! The operations of an answer.

ghost use Rattle.std.specs.Prelude.{◌≡◌, codes, IfOk, map};
ghost use Rattle.std.specs.List.{list_any};
ghost use Rattle.chess_notation.specs.Opcodes.{same_text};
ghost use Rattle.chess_notation.specs.Segments.{segments_of};
ghost use Rattle.json_replies.specs.Answers.{are_keys, opcode_of as opcode_in, operands_of as operands_in, tells_mate as does_tell_mate};

use crate::cuts::{cut, without_first};
use chess_notation::first_segment;
use std::alloc::{AllocError, Global};

/// The operations of a text, without their semicolons.
pub(crate) fn operations_of(alloc: Global, text: &[u8]) -> Result<Vec<&[u8]>, AllocError>
    ensures { IfOk result (λ operations. map (λ o. o.now) operations.items ≡ (segments_of text.now).ended) }
{
    let mut operations = Vec::new(alloc);
    let mut rest = text;
    while let Some((operation, back)) = first_segment(rest) {
        operations.push(operation)?;
        rest = back;
    }
    Ok(operations)
}

/// The opcode of an operation, and its operands.
pub(crate) fn parts_of(operation: &[u8]) -> (&[u8], &[u8])
    ensures opcode { result.0.now ≡ opcode_in operation.now }
    ensures operands { result.1.now ≡ operands_in operation.now }
{
    cut(without_first(operation), b' ', 0)
}

fn is_keys(opcode: &[u8]) -> bool
    ensures { result ≡ same_text (codes "bm") opcode.now }
{
    matches!(opcode, [b'b', b'm'])
}

pub(crate) fn is_length(opcode: &[u8]) -> bool
    ensures { result ≡ same_text (codes "dm") opcode.now }
{
    matches!(opcode, [b'd', b'm'])
}

fn is_line(opcode: &[u8]) -> bool
    ensures { result ≡ same_text (codes "pv") opcode.now }
{
    matches!(opcode, [b'p', b'v'])
}

/// Whether there are keys among operations.
pub(crate) fn have_keys(operations: &[&[u8]]) -> bool
    ensures { result ≡ list_any are_keys (map (λ o. o.now) operations.now) }
{
    for operation in operations {
        if is_keys(parts_of(operation).0) {
            return true;
        }
    }
    false
}

/// Whether an operation of this opcode tells of a mate.
pub(crate) fn tells_mate(opcode: &[u8]) -> bool
    ensures { result ≡ does_tell_mate opcode.now }
{
    is_keys(opcode) || is_length(opcode) || is_line(opcode)
}
