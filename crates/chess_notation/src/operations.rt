//! The operations that a record keeps, in ASCII order of opcode.

ghost use Rattle.std.specs.Prelude.{◌≡◌, ◌≢◌, ℕ, ◌<◌, ◌≤◌, ◌++◌, ◌∷◌, List, [], IfOk, OnOk, OnErr};
ghost use Rattle.std.specs.Prelude.{string_bytes, length, IsTrue, true, false, if◌then◌else◌};
ghost use Rattle.std.specs.List.{list_all, insert};
ghost use Rattle.chess_notation.specs.Words.{word_at as word_of_text};
ghost use Rattle.chess_notation.specs.Segments.{segments_of};
ghost use Rattle.chess_notation.specs.Quoting.{squeezed_from};
ghost use Rattle.chess_notation.specs.Operations.{Entry, is_opcode, is_printable};
ghost use Rattle.chess_notation.specs.Opcodes.{is_own as is_own_opcode, operands_under, with_entry};
ghost use Rattle.chess_notation.specs.RecordFields.{entry_in};
ghost use Rattle.chess_notation.specs.EpdFaults.{has_opcode};
ghost use Rattle.chess_notation.specs.inside.RecordReading.{rest_of};

use crate::opcodes::{comes_before, is_own, is_same_text};
use crate::quoting::Mode;
use crate::records::Operation;
use crate::segments::first_segment;
use crate::words::word_at;
use arrayvec::ArrayString;
use std::alloc::{AllocError, Global};

/// Where an opcode belongs in a list that rises by opcode.
fn place_of(opcode: &[u8], operations: &[Operation]) -> usize
    ensures within { result ≤ length operations.now }
    ensures place { (entry : Entry) → entry.opcode ≡ opcode.now
        → with_entry entry operations.now ≡ insert operations.now result entry }
{
    for (index, operation) in operations.iter().enumerate() {
        if comes_before(opcode, operation.opcode.as_str().as_bytes()) {
            return index;
        }
    }
    operations.len()
}

/// Puts an operation at its place.
fn put(operations: &mut Vec<Operation>, operation: Operation) -> Result<(), AllocError>
    ensures { OnOk result (operations.new.items ≡ with_entry operation operations.old.items) }
{
    let place = place_of(operation.opcode.as_str().as_bytes(), operations.as_slice());
    operations.insert(place, operation)?;
    Ok(())
}

/// An opcode as a short text.
fn opcode_text(word: &[u8]) -> ArrayString<15>
    requires short { length word.now ≤ 15 }
    requires printable { IsTrue (list_all is_printable word.now) }
    ensures { result.bytes ≡ word.now }
{
    let mut text = ArrayString::new();
    for byte in word {
        text.push(*byte as char);
    }
    text
}

/// Adds a byte of the operands, with one space before each of them, and says what it leads to.
fn push_byte(operands: &mut String, mode: Mode, byte: u8) -> Result<Mode, AllocError>
    requires { byte < 128 }
    ensures { IfOk result (λ next. (rest : List ℕ)
        → string_bytes operands.old ++ squeezed_from mode (byte ∷ rest) ≡ string_bytes operands.new ++ squeezed_from next rest) }
{
    match mode {
        Mode::Closed => Ok(Mode::Gap),
        Mode::Gap if byte == b'"' => {
            operands.push(' ')?;
            operands.push('"')?;
            Ok(Mode::Quoted(0))
        }
        Mode::Gap | Mode::Plain if byte == b' ' => Ok(Mode::Gap),
        Mode::Gap => {
            operands.push(' ')?;
            operands.push(byte as char)?;
            Ok(Mode::Plain)
        }
        Mode::Plain => {
            operands.push(byte as char)?;
            Ok(Mode::Plain)
        }
        Mode::Quoted(_) => {
            operands.push(byte as char)?;
            Ok(if byte == b'"' {
                Mode::Closed
            } else {
                Mode::Quoted(0)
            })
        }
    }
}

/// The operands behind an opcode, each after one space.
fn operands_behind(alloc: Global, text: &[u8]) -> Result<String, AllocError>
    requires { IsTrue (list_all is_printable text.now) }
    ensures { IfOk result (λ operands. string_bytes operands ≡ squeezed_from Mode.Plain text.now) }
{
    let mut operands = String::new(alloc);
    let mut mode = Mode::Plain;
    for byte in text {
        mode = push_byte(&mut operands, mode, *byte)?;
    }
    Ok(operands)
}

/// The operation that a segment shows.
fn operation_of(alloc: Global, segment: &[u8]) -> Result<Operation, AllocError>
    requires opcode { is_opcode (word_of_text segment.now) ≡ true }
    requires printable { list_all is_printable segment.now ≡ true }
    ensures { IfOk result (λ operation. operation ≡ entry_in segment.now) }
{
    let (word, rest) = word_at(segment);
    let operands = operands_behind(alloc, rest)?;
    Ok(Operation {
        opcode: opcode_text(word),
        operands,
    })
}

/// Adds the operation of a segment, unless it is one that an answer writes itself.
fn add_segment(
    alloc: Global,
    operations: &mut Vec<Operation>,
    segment: &[u8],
) -> Result<(), AllocError>
    requires opcode { is_opcode (word_of_text segment.now) ≡ true }
    requires printable { list_all is_printable segment.now ≡ true }
    ensures ok { OnOk result (operations.new.items
        ≡ (if is_own_opcode (word_of_text segment.now) then operations.old.items
        else with_entry (entry_in segment.now) operations.old.items)) }
    ensures err { OnErr result (is_own_opcode (word_of_text segment.now) ≡ false) }
{
    if !is_own(word_at(segment).0) {
        put(operations, operation_of(alloc, segment)?)?;
    }
    Ok(())
}

/// The operations that a record keeps.
#[tactic(auto, unfolding(crate::specs::inside::RecordReading::rest_of))]
pub(crate) fn operations_of(alloc: Global, text: &[u8]) -> Result<Vec<Operation>, AllocError>
    requires opcodes { list_all has_opcode (segments_of text.now).ended ≡ true }
    requires printable { list_all is_printable text.now ≡ true }
    ensures ok { IfOk result (λ operations. operations.items ≡ rest_of (segments_of text.now).ended) }
    ensures err { OnErr result (rest_of (segments_of text.now).ended ≢ []) }
{
    let mut operations = Vec::new(alloc);
    let mut rest = text;
    while let Some((segment, back)) = first_segment(rest) {
        add_segment(alloc, &mut operations, segment)?;
        rest = back;
    }
    Ok(operations)
}

/// The operands of the operation with that opcode, each after one space; nothing where there is none.
pub fn kept_operands<'a>(operations: &'a [Operation], opcode: &[u8]) -> &'a [u8]
    ensures { result.now ≡ operands_under opcode.now operations.now }
{
    for operation in operations {
        if is_same_text(opcode, operation.opcode.as_str().as_bytes()) {
            return operation.operands.as_bytes();
        }
    }
    &[]
}
