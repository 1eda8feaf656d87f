//! Strings of JSON, and operands as an array of them.

ghost use Rattle.std.specs.Prelude.{◌≡◌, ◌<◌, ◌++◌, ◌∷◌, [], IfOk, OnOk, flat_map};
ghost use Rattle.json_replies.specs.declared.strings.ScanState.TheVariants.{Between};
ghost use Rattle.json_replies.specs.Strings.{array, closed as closed_of, control, escaped, hex_digit, next_state as next_state_of};
ghost use Rattle.json_replies.specs.Strings.{string, strings as strings_of, written};

use crate::cuts::without_first;
use std::alloc::{AllocError, Global};

/// Adds a byte.
pub(crate) fn push_byte(out: &mut Vec<u8>, byte: u8) -> Result<(), AllocError>
    ensures { OnOk result (out.new.items ≡ out.old.items ++ byte ∷ []) }
{
    out.push(byte)?;
    Ok(())
}

/// The hexadecimal digit of 0 to 15.
fn hex_digit(n: u8) -> u8
    requires { n < 16 }
    ensures { result ≡ hex_digit n }
{
    if n < 10 { b'0' + n } else { b'a' + (n - 10) }
}

/// Adds a control character.
fn push_control(out: &mut Vec<u8>, byte: u8) -> Result<(), AllocError>
    requires { byte < 32 }
    ensures { OnOk result (out.new.items ≡ out.old.items ++ control byte) }
{
    if byte < 16 {
        out.extend_from_slice(b"\\u000")?;
        return push_byte(out, hex_digit(byte));
    }
    out.extend_from_slice(b"\\u001")?;
    push_byte(out, hex_digit(byte - 16))
}

/// Adds a byte of a string.
fn push_escaped(out: &mut Vec<u8>, byte: u8) -> Result<(), AllocError>
    ensures { OnOk result (out.new.items ≡ out.old.items ++ escaped byte) }
{
    match byte {
        b'"' => out.extend_from_slice(b"\\\""),
        b'\\' => out.extend_from_slice(b"\\\\"),
        0..=31 => push_control(out, byte),
        _ => push_byte(out, byte),
    }
}

/// Adds the bytes of a string.
fn push_bytes(out: &mut Vec<u8>, text: &[u8]) -> Result<(), AllocError>
    ensures { OnOk result (out.new.items ≡ out.old.items ++ flat_map escaped text.now) }
{
    for byte in text {
        push_escaped(out, *byte)?;
    }
    Ok(())
}

/// Adds the string of a text.
#[tactic(auto, unfolding(crate::specs::Strings::string))]
pub(crate) fn push_string(out: &mut Vec<u8>, text: &[u8]) -> Result<(), AllocError>
    ensures { OnOk result (out.new.items ≡ out.old.items ++ string text.now) }
{
    out.push(b'"')?;
    push_bytes(out, text)?;
    push_byte(out, b'"')
}

/// Where a byte of operands stands.
#[derive(Clone, Copy)]
enum ScanState {
    /// Between two operands.
    Between,
    /// In one that is no string.
    Word,
    /// In a string.
    Text,
}

/// Where a byte leads to.
fn next_state(state: ScanState, byte: u8) -> ScanState
    ensures { result ≡ next_state_of state byte }
{
    match state {
        ScanState::Between | ScanState::Word if byte == b' ' => ScanState::Between,
        ScanState::Between if byte == b'"' => ScanState::Text,
        ScanState::Between | ScanState::Word => ScanState::Word,
        ScanState::Text if byte == b'"' => ScanState::Between,
        ScanState::Text => ScanState::Text,
    }
}

/// Adds the first byte of an operand.
fn push_first(out: &mut Vec<u8>, byte: u8) -> Result<(), AllocError>
    ensures { OnOk result (out.new.items ≡ out.old.items ++ written Between byte) }
{
    if byte == b' ' {
        return Ok(());
    }
    out.extend_from_slice(b",\"")?;
    if byte == b'"' {
        return Ok(());
    }
    push_escaped(out, byte)
}

/// Adds what is written of a byte of operands.
fn push_written(out: &mut Vec<u8>, state: ScanState, byte: u8) -> Result<(), AllocError>
    ensures { OnOk result (out.new.items ≡ out.old.items ++ written state byte) }
{
    match state {
        ScanState::Between => push_first(out, byte),
        ScanState::Word if byte == b' ' => push_byte(out, b'"'),
        ScanState::Text if byte == b'"' => push_byte(out, b'"'),
        ScanState::Word | ScanState::Text => push_escaped(out, byte),
    }
}

/// Adds what is written where operands end.
fn push_closed(out: &mut Vec<u8>, state: ScanState) -> Result<(), AllocError>
    ensures { OnOk result (out.new.items ≡ out.old.items ++ closed_of state) }
{
    match state {
        ScanState::Between => Ok(()),
        ScanState::Word | ScanState::Text => push_byte(out, b'"'),
    }
}

/// The strings of operands, each behind a comma.
#[tactic(auto, unfolding(crate::specs::Strings::strings))]
fn strings(alloc: Global, operands: &[u8]) -> Result<Vec<u8>, AllocError>
    ensures { IfOk result (λ text. text.items ≡ strings_of operands.now) }
{
    let mut text = Vec::new(alloc);
    let mut state = ScanState::Between;
    for byte in operands {
        push_written(&mut text, state, *byte)?;
        state = next_state(state, *byte);
    }
    push_closed(&mut text, state)?;
    Ok(text)
}

/// Adds the array of operands as strings.
#[tactic(auto, unfolding(crate::specs::Strings::array))]
pub(crate) fn push_array(
    alloc: Global,
    out: &mut Vec<u8>,
    operands: &[u8],
) -> Result<(), AllocError>
    ensures { OnOk result (out.new.items ≡ out.old.items ++ array operands.now) }
{
    let text = strings(alloc, operands)?;
    out.push(b'[')?;
    out.extend_from_slice(without_first(text.as_slice()))?;
    push_byte(out, b']')
}
