//! The replies to lines that say no record.

ghost use Rattle.std.specs.Prelude.{◌≡◌, ◌≢◌, IfOk};
ghost use Rattle.text_lines.specs.Refusals.{fault_line};

use crate::replies::Output;
use chess_notation::{EpdFault, NoMemory};
use std::alloc::{AllocError, Global};

/// The reply to a line that says no record: its number and its fault, behind a `#`.
pub fn fault_text(alloc: Global, number: usize, fault: EpdFault) -> Result<Vec<u8>, AllocError>
    ensures { IfOk result (λ text. text.items ≡ fault_line number fault) }
{
    let mut text = Vec::new(alloc);
    text.extend_from_slice(b"# line ")?;
    text.extend_from_slice(number.to_string(alloc)?.as_bytes())?;
    text.extend_from_slice(b": ")?;
    text.extend_from_slice(fault.code().as_bytes())?;
    text.push(b'\n')?;
    Ok(text)
}

/// The reply to a line that was not read, which refuses it. Want of memory is no fault of the line, but an error.
pub fn refusal(alloc: Global, number: usize, fault: EpdFault) -> Result<Output, NoMemory>
    ensures fault { IfOk result (λ output. fault ≢ EpdFault.NoMemory) }
    ensures text { IfOk result (λ output. output.text.items ≡ fault_line number fault) }
    ensures one { IfOk result (λ output. output.refused ≡ 1) }
{
    if fault == EpdFault::NoMemory {
        return Err(NoMemory);
    }
    Ok(Output {
        text: fault_text(alloc, number, fault)?,
        refused: 1,
    })
}
