//! Text as it stands in a page.

ghost use Rattle.std.specs.Prelude.{◌≡◌, ◌++◌, IfOk};
ghost use Rattle.problem_sheets.specs.Escaping.{escaped, escaped_byte};

use std::alloc::AllocError;

/// Adds what stands for a byte.
fn push_escaped_byte(text: &mut Vec<u8>, byte: u8) -> Result<(), AllocError>
    ensures { IfOk result (λ _. text.new.items ≡ text.old.items ++ escaped_byte byte) }
{
    if byte == b'&' {
        text.extend_from_slice(b"&amp;")
    } else if byte == b'<' {
        text.extend_from_slice(b"&lt;")
    } else if byte == b'>' {
        text.extend_from_slice(b"&gt;")
    } else if byte == b'"' {
        text.extend_from_slice(b"&quot;")
    } else if byte == b'\'' {
        text.extend_from_slice(b"&#39;")
    } else {
        text.push(byte)?;
        Ok(())
    }
}

/// Adds a text, whatever it holds, as text (HTML Standard, section 13.1.4): no byte that is added begins or ends markup.
pub(crate) fn push_escaped(text: &mut Vec<u8>, bytes: &[u8]) -> Result<(), AllocError>
    ensures { IfOk result (λ _. text.new.items ≡ text.old.items ++ escaped bytes.now) }
{
    for byte in bytes {
        push_escaped_byte(text, *byte)?;
    }
    Ok(())
}

/// Adds three texts as they are.
pub(crate) fn push_three(
    text: &mut Vec<u8>,
    first: &[u8],
    second: &[u8],
    third: &[u8],
) -> Result<(), AllocError>
    ensures { IfOk result (λ _. text.new.items ≡ text.old.items ++ first.now ++ second.now ++ third.now) }
{
    text.extend_from_slice(first)?;
    text.extend_from_slice(second)?;
    text.extend_from_slice(third)
}
