//! Lines of text, and what stands on one.

ghost use Rattle.std.specs.Prelude.{◌≡◌, ◌++◌, IfOk};
ghost use Rattle.chess_views.specs.Lines.{cell, line};

use std::alloc::{AllocError, Global};

/// Adds a line to a text.
pub fn push_line(text: &mut Vec<u8>, words: &str) -> Result<(), AllocError>
    ensures { IfOk result (λ _. text.new.items ≡ text.old.items ++ line words.now) }
{
    text.extend_from_slice(words.as_bytes())?;
    text.push(b'\n')?;
    Ok(())
}

/// Adds what stands in a column before the last, up to the tab behind it.
pub(crate) fn push_cell(text: &mut Vec<u8>, words: &str) -> Result<(), AllocError>
    ensures { IfOk result (λ _. text.new.items ≡ text.old.items ++ cell words.now) }
{
    text.extend_from_slice(words.as_bytes())?;
    text.push(b'\t')?;
    Ok(())
}

/// A text of one line.
pub(crate) fn one_line(alloc: Global, words: &str) -> Result<Vec<u8>, AllocError>
    ensures { IfOk result (λ text. text.items ≡ line words.now) }
{
    let mut text = Vec::new(alloc);
    push_line(&mut text, words)?;
    Ok(text)
}
