//! Texts of bytes: what stands at their ends, and their words.

ghost use Rattle.std.specs.Prelude.{◌≡◌, ◌↔◌, ◌++◌, ◌∷◌, [], IfOk, IsTrue, drop};
ghost use Rattle.std.specs.Str.{bytes_eq};
ghost use Rattle.chess_board.specs.Characters.{char};
ghost use Rattle.chess_notation.specs.RecordFields.{is_number};
ghost use Rattle.problem_import.specs.Letters.{trimmed as trimmed_text};
ghost use Rattle.problem_import.specs.Sources.{IsNamed, before_byte, behind_byte};

use chess_notation::are_digits as are_all_digits;
use std::alloc::AllocError;

/// A text without spaces at either end.
pub(crate) fn trimmed(text: &[u8]) -> &[u8]
    ensures { result.now ≡ trimmed_text text.now }
{
    text.trim_ascii()
}

/// Whether a text is one or more digits.
pub(crate) fn are_digits(text: &[u8]) -> bool
    ensures { result ≡ is_number text.now }
{
    !text.is_empty() && are_all_digits(text)
}

/// Whether the one text is the other, small and large letters alike.
pub(crate) fn is_word(word: &[u8], other: &str) -> bool
    ensures { IsTrue result ↔ IsNamed word.now other.now }
{
    word.eq_ignore_ascii_case(other.as_bytes())
}

/// A text without a number of bytes at its front.
pub(crate) fn without_first(text: &[u8], count: usize) -> &[u8]
    ensures { result.now ≡ drop count text.now }
{
    text.split_at(count.min(text.len())).1
}

/// What stands up to the first byte of such a kind, and what stands behind it.
pub(crate) fn cut_at(text: &[u8], byte: u8) -> (&[u8], &[u8])
    ensures before { result.0.now ≡ before_byte byte text.now }
    ensures rest { result.1.now ≡ behind_byte byte text.now }
{
    for (index, other) in text.iter().enumerate() {
        if *other == byte {
            return (text.split_at(index).0, text.split_at(index + 1).1);
        }
    }
    (text, &[])
}

/// Whether the one text is the other.
pub(crate) fn is_same(text: &[u8], other: &str) -> bool
    ensures { result ≡ bytes_eq text.now other.now }
{
    text == other.as_bytes()
}

/// Adds a byte.
pub(crate) fn push_byte(text: &mut Vec<u8>, byte: u8) -> Result<(), AllocError>
    ensures { IfOk result (λ _. text.new.items ≡ text.old.items ++ byte ∷ []) }
{
    text.push(byte)?;
    Ok(())
}

/// Adds a word behind a space.
pub(crate) fn push_word(text: &mut Vec<u8>, word: &[u8]) -> Result<(), AllocError>
    ensures { IfOk result (λ _. text.new.items ≡ text.old.items ++ char " " ∷ word.now) }
{
    text.push(b' ')?;
    text.extend_from_slice(word)?;
    Ok(())
}
