//! Opcodes: which words are opcodes, their order, and those that an answer writes itself.

ghost use Rattle.std.specs.Prelude.{◌≡◌};
ghost use Rattle.std.specs.List.{list_all};
ghost use Rattle.chess_notation.specs.Operations.{is_letter as is_letter_byte, is_digit as is_digit_byte};
ghost use Rattle.chess_notation.specs.Operations.{is_opcode_byte as is_byte_of_opcode, is_opcode as is_opcode_text};
ghost use Rattle.chess_notation.specs.Opcodes.{same_text, comes_before as does_come_before, is_own as is_own_opcode};

pub(crate) fn is_digit(byte: u8) -> bool
    ensures { result ≡ is_digit_byte byte }
{
    byte.is_ascii_digit()
}

fn is_letter(byte: u8) -> bool
    ensures { result ≡ is_letter_byte byte }
{
    byte.is_ascii_alphabetic()
}

fn is_opcode_byte(byte: u8) -> bool
    ensures { result ≡ is_byte_of_opcode byte }
{
    is_letter(byte) || is_digit(byte) || byte == b'_'
}

fn are_opcode_bytes(text: &[u8]) -> bool
    ensures { result ≡ list_all is_byte_of_opcode text.now }
{
    for byte in text {
        if !is_opcode_byte(*byte) {
            return false;
        }
    }
    true
}

/// Whether a word is a letter followed by up to 14 letters, digits and underscores.
pub(crate) fn is_opcode(word: &[u8]) -> bool
    ensures { result ≡ is_opcode_text word.now }
{
    match word {
        [] => false,
        [first, rest @ ..] => is_letter(*first) && rest.len() <= 14 && are_opcode_bytes(rest),
    }
}

pub(crate) fn is_same_text(text: &[u8], other: &[u8]) -> bool
    ensures { result ≡ same_text text.now other.now }
{
    let mut left = text;
    let mut right = other;
    while let [first, lefts @ ..] = left {
        match right {
            [] => return false,
            [second, rights @ ..] => {
                if *first != *second {
                    return false;
                }
                left = lefts;
                right = rights;
            }
        }
    }
    right.is_empty()
}

/// Whether a text comes before another in ASCII order.
pub(crate) fn comes_before(text: &[u8], other: &[u8]) -> bool
    ensures { result ≡ does_come_before text.now other.now }
{
    let mut left = text;
    let mut right = other;
    while let [second, rights @ ..] = right {
        match left {
            [] => return true,
            [first, lefts @ ..] => {
                if *first != *second {
                    return *first < *second;
                }
                left = lefts;
                right = rights;
            }
        }
    }
    false
}

/// Whether an answer writes the opcode itself, so that a record does not keep it.
pub(crate) fn is_own(opcode: &[u8]) -> bool
    ensures { result ≡ is_own_opcode opcode.now }
{
    is_same_text(b"bm", opcode)
        || is_same_text(b"c0", opcode)
        || is_same_text(b"dm", opcode)
        || is_same_text(b"pv", opcode)
}
