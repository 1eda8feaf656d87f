//! What stands before a position in a list.

ghost use Rattle.std.specs.Prelude.{◌≡◌, ◌==◌};
ghost use Rattle.std.specs.List.{list_all, list_any};
ghost use Rattle.std.specs.Str.{str_eq_ignore_ascii_case};
ghost use Rattle.mail_lines.specs.Labels.{bared as bared_line, bared_behind as bared_by, is_label as is_label_word, is_of_label as is_byte_of_label};
ghost use Rattle.mail_lines.specs.Labels.{is_remark_sign as is_sign_of_remark, labels};

use crate::placements::begins_position;
use chess_notation::{after_spaces, word_at};
use text_lines::MAX_LINE;

/// Whether a byte may stand in a running number.
fn is_of_label(byte: u8) -> bool
    ensures { result ≡ is_byte_of_label byte }
{
    byte.is_ascii_digit()
        || matches!(
            byte,
            b'(' | b')' | b'[' | b']' | b'{' | b'}' | b'.' | b':' | b'#' | b'*' | b'-' | b'='
        )
}

/// Whether all bytes of a word may stand in a running number.
fn are_of_label(word: &[u8]) -> bool
    ensures { result ≡ list_all is_byte_of_label word.now }
{
    word.iter().all(|byte| is_of_label(*byte))
}

/// Whether a word is the sign of a remark.
fn is_remark_sign(word: &[u8]) -> bool
    ensures { result ≡ is_sign_of_remark word.now }
{
    match word {
        [byte] => *byte == b'#',
        _ => false,
    }
}

/// Whether a word is a label that isn't a running number.
fn is_named_label(word: &[u8]) -> bool
    ensures { result ≡ list_any (λ label. str_eq_ignore_ascii_case word.now label) labels }
{
    word.eq_ignore_ascii_case(b"fen")
        || word.eq_ignore_ascii_case(b"fen:")
        || word.eq_ignore_ascii_case(b"fen=")
        || word.eq_ignore_ascii_case(&[0xE2, 0x80, 0xA2])
}

/// Whether a word is a label.
#[tactic(auto, unfolding(crate::specs::Labels::is_label))]
fn is_label(word: &[u8]) -> bool
    ensures { result ≡ is_label_word word.now }
{
    !word.is_empty() && !is_remark_sign(word) && are_of_label(word) || is_named_label(word)
}

/// The text behind a label where it begins a position, or else the line.
fn bared_behind<'t>(line: &'t [u8], rest: &'t [u8]) -> &'t [u8]
    ensures { result.now ≡ bared_by line.now rest.now }
{
    if begins_position(rest) {
        after_spaces(rest)
    } else {
        line
    }
}

/// A line without one label or two before its position.
#[tactic(auto, unfolding(crate::specs::Labels::bared))]
pub(crate) fn bared(line: &[u8]) -> &[u8]
    ensures { result.now ≡ bared_line line.now }
{
    let (first, rest) = word_at(line);
    if line.len() > MAX_LINE || !is_label(first) {
        return line;
    }
    let (second, back) = word_at(rest);
    if is_label(second) {
        bared_behind(line, back)
    } else {
        bared_behind(line, rest)
    }
}
