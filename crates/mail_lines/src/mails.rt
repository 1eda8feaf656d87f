//! The lines that begin a problem which takes on more, those that end it, and those that head positions.

ghost use Rattle.std.specs.Prelude.{◌≡◌, ◌==◌};
ghost use Rattle.std.specs.Char.{is_ascii_digit, is_ascii_whitespace};
ghost use Rattle.std.specs.List.{list_all, list_any};
ghost use Rattle.chess_notation.specs.SaidBounds.{is_bound as is_bound_opcode};
ghost use Rattle.mail_lines.specs.Mails.{asks_bound as does_ask_bound, begins_apart as does_begin_apart, begins_mail as does_begin_mail};
ghost use Rattle.mail_lines.specs.Mails.{begins_popeye as does_begin_popeye, ends_mail as does_end_mail, is_remark as is_remark_text};
ghost use Rattle.mail_lines.specs.Mails.{has_mark as has_mark_in, is_headed_behind as are_headed_behind, is_heading as is_heading_line, is_rule as is_rule_text};
ghost use Rattle.mail_lines.specs.Mails.{is_of_cyrillic as is_byte_of_cyrillic};
ghost use Rattle.mail_lines.specs.Placements.{has_word};

use crate::placements::{begins_position, has_placement};
use chess_board::cut_at;
use chess_notation::{after_spaces, word_at};
use stipulations::speaks_of_aim;
use text_lines::MAX_LINE;

/// Whether a word is `dm`.
fn is_bound(word: &[u8]) -> bool
    ensures { result ≡ is_bound_opcode word.now }
{
    matches!(word, [b'd', b'm'])
}

/// Whether one of the words of a part is `dm`.
#[tactic(auto, unfolding(crate::specs::Placements::has_word))]
fn has_bound(part: &[u8]) -> bool
    ensures { result ≡ has_word is_bound_opcode part.now }
{
    let mut rest = part;
    while let Some((word, behind)) = cut_at(rest, b' ') {
        if is_bound(word) {
            return true;
        }
        rest = behind;
    }
    is_bound(rest)
}

/// Whether a text asks within how many moves mate is to be found.
#[tactic(auto, unfolding(crate::specs::Mails::asks_bound))]
fn asks_bound(text: &[u8]) -> bool
    ensures { result ≡ does_ask_bound text.now }
{
    let mut rest = text;
    while let Some((part, behind)) = cut_at(rest, b';') {
        if has_bound(part) {
            return true;
        }
        rest = behind;
    }
    has_bound(rest)
}

/// Whether a line begins a problem that takes on the lines behind it.
#[tactic(auto, unfolding(crate::specs::Mails::begins_mail))]
pub(crate) fn begins_mail(line: &[u8]) -> bool
    ensures { result ≡ does_begin_mail line.now }
{
    line.len() <= MAX_LINE && begins_position(line) && !asks_bound(line)
}

/// Whether a text begins as a tag pair or a comment does.
fn begins_apart(text: &[u8]) -> bool
    ensures { result ≡ does_begin_apart text.now }
{
    match text {
        [byte, ..] => *byte == b'[' || *byte == b'%' || *byte == b';',
        [] => false,
    }
}

/// Whether a text begins with `#`, and a space or nothing behind it.
fn is_remark(text: &[u8]) -> bool
    ensures { result ≡ is_remark_text text.now }
{
    match text {
        [] => false,
        [byte] => *byte == b'#',
        [byte, next, ..] => *byte == b'#' && *next == b' ',
    }
}

/// Whether a text begins with `--`.
fn is_rule(text: &[u8]) -> bool
    ensures { result ≡ is_rule_text text.now }
{
    match text {
        [byte, next, ..] => *byte == b'-' && *next == b'-',
        _ => false,
    }
}

/// Whether a word begins as `BeginProblem` does, small and large letters alike.
fn begins_popeye(word: &[u8]) -> bool
    ensures { result ≡ does_begin_popeye word.now }
{
    let (front, _) = word.split_at(word.len().min(4));
    front.eq_ignore_ascii_case(b"begi")
}

/// Whether there is nothing but white space.
fn is_white(line: &[u8]) -> bool
    ensures { result ≡ list_all is_ascii_whitespace line.now }
{
    line.iter().all(|byte| byte.is_ascii_whitespace())
}

/// Whether the problem before a line has no more lines.
#[tactic(auto, unfolding(crate::specs::Mails::ends_mail))]
pub(crate) fn ends_mail(line: &[u8]) -> bool
    ensures { result ≡ does_end_mail line.now }
{
    let text = after_spaces(line);
    is_white(line)
        || line.len() > MAX_LINE
        || begins_apart(text)
        || is_remark(text)
        || is_rule(text)
        || begins_popeye(word_at(line).0)
        || has_placement(line)
}

/// Whether a byte is the first one of a Cyrillic letter.
fn is_of_cyrillic(byte: u8) -> bool
    ensures { result ≡ is_byte_of_cyrillic byte }
{
    byte == 0xD0 || byte == 0xD1
}

/// Whether a line has a Cyrillic letter.
fn has_cyrillic(line: &[u8]) -> bool
    ensures { result ≡ list_any is_byte_of_cyrillic line.now }
{
    line.iter().any(|byte| is_of_cyrillic(*byte))
}

/// Whether a line has a digit.
fn has_digit(line: &[u8]) -> bool
    ensures { result ≡ list_any is_ascii_digit line.now }
{
    line.iter().any(|byte| byte.is_ascii_digit())
}

/// Whether a line has a quotation mark.
fn has_mark(line: &[u8]) -> bool
    ensures { result ≡ has_mark_in line.now }
{
    line.iter().any(|byte| *byte == b'"')
}

/// Whether a line says what is asked of the positions behind it.
#[tactic(auto, unfolding(crate::specs::Mails::is_heading))]
fn is_heading(line: &[u8]) -> bool
    ensures { result ≡ is_heading_line line.now }
{
    !begins_position(line)
        && !has_mark(line)
        && (speaks_of_aim(line) || has_cyrillic(line) && has_digit(line))
}

/// Whether the lines behind a line are headed.
#[tactic(auto, unfolding(crate::specs::Mails::is_headed_behind))]
pub(crate) fn is_headed_behind(is_headed: bool, line: &[u8]) -> bool
    ensures { result ≡ are_headed_behind is_headed line.now }
{
    !is_white(line)
        && line.len() <= MAX_LINE
        && !is_rule(after_spaces(line))
        && (is_headed || is_heading(line))
}
