//! The operations of a line, cut at semicolons outside strings, and the words and strings of each.

ghost use Rattle.std.specs.Prelude.{◌≡◌, ◌<◌, ◌∷◌, [], IfNone, IfSome, false, if◌then◌else◌, length, true};
ghost use Rattle.problem_import.specs.Numbers.{begins_string as does_begin_string, ends_part as does_end_part, ends_string as does_end_string};
ghost use Rattle.problem_import.specs.Numbers.{has_end as does_have_end, is_edge as is_edge_text, mark_behind as mark_of_text, parts_of};

use crate::texts::without_first;
use chess_notation::{after_spaces, word_at};

/// Words, and strings by their quotation marks.
#[derive(Clone, Copy)]
pub(crate) enum Kind {
    Word,
    String,
    SingleString,
}

/// A word, or what stands in a string; and what stands behind.
#[derive(Clone, Copy)]
pub(crate) struct Token<'a> {
    pub(crate) text: &'a [u8],
    pub(crate) kind: Kind,
    pub(crate) rest: &'a [u8],
}

/// A part of a text up to a sign, as an operation, what stands behind that, and whether it stands there.
#[derive(Clone, Copy)]
pub(crate) struct Segment<'a> {
    pub(crate) text: &'a [u8],
    pub(crate) rest: &'a [u8],
    pub(crate) is_ended: bool,
}

/// Whether nothing stands there, or a space or a semicolon.
fn is_edge(text: &[u8]) -> bool
    ensures { result ≡ is_edge_text text.now }
{
    match text {
        [] => true,
        [byte, ..] => *byte == b' ' || *byte == b';',
    }
}

/// Whether a byte ends a string with such a mark: a double one anywhere, a single one where no more of a word follows.
fn ends_string(mark: u8, byte: u8, behind: &[u8]) -> bool
    ensures { result ≡ does_end_string mark byte behind.now }
{
    byte == mark && (mark == b'"' || is_edge(behind))
}

/// Whether a string with such a mark ends somewhere.
fn has_end(mark: u8, text: &[u8]) -> bool
    ensures { result ≡ does_have_end mark text.now }
{
    let mut rest = text;
    while let [byte, more @ ..] = rest {
        if ends_string(mark, *byte, more) {
            return true;
        }
        rest = more;
    }
    false
}

/// Whether a byte begins a string: a double mark, or a single one behind a space that another ends.
fn begins_string(before: u8, byte: u8, behind: &[u8]) -> bool
    ensures { result ≡ does_begin_string before byte behind.now }
{
    byte == b'"' || byte == b'\'' && (before == b' ' && has_end(byte, behind))
}

/// The mark of the string that is open behind a byte, if one is.
fn mark_behind(mark: Option<u8>, before: u8, byte: u8, behind: &[u8]) -> Option<u8>
    ensures { result ≡ mark_of_text mark before byte behind.now }
{
    match mark {
        None if begins_string(before, byte, behind) => Some(byte),
        Some(mark) if !ends_string(mark, byte, behind) => Some(mark),
        _ => None,
    }
}

/// Whether a byte is such a sign outside strings.
fn ends_part(mark: Option<u8>, sign: u8, byte: u8) -> bool
    ensures { result ≡ does_end_part mark sign byte }
{
    mark.is_none() && byte == sign
}

/// How many bytes stand before the quotation mark that closes a string.
fn string_length(text: &[u8], mark: u8) -> Option<usize> {
    for (index, byte) in text.iter().enumerate() {
        if ends_string(mark, *byte, without_first(text, index + 1)) {
            return Some(index);
        }
    }
    None
}

/// The string that a text begins with, behind its first quotation mark.
fn string_at(text: &[u8], mark: u8, kind: Kind) -> Option<Token<'_>> {
    let length = string_length(text, mark)?;
    Some(Token {
        text: text.split_at(length.min(text.len())).0,
        kind,
        rest: without_first(text, length.saturating_add(1)),
    })
}

/// The first word or string of a text, or nothing.
pub(crate) fn token_at(text: &[u8]) -> Option<Token<'_>> {
    let text = text.trim_ascii_start();
    let string = match text {
        [] => return None,
        [b'"', more @ ..] => string_at(more, b'"', Kind::String),
        [b'\'', more @ ..] => string_at(more, b'\'', Kind::SingleString),
        _ => None,
    };
    if string.is_some() {
        return string;
    }
    let (word, rest) = word_at(text);
    Some(Token {
        text: word,
        kind: Kind::Word,
        rest,
    })
}

/// The text up to its first such sign outside strings.
fn first_part(text: &[u8], sign: u8) -> Segment<'_>
    ensures ended { result.is_ended ≡ true → parts_of sign text.now ≡ result.text.now ∷ parts_of sign result.rest.now }
    ensures last { result.is_ended ≡ false → parts_of sign text.now ≡ result.text.now ∷ [] }
    ensures none { result.is_ended ≡ false → result.rest.now ≡ [] }
    ensures shorter { result.is_ended ≡ true → length result.rest.now < length text.now }
{
    let mut mark = None;
    let mut before = b' ';
    for (index, byte) in text.iter().enumerate() {
        let rest = without_first(text, index + 1);
        if ends_part(mark, sign, *byte) {
            return Segment {
                text: text.split_at(index).0,
                rest,
                is_ended: true,
            };
        }
        mark = mark_behind(mark, before, *byte, rest);
        before = *byte;
    }
    Segment {
        text,
        rest: &[],
        is_ended: false,
    }
}

/// The text up to its first such sign outside strings, or nothing where it is empty.
pub(crate) fn part_at(text: &[u8], sign: u8) -> Option<Segment<'_>>
    ensures none { IfNone result (parts_of sign text.now ≡ [] ∷ []) }
    ensures cut { IfSome result (λ part. parts_of sign text.now
        ≡ part.text.now ∷ (if part.is_ended then parts_of sign part.rest.now else [])) }
    ensures last { IfSome result (λ part. part.is_ended ≡ false → part.rest.now ≡ []) }
    ensures shorter { IfSome result (λ part. length part.rest.now < length text.now) }
{
    if text.is_empty() {
        return None;
    }
    Some(first_part(text, sign))
}

/// The first operation of a text without spaces before it, or nothing where the text is blank.
pub(crate) fn segment_at(text: &[u8]) -> Option<Segment<'_>> {
    part_at(after_spaces(text), b';')
}
