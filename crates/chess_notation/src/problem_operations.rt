//! The operations that state a problem: the operand of `dm`, its bound, and those of `am`, the moves to avoid.

ghost use Rattle.std.specs.Prelude.{◌≡◌, ◌≤◌, min, length, true, false, IfSome, IfNone, Some, None};
ghost use Rattle.std.specs.List.{list_all};
ghost use Rattle.chess_board.specs.Fields.{digits_value};
ghost use Rattle.chess_notation.specs.Words.{word_at as word_of_text, behind};
ghost use Rattle.chess_notation.specs.Segments.{segments_of};
ghost use Rattle.chess_notation.specs.EpdFaults.{is_bound_segment as is_bound_of, is_avoid_segment as is_avoid_of};
ghost use Rattle.chess_notation.specs.EpdFaults.{has_number as does_have_number, has_number_if_bound};
ghost use Rattle.chess_notation.specs.EpdFaults.{is_small_if_bound};
ghost use Rattle.chess_notation.specs.inside.RecordReading.{bound_said, avoid_text_in};

use crate::opcodes::is_same_text;
use crate::record_fields::is_number;
use crate::segments::first_segment;
use crate::words::{is_blank, word_at};
use chess_problems::Bound;

/// The number that digits spell, or 16 where it is larger.
pub(crate) fn capped_value(digits: &[u8]) -> u8
    ensures { result ≡ min (digits_value digits.now) 16 }
{
    let mut value = 0u8;
    for byte in digits {
        value = (10 * value + byte.saturating_sub(b'0').min(16)).min(16);
    }
    value
}

/// Whether the opcode of a segment is `dm`.
fn is_bound_segment(segment: &[u8]) -> bool
    ensures { result ≡ is_bound_of segment.now }
{
    is_same_text(b"dm", word_at(segment).0)
}

/// Whether the opcode of a segment is `am`.
fn is_avoid_segment(segment: &[u8]) -> bool
    ensures { result ≡ is_avoid_of segment.now }
{
    is_same_text(b"am", word_at(segment).0)
}

/// Whether digits that are not all zeros stand behind the opcode, and nothing else.
fn has_number(segment: &[u8]) -> bool
    ensures { result ≡ does_have_number segment.now }
{
    let (digits, rest) = word_at(word_at(segment).1);
    is_number(digits) && is_blank(rest) && 0 < capped_value(digits)
}

/// The number of a segment, or 16 where it is larger.
fn number_of_segment(segment: &[u8]) -> u8
    ensures { result ≡ min (digits_value (word_of_text (behind segment.now))) 16 }
{
    capped_value(word_at(word_at(segment).1).0)
}

/// Whether each `dm` has a number.
pub(crate) fn have_numbers(text: &[u8]) -> bool
    ensures { result ≡ list_all has_number_if_bound (segments_of text.now).ended }
{
    let mut rest = text;
    while let Some((segment, back)) = first_segment(rest) {
        if is_bound_segment(segment) && !has_number(segment) {
            return false;
        }
        rest = back;
    }
    true
}

/// What a line asks for: the bound of `dm`, or the default one, and what stands behind `am`.
#[derive(Clone, Copy)]
pub(crate) struct Asked<'a> {
    pub(crate) bound: Bound,
    pub(crate) avoid: Option<&'a [u8]>,
}

/// What the operations ask for, each by the first that does; none where the number of a `dm` is no bound.
#[tactic(auto, unfolding(crate::specs::inside::RecordReading::bound_said, crate::specs::inside::RecordReading::avoid_text_in), using(crate::proofs::WordLists::behind_within))]
pub(crate) fn asked_of(text: &[u8], default: Bound) -> Option<Asked<'_>>
    requires numbers { list_all has_number_if_bound (segments_of text.now).ended ≡ true }
    ensures bound { IfSome result (λ asked. asked.bound ≡ bound_said (segments_of text.now).ended default) }
    ensures avoid { IfSome result (λ asked. IfSome asked.avoid (λ words. avoid_text_in (segments_of text.now).ended ≡ Some words.now)) }
    ensures nothing { IfSome result (λ asked. IfNone asked.avoid (avoid_text_in (segments_of text.now).ended ≡ None)) }
    ensures shorter { IfSome result (λ asked. IfSome asked.avoid (λ words. length words.now ≤ length text.now)) }
    ensures small { IfSome result (λ asked. list_all is_small_if_bound (segments_of text.now).ended ≡ true) }
    ensures large { IfNone result (list_all is_small_if_bound (segments_of text.now).ended ≡ false) }
{
    let mut bound = None;
    let mut avoid = None;
    let mut rest = text;
    while let Some((segment, back)) = first_segment(rest) {
        if is_bound_segment(segment) {
            let number = Bound::new(number_of_segment(segment))?;
            bound = bound.or(Some(number));
        } else if avoid.is_none() && is_avoid_segment(segment) {
            avoid = Some(word_at(segment).1);
        }
        rest = back;
    }
    Some(Asked {
        bound: bound.unwrap_or(default),
        avoid,
    })
}
