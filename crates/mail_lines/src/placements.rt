//! How a position begins: with its men, and with who moves.

ghost use Rattle.std.specs.Prelude.{◌≡◌, ◌==◌, count_by};
ghost use Rattle.std.specs.List.{list_all};
ghost use Rattle.mail_lines.specs.Placements.{begins_position as does_begin_position, has_part, has_word, is_of_placement as is_byte_of_placement};
ghost use Rattle.mail_lines.specs.Placements.{is_like_placement as is_like_placement_word, is_placement as is_placement_word, is_side as is_side_word, is_stroke};

use chess_board::cut_at;
use chess_notation::word_at;

/// Whether a byte may stand in a placement.
fn is_of_placement(byte: u8) -> bool
    ensures { result ≡ is_byte_of_placement byte }
{
    byte == b'/' || (b'1'..=b'8').contains(&byte) || byte.is_ascii_alphabetic() || byte >= 128
}

/// How many strokes a word has.
fn strokes(word: &[u8]) -> usize
    ensures { result ≡ count_by is_stroke word.now }
{
    word.iter().filter(|byte| **byte == b'/').count()
}

/// Whether all bytes of a word may stand in a placement.
fn are_of_placement(word: &[u8]) -> bool
    ensures { result ≡ list_all is_byte_of_placement word.now }
{
    word.iter().all(|byte| is_of_placement(*byte))
}

/// Whether a word is a placement, as far as can be seen.
#[tactic(auto, unfolding(crate::specs::Placements::is_placement))]
fn is_placement(word: &[u8]) -> bool
    ensures { result ≡ is_placement_word word.now }
{
    strokes(word) == 7 && are_of_placement(word)
}

/// Whether a word is like a placement, of whatever ranks.
#[tactic(auto, unfolding(crate::specs::Placements::is_like_placement))]
fn is_like_placement(word: &[u8]) -> bool
    ensures { result ≡ is_like_placement_word word.now }
{
    strokes(word) > 4 && are_of_placement(word)
}

/// Whether a word is a side to move.
fn is_side(word: &[u8]) -> bool
    ensures { result ≡ is_side_word word.now }
{
    match word {
        [side] => *side == b'w' || *side == b'b',
        _ => false,
    }
}

/// Whether a text begins a position.
#[tactic(auto, unfolding(crate::specs::Placements::begins_position))]
pub(crate) fn begins_position(text: &[u8]) -> bool
    ensures { result ≡ does_begin_position text.now }
{
    let (placement, behind) = word_at(text);
    is_placement(placement) && is_side(word_at(behind).0)
}

/// Whether one of the parts of a word between tabs is like a placement.
#[tactic(auto, unfolding(crate::specs::Placements::has_part))]
fn has_part_like_placement(word: &[u8]) -> bool
    ensures { result ≡ has_part is_like_placement_word word.now }
{
    let mut rest = word;
    while let Some((part, behind)) = cut_at(rest, b'\t') {
        if is_like_placement(part) {
            return true;
        }
        rest = behind;
    }
    is_like_placement(rest)
}

/// Whether one of the words of a text is like a placement.
#[tactic(auto, unfolding(crate::specs::Placements::has_word))]
pub(crate) fn has_placement(text: &[u8]) -> bool
    ensures { result ≡ has_word (has_part is_like_placement_word) text.now }
{
    let mut rest = text;
    while let Some((word, behind)) = cut_at(rest, b' ') {
        if has_part_like_placement(word) {
            return true;
        }
        rest = behind;
    }
    has_part_like_placement(rest)
}
