//! A text cut at each semicolon outside a string.

ghost use Rattle.std.specs.Prelude.{◌≡◌, ◌<◌, ◌++◌, ◌∷◌, length, [], IfSome, IfNone};
ghost use Rattle.chess_notation.specs.Segments.{Segments, segments_of, with_segment, ends_segment as does_end_segment};
ghost use Rattle.chess_notation.specs.Segments.{inside_after as is_inside_after};

fn ends_segment(is_inside: bool, byte: u8) -> bool
    ensures { result ≡ does_end_segment is_inside byte }
{
    !is_inside && byte == b';'
}

/// Whether a string is open behind the byte.
pub(crate) fn inside_after(is_inside: bool, byte: u8) -> bool
    ensures { result ≡ is_inside_after is_inside byte }
{
    if byte == b'"' { !is_inside } else { is_inside }
}

/// What stands before the first semicolon outside a string, and what stands after it.
pub fn first_segment(text: &[u8]) -> Option<(&[u8], &[u8])>
    ensures none { IfNone result (segments_of text.now ≡ record { ended = []; rest = text.now }) }
    ensures cut { IfSome result (λ cut. segments_of text.now ≡ with_segment cut.0.now (segments_of cut.1.now)) }
    ensures parts { IfSome result (λ cut. text.now ≡ cut.0.now ++ 59 ∷ cut.1.now) }
    ensures shorter { IfSome result (λ cut. length cut.1.now < length text.now) }
{
    let mut is_inside = false;
    for (index, byte) in text.iter().enumerate() {
        if ends_segment(is_inside, *byte) {
            let (front, _) = text.split_at(index);
            let (_, back) = text.split_at(index + 1);
            return Some((front, back));
        }
        is_inside = inside_after(is_inside, *byte);
    }
    None
}

/// What follows the last semicolon outside a string.
pub(crate) fn last_rest(text: &[u8]) -> &[u8]
    ensures { result.now ≡ (segments_of text.now).rest }
{
    let mut rest = text;
    while let Some((_, back)) = first_segment(rest) {
        rest = back;
    }
    rest
}
