//! The parts of a text.

ghost use Rattle.std.specs.Prelude.{◌≡◌, ◌≢◌, ◌++◌, ◌∷◌, ◌<◌, [], IfNone, IfSome, length};
ghost use Rattle.std.specs.Char.{is_ascii_digit};
ghost use Rattle.chess_board.specs.Characters.{char};
ghost use Rattle.stipulations.specs.Parts.{begins_with, behind_space, closed, ends_part as does_end_part, is_dash as is_dash_between};
ghost use Rattle.stipulations.specs.Parts.{is_mark as is_mark_byte, is_space, is_stop as is_stop_before, parts_of, squeezed};
ghost use Rattle.stipulations.specs.Parts.{trimmed as trimmed_of};
ghost use Rattle.stipulations.specs.inside.Cuts.{part_after, part_front};

/// Whether a text begins with a digit.
pub(crate) fn begins_with_digit(text: &[u8]) -> bool
    ensures { result ≡ begins_with is_ascii_digit text.now }
{
    match text {
        [first, ..] => first.is_ascii_digit(),
        [] => false,
    }
}

fn begins_with_space(text: &[u8]) -> bool
    ensures { result ≡ begins_with is_space text.now }
{
    match text {
        [first, ..] => *first == b' ',
        [] => false,
    }
}

fn is_mark(byte: u8) -> bool
    ensures { result ≡ is_mark_byte byte }
{
    matches!(byte, b';' | b':' | b'"' | b'(' | b')' | b'!')
}

/// Whether a full stop or a comma stands here, and in no number.
fn is_stop(byte: u8, behind: &[u8]) -> bool
    ensures { result ≡ is_stop_before byte behind.now }
{
    (byte == b'.' || byte == b',') && !begins_with_digit(behind)
}

/// Whether a hyphen stands here between spaces.
fn is_dash(before: u8, byte: u8, behind: &[u8]) -> bool
    ensures { result ≡ is_dash_between before byte behind.now }
{
    before == b' ' && byte == b'-' && begins_with_space(behind)
}

/// Whether a part ends at a byte, by the byte before it and the text behind it.
fn ends_part(before: u8, byte: u8, behind: &[u8]) -> bool
    ensures { result ≡ does_end_part before byte behind.now }
{
    is_mark(byte) || is_stop(byte, behind) || is_dash(before, byte, behind)
}

/// The text up to the first byte at which a part ends, and what stands behind that.
fn cut(text: &[u8]) -> (&[u8], &[u8])
    ensures front { result.0.now ≡ part_front (char " ") text.now }
    ensures after { result.1.now ≡ part_after (char " ") text.now }
{
    let mut before = b' ';
    for (index, byte) in text.iter().enumerate() {
        let (part, back) = text.split_at(index);
        let behind = back.split_at(1).1;
        if ends_part(before, *byte, behind) {
            return (part, behind);
        }
        before = *byte;
    }
    (text, &[])
}

/// The same, of a text that isn't empty: by both its parts are known.
pub(crate) fn cut_part(text: &[u8]) -> (&[u8], &[u8])
    requires { text.now ≢ [] }
    ensures parts { parts_of text.now ≡ closed result.0.now ++ parts_of result.1.now }
    ensures shorter { length result.1.now < length text.now }
{
    cut(text)
}

/// A text without the spaces at its beginning.
pub(crate) fn trimmed(text: &[u8]) -> &[u8]
    ensures { result.now ≡ trimmed_of text.now }
{
    let mut rest = text;
    while let [b' ', more @ ..] = rest {
        rest = more;
    }
    rest
}

/// One space, and the text behind those with which a text begins, where it isn't spaces alone.
fn space_before(text: &[u8]) -> Option<(u8, &[u8])>
    ensures some { IfSome result (λ first. behind_space (squeezed text.now) ≡ first.0 ∷ squeezed first.1.now) }
    ensures none { IfNone result (behind_space (squeezed text.now) ≡ []) }
{
    let behind = trimmed(text);
    if behind.is_empty() {
        None
    } else {
        Some((b' ', behind))
    }
}

/// The first byte of a text in which each run of spaces is one space, with none at its end, and what stands behind that byte.
pub(crate) fn first_squeezed(text: &[u8]) -> Option<(u8, &[u8])>
    ensures some { IfSome result (λ first. squeezed text.now ≡ first.0 ∷ squeezed first.1.now) }
    ensures none { IfNone result (squeezed text.now ≡ []) }
{
    match text {
        [] => None,
        [b' ', rest @ ..] => space_before(rest),
        [first, rest @ ..] => Some((*first, rest)),
    }
}
