//! Quoting: the strings of an operation.

ghost use Rattle.std.specs.Prelude.{◌≡◌};
ghost use Rattle.chess_notation.specs.Quoting.{next_mode as mode_after, strings_fit as do_strings_fit};

/// What stands before a byte of an operation.
#[derive(Clone, Copy)]
pub(crate) enum Mode {
    /// A space.
    Gap,
    /// Another byte outside a string.
    Plain,
    /// So many bytes of an open string.
    Quoted(usize),
    /// A string's second quotation mark.
    Closed,
}

/// What a byte leads to; none where it may not stand there.
fn next_mode(mode: Mode, byte: u8) -> Option<Mode>
    ensures { result ≡ mode_after mode byte }
{
    match mode {
        Mode::Gap if byte == b'"' => Some(Mode::Quoted(0)),
        Mode::Plain if byte == b'"' => None,
        Mode::Gap | Mode::Plain => Some(if byte == b' ' { Mode::Gap } else { Mode::Plain }),
        Mode::Quoted(_) if byte == b'"' => Some(Mode::Closed),
        Mode::Quoted(255..) => None,
        Mode::Quoted(count) => Some(Mode::Quoted(count + 1)),
        Mode::Closed if byte == b' ' => Some(Mode::Gap),
        Mode::Closed => None,
    }
}

/// Whether the strings of a segment stand as they have to.
pub(crate) fn strings_fit(segment: &[u8]) -> bool
    ensures { result ≡ do_strings_fit segment.now }
{
    let mut mode = Mode::Plain;
    for byte in segment {
        match next_mode(mode, *byte) {
            Some(next) => mode = next,
            None => return false,
        }
    }
    !matches!(mode, Mode::Quoted(_))
}
