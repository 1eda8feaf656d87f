//! A text cut at a byte.

ghost use Rattle.std.specs.Prelude.{◌≡◌, ◌<◌, [], ◌∷◌, ◌==◌, ◌≢◌, All, IfSome, IfNone, length, take, slice_index};
ghost use Rattle.std.specs.List.{slice_split};

/// Where the first such byte stands.
fn first_at(text: &[u8], byte: u8) -> Option<usize>
    ensures none { IfNone result (All (λ b. b ≢ byte) text.now) }
    ensures before { IfSome result (λ at. All (λ b. b ≢ byte) (take at text.now)) }
    ensures inside { IfSome result (λ at. at < length text.now) }
    ensures here { IfSome result (λ at. slice_index text.now at ≡ byte) }
{
    text.iter().position(|found| *found == byte)
}

/// What stands before the first such byte of a text and what stands after it, or `None` where the text has no
/// such byte.
///
/// It parts the six fields of a FEN, which one space separates, and the eight ranks of its first field, which a
/// slash separates (PGN Specification, 16.1.3).
pub fn cut_at(text: &[u8], byte: u8) -> Option<(&[u8], &[u8])>
    ensures none { IfNone result (slice_split (λ b. b == byte) text.now ≡ text.now ∷ []) }
    ensures cut { IfSome result (λ cut. slice_split (λ b. b == byte) text.now
        ≡ cut.0.now ∷ slice_split (λ b. b == byte) cut.1.now) }
    ensures shorter { IfSome result (λ cut. length cut.1.now < length text.now) }
{
    let at = first_at(text, byte)?;
    Some((&text[..at], &text[at + 1..]))
}
