//! The words of a line, taken off from its front.

ghost use Rattle.std.specs.Prelude.{◌≡◌};
ghost use Rattle.chess_notation.specs.Words.{after_spaces as text_after_spaces, front_word as word_in_front, after_word as text_after_word};
ghost use Rattle.chess_notation.specs.Words.{word_at as word_of_text, behind, is_blank as is_all_blank};

/// The text from its first byte that is no space.
pub fn after_spaces(text: &[u8]) -> &[u8]
    ensures { result.now ≡ text_after_spaces text.now }
{
    let mut rest = text;
    while let [b' ', more @ ..] = rest {
        rest = more;
    }
    rest
}

/// The text up to its first space, and from there on.
fn front_word(text: &[u8]) -> (&[u8], &[u8])
    ensures word { result.0.now ≡ word_in_front text.now }
    ensures rest { result.1.now ≡ text_after_word text.now }
{
    for (index, byte) in text.iter().enumerate() {
        if *byte == b' ' {
            return text.split_at(index);
        }
    }
    (text, &[])
}

/// The first word of a text, empty where there is none, and what follows it.
#[tactic(auto, unfolding(crate::specs::Words::word_at, crate::specs::Words::behind))]
pub fn word_at(text: &[u8]) -> (&[u8], &[u8])
    ensures word { result.0.now ≡ word_of_text text.now }
    ensures rest { result.1.now ≡ behind text.now }
{
    front_word(after_spaces(text))
}

/// Whether a text holds nothing but spaces.
pub fn is_blank(text: &[u8]) -> bool
    ensures { result ≡ is_all_blank text.now }
{
    after_spaces(text).is_empty()
}
