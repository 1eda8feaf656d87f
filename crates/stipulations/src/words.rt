//! The words of a text.

ghost use Rattle.std.specs.Prelude.{◌≡◌, ◌≢◌, ◌-◌, ◌++◌, ◌<◌, [], length};
ghost use Rattle.std.specs.List.{list_any};
ghost use Rattle.std.specs.Str.{str_eq_ignore_ascii_case};
ghost use Rattle.stipulations.specs.Aims.{ends_with as does_end_with};
ghost use Rattle.stipulations.specs.Parts.{closed};
ghost use Rattle.stipulations.specs.Words.{words_of};
ghost use Rattle.stipulations.specs.inside.Cuts.{after, front};

/// The text up to the first byte that is no letter, and what stands behind that.
fn cut(text: &[u8]) -> (&[u8], &[u8])
    ensures front { result.0.now ≡ front text.now }
    ensures after { result.1.now ≡ after text.now }
{
    for (index, byte) in text.iter().enumerate() {
        if !byte.is_ascii_alphabetic() {
            let (word, back) = text.split_at(index);
            return (word, back.split_at(1).1);
        }
    }
    (text, &[])
}

/// The same, of a text that isn't empty: by both its words are known.
pub(crate) fn cut_word(text: &[u8]) -> (&[u8], &[u8])
    requires { text.now ≢ [] }
    ensures words { words_of text.now ≡ closed result.0.now ++ words_of result.1.now }
    ensures shorter { length result.1.now < length text.now }
{
    cut(text)
}

/// Whether a word is another, small and large letters alike.
pub(crate) fn is_word(word: &[u8], other: &str) -> bool
    ensures { result ≡ str_eq_ignore_ascii_case word.now other.now }
{
    word.eq_ignore_ascii_case(other.as_bytes())
}

/// Whether a word is one of others.
pub(crate) fn is_among(word: &[u8], others: &[&str]) -> bool
    ensures { result ≡ list_any (λ other. str_eq_ignore_ascii_case word.now other.now) others.now }
{
    for other in others {
        if is_word(word, other) {
            return true;
        }
    }
    false
}

fn ends_with(word: &[u8], end: &str) -> bool
    ensures { result ≡ does_end_with word.now end.now }
{
    let length = word.len().saturating_sub(end.len());
    is_word(word.split_at(length).1, end)
}

/// Whether a word ends with one of others.
pub(crate) fn ends_with_one(word: &[u8], ends: &[&str]) -> bool
    ensures { result ≡ list_any (λ end. does_end_with word.now end.now) ends.now }
{
    for end in ends {
        if ends_with(word, end) {
            return true;
        }
    }
    false
}
