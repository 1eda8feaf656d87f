//! Words that stand behind one that says what they are.

ghost use Rattle.std.specs.Prelude.{◌≡◌, ◌≤◌, length, map, min, take};
ghost use Rattle.chess_board.specs.Fields.{digits_value};
ghost use Rattle.uci_commands.specs.Marks.{before, behind, max_number, number_behind, number_of, says};

use chess_notation::are_digits;

/// The words behind the first that is this one; none where none is.
pub(crate) fn behind<'m, 'a>(mark: &str, words: &'m [&'a str]) -> &'m [&'a str]
    ensures { map (λ s. s.now) result.now ≡ behind mark.now (map (λ s. s.now) words.entry.now) }
{
    let mut rest = words;
    while let [word, more @ ..] = rest {
        rest = more;
        if *word == mark {
            return rest;
        }
    }
    rest
}

/// How many words stand before the first that is this one.
pub(crate) fn count_before(mark: &str, words: &[&str]) -> usize
    ensures within { result ≤ length words.now }
    ensures words { map (λ s. s.now) (take result words.now) ≡ before mark.now (map (λ s. s.now) words.now) }
{
    for (count, word) in words.iter().enumerate() {
        if *word == mark {
            return count;
        }
    }
    words.len()
}

/// Whether one of the words is this one.
pub(crate) fn says(mark: &str, words: &[&str]) -> bool
    ensures { result ≡ says mark.now (map (λ s. s.now) words.now) }
{
    let mut rest = words;
    while let [word, more @ ..] = rest {
        if *word == mark {
            return true;
        }
        rest = more;
    }
    false
}

/// The greatest number.
const MAX_NUMBER: u64 = 1_000_000_000;

/// The number that digits spell, or the greatest where it would be larger.
fn capped_value(digits: &[u8]) -> u64
    ensures { result ≡ min (digits_value digits.now) max_number }
{
    let mut value = 0u64;
    for byte in digits {
        value = (10 * value + u64::from(byte.saturating_sub(b'0'))).min(MAX_NUMBER);
    }
    value
}

/// The number that digits spell, or the greatest where it would be larger; none where the word is no digits.
#[tactic(auto, unfolding(crate::specs::Marks::number_of))]
fn number_of(word: &str) -> Option<u64>
    ensures { result ≡ number_of word.now }
{
    let bytes = word.as_bytes();
    if !bytes.is_empty() && are_digits(bytes) {
        Some(capped_value(bytes))
    } else {
        None
    }
}

/// The number behind the first word that is this one.
pub(crate) fn number_behind(mark: &str, words: &[&str]) -> Option<u64>
    ensures { result ≡ number_behind mark.now (map (λ s. s.now) words.now) }
{
    match behind(mark, words) {
        [word, ..] => number_of(word),
        [] => None,
    }
}
