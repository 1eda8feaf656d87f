//! The words of a line of a script.

ghost use Rattle.std.specs.Prelude.{◌≡◌, ◌≤◌, ◌<◌, IfSome, length, option_map, true};
ghost use Rattle.std.specs.List.{list_all};
ghost use Rattle.std.specs.Str.{bytes_eq};
ghost use Rattle.chess_board.specs.Fields.{digits_value};
ghost use Rattle.chess_notation.specs.Operations.{is_digit as is_digit_byte};
ghost use Rattle.desk_scripts.specs.inside.ScriptReading.{cut_at as cut_of_text, number_cut as number_cut_of, number_of as number_of_text};

use chess_notation::are_digits;

/// Whether a text is this word.
pub fn is_word(text: &[u8], word: &str) -> bool
    ensures { result ≡ bytes_eq text.now word.now }
{
    text == word.as_bytes()
}

/// What stands before the first of these bytes, and behind it.
pub fn cut_at(text: &[u8], separator: u8) -> Option<(&[u8], &[u8])>
    ensures { option_map (λ cut. (cut.0.now, cut.1.now)) result ≡ cut_of_text separator text.now }
{
    for (index, byte) in text.iter().enumerate() {
        if *byte == separator {
            let (front, _) = text.split_at(index);
            let (_, back) = text.split_at(index + 1);
            return Some((front, back));
        }
    }
    None
}

/// The number that up to nine digits spell.
fn value_of(digits: &[u8]) -> u32
    requires digits { list_all is_digit_byte digits.now ≡ true }
    requires few { length digits.now ≤ 9 }
    ensures value { result ≡ digits_value digits.now }
    ensures small { result < 1000000000 }
{
    let mut value = 0u32;
    for digit in digits {
        value = 10 * value + u32::from(*digit - b'0');
    }
    value
}

/// The number that one to nine digits spell; zeros may stand in front.
#[tactic(auto, unfolding(crate::specs::inside::ScriptReading::number_of))]
pub fn number_of(text: &[u8]) -> Option<u32>
    ensures { result ≡ number_of_text text.now }
{
    if !text.is_empty() && text.len() <= 9 && are_digits(text) {
        Some(value_of(text))
    } else {
        None
    }
}

/// A number, and what stands behind the space that follows it.
pub fn number_cut(text: &[u8]) -> Option<(u32, &[u8])>
    ensures { option_map (λ cut. (cut.0, cut.1.now)) result ≡ number_cut_of text.now }
{
    let (word, rest) = cut_at(text, b' ')?;
    let number = number_of(word)?;
    Some((number, rest))
}
