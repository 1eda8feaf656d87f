//! How many men a text tells that a diagram has.

ghost use Rattle.std.specs.Prelude.{◌≡◌, ◌==◌};
ghost use Rattle.chess_board.specs.Characters.{char};
ghost use Rattle.stipulations.specs.Parts.{begins_with};
ghost use Rattle.stipulations.specs.Men.{begins_with_other as does_begin_with_other, is_counted as is_text_counted, is_sum as is_text_sum, second as second_of};
ghost use Rattle.stipulations.specs.Men.{tells_other_men as does_tell_other_men};

use crate::numbers::digits_number;
use crate::parts::begins_with_digit;
use crate::patterns::cut_digits;

/// Whether the digits with which a text begins say another number.
fn begins_with_other(number: u8, text: &[u8]) -> bool
    ensures { result ≡ does_begin_with_other number text.now }
{
    match digits_number(cut_digits(text).0) {
        Some(said) => said != number,
        None => true,
    }
}

fn begins_with_byte(byte: u8, text: &[u8]) -> bool
    ensures { result ≡ begins_with (λ b. b == byte) text.now }
{
    match text {
        [first, ..] => *first == byte,
        [] => false,
    }
}

/// Whether a text begins with digits that have such a sign behind them.
fn is_counted(sign: u8, text: &[u8]) -> bool
    ensures { result ≡ is_text_counted sign text.now }
{
    begins_with_digit(text) && begins_with_byte(sign, cut_digits(text).1)
}

/// What stands behind the first number and its sign.
fn second(text: &[u8]) -> &[u8]
    ensures { result.now ≡ second_of text.now }
{
    match cut_digits(text).1 {
        [_, more @ ..] => more,
        [] => &[],
    }
}

fn is_sum(text: &[u8]) -> bool
    ensures { result ≡ is_text_sum text.now }
{
    is_counted(b'+', text) && is_counted(b')', second(text))
}

/// Whether a text tells, as `(5+6)`, other numbers of men than so many of White's and so many of Black's.
pub fn tells_other_men(text: &[u8], white: u8, black: u8) -> bool
    ensures { result ≡ does_tell_other_men white black text.now }
{
    let mut rest = text;
    while let [byte, more @ ..] = rest {
        if *byte == b'('
            && is_sum(more)
            && (begins_with_other(white, more) || begins_with_other(black, second(more)))
        {
            return true;
        }
        rest = more;
    }
    false
}
