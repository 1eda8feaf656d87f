//! The placement field of a FEN, read and printed, rank by rank (PGN Specification, 16.1.3.1).

ghost use Rattle.std.specs.Prelude.{◌≡◌, ◌+◌, ◌<◌, ◌≤◌, ◌++◌, true, false, List, Option, length, IfSome, IfNone};
ghost use Rattle.arrayvec.specs.ArrayString.{array_string_len};
ghost use Rattle.chess_board.specs.Placement.{man_letter, run_text, rank_text, placement_text, SpellsPlacement};
ghost use Rattle.chess_board.specs.inside.RankReading.{kind_of_letter, man_of_letter, is_run_digit, IsRankEmpty, IsRankRead};
ghost use Rattle.chess_board.specs.declared.men.Man.{Man};

use crate::boards::Board;
use crate::cuts::cut_at;
use crate::men::{Colour, Kind, Man};
use crate::squares::Square;
use arrayvec::ArrayString;

/// The kinds that the capital letters from B to R stand for.
static KINDS: [Option<Kind>; 17] = [
    Some(Kind::Bishop),
    None,
    None,
    None,
    None,
    None,
    None,
    None,
    None,
    Some(Kind::King),
    None,
    None,
    Some(Kind::Knight),
    None,
    Some(Kind::Pawn),
    Some(Kind::Queen),
    Some(Kind::Rook),
];

/// The kind that a capital letter stands for. It is looked up, since no branch could tell which letter comes next.
fn kind_of_letter(letter: u8) -> Option<Kind>
    ensures { result ≡ kind_of_letter letter }
{
    if b'B' <= letter && letter <= b'R' {
        KINDS[(letter - b'B') as usize]
    } else {
        None
    }
}

/// The man that a letter stands for, which is White's where it is a capital.
fn man_of_letter(letter: u8) -> Option<Man>
    ensures { result ≡ man_of_letter letter }
{
    let (colour, capital) = if letter < b'a' {
        (Colour::White, letter)
    } else {
        (Colour::Black, letter - 32)
    };
    let kind = kind_of_letter(capital)?;
    Some(Man { colour, kind })
}

/// Whether a byte counts empty squares. A rank has eight, and a run of none is not written.
fn is_run_digit(byte: u8) -> bool
    ensures { result ≡ is_run_digit byte }
{
    b'0' < byte && byte < b'9'
}

/// Puts the men that the text of a rank spells on a board whose rank is empty, and tells whether the text spells a rank: it does not
/// where it has another letter or digit, or two digits side by side, or too few squares or too many. The first rank is number 0.
fn read_rank(men: &mut Board, rank: u8, text: &[u8]) -> bool
    requires on_board { rank < 8 }
    requires empty { IsRankEmpty men.old rank }
    ensures read { result ≡ true → IsRankRead men.new men.old rank text.now }
    ensures none { result ≡ false → (places : List (Option Man)) → length places ≡ 8 → rank_text places ≡ text.now → ⊥ }
{
    let mut file = 0;
    let mut after_digit = false;
    for byte in text {
        let byte = *byte;
        if is_run_digit(byte) {
            let count = byte - b'0';
            if after_digit {
                return false;
            }
            if file + count > 8 {
                return false;
            }
            file += count;
            after_digit = true;
        } else {
            let Some(man) = man_of_letter(byte) else {
                return false;
            };
            if file == 8 {
                return false;
            }
            men.put(Square::numbered(8 * rank + file), man);
            file += 1;
            after_digit = false;
        }
    }
    file == 8
}

/// A man's letter, a capital for White and a small one for Black.
fn man_letter(man: Man) -> u8
    ensures letter { result ≡ man_letter man }
    ensures ascii { result < 128 }
{
    match man.colour {
        Colour::White => man.kind.letter(),
        Colour::Black => man.kind.letter() + 32,
    }
}

/// Prints a run of so many empty squares.
fn push_run(text: &mut ArrayString<96>, empty: u8)
    requires room { array_string_len text.old + empty ≤ 96 }
    requires digit { empty ≤ 8 }
    ensures { text.new.bytes ≡ text.old.bytes ++ run_text empty }
{
    if empty > 0 {
        text.push((b'0' + empty) as char);
    }
}

/// Prints the squares of a rank, in no more bytes than there are squares.
fn push_rank(text: &mut ArrayString<96>, places: &[Option<Man>])
    requires room { array_string_len text.old + length places.now ≤ 96 }
    requires rank { length places.now ≤ 8 }
    ensures text { text.new.bytes ≡ text.old.bytes ++ rank_text places.now }
    ensures short { array_string_len text.new ≤ array_string_len text.old + length places.now }
{
    let mut empty = 0u8;
    for place in places {
        match *place {
            None => empty += 1,
            Some(man) => {
                push_run(text, empty);
                text.push(man_letter(man) as char);
                empty = 0;
            }
        }
    }
    push_run(text, empty);
}

/// The board that a placement field spells, or `None` where the text is none: a rank is misspelt, or there are not eight ranks with
/// a slash between each two.
pub(crate) fn men_of_text(text: &[u8]) -> Option<Board>
    ensures read { IfSome result (λ men. SpellsPlacement text.now men) }
    ensures none { IfNone result ((men : List (Option Man)) → SpellsPlacement text.now men → ⊥) }
{
    let mut men = Board::empty();
    let mut rest = text;
    for rank in (1..8).rev() {
        let (front, back) = cut_at(rest, b'/')?;
        if !read_rank(&mut men, rank, front) {
            return None;
        }
        rest = back;
    }
    if read_rank(&mut men, 0, rest) {
        Some(men)
    } else {
        None
    }
}

/// Prints the placement field of these men, a1 first and h8 last: at most 71 bytes.
pub(crate) fn push_placement(text: &mut ArrayString<96>, men: &[Option<Man>; 64])
    requires room { array_string_len text.old + 71 ≤ 96 }
    ensures text { text.new.bytes ≡ text.old.bytes ++ placement_text men.now }
    ensures short { array_string_len text.new ≤ array_string_len text.old + 71 }
{
    push_rank(text, &men[56..]);
    for rank in (0..7).rev() {
        text.push('/');
        push_rank(text, &men[8 * rank..8 * rank + 8]);
    }
}
