//! The squares of the board, and how they are written.

ghost use Rattle.std.specs.Prelude.{◌≡◌, ℕ, ◌+◌, ◌*◌, ◌/◌, ◌%◌, ◌++◌, ◌<◌, ◌≤◌, ◌↔◌, IsSome, IfSome};
ghost use Rattle.arrayvec.specs.ArrayString.{array_string_len};
ghost use Rattle.chess_board.specs.Characters.{char};
ghost use Rattle.chess_board.specs.Squares.{file_of, rank_of, file_gap, rank_gap, crossed};
ghost use Rattle.chess_board.specs.Fields.{square_text};

use arrayvec::ArrayString;
use std::marker::Model;

/// A square of the board, seen by its number: a1 is 0, b1 is 1, .. h1 is 7, a2 is 8, .. h8 is 63.
#[derive(Clone, Copy, Debug, Default, PartialEq, Eq, PartialOrd, Ord, Hash)]
pub struct Square {
    number: u8,
}

impl Model for Square {
    ghost Value = { ℕ };

    ghost view = { λ s. s.number };

    ghost invariant = { λ s. s.number < 64 };

    ghost inverse = { λ n. record { number = n } };
}

impl Square {
    /// The square on a file and a rank, both counted from 0 to 7; none where one of them is above.
    pub fn at(file: u8, rank: u8) -> Option<Square>
        ensures on_board { IsSome result ↔ ((file < 8) × (rank < 8)) }
        ensures number { IfSome result (λ s. s ≡ 8 * rank + file) }
    {
        if file < 8 && rank < 8 {
            Some(Square {
                number: 8 * rank + file,
            })
        } else {
            None
        }
    }

    /// The square with a number, for loops over the whole board.
    pub fn numbered(number: u8) -> Square
        requires { number < 64 }
        ensures { result ≡ number }
    {
        Square { number }
    }

    /// The square's number, from 0 for a1 to 63 for h8.
    pub fn index(&self) -> usize
        ensures number { result ≡ self.now }
        ensures on_board { result < 64 }
    {
        self.number as usize
    }

    /// The file, from 0 for the a-file to 7 for the h-file.
    pub fn file(&self) -> u8
        ensures file { result ≡ file_of self.now }
        ensures on_board { result < 8 }
    {
        self.number % 8
    }

    /// The rank, from 0 for the first rank to 7 for the eighth.
    pub fn rank(&self) -> u8
        ensures rank { result ≡ rank_of self.now }
        ensures on_board { result < 8 }
    {
        self.number / 8
    }

    /// The letter of the file, from `a` to `h`.
    pub fn file_letter(&self) -> u8
        ensures letter { result ≡ char "a" + file_of self.now }
        ensures on_board { result ≤ char "h" }
    {
        b'a' + self.file()
    }

    /// The digit of the rank, from `1` to `8`.
    pub fn rank_digit(&self) -> u8
        ensures digit { result ≡ char "1" + rank_of self.now }
        ensures on_board { result ≤ char "8" }
    {
        b'1' + self.rank()
    }
}

/// Writes a square: its file's letter and its rank's digit.
pub fn push_square<const N: usize>(text: &mut ArrayString<N>, square: Square)
    requires room { array_string_len text.old + 2 ≤ N }
    ensures text { text.new.bytes ≡ text.old.bytes ++ square_text square }
    ensures length { array_string_len text.new ≡ array_string_len text.old + 2 }
{
    text.push(square.file_letter() as char);
    text.push(square.rank_digit() as char);
}

/// How many files lie from one square to the other.
pub(crate) fn file_gap_of(a: Square, b: Square) -> u8
    ensures { result ≡ file_gap a b }
{
    a.file().abs_diff(b.file())
}

/// How many ranks lie from one square to the other.
pub(crate) fn rank_gap_of(a: Square, b: Square) -> u8
    ensures { result ≡ rank_gap a b }
{
    a.rank().abs_diff(b.rank())
}

/// The square in the middle of a double step, or the one that a castling king crosses.
pub(crate) fn crossed(a: Square, b: Square) -> Square
    ensures { result ≡ crossed a b }
{
    Square::numbered(((a.index() + b.index()) / 2) as u8)
}
