//! Which squares a man attacks.

ghost use Rattle.std.specs.Prelude.{◌≡◌, ◌+◌, ◌*◌, ◌<◌, ◌≤◌, ◌⊎◌, true, ◌||◌};
ghost use Rattle.chess_board.specs.Squares.{gap};
ghost use Rattle.chess_board.specs.Men.{is_of};
ghost use Rattle.chess_board.specs.Positions.{man_at};
ghost use Rattle.chess_board.specs.inside.Walks.{toward_of};
ghost use Rattle.chess_board.specs.Attacks.{is_clear as clear, is_rook_line as rook_line, is_bishop_line as bishop_line};
ghost use Rattle.chess_board.specs.Attacks.{is_forward as forward, attacks_as as attacks, attacks_from as attacks_at};
ghost use Rattle.chess_board.specs.Attacks.{is_attacked, is_in_check};

use crate::boards::Board;
use crate::men::{Colour, Kind, Man};
use crate::squares::{Square, file_gap_of, rank_gap_of};

/// Whether a rook could go from one square to the other on an empty board.
fn is_rook_line(a: Square, b: Square) -> bool
    ensures { result ≡ rook_line a b }
{
    a != b && (a.rank() == b.rank() || a.file() == b.file())
}

/// Whether a bishop could go from one square to the other on an empty board.
fn is_bishop_line(a: Square, b: Square) -> bool
    ensures { result ≡ bishop_line a b }
{
    a != b && file_gap_of(a, b) == rank_gap_of(a, b)
}

/// Whether b is so many ranks in front of a, as the colour's pawns go.
fn is_forward(colour: Colour, steps: u8, a: Square, b: Square) -> bool
    requires { steps < 8 }
    ensures { result ≡ forward colour steps a b }
{
    match colour {
        Colour::White => b.rank() == a.rank() + steps,
        Colour::Black => a.rank() == b.rank() + steps,
    }
}

/// The number that is so many steps from `from` in the direction of `to`.
fn toward(from: u8, to: u8, steps: u8) -> u8
    requires on_board { (from < 8) × (to < 8) }
    requires near { steps ≤ gap from to ⊎ (from ≡ to) }
    ensures value { result ≡ toward_of from to steps }
    ensures on_board { result < 8 }
{
    if from < to {
        from + steps
    } else if to < from {
        from - steps
    } else {
        from
    }
}

/// Whether no man stands strictly between two squares in line: walks from a to b.
fn is_clear(men: &Board, a: Square, b: Square) -> bool
    requires { (rook_line a b || bishop_line a b) ≡ true }
    ensures { result ≡ clear men.now a b }
{
    let distance = file_gap_of(a, b).max(rank_gap_of(a, b));
    for steps in 1..distance {
        let file = toward(a.file(), b.file(), steps);
        let rank = toward(a.rank(), b.rank(), steps);
        if men.man(Square::numbered(8 * rank + file)).is_some() {
            return false;
        }
    }
    true
}

/// Whether a man on a attacks b.
fn attacks_as(men: &Board, man: Man, a: Square, b: Square) -> bool
    ensures { result ≡ attacks men.now man.colour man.kind a b }
{
    match man.kind {
        Kind::Pawn => file_gap_of(a, b) == 1 && is_forward(man.colour, 1, a, b),
        Kind::Knight => {
            let files = file_gap_of(a, b);
            let ranks = rank_gap_of(a, b);
            files == 1 && ranks == 2 || files == 2 && ranks == 1
        }
        Kind::Bishop => is_bishop_line(a, b) && is_clear(men, a, b),
        Kind::Rook => is_rook_line(a, b) && is_clear(men, a, b),
        Kind::Queen => (is_bishop_line(a, b) || is_rook_line(a, b)) && is_clear(men, a, b),
        Kind::King => a != b && file_gap_of(a, b) <= 1 && rank_gap_of(a, b) <= 1,
    }
}

/// Whether the man that the colour has on `from` attacks the square.
#[inline(always)]
fn attacks_from(men: &Board, by: Colour, from: Square, square: Square) -> bool
    requires { is_of by (man_at men.now from) ≡ true }
    ensures { result ≡ attacks_at men.now by from square }
{
    attacks_as(men, men.man_of(by, from), from, square)
}

/// Whether some man of the colour attacks the square: its men are asked one after the other, from a1 on.
pub(crate) fn is_attacked_by(men: &Board, square: Square, by: Colour) -> bool
    ensures { result ≡ is_attacked men.now square by }
{
    for from in square_sets::squares(men.side(by)) {
        if attacks_from(men, by, Square::numbered(from), square) {
            return true;
        }
    }
    false
}

/// Whether the colour's king is attacked.
pub(crate) fn is_king_in_check(men: &Board, colour: Colour) -> bool
    ensures { result ≡ is_in_check men.now colour }
{
    for square in square_sets::squares(men.men(colour, Kind::King)) {
        if is_attacked_by(men, Square::numbered(square), colour.other()) {
            return true;
        }
    }
    false
}
