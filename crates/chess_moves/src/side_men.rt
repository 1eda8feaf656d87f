//! One side's men as sets of squares.

ghost use Rattle.std.specs.Prelude.{◌≡◌, ◌<◌, false, List, Option, length, slice_set};
ghost use Rattle.chess_board.specs.declared.men.Man.{Man as ManValue};
ghost use Rattle.chess_board.specs.declared.men.Colour.{Colour as ColourValue};
ghost use Rattle.chess_board.specs.Men.{is_of};
ghost use Rattle.chess_board.specs.Sets.{IsSetOf};
ghost use Rattle.chess_moves.specs.inside.SideMen.{StandFor};

use chess_board::{Colour, Kind, Position};

/// One side's men, as sets of squares: a queen stands in `diagonal` and in `straight`.
#[derive(Clone, Copy)]
pub(crate) struct SideMen {
    pub pawns: u64,
    pub knights: u64,
    pub diagonal: u64,
    pub straight: u64,
    pub king: u64,
}

/// A colour's men in a position.
pub(crate) fn side_men_of(position: &Position, colour: Colour) -> SideMen
    ensures { StandFor result colour position.now.men }
{
    let queens = position.men(colour, Kind::Queen);
    SideMen {
        pawns: position.men(colour, Kind::Pawn),
        knights: position.men(colour, Kind::Knight),
        diagonal: position.men(colour, Kind::Bishop) | queens,
        straight: position.men(colour, Kind::Rook) | queens,
        king: position.men(colour, Kind::King),
    }
}

/// The squares of one side's men.
pub(crate) fn all_of(side_men: &SideMen) -> u64
    ensures { (men : List (Option ManValue)) (by : ColourValue) → StandFor side_men.now by men → IsSetOf result (is_of by) men }
{
    side_men.pawns | side_men.knights | side_men.diagonal | side_men.straight | side_men.king
}

/// One side's sets without what stands on a square.
pub(crate) fn without(side_men: &SideMen, square: u8) -> SideMen
    requires { square < 64 }
    ensures { (men : List (Option ManValue)) (by : ColourValue) (place : Option ManValue) → length men ≡ 64 → StandFor side_men.now by men
        → is_of by place ≡ false → StandFor result by (slice_set men square place) }
{
    SideMen {
        pawns: square_sets::without(side_men.pawns, square),
        knights: square_sets::without(side_men.knights, square),
        diagonal: square_sets::without(side_men.diagonal, square),
        straight: square_sets::without(side_men.straight, square),
        king: square_sets::without(side_men.king, square),
    }
}
