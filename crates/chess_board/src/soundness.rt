//! The tests of a sound position.

ghost use Rattle.std.specs.Prelude.{◌≡◌, ◌↔◌, IsTrue, length, true};
ghost use Rattle.std.specs.Option.{option_map_or};
ghost use Rattle.chess_board.specs.Soundness.{has_no_end_pawn, has_men_of_right, has_men_of_rights};
ghost use Rattle.chess_board.specs.Soundness.{has_pawn_of_target, HasOneKingEach, HasAtMostSixteenEach};

use crate::boards::Board;
use crate::castling::{king_home, rook_home};
use crate::men::{Colour, Kind, Rights, Wing};
use crate::squares::Square;

/// Whether each side has exactly one king.
pub(crate) fn has_one_king_each(men: &Board) -> bool
    ensures { IsTrue result ↔ HasOneKingEach men.now }
{
    men.count(Colour::White, Kind::King) == 1 && men.count(Colour::Black, Kind::King) == 1
}

/// Whether no side has more than 16 men. Its second clause tells a caller how many squares there are.
pub(crate) fn has_at_most_sixteen_each(men: &Board) -> bool
    ensures few { IsTrue result ↔ HasAtMostSixteenEach men.now }
    ensures squares { length men.now ≡ 64 }
{
    men.side_count(Colour::White) <= 16 && men.side_count(Colour::Black) <= 16
}

/// Whether no pawn stands on rank 1 or 8.
pub(crate) fn has_no_end_pawn(men: &Board) -> bool
    ensures { result ≡ has_no_end_pawn men.now }
{
    men.kind(Kind::Pawn) & 0xff00_0000_0000_00ff == 0
}

fn has_men_of_right(men: &Board, rights: Rights, colour: Colour, wing: Wing) -> bool
    ensures { result ≡ has_men_of_right men.now rights colour wing }
{
    !rights.has(colour, wing)
        || men.has(king_home(colour), colour, Kind::King)
            && men.has(rook_home(colour, wing), colour, Kind::Rook)
}

/// Whether each castling right has its king and its rook at home.
pub(crate) fn has_men_of_rights(men: &Board, rights: Rights) -> bool
    ensures { result ≡ has_men_of_rights men.now rights }
{
    has_men_of_right(men, rights, Colour::White, Wing::KingSide)
        && has_men_of_right(men, rights, Colour::White, Wing::QueenSide)
        && has_men_of_right(men, rights, Colour::Black, Wing::KingSide)
        && has_men_of_right(men, rights, Colour::Black, Wing::QueenSide)
}

fn has_pawn_of_target(men: &Board, side: Colour, target: Square) -> bool
    ensures { result ≡ has_pawn_of_target men.now side target }
{
    let number = target.index() as u8;
    match side {
        Colour::White => {
            target.rank() == 5
                && men.is_empty(target)
                && men.has(Square::numbered(number - 8), Colour::Black, Kind::Pawn)
                && men.is_empty(Square::numbered(number + 8))
        }
        Colour::Black => {
            target.rank() == 2
                && men.is_empty(target)
                && men.has(Square::numbered(number + 8), Colour::White, Kind::Pawn)
                && men.is_empty(Square::numbered(number - 8))
        }
    }
}

/// Whether there is no en passant target, or one with its pawn beyond it and the pawn's way empty.
pub(crate) fn has_pawn_of_some_target(men: &Board, side: Colour, target: &Option<Square>) -> bool
    ensures { result ≡ option_map_or (has_pawn_of_target men.now side) target.now true }
{
    match target {
        Some(square) => has_pawn_of_target(men, side, *square),
        None => true,
    }
}
