//! The squares of White's men and of Black's, by which positions are told apart without making the moves that lead to them.

ghost use Rattle.std.specs.Prelude.{◌≡◌, ◌↔◌, true, IfSome, IsSome};
ghost use Rattle.chess_board.specs.Legality.{is_legal};
ghost use Rattle.chess_board.specs.MakeMove.{after_setup};
ghost use Rattle.chess_board.specs.Men.{is_of};
ghost use Rattle.chess_board.specs.Sets.{IsSetOf};
ghost use Rattle.mate_search.specs.inside.SideOccupancy.{IsOccupancyOf, IsPlain};

use chess_board::{Colour, Kind, Move, Position, Wing};
use std::hash::{FoldHasher, Hasher};

/// The squares of White's men and of Black's.
#[derive(Clone, Copy)]
pub(crate) struct SideOccupancy {
    white: u64,
    black: u64,
}

impl SideOccupancy {
    /// Those of a position.
    #[inline(always)]
    pub(crate) fn of(position: &Position) -> SideOccupancy
        ensures { IsOccupancyOf result position.now.men }
    {
        let white = men_of(position, Colour::White);
        SideOccupancy {
            white,
            black: position.occupied() & !white,
        }
    }

    /// Those of a position whose side to move has no right to castle, and that has no en passant target: none of its moves castles or
    /// captures en passant.
    #[inline(always)]
    pub(crate) fn of_plain(position: &Position) -> Option<SideOccupancy>
        ensures plain { IsSome result ↔ IsPlain position.now }
        ensures occupancy { IfSome result (λ o. IsOccupancyOf o position.now.men) }
    {
        let side = position.side();
        let is_plain = position.ep_target().is_none()
            && !position.has_right(side, Wing::KingSide)
            && !position.has_right(side, Wing::QueenSide);
        if is_plain {
            Some(SideOccupancy::of(position))
        } else {
            None
        }
    }

    /// Those after a legal move of such a position, told from its own.
    #[inline(always)]
    pub(crate) fn after(self, position: &Position, m: Move) -> SideOccupancy
        requires occupancy { IsOccupancyOf self position.now.men }
        requires plain { IsPlain position.now }
        requires legal { is_legal position.now m ≡ true }
        ensures { IsOccupancyOf result (after_setup position.now m).men }
    {
        let origin = 1u64.wrapping_shl(m.origin.index() as u32);
        let target = 1u64.wrapping_shl(m.target.index() as u32);
        match position.side() {
            Colour::White => SideOccupancy {
                white: self.white & !origin | target,
                black: self.black & !target,
            },
            Colour::Black => SideOccupancy {
                white: self.white & !target,
                black: self.black & !origin | target,
            },
        }
    }

    /// A number by which they are marked.
    #[inline(always)]
    pub(crate) fn hash(self) -> u64 {
        let mut hasher = FoldHasher::default();
        hasher.write_u64(self.white);
        hasher.write_u64(self.black);
        hasher.finish()
    }
}

/// The squares of a side's men.
#[inline(always)]
pub(crate) fn men_of(position: &Position, side: Colour) -> u64
    ensures { IsSetOf result (is_of side) position.now.men }
{
    position.men(side, Kind::Pawn)
        | position.men(side, Kind::Knight)
        | position.men(side, Kind::Bishop)
        | position.men(side, Kind::Rook)
        | position.men(side, Kind::Queen)
        | position.men(side, Kind::King)
}
