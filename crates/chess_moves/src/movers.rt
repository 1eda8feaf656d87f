//! Movers: men of the side to move, each on its square.

ghost use Rattle.std.specs.Prelude.{◌≡◌, ◌<◌, true};
ghost use Rattle.chess_board.specs.Men.{is_of};
ghost use Rattle.chess_board.specs.Positions.{man_at};
ghost use Rattle.chess_moves.specs.inside.LegalityInfo.{IsLegalityInfo};
ghost use Rattle.chess_moves.specs.inside.Movers.{IsMoverOf, king_of};

use crate::legality_info::LegalityInfo;
use chess_board::{Kind, Man, Position, Square};

/// A man of the side to move, and the square that it is to leave.
#[derive(Clone, Copy)]
pub(crate) struct Mover {
    pub man: Man,
    pub origin: u8,
}

/// The man of the side to move on a square where one stands.
pub(crate) fn mover_on(position: &Position, origin: u8) -> Mover
    requires on_board { origin < 64 }
    requires own { is_of position.now.side (man_at position.now.men origin) ≡ true }
    ensures mover { IsMoverOf result position.now }
    ensures origin { result.origin ≡ origin }
{
    let man = match position.man(Square::numbered(origin)) {
        Some(man) => man,
        None => unreachable!(),
    };
    Mover { man, origin }
}

/// The king of the side to move.
#[inline(always)]
pub(crate) fn king_of(info: &LegalityInfo) -> Mover
    requires { IsLegalityInfo info.now }
    ensures mover { IsMoverOf result info.now.position.now }
    ensures king { result ≡ king_of info.now }
{
    Mover {
        man: Man {
            colour: info.side,
            kind: Kind::King,
        },
        origin: info.king,
    }
}
