//! The parts of a position, sound or not.

use crate::boards::Board;
use crate::men::{Colour, Rights};
use crate::squares::Square;
use std::marker::Model;

/// What four fields of a FEN say, before anyone asks whether it is sound.
#[derive(Clone, Copy)]
pub(crate) struct Setup {
    pub board: Board,
    pub side: Colour,
    pub rights: Rights,
    pub target: Option<Square>,
}

impl Model for Setup {
    ghost use Rattle.chess_board.specs.Positions.{Setup as SetupValue};

    ghost Value = { SetupValue };

    ghost view = { λ p. record { men = p.board; side = p.side; rights = p.rights; target = p.target } };

    ghost inverse = { λ v. record { board = v.men; side = v.side; rights = v.rights; target = v.target } };
}
