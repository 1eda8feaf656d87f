//! Sound positions.

ghost use Rattle.std.specs.Prelude.{◌≡◌, ◌<◌, is_some, IfOk, OnOk, IfErr, IfSome};
ghost use Rattle.chess_board.specs.declared.men.Kind.TheVariants as kind;
ghost use Rattle.chess_board.specs.Positions.{man_at};
ghost use Rattle.chess_board.specs.Men.{has_right_of, is_man, man_of};
ghost use Rattle.chess_board.specs.Sets.{IsSetOf};
ghost use Rattle.chess_board.specs.inside.Hashing.{state_word};
ghost use Rattle.chess_board.specs.Attacks.{is_attacked, is_in_check};
ghost use Rattle.chess_board.specs.Soundness.{IsSound};
ghost use Rattle.chess_board.specs.Faults.{IsFirst, IsUnsoundBy, position_faults};

use crate::attacks::{is_attacked_by, is_king_in_check};
use crate::boards::Board;
use crate::faults::FenFault;
use crate::men::{Colour, Kind, Man, Rights, Wing};
use crate::setups::Setup;
use crate::soundness::{
    has_at_most_sixteen_each, has_men_of_rights, has_no_end_pawn, has_one_king_each,
    has_pawn_of_some_target,
};
use crate::squares::Square;
use std::hash::{Hash, Hasher};
use std::marker::Model;

/// A sound position: the men on the 64 squares, the side to move, the castling rights that are left, and the square that a
/// double step has just passed over.
///
/// Sound means: each side has one king and at most 16 men; no pawn stands on rank 1 or 8; each right has its king and its rook
/// at home; the en passant target has its pawn; and the king of the side that is not to move is not attacked. Two positions
/// are equal exactly where these four parts are.
#[derive(Clone, Copy, Debug, PartialEq, Eq)]
pub struct Position {
    board: Board,
    side: Colour,
    rights: Rights,
    target: Option<Square>,
}

impl Model for Position {
    ghost use Rattle.chess_board.specs.Positions.{Setup};
    ghost use Rattle.chess_board.specs.Soundness.{IsSound};

    ghost Value = { Setup };

    ghost view = { λ p. record { men = p.board; side = p.side; rights = p.rights; target = p.target } };

    ghost invariant = { λ p. IsSound (record { men = p.board; side = p.side; rights = p.rights; target = p.target }) };

    ghost inverse = { λ v. record { board = v.men; side = v.side; rights = v.rights; target = v.target } };
}

impl Hash for Position {
    ghost use Rattle.std.specs.Cmp.Rules.{hashing};
    ghost use Rattle.std.proofs.Common.{rules};
    ghost use Rattle.chess_board.specs.Positions.{Setup};
    ghost use Rattle.chess_board.specs.inside.Hashing.{position_words};

    ghost hash_input = { position_words };

    ghost respects_eq = { Prim.search (hashing, rules) };

    fn hash<H: Hasher>(&self, state: &mut H) {
        self.board.hash(state);
        state.write_u64(state_word(self.side, self.rights, &self.target));
    }
}

impl Position {
    /// The position with these parts, which are sound.
    pub(crate) fn new(setup: &Setup) -> Position
        requires { IsSound setup.now }
        ensures { result ≡ setup.now }
    {
        Position {
            board: setup.board,
            side: setup.side,
            rights: setup.rights,
            target: setup.target,
        }
    }

    /// The men on the 64 squares.
    pub(crate) fn board(&self) -> &Board
        ensures { result.now ≡ self.now.men }
    {
        &self.board
    }

    /// The man on a square; none where it is empty.
    pub fn man(&self, square: Square) -> Option<Man>
        ensures { result ≡ man_at self.now.men square }
    {
        self.board.man(square)
    }

    /// The squares on which a man stands: bit i is set exactly where one stands on the square of index i.
    pub fn occupied(&self) -> u64
        ensures { IsSetOf result is_some self.now.men }
    {
        self.board.occupied()
    }

    /// The squares on which a man of this colour and kind stands: bit i is set exactly where such a man stands on the square
    /// of index i.
    pub fn men(&self, colour: Colour, kind: Kind) -> u64
        ensures { IsSetOf result (is_man colour kind) self.now.men }
    {
        self.board.men(colour, kind)
    }

    /// The side to move. Its second clause tells a caller that the position is sound.
    pub fn side(&self) -> Colour
        ensures side { result ≡ self.now.side }
        ensures sound { IsSound self.now }
    {
        self.side
    }

    /// The castling rights that are left.
    pub(crate) fn rights(&self) -> Rights
        ensures { result ≡ self.now.rights }
    {
        self.rights
    }

    /// Whether a side has the right to castle on a wing (FIDE Laws of Chess, article 3.8.2).
    pub fn has_right(&self, colour: Colour, wing: Wing) -> bool
        ensures { result ≡ has_right_of self.now.rights colour wing }
    {
        self.rights.has(colour, wing)
    }

    /// The square that the last move's double step passed over; none where the position tells of no such step (PGN Specification,
    /// section 16.1.3.4).
    pub fn ep_target(&self) -> Option<Square>
        ensures target { result ≡ self.now.target }
        ensures on_board { IfSome result (λ square. square < 64) }
    {
        self.target
    }

    /// The square of a side's one king.
    pub fn king(&self, colour: Colour) -> Square
        ensures king { man_at self.now.men result ≡ man_of colour kind.King }
        ensures on_board { result < 64 }
    {
        self.board.king(colour)
    }

    /// Whether some man of the colour attacks the square, whoever stands there, and whether or not that man may move (FIDE Laws of
    /// Chess, articles 3.1.2 and 3.1.3).
    pub fn is_attacked(&self, square: Square, by: Colour) -> bool
        ensures { result ≡ is_attacked self.now.men square by }
    {
        is_attacked_by(&self.board, square, by)
    }

    /// Whether the side to move is in check: its king is attacked (FIDE Laws of Chess, article 3.9.1).
    pub fn in_check(&self) -> bool
        ensures { result ≡ is_in_check self.now.men self.now.side }
    {
        is_king_in_check(&self.board, self.side)
    }
}

/// The side to move, the rights and the target in one word.
fn state_word(side: Colour, rights: Rights, target: &Option<Square>) -> u64
    ensures { result ≡ state_word side rights target.now }
{
    let passed = match target {
        Some(square) => 1 + square.index() as u64,
        None => 0,
    };
    u64::from(side == Colour::Black)
        + 2 * u64::from(rights.white_king_side)
        + 4 * u64::from(rights.white_queen_side)
        + 8 * u64::from(rights.black_king_side)
        + 16 * u64::from(rights.black_queen_side)
        + 32 * passed
}

/// The position with these parts, or the first fault that makes them unsound.
pub(crate) fn sound_position(setup: &Setup) -> Result<Position, FenFault>
    ensures position { IfOk result (λ p. p ≡ setup.now) }
    ensures sound { OnOk result (IsSound setup.now) }
    ensures refused { IfErr result (λ fault. IsFirst (IsUnsoundBy setup.now) position_faults fault) }
{
    if !has_one_king_each(&setup.board) {
        return Err(FenFault::BadKings);
    }
    if !has_no_end_pawn(&setup.board) {
        return Err(FenFault::PawnOnEndRank);
    }
    if !has_at_most_sixteen_each(&setup.board) {
        return Err(FenFault::TooManyMen);
    }
    if !has_men_of_rights(&setup.board, setup.rights) {
        return Err(FenFault::RightWithoutMen);
    }
    if !has_pawn_of_some_target(&setup.board, setup.side, &setup.target) {
        return Err(FenFault::TargetWithoutPawn);
    }
    if is_king_in_check(&setup.board, setup.side.other()) {
        return Err(FenFault::OpponentInCheck);
    }
    Ok(Position::new(setup))
}
