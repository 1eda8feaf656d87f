//! Discovered checks: which man opens a line to the king of the side that is not to move where it leaves its square, and so to which
//! squares a man's legal move may give check.

ghost use Rattle.std.specs.Prelude.{◌≡◌, ◌<◌, true, false};
ghost use Rattle.square_sets.specs.Members.{has};
ghost use Rattle.chess_board.specs.Legality.{is_legal};
ghost use Rattle.chess_board.specs.Moves.{Move as MoveValue};
ghost use Rattle.chess_moves.specs.GivesCheck.{gives_check};
ghost use Rattle.chess_moves.specs.inside.CheckSquares.{AreCheckSquaresOf, is_special as is_special_move};
ghost use Rattle.chess_moves.specs.inside.LegalityInfo.{IsLegalityInfo};
ghost use Rattle.chess_moves.specs.inside.Movers.{IsMoverOf};

use crate::attackers::is_hit_over;
use crate::check_squares::{CheckSquares, special_squares, squares_of};
use crate::legality_info::LegalityInfo;
use crate::movers::Mover;
use crate::pseudo_legal_targets::attacks_of;
use crate::side_men::{side_men_of, without};
use chess_board::Man;

/// The squares to which a man's legal move may give check. They are all squares where it opens a line to the king, and those of
/// its special moves stand among them.
#[inline(always)]
pub(crate) fn check_targets(info: &LegalityInfo, check_squares: &CheckSquares, mover: Mover) -> u64
    requires info { IsLegalityInfo info.now }
    requires check_squares { AreCheckSquaresOf check_squares.now info.now.position.now }
    requires mover { IsMoverOf mover info.now.position.now }
    ensures { (m : MoveValue) → is_legal info.now.position.now m ≡ true → m.origin ≡ mover.origin → m.target < 64 → has result m.target ≡ false
        → gives_check info.now.position.now m ≡ false }
{
    let special = special_squares(info, mover.man);
    if square_sets::contains(check_squares.queen, mover.origin) {
        squares_behind(info, mover) | special
    } else {
        squares_of(check_squares, mover.man.kind) | special
    }
}

/// The squares from which a man attacks the king once it left its own: all where a line is open then.
fn squares_behind(info: &LegalityInfo, mover: Mover) -> u64
    requires info { IsLegalityInfo info.now }
    requires mover { IsMoverOf mover info.now.position.now }
    ensures { (m : MoveValue) → is_legal info.now.position.now m ≡ true → m.origin ≡ mover.origin → m.target < 64
        → is_special_move info.now.position.now mover.man m ≡ false → has result m.target ≡ false
        → gives_check info.now.position.now m ≡ false }
{
    let side = info.side;
    let enemy = side.other();
    let square = info.position.king(enemy).index() as u8;
    let lifted = square_sets::without(info.occupied, mover.origin);
    let others = without(&side_men_of(info.position, side), mover.origin);
    if is_hit_over(info.rays, lifted, &others, side, square) {
        return u64::MAX;
    }
    let seen_back = Man {
        colour: enemy,
        kind: mover.man.kind,
    };
    attacks_of(info.rays, lifted, seen_back, square)
}
