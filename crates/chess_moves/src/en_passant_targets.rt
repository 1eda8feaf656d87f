//! En passant targets: where pawns capture en passant, from where, and whether their king is safe afterwards (FIDE Laws of Chess,
//! article 3.7).

ghost use Rattle.std.specs.Prelude.{◌≡◌, ℕ, ◌<◌, false, not, ◌&&◌, Some};
ghost use Rattle.square_sets.specs.Members.{has};
ghost use Rattle.chess_board.specs.declared.men.Kind.TheVariants as kind;
ghost use Rattle.chess_board.specs.declared.men.Man.{Man as ManValue};
ghost use Rattle.chess_board.specs.Positions.{man_at, cleared, moved};
ghost use Rattle.chess_board.specs.Men.{is_colour, is_of, other_side};
ghost use Rattle.chess_board.specs.Attacks.{is_in_check};
ghost use Rattle.chess_board.specs.EnPassant.{is_square, takes_en_passant, captured_pawn};
ghost use Rattle.chess_moves.specs.inside.Hits.{is_hit};
ghost use Rattle.chess_moves.specs.inside.LegalityInfo.{IsLegalityInfo};
ghost use Rattle.chess_moves.specs.inside.Movers.{IsMoverOf};

use crate::attackers::is_hit_over;
use crate::directions::Leap;
use crate::legality_info::LegalityInfo;
use crate::movers::Mover;
use crate::side_men::without;
use chess_board::{Position, Square, captured_pawn};

/// The square that the last move's double step passed over, or none.
pub(crate) fn en_passant_square(position: &Position) -> u64
    ensures { (t : ℕ) → t < 64 → has result t ≡ is_square position.now.target t }
{
    match position.ep_target() {
        Some(target) => square_sets::single(target.index() as u8),
        None => 0,
    }
}

/// Where a pawn captures en passant: one square at most.
pub(crate) fn en_passant_targets(info: &LegalityInfo, mover: Mover) -> u64
    requires on_board { mover.origin < 64 }
    requires pawn { mover.man.kind ≡ kind.Pawn }
    ensures { (t : ℕ) → t < 64 → has result t ≡ takes_en_passant info.now.position.now mover.man.colour mover.origin t }
{
    match info.position.ep_target() {
        Some(target) => {
            let captures = info
                .rays
                .leap(mover.origin, Leap::capture_of(mover.man.colour));
            captures & square_sets::single(target.index() as u8)
        }
        None => 0,
    }
}

/// The squares from which pawns of the side to move capture en passant: two at most.
pub(crate) fn en_passant_origins(info: &LegalityInfo) -> u64
    ensures { (o t : ℕ) → o < 64 → t < 64 → has result o ≡ false → takes_en_passant info.now.position.now info.now.side o t ≡ false }
{
    match info.position.ep_target() {
        Some(target) => {
            let back = Leap::capture_back(info.side);
            info.rays.leap(target.index() as u8, back)
        }
        None => 0,
    }
}

/// Where the pawn captures en passant so that its king is safe afterwards: one square at most.
pub(crate) fn safe_en_passant(info: &LegalityInfo, mover: Mover) -> u64
    requires info { IsLegalityInfo info.now }
    requires mover { IsMoverOf mover info.now.position.now }
    requires pawn { mover.man.kind ≡ kind.Pawn }
    ensures { (t : ℕ) → t < 64 → has result t ≡ (takes_en_passant info.now.position.now mover.man.colour mover.origin t
        && not (is_in_check (cleared (moved info.now.position.now.men mover.origin t mover.man) (captured_pawn mover.origin t))
        info.now.position.now.side)) }
{
    let passing = en_passant_targets(info, mover);
    if passing == 0 {
        return 0;
    }
    let target = square_sets::lowest(passing);
    let captured = captured_pawn(Square::numbered(mover.origin), Square::numbered(target));
    if is_safe_en_passant(info, mover.origin, target, captured.index() as u8) {
        passing
    } else {
        0
    }
}

/// Whether the king is safe once a pawn captured another en passant, which stood on the square `captured`.
pub(crate) fn is_safe_en_passant(info: &LegalityInfo, origin: u8, target: u8, captured: u8) -> bool
    requires info { IsLegalityInfo info.now }
    requires on_board { (origin < 64) × (target < 64) × (captured < 64) }
    ensures { (man : ManValue) → is_of (other_side info.now.position.now.side) (man_at info.now.position.now.men origin) ≡ false
        → is_colour (other_side info.now.position.now.side) man.colour ≡ false
        → result ≡ not (is_hit (cleared (moved info.now.position.now.men origin target man) captured) info.now.king
        (other_side info.now.position.now.side)) }
{
    let moved = square_sets::with(square_sets::without(info.occupied, origin), target);
    let after = square_sets::without(moved, captured);
    let left = without(&without(&info.enemy, target), captured);
    !is_hit_over(info.rays, after, &left, info.side.other(), info.king)
}
