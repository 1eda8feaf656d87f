//! Checks and pins: where a man may go so that its king is safe, told from the sets as the move changes them. No move is made.

ghost use Rattle.std.specs.Prelude.{◌≡◌, ℕ, ◌<◌, false, not, ◌&&◌};
ghost use Rattle.square_sets.specs.Members.{has};
ghost use Rattle.chess_board.specs.declared.men.Man.{Man as ManValue};
ghost use Rattle.chess_board.specs.Squares.{some_square};
ghost use Rattle.chess_board.specs.Men.{is_colour, other_side};
ghost use Rattle.chess_board.specs.Positions.{moved};
ghost use Rattle.chess_moves.specs.inside.LegalityInfo.{IsLegalityInfo, IsSafetyMask, gets_through, is_in_check_mask};
ghost use Rattle.chess_moves.specs.inside.Directions.{reaches_as_bishop, reaches_as_rook};
ghost use Rattle.chess_moves.specs.inside.Hits.{is_hit};

use crate::attacked_sets::attacked_squares;
use crate::attackers::{attackers, is_hit_over};
use crate::directions::Leap;
use crate::legality_info::LegalityInfo;
use crate::ray_tables::Rays;
use crate::side_men::without;

/// Whether the king is safe once it stepped to a square. Whom it captures there attacks no square of its own, so that only the king
/// is lifted off the board.
pub(crate) fn is_safe_step(info: &LegalityInfo, target: u8) -> bool
    requires info { IsLegalityInfo info.now }
    requires on_board { target < 64 }
    ensures { (own : ManValue) → is_colour (other_side info.now.position.now.side) own.colour ≡ false
        → result ≡ not (is_hit (moved info.now.position.now.men info.now.king target own) target (other_side info.now.position.now.side)) }
{
    let lifted = square_sets::without(info.occupied, info.king);
    !is_hit_over(info.rays, lifted, &info.enemy, info.side.other(), target)
}

/// The squares where the king is attacked once it stepped there, all at once.
pub(crate) fn unsafe_squares(info: &LegalityInfo) -> u64
    requires info { IsLegalityInfo info.now }
    ensures { (t : ℕ) (own : ManValue) → t < 64 → is_colour (other_side info.now.position.now.side) own.colour ≡ false
        → has result t ≡ is_hit (moved info.now.position.now.men info.now.king t own) t (other_side info.now.position.now.side) }
{
    let others = square_sets::without(info.occupied, info.king);
    attacked_squares(info.rays, others, &info.enemy, info.side.other())
}

/// The squares on which a man stops each of these attackers: by a capture, or by standing in its way.
fn capture_or_block(rays: &Rays, attackers: u64, king: u8) -> u64
    requires { king < 64 }
    ensures { (t : ℕ) → t < 64 → has result t ≡ not (some_square (λ a. has attackers a && gets_through a king t)) }
{
    let mut allowed = u64::MAX;
    for a in square_sets::squares(attackers) {
        allowed &= square_sets::with(rays.between(a, king), a);
    }
    allowed
}

/// The check mask: the squares on which a man other than the king answers the checks that there are, all squares where there is
/// none. Which sliders give check is known.
pub(crate) fn check_mask(info: &LegalityInfo, diagonal: u64, straight: u64) -> u64
    requires info { IsLegalityInfo info.now }
    requires diagonal { (t : ℕ) → t < 64
        → has diagonal t ≡ (has info.now.enemy.diagonal t && reaches_as_bishop (has info.now.occupied) info.now.king t) }
    requires straight { (t : ℕ) → t < 64
        → has straight t ≡ (has info.now.enemy.straight t && reaches_as_rook (has info.now.occupied) info.now.king t) }
    ensures { (t : ℕ) → t < 64 → has result t ≡ is_in_check_mask info.now.position.now info.now.king t }
{
    let rays = info.rays;
    let king = info.king;
    let back = Leap::capture_back(info.side.other());
    let checkers = info.enemy.pawns & rays.leap(king, back)
        | info.enemy.knights & rays.leap(king, Leap::KnightLeap)
        | diagonal
        | straight
        | info.enemy.king & rays.leap(king, Leap::KingStep);
    capture_or_block(rays, checkers, king)
}

/// The check mask and the pin mask of a man other than the king in one: the squares to which it may go from its origin so that the
/// king is safe afterwards. Without that man the board shows whom it holds back: who attacks the king then gives check now, or pins it.
fn check_and_pin_mask(info: &LegalityInfo, origin: u8) -> u64
    requires info { IsLegalityInfo info.now }
    requires on_board { origin < 64 }
    ensures { IsSafetyMask result info.now origin }
{
    let lifted = square_sets::without(info.occupied, origin);
    let through = attackers(info.rays, lifted, &info.enemy, info.side.other(), info.king);
    capture_or_block(info.rays, through, info.king)
}

/// The squares to which a man other than the king may go from its origin so that the king is safe afterwards. One that holds back no
/// slider need only answer the checks that there are.
pub(crate) fn legal_mask(info: &LegalityInfo, origin: u8) -> u64
    requires info { IsLegalityInfo info.now }
    requires on_board { origin < 64 }
    ensures { IsSafetyMask result info.now origin }
{
    if !square_sets::contains(info.pin_squares, origin) {
        return info.check_mask;
    }
    check_and_pin_mask(info, origin)
}
