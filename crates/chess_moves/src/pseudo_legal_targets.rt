//! Pseudo-legal targets: where the rules let a man go, whatever becomes of its king (FIDE Laws of Chess, articles 3.1 to 3.8).

ghost use Rattle.std.specs.Prelude.{◌≡◌, ℕ, ◌<◌, ◌||◌, true};
ghost use Rattle.square_sets.specs.Members.{has};
ghost use Rattle.chess_board.specs.declared.men.Kind.TheVariants as kind;
ghost use Rattle.chess_board.specs.PseudoLegal.{steps_once, steps_twice, takes, piece_goes, goes};
ghost use Rattle.chess_moves.specs.inside.Hits.{hits_as};
ghost use Rattle.chess_moves.specs.inside.LegalityInfo.{IsLegalityInfo};
ghost use Rattle.chess_moves.specs.inside.Movers.{IsMoverOf};

use crate::castling_targets::castling_targets;
use crate::directions::Leap;
use crate::en_passant_targets::en_passant_targets;
use crate::legality_info::LegalityInfo;
use crate::movers::Mover;
use crate::ray_tables::Rays;
use chess_board::{Kind, Man};

/// What a man attacks, among the squares that are taken.
#[inline(always)]
pub(crate) fn attacks_of(rays: &Rays, occupied: u64, man: Man, origin: u8) -> u64
    requires { origin < 64 }
    ensures { (t : ℕ) → t < 64 → has result t ≡ hits_as (has occupied) man.colour man.kind origin t }
{
    match man.kind {
        Kind::Pawn => rays.leap(origin, Leap::capture_of(man.colour)),
        Kind::Knight => rays.leap(origin, Leap::KnightLeap),
        Kind::Bishop => rays.bishop_attacks(origin, occupied),
        Kind::Rook => rays.rook_attacks(origin, occupied),
        Kind::Queen => rays.bishop_attacks(origin, occupied) | rays.rook_attacks(origin, occupied),
        Kind::King => rays.leap(origin, Leap::KingStep),
    }
}

/// Where a man goes that is no pawn, castling aside: what it attacks, but not to a man of its own.
#[inline(always)]
pub(crate) fn piece_targets(info: &LegalityInfo, mover: Mover) -> u64
    requires info { IsLegalityInfo info.now }
    requires mover { IsMoverOf mover info.now.position.now }
    ensures { (t : ℕ) → t < 64 → has result t ≡ piece_goes info.now.position.now mover.man.colour mover.man.kind mover.origin t }
{
    attacks_of(info.rays, info.occupied, mover.man, mover.origin) & !info.own
}

/// Where a pawn goes, a capture en passant aside: one step, two steps, and the enemies that it attacks.
#[inline(always)]
pub(crate) fn pawn_targets(info: &LegalityInfo, mover: Mover) -> u64
    requires info { IsLegalityInfo info.now }
    requires mover { IsMoverOf mover info.now.position.now }
    requires pawn { mover.man.kind ≡ kind.Pawn }
    ensures { (t : ℕ) → t < 64 → has result t
        ≡ (steps_once info.now.position.now.men mover.man.colour mover.origin t
        || steps_twice info.now.position.now.men mover.man.colour mover.origin t
        || takes info.now.position.now.men mover.man.colour kind.Pawn mover.origin t) }
{
    let Mover { man, origin } = mover;
    let rays = info.rays;
    let captures = rays.leap(origin, Leap::capture_of(man.colour)) & info.occupied & !info.own;
    let step = rays.leap(origin, Leap::step_of(man.colour)) & !info.occupied;
    if step == 0 {
        return captures;
    }
    let double = rays.leap(origin, Leap::double_of(man.colour)) & !info.occupied;
    step | double | captures
}

/// The targets of a man's pseudo-legal moves: where the rules let it go, whatever becomes of its king.
#[inline(always)]
pub(crate) fn pseudo_legal_targets(info: &LegalityInfo, mover: Mover) -> u64
    requires info { IsLegalityInfo info.now }
    requires mover { IsMoverOf mover info.now.position.now }
    ensures { (t : ℕ) → t < 64 → goes info.now.position.now mover.man.colour mover.man.kind mover.origin t ≡ true → has result t ≡ true }
{
    match mover.man.kind {
        Kind::Pawn => pawn_targets(info, mover) | en_passant_targets(info, mover),
        Kind::King => piece_targets(info, mover) | castling_targets(info),
        Kind::Knight | Kind::Bishop | Kind::Rook | Kind::Queen => piece_targets(info, mover),
    }
}
