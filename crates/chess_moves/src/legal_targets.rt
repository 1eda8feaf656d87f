//! The targets of a man's legal moves, as a set of squares: none of them is made.

ghost use Rattle.std.specs.Prelude.{◌≡◌, ◌<◌, false, filter, length, nat_lt};
ghost use Rattle.chess_board.specs.declared.men.Kind.TheVariants as kind;
ghost use Rattle.chess_board.specs.inside.KindTests.{is_king_kind, is_pawn_kind};
ghost use Rattle.chess_board.specs.Legality.{is_legal};
ghost use Rattle.chess_moves.specs.inside.Listing.{moves_to};
ghost use Rattle.chess_moves.specs.inside.LegalTargets.{AreTargets, IsTarget};
ghost use Rattle.chess_moves.specs.inside.LegalityInfo.{IsLegalityInfo};
ghost use Rattle.chess_moves.specs.inside.Movers.{IsMoverOf};

use crate::castling_targets::castling_targets;
use crate::checks_and_pins::{is_safe_step, legal_mask, unsafe_squares};
use crate::en_passant_targets::safe_en_passant;
use crate::legality_info::LegalityInfo;
use crate::movers::{Mover, king_of};
use crate::pseudo_legal_targets::{pawn_targets, piece_targets};
use chess_board::Kind;
use square_sets::{squares, with};

/// The targets of the legal moves of a man of the side to move.
pub(crate) fn targets_from(info: &LegalityInfo, mover: Mover) -> u64
    requires info { IsLegalityInfo info.now }
    requires mover { IsMoverOf mover info.now.position.now }
    ensures { AreTargets result info.now.position.now mover.man mover.origin }
{
    match mover.man.kind {
        Kind::Pawn => targets_of_pawn(info, mover),
        Kind::King => targets_of_king(info, mover),
        Kind::Knight | Kind::Bishop | Kind::Rook | Kind::Queen => targets_of_piece(info, mover),
    }
}

/// The targets of the legal moves of a man of the side to move, told at once for a piece but the king that cannot be pinned.
#[inline(always)]
pub(crate) fn targets_at_once(info: &LegalityInfo, mover: Mover) -> u64
    requires info { IsLegalityInfo info.now }
    requires mover { IsMoverOf mover info.now.position.now }
    ensures { AreTargets result info.now.position.now mover.man mover.origin }
{
    // A mover of its own is made for each call, so that none is laid in memory before it is known that there is one.
    let Mover { man, origin } = mover;
    match man.kind {
        Kind::Pawn | Kind::King => targets_from(info, Mover { man, origin }),
        Kind::Knight | Kind::Bishop | Kind::Rook | Kind::Queen => {
            if square_sets::contains(info.pin_squares, origin) {
                return targets_from(info, Mover { man, origin });
            }
            piece_targets(info, mover) & info.check_mask
        }
    }
}

/// Whether a square is such a target. No other step of a king is asked about; of a square to which the man does not go it is asked only
/// whether a king castles there, or a pawn captures en passant.
pub(crate) fn is_target(info: &LegalityInfo, mover: Mover, target: u8) -> bool
    requires info { IsLegalityInfo info.now }
    requires mover { IsMoverOf mover info.now.position.now }
    requires on_board { target < 64 }
    ensures { IsTarget result info.now.position.now mover.man mover.origin target }
{
    match mover.man.kind {
        Kind::King => {
            let steps = piece_targets(info, mover);
            if square_sets::contains(steps, target) {
                is_safe_step(info, target)
            } else {
                square_sets::contains(castling_targets(info), target)
            }
        }
        Kind::Pawn => is_target_of_pawn(info, mover, target),
        Kind::Knight | Kind::Bishop | Kind::Rook | Kind::Queen => {
            is_target_of_piece(info, mover, target)
        }
    }
}

/// Whether a square is a target of a knight, a bishop, a rook or a queen.
fn is_target_of_piece(info: &LegalityInfo, mover: Mover, target: u8) -> bool
    requires info { IsLegalityInfo info.now }
    requires mover { IsMoverOf mover info.now.position.now }
    requires on_board { target < 64 }
    requires no_pawn { is_pawn_kind mover.man.kind ≡ false }
    requires no_king { is_king_kind mover.man.kind ≡ false }
    ensures { IsTarget result info.now.position.now mover.man mover.origin target }
{
    let goes = piece_targets(info, mover);
    if !square_sets::contains(goes, target) {
        return false;
    }
    square_sets::contains(legal_mask(info, mover.origin), target)
}

/// Whether a square is a target of a pawn.
fn is_target_of_pawn(info: &LegalityInfo, mover: Mover, target: u8) -> bool
    requires info { IsLegalityInfo info.now }
    requires mover { IsMoverOf mover info.now.position.now }
    requires on_board { target < 64 }
    requires pawn { mover.man.kind ≡ kind.Pawn }
    ensures { IsTarget result info.now.position.now mover.man mover.origin target }
{
    let goes = pawn_targets(info, mover);
    if !square_sets::contains(goes, target) {
        let passing = safe_en_passant(info, mover);
        return square_sets::contains(passing, target);
    }
    square_sets::contains(targets_of_pawn(info, mover), target)
}

/// The targets of the legal moves of a knight, a bishop, a rook or a queen.
fn targets_of_piece(info: &LegalityInfo, mover: Mover) -> u64
    requires info { IsLegalityInfo info.now }
    requires mover { IsMoverOf mover info.now.position.now }
    requires no_pawn { is_pawn_kind mover.man.kind ≡ false }
    requires no_king { is_king_kind mover.man.kind ≡ false }
    ensures { AreTargets result info.now.position.now mover.man mover.origin }
{
    let allowed = legal_mask(info, mover.origin);
    piece_targets(info, mover) & allowed
}

/// The targets of a pawn's legal moves.
fn targets_of_pawn(info: &LegalityInfo, mover: Mover) -> u64
    requires info { IsLegalityInfo info.now }
    requires mover { IsMoverOf mover info.now.position.now }
    requires pawn { mover.man.kind ≡ kind.Pawn }
    ensures { AreTargets result info.now.position.now mover.man mover.origin }
{
    let allowed = legal_mask(info, mover.origin);
    pawn_targets(info, mover) & allowed | safe_en_passant(info, mover)
}

/// The targets of the king's legal moves. Each step is asked about by itself, since the king may step along the line of an attack, unless
/// there are more of them than sliders: all that is attacked is told sooner then. Where it castles its goal was asked about, and castling
/// opens no line to it.
#[inline(always)]
pub(crate) fn targets_of_king(info: &LegalityInfo, mover: Mover) -> u64
    requires info { IsLegalityInfo info.now }
    requires mover { IsMoverOf mover info.now.position.now }
    requires king { mover.man.kind ≡ kind.King }
    ensures { AreTargets result info.now.position.now mover.man mover.origin }
{
    let steps = piece_targets(info, mover);
    let castlings = castling_targets(info);
    if steps.count_ones() > (info.enemy.diagonal | info.enemy.straight).count_ones() {
        return steps & !unsafe_squares(info) | castlings;
    }
    let mut safe = 0;
    for target in squares(steps) {
        if is_safe_step(info, target) {
            safe = with(safe, target);
        }
    }
    safe | castlings
}

/// Whether the king has a legal move. It looks no further than the first.
pub(crate) fn king_can_move(info: &LegalityInfo) -> bool
    requires info { IsLegalityInfo info.now }
    ensures { result ≡ nat_lt 0 (length (filter (is_legal info.now.position.now) (moves_to info.now.king 64))) }
{
    let steps = piece_targets(info, king_of(info));
    for target in squares(steps) {
        if is_safe_step(info, target) {
            return true;
        }
    }
    castling_targets(info) != 0
}
