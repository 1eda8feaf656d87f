//! Mate and stalemate: whether the game goes on, and whether a king is in check.

ghost use Rattle.std.specs.Prelude.{◌≡◌, length, nat_lt};
ghost use Rattle.square_sets.specs.Members.{members};
ghost use Rattle.chess_board.specs.Attacks.{is_in_check};
ghost use Rattle.chess_moves.specs.Verdicts.{verdict_of, is_mate};
ghost use Rattle.chess_moves.specs.inside.MoveGeneration.{moves_of_men, HaveOwnMen};
ghost use Rattle.chess_moves.specs.inside.LegalityInfo.{IsLegalityInfo};

use crate::attackers::attacked;
use crate::legal_targets::{king_can_move, targets_at_once};
use crate::legality_info::{LegalityInfo, bare_info_of, with_checks_and_pins};
use crate::move_generation::legal_moves;
use crate::movers::mover_on;
use crate::promotions::count_ways;
use crate::ray_tables::Rays;
use crate::verdicts::Verdict;
use chess_board::Position;

/// The verdict of a position: mate, stalemate or play (FIDE Laws of Chess, articles 5.1.1 and 5.2.1). It looks no further than the
/// first legal move.
pub fn verdict(rays: &Rays, position: &Position) -> Verdict
    ensures { result ≡ verdict_of position.now }
{
    if legal_moves(rays, position).next().is_some() {
        Verdict::Play
    } else if in_check(rays, position) {
        Verdict::Mate
    } else {
        Verdict::Stalemate
    }
}

/// Whether the side to move is in check: its king is attacked (FIDE Laws of Chess, article 3.9.1).
#[tactic(auto, using(crate::proofs::OneKing::in_check_is))]
pub fn in_check(rays: &Rays, position: &Position) -> bool
    ensures { result ≡ is_in_check position.now.men position.now.side }
{
    let side = position.side();
    attacked(rays, position, position.king(side), side.other())
}

/// Whether the side to move is mated (FIDE Laws of Chess, article 5.1.1), told in the order that refutes soonest: no check, a move of
/// the king, a move of another man. Only the last asks about checks and pins.
pub fn is_mated(rays: &Rays, position: &Position) -> bool
    ensures { result ≡ is_mate position.now }
{
    if !in_check(rays, position) {
        return false;
    }
    let bare = bare_info_of(rays, position);
    if king_can_move(&bare) {
        return false;
    }
    let info = with_checks_and_pins(bare);
    let king = square_sets::single(bare.king);
    !can_move(&info, bare.own & !king)
}

/// Whether one of these men of the side to move has a legal move.
fn can_move(info: &LegalityInfo, men: u64) -> bool
    requires info { IsLegalityInfo info.now }
    requires men { HaveOwnMen men info.now.position.now }
    ensures { result ≡ nat_lt 0 (length (moves_of_men info.now.position.now (members men))) }
{
    for origin in square_sets::squares(men) {
        let mover = mover_on(info.position, origin);
        if count_ways(mover.man, targets_at_once(info, mover)) != 0 {
            return true;
        }
    }
    false
}
