//! The replies that parry what is threatened.

ghost use Rattle.std.specs.Prelude.{◌≡◌, ◌≤◌, true};
ghost use Rattle.chess_board.specs.Legality.{is_legal as is_legal_move};
ghost use Rattle.chess_problems.specs.Outcomes.{AreLegal};
ghost use Rattle.mate_tree.specs.Continuations.{keys_of};
ghost use Rattle.mate_tree.specs.Parries.{is_met as is_reply_met, parrying, still_mates as does_still_mate, threats as threats_of};

use crate::continuations::soonest;
use crate::passing::passed;
use chess_board::{Move, Position, after};
use chess_moves::{MoveList, Rays, is_legal, legal, legal_listed};
use chess_problems::Outcome;
use mate_search::{Guide, Memo, Never, leaves_lost};

/// All moves that begin the shortest mate.
fn into_keys(outcome: Outcome) -> MoveList
    ensures { result.items ≡ keys_of outcome }
{
    match outcome {
        Outcome::Mate { keys, .. } => keys,
        Outcome::NoMate => MoveList::new(),
    }
}

/// All that would mate soonest, with so many moves left, were the defender to pass.
fn threats(rays: &Rays, position: &Position, left: u8, memo: &mut Memo) -> MoveList
    requires { left ≤ 15 }
    ensures list { result.items ≡ threats_of left position.now }
    ensures room { memo.new.room ≡ memo.old.room }
{
    match passed(position) {
        Some(other) => into_keys(soonest(rays, &other, left, memo)),
        None => MoveList::new(),
    }
}

/// Whether a threat still mates within so many moves.
fn still_mates(rays: &Rays, position: &Position, threat: Move, left: u8, memo: &mut Memo) -> bool
    ensures mates { result ≡ does_still_mate left position.now threat }
    ensures room { memo.new.room ≡ memo.old.room }
{
    if !is_legal(rays, position, threat) {
        return false;
    }
    let guide = Guide { rays, halt: &Never };
    match leaves_lost(&guide, position, threat, left.saturating_sub(1), memo) {
        Ok(found) => found,
        Err(_) => unreachable!(),
    }
}

/// Whether one of the threats still mates within so many moves.
fn is_met(rays: &Rays, position: &Position, threats: &[Move], left: u8, memo: &mut Memo) -> bool
    ensures met { result ≡ is_reply_met left threats.now position.now }
    ensures room { memo.new.room ≡ memo.old.room }
{
    for threat in threats {
        if still_mates(rays, position, *threat, left, memo) {
            return true;
        }
    }
    false
}

/// The replies that parry, in move order: after each no threat still mates within the moves that are left.
#[tactic(auto, unfolding(crate::specs::Parries::parrying))]
pub(crate) fn parrying(rays: &Rays, position: &Position, left: u8, memo: &mut Memo) -> MoveList
    requires { left ≤ 15 }
    ensures list { result.items ≡ parrying left position.now }
    ensures legal { AreLegal position.now result.items }
    ensures room { memo.new.room ≡ memo.old.room }
{
    // That each of them is legal by itself, as `after` asks.
    legal_listed();
    let threats = threats(rays, position, left, memo);
    let replies = legal(rays, position);
    let mut found = MoveList::new();
    for r in replies.as_slice() {
        if !is_met(rays, &after(position, *r), threats.as_slice(), left, memo) {
            found.push(*r);
        }
    }
    found
}
