//! The search in its plain form, without the filter that spares look-ups of the memo and without the tags of the table of replies.
//! It proves no more than that it is safe.

ghost use Rattle.std.specs.Prelude.{◌<◌, IfOk, IfSome};

use crate::plain_memo::PlainMemo;
use chess_board::{Move, Position, after};
use chess_moves::{
    Rays, Verdict, attacked, has_mating_move, is_legal, is_mated, king_escapes, legal_moves,
    verdict,
};
use mate_search::{Guide, Halt, Stopped};

/// Whether the attacker, to move, mates within `n` moves. A position one move from the end is not worth keeping.
#[cycle(search)]
pub(crate) fn wins<H: Halt>(
    guide: &Guide<H>,
    position: &Position,
    n: u8,
    memo: &mut PlainMemo,
) -> Result<bool, Stopped> {
    match n {
        0 => Ok(false),
        1 => Ok(mates(guide.rays, position)),
        _ => wins_longer(guide, position, n, memo),
    }
}

/// Whether the side to move is in check, as the ray tables tell it. Only the order of replies goes by it.
fn in_check(rays: &Rays, position: &Position) -> bool {
    let side = position.side();
    attacked(rays, position, position.king(side), side.other())
}

/// Whether a legal move mates.
fn mates(rays: &Rays, position: &Position) -> bool {
    has_mating_move(rays, position)
}

/// Whether the attacker mates within `n` moves, more than one: by the memo, or else by trying to mate within fewer moves first,
/// since most mates of a search are short. Here, once
/// for each position that is searched so, it is asked whether to stop.
#[cycle(search)]
fn wins_longer<H: Halt>(
    guide: &Guide<H>,
    position: &Position,
    n: u8,
    memo: &mut PlainMemo,
) -> Result<bool, Stopped> {
    if guide.halt.is_stopped() {
        return Err(Stopped);
    }
    let known = memo.entry(position);
    if let Some(found) = known.answer(n) {
        return Ok(found);
    }
    if known.none_within == 0 && mates(guide.rays, position) {
        return Ok(true);
    }
    match least_win(guide, position, known.none_within.max(1), n, memo)? {
        Some(k) => {
            memo.keep(position, known.with(k - 1, false).with(k, true));
            Ok(true)
        }
        None => {
            memo.keep(position, known.with(n, false));
            Ok(false)
        }
    }
}

/// The least number of moves up to `n` within which the attacker mates, where it does not within `none`.
#[cycle(search)]
fn least_win<H: Halt>(
    guide: &Guide<H>,
    position: &Position,
    none: u8,
    n: u8,
    memo: &mut PlainMemo,
) -> Result<Option<u8>, Stopped>
    ensures some { IfOk result (λ least. IfSome least (λ k. 0 < k)) }
{
    for k in none..n {
        if wins_by_some(guide, position, k + 1, memo)? {
            return Ok(Some(k + 1));
        }
    }
    Ok(None)
}

/// Whether the attacker mates within `n` moves. No list of its moves is made.
#[cycle(search)]
fn wins_by_some<H: Halt>(
    guide: &Guide<H>,
    position: &Position,
    n: u8,
    memo: &mut PlainMemo,
) -> Result<bool, Stopped>
    requires some { 0 < n }
{
    for m in legal_moves(guide.rays, position) {
        if loses_again(guide, &after(position, m), n - 1, memo)? {
            return Ok(true);
        }
    }
    Ok(false)
}

/// Whether the defender loses, which may be known from another line that led to the same position.
#[cycle(search)]
fn loses_again<H: Halt>(
    guide: &Guide<H>,
    position: &Position,
    k: u8,
    memo: &mut PlainMemo,
) -> Result<bool, Stopped> {
    if k == 1 && king_escapes(guide.rays, position) {
        return Ok(false);
    }
    if let Some(is_lost) = memo.judged(position, k) {
        return Ok(is_lost);
    }
    let is_lost = loses(guide, position, k, memo)?;
    memo.keep_judged(position, k, is_lost);
    Ok(is_lost)
}

/// Whether the defender, to move, is mated, or the attacker mates within `k` moves whatever the reply.
#[cycle(search)]
pub(crate) fn loses<H: Halt>(
    guide: &Guide<H>,
    position: &Position,
    k: u8,
    memo: &mut PlainMemo,
) -> Result<bool, Stopped> {
    if k == 0 {
        return Ok(is_mated(guide.rays, position));
    }
    if is_refuted_first(guide, position, k, memo)? {
        return Ok(false);
    }
    if k == 1 {
        return loses_each(guide, position, k, memo);
    }
    loses_by_men(guide, position, k, memo)
}

/// Whether one of those replies refutes that are likely to: one move from the end the two that refuted last, before that what the memo
/// knows, checks, and captures.
#[cycle(search)]
fn is_refuted_first<H: Halt>(
    guide: &Guide<H>,
    position: &Position,
    k: u8,
    memo: &mut PlainMemo,
) -> Result<bool, Stopped> {
    if k == 1 {
        return is_refuted_by_killer(guide, position, k, memo);
    }
    if is_known_refuted(guide.rays, position, k, memo) {
        return Ok(true);
    }
    if is_refuted_by_check(guide, position, k, memo)? {
        return Ok(true);
    }
    is_refuted_by_capture(guide, position, k, memo)
}

/// Whether one of the two replies that refuted last refutes: the attacker does not mate within `k` moves after it.
#[cycle(search)]
fn is_refuted_by_killer<H: Halt>(
    guide: &Guide<H>,
    position: &Position,
    k: u8,
    memo: &mut PlainMemo,
) -> Result<bool, Stopped> {
    let (last, earlier) = memo.killers();
    if refutes(guide, position, last, k, memo)? {
        return Ok(true);
    }
    refutes(guide, position, earlier, k, memo)
}

/// Whether the memo knows of a reply after which the attacker does not mate within `k` moves. To ask about all of them costs
/// less than to search one.
fn is_known_refuted(rays: &Rays, position: &Position, k: u8, memo: &mut PlainMemo) -> bool {
    for r in legal_moves(rays, position) {
        if memo.entry(&after(position, r)).answer(k) == Some(false) {
            return true;
        }
    }
    false
}

/// Whether a reply that checks refutes: the attacker does not mate within `k` moves after it. No list is kept while it searches.
#[cycle(search)]
fn is_refuted_by_check<H: Halt>(
    guide: &Guide<H>,
    position: &Position,
    k: u8,
    memo: &mut PlainMemo,
) -> Result<bool, Stopped> {
    for r in legal_moves(guide.rays, position) {
        let next = after(position, r);
        if in_check(guide.rays, &next) && !wins(guide, &next, k, memo)? {
            return Ok(true);
        }
    }
    Ok(false)
}

/// Whether a reply that takes a man on its target refutes: the attacker does not mate within `k` moves after it.
#[cycle(search)]
fn is_refuted_by_capture<H: Halt>(
    guide: &Guide<H>,
    position: &Position,
    k: u8,
    memo: &mut PlainMemo,
) -> Result<bool, Stopped> {
    for r in legal_moves(guide.rays, position) {
        if position.man(r.target).is_some() && !wins(guide, &after(position, r), k, memo)? {
            return Ok(true);
        }
    }
    Ok(false)
}

/// Whether this is a legal reply after which the attacker does not mate within `k` moves.
#[cycle(search)]
fn refutes<H: Halt>(
    guide: &Guide<H>,
    position: &Position,
    reply: Option<Move>,
    k: u8,
    memo: &mut PlainMemo,
) -> Result<bool, Stopped> {
    let Some(r) = reply else {
        return Ok(false);
    };
    // That its squares are on the board is seen where one is read.
    let _origin = r.origin;
    if !is_legal(guide.rays, position, r) || wins(guide, &after(position, r), k, memo)? {
        return Ok(false);
    }
    memo.keep_refutation(r);
    Ok(true)
}

/// Whether the defender loses, by all its replies in order, each of which has to lose. One that does not is tried first from then on.
#[cycle(search)]
fn loses_each<H: Halt>(
    guide: &Guide<H>,
    position: &Position,
    k: u8,
    memo: &mut PlainMemo,
) -> Result<bool, Stopped> {
    let mut moves = false;
    for r in legal_moves(guide.rays, position) {
        moves = true;
        if !wins(guide, &after(position, r), k, memo)? {
            memo.keep_refutation(r);
            return Ok(false);
        }
    }
    Ok(moves || position.in_check())
}

/// Whether the defender loses, by all its replies, each of which has to lose: those of the other men are asked before the king's.
#[cycle(search)]
fn loses_by_men<H: Halt>(
    guide: &Guide<H>,
    position: &Position,
    k: u8,
    memo: &mut PlainMemo,
) -> Result<bool, Stopped> {
    if is_refuted_by_men(guide, position, false, k, memo)? {
        return Ok(false);
    }
    if is_refuted_by_men(guide, position, true, k, memo)? {
        return Ok(false);
    }
    Ok(verdict(guide.rays, position) != Verdict::Stalemate)
}

/// Whether a reply of the king, or of another man, refutes: the attacker does not mate within `k` moves after it.
#[cycle(search)]
fn is_refuted_by_men<H: Halt>(
    guide: &Guide<H>,
    position: &Position,
    is_king: bool,
    k: u8,
    memo: &mut PlainMemo,
) -> Result<bool, Stopped> {
    let king = position.king(position.side());
    for r in legal_moves(guide.rays, position) {
        if (r.origin == king) == is_king && !wins(guide, &after(position, r), k, memo)? {
            return Ok(true);
        }
    }
    Ok(false)
}
