//! Whether the side to move mates, or is mated, within so many moves of the attacker. Each search ends at once where it is to stop.

ghost use Rattle.std.specs.Prelude.{◌≡◌, ◌<◌, ◌≤◌, ◌-◌, true, false, IfOk, IfSome, IsSome, None};
ghost use Rattle.chess_board.specs.Legality.{is_legal};
ghost use Rattle.chess_board.specs.MakeMove.{after_setup};
ghost use Rattle.chess_board.specs.Sets.{IsSetOf};
ghost use Rattle.chess_moves.specs.Escapes.{AreGuardsOf};
ghost use Rattle.mate_search.specs.Wins.{win, lost};
ghost use Rattle.mate_search.specs.inside.Halting.{EndsSearch};
ghost use Rattle.mate_search.specs.inside.Replies.{is_but_king, each_loses};
ghost use Rattle.mate_search.specs.inside.SideOccupancy.{IsOccupancyOf, IsPlain};

use crate::halting::{Guide, Halt, Stopped};
use crate::memo::Memo;
use crate::reply_table::place_of;
use crate::side_occupancy::{SideOccupancy, men_of};
use chess_board::{Kind, Move, Position, after};
use chess_moves::{
    EscapeGuards, Rays, Verdict, guards_of_escapes, has_mating_move, in_check, is_legal, is_mated,
    king_escapes, leaves_escape, legal_listed, legal_moves, legal_moves_of, verdict,
};

/// Whether the attacker, to move, mates within `n` moves. A position one move from the end is not worth keeping.
#[cycle(search)]
pub(crate) fn wins<H: Halt>(
    guide: &Guide<H>,
    position: &Position,
    n: u8,
    memo: &mut Memo,
) -> Result<bool, Stopped>
    ensures found { IfOk result (λ found. found ≡ win n position.now) }
    ensures ends { EndsSearch result (H.may_stop guide.now.halt.now) memo.old memo.new }
{
    match n {
        0 => Ok(false),
        1 => Ok(mates(guide.rays, position)),
        _ => wins_longer(guide, position, n, memo),
    }
}

/// Whether a legal move mates.
#[tactic(auto, using(crate::proofs::Wins::win_one))]
fn mates(rays: &Rays, position: &Position) -> bool
    ensures { result ≡ win 1 position.now }
{
    has_mating_move(rays, position)
}

/// Whether the attacker mates within `n` moves, more than one: by the memo, or else by trying to mate within fewer moves first,
/// since most mates of a search are short. Here, once for each position that is searched so, it is asked whether to stop.
#[cycle(search)]
fn wins_longer<H: Halt>(
    guide: &Guide<H>,
    position: &Position,
    n: u8,
    memo: &mut Memo,
) -> Result<bool, Stopped>
    requires { 1 < n }
    ensures found { IfOk result (λ found. found ≡ win n position.now) }
    ensures ends { EndsSearch result (H.may_stop guide.now.halt.now) memo.old memo.new }
{
    if guide.halt.is_stopped() {
        return Err(Stopped);
    }
    let known = memo.entry(position);
    if let Some(found) = known.answer(n) {
        return Ok(found);
    }
    if known.none_within == 0 && mates(guide.rays, position) {
        return Ok(true);
    }
    match least_win(guide, position, known.none_within.max(1), n, memo)? {
        Some(k) => {
            memo.keep(position, known.with(k - 1, false).with(k, true));
            Ok(true)
        }
        None => {
            memo.keep(position, known.with(n, false));
            Ok(false)
        }
    }
}

/// The least number of moves up to `n` within which the attacker mates, where it does not within `none`.
#[cycle(search)]
fn least_win<H: Halt>(
    guide: &Guide<H>,
    position: &Position,
    none: u8,
    n: u8,
    memo: &mut Memo,
) -> Result<Option<u8>, Stopped>
    requires { win none position.now ≡ false }
    ensures least { IfOk result (λ least. IfSome least (λ k. (0 < k) × (k ≤ n) × (win (k - 1) position.now ≡ false) × (win k position.now ≡ true))) }
    ensures none { IfOk result (λ least. least ≡ None → win n position.now ≡ false) }
    ensures ends { EndsSearch result (H.may_stop guide.now.halt.now) memo.old memo.new }
{
    for k in none..n {
        if wins_within(guide, position, k + 1, memo)? {
            return Ok(Some(k + 1));
        }
    }
    Ok(None)
}

/// Whether the attacker mates within `n` moves. It is laid in, so that the stack of a search has no frame of it.
#[inline(always)]
#[cycle(search)]
fn wins_within<H: Halt>(
    guide: &Guide<H>,
    position: &Position,
    n: u8,
    memo: &mut Memo,
) -> Result<bool, Stopped>
    requires some { 0 < n }
    ensures found { IfOk result (λ found. found ≡ win n position.now) }
    ensures ends { EndsSearch result (H.may_stop guide.now.halt.now) memo.old memo.new }
{
    match n {
        2 => wins_in_two(guide, position, memo),
        _ => wins_by_some(guide, position, n, memo),
    }
}

/// Whether the attacker mates within two moves. Of its first moves those that are seen to leave an escape aren't made.
#[cycle(search)]
fn wins_in_two<H: Halt>(
    guide: &Guide<H>,
    position: &Position,
    memo: &mut Memo,
) -> Result<bool, Stopped>
    ensures found { IfOk result (λ found. found ≡ win 2 position.now) }
    ensures ends { EndsSearch result (H.may_stop guide.now.halt.now) memo.old memo.new }
{
    let guards = guards_of_escapes(guide.rays, position);
    for m in legal_moves(guide.rays, position) {
        if !lets_escape(position, &guards, m) && loses_again(guide, &after(position, m), 1, memo)? {
            return Ok(true);
        }
    }
    Ok(false)
}

/// Whether a move of the attacker is seen to let the king escape from each mate at once.
#[inline(always)]
fn lets_escape(position: &Position, guards: &EscapeGuards, m: Move) -> bool
    requires guards { AreGuardsOf guards.now position.now }
    requires legal { is_legal position.now m ≡ true }
    ensures { result ≡ true → lost 1 (after_setup position.now m) ≡ false }
{
    // That a legal reply is one of the list is this law.
    legal_listed();
    leaves_escape(position, guards, m)
}

/// Whether the attacker mates within `n` moves. No list of its moves is made.
#[cycle(search)]
fn wins_by_some<H: Halt>(
    guide: &Guide<H>,
    position: &Position,
    n: u8,
    memo: &mut Memo,
) -> Result<bool, Stopped>
    requires some { 0 < n }
    ensures found { IfOk result (λ found. found ≡ win n position.now) }
    ensures ends { EndsSearch result (H.may_stop guide.now.halt.now) memo.old memo.new }
{
    for m in legal_moves(guide.rays, position) {
        if loses_again(guide, &after(position, m), n - 1, memo)? {
            return Ok(true);
        }
    }
    Ok(false)
}

/// Whether the defender's king is seen to escape from each mate at once. To see it costs less than to make a reply and to ask about it.
fn escapes(rays: &Rays, position: &Position) -> bool
    ensures { result ≡ true → lost 1 position.now ≡ false }
{
    // That a legal reply is one of the list is this law.
    legal_listed();
    king_escapes(rays, position)
}

/// Whether the defender loses, which may be known from another line that led to the same position. It is laid in, so that the stack of a
/// search has no frame of it.
#[inline(always)]
#[cycle(search)]
fn loses_again<H: Halt>(
    guide: &Guide<H>,
    position: &Position,
    k: u8,
    memo: &mut Memo,
) -> Result<bool, Stopped>
    ensures lost { IfOk result (λ is_lost. is_lost ≡ lost k position.now) }
    ensures ends { EndsSearch result (H.may_stop guide.now.halt.now) memo.old memo.new }
{
    if k == 1 && escapes(guide.rays, position) {
        return Ok(false);
    }
    let place = place_of(position);
    if let Some(is_lost) = memo.judged(place, position, k) {
        return Ok(is_lost);
    }
    let is_lost = loses(guide, position, k, memo)?;
    memo.keep_judged(place, position, k, is_lost);
    Ok(is_lost)
}

/// Whether the defender, to move, is mated, or the attacker mates within `k` moves whatever the reply.
#[cycle(search)]
pub(crate) fn loses<H: Halt>(
    guide: &Guide<H>,
    position: &Position,
    k: u8,
    memo: &mut Memo,
) -> Result<bool, Stopped>
    ensures lost { IfOk result (λ is_lost. is_lost ≡ lost k position.now) }
    ensures ends { EndsSearch result (H.may_stop guide.now.halt.now) memo.old memo.new }
{
    if k == 0 {
        return Ok(is_mated(guide.rays, position));
    }
    if is_refuted_first(guide, position, k, memo)? {
        return Ok(false);
    }
    if k == 1 {
        return loses_each(guide, position, k, memo);
    }
    loses_by_men(guide, position, k, memo)
}

/// Whether one of those replies refutes that are likely to: one move from the end the two that refuted last, before that what the memo
/// knows, checks, which a king alone does not give, and captures.
#[cycle(search)]
fn is_refuted_first<H: Halt>(
    guide: &Guide<H>,
    position: &Position,
    k: u8,
    memo: &mut Memo,
) -> Result<bool, Stopped>
    ensures refuted { IfOk result (λ refuted. refuted ≡ true → lost k position.now ≡ false) }
    ensures ends { EndsSearch result (H.may_stop guide.now.halt.now) memo.old memo.new }
{
    if k == 1 {
        let (last, earlier) = memo.killers();
        if refutes(guide, position, last, k, memo)? {
            return Ok(true);
        }
        return refutes(guide, position, earlier, k, memo);
    }
    if is_known_refuted(guide.rays, position, k, memo) {
        return Ok(true);
    }
    if others_of(position) != 0 && is_refuted_by_check(guide, position, k, memo)? {
        return Ok(true);
    }
    is_refuted_by_capture(guide, position, k, memo)
}

/// Whether the memo knows of a reply after which the attacker does not mate within `k` moves. To ask about all of them costs
/// less than to search one.
fn is_known_refuted(rays: &Rays, position: &Position, k: u8, memo: &mut Memo) -> bool
    ensures refuted { result ≡ true → lost k position.now ≡ false }
    ensures room { memo.new.room ≡ memo.old.room }
{
    let occupancy = SideOccupancy::of_plain(position);
    for r in legal_moves(rays, position) {
        if is_known_to_refute(position, occupancy, r, k, memo) {
            return true;
        }
    }
    false
}

/// Whether the memo knows that the attacker does not mate within `k` moves after a reply. Where the squares of the men tell those after it,
/// it is not made to tell that nothing is known, since that would cost more.
#[inline(always)]
fn is_known_to_refute(
    position: &Position,
    occupancy: Option<SideOccupancy>,
    reply: Move,
    k: u8,
    memo: &mut Memo,
) -> bool
    requires plain { IsSome occupancy → IsPlain position.now }
    requires occupancy { IfSome occupancy (λ o. IsOccupancyOf o position.now.men) }
    requires legal { is_legal position.now reply ≡ true }
    ensures refutes { result ≡ true → win k (after_setup position.now reply) ≡ false }
    ensures room { memo.new.room ≡ memo.old.room }
{
    let next = match occupancy {
        Some(occupancy) => occupancy.after(position, reply),
        None => SideOccupancy::of(&after(position, reply)),
    };
    if !memo.may_have(next) {
        return false;
    }
    memo.find(&after(position, reply), next).answer(k) == Some(false)
}

/// Whether a reply that checks refutes: the attacker does not mate within `k` moves after it. No list is kept while it searches.
#[cycle(search)]
fn is_refuted_by_check<H: Halt>(
    guide: &Guide<H>,
    position: &Position,
    k: u8,
    memo: &mut Memo,
) -> Result<bool, Stopped>
    ensures refuted { IfOk result (λ refuted. refuted ≡ true → lost k position.now ≡ false) }
    ensures ends { EndsSearch result (H.may_stop guide.now.halt.now) memo.old memo.new }
{
    for r in legal_moves(guide.rays, position) {
        let next = after(position, r);
        if in_check(guide.rays, &next) && !wins(guide, &next, k, memo)? {
            return Ok(true);
        }
    }
    Ok(false)
}

/// Whether a reply that takes a man on its target refutes: the attacker does not mate within `k` moves after it.
#[cycle(search)]
fn is_refuted_by_capture<H: Halt>(
    guide: &Guide<H>,
    position: &Position,
    k: u8,
    memo: &mut Memo,
) -> Result<bool, Stopped>
    ensures refuted { IfOk result (λ refuted. refuted ≡ true → lost k position.now ≡ false) }
    ensures ends { EndsSearch result (H.may_stop guide.now.halt.now) memo.old memo.new }
{
    for r in legal_moves(guide.rays, position) {
        if position.man(r.target).is_some() && !wins(guide, &after(position, r), k, memo)? {
            return Ok(true);
        }
    }
    Ok(false)
}

/// Whether this is a legal reply after which the attacker does not mate within `k` moves.
#[cycle(search)]
fn refutes<H: Halt>(
    guide: &Guide<H>,
    position: &Position,
    reply: Option<Move>,
    k: u8,
    memo: &mut Memo,
) -> Result<bool, Stopped>
    ensures refuted { IfOk result (λ refuted. refuted ≡ true → lost k position.now ≡ false) }
    ensures ends { EndsSearch result (H.may_stop guide.now.halt.now) memo.old memo.new }
{
    let Some(r) = reply else {
        return Ok(false);
    };
    // That a legal reply is one of the list is this law, and that its squares are on the board is seen where one is read.
    legal_listed();
    let _origin = r.origin;
    if !is_legal(guide.rays, position, r) || wins(guide, &after(position, r), k, memo)? {
        return Ok(false);
    }
    memo.keep_refutation(r);
    Ok(true)
}

/// Whether the defender loses, by all its replies in order, each of which has to lose. One that does not is tried first from then on.
#[cycle(search)]
fn loses_each<H: Halt>(
    guide: &Guide<H>,
    position: &Position,
    k: u8,
    memo: &mut Memo,
) -> Result<bool, Stopped>
    ensures lost { IfOk result (λ is_lost. is_lost ≡ lost k position.now) }
    ensures ends { EndsSearch result (H.may_stop guide.now.halt.now) memo.old memo.new }
{
    let mut moves = false;
    for r in legal_moves(guide.rays, position) {
        moves = true;
        if !wins(guide, &after(position, r), k, memo)? {
            memo.keep_refutation(r);
            return Ok(false);
        }
    }
    Ok(moves || position.in_check())
}

/// Whether the defender loses, by all its replies, each of which has to lose. Those of the other men are asked before the king's, which
/// leaves 8 % fewer positions to judge, by a model over hard problems.
#[cycle(search)]
fn loses_by_men<H: Halt>(
    guide: &Guide<H>,
    position: &Position,
    k: u8,
    memo: &mut Memo,
) -> Result<bool, Stopped>
    ensures lost { IfOk result (λ is_lost. is_lost ≡ lost k position.now) }
    ensures ends { EndsSearch result (H.may_stop guide.now.halt.now) memo.old memo.new }
{
    // That each reply is the king's or another man's is seen by this law.
    legal_listed();
    let king = position.men(position.side(), Kind::King);
    if !each_loses(guide, position, others_of(position), k, memo)? {
        return Ok(false);
    }
    if !each_loses(guide, position, king, k, memo)? {
        return Ok(false);
    }
    Ok(verdict(guide.rays, position) != Verdict::Stalemate)
}

/// Whether the attacker mates within `k` moves after each reply of these men.
#[cycle(search)]
fn each_loses<H: Halt>(
    guide: &Guide<H>,
    position: &Position,
    men: u64,
    k: u8,
    memo: &mut Memo,
) -> Result<bool, Stopped>
    ensures each { IfOk result (λ each. each ≡ each_loses men k position.now) }
    ensures ends { EndsSearch result (H.may_stop guide.now.halt.now) memo.old memo.new }
{
    if men == 0 {
        return Ok(true);
    }
    for r in legal_moves_of(guide.rays, position, men) {
        let next = after(position, r);
        if !wins(guide, &next, k, memo)? {
            return Ok(false);
        }
    }
    Ok(true)
}

/// The squares of the men of the side to move but its king.
#[inline(always)]
fn others_of(position: &Position) -> u64
    ensures { IsSetOf result (is_but_king position.now.side) position.now.men }
{
    let side = position.side();
    men_of(position, side) & !position.men(side, Kind::King)
}
