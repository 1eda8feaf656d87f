//! Problems solved by the search in its plain form: keys, and the line of play.

ghost use Rattle.std.specs.Prelude.{◌≡◌, ◌+◌, ◌*◌, ◌<◌, ◌≤◌, true, All, IfOk, IfSome, length};
ghost use Rattle.arrayvec.specs.ArrayVec.{array_vec_len};
ghost use Rattle.chess_board.specs.Legality.{is_legal};

use crate::plain_memo::{Entry, PlainMemo};
use crate::plain_search::{loses, wins};
use chess_board::{Move, Position, after};
use chess_moves::{MoveList, is_legal, legal};
use chess_problems::{Bound, Outcome, Problem, Variation};
use mate_search::{Guide, Halt, Stopped, first_moves};

/// Where a search begins: a position, and of its legal moves those that the attacker may begin with.
#[derive(Clone, Copy)]
struct Root<'a> {
    position: &'a Position,
    first: &'a [Move],
}

/// What there is to say of a problem, where no verdict on its first moves was told before.
pub(crate) fn solve_either<H: Halt>(
    guide: &Guide<H>,
    problem: &Problem,
    memo: &mut PlainMemo,
) -> Result<Outcome, Stopped> {
    if problem.avoid.is_empty() {
        solve_all(guide, &problem.position, problem.bound, memo)
    } else {
        solve_rest(guide, problem, memo)
    }
}

/// Where nothing is to be avoided: the memo may know of the position itself, and keeps what was found of it.
#[tactic(auto, using(crate::proofs::LegalMoves::legal_each))]
fn solve_all<H: Halt>(
    guide: &Guide<H>,
    position: &Position,
    bound: Bound,
    memo: &mut PlainMemo,
) -> Result<Outcome, Stopped> {
    let known = memo.entry(position);
    let first = legal(guide.rays, position);
    let root = Root {
        position,
        first: first.as_slice(),
    };
    let outcome = solve_among(guide, &root, known.none_within, bound, memo)?;
    memo.keep(position, learned(known, &outcome, bound));
    Ok(outcome)
}

/// Where moves are to be avoided: what is found of the position so is not what a memo keeps, so it is not asked about it. Its list of
/// moves takes room only where it is called.
#[inline(never)]
fn solve_rest<H: Halt>(
    guide: &Guide<H>,
    problem: &Problem,
    memo: &mut PlainMemo,
) -> Result<Outcome, Stopped> {
    let first = first_moves(guide.rays, problem);
    let root = Root {
        position: &problem.position,
        first: first.as_slice(),
    };
    solve_among(guide, &root, 0, problem.bound, memo)
}

/// What is known of a position once its problem is solved.
fn learned(known: Entry, outcome: &Outcome, bound: Bound) -> Entry {
    match outcome {
        Outcome::Mate { dm, .. } => known.with(dm.get() - 1, false).with(dm.get(), true),
        Outcome::NoMate => known.with(bound.get(), false),
    }
}

/// What there is to say where the attacker's first move is one of these, with none of which it mates within `none` moves: looks for
/// keys of a mate in one move more, two, and so on up to the bound.
fn solve_among<H: Halt>(
    guide: &Guide<H>,
    root: &Root,
    none: u8,
    bound: Bound,
    memo: &mut PlainMemo,
) -> Result<Outcome, Stopped>
    requires few { length root.now.first.now ≤ 1024 }
    requires legal { All (λ m. is_legal root.now.position.now m ≡ true) root.now.first.now }
{
    for k in none..bound.get() {
        let keys = keys_among(guide, root, k + 1, memo)?;
        if !keys.is_empty() {
            let Some(dm) = Bound::new(k + 1) else {
                unreachable!();
            };
            let pv = line_of_play(guide, root.position, keys.as_slice(), k + 1, memo)?;
            return Ok(Outcome::Mate { dm, keys, pv });
        }
    }
    Ok(Outcome::NoMate)
}

/// The line of play of a mate within `n` moves, the first of which is one of these.
fn line_of_play<H: Halt>(
    guide: &Guide<H>,
    position: &Position,
    keys: &[Move],
    n: u8,
    memo: &mut PlainMemo,
) -> Result<Variation, Stopped>
    requires some { 0 < n }
    requires bounded { n ≤ 15 }
{
    let mut pv = Variation::new();
    if let [key, ..] = keys {
        let _origin = key.origin;
        if is_legal(guide.rays, position, *key) {
            push_variation(guide, position, *key, n, memo, &mut pv)?;
        }
    }
    Ok(pv)
}

/// Of the first moves the keys of a mate within `n` moves, in their order.
fn keys_among<H: Halt>(
    guide: &Guide<H>,
    root: &Root,
    n: u8,
    memo: &mut PlainMemo,
) -> Result<MoveList, Stopped>
    requires some { 0 < n }
    requires few { length root.now.first.now ≤ 1024 }
    requires legal { All (λ m. is_legal root.now.position.now m ≡ true) root.now.first.now }
{
    let mut keys = MoveList::new();
    for m in root.first {
        if loses(guide, &after(root.position, *m), n - 1, memo)? {
            keys.push(*m);
        }
    }
    Ok(keys)
}

/// The first of these keys. No proof says here that each is legal.
fn least_key<H: Halt>(
    guide: &Guide<H>,
    position: &Position,
    first: &[Move],
    n: u8,
    memo: &mut PlainMemo,
) -> Result<Option<Move>, Stopped>
    requires some { 0 < n }
    ensures legal { IfOk result (λ found. IfSome found (λ m. is_legal position.now m ≡ true)) }
{
    for m in first {
        let _origin = m.origin;
        if is_legal(guide.rays, position, *m) && loses(guide, &after(position, *m), n - 1, memo)? {
            return Ok(Some(*m));
        }
    }
    Ok(None)
}

/// The longest defence: the first reply after which the attacker does not mate within `j` moves.
#[tactic(auto, using(crate::proofs::LegalMoves::legal_each))]
fn longest_defence<H: Halt>(
    guide: &Guide<H>,
    position: &Position,
    j: u8,
    memo: &mut PlainMemo,
) -> Result<Option<Move>, Stopped>
    ensures legal { IfOk result (λ found. IfSome found (λ r. is_legal position.now r ≡ true)) }
{
    let replies = legal(guide.rays, position);
    for r in replies.as_slice() {
        if !wins(guide, &after(position, *r), j, memo)? {
            return Ok(Some(*r));
        }
    }
    Ok(None)
}

/// Appends the principal variation to a mate within `n` moves that begins with this key.
#[cycle(variation)]
fn push_variation<H: Halt>(
    guide: &Guide<H>,
    position: &Position,
    key: Move,
    n: u8,
    memo: &mut PlainMemo,
    out: &mut Variation,
) -> Result<(), Stopped>
    requires some { 0 < n }
    requires room { array_vec_len out.old + 2 * n ≤ 30 }
    requires legal { is_legal position.now key ≡ true }
{
    out.push(key);
    if n > 1 {
        let q = after(position, key);
        if let Some(r) = longest_defence(guide, &q, n - 2, memo)? {
            out.push(r);
            push_next(guide, &after(&q, r), n - 1, memo, out)?;
        }
    }
    Ok(())
}

/// The same, where the first move is any legal one. Only here a list of moves takes room, so that a mate in one needs none.
#[inline(never)]
#[cycle(variation)]
fn push_next<H: Halt>(
    guide: &Guide<H>,
    position: &Position,
    n: u8,
    memo: &mut PlainMemo,
    out: &mut Variation,
) -> Result<(), Stopped>
    requires some { 0 < n }
    requires room { array_vec_len out.old + 2 * n ≤ 30 }
{
    let first = legal(guide.rays, position);
    match least_key(guide, position, first.as_slice(), n, memo)? {
        Some(m) => push_variation(guide, position, m, n, memo, out),
        None => Ok(()),
    }
}
