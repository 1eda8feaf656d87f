//! The keys of a mate and its principal variation, the line of play.

ghost use Rattle.std.specs.Prelude.{◌≡◌, ◌+◌, ◌*◌, ◌<◌, ◌≤◌, ◌++◌, [], true, All, IfOk, IfSome, Contains, List, Some, length};
ghost use Rattle.chess_board.specs.Moves.{Move};
ghost use Rattle.arrayvec.specs.ArrayVec.{array_vec_len};
ghost use Rattle.chess_board.specs.Legality.{is_legal};
ghost use Rattle.chess_moves.specs.inside.Listing.{legal_moves};
ghost use Rattle.mate_search.specs.RootResults.{AreTrueIn};
ghost use Rattle.mate_search.specs.inside.Halting.{EndsSearch};
ghost use Rattle.mate_search.specs.inside.Variation.{keys, least_key, longest_defence, variation};

use crate::halting::{Guide, Halt, Stopped};
use crate::memo::Memo;
use crate::root_results::{Root, judge};
use crate::searching::{loses, wins};
use chess_board::{Move, Position, after};
use chess_moves::{MoveList, legal_moves as all_legal};
use chess_problems::Variation;

/// Appends to a list, of the first moves, the keys of a mate within `n` moves, in their order.
pub(crate) fn push_keys<H: Halt>(
    guide: &Guide<H>,
    root: &Root,
    n: u8,
    memo: &mut Memo,
    out: &mut MoveList,
) -> Result<(), Stopped>
    requires some { 0 < n }
    requires empty { out.old.items ≡ [] }
    requires few { length root.now.first.now ≤ 1024 }
    requires legal { All (λ m. is_legal root.now.position.now m ≡ true) root.now.first.now }
    requires told { AreTrueIn root.now.position.now root.now.told.now }
    ensures keys { IfOk result (λ _. out.new.items ≡ keys root.now.first.now root.now.position.now n) }
    ensures ends { EndsSearch result (H.may_stop guide.now.halt.now) memo.old memo.new }
{
    for m in root.first {
        if judge(guide, root, *m, n - 1, memo)? {
            out.push(*m);
        }
    }
    Ok(())
}

/// The first of the keys of a mate within `n` moves, of all legal moves.
fn least_of_all<H: Halt>(
    guide: &Guide<H>,
    position: &Position,
    n: u8,
    memo: &mut Memo,
) -> Result<Option<Move>, Stopped>
    requires some { 0 < n }
    ensures key { IfOk result (λ found. found ≡ least_key (legal_moves position.now) position.now n) }
    ensures legal { IfOk result (λ found. IfSome found (λ m. is_legal position.now m ≡ true)) }
    ensures ends { EndsSearch result (H.may_stop guide.now.halt.now) memo.old memo.new }
{
    for m in all_legal(guide.rays, position) {
        if loses(guide, &after(position, m), n - 1, memo)? {
            return Ok(Some(m));
        }
    }
    Ok(None)
}

/// The longest defence: the first reply after which the attacker does not mate within `j` moves.
fn longest_defence<H: Halt>(
    guide: &Guide<H>,
    position: &Position,
    j: u8,
    memo: &mut Memo,
) -> Result<Option<Move>, Stopped>
    ensures reply { IfOk result (λ found. found ≡ longest_defence position.now j) }
    ensures legal { IfOk result (λ found. IfSome found (λ r. is_legal position.now r ≡ true)) }
    ensures ends { EndsSearch result (H.may_stop guide.now.halt.now) memo.old memo.new }
{
    for r in all_legal(guide.rays, position) {
        if !wins(guide, &after(position, r), j, memo)? {
            return Ok(Some(r));
        }
    }
    Ok(None)
}

/// Appends the principal variation to a mate within `n` moves that begins with this key, the first of whatever moves there are to begin with.
#[cycle(variation)]
pub(crate) fn push_variation<H: Halt>(
    guide: &Guide<H>,
    position: &Position,
    key: Move,
    n: u8,
    memo: &mut Memo,
    out: &mut Variation,
) -> Result<(), Stopped>
    requires some { 0 < n }
    requires room { array_vec_len out.old + 2 * n ≤ 30 }
    requires legal { is_legal position.now key ≡ true }
    ensures variation { IfOk result (λ _. (first : List Move) → Some key ≡ least_key first position.now n → out.new.items ≡ out.old.items ++ variation first position.now n) }
    ensures ends { EndsSearch result (H.may_stop guide.now.halt.now) memo.old memo.new }
{
    out.push(key);
    if n > 1 {
        let q = after(position, key);
        if let Some(r) = longest_defence(guide, &q, n - 2, memo)? {
            out.push(r);
            push_next(guide, &after(&q, r), n - 1, memo, out)?;
        }
    }
    Ok(())
}

/// The same, where the first move is any legal one.
#[cycle(variation)]
fn push_next<H: Halt>(
    guide: &Guide<H>,
    position: &Position,
    n: u8,
    memo: &mut Memo,
    out: &mut Variation,
) -> Result<(), Stopped>
    requires some { 0 < n }
    requires room { array_vec_len out.old + 2 * n ≤ 30 }
    ensures variation { IfOk result (λ _. out.new.items ≡ out.old.items ++ variation (legal_moves position.now) position.now n) }
    ensures ends { EndsSearch result (H.may_stop guide.now.halt.now) memo.old memo.new }
{
    match least_of_all(guide, position, n, memo)? {
        Some(m) => push_variation(guide, position, m, n, memo, out),
        None => Ok(()),
    }
}
