//! Results on first moves, which may have been found before.

ghost use Rattle.std.specs.Prelude.{◌≡◌, true, IfErr, IfOk, IfSome, is_some};
ghost use Rattle.std.specs.List.{list_any};
ghost use Rattle.chess_board.specs.Legality.{is_legal};
ghost use Rattle.chess_board.specs.Positions.{Setup};
ghost use Rattle.mate_search.specs.inside.Halting.{EndsSearch};
ghost use Rattle.mate_search.specs.RootResults.{AreTrueIn, is_on};
ghost use Rattle.mate_search.specs.Wins.{leaves_lost as move_leaves_lost};

use crate::halting::{Guide, Halt, Stopped};
use crate::memo::Memo;
use crate::searching::loses;
use chess_board::{Move, Position, after};
use chess_problems::{is_same_move, same_move_reads};

/// Whether a move of the attacker leaves the defender lost with `k` moves more.
#[derive(Clone, Copy, Debug, Default, PartialEq, Eq)]
pub struct RootResult {
    pub m: Move,
    pub k: u8,
    pub is_lost: bool,
}

/// What these results tell of a move with `k` more, if anything.
#[tactic(auto, using(crate::proofs::Told::result_told))]
pub fn result_on(results: &[RootResult], m: Move, k: u8) -> Option<bool>
    ensures found { (p : Setup) → AreTrueIn p results.now → IfSome result (λ is_lost. is_lost ≡ move_leaves_lost k p m) }
    ensures told { is_some result ≡ list_any (is_on m k) results.now }
{
    // That moves which are the same are equal is this law.
    same_move_reads();
    for v in results {
        if v.k == k && is_same_move(v.m, m) {
            return Some(v.is_lost);
        }
    }
    None
}

/// Whether a legal move of the attacker leaves the defender lost with `k` more, unless the search is told to stop.
pub fn leaves_lost<H: Halt>(
    guide: &Guide<H>,
    position: &Position,
    m: Move,
    k: u8,
    memo: &mut Memo,
) -> Result<bool, Stopped>
    requires legal { is_legal position.now m ≡ true }
    ensures found { IfOk result (λ found. found ≡ move_leaves_lost k position.now m) }
    ensures stopped { IfErr result (λ _. H.may_stop guide.now.halt.now) }
    ensures room { memo.new.room ≡ memo.old.room }
{
    memo.ask_again();
    loses(guide, &after(position, m), k, memo)
}

/// Where a search begins: a position, of its legal moves those that the attacker may begin with, and results on them.
#[derive(Clone, Copy)]
pub(crate) struct Root<'p, 'm, 't> {
    pub(crate) position: &'p Position,
    pub(crate) first: &'m [Move],
    pub(crate) told: &'t [RootResult],
}

/// Whether a first move leaves the defender lost with `k` more: by a result, or else it is judged here.
pub(crate) fn judge<H: Halt>(
    guide: &Guide<H>,
    root: &Root,
    m: Move,
    k: u8,
    memo: &mut Memo,
) -> Result<bool, Stopped>
    requires legal { is_legal root.now.position.now m ≡ true }
    requires told { AreTrueIn root.now.position.now root.now.told.now }
    ensures found { IfOk result (λ found. found ≡ move_leaves_lost k root.now.position.now m) }
    ensures unsearched { list_any (is_on m k) root.now.told.now ≡ true → memo.new ≡ memo.old }
    ensures ends { EndsSearch result (H.may_stop guide.now.halt.now) memo.old memo.new }
{
    match result_on(root.told, m, k) {
        Some(is_lost) => Ok(is_lost),
        None => loses(guide, &after(root.position, m), k, memo),
    }
}
