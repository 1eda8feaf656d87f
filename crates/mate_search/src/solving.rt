//! Problems solved.

ghost use Rattle.std.specs.Prelude.{◌≡◌, ◌≤◌, ℕ, true, false, All, IfErr, IfOk, None, Some, []};
ghost use Rattle.chess_board.specs.Legality.{is_legal};
ghost use Rattle.chess_board.specs.Positions.{Setup};
ghost use Rattle.mate_search.specs.inside.Halting.{EndsSearch};
ghost use Rattle.mate_search.specs.inside.Findings.{outcome_of, IsBlank};
ghost use Rattle.mate_search.specs.inside.Truth.{dist, first_moves as moves_to_begin, truth, truth_among};
ghost use Rattle.chess_moves.specs.inside.Listing.{legal_moves};
ghost use Rattle.mate_search.specs.RootResults.{AreTrueIn};
ghost use Rattle.mate_search.specs.Wins.{win};
ghost use Rattle.mate_search.specs.inside.MemoEntries.{IsTrueOf};
ghost use Rattle.chess_problems.specs.Outcomes.{IsPlayable};

use crate::findings::Finding;
use crate::halting::{Guide, Halt, Never, Stopped};
use crate::memo::Memo;
use crate::memo_entries::Entry;
use crate::principal_variation::{push_keys, push_variation};
use crate::root_results::{Root, RootResult};
use chess_board::{Move, Position};
use chess_moves::{MoveList, Rays, legal_listed, legal_moves, push_mating_moves};
use chess_problems::{Bound, Outcome, Problem, is_among};

/// What there is to say of a problem: the least number of the attacker's moves within which it mates with none of the moves to avoid
/// for its first, all keys in the order of moves, and one line of play; or that there is no mate within the bound. It never fails.
pub fn solve(rays: &Rays, problem: &Problem, memo: &mut Memo) -> Outcome
    ensures truth { result ≡ truth problem.now }
    ensures playable { IsPlayable problem.now.position result }
    ensures room { memo.new.room ≡ memo.old.room }
    ensures within { memo.new.kept ≤ memo.new.room }
{
    // What can be played rests on this law.
    legal_listed();
    let mut found = Finding::new();
    let guide = Guide { rays, halt: &Never };
    match find(&guide, problem, &[], memo, &mut found) {
        Ok(dm) => found.into_outcome(dm),
        Err(_) => unreachable!(),
    }
}

/// The same, unless it is told to stop, about which it asks once for each position that it searches for more than a mate in one. What a
/// memo keeps of a search that was stopped is as true as what it keeps of any.
#[tactic(auto, using(crate::proofs::Told::none_told))]
pub fn solve_until<H: Halt>(
    rays: &Rays,
    problem: &Problem,
    memo: &mut Memo,
    halt: &H,
) -> Result<Outcome, Stopped>
    ensures truth { IfOk result (λ outcome. outcome ≡ truth problem.now) }
    ensures playable { IfOk result (λ outcome. IsPlayable problem.now.position outcome) }
    ensures stopped { IfErr result (λ _. H.may_stop halt.now) }
    ensures room { memo.new.room ≡ memo.old.room }
    ensures within { memo.new.kept ≤ memo.new.room }
{
    solve_told(&Guide { rays, halt }, problem, &[], memo)
}

/// The same, where some first moves have been judged before: each result is true in the problem's position.
pub fn solve_told<H: Halt>(
    guide: &Guide<H>,
    problem: &Problem,
    told: &[RootResult],
    memo: &mut Memo,
) -> Result<Outcome, Stopped>
    requires told { AreTrueIn problem.now.position told.now }
    ensures truth { IfOk result (λ outcome. outcome ≡ truth problem.now) }
    ensures playable { IfOk result (λ outcome. IsPlayable problem.now.position outcome) }
    ensures stopped { IfErr result (λ _. H.may_stop guide.now.halt.now) }
    ensures room { memo.new.room ≡ memo.old.room }
    ensures within { memo.new.kept ≤ memo.new.room }
{
    // What can be played rests on this law.
    legal_listed();
    let mut found = Finding::new();
    let dm = find(guide, problem, told, memo, &mut found)?;
    Ok(found.into_outcome(dm))
}

/// The least number of moves with what is found of it.
#[tactic(auto, using(crate::proofs::AtOnce::none_in_none))]
fn find<H: Halt>(
    guide: &Guide<H>,
    problem: &Problem,
    told: &[RootResult],
    memo: &mut Memo,
    found: &mut Finding,
) -> Result<Option<Bound>, Stopped>
    requires told { AreTrueIn problem.now.position told.now }
    requires blank { IsBlank found.old }
    ensures truth { IfOk result (λ dm. outcome_of dm found.new ≡ truth problem.now) }
    ensures ends { EndsSearch result (H.may_stop guide.now.halt.now) memo.old memo.new }
    ensures within { memo.new.kept ≤ memo.new.room }
{
    memo.ask_again();
    let dm = if problem.avoid.is_empty() {
        find_of_all(guide, problem, told, memo, found)
    } else {
        find_beyond(guide, problem, 0, told, memo, found)
    };
    // That a memo keeps no more than it has room for is this call's clause.
    let _kept = memo.len();
    dm
}

/// The same where nothing is to be avoided: then the memo may know of the position itself, and keeps what was found of it. The mates in one
/// are found without a list of all moves.
fn find_of_all<H: Halt>(
    guide: &Guide<H>,
    problem: &Problem,
    told: &[RootResult],
    memo: &mut Memo,
    found: &mut Finding,
) -> Result<Option<Bound>, Stopped>
    requires all { moves_to_begin problem.now ≡ legal_moves problem.now.position }
    requires told { AreTrueIn problem.now.position told.now }
    requires blank { IsBlank found.old }
    ensures truth { IfOk result (λ dm. outcome_of dm found.new ≡ truth problem.now) }
    ensures ends { EndsSearch result (H.may_stop guide.now.halt.now) memo.old memo.new }
{
    let known = memo.entry(&problem.position);
    if known.none_within == 0 && mates_at_once(guide.rays, &problem.position, found) {
        memo.keep(&problem.position, known.with(1, true));
        // That every bound is one at least is a clause of this call.
        problem.bound.get();
        return Ok(Bound::new(1));
    }
    let dm = find_beyond(guide, problem, known.none_within.max(1), told, memo, found)?;
    memo.keep(&problem.position, learned(known, &dm, problem.bound));
    Ok(dm)
}

/// Whether a move mates at once: then all that do are the keys, and the first of them is the line.
fn mates_at_once(rays: &Rays, position: &Position, found: &mut Finding) -> bool
    requires blank { IsBlank found.old }
    ensures found { result ≡ win 1 position.now }
    ensures truth { result ≡ true → (b : ℕ) → 1 ≤ b → outcome_of (Some 1) found.new ≡ truth_among (legal_moves position.now) position.now b }
    ensures blank { result ≡ false → IsBlank found.new }
{
    let Finding { keys, pv } = found;
    push_mating_moves(rays, position, keys);
    match keys.as_slice() {
        [first, ..] => {
            pv.push(*first);
            true
        }
        [] => false,
    }
}

/// The least number of moves, with what is found of it, where none of the first moves mates within so many: looks for keys of a mate in one
/// move more, two, and so on up to the bound. The list of first moves takes room only where this is called.
#[inline(never)]
fn find_beyond<H: Halt>(
    guide: &Guide<H>,
    problem: &Problem,
    none: u8,
    told: &[RootResult],
    memo: &mut Memo,
    found: &mut Finding,
) -> Result<Option<Bound>, Stopped>
    requires none { dist (moves_to_begin problem.now) problem.now.position none ≡ None }
    requires told { AreTrueIn problem.now.position told.now }
    requires blank { IsBlank found.old }
    ensures least { IfOk result (λ dm. dm ≡ dist (moves_to_begin problem.now) problem.now.position problem.now.bound) }
    ensures truth { IfOk result (λ dm. outcome_of dm found.new ≡ truth problem.now) }
    ensures ends { EndsSearch result (H.may_stop guide.now.halt.now) memo.old memo.new }
{
    let mut first = MoveList::new();
    push_first_moves(guide.rays, problem, &mut first);
    let root = Root {
        position: &problem.position,
        first: first.as_slice(),
        told,
    };
    let Finding { keys, pv } = found;
    for k in none..problem.bound.get() {
        push_keys(guide, &root, k + 1, memo, keys)?;
        if let [key, ..] = keys.as_slice() {
            push_variation(guide, root.position, *key, k + 1, memo, pv)?;
            return Ok(Bound::new(k + 1));
        }
    }
    Ok(None)
}

/// Lists the moves that the attacker may begin with where there is room for them: a list that is handed back is copied.
fn push_first_moves(rays: &Rays, problem: &Problem, out: &mut MoveList)
    requires { out.old.items ≡ [] }
    ensures { out.new.items ≡ moves_to_begin problem.now }
{
    for m in legal_moves(rays, &problem.position) {
        if !is_among(m, problem.avoid.as_slice()) {
            out.push(m);
        }
    }
}

/// The moves that the attacker may begin with: the legal ones that are not to be avoided.
pub fn first_moves(rays: &Rays, problem: &Problem) -> MoveList
    ensures moves { result.items ≡ moves_to_begin problem.now }
    ensures legal { All (λ m. is_legal problem.now.position m ≡ true) result.items }
{
    let mut first = MoveList::new();
    push_first_moves(rays, problem, &mut first);
    first
}

/// What is known of a position once its problem is solved.
fn learned(known: Entry, dm: &Option<Bound>, bound: Bound) -> Entry
    ensures { (p : Setup) → IsTrueOf p known → dm.now ≡ dist (legal_moves p) p bound → IsTrueOf p result }
{
    match dm {
        Some(dm) => known.with(dm.get() - 1, false).with(dm.get(), true),
        None => known.with(bound.get(), false),
    }
}
