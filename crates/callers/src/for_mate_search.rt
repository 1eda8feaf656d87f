//! Callers of `mate_search`.

ghost use Rattle.std.specs.Prelude.{◌≡◌, IfOk, IfSome, string_bytes};
ghost use Rattle.chess_notation.specs.Answers.{answer_text as answer_text_of};
ghost use Rattle.chess_notation.specs.Records.{problem_of};
ghost use Rattle.mate_search.specs.inside.Truth.{truth};

use chess_moves::Rays;
use chess_notation::{NoMemory, Record, answer_text};
use mate_search::{Halt, Memo, solve, solve_until};
use std::alloc::Global;

/// The line that answers a record.
pub fn answer(
    alloc: Global,
    rays: &Rays,
    memo: &mut Memo,
    asked: &Record,
) -> Result<String, NoMemory>
    ensures { IfOk result (λ text. string_bytes text ≡ answer_text_of asked.now (truth (problem_of asked.now))) }
{
    let outcome = solve(rays, &asked.problem(), memo);
    answer_text(alloc, rays, asked, &outcome)
}

/// The line that answers a record, where it is found before the search is to stop.
pub fn answer_in_time<H: Halt>(
    alloc: Global,
    rays: &Rays,
    memo: &mut Memo,
    asked: &Record,
    halt: &H,
) -> Result<Option<String>, NoMemory>
    ensures { IfOk result (λ found. IfSome found (λ text. string_bytes text ≡ answer_text_of asked.now (truth (problem_of asked.now)))) }
{
    match solve_until(rays, &asked.problem(), memo, halt) {
        Ok(outcome) => Ok(Some(answer_text(alloc, rays, asked, &outcome)?)),
        Err(_) => Ok(None),
    }
}
