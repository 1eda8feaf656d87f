//! A caller of `parallel_search`.

ghost use Rattle.std.specs.Prelude.{◌≡◌, IfOk, string_bytes};
ghost use Rattle.chess_notation.specs.Answers.{answer_text as answer_text_of};
ghost use Rattle.chess_notation.specs.Records.{problem_of};
ghost use Rattle.mate_search.specs.inside.Truth.{truth};

use chess_moves::Rays;
use chess_notation::{NoMemory, Record, answer_text};
use mate_search::{Guide, Never, Solver};
use parallel_search::{OnThreads, ThreadMemory};
use std::alloc::Global;
use std::thread::Threads;

/// The line that answers a record, found by workers on threads of their own.
pub fn answer_by_workers<R: Threads + Sync>(
    rt: &R,
    alloc: Global,
    rays: &Rays,
    memory: &mut ThreadMemory,
    asked: &Record,
) -> Result<String, NoMemory>
    ensures { IfOk result (λ text. string_bytes text ≡ answer_text_of asked.now (truth (problem_of asked.now))) }
{
    let guide = Guide { rays, halt: &Never };
    let Ok(outcome) = OnThreads { rt }.solve(&guide, &asked.problem(), memory) else {
        unreachable!();
    };
    answer_text(alloc, rays, asked, &outcome)
}
