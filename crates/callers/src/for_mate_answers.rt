//! A caller of `mate_answers`.

ghost use Rattle.std.specs.Prelude.{◌≡◌, ◌==◌, ℕ, List, IfOk};
ghost use Rattle.mate_answers.specs.InputReplies.{IsReply};

use chess_moves::Rays;
use chess_notation::NoMemory;
use chess_problems::Bound;
use mate_answers::solve_input;
use mate_search::Memo;
use std::alloc::Global;

/// Whether each line of an input says a record or is blank; solves them all.
pub fn is_all_answered(
    alloc: Global,
    rays: &Rays,
    memo: &mut Memo,
    input: &[u8],
    default: Bound,
) -> Result<bool, NoMemory>
    ensures { IfOk result (λ all. (text : List ℕ) × (refused : ℕ) × IsReply default input.now text refused × (all ≡ (refused == 0))) }
{
    let output = solve_input(alloc, rays, input, default, memo)?;
    Ok(output.refused == 0)
}
