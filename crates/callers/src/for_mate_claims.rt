//! A caller of `mate_claims`.

ghost use Rattle.std.specs.Prelude.{◌≡◌, ◌↔◌, ℕ, List, [], Option, IfOk, Some, true};
ghost use Rattle.mate_claims.specs.ClaimReplies.{IsTold};
ghost use Rattle.mate_claims.specs.declared.bound_sources.BoundSource.{BoundSource};
ghost use Rattle.mate_claims.specs.declared.claim_verdicts.ClaimVerdict.{ClaimVerdict as VerdictValue};

use chess_moves::Rays;
use chess_notation::NoMemory;
use chess_problems::Bound;
use mate_claims::{ClaimVerdict, told_of};
use mate_search::Memo;
use std::alloc::Global;

/// Whether a line is a record that keeps to what it claims of its keys.
pub fn is_sound(
    alloc: Global,
    rays: &Rays,
    memo: &mut Memo,
    line: &[u8],
    default: Bound,
) -> Result<bool, NoMemory>
    ensures { IfOk result (λ sound. (row : List ℕ) × (verdict : Option VerdictValue) × (source : Option BoundSource)
        × IsTold [] default line.now row verdict source
        × ((sound ≡ true) ↔ (verdict ≡ Some VerdictValue.Sound))) }
{
    let told = told_of(alloc, rays, b"", line, default, memo)?;
    Ok(matches!(told.verdict, Some(ClaimVerdict::Sound)))
}
