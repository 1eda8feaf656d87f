//! Callers of `mate_desk`.

ghost use Rattle.std.specs.Prelude.{◌≡◌, IfOk, IfErr};
ghost use Rattle.mate_jobs.specs.Jobs.{answer_to};
ghost use Rattle.mate_desk.specs.declared.refusals.DeskFault.TheVariants.{NoMemory};

use chess_moves::Rays;
use chess_notation::Record;
use mate_desk::{Delivery, Desk, DeskFault};
use mate_jobs::Answer;
use mate_search::Memo;
use std::alloc::Global;

/// Has one record answered at a desk of its own. It fails for want of memory alone.
pub fn at_a_desk(
    alloc: Global,
    rays: &Rays,
    memo: &mut Memo,
    asked: Record,
) -> Result<Answer, DeskFault>
    ensures answered { IfOk result (λ answer. answer ≡ answer_to asked) }
    ensures no_memory { IfErr result (λ fault. fault ≡ NoMemory) }
{
    let mut desk = Desk::new(alloc, 1, 1, 0)?;
    if desk.submit(0, asked).is_err() {
        unreachable!()
    }
    let Some(job) = desk.take() else {
        unreachable!()
    };
    if desk.finish(job.solve(rays, memo)).is_err() {
        unreachable!()
    }
    match desk.collect(0) {
        Ok(Some(Delivery::Answer(answer))) => Ok(answer),
        _ => unreachable!(),
    }
}
