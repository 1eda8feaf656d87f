//! A caller of `mate_jobs`.

ghost use Rattle.std.specs.Prelude.{◌≡◌};
ghost use Rattle.mate_jobs.specs.Jobs.{answer_to as right_answer};

use chess_moves::Rays;
use chess_notation::Record;
use mate_jobs::{Answer, Job, Ticket};
use mate_search::Memo;

/// The answer to a record, which is right by its type.
pub fn answer_to(asked: Record, rays: &Rays, memo: &mut Memo) -> Answer
    ensures { result ≡ right_answer asked }
{
    let job = Job::new(Ticket(0), asked.problem());
    job.solve(rays, memo).into_answer(asked)
}
