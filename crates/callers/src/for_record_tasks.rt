//! A caller of `record_tasks`.

ghost use Rattle.std.specs.Prelude.{◌≡◌, ◌≤◌, ℕ, IfOk, false, length};
ghost use Rattle.chess_notation.specs.Records.{max_line};
ghost use Rattle.chess_notation.specs.Words.{is_blank};
ghost use Rattle.mate_claims.specs.ClaimReplies.{IsClaimReply};
ghost use Rattle.record_tasks.specs.ClaimTasks.{AreAllCounted};
ghost use Rattle.text_lines.specs.Lines.{texts_of};

use byte_streams::{NoMemory, Stop};
use chess_moves::Rays;
use chess_problems::Bound;
use mate_claims::Counts;
use mate_search::Memo;
use parallel_answers::{Answering, LineTask, answer_in_order};
use record_tasks::{ClaimTally, ClaimTask, start_verifying};
use std::alloc::Global;
use std::io::Write;
use std::sync::Wait;
use std::thread::Threads;
use std::time::Clock;
use text_lines::LinesFrom;

/// The row of a line of such a number by `verify`, which no thread has to be started for.
pub fn row_by_task(
    alloc: Global,
    task: &ClaimTask,
    number: usize,
    line: &[u8],
    memo: &mut Memo,
) -> Result<Vec<u8>, NoMemory>
    requires filled { is_blank line.now ≡ false }
    requires short { length line.now ≤ max_line }
    ensures { IfOk result (λ row. (refusals : ℕ) × IsClaimReply task.now.prefix.items task.now.default number line.now row.items refusals) }
{
    let rays = Rays::new();
    let reply = task.answer(alloc, &rays, number, line, memo)?;
    Ok(reply.text)
}

/// How many lines of an input come to which verdict, each held against its claims by one of four workers, its row written.
pub fn counted_by_four<R: Threads + Wait + Clock + Clone + Drop + Send + 'static, O: Write>(
    rt: &R,
    alloc: Global,
    input: &[u8],
    default: Bound,
    out: &mut O,
) -> Result<Counts, Stop>
    ensures { IfOk result (λ counts. AreAllCounted default (texts_of input.now) counts) }
{
    let Ok(mut workers) = start_verifying(rt, alloc, 4, 16_384) else {
        return Err(Stop::NoMemory);
    };
    let rays = Rays::new();
    let task = ClaimTask {
        default,
        prefix: Vec::new(alloc),
    };
    let lines = LinesFrom {
        by: &task,
        from: 1,
        progress: &(),
    };
    let answering = Answering {
        rt,
        alloc,
        rays: &rays,
        lines: &lines,
    };
    let mut tally = ClaimTally::new();
    answer_in_order(&answering, &mut workers, &mut tally, input, out)?;
    workers.end(rt);
    Ok(tally.counts)
}
