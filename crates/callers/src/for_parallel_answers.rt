//! A caller of `parallel_answers`.

ghost use Rattle.std.specs.Prelude.{◌≡◌, IfOk, ℕ, List, Some};
ghost use Rattle.std.specs.Io.KnownBytes.{Appends};
ghost use Rattle.mate_answers.specs.InputReplies.{IsReply};

use byte_streams::Stop;
use chess_moves::Rays;
use chess_problems::Bound;
use parallel_answers::{Answering, answer_in_order};
use record_tasks::{SolveTask, start_solving};
use std::alloc::Global;
use std::io::Write;
use std::sync::Wait;
use std::thread::Threads;
use std::time::Clock;
use text_lines::LinesFrom;

/// The replies to an input of records, each written once it and all before it are there, by four workers; how many lines are refused.
#[tactic(auto, unfolding(text_lines::specs::LinesFrom::IsReplyOn, text_lines::specs::Replies::IsReply))]
pub fn answer_by_four<R: Threads + Wait + Clock + Clone + Drop + Send + 'static, O: Write>(
    rt: &R,
    alloc: Global,
    input: &[u8],
    default: Bound,
    out: &mut O,
) -> Result<usize, Stop>
    ensures { IfOk result (λ refused. (text : List ℕ) × IsReply default input.now text refused
        × Appends (O.contents out.old) (O.contents out.new) text) }
{
    let Ok(mut workers) = start_solving(rt, alloc, 4, 16_384) else {
        return Err(Stop::NoMemory);
    };
    let rays = Rays::new();
    // From the first line on, of which nobody is told.
    let lines = LinesFrom {
        by: &SolveTask { default },
        from: 1,
        progress: &(),
    };
    let answering = Answering {
        rt,
        alloc,
        rays: &rays,
        lines: &lines,
    };
    let refused = answer_in_order(&answering, &mut workers, &mut (), input, out)?;
    workers.end(rt);
    Ok(refused)
}
