//! The command `solve --workers`, and the same with `--json`.

ghost use Rattle.std.specs.Prelude.{◌≡◌, IfErr, IfOk, Some, map};
ghost use Rattle.command_words.specs.Asked.{solve_json_on as solve_json_on_asked, solve_on as solve_on_asked};
ghost use Rattle.plain_commands.specs.Command.{Ends};

use byte_streams::Stop;
use chess_moves::Rays;
use command_words::{MemoSize, SolveAsked, Workers};
use file_answers::{Source, SourceFiles, no_memory, status_of};
use file_solving::{Lengthwise, new_memo, solve_by, solves_none};
use json_commands::solve_json_by;
use mate_answers::Answers;
use parallel_search::{OnThreads, ThreadMemory};
use plain_commands::ends_by_status;
use std::alloc::Global;
use std::io::Write;
use std::thread::Threads;

/// A memo of such a size, and so many workers with memos of the same size. One worker is the calling thread, over the first memo.
pub(crate) fn thread_memory(
    alloc: Global,
    workers: Workers,
    size: MemoSize,
) -> Result<ThreadMemory, Stop>
    ensures room { IfOk result (λ memory. memory.memo.room ≡ size) }
    ensures err { IfErr result (λ stop. stop ≡ Stop.NoMemory) }
{
    let entries = size.get() as usize;
    let memo = new_memo(alloc, entries)?;
    let others = match workers.get() {
        1 => 0,
        count => count as usize,
    };
    Ok(ThreadMemory::new(alloc, memo, others, entries))
}

/// Answers each line of each file as `solve` does, each record by so many workers, over a memo of such a size each.
pub fn solve_on<R: Threads + Sync, S: Source, O: Write, E: Write>(
    rt: &R,
    alloc: Global,
    asked: &SolveAsked,
    source: &S,
    out: &mut O,
    err: &mut E,
) -> u8
    ensures { Ends (S.holds source.now) (S.refuses source.now)
        (Some (solve_on_asked asked.now.workers asked.now.bound asked.now.memo asked.now.files.from
        (map (λ s. s.now) asked.now.files.names.now))) result
        (O.contents out.old) (O.contents out.new) }
{
    // How it ends with the status of what was written, and with nothing written.
    ends_by_status(source);
    solves_none();
    let Ok(mut memory) = thread_memory(alloc, asked.workers, asked.memo) else {
        return no_memory(err);
    };
    let rays = Rays::new();
    let answers = Answers {
        rays: &rays,
        default: asked.bound,
        solver: Lengthwise {
            solver: OnThreads { rt },
            progress: source,
        },
    };
    let files = SourceFiles {
        names: asked.files.names,
        from: asked.files.from,
        source,
    };
    let ended = solve_by(alloc, &answers, &files, &mut memory, out, err);
    status_of(ended, err)
}

/// Answers each line of each file as `solve --json` does, each record by so many workers, over a memo of such a size each.
pub fn solve_json_on<R: Threads + Sync, S: Source, O: Write, E: Write>(
    rt: &R,
    alloc: Global,
    asked: &SolveAsked,
    source: &S,
    out: &mut O,
    err: &mut E,
) -> u8
    ensures { Ends (S.holds source.now) (S.refuses source.now)
        (Some (solve_json_on_asked asked.now.workers asked.now.bound asked.now.memo asked.now.files.from
        (map (λ s. s.now) asked.now.files.names.now))) result
        (O.contents out.old) (O.contents out.new) }
{
    // How it ends with the status of what was written, and with nothing written.
    ends_by_status(source);
    let Ok(mut memory) = thread_memory(alloc, asked.workers, asked.memo) else {
        return no_memory(err);
    };
    let rays = Rays::new();
    let answers = Answers {
        rays: &rays,
        default: asked.bound,
        solver: Lengthwise {
            solver: OnThreads { rt },
            progress: source,
        },
    };
    let files = SourceFiles {
        names: asked.files.names,
        from: asked.files.from,
        source,
    };
    let ended = solve_json_by(alloc, &answers, &files, &mut memory, out, err);
    status_of(ended, err)
}
