//! The command `serve`.

ghost use Rattle.std.specs.Prelude.{◌≡◌, Some, map};
ghost use Rattle.command_words.specs.Asked.{serve as serve_asked};
ghost use Rattle.plain_commands.specs.Command.{Ends};

use byte_streams::{Input, Stop};
use chess_moves::Rays;
use command_words::ServeAsked;
use file_answers::{
    FileAnswers, FileStart, MISUSED, NO_THREAD, OpenFiles, Source, answer_opened, complain,
    no_memory, open_files, status_of,
};
use file_solving::solves_none;
use parallel_answers::{Answering, NoWorkers, Workers, answer_in_order};
use plain_commands::ends_by_status;
use record_tasks::{SolveTask, start_solving};
use std::alloc::Global;
use std::io::Write;
use std::sync::Wait;
use std::thread::Threads;
use std::time::Clock;
use text_lines::LinesFrom;

/// How many files may be served.
const MOST_FILES: usize = 16;

/// Answers files of records by workers.
#[derive(Clone, Copy)]
struct ServedRecords<'a, R: Wait> {
    rt: &'a R,
    rays: &'a Rays,
    task: &'a SolveTask,
}

impl<R: Wait> FileAnswers for ServedRecords<'_, R> {
    ghost use Rattle.file_answers.specs.FileAnswers.{unmarked};
    ghost use Rattle.file_solving.specs.Solved.{record_replies, first_record_replies};

    type Memory = Workers<SolveTask>;

    ghost replies = { λ records. record_replies records.task.now.default };

    ghost told = { λ records. unmarked (record_replies records.task.now.default) };

    ghost tells = { λ _ _ _ _ _ _ _ told. told };

    ghost first = { λ records. first_record_replies records.task.now.default };

    fn answer<S: Source, I: Input + Drop, O: Write>(
        &self,
        alloc: Global,
        start: &FileStart<S>,
        input: I,
        memory: &mut Workers<SolveTask>,
        out: &mut O,
    ) -> Result<usize, Stop> {
        let lines = LinesFrom {
            by: self.task,
            from: start.from,
            progress: start.source,
        };
        let answering = Answering {
            rt: self.rt,
            alloc,
            rays: self.rays,
            lines: &lines,
        };
        answer_in_order(&answering, memory, &mut (), input, out)
    }

    #[tactic(auto, using(file_solving::proofs::Unopened::no_record_reply))]
    fn begins_with_nothing(&self) {}
}

/// Says why there are no workers, and gives the status.
pub(crate) fn unserved<E: Write>(fault: NoWorkers, err: &mut E) -> u8
    ensures { result ≡ 3 }
{
    match fault {
        NoWorkers::NoMemory => no_memory(err),
        NoWorkers::NoThread => {
            complain(err, "NoThread");
            NO_THREAD
        }
    }
}

/// Answers each line of each file in order, as `solve` does, by so many workers, each a thread with a memo of such a size. All files are opened
/// before anything else. Each reply is written once it and all before it are there.
pub fn serve<
    R: Threads + Wait + Clock + Clone + Drop + Send + 'static,
    S: Source,
    O: Write,
    E: Write,
>(rt: &R, alloc: Global, asked: &ServeAsked, source: &S, out: &mut O, err: &mut E) -> u8
    ensures { Ends (S.holds source.now) (S.refuses source.now)
        (Some (serve_asked asked.now.workers asked.now.bound asked.now.memo (map (λ s. s.now) asked.now.names.now))) result
        (O.contents out.old) (O.contents out.new) }
{
    // How it ends with the status of what was written, and with nothing written.
    ends_by_status(source);
    solves_none();
    let files = match open_files(alloc, asked.names, source, err) {
        Ok(files) => files,
        Err(stop) => return status_of(Err(stop), err),
    };
    if asked.names.is_empty() || asked.names.len() > MOST_FILES {
        complain(err, "BadWindows");
        return MISUSED;
    }
    let count = asked.workers.get() as usize;
    let mut workers = match start_solving(rt, alloc, count, asked.memo.get() as usize) {
        Ok(workers) => workers,
        Err(fault) => return unserved(fault, err),
    };
    let rays = Rays::new();
    let records = ServedRecords {
        rt,
        rays: &rays,
        task: &SolveTask {
            default: asked.bound,
        },
    };
    let opened = OpenFiles {
        names: asked.names,
        files,
        source,
    };
    let ended = answer_opened(alloc, &records, opened, &mut workers, out, err);
    if ended.is_ok() {
        workers.end(rt);
    }
    status_of(ended, err)
}
