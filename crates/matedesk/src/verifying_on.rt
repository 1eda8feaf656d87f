//! The command `verify --workers`.

ghost use Rattle.std.specs.Prelude.{◌≡◌, Some, map};
ghost use Rattle.command_words.specs.Asked.{verify_on as verify_on_asked};
ghost use Rattle.plain_commands.specs.Command.{Ends};

use crate::serving::unserved;
use byte_streams::{Input, Stop};
use chess_moves::Rays;
use chess_problems::Bound;
use command_words::VerifyAsked;
use file_answers::{Source, SourceFiles, status_of};
use file_verifying::{RowStart, Rows, Verifier, verify_by};
use mate_claims::{Counts, Hints};
use parallel_answers::{Answering, Workers, answer_in_order};
use plain_commands::ends_by_status;
use record_tasks::{ClaimTally, ClaimTask, start_verifying};
use std::alloc::Global;
use std::io::Write;
use std::sync::Wait;
use std::thread::Threads;
use std::time::Clock;
use text_lines::LinesFrom;

/// Workers that hold lines against their claims, and what is counted of the rows that were written.
#[derive(Drop)]
struct CountedRows {
    workers: Workers<ClaimTask>,
    tally: ClaimTally,
}

/// Workers hold the lines of files against their claims.
#[derive(Clone, Copy)]
struct VerifierOn<'a, R: Wait> {
    rt: &'a R,
    rays: &'a Rays,
    bound: Bound,
}

impl<R: Wait> Verifier for VerifierOn<'_, R> {
    type Memory = CountedRows;

    ghost default = { λ on. on.bound };

    fn verify_lines<S: Source, I: Input + Drop, O: Write>(
        &self,
        alloc: Global,
        start: &RowStart<S>,
        input: I,
        memory: &mut CountedRows,
        out: &mut O,
    ) -> Result<usize, Stop> {
        let task = ClaimTask {
            default: self.bound,
            prefix: Vec::from_slice(alloc, start.prefix)?,
        };
        let lines = LinesFrom {
            by: &task,
            from: start.from,
            progress: start.source,
        };
        let answering = Answering {
            rt: self.rt,
            alloc,
            rays: self.rays,
            lines: &lines,
        };
        let CountedRows { workers, tally } = memory;
        answer_in_order(&answering, workers, tally, input, out)
    }

    fn counts(&self, memory: &CountedRows) -> Counts {
        memory.tally.counts
    }

    fn hints(&self, memory: &CountedRows) -> Hints {
        memory.tally.hints
    }
}

/// Holds each record of each file against its claims as `verify` does, by so many workers, each a thread with a memo of such a size. Each row
/// is written once it and all before it are there.
pub fn verify_on<
    R: Threads + Wait + Clock + Clone + Drop + Send + 'static,
    S: Source,
    O: Write,
    E: Write,
>(rt: &R, alloc: Global, asked: &VerifyAsked, source: &S, out: &mut O, err: &mut E) -> u8
    ensures { Ends (S.holds source.now) (S.refuses source.now)
        (Some (verify_on_asked asked.now.workers asked.now.bound asked.now.memo asked.now.header asked.now.files.from
        (map (λ s. s.now) asked.now.files.names.now))) result
        (O.contents out.old) (O.contents out.new) }
{
    // How it ends with the status of what was written.
    ends_by_status(source);
    let count = asked.workers.get() as usize;
    let workers = match start_verifying(rt, alloc, count, asked.memo.get() as usize) {
        Ok(workers) => workers,
        Err(fault) => return unserved(fault, err),
    };
    let mut memory = CountedRows {
        workers,
        tally: ClaimTally::new(),
    };
    let rays = Rays::new();
    let verifier = VerifierOn {
        rt,
        rays: &rays,
        bound: asked.bound,
    };
    let rows = Rows {
        by: &verifier,
        header: asked.header,
    };
    let files = SourceFiles {
        names: asked.files.names,
        from: asked.files.from,
        source,
    };
    let ended = verify_by(alloc, &rows, &files, &mut memory, out, err);
    if ended.is_ok() {
        memory.workers.end(rt);
    }
    status_of(ended, err)
}
