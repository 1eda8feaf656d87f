//! The command `verify --limit`, and the same with `--json`.

ghost use Rattle.std.specs.Prelude.{◌≡◌, map};

use crate::in_time::{TimedCommand, TimedSource};
use crate::solving_in_time::SolverInTime;
use crate::solving_on::thread_memory;
use byte_streams::Stop;
use chess_moves::Rays;
use command_words::VerifyAsked;
use file_answers::{Source, SourceFiles};
use file_solving::new_memo;
use file_verifying::{Rows, verify_limited};
use json_commands::verify_json_limited;
use mate_answers::Limited;
use mate_claims::{Counts, Hints, LimitedClaimMemory};
use mate_search::{Memo, OneThread};
use parallel_search::ThreadMemory;
use std::alloc::Global;
use std::io::Write;
use std::thread::Threads;

/// `verify --limit`: so many workers solve each record.
#[derive(Clone, Copy)]
pub(crate) struct VerifyInTime<'a, 'm, R> {
    pub(crate) rt: &'a R,
    pub(crate) seconds: u32,
    pub(crate) asked: &'a VerifyAsked<'m, 'm>,
}

impl<R: Threads + Sync> TimedCommand for VerifyInTime<'_, '_, R> {
    ghost use Rattle.std.specs.Prelude.{refl};
    ghost use Rattle.std.specs.Thread.{IsSync};
    ghost use Rattle.command_words.specs.Asked.{verify_limited as asked_so};

    type Memory = LimitedClaimMemory<ThreadMemory>;

    ghost ready = { λ _. IsSync R.row };

    ghost asks = { λ command. asked_so command.seconds command.asked.now.bound command.asked.now.memo command.asked.now.header
        command.asked.now.files.from (map (λ s. s.now) command.asked.now.files.names.now) };

    ghost undecided = { λ memory. memory.counts.undecided };

    ghost starts = { λ _. refl };

    fn seconds(&self) -> u32 {
        self.seconds
    }

    fn memory(&self, alloc: Global) -> Result<LimitedClaimMemory<ThreadMemory>, Stop> {
        let memory = thread_memory(alloc, self.asked.workers, self.asked.memo)?;
        Ok(LimitedClaimMemory {
            memory,
            counts: Counts::new(),
            hints: Hints::new(),
        })
    }

    fn answer<S: Source, O: Write, E: Write>(
        &self,
        alloc: Global,
        timed: &TimedSource<S>,
        memory: &mut LimitedClaimMemory<ThreadMemory>,
        out: &mut O,
        err: &mut E,
    ) -> Result<bool, Stop> {
        let asked = self.asked;
        let source = timed.source;
        let rays = Rays::new();
        let limited = Limited {
            rays: &rays,
            default: asked.bound,
            seconds: self.seconds,
            limit: timed.limit,
            solver: SolverInTime { rt: self.rt },
        };
        let rows = Rows {
            by: &limited,
            header: asked.header,
        };
        let files = SourceFiles {
            names: asked.files.names,
            from: asked.files.from,
            source,
        };
        verify_limited(alloc, &rows, &files, memory, out, err)
    }

    fn count(&self, memory: &LimitedClaimMemory<ThreadMemory>) -> usize {
        memory.counts.undecided
    }
}

/// `verify --json --limit`.
#[derive(Clone, Copy)]
pub(crate) struct VerifyJsonInTime<'a, 'm> {
    pub(crate) seconds: u32,
    pub(crate) asked: &'a VerifyAsked<'m, 'm>,
}

impl TimedCommand for VerifyJsonInTime<'_, '_> {
    ghost use Rattle.std.specs.Prelude.{refl};
    ghost use Rattle.command_words.specs.Asked.{verify_limited_json as asked_so};

    type Memory = LimitedClaimMemory<Memo>;

    ghost asks = { λ command. asked_so command.seconds command.asked.now.bound command.asked.now.memo command.asked.now.files.from
        (map (λ s. s.now) command.asked.now.files.names.now) };

    ghost undecided = { λ memory. memory.counts.undecided };

    ghost starts = { λ _. refl };

    fn seconds(&self) -> u32 {
        self.seconds
    }

    fn memory(&self, alloc: Global) -> Result<LimitedClaimMemory<Memo>, Stop> {
        let memory = new_memo(alloc, self.asked.memo.get() as usize)?;
        Ok(LimitedClaimMemory {
            memory,
            counts: Counts::new(),
            hints: Hints::new(),
        })
    }

    fn answer<S: Source, O: Write, E: Write>(
        &self,
        alloc: Global,
        timed: &TimedSource<S>,
        memory: &mut LimitedClaimMemory<Memo>,
        out: &mut O,
        err: &mut E,
    ) -> Result<bool, Stop> {
        let asked = self.asked;
        let source = timed.source;
        let rays = Rays::new();
        let limited = Limited {
            rays: &rays,
            default: asked.bound,
            seconds: self.seconds,
            limit: timed.limit,
            solver: OneThread,
        };
        let files = SourceFiles {
            names: asked.files.names,
            from: asked.files.from,
            source,
        };
        verify_json_limited(alloc, &limited, &files, memory, out, err)
    }

    fn count(&self, memory: &LimitedClaimMemory<Memo>) -> usize {
        memory.counts.undecided
    }
}
