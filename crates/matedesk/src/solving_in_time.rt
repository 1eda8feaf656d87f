//! The command `solve --limit`, and the same with `--json`.

ghost use Rattle.std.specs.Prelude.{◌≡◌, IfOk, map};

use crate::in_time::{TimedCommand, TimedSource};
use crate::solving_on::thread_memory;
use crate::tick_limit::TickLimit;
use byte_streams::Stop;
use chess_moves::Rays;
use chess_problems::{Outcome, Problem};
use command_words::SolveAsked;
use file_answers::{Source, SourceFiles};
use file_solving::{ToldLength, solve_limited};
use json_commands::solve_json_limited;
use mate_answers::{Limited, LimitedMemory};
use mate_search::{Guide, Solver, Stopped};
use parallel_search::{ThreadMemory, solve_on_threads};
use std::alloc::Global;
use std::io::Write;
use std::thread::Threads;

/// Workers solve, unless a limit stops them.
#[derive(Clone, Copy)]
pub(crate) struct SolverInTime<'a, R> {
    pub(crate) rt: &'a R,
}

impl<R: Threads + Sync> Solver<TickLimit> for SolverInTime<'_, R> {
    ghost use Rattle.std.specs.Thread.{IsSync};

    type Memory = ThreadMemory;

    ghost ready = { λ _. IsSync R.row };

    ghost room = { λ memory. memory.memo.room };

    fn solve(
        &self,
        guide: &Guide<TickLimit>,
        problem: &Problem,
        memory: &mut ThreadMemory,
    ) -> Result<Outcome, Stopped> {
        solve_on_threads(self.rt, guide, problem, memory)
    }
}

/// What there is before the first record: memos for so many workers.
fn empty_memory(alloc: Global, asked: &SolveAsked) -> Result<LimitedMemory<ThreadMemory>, Stop>
    ensures { IfOk result (λ memory. memory.undecided ≡ 0) }
{
    let memory = thread_memory(alloc, asked.workers, asked.memo)?;
    Ok(LimitedMemory {
        memory,
        undecided: 0,
    })
}

/// `solve --limit`.
#[derive(Clone, Copy)]
pub(crate) struct SolveInTime<'a, 'm, R> {
    pub(crate) rt: &'a R,
    pub(crate) seconds: u32,
    pub(crate) asked: &'a SolveAsked<'m, 'm>,
}

/// `solve --json --limit`.
#[derive(Clone, Copy)]
pub(crate) struct SolveJsonInTime<'a, 'm, R> {
    pub(crate) rt: &'a R,
    pub(crate) seconds: u32,
    pub(crate) asked: &'a SolveAsked<'m, 'm>,
}

impl<R: Threads + Sync> TimedCommand for SolveInTime<'_, '_, R> {
    ghost use Rattle.std.specs.Prelude.{refl};
    ghost use Rattle.std.specs.Thread.{IsSync};
    ghost use Rattle.command_words.specs.Asked.{limited as asked_so};

    type Memory = LimitedMemory<ThreadMemory>;

    ghost ready = { λ _. IsSync R.row };

    ghost asks = { λ command. asked_so command.seconds command.asked.now.bound command.asked.now.memo command.asked.now.files.from
        (map (λ s. s.now) command.asked.now.files.names.now) };

    ghost undecided = { λ memory. memory.undecided };

    ghost starts = { λ _. refl };

    fn seconds(&self) -> u32 {
        self.seconds
    }

    fn memory(&self, alloc: Global) -> Result<LimitedMemory<ThreadMemory>, Stop> {
        empty_memory(alloc, self.asked)
    }

    fn answer<S: Source, O: Write, E: Write>(
        &self,
        alloc: Global,
        timed: &TimedSource<S>,
        memory: &mut LimitedMemory<ThreadMemory>,
        out: &mut O,
        err: &mut E,
    ) -> Result<bool, Stop> {
        let asked = self.asked;
        let source = timed.source;
        let rays = Rays::new();
        let limited = Limited {
            rays: &rays,
            default: asked.bound,
            seconds: self.seconds,
            limit: timed.limit,
            solver: ToldLength {
                solver: SolverInTime { rt: self.rt },
                progress: source,
            },
        };
        let files = SourceFiles {
            names: asked.files.names,
            from: asked.files.from,
            source,
        };
        solve_limited(alloc, &limited, &files, memory, out, err)
    }

    fn count(&self, memory: &LimitedMemory<ThreadMemory>) -> usize {
        memory.undecided
    }
}

impl<R: Threads + Sync> TimedCommand for SolveJsonInTime<'_, '_, R> {
    ghost use Rattle.std.specs.Prelude.{refl};
    ghost use Rattle.std.specs.Thread.{IsSync};
    ghost use Rattle.command_words.specs.Asked.{limited_json as asked_so};

    type Memory = LimitedMemory<ThreadMemory>;

    ghost ready = { λ _. IsSync R.row };

    ghost asks = { λ command. asked_so command.seconds command.asked.now.bound command.asked.now.memo command.asked.now.files.from
        (map (λ s. s.now) command.asked.now.files.names.now) };

    ghost undecided = { λ memory. memory.undecided };

    ghost starts = { λ _. refl };

    fn seconds(&self) -> u32 {
        self.seconds
    }

    fn memory(&self, alloc: Global) -> Result<LimitedMemory<ThreadMemory>, Stop> {
        empty_memory(alloc, self.asked)
    }

    fn answer<S: Source, O: Write, E: Write>(
        &self,
        alloc: Global,
        timed: &TimedSource<S>,
        memory: &mut LimitedMemory<ThreadMemory>,
        out: &mut O,
        err: &mut E,
    ) -> Result<bool, Stop> {
        let asked = self.asked;
        let source = timed.source;
        let rays = Rays::new();
        let limited = Limited {
            rays: &rays,
            default: asked.bound,
            seconds: self.seconds,
            limit: timed.limit,
            solver: ToldLength {
                solver: SolverInTime { rt: self.rt },
                progress: source,
            },
        };
        let files = SourceFiles {
            names: asked.files.names,
            from: asked.files.from,
            source,
        };
        solve_json_limited(alloc, &limited, &files, memory, out, err)
    }

    fn count(&self, memory: &LimitedMemory<ThreadMemory>) -> usize {
        memory.undecided
    }
}
