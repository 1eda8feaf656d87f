//! That the record which a line says is solved.

ghost use Rattle.std.specs.Prelude.{◌≡◌};
ghost use Rattle.record_tasks.specs.SolveTasks.{SaysRecord};

use byte_streams::NoMemory;
use chess_moves::Rays;
use chess_notation::{read_record, records_clear, says_one};
use chess_problems::Bound;
use mate_answers::Answers;
use mate_search::{Memo, OneThread};
use parallel_answers::{LineTask, NoWorkers, Prepared, Reply, Workers, prepare};
use std::alloc::Global;
use std::sync::Wait;
use std::thread;
use std::thread::Threads;
use std::time::Clock;
use text_lines::{LineHandler, Output, refusal};

/// Each record is solved; one that asks for no bound, within the default one.
#[derive(Drop)]
pub struct SolveTask {
    pub default: Bound,
}

/// A reply of which nothing else is counted.
pub(crate) fn uncounted(output: Output) -> Reply<()>
    ensures text { result.text ≡ output.text }
    ensures refused { result.refused ≡ output.refused }
{
    Reply {
        text: output.text,
        refused: output.refused,
        mark: None,
    }
}

impl SolveTask {
    /// What answers lines.
    fn answers<'a>(&self, rays: &'a Rays) -> Answers<'a, OneThread>
        ensures { result.default ≡ self.now.default }
    {
        Answers {
            rays,
            default: self.default,
            solver: OneThread,
        }
    }
}

impl LineTask for SolveTask {
    ghost use Rattle.mate_answers.specs.InputReplies.{IsLineReply, skipped};

    type Mark = ();

    type Tally = ();

    ghost replies = { λ task. IsLineReply task.default };

    ghost waits = { λ task. SaysRecord task.default };

    fn copy(&self, _alloc: Global) -> Result<SolveTask, NoMemory> {
        Ok(SolveTask {
            default: self.default,
        })
    }

    fn is(&self, other: &SolveTask) -> bool {
        self.default == other.default
    }

    fn look(
        &self,
        alloc: Global,
        rays: &Rays,
        number: usize,
        line: &[u8],
    ) -> Result<Option<Reply<()>>, NoMemory> {
        let fault = match read_record(alloc, rays, line, self.default) {
            Ok(_) => return Ok(None),
            Err(fault) => fault,
        };
        let output = refusal(alloc, number, fault)?;
        Ok(Some(uncounted(output)))
    }

    fn refuse_long(
        &self,
        alloc: Global,
        rays: &Rays,
        number: usize,
    ) -> Result<Reply<()>, NoMemory> {
        Ok(uncounted(self.answers(rays).refuse_long(alloc, number)?))
    }

    fn answer(
        &self,
        alloc: Global,
        rays: &Rays,
        number: usize,
        line: &[u8],
        memo: &mut Memo,
    ) -> Result<Reply<()>, NoMemory> {
        Ok(uncounted(self.answers(rays).answer(alloc, number, line, memo)?))
    }

    fn count(&self, _tally: &mut (), _mark: &()) -> Result<(), NoMemory> {
        Ok(())
    }

    ghost skips = { λ task number line blank. skipped blank };

    ghost unmarked = { λ _ _ _. tt };

    ghost passes = { λ _ _ _ _ _ _. tt };

    #[tactic(auto, using(crate::proofs::Solving::solved_joins))]
    fn joins(&self) {
        records_clear();
        says_one();
    }
}

/// Starts so many workers, 1 to 16, that solve records, each a thread with a memo of so many entries, 1 to 268,435,456.
pub fn start_solving<R: Threads + Wait + Clock + Clone + Drop + Send + 'static>(
    rt: &R,
    alloc: Global,
    count: usize,
    entries: usize,
) -> Result<Workers<SolveTask>, NoWorkers> {
    let Prepared {
        mut workers,
        waiting,
    } = prepare(alloc, count, entries)?;
    for worker in waiting {
        let own = rt.clone()?;
        match thread::spawn(rt, move || worker.run(&own, alloc)) {
            Ok(thread) => workers.add(thread)?,
            Err(_) => return Err(NoWorkers::NoThread),
        }
    }
    Ok(workers)
}
