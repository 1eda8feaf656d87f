//! That the record which a line says is held against its own claims.

ghost use Rattle.std.specs.Prelude.{◌≡◌, Some};
ghost use Rattle.mate_claims.specs.ClaimReplies.{refusals_of};
ghost use Rattle.mate_claims.specs.Counts.{no_counts};

use byte_streams::NoMemory;
use chess_moves::Rays;
use chess_notation::{records_clear, says_one};
use chess_problems::Bound;
use mate_claims::{BoundSource, ClaimRows, ClaimVerdict, Counts, Hints, Told, refusals};
use mate_search::Memo;
use parallel_answers::{LineTask, NoWorkers, Prepared, Reply, Workers, prepare};
use std::alloc::Global;
use std::sync::Wait;
use std::thread;
use std::thread::Threads;
use std::time::Clock;
use text_lines::LineHandler;

/// Each record is held against its claims, with the default bound where it claims none; what stands before its number in a row.
#[derive(Drop)]
pub struct ClaimTask {
    pub default: Bound,
    pub prefix: Vec<u8>,
}

/// What is counted of a line: its verdict, if it isn't refused, and of a record where its bound comes from; and what is told beside.
#[derive(Clone, Copy, Debug, PartialEq, Eq)]
pub struct LineVerdict {
    pub verdict: Option<ClaimVerdict>,
    pub source: Option<BoundSource>,
    pub hints: Hints,
}

/// What is counted of all lines, and what is told beside.
#[derive(Clone, Copy, Debug, PartialEq, Eq)]
pub struct ClaimTally {
    pub counts: Counts,
    pub hints: Hints,
}

impl ClaimTally {
    /// Of no line.
    pub fn new() -> ClaimTally
        ensures { result.counts ≡ no_counts }
    {
        ClaimTally {
            counts: Counts::new(),
            hints: Hints::new(),
        }
    }
}

/// The reply that tells this of a line.
fn reply_of(told: Told) -> Reply<LineVerdict>
    ensures text { result.text ≡ told.row }
    ensures refused { result.refused ≡ refusals_of told.verdict }
    ensures mark { result.mark ≡ Some (record { verdict = told.verdict; source = told.source; hints = told.hints }) }
{
    Reply {
        text: told.row,
        refused: refusals(told.verdict),
        mark: Some(LineVerdict {
            verdict: told.verdict,
            source: told.source,
            hints: told.hints,
        }),
    }
}

impl ClaimTask {
    /// What tells the rows.
    fn rows<'a>(&'a self, rays: &'a Rays) -> ClaimRows<'a>
        ensures default { result.default ≡ self.now.default }
        ensures prefix { result.prefix.now ≡ self.now.prefix.items }
    {
        ClaimRows {
            rays,
            default: self.default,
            prefix: self.prefix.as_slice(),
        }
    }
}

impl LineTask for ClaimTask {
    ghost use Rattle.mate_claims.specs.BoundSources.{SaysClaimed};
    ghost use Rattle.mate_claims.specs.ClaimReplies.{IsClaimReply, skipped};
    ghost use Rattle.record_tasks.specs.ClaimTasks.{AreAllCounted, IsCountedAs, passed};
    ghost use Rattle.std.proofs.Math.Bool.{Bool-set};
    ghost use Rattle.std.proofs.Math.Logic.{∥∥₁_elim};

    type Mark = LineVerdict;

    type Tally = ClaimTally;

    ghost replies = { λ task. IsClaimReply task.prefix.items task.default };

    ghost waits = { λ task line. SaysClaimed line task.default };

    ghost marks = { λ task. IsCountedAs task.default };

    /// Where nothing is counted before, the counts are those of the lines.
    ghost knows = { λ task tally lines. AreAllCounted task.default lines tally.counts };

    fn copy(&self, alloc: Global) -> Result<ClaimTask, NoMemory> {
        Ok(ClaimTask {
            default: self.default,
            prefix: Vec::from_slice(alloc, self.prefix.as_slice())?,
        })
    }

    fn is(&self, other: &ClaimTask) -> bool {
        self.default == other.default && self.prefix.as_slice() == other.prefix.as_slice()
    }

    fn look(
        &self,
        alloc: Global,
        rays: &Rays,
        number: usize,
        line: &[u8],
    ) -> Result<Option<Reply<LineVerdict>>, NoMemory> {
        let Some(told) = self.rows(rays).look(alloc, number, line)? else {
            return Ok(None);
        };
        Ok(Some(reply_of(told)))
    }

    #[tactic(auto, using(crate::proofs::Counted::long_mark))]
    fn refuse_long(
        &self,
        alloc: Global,
        rays: &Rays,
        number: usize,
    ) -> Result<Reply<LineVerdict>, NoMemory> {
        // That such a line says no record is this law.
        records_clear();
        let output = self.rows(rays).refuse_long(alloc, number)?;
        Ok(Reply {
            text: output.text,
            refused: output.refused,
            mark: Some(LineVerdict {
                verdict: None,
                source: None,
                hints: Hints::new(),
            }),
        })
    }

    fn answer(
        &self,
        alloc: Global,
        rays: &Rays,
        number: usize,
        line: &[u8],
        memo: &mut Memo,
    ) -> Result<Reply<LineVerdict>, NoMemory> {
        let told = self.rows(rays).told(alloc, number, line, memo)?;
        Ok(reply_of(told))
    }

    fn count(&self, tally: &mut ClaimTally, mark: &LineVerdict) -> Result<(), NoMemory> {
        let Some(counts) = tally.counts.with(mark.verdict, mark.source) else {
            return Err(NoMemory);
        };
        tally.counts = counts;
        tally.hints = tally.hints.and(mark.hints);
        Ok(())
    }

    ghost skips = { λ task number line blank. skipped blank };

    ghost unmarked = { λ _ _ blank. blank };

    ghost passes = { λ task tally before line is known. passed before line tally.counts (∥∥₁_elim is (Bool-set _ _) (λ blank. blank)) known };

    #[tactic(auto, using(crate::proofs::Claimed::claimed_joins))]
    fn joins(&self) {
        records_clear();
        says_one();
    }
}

/// Starts so many workers, 1 to 16, that hold records against their claims, each a thread with a memo of so many entries, 1 to 268,435,456.
pub fn start_verifying<R: Threads + Wait + Clock + Clone + Drop + Send + 'static>(
    rt: &R,
    alloc: Global,
    count: usize,
    entries: usize,
) -> Result<Workers<ClaimTask>, NoWorkers> {
    let Prepared {
        mut workers,
        waiting,
    } = prepare(alloc, count, entries)?;
    for worker in waiting {
        let own = rt.clone()?;
        match thread::spawn(rt, move || worker.run(&own, alloc)) {
            Ok(thread) => workers.add(thread)?,
            Err(_) => return Err(NoWorkers::NoThread),
        }
    }
    Ok(workers)
}
