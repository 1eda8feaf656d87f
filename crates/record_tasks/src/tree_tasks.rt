//! That the record which a line says is told with its tree.

ghost use Rattle.std.specs.Prelude.{◌≡◌, true};

use crate::solve_tasks::uncounted;
use byte_streams::NoMemory;
use chess_moves::Rays;
use chess_notation::{records_clear, says_one};
use chess_problems::Bound;
use mate_search::Memo;
use mate_tree::{Form, Pieces, TreeReplies};
use parallel_answers::{LineTask, NoWorkers, Prepared, Reply, Workers, prepare};
use std::alloc::Global;
use std::sync::Wait;
use std::thread;
use std::thread::Threads;
use std::time::Clock;

/// The tree of each record is told, in such a form; one that asks for no bound is solved within the default one.
#[derive(Drop)]
pub struct TreeTask {
    pub default: Bound,
    pub form: Form,
}

/// Whether the same stands for pieces.
fn are_same(own: &Pieces, others: &Pieces) -> bool
    ensures { result ≡ true → own.now ≡ others.now }
{
    match (own, others) {
        (Pieces::San, Pieces::San) | (Pieces::Figurines, Pieces::Figurines) => true,
        (Pieces::Letters(own), Pieces::Letters(others)) => own == others,
        _ => false,
    }
}

impl TreeTask {
    /// What tells the trees.
    fn trees<'a>(&self, rays: &'a Rays) -> TreeReplies<'a>
        ensures default { result.default ≡ self.now.default }
        ensures form { result.form ≡ self.now.form }
    {
        TreeReplies {
            rays,
            default: self.default,
            form: self.form,
        }
    }
}

impl LineTask for TreeTask {
    ghost use Rattle.mate_tree.specs.TreeReplies.{IsTreeReply, skipped};
    ghost use Rattle.record_tasks.specs.SolveTasks.{SaysRecord};

    type Mark = ();

    type Tally = ();

    ghost replies = { λ task. IsTreeReply task.form task.default };

    ghost waits = { λ task. SaysRecord task.default };

    fn copy(&self, _alloc: Global) -> Result<TreeTask, NoMemory> {
        Ok(TreeTask {
            default: self.default,
            form: self.form,
        })
    }

    fn is(&self, other: &TreeTask) -> bool {
        self.default == other.default
            && self.form == other.form
            && are_same(&self.form.pieces, &other.form.pieces)
    }

    fn look(
        &self,
        alloc: Global,
        rays: &Rays,
        number: usize,
        line: &[u8],
    ) -> Result<Option<Reply<()>>, NoMemory> {
        match self.trees(rays).look(alloc, number, line)? {
            Some(output) => Ok(Some(uncounted(output))),
            None => Ok(None),
        }
    }

    fn refuse_long(
        &self,
        alloc: Global,
        rays: &Rays,
        number: usize,
    ) -> Result<Reply<()>, NoMemory> {
        Ok(uncounted(self.trees(rays).told_long(alloc, number)?))
    }

    fn answer(
        &self,
        alloc: Global,
        rays: &Rays,
        number: usize,
        line: &[u8],
        memo: &mut Memo,
    ) -> Result<Reply<()>, NoMemory> {
        Ok(uncounted(self.trees(rays).told(alloc, number, line, memo)?))
    }

    fn count(&self, _tally: &mut (), _mark: &()) -> Result<(), NoMemory> {
        Ok(())
    }

    ghost skips = { λ task number line blank. skipped blank };

    ghost unmarked = { λ _ _ _. tt };

    ghost passes = { λ _ _ _ _ _ _. tt };

    #[tactic(auto, using(crate::proofs::Told::told_joins))]
    fn joins(&self) {
        records_clear();
        says_one();
    }
}

/// Starts so many workers, 1 to 16, that tell trees, each a thread with a memo of so many entries, 1 to 268,435,456.
pub fn start_telling<R: Threads + Wait + Clock + Clone + Drop + Send + 'static>(
    rt: &R,
    alloc: Global,
    count: usize,
    entries: usize,
) -> Result<Workers<TreeTask>, NoWorkers> {
    let Prepared {
        mut workers,
        waiting,
    } = prepare(alloc, count, entries)?;
    for worker in waiting {
        let own = rt.clone()?;
        match thread::spawn(rt, move || worker.run(&own, alloc)) {
            Ok(thread) => workers.add(thread)?,
            Err(_) => return Err(NoWorkers::NoThread),
        }
    }
    Ok(workers)
}
