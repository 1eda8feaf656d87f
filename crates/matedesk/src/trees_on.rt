//! The command `tree --workers`.

ghost use Rattle.std.specs.Prelude.{◌≡◌, Some, map};
ghost use Rattle.command_words.specs.Asked.{tree_on as tree_on_asked};
ghost use Rattle.plain_commands.specs.Command.{Ends};

use crate::serving::unserved;
use byte_streams::{Input, Stop};
use chess_moves::Rays;
use chess_problems::Bound;
use command_words::TreeAsked;
use file_answers::{
    FileAnswers, FileStart, MISUSED, Source, SourceFiles, answer_files, complain, status_of,
};
use mate_tree::Form;
use move_words::Letters;
use parallel_answers::{Answering, Workers, answer_in_order};
use plain_commands::{NO_LETTERS, TREE_ENTRIES, ends_by_status, tells_none, tree_form};
use record_tasks::{TreeTask, start_telling};
use std::alloc::Global;
use std::io::Write;
use std::sync::Wait;
use std::thread::Threads;
use std::time::Clock;
use text_lines::LinesFrom;

/// Workers tell the trees of the records of files.
#[derive(Clone, Copy)]
struct TreesOn<'a, R: Wait> {
    rt: &'a R,
    rays: &'a Rays,
    bound: Bound,
    form: Form,
}

impl<R: Wait> FileAnswers for TreesOn<'_, R> {
    ghost use Rattle.file_answers.specs.FileAnswers.{unmarked};
    ghost use Rattle.plain_commands.specs.Told.{tree_replies, first_tree_replies};

    type Memory = Workers<TreeTask>;

    ghost replies = { λ trees. tree_replies trees.form trees.bound };

    ghost told = { λ trees. unmarked (tree_replies trees.form trees.bound) };

    ghost tells = { λ _ _ _ _ _ _ _ told. told };

    ghost first = { λ trees. first_tree_replies trees.form trees.bound };

    fn answer<S: Source, I: Input + Drop, O: Write>(
        &self,
        alloc: Global,
        start: &FileStart<S>,
        input: I,
        memory: &mut Workers<TreeTask>,
        out: &mut O,
    ) -> Result<usize, Stop> {
        let task = TreeTask {
            default: self.bound,
            form: self.form,
        };
        let lines = LinesFrom {
            by: &task,
            from: start.from,
            progress: start.source,
        };
        let answering = Answering {
            rt: self.rt,
            alloc,
            rays: self.rays,
            lines: &lines,
        };
        answer_in_order(&answering, memory, &mut (), input, out)
    }

    #[tactic(auto, using(plain_commands::proofs::Unopened::no_tree_reply))]
    fn begins_with_nothing(&self) {}
}

/// Tells the tree of each record of each file as `tree` does, by so many workers, each a thread with a memo of its own. Each tree is written
/// once it and all before it are there.
pub fn tree_on<
    R: Threads + Wait + Clock + Clone + Drop + Send + 'static,
    S: Source,
    O: Write,
    E: Write,
>(rt: &R, alloc: Global, asked: &TreeAsked, source: &S, out: &mut O, err: &mut E) -> u8
    ensures { Ends (S.holds source.now) (S.refuses source.now)
        (Some (tree_on_asked asked.now.workers asked.now.bound asked.now.form asked.now.letters.now asked.now.files.from
        (map (λ s. s.now) asked.now.files.names.now))) result
        (O.contents out.old) (O.contents out.new) }
{
    // How it ends with the status of what was written, and with nothing written.
    ends_by_status(source);
    tells_none();
    if Letters::said(asked.letters).is_none() {
        complain(err, NO_LETTERS);
        return MISUSED;
    }
    let count = asked.workers.get() as usize;
    let mut workers = match start_telling(rt, alloc, count, TREE_ENTRIES) {
        Ok(workers) => workers,
        Err(fault) => return unserved(fault, err),
    };
    let rays = Rays::new();
    let trees = TreesOn {
        rt,
        rays: &rays,
        bound: asked.bound,
        form: tree_form(&asked.form, asked.letters),
    };
    let files = SourceFiles {
        names: asked.files.names,
        from: asked.files.from,
        source,
    };
    let ended = answer_files(alloc, &trees, &files, &mut workers, out, err);
    if ended.is_ok() {
        workers.end(rt);
    }
    status_of(ended, err)
}
