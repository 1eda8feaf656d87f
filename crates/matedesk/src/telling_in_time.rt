//! The command `tree --limit`.

ghost use Rattle.std.specs.Prelude.{◌≡◌, Some, map};
ghost use Rattle.command_words.specs.Asked.{tree_limited as tree_limited_asked};
ghost use Rattle.plain_commands.specs.Command.{Ends};

use crate::in_time::{TimedCommand, TimedSource, answer_in_time};
use crate::tick_limit::TickLimit;
use byte_streams::{Input, Stop};
use chess_moves::Rays;
use command_words::TreeAsked;
use file_answers::{FileAnswers, FileStart, MISUSED, Source, SourceFiles, answer_files, complain};
use file_solving::new_memo;
use mate_answers::{Limited, LimitedMemory};
use mate_search::{Memo, OneThread};
use mate_tree::LimitedTrees;
use move_words::Letters;
use plain_commands::{NO_LETTERS, TREE_ENTRIES, tree_form};
use std::alloc::Global;
use std::io::Write;
use std::sync::Wait;
use std::thread::Threads;
use text_lines::{LinesFrom, answer_lines};

/// Tells the trees of the records of files so.
#[derive(Clone, Copy)]
struct LimitedAnswers<'a, 'b, 'r> {
    trees: &'a LimitedTrees<'b, 'r, TickLimit>,
}

impl FileAnswers for LimitedAnswers<'_, '_, '_> {
    ghost use Rattle.std.specs.Prelude.{⊤};
    ghost use Rattle.plain_commands.specs.Told.{limited_tree_replies, limited_tree_told, first_limited_tree_replies};

    type Memory = LimitedMemory<Memo>;

    ghost replies = { λ answers. limited_tree_replies ⊤ answers.trees.now.limited.now.seconds answers.trees.now.form
        answers.trees.now.limited.now.default };

    ghost told = { λ answers. limited_tree_told ⊤ answers.trees.now.limited.now.seconds answers.trees.now.form
        answers.trees.now.limited.now.default };

    ghost tally = { λ memory. memory.undecided };

    ghost tells = { λ _ _ _ _ _ _ _ told. told.0 };

    ghost first = { λ answers. first_limited_tree_replies ⊤ answers.trees.now.limited.now.seconds answers.trees.now.form
        answers.trees.now.limited.now.default };

    fn answer<S: Source, I: Input + Drop, O: Write>(
        &self,
        alloc: Global,
        start: &FileStart<S>,
        input: I,
        memory: &mut LimitedMemory<Memo>,
        out: &mut O,
    ) -> Result<usize, Stop> {
        answer_lines(
            alloc,
            &LinesFrom {
                by: self.trees,
                from: start.from,
                progress: start.source,
            },
            input,
            memory,
            out,
        )
    }

    #[tactic(auto, using(plain_commands::proofs::Unopened::no_limited_tree_reply))]
    fn begins_with_nothing(&self) {}
}

/// `tree --limit`.
#[derive(Clone, Copy)]
pub struct TellInTime<'a, 'm> {
    pub seconds: u32,
    pub asked: &'a TreeAsked<'m, 'm>,
}

impl TimedCommand for TellInTime<'_, '_> {
    ghost use Rattle.std.specs.Prelude.{refl};
    ghost use Rattle.command_words.specs.Asked.{tree_limited as asked_so};

    type Memory = LimitedMemory<Memo>;

    ghost asks = { λ command. asked_so command.seconds command.asked.now.bound command.asked.now.form command.asked.now.letters.now
        command.asked.now.files.from (map (λ s. s.now) command.asked.now.files.names.now) };

    ghost undecided = { λ memory. memory.undecided };

    ghost starts = { λ _. refl };

    fn seconds(&self) -> u32 {
        self.seconds
    }

    fn memory(&self, alloc: Global) -> Result<LimitedMemory<Memo>, Stop> {
        let memory = new_memo(alloc, TREE_ENTRIES)?;
        Ok(LimitedMemory {
            memory,
            undecided: 0,
        })
    }

    fn answer<S: Source, O: Write, E: Write>(
        &self,
        alloc: Global,
        timed: &TimedSource<S>,
        memory: &mut LimitedMemory<Memo>,
        out: &mut O,
        err: &mut E,
    ) -> Result<bool, Stop> {
        let asked = self.asked;
        let source = timed.source;
        let rays = Rays::new();
        let limited = Limited {
            rays: &rays,
            default: asked.bound,
            seconds: self.seconds,
            limit: timed.limit,
            solver: OneThread,
        };
        let trees = LimitedTrees {
            limited: &limited,
            form: tree_form(&asked.form, asked.letters),
        };
        let answers = LimitedAnswers { trees: &trees };
        let files = SourceFiles {
            names: asked.files.names,
            from: asked.files.from,
            source,
        };
        answer_files(alloc, &answers, &files, memory, out, err)
    }

    fn count(&self, memory: &LimitedMemory<Memo>) -> usize {
        memory.undecided
    }
}

/// Tells the tree of each record of each file as `tree` does, but that a record whose mate isn't found, or known not to be, in its seconds is
/// answered so. A thread counts them.
pub fn tell_in_time<
    R: Threads + Wait + Clone + Drop + Send + 'static,
    S: Source,
    O: Write,
    E: Write,
>(rt: &R, alloc: Global, command: &TellInTime, source: &S, out: &mut O, err: &mut E) -> u8
    ensures { Ends (S.holds source.now) (S.refuses source.now)
        (Some (tree_limited_asked command.now.seconds command.now.asked.now.bound command.now.asked.now.form command.now.asked.now.letters.now
        command.now.asked.now.files.from (map (λ s. s.now) command.now.asked.now.files.names.now))) result
        (O.contents out.old) (O.contents out.new) }
{
    if Letters::said(command.asked.letters).is_none() {
        complain(err, NO_LETTERS);
        return MISUSED;
    }
    answer_in_time(rt, alloc, command, source, out, err)
}
