//! The command `solve`.

ghost use Rattle.std.specs.Prelude.{◌≡◌, ◌≤◌, IfErr, IfOk, map};
ghost use Rattle.file_answers.specs.Writing.{Gains};
ghost use Rattle.file_solving.specs.Solved.{Solves, SolvesNone, StopsSolving};
ghost use Rattle.mate_search.specs.Memos.{max_large_entries};

use crate::lengths::Lengthwise;
use byte_streams::{Input, Stop};
use chess_moves::Rays;
use command_words::SolveAsked;
use file_answers::{FileAnswers, FileStart, Source, SourceFiles, answer_files};
use mate_answers::Answers;
use mate_search::{Memo, MemoFault, Never, OneThread, Solver};
use std::alloc::Global;
use std::io::Write;
use text_lines::{LinesFrom, answer_lines};

/// An empty memo with room for so many entries, 1 to 268,435,456.
pub fn new_memo(alloc: Global, entries: usize) -> Result<Memo, Stop>
    requires { (1 ≤ entries) × (entries ≤ max_large_entries) }
    ensures room { IfOk result (λ memo. memo.room ≡ entries) }
    ensures err { IfErr result (λ stop. stop ≡ Stop.NoMemory) }
{
    match Memo::large(alloc, entries) {
        Ok(memo) => Ok(memo),
        Err(MemoFault::NoMemory) => Err(Stop::NoMemory),
        Err(MemoFault::BadSize) => unreachable!(),
    }
}

/// Answers files of records so.
#[derive(Clone, Copy)]
struct RecordAnswers<'a, 'r, V> {
    answers: &'a Answers<'r, V>,
}

impl<V: Solver<Never>> FileAnswers for RecordAnswers<'_, '_, V> {
    ghost use Rattle.file_answers.specs.FileAnswers.{unmarked};
    ghost use Rattle.file_solving.specs.Solved.{record_replies, first_record_replies};

    type Memory = V::Memory;

    ghost ready = { λ records. V.ready records.answers.now.solver };

    ghost replies = { λ records. record_replies records.answers.now.default };

    ghost told = { λ records. unmarked (record_replies records.answers.now.default) };

    ghost tells = { λ _ _ _ _ _ _ _ told. told };

    ghost first = { λ records. first_record_replies records.answers.now.default };

    fn answer<S: Source, I: Input + Drop, O: Write>(
        &self,
        alloc: Global,
        start: &FileStart<S>,
        input: I,
        memory: &mut V::Memory,
        out: &mut O,
    ) -> Result<usize, Stop> {
        answer_lines(
            alloc,
            &LinesFrom {
                by: self.answers,
                from: start.from,
                progress: start.source,
            },
            input,
            memory,
            out,
        )
    }

    #[tactic(auto, using(crate::proofs::Unopened::no_record_reply))]
    fn begins_with_nothing(&self) {}
}

/// Answers each line of each file in order, but those of the first file that are passed over, over one memo of such a size, and opens a
/// file only after the answers to those before were written; gives whether a line was refused. A file that can't be read is named on `err`.
pub fn solve<S: Source, O: Write, E: Write>(
    alloc: Global,
    asked: &SolveAsked,
    source: &S,
    out: &mut O,
    err: &mut E,
) -> Result<bool, Stop>
    ensures ok { IfOk result (λ refused. Gains (Solves (S.holds source.now) asked.now.bound asked.now.files.from
        (map (λ s. s.now) asked.now.files.names.now) refused) (O.contents out.old) (O.contents out.new)) }
    ensures err { IfErr result (λ stop. StopsSolving (S.holds source.now) (S.refuses source.now) asked.now.bound asked.now.files.from
        (map (λ s. s.now) asked.now.files.names.now) stop (O.contents out.old) (O.contents out.new)) }
{
    let rays = Rays::new();
    let mut memo = new_memo(alloc, asked.memo.get() as usize)?;
    let files = SourceFiles {
        names: asked.files.names,
        from: asked.files.from,
        source,
    };
    // Asked once, not for each record: through `Lengthwise` an outcome of 4.2 KB is copied once more.
    if source.follows_lengths() {
        let answers = Answers {
            rays: &rays,
            default: asked.bound,
            solver: Lengthwise {
                solver: OneThread,
                progress: source,
            },
        };
        return solve_by(alloc, &answers, &files, &mut memo, out, err);
    }
    let answers = Answers {
        rays: &rays,
        default: asked.bound,
        solver: OneThread,
    };
    solve_by(alloc, &answers, &files, &mut memo, out, err)
}

/// The same, by who solves the records, over a memory of its own.
pub fn solve_by<V: Solver<Never>, S: Source, O: Write, E: Write>(
    alloc: Global,
    answers: &Answers<V>,
    files: &SourceFiles<S>,
    memory: &mut V::Memory,
    out: &mut O,
    err: &mut E,
) -> Result<bool, Stop>
    requires ready { V.ready answers.now.solver }
    ensures ok { IfOk result (λ refused. Gains (Solves (S.holds files.now.source.now) answers.now.default files.now.from
        (map (λ s. s.now) files.now.names.now) refused) (O.contents out.old) (O.contents out.new)) }
    ensures err { IfErr result (λ stop. StopsSolving (S.holds files.now.source.now) (S.refuses files.now.source.now) answers.now.default
        files.now.from (map (λ s. s.now) files.now.names.now) stop (O.contents out.old) (O.contents out.new)) }
{
    answer_files(alloc, &RecordAnswers { answers }, files, memory, out, err)
}

/// What a `solve` that ends before it has opened a file has written. It does nothing: its contract is the law.
#[tactic(auto, using(crate::proofs::Unopened::solves_none))]
pub fn solves_none()
    ensures { SolvesNone }
{}
