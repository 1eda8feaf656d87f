//! The command `solve` where each record may take so many seconds.

ghost use Rattle.std.specs.Prelude.{◌≡◌, ◌-◌, IfErr, IfOk, map};
ghost use Rattle.file_answers.specs.Writing.{Gains};
ghost use Rattle.file_solving.specs.Solved.{LimitedNone, SolvesLimited, StopsLimited};

use byte_streams::{Input, Stop};
use file_answers::{FileAnswers, FileStart, Source, SourceFiles, answer_files};
use mate_answers::{Limited, LimitedMemory, TimeLimit};
use mate_search::Solver;
use std::alloc::Global;
use std::io::Write;
use text_lines::{LinesFrom, answer_lines};

/// Answers files of records so.
#[derive(Clone, Copy)]
struct LimitedRecords<'a, 'r, T, V> {
    limited: &'a Limited<'r, T, V>,
}

impl<T: TimeLimit, V: Solver<T>> FileAnswers for LimitedRecords<'_, '_, T, V> {
    ghost use Rattle.file_solving.specs.Solved.{limited_replies, limited_told, first_limited_replies};

    type Memory = LimitedMemory<V::Memory>;

    ghost ready = { λ records. V.ready records.limited.now.solver };

    ghost replies = { λ records. limited_replies (T.may_stop records.limited.now.limit.now) records.limited.now.seconds
        records.limited.now.default };

    ghost told = { λ records. limited_told (T.may_stop records.limited.now.limit.now) records.limited.now.seconds
        records.limited.now.default };

    ghost tally = { λ memory. memory.undecided };

    ghost tells = { λ _ _ _ _ _ _ _ told. told.0 };

    ghost first = { λ records. first_limited_replies (T.may_stop records.limited.now.limit.now) records.limited.now.seconds
        records.limited.now.default };

    fn answer<S: Source, I: Input + Drop, O: Write>(
        &self,
        alloc: Global,
        start: &FileStart<S>,
        input: I,
        memory: &mut LimitedMemory<V::Memory>,
        out: &mut O,
    ) -> Result<usize, Stop> {
        answer_lines(
            alloc,
            &LinesFrom {
                by: self.limited,
                from: start.from,
                progress: start.source,
            },
            input,
            memory,
            out,
        )
    }

    fn begins_with_nothing(&self) {}
}

/// Answers as `solve` does, by who solves the records, but that a record which the limit stops before it is decided is answered so; gives
/// whether a line was refused. How many records were not decided, the memory counts. A file that can't be read is named on `err`.
pub fn solve_limited<T: TimeLimit, V: Solver<T>, S: Source, O: Write, E: Write>(
    alloc: Global,
    limited: &Limited<T, V>,
    files: &SourceFiles<S>,
    memory: &mut LimitedMemory<V::Memory>,
    out: &mut O,
    err: &mut E,
) -> Result<bool, Stop>
    requires ready { V.ready limited.now.solver }
    ensures ok { IfOk result (λ refused. Gains (SolvesLimited (S.holds files.now.source.now) (T.may_stop limited.now.limit.now) limited.now.seconds
        limited.now.default files.now.from (map (λ s. s.now) files.now.names.now) refused (memory.new.undecided - memory.old.undecided))
        (O.contents out.old) (O.contents out.new)) }
    ensures err { IfErr result (λ stop. StopsLimited (S.holds files.now.source.now) (S.refuses files.now.source.now)
        (T.may_stop limited.now.limit.now) limited.now.seconds limited.now.default files.now.from (map (λ s. s.now) files.now.names.now) stop
        (O.contents out.old) (O.contents out.new)) }
{
    answer_files(alloc, &LimitedRecords { limited }, files, memory, out, err)
}

/// What that has written where it ends before it has opened a file. It does nothing: its contract is the law.
#[tactic(auto, using(crate::proofs::Unopened::limited_none))]
pub fn limited_none()
    ensures { LimitedNone }
{}
