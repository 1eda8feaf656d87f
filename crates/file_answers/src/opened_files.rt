//! Files that are all opened before the first is answered.

ghost use Rattle.std.specs.Prelude.{◌≡◌, ◌⊎◌, ◌-◌, IfErr, IfOk, length, map};
ghost use Rattle.file_answers.specs.FileAnswers.{Answers, AnswersTold, StopsAnswering};
ghost use Rattle.file_answers.specs.OpenedFiles.{AreOpened};
ghost use Rattle.file_answers.specs.Sources.{SomeRefused};
ghost use Rattle.file_answers.specs.Writing.{Gains};

use crate::file_answers::{FileAnswers, FileStart, named};
use crate::sources::{Source, holds_reads, open_file, stop_at, tell_next};
use byte_streams::Stop;
use std::alloc::Global;
use std::io::Write;

/// Files that were opened, their names, and the source that they are of.
#[derive(Drop)]
pub struct OpenFiles<'a, S, F> {
    pub names: &'a [&'a str],
    pub files: Vec<F>,
    pub source: &'a S,
}

/// Opens each file, in order. The first that can't be opened is named on `err`, and none behind it is opened.
pub fn open_files<S: Source, E: Write>(
    alloc: Global,
    names: &[&str],
    source: &S,
    err: &mut E,
) -> Result<Vec<S::File>, Stop>
    ensures count { IfOk result (λ files. length files.items ≡ length names.now) }
    ensures opened { IfOk result (λ files. AreOpened S.File.Input.left S.File.Input.breaks (S.holds source.now) (S.refuses source.now)
        (map (λ s. s.now) names.now) files.items) }
    ensures refused { IfErr result (λ stop. (stop ≡ Stop.NoMemory)
        ⊎ ((stop ≡ Stop.Unreadable) × SomeRefused (S.refuses source.now) (map (λ s. s.now) names.now))) }
{
    let mut files = Vec::new(alloc);
    for name in names {
        let file = open_file(alloc, name, source, err)?;
        let Ok(()) = files.push(file) else {
            return Err(Stop::NoMemory);
        };
    }
    Ok(files)
}

/// Answers each line of each file in order; gives whether a line was refused; how many marks there are more, the memory tells. The source is
/// told which file is next, and one that breaks off is named on `err`.
pub fn answer_opened<A: FileAnswers, S: Source, O: Write, E: Write>(
    alloc: Global,
    answers: &A,
    opened: OpenFiles<S, S::File>,
    memory: &mut A::Memory,
    out: &mut O,
    err: &mut E,
) -> Result<bool, Stop>
    requires ready { A.ready answers.now }
    requires opened { AreOpened S.File.Input.left S.File.Input.breaks (S.holds opened.source.now) (S.refuses opened.source.now)
        (map (λ s. s.now) opened.names.now) opened.files.items }
    ensures ok { IfOk result (λ refused. Gains (Answers (S.holds opened.entry.source.now) (A.replies answers.now) 1
        (map (λ s. s.now) opened.entry.names.now) refused) (O.contents out.old) (O.contents out.new)) }
    ensures told { IfOk result (λ refused. Gains (AnswersTold (S.holds opened.entry.source.now) (A.told answers.now) 1
        (map (λ s. s.now) opened.entry.names.now) refused (A.tally memory.new - A.tally memory.old)) (O.contents out.old) (O.contents out.new)) }
    ensures err { IfErr result (λ stop. StopsAnswering (S.holds opened.entry.source.now) (S.refuses opened.entry.source.now) (A.replies answers.now)
        (A.first answers.now) 1 (map (λ s. s.now) opened.entry.names.now) stop (O.contents out.old) (O.contents out.new)) }
{
    // How the files that are answered so far go on with the next.
    holds_reads();
    let OpenFiles {
        names,
        files,
        source,
    } = opened;
    let mut refused = false;
    let mut rest = files.into_iter();
    for name in names {
        let Some(file) = rest.next() else {
            unreachable!()
        };
        source.turns_to(name);
        tell_next(source, names, name);
        let start = FileStart {
            name,
            from: 1,
            source,
        };
        match answers.answer(alloc, &start, file, memory, out) {
            Ok(count) => refused |= count > 0,
            Err(stop) => return Err(stop_at(stop, err, source, name)),
        }
        answers.tell_beside(named(names, name), memory, err);
    }
    Ok(refused)
}
