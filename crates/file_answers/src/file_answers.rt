//! Files that are answered line by line, one after the other.

ghost use Rattle.std.specs.Prelude.{◌≡◌, ◌≤◌, ◌-◌, ℕ, List, [], IfErr, IfOk, map, nat_lt};
ghost use Rattle.std.specs.Io.KnownBytes.{Appends};
ghost use Rattle.byte_streams.specs.Inputs.{MayBe};
ghost use Rattle.byte_streams.specs.Stops.{AppendsBy};
ghost use Rattle.file_answers.specs.Writing.{Gains};
ghost use Rattle.file_answers.specs.FileAnswers.{Answers, AnswersTold, FileReplies, FileTold, FirstReplies, StopsAnswering};

use crate::sources::{Source, holds_reads, open_file, stop_at, tell_next};
use byte_streams::{Input, Stop};
use command_words::LineNumber;
use std::alloc::Global;
use std::io::Write;

/// A file that is to be answered: its name, the number of the line that is answered first, and the source that it is of.
#[derive(Clone, Copy)]
pub struct FileStart<'a, S> {
    pub name: &'a str,
    pub from: usize,
    pub source: &'a S,
}

/// Files by their names, of the first of which the lines before one of such a number are passed over, and the source that they are of.
#[derive(Clone, Copy)]
pub struct SourceFiles<'a, S> {
    pub names: &'a [&'a str],
    pub from: LineNumber,
    pub source: &'a S,
}

/// What a command answers the lines of a file, over a memory that goes on from file to file.
pub trait FileAnswers {
    /// What is kept from line to line.
    type Memory;

    /// That it may answer, as where it starts threads.
    ghost ready: { Self → Type 0 } = { λ _. Unit {0} };

    /// What the file of a name with such an input is answered from the line of a number on, and how many of its lines are refused.
    ghost replies: { Self → FileReplies };

    /// The same, and how many marks that is: what is counted beside refusals, where anything is.
    ghost told: { Self → FileTold };

    /// How many marks there were so far.
    ghost tally: { Self.Memory → ℕ } = { λ _. 0 };

    ghost tells: { (answers : Self) (from : ℕ) (name input text : List ℕ) (refusals marks : ℕ)
        → told answers from name input text refusals marks → replies answers from name input text refusals };

    /// What some of the first lines of it are answered.
    ghost first: { Self → FirstReplies };

    /// Answers each line of a file from that of a number on, before it reads on for the next; gives how many lines are refused.
    fn answer<S: Source, I: Input + Drop, O: Write>(
        &self,
        alloc: Global,
        start: &FileStart<S>,
        input: I,
        memory: &mut Self::Memory,
        out: &mut O,
    ) -> Result<usize, Stop>
        requires ready { ready self.now }
        requires from { 1 ≤ start.now.from }
        ensures ok { IfOk result (λ count. (bytes : List ℕ) × (text : List ℕ) × MayBe (I.left input) bytes
            × told self.now start.now.from start.now.name.now bytes text count (tally memory.new - tally memory.old)
            × Appends (O.contents out.old) (O.contents out.new) text) }
        ensures grows { IfOk result (λ _. tally memory.old ≤ tally memory.new) }
        ensures err { IfErr result (λ stop. (bytes : List ℕ) × (text : List ℕ) × MayBe (I.left input) bytes
            × first self.now start.now.from start.now.name.now bytes text
            × AppendsBy stop (O.contents out.old) (O.contents out.new) text) }
        ensures unreadable { IfErr result (λ stop. stop ≡ Stop.Unreadable → I.breaks input) };

    /// Tells what stands in no reply to the file that was answered last, where anything is told so, by its name where it is one of several.
    fn tell_beside<E: Write>(&self, _name: Option<&str>, _memory: &Self::Memory, _err: &mut E) {}

    /// No line is answered with nothing. It does nothing: its contract is the law.
    fn begins_with_nothing(&self)
        ensures { (from : ℕ) (name input : List ℕ) → first self.now from name input [] };
}

/// The name of a file, where it is one of several.
pub(crate) fn named<'a>(names: &[&str], name: &'a str) -> Option<&'a str> {
    if names.len() > 1 { Some(name) } else { None }
}

/// Answers each line of each file in order, but those of the first file that are passed over, and opens a file only after the answers to
/// those before were written; gives whether a line was refused; how many marks there are more, the memory tells. The source is told which of
/// several is next, and a file that can't be read is named on `err`, where what is told beside the replies to a file comes behind them.
pub fn answer_files<A: FileAnswers, S: Source, O: Write, E: Write>(
    alloc: Global,
    answers: &A,
    files: &SourceFiles<S>,
    memory: &mut A::Memory,
    out: &mut O,
    err: &mut E,
) -> Result<bool, Stop>
    requires ready { A.ready answers.now }
    ensures ok { IfOk result (λ refused. Gains (Answers (S.holds files.now.source.now) (A.replies answers.now) files.now.from
        (map (λ s. s.now) files.now.names.now) refused) (O.contents out.old) (O.contents out.new)) }
    ensures told { IfOk result (λ refused. Gains (AnswersTold (S.holds files.now.source.now) (A.told answers.now) files.now.from
        (map (λ s. s.now) files.now.names.now) refused (A.tally memory.new - A.tally memory.old)) (O.contents out.old) (O.contents out.new)) }
    ensures err { IfErr result
        (λ stop. StopsAnswering (S.holds files.now.source.now) (S.refuses files.now.source.now) (A.replies answers.now) (A.first answers.now)
        files.now.from (map (λ s. s.now) files.now.names.now) stop (O.contents out.old) (O.contents out.new)) }
{
    // How the files that are answered so far go on with the next, and what one that can't be opened is answered.
    holds_reads();
    answers.begins_with_nothing();
    let source = files.source;
    let mut refused = false;
    let mut from = files.from.get() as usize;
    for name in files.names {
        let start = FileStart { name, from, source };
        let file = open_file(alloc, name, source, err)?;
        tell_next(source, files.names, name);
        match answers.answer(alloc, &start, file, memory, out) {
            Ok(count) => refused |= count > 0,
            Err(stop) => return Err(stop_at(stop, err, source, name)),
        }
        answers.tell_beside(named(files.names, name), memory, err);
        from = 1;
    }
    Ok(refused)
}
