//! The problems of an input, answered one by one.

ghost use Rattle.std.specs.Prelude.{◌≡◌, ◌≢◌, ◌<◌, ◌≤◌, ◌++◌, ◌∷◌, ◌||◌, [], ℕ, Bool, List, Option, IfErr, IfOk, false, length};
ghost use Rattle.std.specs.Io.KnownBytes.{Appends};
ghost use Rattle.byte_streams.specs.Inputs.{MayBe};
ghost use Rattle.byte_streams.specs.Stops.{AppendsBy};
ghost use Rattle.chess_board.specs.Characters.{char};
ghost use Rattle.chess_notation.specs.Records.{max_line};
ghost use Rattle.chess_notation.specs.Words.{is_blank};
ghost use Rattle.move_words.specs.declared.languages.Letters.{Letters as LettersValue};
ghost use Rattle.problem_import.specs.Imports.{IsMade, IsRecord, one_if as one_if_any, refused_line};
ghost use Rattle.problem_import.specs.Problems.{AnswersFirstOf, AnswersImports, AnswersOf, EndsWith, IsProblemReply};
ghost use Rattle.problem_import.specs.declared.import_counts.ImportCounts.{ImportCounts as ImportCountsValue};
ghost use Rattle.problem_import.specs.inside.Answered.{AnswersTo, IsAnsweredFrom, IsFound, IsLast, IsLastCut, IsLastPut, IsReadOf};
ghost use Rattle.problem_import.specs.inside.Counted.{IsSaid, is_no_bound, with_record as with_record_of, with_refusal as with_refusal_of};
ghost use Rattle.problem_import.specs.inside.Findings.{AreFoundOf, IsFoundOf};
ghost use Rattle.problem_import.specs.inside.KnownSources.{AreFrom, IsAt, IsFoundFrom, IsKnown, IsMadeFrom};

use crate::findings::Finding;
use crate::import_counts::ImportCounts;
use crate::import_faults::ImportFault;
use crate::import_letters::ImportLetters;
use crate::line_findings::LongLines;
use crate::line_kinds::{LineKind, read_line};
use crate::printing::Printing;
use crate::problem_handlers::ProblemHandler;
use crate::reading::{Open, Reading};
use crate::reading_lines::is_aside;
use byte_streams::{Input, NoMemory, Stop, put};
use chess_moves::Rays;
use chess_notation::{Bound, EpdFault};
use mail_lines::answer_mails_input;
use std::alloc::{AllocError, Global};
use std::cell::Cell;
use std::io::Write;
use text_lines::{LineHandler, Output};

/// What problems are answered, one behind the other, whether a refusal is among it, and how much has been answered with it.
#[derive(Drop)]
pub(crate) struct Answers {
    pub(crate) text: Vec<u8>,
    pub(crate) any: bool,
    pub(crate) counts: ImportCounts,
}

pub(crate) fn one_if(any: bool) -> usize
    ensures { result ≡ one_if_any any }
{
    if any { 1 } else { 0 }
}

impl Answers {
    /// To no problem, where so much has been answered.
    fn new(alloc: Global, counts: ImportCounts) -> Answers
        ensures text { result.text.items ≡ [] }
        ensures any { result.any ≡ false }
        ensures counts { result.counts ≡ counts }
    {
        Answers {
            text: Vec::new(alloc),
            any: false,
            counts,
        }
    }

    /// Adds what one is answered.
    fn push(&mut self, text: &[u8], any: bool) -> Result<(), AllocError>
        ensures text { IfOk result (λ _. self.new.text.items ≡ self.old.text.items ++ text.now) }
        ensures any { IfOk result (λ _. self.new.any ≡ (self.old.any || any)) }
        ensures counts { IfOk result (λ _. self.new.counts ≡ self.old.counts) }
    {
        self.text.extend_from_slice(text)?;
        self.any |= any;
        Ok(())
    }

    /// The same, as the reply to a line.
    fn output(self) -> Output
        ensures text { result.text.items ≡ self.text.items }
        ensures refused { result.refused ≡ one_if_any self.any }
        ensures few { result.refused ≤ 1 }
    {
        Output {
            refused: one_if(self.any),
            text: self.text,
        }
    }
}

/// What goes from line to line: what they have said of problems that are open, and what whoever answers these keeps.
#[derive(Drop)]
pub struct ProblemMemory<M> {
    reading: Reading,
    pub memory: M,
}

impl<M> ProblemMemory<M> {
    /// Before the first line of an input.
    pub fn new(memory: M) -> ProblemMemory<M>
        ensures { result.memory ≡ memory }
    {
        ProblemMemory {
            reading: Reading::new(&ImportLetters::ENGLISH),
            memory,
        }
    }

    /// Begins with the first line of another input, where men have such letters. What whoever answers keeps is kept.
    pub fn begin(&mut self, letters: &ImportLetters)
        ensures begun { IsReadOf letters.now.placements self.new.reading [] }
        ensures kept { self.new.memory ≡ self.old.memory }
    {
        self.reading = Reading::new(letters);
    }
}

/// The lines of an input, the problems of which are answered: of each what `import` would print.
#[derive(Drop)]
pub struct ProblemLines<'a, H> {
    /// How the records are made that are answered.
    pub printing: Printing<'a>,
    pub handler: &'a H,
    long: LongLines,
    /// How much has been answered. It stands here since a long line that is refused counts.
    pub(crate) counts: Cell<ImportCounts>,
}

impl<'a, H: ProblemHandler> ProblemLines<'a, H> {
    /// With `keep` each record tells what was changed to make it. A problem that says no number of moves, and is no record as it stands, is made
    /// one of such a bound, if one is given, and else refused.
    pub fn new(
        rays: &'a Rays,
        letters: ImportLetters,
        keep: bool,
        bound: Option<Bound>,
        handler: &'a H,
    ) -> ProblemLines<'a, H>
        ensures letters { result.printing.letters ≡ letters }
        ensures keep { result.printing.keep ≡ keep }
        ensures bound { result.printing.bound ≡ bound }
        ensures handler { result.handler.now ≡ handler.now }
    {
        ProblemLines {
            printing: Printing {
                rays,
                keep,
                bound,
                letters,
            },
            handler,
            long: LongLines::new(),
            counts: Cell::new(ImportCounts::new()),
        }
    }
}

impl<H: ProblemHandler> ProblemLines<'_, H> {
    /// Adds what a record is answered, which says its number of moves itself or doesn't.
    fn push_record(
        &self,
        alloc: Global,
        number: usize,
        made: &[u8],
        says: bool,
        memory: &mut H::Memory,
        answers: &mut Answers,
    ) -> Result<(), NoMemory>
        requires record { IsRecord made.now }
        requires said { IsSaid made.now says }
        ensures answered { IfOk result (λ _. (line printed : List ℕ) (first : ImportCountsValue) → IsMade self.now.printing.keep self.now.printing.bound line made.now
            → AnswersTo self.now.printing.keep self.now.printing.bound line (H.records self.now.handler.now) (H.rows self.now.handler.now) first printed answers.old
            → AnswersTo self.now.printing.keep self.now.printing.bound line (H.records self.now.handler.now) (H.rows self.now.handler.now) first
            (printed ++ made.now ++ char "\n" ∷ []) answers.new) }
        ensures ends { IfOk result (λ _. EndsWith (H.records self.now.handler.now number made.now) answers.new.text.items) }
        ensures from { IfOk result (λ _. (letters : LettersValue) (lines : List (List ℕ)) → IsMadeFrom letters self.now.printing.bound lines made.now
            → IsAnsweredFrom letters self.now.printing.bound lines (H.records self.now.handler.now) (H.rows self.now.handler.now) answers.old.text.items
            → IsAnsweredFrom letters self.now.printing.bound lines (H.records self.now.handler.now) (H.rows self.now.handler.now) answers.new.text.items) }
    {
        let output = self.handler.answer(alloc, number, made, memory)?;
        answers.push(output.text.as_slice(), output.refused > 0)?;
        answers.counts = answers.counts.with_record(says);
        Ok(())
    }

    /// Adds the row of a problem that is refused.
    fn push_refusal(
        &self,
        alloc: Global,
        number: usize,
        fault: ImportFault,
        answers: &mut Answers,
    ) -> Result<(), NoMemory>
        ensures answered { IfOk result (λ _. (line printed : List ℕ) (first : ImportCountsValue)
            → AnswersTo self.now.printing.keep self.now.printing.bound line (H.records self.now.handler.now) (H.rows self.now.handler.now) first printed answers.old
            → AnswersTo self.now.printing.keep self.now.printing.bound line (H.records self.now.handler.now) (H.rows self.now.handler.now) first
            (printed ++ refused_line number fault) answers.new) }
        ensures from { IfOk result (λ _. (letters : LettersValue) (lines : List (List ℕ))
            → IsAnsweredFrom letters self.now.printing.bound lines (H.records self.now.handler.now) (H.rows self.now.handler.now) answers.old.text.items
            → IsAnsweredFrom letters self.now.printing.bound lines (H.records self.now.handler.now) (H.rows self.now.handler.now) answers.new.text.items) }
    {
        let row = self.handler.refuse(alloc, number, fault)?;
        answers.push(row.as_slice(), true)?;
        answers.counts = answers.counts.with_refusal(fault);
        Ok(())
    }

    /// Adds what a problem is answered that was found where a line was read, or none, which is empty.
    fn push(
        &self,
        alloc: Global,
        line: &[u8],
        finding: &Finding,
        memory: &mut H::Memory,
        answers: &mut Answers,
    ) -> Result<(), NoMemory>
        requires { IsFoundOf line.now finding.now.found }
        ensures found { IfOk result (λ _. (printed : List ℕ) (first : ImportCountsValue)
            → AnswersTo self.now.printing.keep self.now.printing.bound line.now (H.records self.now.handler.now) (H.rows self.now.handler.now) first printed answers.old
            → IsFound self.now.printing.keep self.now.printing.bound line.now (H.records self.now.handler.now) (H.rows self.now.handler.now) first 1 answers.new) }
        ensures from { IfOk result (λ _. (letters : LettersValue) (lines : List (List ℕ)) → IsFoundFrom letters lines finding.now.found
            → IsAnsweredFrom letters self.now.printing.bound lines (H.records self.now.handler.now) (H.rows self.now.handler.now) answers.old.text.items
            → IsAnsweredFrom letters self.now.printing.bound lines (H.records self.now.handler.now) (H.rows self.now.handler.now) answers.new.text.items) }
    {
        match self.printing.made(alloc, line, &finding.found)? {
            Ok(made) => {
                let text = made.text.as_slice();
                self.push_record(alloc, finding.number, text, made.says, memory, answers)
            }
            Err(fault) => self.push_refusal(alloc, finding.number, fault, answers),
        }
    }

    /// What the problems are answered that were found where a line was read, or none, which is empty, and so much has been answered.
    fn found(
        &self,
        alloc: Global,
        line: &[u8],
        findings: &[Finding],
        memory: &mut H::Memory,
        counts: ImportCounts,
    ) -> Result<Answers, NoMemory>
        requires { AreFoundOf line.now findings.now }
        ensures found { IfOk result (λ answers. IsFound self.now.printing.keep self.now.printing.bound line.now (H.records self.now.handler.now) (H.rows self.now.handler.now) counts
            (length findings.now) answers) }
        ensures from { IfOk result (λ answers. (letters : LettersValue) (lines : List (List ℕ)) → AreFrom letters lines findings.now
            → IsAnsweredFrom letters self.now.printing.bound lines (H.records self.now.handler.now) (H.rows self.now.handler.now) answers.text.items) }
    {
        let mut answers = Answers::new(alloc, counts);
        for finding in findings {
            self.push(alloc, line, finding, memory, &mut answers)?;
        }
        Ok(answers)
    }

    /// What is answered once a line is taken.
    fn reply(
        &self,
        alloc: Global,
        number: usize,
        line: &[u8],
        memory: &mut ProblemMemory<H::Memory>,
    ) -> Result<Answers, NoMemory>
        requires { is_blank line.now ≡ false }
        ensures reply { IfOk result (λ answers. IsProblemReply self.now.printing.letters.moves self.now.printing.keep self.now.printing.bound (H.records self.now.handler.now) (H.rows self.now.handler.now)
            number line.now answers.text.items (one_if_any answers.any)) }
        ensures from { IfOk result (λ answers. (letters : LettersValue) (lines own : List (List ℕ)) → IsAt lines own number line.now
            → length line.now ≤ max_line → IsKnown letters own memory.old.reading → IsKnown letters lines memory.new.reading
            × IsAnsweredFrom letters self.now.printing.bound lines (H.records self.now.handler.now) (H.rows self.now.handler.now) answers.text.items) }
    {
        let read = read_line(
            alloc,
            self.printing.rays,
            &self.printing.letters.moves,
            line,
        )?;
        let findings = self
            .long
            .findings(alloc, number, line, read.kind, &mut memory.reading)?;
        let counts = self.counts.get();
        let kept = &mut memory.memory;
        let mut answers = self.found(alloc, line, findings.as_slice(), kept, counts)?;
        let LineKind::Clean = read.kind else {
            return Ok(answers);
        };
        self.push_record(alloc, number, line, read.says, kept, &mut answers)?;
        Ok(answers)
    }

    /// What is answered once the input has ended. What goes from line to line is as before the first line of another then.
    fn last(
        &self,
        alloc: Global,
        memory: &mut ProblemMemory<H::Memory>,
    ) -> Result<Answers, NoMemory>
        ensures { IfOk result (λ answers. IsLast self.now.printing.letters.placements self.now.printing.keep self.now.printing.bound (H.records self.now.handler.now) (H.rows self.now.handler.now) memory.old.reading
            answers.text.items answers.any) }
    {
        let mut findings = Vec::new(alloc);
        memory.reading.finish(alloc, Open::Nothing, &mut findings)?;
        memory.reading = Reading::new(&self.printing.letters);
        self.long.begin();
        self.found(
            alloc,
            b"",
            findings.as_slice(),
            &mut memory.memory,
            self.counts.get(),
        )
    }

    /// Writes what is answered once the input has ended; gives at how many lines, its end for one, a refusal is among it.
    pub fn put_last<O: Write>(
        &self,
        alloc: Global,
        count: usize,
        memory: &mut ProblemMemory<H::Memory>,
        out: &mut O,
    ) -> Result<usize, Stop>
        ensures ok { IfOk result (λ total. IsLastPut self.now.printing.letters.placements self.now.printing.keep self.now.printing.bound (H.records self.now.handler.now) (H.rows self.now.handler.now)
            memory.old.reading count total (O.contents out.old) (O.contents out.new)) }
        ensures err { IfErr result (λ stop. IsLastCut self.now.printing.letters.placements self.now.printing.keep self.now.printing.bound (H.records self.now.handler.now) (H.rows self.now.handler.now)
            memory.old.reading stop (O.contents out.old) (O.contents out.new)) }
        ensures readable { IfErr result (λ stop. stop ≢ Stop.Unreadable) }
    {
        let Ok(last) = self.last(alloc, memory) else {
            return Err(Stop::NoMemory);
        };
        self.counts.set(last.counts);
        let Some(total) = count.checked_add(one_if(last.any)) else {
            return Err(Stop::NoMemory);
        };
        match put(out, last.text.as_slice()) {
            Ok(()) => Ok(total),
            Err(stop) => Err(stop),
        }
    }
}

impl<H: ProblemHandler> LineHandler for ProblemLines<'_, H> {
    ghost use Rattle.std.specs.Prelude.{[], false};
    ghost use Rattle.problem_import.specs.Problems.{IsProblemReply, no_problem, skipped};
    ghost use Rattle.problem_import.specs.inside.Answered.{AnswersBehind, IsReadOf};
    ghost use Rattle.problem_import.specs.Imports.{none as nothing};
    ghost use Rattle.problem_import.specs.inside.KnownSources.{passed_over};

    type Memory = ProblemMemory<H::Memory>;

    ghost replies = { λ lines. IsProblemReply lines.printing.letters.moves lines.printing.keep lines.printing.bound
        (H.records lines.handler.now) (H.rows lines.handler.now) };

    ghost knows = { λ lines memory before. IsReadOf lines.printing.letters.placements memory.reading before };

    ghost follows = { λ lines. AnswersBehind lines.printing.letters.moves lines.printing.letters.placements lines.printing.keep
        lines.printing.bound (H.records lines.handler.now) (H.rows lines.handler.now) };

    ghost room = { λ _. 0 };

    fn answer(
        &self,
        alloc: Global,
        number: usize,
        line: &[u8],
        memory: &mut ProblemMemory<H::Memory>,
    ) -> Result<Output, NoMemory> {
        let answers = self.reply(alloc, number, line, memory)?;
        let counts = answers.counts;
        self.counts.set(if is_aside(line) {
            counts.with_aside(number)
        } else {
            counts
        });
        Ok(answers.output())
    }

    fn refuse_long(&self, alloc: Global, number: usize) -> Result<Output, NoMemory> {
        let mut answers = Answers::new(alloc, self.counts.get());
        if self.long.passes(number) {
            return Ok(answers.output());
        }
        let fault = ImportFault::Record(EpdFault::TooLong);
        self.push_refusal(alloc, number, fault, &mut answers)?;
        self.counts.set(answers.counts);
        Ok(answers.output())
    }

    ghost skips = { λ _ number line blank. skipped blank };

    ghost unmarked = { λ _ _ _ _. tt };

    ghost passes = { λ _ _ before line is known. passed_over before line is known };

    ghost skips_behind = { λ _ _ number line blank. (skipped blank, ([], false, 0, nothing, no_problem)) };
}

/// Answers the problems of an input: to what each line ends is replied before the next is waited for. Gives at how many lines, the end of
/// the input for one, a refusal is among it.
///
/// Where it stops before the end, what some of the first lines are answered is written. No more than a problem is kept in memory.
pub fn answer_problems<H: ProblemHandler, I: Input + Drop, O: Write>(
    alloc: Global,
    lines: &ProblemLines<H>,
    input: I,
    memory: &mut ProblemMemory<H::Memory>,
    out: &mut O,
) -> Result<usize, Stop>
    ensures ok { IfOk result (λ count. (bytes : List ℕ) × (text : List ℕ) × MayBe (I.left input) bytes
        × AnswersOf lines.now.printing.letters lines.now.printing.keep lines.now.printing.bound
        (H.records lines.now.handler.now) (H.rows lines.now.handler.now) bytes text count
        × Appends (O.contents out.old) (O.contents out.new) text) }
    ensures err { IfErr result (λ stop. (bytes : List ℕ) × (text : List ℕ) × MayBe (I.left input) bytes
        × AnswersFirstOf lines.now.printing.letters lines.now.printing.keep lines.now.printing.bound
        (H.records lines.now.handler.now) (H.rows lines.now.handler.now) bytes text
        × AppendsBy stop (O.contents out.old) (O.contents out.new) text) }
    ensures unreadable { IfErr result (λ stop. stop ≡ Stop.Unreadable → I.breaks input) }
{
    memory.begin(&lines.printing.letters);
    match answer_mails_input(
        alloc,
        &lines.printing.letters.placements,
        lines,
        input,
        memory,
        out,
    ) {
        Ok(count) => lines.put_last(alloc, count, memory, out),
        Err(stop) => Err(stop),
    }
}

/// A law: whoever answers, what is answered is answered to what `import` may print.
pub fn answers_are_imports<H: ProblemHandler>()
    ensures { (keep : Bool) (given : Option ℕ) (handler : H) → AnswersImports keep given (H.records handler) (H.rows handler) }
{}
