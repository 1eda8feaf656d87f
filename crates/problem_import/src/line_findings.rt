//! What is found of the lines of an input, one by one.

ghost use Rattle.std.specs.Prelude.{◌≡◌, ◌≤◌, ◌<◌, ◌+◌, ℕ, List, true, false, IfOk, length};
ghost use Rattle.chess_notation.specs.Records.{max_line};
ghost use Rattle.move_words.specs.declared.languages.Letters.{Letters as LettersValue};
ghost use Rattle.problem_import.specs.Imports.{IsRecord};
ghost use Rattle.problem_import.specs.inside.Findings.{AreFoundOf};
ghost use Rattle.problem_import.specs.inside.KnownSources.{AreFrom, IsAt, IsKnown};
ghost use Rattle.problem_import.specs.inside.OpenProblems.{due, has_tags};
ghost use Rattle.problem_import.specs.TagPairs.{is_tag_line};

use crate::changes::{Changes, Form};
use crate::findings::Finding;
use crate::letters::AsciiLine;
use crate::line_kinds::LineKind;
use crate::reading::{Open, Reading};
use crate::texts::trimmed;
use byte_streams::NoMemory;
use std::alloc::Global;
use std::cell::Cell;

/// Which long lines are passed over. A line that is too long is refused without the memory that goes from line to line, so this stands beside it.
#[derive(Drop)]
pub(crate) struct LongLines {
    /// Whether one is, since it is one of a game.
    passes: Cell<bool>,
    /// The number of the last that was, or 0.
    last: Cell<usize>,
}

/// Takes a line: a record ends what is open, and is taken wherever it stands; of a clean one nothing is found.
fn take(
    alloc: Global,
    number: usize,
    line: &[u8],
    kind: LineKind,
    reading: &mut Reading,
    findings: &mut Vec<Finding>,
) -> Result<(), NoMemory>
    requires mended { kind ≡ LineKind.Mendable → IsRecord line.now }
    requires other { kind ≡ LineKind.Other → ¬ (IsRecord line.now) }
    ensures own { IfOk result (λ _. AreFoundOf line.now findings.old.items → AreFoundOf line.now findings.new.items) }
    ensures found { IfOk result (λ _. kind ≡ LineKind.Mendable → 0 < length findings.new.items) }
    ensures kept { IfOk result (λ _. due reading.old.open + length findings.old.items ≤ due reading.new.open + length findings.new.items) }
    ensures more { IfOk result (λ _. kind ≡ LineKind.Other → is_tag_line line.now ≡ true → has_tags reading.old.open ≡ false
        → due reading.old.open + length findings.old.items < due reading.new.open + length findings.new.items) }
    ensures from { IfOk result (λ _. (letters : LettersValue) (lines own : List (List ℕ)) → IsAt lines own number line.now
        → length line.now ≤ max_line → IsKnown letters own reading.old → AreFrom letters lines findings.old.items
        → IsKnown letters lines reading.new × AreFrom letters lines findings.new.items) }
{
    match kind {
        LineKind::Clean => {
            reading.finish(alloc, Open::Nothing, findings)?;
            Ok(())
        }
        LineKind::Mendable => {
            let line = AsciiLine {
                number,
                text: trimmed(line),
                changes: Changes::none(Form::Line),
            };
            reading.take_record(alloc, &line, true, findings)?;
            Ok(())
        }
        LineKind::Other => {
            reading.take_line(alloc, number, line, findings)?;
            Ok(())
        }
    }
}

impl LongLines {
    /// Before the first line of an input.
    pub(crate) fn new() -> LongLines {
        LongLines {
            passes: Cell::new(false),
            last: Cell::new(0),
        }
    }

    /// Begins with the first line of another input.
    pub(crate) fn begin(&self) {
        self.passes.set(false);
        self.last.set(0);
    }

    /// Whether a line that is too long is passed over, since it is one of a game; it is noted then.
    pub(crate) fn passes(&self, number: usize) -> bool {
        let passes = self.passes.get();
        if passes {
            self.last.set(number);
        }
        passes
    }

    /// What was found once a line is taken.
    pub(crate) fn findings(
        &self,
        alloc: Global,
        number: usize,
        line: &[u8],
        kind: LineKind,
        reading: &mut Reading,
    ) -> Result<Vec<Finding>, NoMemory>
        requires mended { kind ≡ LineKind.Mendable → IsRecord line.now }
        requires other { kind ≡ LineKind.Other → ¬ (IsRecord line.now) }
        ensures own { IfOk result (λ findings. AreFoundOf line.now findings.items) }
        ensures found { IfOk result (λ findings. kind ≡ LineKind.Mendable → 0 < length findings.items) }
        ensures kept { IfOk result (λ findings. due reading.old.open ≤ due reading.new.open + length findings.items) }
        ensures more { IfOk result (λ findings. kind ≡ LineKind.Other → is_tag_line line.now ≡ true → has_tags reading.old.open ≡ false
            → due reading.old.open < due reading.new.open + length findings.items) }
        ensures from { IfOk result (λ findings. (letters : LettersValue) (lines own : List (List ℕ)) → IsAt lines own number line.now
            → length line.now ≤ max_line → IsKnown letters own reading.old
            → IsKnown letters lines reading.new × AreFrom letters lines findings.items) }
    {
        let mut findings = Vec::new(alloc);
        reading.note_long(alloc, self.last.get(), &mut findings)?;
        take(alloc, number, line, kind, reading, &mut findings)?;
        self.passes.set(reading.passes());
        Ok(findings)
    }
}
