//! The forms told apart, line by line: a line goes on with the problem that is open, or begins one, or is one by itself.

ghost use Rattle.std.specs.Prelude.{◌≡◌, ◌≤◌, ◌<◌, ◌+◌, ◌∷◌, ◌++◌, ℕ, List, [], IfOk, length, false, true};
ghost use Rattle.chess_board.specs.Characters.{char};
ghost use Rattle.chess_notation.specs.Records.{max_line};
ghost use Rattle.chess_notation.specs.Words.{words_in};
ghost use Rattle.move_words.specs.declared.languages.Letters.{Letters as LettersValue};
ghost use Rattle.problem_import.specs.Imports.{IsRecord};
ghost use Rattle.problem_import.specs.Letters.{IsTextOf};
ghost use Rattle.problem_import.specs.PopeyeProblems.{said_onto};
ghost use Rattle.problem_import.specs.Sources.{IsPopeyes, Says, begins_problem, is_apart as is_text_apart, is_remark as is_remark_text};
ghost use Rattle.problem_import.specs.TagPairs.{begins_with as begins_with_byte, is_tag_line, is_tag_pair as is_tag_pair_text};
ghost use Rattle.problem_import.specs.inside.Findings.{AreFoundOf, IsRecordIf};
ghost use Rattle.problem_import.specs.inside.KnownSources.{AreFrom, IsAt, IsHeld, IsKnown, IsMoved, IsOpenFrom, IsTagRead, IsWorded, Takes, TakesOn};
ghost use Rattle.problem_import.specs.inside.OpenProblems.{due, goes_on as does_go_on, has_begun, is_olive};

use crate::changes::{Changes, Form};
use crate::fields::{has_foreign_placement, has_placement, is_placement};
use crate::findings::{Finding, Found, push_finding};
use crate::finished_problems::found_line;
use crate::import_faults::ImportFault;
use crate::letters::{AsciiLine, ascii_text};
use crate::movetext::Movetext;
use crate::olive::is_border;
use crate::popeye::{Ending, PopeyeProblem};
use crate::popeye_words::is_begin;
use crate::reading::{Open, Reading};
use crate::tag_pairs::{begins_with, is_tag_pair};
use crate::texts::{are_digits, trimmed};
use chess_board::FenFault;
use chess_notation::{EpdFault, word_at};
use std::alloc::{AllocError, Global};

/// Whether a text begins with a placement, as far as can be seen: its first word has three strokes.
fn begins_with_placement(text: &[u8]) -> bool {
    let mut strokes = 0_usize;
    for byte in word_at(text).0 {
        if *byte == b'/' {
            strokes = strokes.saturating_add(1);
        }
    }
    strokes >= 3
}

/// Whether a text begins with a placement and the side to move.
fn begins_with_position(text: &[u8]) -> bool {
    let (placement, behind) = word_at(text);
    is_placement(placement) && matches!(word_at(behind).0, b"w" | b"b")
}

/// Whether a text begins with a placement behind a number in brackets, as in a list: `[1] 8/..`.
fn is_numbered(text: &[u8]) -> bool {
    let (number, rest) = word_at(text);
    match number {
        [b'[', digits @ .., b']'] => are_digits(digits) && is_placement(word_at(rest).0),
        _ => false,
    }
}

/// Whether a text is empty, or begins with a space.
fn is_apart(text: &[u8]) -> bool
    ensures { result ≡ is_text_apart text.now }
{
    match text {
        [first, ..] => *first == b' ',
        [] => true,
    }
}

/// Whether a line is dropped: what is behind such a sign is no problem.
fn is_remark(text: &[u8]) -> bool
    ensures { result ≡ is_remark_text text.now }
{
    match text {
        [b'#', behind @ ..] => is_apart(behind),
        [first, ..] => *first == b'%' || *first == b';',
        [] => false,
    }
}

/// Whether a line was put aside, as a remark, and has a placement.
pub(crate) fn is_aside(line: &[u8]) -> bool {
    let text = line.trim_ascii();
    is_remark(text) && has_placement(text)
}

impl Reading {
    /// Takes tag pairs; gives what stands behind them.
    fn take_tags<'t>(
        &mut self,
        alloc: Global,
        line: &AsciiLine<'t>,
        findings: &mut Vec<Finding>,
    ) -> Result<&'t [u8], AllocError>
        requires { begins_with_byte (char "[") line.now.text.now ≡ true }
        ensures kept { IfOk result (λ _. due self.old.open + length findings.old.items ≤ due self.new.open + length findings.new.items) }
        ensures own { IfOk result (λ _. (line : List ℕ) → AreFoundOf line findings.old.items → AreFoundOf line findings.new.items) }
        ensures more { IfOk result (λ _. does_go_on self.old.open self.old.last line.now.number ≡ false
            → due self.old.open + length findings.old.items < due self.new.open + length findings.new.items) }
        ensures letters { self.new.letters ≡ self.old.letters }
        ensures from { IfOk result (λ rest. (letters : LettersValue) (lines own : List (List ℕ)) (whole : List ℕ)
            → IsAt lines own line.now.number whole → Says whole line.now.text.now → IsKnown letters own self.old
            → AreFrom letters lines findings.old.items → IsTagRead letters lines rest.now self.new.open × AreFrom letters lines findings.new.items) }
    {
        self.open_game(alloc, line, findings)?;
        match &mut self.open {
            Open::Game(game) => {
                game.changes = game.changes.and(line.changes);
                let rest = game.take_line(alloc, &self.letters, line.text)?;
                Ok(rest)
            }
            _ => Ok(&[]),
        }
    }

    /// Takes a line of a problem for Popeye.
    pub(crate) fn take_popeye(
        &mut self,
        alloc: Global,
        line: &AsciiLine<'_>,
        findings: &mut Vec<Finding>,
    ) -> Result<(), AllocError>
        ensures kept { IfOk result (λ _. due self.old.open + length findings.old.items ≤ due self.new.open + length findings.new.items) }
        ensures own { IfOk result (λ _. (line : List ℕ) → AreFoundOf line findings.old.items → AreFoundOf line findings.new.items) }
        ensures from { IfOk result (λ _. (letters : LettersValue) (lines words : List (List ℕ)) → self.old.letters ≡ letters
            → IsWorded words self.old.open → IsPopeyes lines (said_onto (words_in line.now.text.now) words) → AreFrom letters lines findings.old.items
            → IsHeld letters lines self.new × AreFrom letters lines findings.new.items) }
    {
        let Open::Popeye(problem) = &mut self.open else {
            return Ok(());
        };
        problem.changes = problem.changes.and(line.changes);
        match problem.take_line(line.text)? {
            Ending::Open => Ok(()),
            Ending::Ended => self.finish(alloc, Open::Nothing, findings),
            Ending::Next => {
                let changes = Changes::none(Form::Popeye);
                let next = PopeyeProblem::new(alloc, line.number, changes);
                self.finish(alloc, Open::Popeye(next), findings)
            }
        }
    }

    /// Takes a line of a problem of Olive's.
    fn take_olive(
        &mut self,
        alloc: Global,
        line: &AsciiLine<'_>,
        findings: &mut Vec<Finding>,
    ) -> Result<(), AllocError>
        requires olive { is_olive self.now.open ≡ true }
        requires plain { is_remark_text line.now.text.now ≡ false }
        requires other { begins_problem line.now.text.now ≡ false }
        ensures kept { IfOk result (λ _. due self.old.open + length findings.old.items ≤ due self.new.open + length findings.new.items) }
        ensures own { IfOk result (λ _. (line : List ℕ) → AreFoundOf line findings.old.items → AreFoundOf line findings.new.items) }
        ensures from { IfOk result (λ _. TakesOn line.now.text.now self.old self.new findings.old.items findings.new.items) }
    {
        let Open::Olive(problem) = &mut self.open else {
            return Ok(());
        };
        problem.changes = problem.changes.and(line.changes);
        if !problem.take_line(alloc, line.text)? {
            return Ok(());
        }
        self.finish(alloc, Open::Nothing, findings)?;
        Ok(())
    }

    /// Takes a line of movetext up to the first move of the game that is open, which ends it.
    fn take_moves(
        &mut self,
        alloc: Global,
        line: &[u8],
        findings: &mut Vec<Finding>,
    ) -> Result<(), AllocError>
        ensures kept { IfOk result (λ _. due self.old.open + length findings.old.items ≤ due self.new.open + length findings.new.items) }
        ensures own { IfOk result (λ _. (line : List ℕ) → AreFoundOf line findings.old.items → AreFoundOf line findings.new.items) }
        ensures letters { self.new.letters ≡ self.old.letters }
        ensures from { IfOk result (λ _. (letters : LettersValue) (lines : List (List ℕ)) → IsMoved letters lines line.now self.old.open
            → AreFrom letters lines findings.old.items → IsOpenFrom letters lines self.new.open × AreFrom letters lines findings.new.items) }
    {
        let Open::Game(game) = &mut self.open else {
            return Ok(());
        };
        game.take_moves(line)?;
        if !game.is_over {
            return Ok(());
        }
        let passed = Open::Movetext(Movetext {
            in_comment: game.in_comment,
        });
        self.finish(alloc, passed, findings)?;
        Ok(())
    }

    /// Passes over a line of movetext.
    fn pass(&mut self, line: &[u8])
        ensures due { due self.new.open ≡ due self.old.open }
        ensures letters { self.new.letters ≡ self.old.letters }
        ensures from { (letters : LettersValue) (lines : List (List ℕ)) → IsOpenFrom letters lines self.old.open
            → IsOpenFrom letters lines self.new.open }
    {
        let Open::Movetext(movetext) = &mut self.open else {
            return;
        };
        if movetext.pass(line) {
            self.open = Open::Nothing;
        }
    }

    /// Takes a line of a game behind its tag pairs.
    fn take_movetext(
        &mut self,
        alloc: Global,
        line: &[u8],
        findings: &mut Vec<Finding>,
    ) -> Result<(), AllocError>
        ensures kept { IfOk result (λ _. due self.old.open + length findings.old.items ≤ due self.new.open + length findings.new.items) }
        ensures own { IfOk result (λ _. (line : List ℕ) → AreFoundOf line findings.old.items → AreFoundOf line findings.new.items) }
        ensures letters { self.new.letters ≡ self.old.letters }
        ensures from { IfOk result (λ _. (letters : LettersValue) (lines : List (List ℕ)) → IsMoved letters lines line.now self.old.open
            → AreFrom letters lines findings.old.items → IsOpenFrom letters lines self.new.open × AreFrom letters lines findings.new.items) }
    {
        self.take_moves(alloc, line, findings)?;
        self.pass(line);
        Ok(())
    }

    /// Takes a line in printable ASCII as a record that may want mending, and may be one as it stands.
    pub(crate) fn take_record(
        &mut self,
        alloc: Global,
        line: &AsciiLine<'_>,
        is_record: bool,
        findings: &mut Vec<Finding>,
    ) -> Result<(), AllocError>
        ensures found { IfOk result (λ _. length findings.new.items ≡ due self.old.open + length findings.old.items + 1) }
        ensures own { IfOk result (λ _. (whole : List ℕ) → IsTextOf whole line.now.text.now → IsRecordIf is_record whole
            → AreFoundOf whole findings.old.items → AreFoundOf whole findings.new.items) }
        ensures ended { IfOk result (λ _. self.new.open ≡ Open.Nothing) }
        ensures letters { self.new.letters ≡ self.old.letters }
        ensures from { IfOk result (λ _. (letters : LettersValue) (lines own : List (List ℕ)) (whole : List ℕ) → lines ≡ own ++ whole ∷ []
            → IsTextOf whole line.now.text.now → IsRecordIf is_record whole
            → IsOpenFrom letters own self.old.open → AreFrom letters lines findings.old.items → AreFrom letters lines findings.new.items) }
    {
        self.finish(alloc, Open::Nothing, findings)?;
        let found = found_line(alloc, line, is_record)?;
        let number = line.number;
        push_finding(findings, Finding { number, found })?;
        Ok(())
    }

    /// Refuses a line whose placement can't be read, which ends what is open.
    fn take_fault(
        &mut self,
        alloc: Global,
        number: usize,
        findings: &mut Vec<Finding>,
    ) -> Result<(), AllocError>
        ensures found { IfOk result (λ _. length findings.new.items ≡ due self.old.open + length findings.old.items + 1) }
        ensures own { IfOk result (λ _. (whole : List ℕ) → AreFoundOf whole findings.old.items → AreFoundOf whole findings.new.items) }
        ensures ended { IfOk result (λ _. self.new.open ≡ Open.Nothing) }
        ensures letters { self.new.letters ≡ self.old.letters }
        ensures from { IfOk result (λ _. (letters : LettersValue) (lines own : List (List ℕ)) (whole : List ℕ) → lines ≡ own ++ whole ∷ []
            → IsOpenFrom letters own self.old.open → AreFrom letters lines findings.old.items → AreFrom letters lines findings.new.items) }
    {
        self.finish(alloc, Open::Nothing, findings)?;
        let fault = ImportFault::Record(EpdFault::Fen(FenFault::BadPlacement));
        let found = Found::Fault(fault);
        push_finding(findings, Finding { number, found })?;
        Ok(())
    }

    /// Takes a line that is no tag pair of a game.
    fn take_untagged(
        &mut self,
        alloc: Global,
        line: &AsciiLine<'_>,
        findings: &mut Vec<Finding>,
    ) -> Result<(), AllocError>
        requires plain { is_remark_text line.now.text.now ≡ false }
        requires tag { is_tag_pair_text line.now.text.now ≡ false }
        requires goes_on { has_begun self.now.open ≡ true → line.now.number ≤ self.now.last + 1 }
        requires bracket { is_olive self.now.open ≡ false → begins_with_byte (char "[") line.now.text.now ≡ false }
        ensures kept { IfOk result (λ _. due self.old.open + length findings.old.items ≤ due self.new.open + length findings.new.items) }
        ensures own { IfOk result (λ _. (whole : List ℕ) → IsTextOf whole line.now.text.now → ¬ (IsRecord whole)
            → AreFoundOf whole findings.old.items → AreFoundOf whole findings.new.items) }
        ensures from { IfOk result (λ _. Takes line.now.number line.now.text.now self.old self.new findings.old.items findings.new.items) }
    {
        if is_border(line.text) {
            self.begin_olive(alloc, line.number, findings)?;
            return Ok(());
        }
        let (first, behind) = word_at(line.text);
        if is_begin(first) {
            let behind = AsciiLine {
                text: behind,
                ..*line
            };
            self.begin_popeye(alloc, &behind, findings)?;
            return Ok(());
        }
        if self.is_olives() && !is_placement(first) {
            self.take_olive(alloc, line, findings)?;
            return Ok(());
        }
        if self.is_popeyes() {
            self.take_popeye(alloc, line, findings)?;
            return Ok(());
        }
        if self.passes() && !begins_with_placement(line.text) {
            self.take_movetext(alloc, line.text, findings)?;
            return Ok(());
        }
        self.take_record(alloc, line, false, findings)?;
        Ok(())
    }

    /// Takes a line of tag pairs, and what stands behind them.
    fn take_game(
        &mut self,
        alloc: Global,
        line: &AsciiLine<'_>,
        findings: &mut Vec<Finding>,
    ) -> Result<(), AllocError>
        requires { begins_with_byte (char "[") line.now.text.now ≡ true }
        ensures kept { IfOk result (λ _. due self.old.open + length findings.old.items ≤ due self.new.open + length findings.new.items) }
        ensures own { IfOk result (λ _. (line : List ℕ) → AreFoundOf line findings.old.items → AreFoundOf line findings.new.items) }
        ensures more { IfOk result (λ _. does_go_on self.old.open self.old.last line.now.number ≡ false
            → due self.old.open + length findings.old.items < due self.new.open + length findings.new.items) }
        ensures from { IfOk result (λ _. Takes line.now.number line.now.text.now self.old self.new findings.old.items findings.new.items) }
    {
        let rest = self.take_tags(alloc, line, findings)?;
        if rest.is_empty() {
            return Ok(());
        }
        self.take_movetext(alloc, rest, findings)?;
        Ok(())
    }

    /// Takes a line that isn't within a comment.
    fn take_problem_line(
        &mut self,
        alloc: Global,
        line: &AsciiLine<'_>,
        findings: &mut Vec<Finding>,
    ) -> Result<(), AllocError>
        requires { has_begun self.now.open ≡ true → line.now.number ≤ self.now.last + 1 }
        ensures kept { IfOk result (λ _. due self.old.open + length findings.old.items ≤ due self.new.open + length findings.new.items) }
        ensures own { IfOk result (λ _. (whole : List ℕ) → IsTextOf whole line.now.text.now → ¬ (IsRecord whole)
            → AreFoundOf whole findings.old.items → AreFoundOf whole findings.new.items) }
        ensures more { IfOk result (λ _. is_tag_pair_text line.now.text.now ≡ true → does_go_on self.old.open self.old.last line.now.number ≡ false
            → due self.old.open + length findings.old.items < due self.new.open + length findings.new.items) }
        ensures from { IfOk result (λ _. Takes line.now.number line.now.text.now self.old self.new findings.old.items findings.new.items) }
    {
        if is_numbered(line.text) && !is_tag_pair(line.text) {
            return self.take_record(alloc, line, false, findings);
        }
        if begins_with(b'[', line.text) && (is_tag_pair(line.text) || !self.is_olives()) {
            return self.take_game(alloc, line, findings);
        }
        if is_remark(line.text) {
            return Ok(());
        }
        self.take_untagged(alloc, line, findings)
    }

    /// Takes a line that isn't empty. One that is a tag pair, or begins with a position, isn't passed over where a comment is open, so that
    /// no problem disappears in a comment that nobody ended.
    fn take_text(
        &mut self,
        alloc: Global,
        line: &AsciiLine<'_>,
        findings: &mut Vec<Finding>,
    ) -> Result<(), AllocError>
        ensures kept { IfOk result (λ _. due self.old.open + length findings.old.items ≤ due self.new.open + length findings.new.items) }
        ensures own { IfOk result (λ _. (whole : List ℕ) → IsTextOf whole line.now.text.now → ¬ (IsRecord whole)
            → AreFoundOf whole findings.old.items → AreFoundOf whole findings.new.items) }
        ensures more { IfOk result (λ _. is_tag_pair_text line.now.text.now ≡ true → does_go_on self.old.open self.old.last line.now.number ≡ false
            → due self.old.open + length findings.old.items < due self.new.open + length findings.new.items) }
        ensures from { IfOk result (λ _. Takes line.now.number line.now.text.now self.old self.new findings.old.items findings.new.items) }
    {
        if self.in_comment() && !is_tag_pair(line.text) && !begins_with_position(line.text) {
            return self.take_movetext(alloc, line.text, findings);
        }
        self.end_movetext(alloc, line.number, findings)?;
        self.take_problem_line(alloc, line, findings)
    }

    /// Takes a line that isn't of spaces alone, by its number; what it ends or says is found.
    pub(crate) fn take_line(
        &mut self,
        alloc: Global,
        number: usize,
        line: &[u8],
        findings: &mut Vec<Finding>,
    ) -> Result<(), AllocError>
        ensures kept { IfOk result (λ _. due self.old.open + length findings.old.items ≤ due self.new.open + length findings.new.items) }
        ensures own { IfOk result (λ _. ¬ (IsRecord line.now) → AreFoundOf line.now findings.old.items
            → AreFoundOf line.now findings.new.items) }
        ensures more { IfOk result (λ _. is_tag_line line.now ≡ true → does_go_on self.old.open self.old.last number ≡ false
            → due self.old.open + length findings.old.items < due self.new.open + length findings.new.items) }
        ensures from { IfOk result (λ _. (letters : LettersValue) (lines own : List (List ℕ)) → IsAt lines own number line.now
            → length line.now ≤ max_line → ¬ (IsRecord line.now) → IsKnown letters own self.old → AreFrom letters lines findings.old.items
            → IsKnown letters lines self.new × AreFrom letters lines findings.new.items) }
    {
        if has_foreign_placement(line) {
            self.take_fault(alloc, number, findings)?;
            self.last = number;
            return Ok(());
        }
        let mut changes = Changes::none(Form::Line);
        let text = ascii_text(alloc, &self.figurines, line, &mut changes)?;
        let text = trimmed(text.as_slice());
        if text.is_empty() {
            return Ok(());
        }
        let line = AsciiLine {
            number,
            text,
            changes,
        };
        self.take_text(alloc, &line, findings)?;
        self.last = number;
        Ok(())
    }
}
