//! What the lines so far have said of a problem that is open, and what begins and ends one.

ghost use Rattle.std.specs.Prelude.{◌≡◌, ◌≤◌, ◌<◌, ◌+◌, ℕ, List, [], IfOk, length, false, true};
ghost use Rattle.chess_notation.specs.Words.{words_in};
ghost use Rattle.move_words.specs.declared.languages.Letters.{Letters as LettersValue};
ghost use Rattle.problem_import.specs.PopeyeProblems.{said_onto};
ghost use Rattle.problem_import.specs.Sources.{AreUpTo, IsOlives, IsPopeyes};
ghost use Rattle.problem_import.specs.inside.Findings.{AreFoundOf};
ghost use Rattle.problem_import.specs.inside.KnownSources.{AreFrom, Ends, IsHeld, IsKnown, IsTagged, Keeps};
ghost use Rattle.problem_import.specs.inside.OpenProblems.{due, goes_on as does_go_on, has_begun, has_tags};
ghost use Rattle.problem_import.specs.inside.OpenProblems.{in_comment as is_in_comment, is_game, is_olive, is_popeye};

use crate::changes::{Changes, Form};
use crate::findings::{Finding, push_finding};
use crate::finished_problems::found_open;
use crate::games::Game;
use crate::import_letters::ImportLetters;
use crate::letters::AsciiLine;
use crate::movetext::Movetext;
use crate::olive::OliveProblem;
use crate::popeye::PopeyeProblem;
use move_words::Letters;
use std::alloc::{AllocError, Global};

/// What is open between two lines.
#[derive(Drop)]
pub(crate) enum Open {
    Nothing,
    Game(Game),
    Movetext(Movetext),
    Popeye(PopeyeProblem),
    Olive(OliveProblem),
}

/// What goes from line to line: no more than a problem.
#[derive(Drop)]
pub(crate) struct Reading {
    pub(crate) open: Open,
    /// The number of the last line that wasn't blank.
    pub(crate) last: usize,
    /// The letters of men in a placement that a tag says.
    pub(crate) letters: Letters,
    /// Those that figurines stand for.
    pub(crate) figurines: Letters,
}

impl Reading {
    /// Before the first line, where men have such letters.
    pub(crate) fn new(letters: &ImportLetters) -> Reading
        ensures from { IsKnown letters.now.placements [] result }
    {
        Reading {
            open: Open::Nothing,
            last: 0,
            letters: letters.placements,
            figurines: letters.moves,
        }
    }

    /// Whether lines are passed over: those of a game.
    pub(crate) fn passes(&self) -> bool
        ensures { result ≡ is_game self.now.open }
    {
        matches!(&self.open, Open::Game(_) | Open::Movetext(_))
    }

    /// Whether a game is open whose movetext hasn't begun.
    fn has_tags(&self) -> bool
        ensures { result ≡ has_tags self.now.open }
    {
        match &self.open {
            Open::Game(game) => !game.is_begun,
            _ => false,
        }
    }

    /// Whether tag pairs at a line of such a number belong to a game that is open.
    fn goes_on(&self, number: usize) -> bool
        ensures { result ≡ does_go_on self.now.open self.now.last number }
    {
        self.has_tags() && number <= self.last.saturating_add(1)
    }

    /// Whether the movetext of a game has begun.
    fn has_begun(&self) -> bool
        ensures { result ≡ has_begun self.now.open }
    {
        match &self.open {
            Open::Game(game) => game.is_begun,
            Open::Movetext(_) => true,
            Open::Nothing | Open::Popeye(_) | Open::Olive(_) => false,
        }
    }

    /// Whether a comment is open in movetext.
    pub(crate) fn in_comment(&self) -> bool
        ensures { result ≡ is_in_comment self.now.open }
    {
        match &self.open {
            Open::Game(game) => game.in_comment,
            Open::Movetext(movetext) => movetext.in_comment,
            Open::Nothing | Open::Popeye(_) | Open::Olive(_) => false,
        }
    }

    /// Whether a problem for Popeye is open.
    pub(crate) fn is_popeyes(&self) -> bool
        ensures { result ≡ is_popeye self.now.open }
    {
        matches!(&self.open, Open::Popeye(_))
    }

    /// Whether a problem of Olive's is open.
    pub(crate) fn is_olives(&self) -> bool
        ensures { result ≡ is_olive self.now.open }
    {
        matches!(&self.open, Open::Olive(_))
    }

    /// Ends what is open; this is open then.
    pub(crate) fn finish(
        &mut self,
        alloc: Global,
        next: Open,
        findings: &mut Vec<Finding>,
    ) -> Result<(), AllocError>
        ensures found { IfOk result (λ _. length findings.new.items ≡ due self.old.open + length findings.old.items) }
        ensures own { IfOk result (λ _. (line : List ℕ) → AreFoundOf line findings.old.items → AreFoundOf line findings.new.items) }
        ensures next { self.new.open ≡ next }
        ensures letters { self.new.letters ≡ self.old.letters }
        ensures last { self.new.last ≡ self.old.last }
        ensures from { IfOk result (λ _. (letters : LettersValue) (lines own : List (List ℕ))
            → Ends letters lines own self.old.open findings.old.items findings.new.items) }
    {
        let open = std::mem::replace(&mut self.open, next);
        let Some(finding) = found_open(alloc, open)? else {
            return Ok(());
        };
        push_finding(findings, finding)?;
        Ok(())
    }

    /// Ends a game whose movetext has begun at an empty line before a line of such a number.
    pub(crate) fn end_movetext(
        &mut self,
        alloc: Global,
        number: usize,
        findings: &mut Vec<Finding>,
    ) -> Result<(), AllocError>
        ensures kept { IfOk result (λ _. due self.old.open + length findings.old.items ≤ due self.new.open + length findings.new.items) }
        ensures own { IfOk result (λ _. (line : List ℕ) → AreFoundOf line findings.old.items → AreFoundOf line findings.new.items) }
        ensures tags { IfOk result (λ _. does_go_on self.old.open self.old.last number ≡ false
            → does_go_on self.new.open self.new.last number ≡ false) }
        ensures from { IfOk result (λ _. Keeps self.old self.new findings.old.items findings.new.items) }
        ensures goes_on { IfOk result (λ _. has_begun self.new.open ≡ true → number ≤ self.new.last + 1) }
    {
        if !self.has_begun() || number <= self.last.saturating_add(1) {
            return Ok(());
        }
        self.finish(alloc, Open::Nothing, findings)?;
        Ok(())
    }

    /// Notes that a long line was passed over, the last of them by this number.
    pub(crate) fn note_long(
        &mut self,
        alloc: Global,
        number: usize,
        findings: &mut Vec<Finding>,
    ) -> Result<(), AllocError>
        ensures kept { IfOk result (λ _. due self.old.open + length findings.old.items ≤ due self.new.open + length findings.new.items) }
        ensures own { IfOk result (λ _. (line : List ℕ) → AreFoundOf line findings.old.items → AreFoundOf line findings.new.items) }
        ensures tags { IfOk result (λ _. has_tags self.old.open ≡ false → has_tags self.new.open ≡ false) }
        ensures from { IfOk result (λ _. Keeps self.old self.new findings.old.items findings.new.items) }
    {
        if number <= self.last || !self.passes() {
            return Ok(());
        }
        let movetext = Movetext { in_comment: false };
        self.finish(alloc, Open::Movetext(movetext), findings)?;
        self.last = number;
        Ok(())
    }

    /// Opens a game, unless one goes on.
    pub(crate) fn open_game(
        &mut self,
        alloc: Global,
        line: &AsciiLine<'_>,
        findings: &mut Vec<Finding>,
    ) -> Result<(), AllocError>
        ensures kept { IfOk result (λ _. due self.old.open + length findings.old.items ≤ due self.new.open + length findings.new.items) }
        ensures own { IfOk result (λ _. (line : List ℕ) → AreFoundOf line findings.old.items → AreFoundOf line findings.new.items) }
        ensures more { IfOk result (λ _. does_go_on self.old.open self.old.last line.now.number ≡ false
            → due self.old.open + length findings.old.items < due self.new.open + length findings.new.items) }
        ensures letters { self.new.letters ≡ self.old.letters }
        ensures from { IfOk result (λ _. (letters : LettersValue) (lines own : List (List ℕ)) → AreUpTo lines own → length own + 1 ≡ line.now.number
            → IsKnown letters own self.old → AreFrom letters lines findings.old.items
            → IsTagged letters own self.new.open × AreFrom letters lines findings.new.items) }
    {
        if self.goes_on(line.number) {
            return Ok(());
        }
        let game = Game::new(alloc, line.number, line.changes.of(Form::Game));
        self.finish(alloc, Open::Game(game), findings)?;
        Ok(())
    }

    /// Begins a problem for Popeye behind its first word.
    pub(crate) fn begin_popeye(
        &mut self,
        alloc: Global,
        behind: &AsciiLine<'_>,
        findings: &mut Vec<Finding>,
    ) -> Result<(), AllocError>
        ensures more { IfOk result (λ _. due self.old.open + length findings.old.items < due self.new.open + length findings.new.items) }
        ensures own { IfOk result (λ _. (line : List ℕ) → AreFoundOf line findings.old.items → AreFoundOf line findings.new.items) }
        ensures from { IfOk result (λ _. (letters : LettersValue) (lines own : List (List ℕ)) → AreUpTo lines own → IsHeld letters own self.old
            → IsPopeyes lines (said_onto (words_in behind.now.text.now) []) → AreFrom letters lines findings.old.items
            → IsHeld letters lines self.new × AreFrom letters lines findings.new.items) }
    {
        let problem = PopeyeProblem::new(alloc, behind.number, Changes::none(Form::Popeye));
        self.finish(alloc, Open::Popeye(problem), findings)?;
        self.take_popeye(alloc, behind, findings)?;
        Ok(())
    }

    /// Begins a problem of Olive's behind its first line.
    pub(crate) fn begin_olive(
        &mut self,
        alloc: Global,
        number: usize,
        findings: &mut Vec<Finding>,
    ) -> Result<(), AllocError>
        ensures more { IfOk result (λ _. due self.old.open + length findings.old.items < due self.new.open + length findings.new.items) }
        ensures own { IfOk result (λ _. (line : List ℕ) → AreFoundOf line findings.old.items → AreFoundOf line findings.new.items) }
        ensures from { IfOk result (λ _. (letters : LettersValue) (lines own : List (List ℕ)) → AreUpTo lines own → IsHeld letters own self.old
            → IsOlives lines [] → AreFrom letters lines findings.old.items
            → IsHeld letters lines self.new × AreFrom letters lines findings.new.items) }
    {
        let problem = OliveProblem::new(alloc, number, Changes::none(Form::Popeye));
        self.finish(alloc, Open::Olive(problem), findings)?;
        Ok(())
    }
}
