//! A problem in Popeye's input.

ghost use Rattle.std.specs.Prelude.{◌≡◌, ◌∷◌, [], ℕ, List, IfOk, false};
ghost use Rattle.chess_notation.specs.Words.{words_in};
ghost use Rattle.problem_import.specs.PopeyeProblems.{asked_in, command_of as command_of_word, ends_line as does_end_line, is_men as are_men};
ghost use Rattle.problem_import.specs.PopeyeProblems.{man_on, said_onto};
ghost use Rattle.problem_import.specs.inside.ReadProblems.{EndsBy, IsAwaitedBehind, IsEnding, IsNoted, IsRead, KeepsSaid, SetsUp, TakesCommand, TakesWord};
ghost use Rattle.stipulations.specs.declared.asked.Asked.TheVariants.{Moves};

use crate::changes::Changes;
use crate::diagrams::{BAD_PLACEMENT, Diagram, is_men};
use crate::import_faults::ImportFault;
use crate::lengths::moves_signed;
use crate::operations::{push_id, push_id_operation};
use crate::popeye_words::{
    Command, begins_next, colour_of, command_of, ends_line, is_harmless_option,
};
use crate::texts::{are_digits, trimmed};
use chess_board::Colour;
use chess_notation::{is_blank, word_at};
use std::alloc::{AllocError, Global};

/// What the next word is for.
#[derive(Clone, Copy)]
enum Expected {
    Command,
    Stipulation,
    Forsyth,
    Man,
    Option,
    Condition,
}

/// What becomes of a problem behind a line.
#[derive(Clone, Copy)]
pub(crate) enum Ending {
    Open,
    Ended,
    /// Ended, and the next begins.
    Next,
}

/// What a problem said so far, and the number of its first line.
#[derive(Drop)]
pub(crate) struct PopeyeProblem {
    pub(crate) number: usize,
    pub(crate) changes: Changes,
    /// The first thing for which it can't be read.
    pub(crate) fault: Option<ImportFault>,
    expected: Expected,
    /// The colour of men, where these are expected.
    colour: Option<Colour>,
    bound: Option<u8>,
    id: Vec<u8>,
    diagram: Diagram,
}

/// What is awaited behind a command.
fn awaited_behind(command: Command) -> Expected
    ensures { IsAwaitedBehind command result }
{
    match command {
        Command::Stipulation => Expected::Stipulation,
        Command::Forsyth => Expected::Forsyth,
        Command::Pieces => Expected::Man,
        Command::Options => Expected::Option,
        Command::Conditions => Expected::Condition,
        _ => Expected::Command,
    }
}

/// What becomes of a problem behind a word with which its line ends.
fn ending_of(word: &[u8]) -> Ending
    ensures { EndsBy word.now result }
{
    match command_of(word) {
        Some(Command::End) if begins_next(word) => Ending::Next,
        Some(Command::End) => Ending::Ended,
        _ => Ending::Open,
    }
}

impl PopeyeProblem {
    /// Behind its first word.
    pub(crate) fn new(alloc: Global, number: usize, changes: Changes) -> PopeyeProblem
        ensures { IsRead [] result }
    {
        PopeyeProblem {
            number,
            changes,
            fault: None,
            expected: Expected::Command,
            colour: None,
            bound: None,
            id: Vec::new(alloc),
            diagram: Diagram::new(),
        }
    }

    /// Keeps a fault, unless there is an earlier one.
    fn note(&mut self, fault: ImportFault)
        ensures { IsNoted self.new.fault }
    {
        if self.fault.is_none() {
            self.fault = Some(fault);
        }
    }

    /// Takes the word behind `Stipulation`.
    fn take_stipulation(&mut self, word: &[u8])
        requires { self.now.expected ≡ Expected.Stipulation }
        ensures { TakesWord word.now self.old self.new }
    {
        self.expected = Expected::Command;
        match moves_signed(word) {
            Some(moves) if self.bound.is_none() => self.bound = Some(moves),
            _ => self.note(ImportFault::BadStipulation),
        }
    }

    /// Takes the word behind `Forsyth`.
    fn take_forsyth(&mut self, word: &[u8])
        requires { self.now.expected ≡ Expected.Forsyth }
        ensures { TakesWord word.now self.old self.new }
    {
        self.expected = Expected::Command;
        if let Err(fault) = self.diagram.put_forsyth(word) {
            self.note(fault);
        }
    }

    /// Takes a word behind `Pieces` that says men on squares.
    fn take_men(&mut self, word: &[u8])
        requires { self.now.expected ≡ Expected.Man }
        ensures { TakesWord word.now self.old self.new }
    {
        let Some(colour) = self.colour else {
            self.note(ImportFault::FairyPiece);
            return;
        };
        if let Err(fault) = self.diagram.put_word(word, colour) {
            self.note(fault);
        }
    }

    /// Takes a word behind `Pieces` that is to name a colour.
    fn take_colour(&mut self, word: &[u8])
        requires awaited { self.now.expected ≡ Expected.Man }
        requires other { are_men word.now ≡ false }
        ensures { TakesWord word.now self.old self.new }
    {
        self.colour = colour_of(word);
        if self.colour.is_none() {
            self.note(ImportFault::FairyPiece);
        }
    }

    /// Takes a word that is no command.
    fn take_other(&mut self, word: &[u8])
        ensures { TakesWord word.now self.old self.new }
    {
        match self.expected {
            Expected::Stipulation => self.take_stipulation(word),
            Expected::Forsyth => self.take_forsyth(word),
            Expected::Man if is_men(word) => self.take_men(word),
            Expected::Man => self.take_colour(word),
            Expected::Option if is_harmless_option(word) || are_digits(word) => {}
            Expected::Condition => self.note(ImportFault::FairyCondition),
            _ => self.note(ImportFault::UnknownCommand),
        }
    }

    /// Does what a command says beside what it lets be awaited.
    fn obey(&mut self, command: Command, behind: &[u8]) -> Result<(), AllocError>
        ensures { IfOk result (λ _. KeepsSaid self.old self.new) }
    {
        match command {
            Command::Text => {
                push_id(&mut self.id, trimmed(behind), &mut self.changes)?;
                Ok(())
            }
            Command::Conditions => {
                self.note(ImportFault::FairyCondition);
                Ok(())
            }
            Command::Begin => {
                self.note(ImportFault::UnknownCommand);
                Ok(())
            }
            _ => Ok(()),
        }
    }

    /// Takes a command, and what stands behind it on the line.
    fn take_command(
        &mut self,
        command: Command,
        word: &[u8],
        behind: &[u8],
    ) -> Result<(), AllocError>
        ensures { IfOk result (λ _. TakesCommand command word.now self.old self.new) }
    {
        self.expected = awaited_behind(command);
        self.colour = None;
        self.obey(command, behind)?;
        Ok(())
    }

    /// Takes a word; gives whether nothing behind it on the line counts.
    fn take_word(&mut self, word: &[u8], behind: &[u8]) -> Result<bool, AllocError>
        ensures ends { IfOk result (λ ends. ends ≡ does_end_line (command_of_word word.now)) }
        ensures read { IfOk result (λ _. (words : List (List ℕ)) → IsRead words self.old → IsRead (word.now ∷ words) self.new) }
    {
        let Some(command) = command_of(word) else {
            self.take_other(word);
            return Ok(false);
        };
        self.take_command(command, word, behind)?;
        Ok(ends_line(command))
    }

    /// Takes a line, up to the end of the problem; gives what becomes of that.
    #[tactic(auto, using(chess_notation::proofs::WordLists::behind_shorter))]
    pub(crate) fn take_line(&mut self, line: &[u8]) -> Result<Ending, AllocError>
        ensures read { IfOk result (λ _. (words : List (List ℕ)) → IsRead words self.old → IsRead (said_onto (words_in line.now) words) self.new) }
        ensures ends { IfOk result (IsEnding line.now) }
    {
        let mut rest = line;
        while !is_blank(rest) {
            let (word, behind) = word_at(rest);
            if self.take_word(word, behind)? {
                return Ok(ending_of(word));
            }
            rest = behind;
        }
        Ok(Ending::Open)
    }

    /// What is made of the problem: White moves, and castling is allowed where king and rook stand at home.
    fn text(&self, alloc: Global, moves: u8) -> Result<Vec<u8>, AllocError> {
        let mut text = Vec::new(alloc);
        self.diagram.push_problem(&mut text, moves)?;
        push_id_operation(&mut text, self.id.as_slice())?;
        Ok(text)
    }

    /// The same, read as a record, and how many moves it asks; or why it can't be read.
    pub(crate) fn made(
        &self,
        alloc: Global,
    ) -> Result<Result<(Vec<u8>, u8), ImportFault>, AllocError>
        ensures { IfOk result (λ made. IfOk made (λ it. (words : List (List ℕ)) → IsRead words self.now
            → SetsUp (man_on words) it.0.items × (asked_in words ≡ Moves it.1))) }
    {
        if let Some(fault) = self.fault {
            return Ok(Err(fault));
        }
        let Some(moves) = self.bound else {
            return Ok(Err(ImportFault::BadStipulation));
        };
        let text = self.text(alloc, moves)?;
        if !self.diagram.is_said_by(text.as_slice()) {
            return Ok(Err(BAD_PLACEMENT));
        }
        Ok(Ok((text, moves)))
    }
}
