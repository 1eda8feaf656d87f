//! A game in PGN (Portable Game Notation Specification, section 8): its tag pairs, and the record that is made of it. What its movetext
//! adds is `movetext`'s.

ghost use Rattle.std.specs.Prelude.{◌≡◌, ◌⊎◌, ℕ, IfNone, IfOk, IsTrue, None, Some, codes, false, true};
ghost use Rattle.chess_notation.specs.RecordFields.{line_fields};
ghost use Rattle.problem_import.specs.Sources.{HasNames, IsFenOf, IsNamed, SaysMoves};
ghost use Rattle.problem_import.specs.inside.KnownSources.{AsksMore, KeepsAsked, TagSays};
ghost use Rattle.problem_import.specs.TagPairs.{EndsText};

use crate::changes::Changes;
use crate::fields::has_fields;
use crate::import_faults::ImportFault;
use crate::lengths::asked_by_sign;
use crate::operations::{is_said, push_bound_operation, push_id, push_id_operation};
use crate::tag_pairs::{begins_with, take_value, value_read};
use crate::texts::{cut_at, is_word, without_first};
use chess_board::Colour;
use chess_notation::{four_words, word_at};
use move_words::Letters;
use std::alloc::{AllocError, Global};
use stipulations::{Asked, moves_asked, moves_named, says_side, speaks_of_aim};

/// What tag pairs, and movetext up to the first move, said so far, and the number of their first line.
#[derive(Drop)]
pub(crate) struct Game {
    pub(crate) number: usize,
    pub(crate) changes: Changes,
    /// Whether the tag pairs are ended by movetext.
    pub(crate) is_begun: bool,
    /// Whether nothing more is looked for: the first move was seen, or that there is none.
    pub(crate) is_over: bool,
    /// Whether a comment in braces is open behind the last line that was taken.
    pub(crate) in_comment: bool,
    /// Whether the number before the first move says that it is Black's.
    pub(crate) is_blacks: bool,
    has_fen: bool,
    /// The first thing for which it can't be read, beside what it asks.
    fault: Option<ImportFault>,
    /// Whether White is said to move, and whether Black is.
    is_white_said: bool,
    is_black_said: bool,
    /// What its tag `Stipulation` asks, if it has one, and what the others and the comments do.
    stipulated: Option<Asked>,
    pub(crate) asked: Asked,
    /// The position without white space at its ends, and behind it the claim.
    pub(crate) fen: Vec<u8>,
    white: Vec<u8>,
    black: Vec<u8>,
    event: Vec<u8>,
    round: Vec<u8>,
    date: Vec<u8>,
    annotator: Vec<u8>,
}

/// Whether the value of a tag has names, among which a number of moves may be said.
fn has_names(name: &[u8]) -> bool
    ensures { IsTrue result → HasNames name.now }
{
    is_word(name, "Event")
        || is_word(name, "White")
        || is_word(name, "Black")
        || is_word(name, "Annotator")
}

/// Whether a tag has a condition, or twins.
fn is_of_fairy(name: &[u8]) -> bool {
    is_word(name, "Condition")
        || is_word(name, "Conditions")
        || is_word(name, "Fairy")
        || is_word(name, "Twin")
        || is_word(name, "Twins")
}

/// Whether a tag says what kind of problem it is, in names of no number.
fn has_kind(name: &[u8]) -> bool {
    is_word(name, "Title")
        || is_word(name, "Genre")
        || is_word(name, "Description")
        || is_word(name, "Goal")
}

/// Whether the value of a tag `Variant` is chess.
fn is_standard(value: &[u8]) -> bool {
    !is_said(value)
        || is_word(value, "Standard")
        || is_word(value, "Standard Chess")
        || is_word(value, "Chess")
        || is_word(value, "Normal")
        || is_word(value, "From Position")
}

impl Game {
    /// Without a tag pair.
    pub(crate) fn new(alloc: Global, number: usize, changes: Changes) -> Game
        ensures fen { result.has_fen ≡ false }
        ensures asked { result.asked ≡ Asked.Nothing }
        ensures stipulated { result.stipulated ≡ None }
        ensures comment { result.in_comment ≡ false }
    {
        Game {
            number,
            changes,
            is_begun: false,
            is_over: false,
            in_comment: false,
            is_blacks: false,
            has_fen: false,
            fault: None,
            is_white_said: false,
            is_black_said: false,
            stipulated: None,
            asked: Asked::Nothing,
            fen: Vec::new(alloc),
            white: Vec::new(alloc),
            black: Vec::new(alloc),
            event: Vec::new(alloc),
            round: Vec::new(alloc),
            date: Vec::new(alloc),
            annotator: Vec::new(alloc),
        }
    }

    /// Keeps a fault, unless there is an earlier one.
    fn note(&mut self, fault: ImportFault)
        ensures has { self.new.has_fen ≡ self.old.has_fen }
        ensures fen { self.new.fen ≡ self.old.fen }
        ensures asks { KeepsAsked self.old self.new }
        ensures comment { self.new.in_comment ≡ self.old.in_comment }
    {
        if self.fault.is_none() {
            self.fault = Some(fault);
        }
    }

    /// Takes who is said to move.
    pub(crate) fn take_sides(&mut self, text: &[u8])
        ensures has { self.new.has_fen ≡ self.old.has_fen }
        ensures fen { self.new.fen ≡ self.old.fen }
        ensures asks { KeepsAsked self.old self.new }
        ensures begun { self.new.is_begun ≡ self.old.is_begun }
        ensures comment { self.new.in_comment ≡ self.old.in_comment }
    {
        if says_side(text, Colour::White) {
            self.is_white_said = true;
        }
        if says_side(text, Colour::Black) {
            self.is_black_said = true;
        }
    }

    /// Whether the side that isn't to move is said to.
    fn says_other_side(&self) -> bool {
        match four_words(self.fen.as_slice()).side {
            b"w" => self.is_black_said,
            b"b" => self.is_white_said,
            _ => false,
        }
    }

    /// Takes what a tag's value asks beside the others, where it may.
    fn take_asked(&mut self, name: &[u8], value: &[u8])
        ensures has { self.new.has_fen ≡ self.old.has_fen }
        ensures fen { self.new.fen ≡ self.old.fen }
        ensures asks { AsksMore (TagSays name.now value.now) self.old self.new }
        ensures comment { self.new.in_comment ≡ self.old.in_comment }
    {
        if has_names(name) {
            self.asked = self.asked.and(moves_named(value));
        } else if has_kind(name) && speaks_of_aim(value) {
            self.asked = Asked::Unknown;
        }
    }

    /// Takes what a tag's value asks by a sign beside the others, where it may: where the defender stands, there may be the stipulation.
    fn take_sign(&mut self, name: &[u8], value: &[u8])
        ensures has { self.new.has_fen ≡ self.old.has_fen }
        ensures fen { self.new.fen ≡ self.old.fen }
        ensures asks { AsksMore (TagSays name.now value.now) self.old self.new }
        ensures comment { self.new.in_comment ≡ self.old.in_comment }
    {
        if !is_word(name, "Black") {
            return;
        }
        self.asked = self.asked.and(asked_by_sign(value));
    }

    /// Takes what a tag's value asks, where it may.
    fn take_number(&mut self, name: &[u8], value: &[u8])
        ensures has { self.new.has_fen ≡ self.old.has_fen }
        ensures fen { self.new.fen ≡ self.old.fen }
        ensures asks { AsksMore (TagSays name.now value.now) self.old self.new }
        ensures comment { self.new.in_comment ≡ self.old.in_comment }
    {
        self.take_asked(name, value);
        self.take_sign(name, value);
        if !is_word(name, "Stipulation") || !is_said(value) {
            return;
        }
        self.take_sides(value);
        let asked = moves_asked(value);
        self.stipulated = match self.stipulated {
            Some(before) => Some(before.and(asked)),
            None => Some(asked),
        };
    }

    /// Takes the value of a tag that is told in `id`.
    fn take_told(&mut self, name: &[u8], value: Vec<u8>)
        ensures has { self.new.has_fen ≡ self.old.has_fen }
        ensures fen { self.new.fen ≡ self.old.fen }
        ensures asks { KeepsAsked self.old self.new }
        ensures comment { self.new.in_comment ≡ self.old.in_comment }
    {
        if is_word(name, "White") {
            self.white = value;
        } else if is_word(name, "Black") {
            self.black = value;
        } else if is_word(name, "Event") {
            self.event = value;
        } else if is_word(name, "Round") {
            self.round = value;
        } else if is_word(name, "Date") {
            self.date = value;
        } else if is_word(name, "Annotator") {
            self.annotator = value;
        }
    }

    /// Takes a tag's value, where it is one that counts.
    fn take_tag(&mut self, name: &[u8], value: Vec<u8>)
        ensures fen { (self.new.has_fen ≡ self.old.has_fen) × (self.new.fen ≡ self.old.fen)
            ⊎ (IsNamed name.now (codes "FEN") × (self.new.fen ≡ value)) }
        ensures asks { AsksMore (TagSays name.now value.items) self.old self.new }
        ensures comment { self.new.in_comment ≡ self.old.in_comment }
    {
        if is_word(name, "FEN") {
            if self.has_fen && self.fen != value {
                self.note(ImportFault::TwoFens);
            }
            self.has_fen = true;
            self.fen = value;
            return;
        }
        let is_fairy = is_of_fairy(name) && is_said(value.as_slice());
        if is_fairy || is_word(name, "Variant") && !is_standard(value.as_slice()) {
            self.note(ImportFault::FairyCondition);
        }
        self.take_number(name, value.as_slice());
        self.take_told(name, value);
    }

    /// Takes the tag pairs of a line; gives what stands behind the last.
    pub(crate) fn take_line<'t>(
        &mut self,
        alloc: Global,
        letters: &Letters,
        line: &'t [u8],
    ) -> Result<&'t [u8], AllocError>
        ensures fen { IfOk result (λ _. (self.new.has_fen ≡ self.old.has_fen) × (self.new.fen ≡ self.old.fen)
            ⊎ IsFenOf letters.now line.now self.new.fen.items) }
        ensures asks { IfOk result (λ _. AsksMore (SaysMoves line.now) self.old self.new) }
        ensures rest { IfOk result (λ rest. EndsText rest.now line.now) }
        ensures comment { IfOk result (λ _. self.new.in_comment ≡ self.old.in_comment) }
    {
        let mut rest = line.trim_ascii_start();
        for _ in 0..line.len() {
            if !begins_with(b'[', rest) {
                break;
            }
            let more = without_first(rest, 1);
            let (name, _) = word_at(more);
            let (_, behind) = cut_at(more, b'"');
            let mut value = Vec::new(alloc);
            let behind = take_value(&mut value, behind)?;
            self.take_tag(name, value_read(alloc, letters, name, value)?);
            rest = cut_at(behind, b']').1.trim_ascii_start();
        }
        Ok(rest)
    }

    /// What is asked: what `Stipulation` does, if it is there, else what the other tags and the comments do; or that something in these isn't
    /// understood.
    pub(crate) fn asks(&self) -> Asked
        ensures { (n : ℕ) → result ≡ Asked.Moves n → (self.now.asked ≡ Asked.Moves n) ⊎ (self.now.stipulated ≡ Some (Asked.Moves n)) }
    {
        match (self.asked, self.stipulated) {
            (Asked::Unknown, _) => Asked::Unknown,
            (_, Some(asked)) => asked,
            (asked, None) => asked,
        }
    }

    /// Why nothing can be made of them, if nothing can.
    pub(crate) fn first_fault(&self) -> Option<ImportFault>
        ensures { IfNone result (self.now.has_fen ≡ true) }
    {
        if !self.has_fen {
            return Some(ImportFault::NoFen);
        }
        if let Some(fault) = self.fault {
            return Some(fault);
        }
        if self.says_other_side() {
            return Some(ImportFault::WrongSide);
        }
        if let Some(Asked::Nothing) = self.stipulated {
            return Some(ImportFault::BadStipulation);
        }
        match self.asks() {
            Asked::Two => Some(ImportFault::TwoBounds),
            Asked::Unknown => Some(ImportFault::BadStipulation),
            Asked::Nothing | Asked::Moves(_) => None,
        }
    }

    /// What is made of the tag pairs, read as a record: of a position that has too few fields, no more than that, so that what stands behind
    /// it isn't taken for one.
    pub(crate) fn text(&mut self, alloc: Global) -> Result<Vec<u8>, AllocError>
        ensures { IfOk result (λ text. line_fields text.items ≡ line_fields self.old.fen.items) }
    {
        let mut text = Vec::from_slice(alloc, self.fen.as_slice())?;
        if !has_fields(text.as_slice()) {
            return Ok(text);
        }
        let mut id = Vec::new(alloc);
        for value in [
            &self.white,
            &self.black,
            &self.event,
            &self.round,
            &self.date,
            &self.annotator,
        ] {
            push_id(&mut id, value.as_slice(), &mut self.changes)?;
        }
        if let Asked::Moves(moves) = self.asks() {
            self.changes.bound = true;
            push_bound_operation(&mut text, moves)?;
        }
        push_id_operation(&mut text, id.as_slice())?;
        Ok(text)
    }
}
