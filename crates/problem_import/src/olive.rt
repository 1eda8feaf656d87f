//! A problem in a file of Olive's (`.olv`, the YAML of YACPDB): between two lines `---`, keys with colons, lists in brackets or behind hyphens,
//! and men with Popeye's letters.

ghost use Rattle.std.specs.Prelude.{◌≡◌, [], List, IfOk, codes, if◌then◌else◌, map};
ghost use Rattle.std.specs.Str.{bytes_eq};
ghost use Rattle.chess_notation.specs.Words.{words_in};
ghost use Rattle.problem_import.specs.OliveProblems.{Said, asked_in, has_colon as has_a_colon, items_onto, key_onto, line_onto, man_on};
ghost use Rattle.problem_import.specs.OliveProblems.{is_before_play as does_stand_before_play, is_of_men as is_section_of_men, keeps_key as does_keep_key, section_of as section_of_key, value_of};
ghost use Rattle.problem_import.specs.OliveProblems.{without_mark as byte_without_mark};
ghost use Rattle.problem_import.specs.inside.ReadProblems.{AreRead, IsNoted, KeepsItems, SetsUp, TakesItem};
ghost use Rattle.stipulations.specs.declared.asked.Asked.TheVariants.{Moves};

use crate::changes::Changes;
use crate::diagrams::{BAD_PLACEMENT, Diagram};
use crate::import_faults::ImportFault;
use crate::lengths::moves_signed;
use crate::movetext::is_key;
use crate::operations::{push_id, push_id_operation};
use crate::popeye_words::is_harmless_option;
use crate::tag_pairs::begins_with;
use crate::texts::{are_digits, is_same, push_byte, without_first};
use chess_board::Colour;
use chess_notation::{is_blank, word_at};
use std::alloc::{AllocError, Global};

/// What a key says, and the lines behind it.
#[derive(Clone, Copy, PartialEq, Eq)]
enum Section {
    Other,
    Authors,
    Source,
    Date,
    /// Before White's men, or another's.
    Men,
    White,
    Black,
    Neutral,
    Stipulation,
    Options,
    Conditions,
    Twins,
    /// Moves, in lines that may be full stops.
    Solution,
}

/// What a problem said so far, and the number of its first line.
#[derive(Drop)]
pub(crate) struct OliveProblem {
    pub(crate) number: usize,
    pub(crate) changes: Changes,
    section: Section,
    /// The first thing for which it can't be read.
    fault: Option<ImportFault>,
    bound: Option<u8>,
    authors: Vec<u8>,
    source: Vec<u8>,
    date: Vec<u8>,
    /// The keys that its solution names, each behind a space.
    keys: Vec<u8>,
    diagram: Diagram,
}

/// Whether a line stands before a problem.
pub(crate) fn is_border(line: &[u8]) -> bool
    ensures { result ≡ bytes_eq line.now (codes "---") }
{
    is_same(line, "---")
}

/// Whether a byte stands round a value.
fn is_mark(byte: u8) -> bool {
    matches!(byte, b' ' | b',' | b'[' | b']' | b'"' | b'\'')
}

/// A text without marks at its front.
fn after_marks(text: &[u8]) -> &[u8] {
    let mut rest = text;
    for _ in 0..text.len() {
        match rest {
            [first, more @ ..] if is_mark(*first) => rest = more,
            _ => break,
        }
    }
    rest
}

/// A text without marks at either end.
fn bare(text: &[u8]) -> &[u8] {
    let mut rest = after_marks(text);
    for _ in 0..text.len() {
        match rest {
            [more @ .., last] if is_mark(*last) => rest = more,
            _ => break,
        }
    }
    rest
}

/// The first word between marks, empty where there is none, and what stands behind.
fn item_at(text: &[u8]) -> (&[u8], &[u8]) {
    let text = after_marks(text);
    for (index, byte) in text.iter().enumerate() {
        if is_mark(*byte) {
            return text.split_at(index);
        }
    }
    (text, &[])
}

/// A byte, or a space for a mark.
fn without_mark(byte: u8) -> u8
    ensures { result ≡ byte_without_mark byte }
{
    match byte {
        b',' | b'[' | b']' | b'"' | b'\'' => b' ',
        _ => byte,
    }
}

/// A text with spaces for marks.
fn without_marks(alloc: Global, text: &[u8]) -> Result<Vec<u8>, AllocError>
    ensures { IfOk result (λ plain. plain.items ≡ map byte_without_mark text.now) }
{
    let mut plain = Vec::new(alloc);
    for byte in text {
        plain.push(without_mark(*byte))?;
    }
    Ok(plain)
}

/// Whether a word is a key with its colon.
fn has_colon(word: &[u8]) -> bool
    ensures { result ≡ has_a_colon word.now }
{
    match word {
        [.., last] => *last == b':',
        [] => false,
    }
}

/// Whether what stands behind a move marks it as a key: `!`, behind a sign of check or none.
fn marks_key(behind: &[u8]) -> bool {
    for (index, byte) in behind.iter().enumerate() {
        match byte {
            b'!' => return !begins_with(b'?', without_first(behind, index + 1)),
            b' ' | b'+' | b'#' => {}
            _ => return false,
        }
    }
    false
}

/// The key that a word of a solution names, `1.Qd1` or `1.Qd1!`, where the word or what stands behind it marks it as one.
fn key_named<'t>(word: &'t [u8], behind: &[u8]) -> Option<&'t [u8]> {
    let (key, is_marked) = match word {
        [b'1', b'.', key @ .., b'!'] => (key, true),
        [b'1', b'.', key @ ..] => (key, marks_key(behind)),
        _ => return None,
    };
    if is_marked && is_key(key) {
        Some(key)
    } else {
        None
    }
}

/// What SAN has for a byte of a move: another letter for a knight, and another sign for a capture.
fn in_san(byte: u8) -> u8 {
    match byte {
        b'S' => b'N',
        b'*' => b'x',
        _ => byte,
    }
}

/// Adds a key behind a space.
fn push_key(keys: &mut Vec<u8>, key: &[u8]) -> Result<(), AllocError> {
    push_byte(keys, b' ')?;
    for byte in key {
        push_byte(keys, in_san(*byte))?;
    }
    Ok(())
}

fn is_of_men(section: Section) -> bool
    ensures { result ≡ is_section_of_men section }
{
    matches!(
        section,
        Section::Men | Section::White | Section::Black | Section::Neutral
    )
}

/// Whether a word stands before play in a solution, as keys do elsewhere.
fn is_before_play(word: &[u8]) -> bool
    ensures { result ≡ does_stand_before_play word.now }
{
    is_same(word, "threat") || is_same(word, "threats") || is_same(word, "but")
}

/// Whether any other key is one of the section's.
fn keeps_key(section: Section, word: &[u8]) -> bool
    ensures { result ≡ does_keep_key section word.now }
{
    match section {
        Section::Twins => true,
        Section::Solution => is_before_play(word),
        _ => false,
    }
}

/// What stands behind a key, where such a section was before.
#[tactic(auto, unfolding(crate::specs::OliveProblems::section_of))]
fn section_of(key: &[u8], before: Section) -> Section
    ensures { result ≡ section_of_key key.now before }
{
    let is_man = is_of_men(before);
    if is_man && is_same(key, "white") {
        Section::White
    } else if is_man && is_same(key, "black") {
        Section::Black
    } else if is_man && is_same(key, "neutral") {
        Section::Neutral
    } else if is_same(key, "authors") || is_same(key, "author") {
        Section::Authors
    } else if is_same(key, "source") {
        Section::Source
    } else if is_same(key, "date") {
        Section::Date
    } else if is_same(key, "algebraic") {
        Section::Men
    } else if is_same(key, "stipulation") {
        Section::Stipulation
    } else if is_same(key, "options") {
        Section::Options
    } else if is_same(key, "conditions") {
        Section::Conditions
    } else if is_same(key, "twins") {
        Section::Twins
    } else if is_same(key, "solution") {
        Section::Solution
    } else if is_same(key, "keywords") {
        Section::Other
    } else if keeps_key(before, key) {
        before
    } else {
        Section::Other
    }
}

impl OliveProblem {
    /// Behind its first line.
    pub(crate) fn new(alloc: Global, number: usize, changes: Changes) -> OliveProblem
        ensures { AreRead [] result }
    {
        OliveProblem {
            number,
            changes,
            section: Section::Other,
            fault: None,
            bound: None,
            authors: Vec::new(alloc),
            source: Vec::new(alloc),
            date: Vec::new(alloc),
            keys: Vec::new(alloc),
            diagram: Diagram::new(),
        }
    }

    /// Keeps a fault, unless there is an earlier one.
    fn note(&mut self, fault: ImportFault)
        ensures { IsNoted self.new.fault }
    {
        if self.fault.is_none() {
            self.fault = Some(fault);
        }
    }

    /// Takes what is to be mated in.
    fn take_stipulation(&mut self, word: &[u8])
        requires { self.now.section ≡ Section.Stipulation }
        ensures { TakesItem word.now self.old self.new }
    {
        match moves_signed(word) {
            Some(moves) if self.bound.is_none() => self.bound = Some(moves),
            _ => self.note(ImportFault::BadStipulation),
        }
    }

    /// Takes a man of White's on a square.
    fn take_white(&mut self, word: &[u8])
        requires { self.now.section ≡ Section.White }
        ensures { TakesItem word.now self.old self.new }
    {
        if let Err(fault) = self.diagram.put_word(word, Colour::White) {
            self.note(fault);
        }
    }

    /// Takes a man of Black's on a square.
    fn take_black(&mut self, word: &[u8])
        requires { self.now.section ≡ Section.Black }
        ensures { TakesItem word.now self.old self.new }
    {
        if let Err(fault) = self.diagram.put_word(word, Colour::Black) {
            self.note(fault);
        }
    }

    /// Takes an item that is neither a man nor what is asked.
    #[tactic(auto, unfolding(crate::specs::inside::ReadProblems::KeepsItems))]
    fn take_other(&mut self, word: &[u8])
        ensures { KeepsItems self.old self.new }
    {
        match self.section {
            Section::Neutral => self.note(ImportFault::FairyPiece),
            Section::Options if is_harmless_option(word) || are_digits(word) => {}
            Section::Options | Section::Conditions => self.note(ImportFault::FairyCondition),
            Section::Twins => self.note(ImportFault::UnknownCommand),
            _ => {}
        }
    }

    /// Takes an item.
    fn take_item(&mut self, word: &[u8])
        ensures { TakesItem word.now self.old self.new }
    {
        match self.section {
            Section::White => self.take_white(word),
            Section::Black => self.take_black(word),
            Section::Stipulation => self.take_stipulation(word),
            _ => self.take_other(word),
        }
    }

    /// Takes the items of a text without marks.
    #[tactic(auto, using(chess_notation::proofs::WordLists::behind_shorter))]
    fn take_items(&mut self, text: &[u8])
        ensures { (said : List Said) → AreRead said self.old → AreRead (items_onto (words_in text.now) said) self.new }
    {
        let mut rest = text;
        while !is_blank(rest) {
            let (word, behind) = word_at(rest);
            self.take_item(word);
            rest = behind;
        }
    }

    /// Takes a line of the solution: the keys that it names.
    #[tactic(auto, unfolding(crate::specs::inside::ReadProblems::KeepsItems))]
    fn take_solution(&mut self, line: &[u8]) -> Result<(), AllocError>
        ensures { IfOk result (λ _. KeepsItems self.old self.new) }
    {
        let mut rest = line;
        for _ in 0..line.len() {
            let (word, behind) = item_at(rest);
            if word.is_empty() {
                break;
            }
            if let Some(key) = key_named(word, behind) {
                push_key(&mut self.keys, key)?;
            }
            rest = behind;
        }
        Ok(())
    }

    /// Takes a value that is no list of items.
    #[tactic(auto, unfolding(crate::specs::inside::ReadProblems::KeepsItems))]
    fn take_text(&mut self, value: &[u8]) -> Result<(), AllocError>
        ensures { IfOk result (λ _. KeepsItems self.old self.new) }
    {
        match self.section {
            Section::Authors => {
                push_id(&mut self.authors, bare(value), &mut self.changes)?;
                Ok(())
            }
            Section::Source => {
                push_id(&mut self.source, bare(value), &mut self.changes)?;
                Ok(())
            }
            Section::Date => {
                push_id(&mut self.date, bare(value), &mut self.changes)?;
                Ok(())
            }
            Section::Solution => {
                self.take_solution(value)?;
                Ok(())
            }
            _ => Ok(()),
        }
    }

    /// Takes the key that a line begins with, if it does with one; gives its value.
    fn take_key<'t>(&mut self, line: &'t [u8]) -> &'t [u8]
        ensures value { result.now ≡ value_of line.now }
        ensures read { (said : List Said) → AreRead said self.old → AreRead (key_onto line.now said) self.new }
    {
        let (word, behind) = word_at(line);
        if has_colon(word) {
            let key = word.split_at(word.len() - 1).0;
            self.section = section_of(key, self.section);
            return behind;
        }
        if is_same(word, "-") { behind } else { line }
    }

    /// Takes a line, unless it ends the problem; gives whether it does.
    pub(crate) fn take_line(&mut self, alloc: Global, line: &[u8]) -> Result<bool, AllocError>
        ensures { IfOk result (λ ends. (said : List Said) → AreRead said self.old
            → AreRead (if ends then said else line_onto line.now said) self.new) }
    {
        if is_same(line, "...") && !matches!(self.section, Section::Solution) {
            return Ok(true);
        }
        let value = self.take_key(line);
        self.take_text(value)?;
        let items = without_marks(alloc, value)?;
        self.take_items(items.as_slice());
        Ok(false)
    }

    /// What is made of the problem: White moves, and castling is allowed where king and rook stand at home.
    fn text(&self, alloc: Global, moves: u8, changes: &mut Changes) -> Result<Vec<u8>, AllocError> {
        let mut id = Vec::new(alloc);
        for value in [&self.authors, &self.source, &self.date] {
            push_id(&mut id, value.as_slice(), changes)?;
        }
        let mut text = Vec::new(alloc);
        self.diagram.push_problem(&mut text, moves)?;
        if !self.keys.is_empty() {
            changes.moves = true;
            text.extend_from_slice(b" bm")?;
            text.extend_from_slice(self.keys.as_slice())?;
            push_byte(&mut text, b';')?;
        }
        push_id_operation(&mut text, id.as_slice())?;
        Ok(text)
    }

    /// The same, read as a record, and how many moves it asks; or why it can't be read.
    pub(crate) fn made(
        &self,
        alloc: Global,
        changes: &mut Changes,
    ) -> Result<Result<(Vec<u8>, u8), ImportFault>, AllocError>
        ensures { IfOk result (λ made. IfOk made (λ it. (said : List Said) → AreRead said self.now
            → SetsUp (man_on said) it.0.items × (asked_in said ≡ Moves it.1))) }
    {
        if let Some(fault) = self.fault {
            return Ok(Err(fault));
        }
        let Some(moves) = self.bound else {
            return Ok(Err(ImportFault::BadStipulation));
        };
        let text = self.text(alloc, moves, changes)?;
        if !self.diagram.is_said_by(text.as_slice()) {
            return Ok(Err(BAD_PLACEMENT));
        }
        Ok(Ok((text, moves)))
    }
}
