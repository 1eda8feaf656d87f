//! The records that problems are made.

ghost use Rattle.std.specs.Prelude.{◌≡◌, ◌++◌, ℕ, List, Option, IfNone, IfOk, IfSome};
ghost use Rattle.move_words.specs.declared.languages.Letters.{Letters as LettersValue};
ghost use Rattle.problem_import.specs.Changes.{telling};
ghost use Rattle.problem_import.specs.Imports.{IsMade, IsRecord};
ghost use Rattle.problem_import.specs.declared.changes.Form.{Form as FormValue};
ghost use Rattle.problem_import.specs.inside.Counted.{IsSaid};
ghost use Rattle.problem_import.specs.inside.Findings.{Asks, IsAskedOf, IsFoundOf, IsNumberOf, IsOwn};
ghost use Rattle.problem_import.specs.inside.KeptChanges.{has_change};
ghost use Rattle.problem_import.specs.inside.KnownSources.{IsCountFrom, IsFoundBy, IsFoundFrom, IsMadeFrom};

use crate::changes::Changes;
use crate::findings::{Found, Number};
use crate::import_faults::ImportFault;
use crate::import_letters::ImportLetters;
use crate::line_kinds::{RecordKind, asking, says_asked};
use crate::moves::with_moves;
use crate::operations::push_bound_operation;
use byte_streams::NoMemory;
use chess_moves::Rays;
use chess_notation::Bound;
use std::alloc::{AllocError, Global};

/// How records are printed: whether what was changed to make them is told, the bound of those that say none, and the letters of men.
#[derive(Clone, Copy)]
pub struct Printing<'a> {
    pub rays: &'a Rays,
    pub keep: bool,
    pub bound: Option<Bound>,
    pub letters: ImportLetters,
}

/// A text that is to be a record: the line at which it was found, and what was changed to make it.
#[derive(Drop)]
struct FoundText<'a> {
    line: &'a [u8],
    text: Vec<u8>,
    changes: Changes,
}

/// A record that was made, and whether it says its number of moves itself.
#[derive(Drop)]
pub(crate) struct Made {
    pub(crate) text: Vec<u8>,
    pub(crate) says: bool,
}

/// A record, and behind it the operation that tells what was changed.
fn telling_text(alloc: Global, text: &[u8], changes: &Changes) -> Result<Vec<u8>, AllocError>
    ensures { IfOk result (λ told. told.items ≡ text.now ++ telling (has_change changes.now)) }
{
    let mut told = Vec::from_slice(alloc, text)?;
    told.extend_from_slice(b" c9 \"import")?;
    changes.push_names(&mut told)?;
    told.extend_from_slice(b"\";")?;
    Ok(told)
}

/// How many moves a record is to ask, where its lines say them or it is a record as it stands; nothing else.
fn moves_of(number: Number) -> Option<Option<u8>>
    ensures known { IfSome result (λ moves. (form : FormValue) (given : Option ℕ) (line : List ℕ) → IsAskedOf form line number
        → IsNumberOf form given line moves) }
    ensures unsaid { IfNone result (number ≡ Number.Unsaid) }
    ensures from { IfSome result (λ moves. (letters : LettersValue) (given : Option ℕ) (lines : List (List ℕ)) (made : List ℕ)
        → IsFoundBy letters given lines made number → IsCountFrom letters given lines made moves) }
{
    match number {
        Number::Said(moves) => Some(Some(moves)),
        Number::Own => Some(Some(3)),
        Number::Unsaid => None,
    }
}

impl Printing<'_> {
    /// A record, or that and what was changed to make it, where this is asked for, something was changed, and it is a record still.
    fn told(
        &self,
        alloc: Global,
        found: FoundText<'_>,
        says: bool,
        moves: Option<u8>,
    ) -> Result<Result<Made, ImportFault>, NoMemory>
        requires record { IsRecord found.text.items }
        requires said { IsSaid found.text.items says }
        requires own { IsOwn found.changes.form found.line.now found.text.items }
        requires number { IsNumberOf found.changes.form self.now.bound found.line.now moves }
        requires asks { Asks moves found.text.items }
        ensures record { IfOk result (λ told. IfOk told (λ it. IsRecord it.text.items × IsSaid it.text.items it.says)) }
        ensures made { IfOk result (λ told. IfOk told (λ it. IsMade self.now.keep self.now.bound found.entry.line.now it.text.items)) }
        ensures from { IfOk result (λ told. IfOk told (λ it. (letters : LettersValue) (lines : List (List ℕ))
            → IsCountFrom letters self.now.bound lines found.entry.text.items moves → IsMadeFrom letters self.now.bound lines it.text.items)) }
    {
        let FoundText {
            line,
            text,
            changes,
        } = found;
        if !self.keep {
            return Ok(Ok(Made { text, says }));
        }
        if changes.is_line(line, text.as_slice()) {
            return Ok(Ok(Made { text, says }));
        }
        let told = telling_text(alloc, text.as_slice(), &changes)?;
        match asking(alloc, self.rays, told.as_slice(), moves)? {
            RecordKind::Right(says) => Ok(Ok(Made { text: told, says })),
            RecordKind::Other => Ok(Err(ImportFault::TwoBounds)),
            RecordKind::Refused(_) => Ok(Ok(Made { text, says })),
        }
    }

    /// The record that a text is that is to ask so many moves, where that is a number, or its fault.
    fn checked(
        &self,
        alloc: Global,
        found: FoundText<'_>,
        moves: Option<u8>,
    ) -> Result<Result<Made, ImportFault>, NoMemory>
        requires own { IsOwn found.changes.form found.line.now found.text.items }
        requires number { IsNumberOf found.changes.form self.now.bound found.line.now moves }
        ensures record { IfOk result (λ made. IfOk made (λ it. IsRecord it.text.items × IsSaid it.text.items it.says)) }
        ensures made { IfOk result (λ made. IfOk made (λ it. IsMade self.now.keep self.now.bound found.entry.line.now it.text.items)) }
        ensures from { IfOk result (λ made. IfOk made (λ it. (letters : LettersValue) (lines : List (List ℕ))
            → IsCountFrom letters self.now.bound lines found.entry.text.items moves → IsMadeFrom letters self.now.bound lines it.text.items)) }
    {
        match says_asked(alloc, self.rays, found.text.as_slice(), moves)? {
            Ok(says) => self.told(alloc, found, says, moves),
            Err(fault) => Ok(Err(fault)),
        }
    }

    /// The record that a text is with the bound of those that say none, or why there is none.
    fn bounded(
        &self,
        alloc: Global,
        found: FoundText<'_>,
    ) -> Result<Result<Made, ImportFault>, NoMemory>
        requires own { IsOwn found.changes.form found.line.now found.text.items }
        requires number { IsAskedOf found.changes.form found.line.now Number.Unsaid }
        ensures record { IfOk result (λ made. IfOk made (λ it. IsRecord it.text.items × IsSaid it.text.items it.says)) }
        ensures made { IfOk result (λ made. IfOk made (λ it. IsMade self.now.keep self.now.bound found.entry.line.now it.text.items)) }
        ensures from { IfOk result (λ made. IfOk made (λ it. (letters : LettersValue) (lines : List (List ℕ))
            → IsFoundBy letters self.now.bound lines found.entry.text.items Number.Unsaid → IsMadeFrom letters self.now.bound lines it.text.items)) }
    {
        let FoundText {
            line,
            text,
            changes,
        } = found;
        let mut text = text;
        match (
            says_asked(alloc, self.rays, text.as_slice(), None)?,
            self.bound,
        ) {
            (Ok(_), Some(bound)) => {
                push_bound_operation(&mut text, bound.get())?;
                let bounded = FoundText {
                    line,
                    text,
                    changes: changes.of_bound(),
                };
                self.checked(alloc, bounded, Some(bound.get()))
            }
            (Ok(_), None) => Ok(Err(ImportFault::NoBound)),
            (Err(fault), _) => Ok(Err(fault)),
        }
    }

    /// The record that is made of what was found where a line was read, or none, which is empty; or why there is none.
    pub(crate) fn made(
        &self,
        alloc: Global,
        line: &[u8],
        found: &Found,
    ) -> Result<Result<Made, ImportFault>, NoMemory>
        requires { IsFoundOf line.now found.now }
        ensures record { IfOk result (λ made. IfOk made (λ it. IsRecord it.text.items × IsSaid it.text.items it.says)) }
        ensures made { IfOk result (λ made. IfOk made (λ it. IsMade self.now.keep self.now.bound line.now it.text.items)) }
        ensures from { IfOk result (λ made. IfOk made (λ it. (letters : LettersValue) (lines : List (List ℕ)) → IsFoundFrom letters lines found.now
            → IsMadeFrom letters self.now.bound lines it.text.items)) }
    {
        match found {
            Found::Text(text, changes, number) => {
                let mut changes = *changes;
                let letters = &self.letters.moves;
                let text = with_moves(alloc, self.rays, letters, text.as_slice(), &mut changes)?;
                let found = FoundText {
                    line,
                    text,
                    changes,
                };
                match moves_of(*number) {
                    Some(moves) => self.checked(alloc, found, moves),
                    None => self.bounded(alloc, found),
                }
            }
            Found::Fault(fault) => Ok(Err(*fault)),
        }
    }
}
