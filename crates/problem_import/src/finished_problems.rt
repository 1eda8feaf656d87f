//! What a problem says that is finished: a line that is one by itself, or one that was open.

ghost use Rattle.std.specs.Prelude.{◌≡◌, ℕ, Bool, List, IfNone, IfOk, IfSome, Option};
ghost use Rattle.move_words.specs.declared.languages.Letters.{Letters as LettersValue};
ghost use Rattle.problem_import.specs.Letters.{IsTextOf};
ghost use Rattle.problem_import.specs.Sources.{AreUpTo, GameSays, IsGame, IsLast};
ghost use Rattle.problem_import.specs.declared.reading.Open.TheVariants as opens;
ghost use Rattle.problem_import.specs.inside.Findings.{IsAsked, IsFoundOf, IsRecordIf};
ghost use Rattle.problem_import.specs.inside.OpenProblems.{due};
ghost use Rattle.problem_import.specs.inside.KnownSources.{HasFen, IsEndedFrom, IsFoundBy, IsFoundFrom};

use crate::changes::Form;
use crate::fields::{has_placement, men_of};
use crate::findings::{Finding, Found, Number};
use crate::games::Game;
use crate::import_faults::ImportFault;
use crate::letters::AsciiLine;
use crate::mending::mended_line;
use crate::olive::OliveProblem;
use crate::popeye::PopeyeProblem;
use crate::reading::Open;
use chess_board::Colour;
use chess_notation::four_words;
use std::alloc::{AllocError, Global};
use stipulations::{Asked, says_side, tells_other_men};

/// How many moves a record is to ask that is made of a line which says none, and may be a record as it stands.
fn number_unsaid(is_record: bool) -> Number
    ensures { (line : List ℕ) → IsRecordIf is_record line → IsAsked line Asked.Nothing result }
{
    if is_record {
        Number::Own
    } else {
        Number::Unsaid
    }
}

/// How many moves a record is to ask that is made of a line which says this, and may be a record as it stands; a fault where it says two
/// numbers, or something that isn't understood.
fn number_of(said: Asked, is_record: bool) -> Result<Number, ImportFault>
    ensures { IfOk result (λ number. (line : List ℕ) → IsRecordIf is_record line → IsAsked line said number) }
{
    match said {
        Asked::Moves(moves) => Ok(Number::Said(moves)),
        Asked::Nothing => Ok(number_unsaid(is_record)),
        Asked::Two => Err(ImportFault::TwoBounds),
        Asked::Unknown => Err(ImportFault::BadStipulation),
    }
}

/// Whether a line says in words of the side that isn't to move that it moves, or mates.
fn says_other_side(line: &[u8]) -> bool {
    let fields = four_words(line);
    match fields.side {
        b"w" => says_side(fields.behind, Colour::Black),
        b"b" => says_side(fields.behind, Colour::White),
        _ => false,
    }
}

/// Whether a line tells that there are other numbers of men than stand in its placement.
fn tells_others(line: &[u8]) -> bool {
    let fields = four_words(line);
    let (white, black) = men_of(fields.placement);
    tells_other_men(fields.behind, white, black)
}

/// What a line in printable ASCII says, which may be a record as it stands.
pub(crate) fn found_line(
    alloc: Global,
    line: &AsciiLine<'_>,
    is_record: bool,
) -> Result<Found, AllocError>
    ensures own { IfOk result (λ found. (whole : List ℕ) → IsTextOf whole line.now.text.now → IsRecordIf is_record whole → IsFoundOf whole found) }
    ensures from { IfOk result (λ found. (letters : LettersValue) (lines : List (List ℕ)) (whole : List ℕ) → IsLast lines whole
        → IsTextOf whole line.now.text.now → IsRecordIf is_record whole → IsFoundFrom letters lines found) }
{
    let mut changes = line.changes;
    let mended = mended_line(alloc, line.text, &mut changes)?;
    if !(mended.is_by_dm && is_record) && has_placement(four_words(line.text).behind) {
        return Ok(Found::Fault(ImportFault::TwoFens));
    }
    if !mended.is_by_dm && says_other_side(line.text) {
        return Ok(Found::Fault(ImportFault::WrongSide));
    }
    if !mended.is_by_dm && tells_others(line.text) {
        return Ok(Found::Fault(ImportFault::OtherMen));
    }
    match number_of(mended.said, is_record) {
        Ok(number) => Ok(Found::Text(mended.text, changes, number)),
        Err(fault) => Ok(Found::Fault(fault)),
    }
}

/// How many moves a record is to ask that is made of a game which asks this.
fn number_by_tags(asked: Asked) -> Number
    ensures { (letters : LettersValue) (given : Option ℕ) (lines own texts : List (List ℕ)) (has_moves : Bool) (made : List ℕ) → AreUpTo lines own
        → IsGame own texts has_moves → HasFen letters texts made → ((n : ℕ) → asked ≡ Asked.Moves n → GameSays texts n)
        → IsFoundBy letters given lines made result }
{
    match asked {
        Asked::Moves(moves) => Number::Said(moves),
        Asked::Nothing | Asked::Two | Asked::Unknown => Number::Unsaid,
    }
}

/// What the tag pairs of a game say.
fn found_game(alloc: Global, game: &mut Game) -> Result<Found, AllocError>
    ensures own { IfOk result (λ found. (line : List ℕ) → IsFoundOf line found) }
    ensures from { IfOk result (λ found. (letters : LettersValue) (lines own : List (List ℕ)) → AreUpTo lines own
        → IsEndedFrom letters own (opens.Game game.old) → IsFoundFrom letters lines found) }
{
    if let Some(fault) = game.first_fault() {
        return Ok(Found::Fault(fault));
    }
    let number = number_by_tags(game.asks());
    let text = game.text(alloc)?;
    Ok(Found::Text(text, game.changes.of(Form::Game), number))
}

/// What a problem for Popeye says.
fn found_popeye(alloc: Global, problem: &PopeyeProblem) -> Result<Found, AllocError>
    ensures own { IfOk result (λ found. (line : List ℕ) → IsFoundOf line found) }
    ensures from { IfOk result (λ found. (letters : LettersValue) (lines own : List (List ℕ)) → AreUpTo lines own
        → IsEndedFrom letters own (opens.Popeye problem.now) → IsFoundFrom letters lines found) }
{
    let made = problem.made(alloc)?;
    match made {
        Ok((text, moves)) => {
            let changes = problem.changes.of(Form::Popeye);
            Ok(Found::Text(text, changes, Number::Said(moves)))
        }
        Err(fault) => Ok(Found::Fault(fault)),
    }
}

/// What a problem of Olive's says.
fn found_olive(alloc: Global, problem: &OliveProblem) -> Result<Found, AllocError>
    ensures own { IfOk result (λ found. (line : List ℕ) → IsFoundOf line found) }
    ensures from { IfOk result (λ found. (letters : LettersValue) (lines own : List (List ℕ)) → AreUpTo lines own
        → IsEndedFrom letters own (opens.Olive problem.now) → IsFoundFrom letters lines found) }
{
    let mut changes = problem.changes;
    let made = problem.made(alloc, &mut changes)?;
    match made {
        Ok((text, moves)) => {
            let changes = changes.of(Form::Popeye);
            Ok(Found::Text(text, changes, Number::Said(moves)))
        }
        Err(fault) => Ok(Found::Fault(fault)),
    }
}

/// What a problem says that was open; nothing of a game that was found where its first move was.
pub(crate) fn found_open(alloc: Global, what: Open) -> Result<Option<Finding>, AllocError>
    ensures some { IfOk result (λ found. IfSome found (λ _. due what ≡ 1)) }
    ensures none { IfOk result (λ found. IfNone found (due what ≡ 0)) }
    ensures own { IfOk result (λ found. IfSome found (λ it. (line : List ℕ) → IsFoundOf line it.found)) }
    ensures from { IfOk result (λ found. IfSome found (λ it. (letters : LettersValue) (lines own : List (List ℕ)) → AreUpTo lines own
        → IsEndedFrom letters own what → IsFoundFrom letters lines it.found)) }
{
    match what {
        Open::Game(game) => {
            let mut game = game;
            let found = found_game(alloc, &mut game)?;
            let number = game.number;
            Ok(Some(Finding { number, found }))
        }
        Open::Popeye(problem) => {
            let found = found_popeye(alloc, &problem)?;
            let number = problem.number;
            Ok(Some(Finding { number, found }))
        }
        Open::Olive(problem) => {
            let found = found_olive(alloc, &problem)?;
            let number = problem.number;
            Ok(Some(Finding { number, found }))
        }
        Open::Nothing | Open::Movetext(_) => Ok(None),
    }
}
