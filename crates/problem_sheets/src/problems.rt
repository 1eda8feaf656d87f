//! A problem of a page: its number, its diagram, and what stands beneath it.

ghost use Rattle.std.specs.Prelude.{◌≡◌, ◌++◌, ◌≤◌, IfOk, codes, filter, false, true};
ghost use Rattle.chess_notation.specs.Answers.{entries_text};
ghost use Rattle.chess_notation.specs.Opcodes.{operands_under};
ghost use Rattle.chess_notation.specs.Records.{problem_of};
ghost use Rattle.mate_search.specs.inside.Truth.{truth};
ghost use Rattle.problem_sheets.specs.Problems.{bound_text, caption_text, cite_text, code_text, count_text, details_text};
ghost use Rattle.problem_sheets.specs.Problems.{epd_text as epd_text_of, heading_text, id_text, is_id as is_id_entry, men_below, problem_text};
ghost use Rattle.problem_sheets.specs.Problems.{problems_from, right_text, right_words, small_text, state_text, stipulation, stipulation_text};
ghost use Rattle.problem_sheets.specs.Problems.{target_words, unquoted};

use crate::diagrams::{push_diagram, push_number, push_square};
use crate::escaping::{push_escaped, push_three};
use chess_board::{Colour, Position, Square, Wing};
use chess_notation::{Operation, Record, kept_operands};
use chess_problems::{Bound, Outcome};
use std::alloc::{AllocError, Global};
use std::marker::Model;

/// What a line says, and whether it says the number of moves itself, so that this is not the default one.
#[derive(Drop)]
pub(crate) struct PageProblem {
    pub record: Record,
    pub says_bound: bool,
}

impl Model for PageProblem {
    ghost use Rattle.problem_sheets.specs.Problems.{PageProblemValue};

    ghost Value = { PageProblemValue };

    ghost view = { λ p. record { asked = p.«record»; says_bound = p.says_bound } };
}

/// What stands beneath a diagram is made of: its number, the number of moves that stands by it, and its record.
#[derive(Clone, Copy)]
pub(crate) struct Caption<'a> {
    pub number: usize,
    pub moves: Option<Bound>,
    pub record: &'a Record,
}

/// The number of moves that stands by a problem which isn't solved.
#[tactic(auto, unfolding(crate::specs::Problems::stipulation))]
fn said_stipulation(problem: &PageProblem) -> Option<Bound>
    ensures { result ≡ stipulation false problem.now }
{
    if problem.says_bound {
        Some(problem.record.bound)
    } else {
        None
    }
}

/// That of a problem of which this was found.
#[tactic(auto, unfolding(crate::specs::Problems::stipulation))]
pub(crate) fn found_stipulation(problem: &PageProblem, outcome: &Outcome) -> Option<Bound>
    requires { outcome.now ≡ truth (problem_of problem.now.asked) }
    ensures { result ≡ stipulation true problem.now }
{
    if problem.says_bound {
        return Some(problem.record.bound);
    }
    match outcome {
        Outcome::Mate { dm, .. } => Some(*dm),
        Outcome::NoMate => None,
    }
}

/// How many men a side has.
#[tactic(auto, using(crate::proofs::Numbered::men_below_none, crate::proofs::Numbered::men_below_more))]
fn count_of(colour: Colour, position: &Position) -> usize
    ensures { result ≡ men_below 64 colour position.now.men }
{
    let mut count = 0;
    for number in 0..64 {
        if let Some(man) = position.man(Square::numbered(number)) {
            if man.colour == colour {
                count += 1;
            }
        }
    }
    count
}

/// Adds how many men each side has.
fn push_counts(text: &mut Vec<u8>, position: &Position) -> Result<(), AllocError>
    ensures { IfOk result (λ _. text.new.items ≡ text.old.items ++ count_text position.now.men) }
{
    push_number(text, count_of(Colour::White, position))?;
    text.push(b'+')?;
    push_number(text, count_of(Colour::Black, position))
}

/// What an operation says, without quotation marks.
fn unquoted_text(alloc: Global, operands: &[u8]) -> Result<Vec<u8>, AllocError>
    ensures { IfOk result (λ text. text.items ≡ unquoted operands.now) }
{
    let mut text = Vec::new(alloc);
    for byte in operands {
        if *byte != b'"' {
            text.push(*byte)?;
        }
    }
    Ok(text)
}

/// Adds what `id` says.
fn push_id(alloc: Global, text: &mut Vec<u8>, record: &Record) -> Result<(), AllocError>
    ensures { IfOk result (λ _. text.new.items ≡ text.old.items ++ id_text «record».now) }
{
    let id = unquoted_text(alloc, kept_operands(record.rest.as_slice(), b"id"))?;
    push_escaped(text, id.as_slice())
}

/// How a right to castle is told.
fn right_words(colour: Colour, wing: Wing) -> &'static [u8]
    ensures { result.now ≡ right_words colour wing }
{
    match (colour, wing) {
        (Colour::White, Wing::KingSide) => b"White may castle kingside. ",
        (Colour::White, Wing::QueenSide) => b"White may castle queenside. ",
        (Colour::Black, Wing::KingSide) => b"Black may castle kingside. ",
        (Colour::Black, Wing::QueenSide) => b"Black may castle queenside. ",
    }
}

/// Adds the right of a side to castle on a wing, where it has that.
#[tactic(auto, unfolding(crate::specs::Problems::right_text))]
fn push_right(
    text: &mut Vec<u8>,
    position: &Position,
    colour: Colour,
    wing: Wing,
) -> Result<(), AllocError>
    ensures { IfOk result (λ _. text.new.items ≡ text.old.items ++ right_text position.now colour wing) }
{
    if position.has_right(colour, wing) {
        text.extend_from_slice(right_words(colour, wing))?;
    }
    Ok(())
}

/// Adds where a pawn may be captured en passant.
#[tactic(auto, unfolding(crate::specs::Problems::target_words))]
fn push_target(text: &mut Vec<u8>, position: &Position) -> Result<(), AllocError>
    ensures { IfOk result (λ _. text.new.items ≡ text.old.items ++ target_words position.now.target) }
{
    match position.ep_target() {
        None => Ok(()),
        Some(square) => {
            text.extend_from_slice(b"En passant on ")?;
            push_square(text, square)?;
            text.extend_from_slice(b". ")?;
            Ok(())
        }
    }
}

/// Adds what a diagram doesn't show.
#[tactic(auto, unfolding(crate::specs::Problems::state_text))]
fn push_state(text: &mut Vec<u8>, position: &Position) -> Result<(), AllocError>
    ensures { IfOk result (λ _. text.new.items ≡ text.old.items ++ state_text position.now) }
{
    push_right(text, position, Colour::White, Wing::KingSide)?;
    push_right(text, position, Colour::White, Wing::QueenSide)?;
    push_right(text, position, Colour::Black, Wing::KingSide)?;
    push_right(text, position, Colour::Black, Wing::QueenSide)?;
    push_target(text, position)
}

/// Adds the number of moves by a diagram.
fn push_stipulation(text: &mut Vec<u8>, moves: Option<Bound>) -> Result<(), AllocError>
    ensures { IfOk result (λ _. text.new.items ≡ text.old.items ++ stipulation_text moves) }
{
    match moves {
        None => Ok(()),
        Some(bound) => {
            text.extend_from_slice(b" #")?;
            push_number(text, bound.get() as usize)
        }
    }
}

/// Adds the number of moves of a record.
fn push_bound(text: &mut Vec<u8>, moves: Option<Bound>) -> Result<(), AllocError>
    ensures { IfOk result (λ _. text.new.items ≡ text.old.items ++ bound_text moves) }
{
    match moves {
        None => Ok(()),
        Some(bound) => {
            text.extend_from_slice(b" dm ")?;
            push_number(text, bound.get() as usize)?;
            text.extend_from_slice(b";")
        }
    }
}

/// Whether an operation is `id`.
fn is_id(operation: &Operation) -> bool
    ensures { result ≡ is_id_entry operation.now }
{
    match operation.opcode.as_str().as_bytes() {
        [b'i', b'd'] => true,
        _ => false,
    }
}

/// Adds `id` alone of what a record says: all else may tell the solution.
fn push_operations(text: &mut Vec<u8>, operations: &[Operation]) -> Result<(), AllocError>
    ensures { IfOk result (λ _. text.new.items ≡ text.old.items ++ entries_text (filter is_id_entry operations.now)) }
{
    for operation in operations {
        if is_id(operation) {
            let operands = operation.operands.as_bytes();
            push_three(text, b" ", operation.opcode.as_str().as_bytes(), operands)?;
            text.push(b';')?;
        }
    }
    Ok(())
}

/// The record without a solution.
fn epd_text(alloc: Global, moves: Option<Bound>, record: &Record) -> Result<Vec<u8>, AllocError>
    ensures { IfOk result (λ text. text.items ≡ epd_text_of moves «record».now) }
{
    let mut text = Vec::from_slice(alloc, record.position.text().as_str().as_bytes())?;
    push_bound(&mut text, moves)?;
    push_operations(&mut text, record.rest.as_slice())?;
    Ok(text)
}

/// Adds the number, the stipulation and the counts of men.
#[tactic(auto, unfolding(crate::specs::Problems::heading_text))]
fn push_heading(text: &mut Vec<u8>, caption: &Caption<'_>) -> Result<(), AllocError>
    ensures { IfOk result (λ _. text.new.items ≡ text.old.items ++ heading_text caption.now.number caption.now.moves caption.now.«record».now) }
{
    let record = caption.record;
    text.extend_from_slice(b"<b>")?;
    push_number(text, caption.number)?;
    text.extend_from_slice(b"</b>")?;
    push_stipulation(text, caption.moves)?;
    text.extend_from_slice(b" ")?;
    push_counts(text, &record.position)
}

/// Adds `id`.
#[tactic(auto, unfolding(crate::specs::Problems::cite_text))]
fn push_cite(alloc: Global, text: &mut Vec<u8>, record: &Record) -> Result<(), AllocError>
    ensures { IfOk result (λ _. text.new.items ≡ text.old.items ++ cite_text «record».now) }
{
    text.extend_from_slice(b"<cite>")?;
    push_id(alloc, text, record)?;
    text.extend_from_slice(b"</cite>")
}

/// Adds what a diagram doesn't show.
#[tactic(auto, unfolding(crate::specs::Problems::small_text))]
fn push_small(text: &mut Vec<u8>, record: &Record) -> Result<(), AllocError>
    ensures { IfOk result (λ _. text.new.items ≡ text.old.items ++ small_text «record».now) }
{
    text.extend_from_slice(b"<small>")?;
    push_state(text, &record.position)?;
    text.extend_from_slice(b"</small>")
}

/// Adds the record to be copied.
#[tactic(auto, unfolding(crate::specs::Problems::code_text))]
fn push_code(alloc: Global, text: &mut Vec<u8>, caption: &Caption<'_>) -> Result<(), AllocError>
    ensures { IfOk result (λ _. text.new.items ≡ text.old.items ++ code_text caption.now.moves caption.now.«record».now) }
{
    let epd = epd_text(alloc, caption.moves, caption.record)?;
    text.extend_from_slice(b"<code>")?;
    push_escaped(text, epd.as_slice())?;
    text.extend_from_slice(b"</code>")
}

/// Adds what is said of a problem.
#[tactic(auto, unfolding(crate::specs::Problems::details_text))]
fn push_details(alloc: Global, text: &mut Vec<u8>, caption: &Caption<'_>) -> Result<(), AllocError>
    ensures { IfOk result (λ _. text.new.items ≡ text.old.items ++ details_text caption.now.number caption.now.moves caption.now.«record».now) }
{
    push_heading(text, caption)?;
    push_cite(alloc, text, caption.record)?;
    push_small(text, caption.record)?;
    push_code(alloc, text, caption)
}

/// Adds what stands beneath a diagram.
#[tactic(auto, unfolding(crate::specs::Problems::caption_text))]
fn push_caption(alloc: Global, text: &mut Vec<u8>, caption: &Caption<'_>) -> Result<(), AllocError>
    ensures { IfOk result (λ _. text.new.items ≡ text.old.items ++ caption_text caption.now.number caption.now.moves caption.now.«record».now) }
{
    text.extend_from_slice(b"<figcaption>")?;
    push_details(alloc, text, caption)?;
    text.extend_from_slice(b"</figcaption>")?;
    Ok(())
}

/// Adds a problem.
#[tactic(auto, unfolding(crate::specs::Problems::problem_text))]
pub(crate) fn push_problem(
    alloc: Global,
    text: &mut Vec<u8>,
    caption: &Caption<'_>,
) -> Result<(), AllocError>
    ensures { IfOk result (λ _. text.new.items ≡ text.old.items ++ problem_text caption.now.number caption.now.moves caption.now.«record».now) }
{
    let record = caption.record;
    text.extend_from_slice(b"<figure>")?;
    push_diagram(text, &record.position)?;
    push_caption(alloc, text, caption)?;
    text.extend_from_slice(b"</figure>\n")
}

/// Adds a problem that isn't solved.
fn push_unsolved_problem(
    alloc: Global,
    text: &mut Vec<u8>,
    number: usize,
    problem: &PageProblem,
) -> Result<(), AllocError>
    ensures { IfOk result (λ _. text.new.items ≡ text.old.items
        ++ problem_text number (stipulation false problem.now) problem.now.asked) }
{
    let caption = Caption {
        number,
        moves: said_stipulation(problem),
        record: &problem.record,
    };
    push_problem(alloc, text, &caption)
}

/// Adds problems, numbered from 1, of which none is solved.
#[tactic(auto, unfolding(crate::specs::Problems::problems_from))]
pub(crate) fn push_problems(
    alloc: Global,
    text: &mut Vec<u8>,
    problems: &[PageProblem],
) -> Result<(), AllocError>
    ensures { IfOk result (λ _. text.new.items ≡ text.old.items ++ problems_from false 1 problems.now) }
{
    for (index, problem) in problems.iter().enumerate() {
        push_unsolved_problem(alloc, text, index + 1, problem)?;
    }
    Ok(())
}
