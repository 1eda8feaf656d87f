//! The solutions on the last pages.

ghost use Rattle.std.specs.Prelude.{◌≡◌, ◌++◌, IfOk, codes, decimal, true};
ghost use Rattle.chess_notation.specs.Records.{problem_of};
ghost use Rattle.chess_problems.specs.Outcomes.{IsPlayable};
ghost use Rattle.mate_search.specs.inside.Truth.{truth};
ghost use Rattle.problem_sheets.specs.Problems.{problem_text, problems_from, stipulation};
ghost use Rattle.problem_sheets.specs.Solutions.{column_pieces, counted_keys_text, figurine, flags_text, lengths_text, moves_text};
ghost use Rattle.problem_sheets.specs.Solutions.{no_mate_words as no_mate_words_of, several_text, short_text};
ghost use Rattle.problem_sheets.specs.Solutions.{solution_form as solution_form_of, solution_text, solutions_from, solved_text};

use crate::diagrams::push_number;
use crate::problems::{Caption, PageProblem, found_stipulation, push_problem};
use byte_streams::NoMemory;
use chess_moves::Rays;
use chess_notation::Record;
use chess_problems::Outcome;
use mate_search::{Memo, solve};
use mate_tree::{Form, Pieces, push_column};
use std::alloc::{AllocError, Global};
use std::slice::from_ref;

/// How moves are written.
#[derive(Clone, Copy)]
pub(crate) struct Notation<'a> {
    pub rays: &'a Rays,
    /// What stands for pieces.
    pub pieces: Pieces,
}

/// What stands for a character, a figurine for a piece's letter.
fn figurine(byte: &u8) -> &[u8]
    ensures { result.now ≡ figurine byte.now }
{
    if *byte == b'K' {
        b"&#9812;"
    } else if *byte == b'Q' {
        b"&#9813;"
    } else if *byte == b'R' {
        b"&#9814;"
    } else if *byte == b'B' {
        b"&#9815;"
    } else if *byte == b'N' {
        b"&#9816;"
    } else {
        from_ref(byte)
    }
}

/// Adds moves, with letters or with figurines.
fn push_moves(text: &mut Vec<u8>, pieces: Pieces, moves: &[u8]) -> Result<(), AllocError>
    ensures { IfOk result (λ _. text.new.items ≡ text.old.items ++ moves_text pieces moves.now) }
{
    if !matches!(pieces, Pieces::Figurines) {
        return text.extend_from_slice(moves);
    }
    for byte in moves {
        text.extend_from_slice(figurine(byte))?;
    }
    Ok(())
}

/// The letters of a column; where figurines are to stand for pieces, those of SAN, whose place they take.
fn column_pieces(pieces: Pieces) -> Pieces
    ensures { result ≡ column_pieces pieces }
{
    match pieces {
        Pieces::San | Pieces::Figurines => Pieces::San,
        Pieces::Letters(letters) => Pieces::Letters(letters),
    }
}

/// What is shown of a solution: the defences that parry alone, in a column.
fn solution_form(pieces: Pieces) -> Form
    ensures { result ≡ solution_form_of pieces }
{
    Form {
        moves: None,
        defences: true,
        set_play: false,
        tries: false,
        lines: None,
        column: true,
        pieces: column_pieces(pieces),
    }
}

/// Adds a solution as a magazine's column has it.
fn push_solved(
    alloc: Global,
    text: &mut Vec<u8>,
    notation: &Notation<'_>,
    record: &Record,
    outcome: &Outcome,
    memo: &mut Memo,
) -> Result<(), NoMemory>
    requires { IsPlayable «record».now.position outcome.now }
    ensures text { IfOk result (λ _. text.new.items ≡ text.old.items ++ solved_text notation.now.pieces «record».now outcome.now) }
    ensures room { memo.new.room ≡ memo.old.room }
{
    let mut moves = Vec::new(alloc);
    push_column(
        notation.rays,
        solution_form(notation.pieces),
        record,
        outcome,
        memo,
        &mut moves,
    )?;
    push_moves(text, notation.pieces, moves.as_slice())?;
    Ok(())
}

/// Adds words and a number of moves.
fn push_counted(text: &mut Vec<u8>, words: &[u8], moves: u8) -> Result<(), AllocError>
    ensures { IfOk result (λ _. text.new.items ≡ text.old.items ++ words.now ++ decimal moves) }
{
    text.extend_from_slice(words)?;
    push_number(text, moves as usize)
}

/// Adds that there is a mate in fewer moves than are asked for.
fn push_lengths(text: &mut Vec<u8>, bound: u8, dm: u8) -> Result<(), AllocError>
    ensures { IfOk result (λ _. text.new.items ≡ text.old.items ++ lengths_text bound dm) }
{
    push_counted(text, b" <i>short: #", dm)?;
    push_counted(text, b", not #", bound)?;
    text.extend_from_slice(b"</i>")?;
    Ok(())
}

/// Adds that there is a mate in fewer moves than the line says, where it says a number and there is one.
fn push_short(text: &mut Vec<u8>, said: bool, bound: u8, dm: u8) -> Result<(), AllocError>
    ensures { IfOk result (λ _. text.new.items ≡ text.old.items ++ short_text said bound dm) }
{
    if said && dm < bound {
        push_lengths(text, bound, dm)?;
    }
    Ok(())
}

/// Adds how many keys there are.
#[tactic(auto, unfolding(crate::specs::Solutions::counted_keys_text))]
fn push_counted_keys(text: &mut Vec<u8>, keys: usize) -> Result<(), AllocError>
    ensures { IfOk result (λ _. text.new.items ≡ text.old.items ++ counted_keys_text keys) }
{
    text.extend_from_slice(b" <i>")?;
    push_number(text, keys)?;
    text.extend_from_slice(b" keys</i>")
}

/// Adds how many keys there are, where there is more than one.
fn push_several(text: &mut Vec<u8>, keys: usize) -> Result<(), AllocError>
    ensures { IfOk result (λ _. text.new.items ≡ text.old.items ++ several_text keys) }
{
    if keys <= 1 {
        return Ok(());
    }
    push_counted_keys(text, keys)
}

/// What stands before the number of moves in which there is no mate.
fn no_mate_words(said: bool) -> &'static [u8]
    ensures { result.now ≡ no_mate_words_of said }
{
    if said {
        b" <i>no mate in "
    } else {
        b" <i>no mate within "
    }
}

/// Adds that there is no mate.
fn push_no_mate(text: &mut Vec<u8>, said: bool, bound: u8) -> Result<(), AllocError>
    ensures { IfOk result (λ _. text.new.items ≡ text.old.items ++ no_mate_words_of said ++ decimal bound ++ codes "</i>") }
{
    text.extend_from_slice(no_mate_words(said))?;
    push_number(text, bound as usize)?;
    text.extend_from_slice(b"</i>")
}

/// Adds what is not sound of a problem.
fn push_flags(
    text: &mut Vec<u8>,
    said: bool,
    bound: u8,
    outcome: &Outcome,
) -> Result<(), AllocError>
    ensures { IfOk result (λ _. text.new.items ≡ text.old.items ++ flags_text said bound outcome.now) }
{
    match outcome {
        Outcome::Mate { dm, keys, .. } => {
            push_short(text, said, bound, dm.get())?;
            push_several(text, keys.len())?;
            text.extend_from_slice(b" ")
        }
        Outcome::NoMate => push_no_mate(text, said, bound),
    }
}

/// A problem by its number on the page.
#[derive(Clone, Copy)]
struct Numbered<'a> {
    number: usize,
    problem: &'a PageProblem,
}

/// Adds the solution of a problem, by what was found of it, behind its number.
#[tactic(auto, unfolding(crate::specs::Solutions::solution_text))]
fn push_solution(
    alloc: Global,
    text: &mut Vec<u8>,
    notation: &Notation<'_>,
    numbered: &Numbered<'_>,
    outcome: &Outcome,
    memo: &mut Memo,
) -> Result<(), NoMemory>
    requires truth { outcome.now ≡ truth (problem_of numbered.now.problem.now.asked) }
    requires playable { IsPlayable numbered.now.problem.now.asked.position outcome.now }
    ensures text { IfOk result (λ _. text.new.items ≡ text.old.items
        ++ solution_text notation.now.pieces numbered.now.number numbered.now.problem.now) }
    ensures room { memo.new.room ≡ memo.old.room }
{
    let Numbered { number, problem } = *numbered;
    let record = &problem.record;
    text.extend_from_slice(b"<p><b>")?;
    push_number(text, number)?;
    text.extend_from_slice(b"</b>")?;
    push_flags(text, problem.says_bound, record.bound.get(), outcome)?;
    push_solved(alloc, text, notation, record, outcome, memo)?;
    text.extend_from_slice(b"</p>\n")?;
    Ok(())
}

/// Solves a problem, and adds it, and its solution to another text.
fn push_solved_problem(
    alloc: Global,
    text: &mut Vec<u8>,
    solutions: &mut Vec<u8>,
    notation: &Notation<'_>,
    numbered: &Numbered<'_>,
    memo: &mut Memo,
) -> Result<(), NoMemory>
    ensures text { IfOk result (λ _. text.new.items ≡ text.old.items
        ++ problem_text numbered.now.number (stipulation true numbered.now.problem.now) numbered.now.problem.now.asked) }
    ensures solutions { IfOk result (λ _. solutions.new.items ≡ solutions.old.items
        ++ solution_text notation.now.pieces numbered.now.number numbered.now.problem.now) }
    ensures room { memo.new.room ≡ memo.old.room }
{
    let Numbered { number, problem } = *numbered;
    let outcome = solve(notation.rays, &problem.record.problem(), memo);
    let caption = Caption {
        number,
        moves: found_stipulation(problem, &outcome),
        record: &problem.record,
    };
    push_problem(alloc, text, &caption)?;
    push_solution(alloc, solutions, notation, numbered, &outcome, memo)
}

/// Solves problems, and adds them, and their solutions to another text, numbered from 1.
#[tactic(auto, unfolding(crate::specs::Problems::problems_from, crate::specs::Solutions::solutions_from))]
pub(crate) fn push_solved_problems(
    alloc: Global,
    text: &mut Vec<u8>,
    solutions: &mut Vec<u8>,
    notation: &Notation<'_>,
    problems: &[PageProblem],
    memo: &mut Memo,
) -> Result<(), NoMemory>
    ensures text { IfOk result (λ _. text.new.items ≡ text.old.items ++ problems_from true 1 problems.now) }
    ensures solutions { IfOk result (λ _. solutions.new.items ≡ solutions.old.items
        ++ solutions_from notation.now.pieces 1 problems.now) }
    ensures room { memo.new.room ≡ memo.old.room }
{
    for (index, problem) in problems.iter().enumerate() {
        let number = index + 1;
        let numbered = Numbered { number, problem };
        push_solved_problem(alloc, text, solutions, notation, &numbered, memo)?;
    }
    Ok(())
}
