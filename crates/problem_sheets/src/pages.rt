//! A page.

ghost use Rattle.std.specs.Prelude.{◌≡◌, ◌++◌, IfOk, false, true};
ghost use Rattle.problem_sheets.specs.Pages.{framed_text, head_text, main_text, page_end, page_start, page_text as page_text_of};
ghost use Rattle.problem_sheets.specs.Pages.{refusals_text, section_text, solutions_text, style};
ghost use Rattle.problem_sheets.specs.Solutions.{solutions_from};

use crate::contents::Contents;
use crate::diagrams::push_all_shapes;
use crate::escaping::{push_escaped, push_three};
use crate::page_parts::{PAGE_END, PAGE_START, STYLE};
use crate::problems::push_problems;
use crate::solutions::{Notation, push_solved_problems};
use byte_streams::NoMemory;
use chess_board::Colour;
use chess_moves::Rays;
use mate_search::Memo;
use mate_tree::Pieces;
use std::alloc::{AllocError, Global};

/// What a page has beside its diagrams.
#[derive(Clone, Copy, Debug, PartialEq, Eq)]
pub struct Form {
    /// Whether the problems are solved, and their solutions told on the last pages.
    pub solutions: bool,
    /// What stands for pieces there.
    pub pieces: Pieces,
}

/// Adds what each page begins with.
#[tactic(auto, unfolding(crate::specs::Pages::page_start))]
fn push_start(text: &mut Vec<u8>) -> Result<(), AllocError>
    ensures { IfOk result (λ _. text.new.items ≡ text.old.items ++ page_start) }
{
    text.extend_from_slice(PAGE_START.as_bytes())
}

/// Adds how each page looks.
#[tactic(auto, unfolding(crate::specs::Pages::style))]
fn push_style(text: &mut Vec<u8>) -> Result<(), AllocError>
    ensures { IfOk result (λ _. text.new.items ≡ text.old.items ++ style) }
{
    text.extend_from_slice(STYLE.as_bytes())
}

/// Adds what each page ends with.
#[tactic(auto, unfolding(crate::specs::Pages::page_end))]
fn push_end(text: &mut Vec<u8>) -> Result<(), AllocError>
    ensures { IfOk result (λ _. text.new.items ≡ text.old.items ++ page_end) }
{
    text.extend_from_slice(PAGE_END.as_bytes())
}

/// Adds the head of a page with this title.
#[tactic(auto, unfolding(crate::specs::Pages::head_text))]
fn push_head(text: &mut Vec<u8>, title: &[u8]) -> Result<(), AllocError>
    ensures { IfOk result (λ _. text.new.items ≡ text.old.items ++ head_text title.now) }
{
    push_start(text)?;
    push_escaped(text, title)?;
    push_style(text)?;
    push_all_shapes(text, Colour::White)?;
    text.extend_from_slice(b"</svg>\n<h1>")?;
    push_escaped(text, title)?;
    text.extend_from_slice(b"</h1>\n")?;
    Ok(())
}

/// Adds a section of this name.
fn push_section(text: &mut Vec<u8>, name: &[u8], paragraphs: &[u8]) -> Result<(), AllocError>
    ensures { IfOk result (λ _. text.new.items ≡ text.old.items ++ section_text name.now paragraphs.now) }
{
    push_three(text, b"<section>\n<h2>", name, b"</h2>\n")?;
    text.extend_from_slice(paragraphs)?;
    text.extend_from_slice(b"</section>\n")
}

/// Adds paragraphs in a frame.
#[tactic(auto, unfolding(crate::specs::Pages::framed_text))]
fn push_framed(text: &mut Vec<u8>, paragraphs: &[u8]) -> Result<(), AllocError>
    ensures { IfOk result (λ _. text.new.items ≡ text.old.items ++ framed_text paragraphs.now) }
{
    push_three(text, b"<div>\n", paragraphs, b"</div>\n")
}

/// Adds a section of this name, its paragraphs in a frame.
fn push_framed_section(text: &mut Vec<u8>, name: &[u8], paragraphs: &[u8]) -> Result<(), AllocError>
    ensures { IfOk result (λ _. text.new.items ≡ text.old.items ++ section_text name.now (framed_text paragraphs.now)) }
{
    push_three(text, b"<section>\n<h2>", name, b"</h2>\n")?;
    push_framed(text, paragraphs)?;
    text.extend_from_slice(b"</section>\n")
}

/// Adds the lines that are refused, where there are any.
fn push_refusals(text: &mut Vec<u8>, refused: &[u8]) -> Result<(), AllocError>
    ensures { IfOk result (λ _. text.new.items ≡ text.old.items ++ refusals_text refused.now) }
{
    match refused {
        [] => Ok(()),
        [_, ..] => push_section(text, b"Lines refused", refused),
    }
}

/// Adds the problems, of which none is solved.
#[tactic(auto, unfolding(crate::specs::Pages::main_text))]
fn push_main(alloc: Global, text: &mut Vec<u8>, contents: &Contents) -> Result<(), AllocError>
    ensures { IfOk result (λ _. text.new.items ≡ text.old.items ++ main_text false contents.now) }
{
    text.extend_from_slice(b"<main>\n")?;
    push_problems(alloc, text, contents.problems.as_slice())?;
    text.extend_from_slice(b"</main>\n")
}

/// Solves the problems, and adds them, and their solutions to another text.
#[tactic(auto, unfolding(crate::specs::Pages::main_text))]
fn push_solved_main(
    alloc: Global,
    text: &mut Vec<u8>,
    solutions: &mut Vec<u8>,
    notation: &Notation<'_>,
    contents: &Contents,
    memo: &mut Memo,
) -> Result<(), NoMemory>
    ensures text { IfOk result (λ _. text.new.items ≡ text.old.items ++ main_text true contents.now) }
    ensures solutions { IfOk result (λ _. solutions.new.items ≡ solutions.old.items
        ++ solutions_from notation.now.pieces 1 contents.now.problems) }
    ensures room { memo.new.room ≡ memo.old.room }
{
    let problems = contents.problems.as_slice();
    text.extend_from_slice(b"<main>\n")?;
    push_solved_problems(alloc, text, solutions, notation, problems, memo)?;
    text.extend_from_slice(b"</main>\n")?;
    Ok(())
}

/// Adds the problems, and where solutions are asked for, solves them and adds these.
fn push_problems_asked(
    alloc: Global,
    text: &mut Vec<u8>,
    rays: &Rays,
    form: &Form,
    contents: &Contents,
    memo: &mut Memo,
) -> Result<(), NoMemory>
    ensures text { IfOk result (λ _. text.new.items ≡ text.old.items ++ main_text form.now.solutions contents.now
        ++ solutions_text form.now contents.now) }
    ensures room { memo.new.room ≡ memo.old.room }
{
    if !form.solutions {
        push_main(alloc, text, contents)?;
        return Ok(());
    }
    let notation = Notation {
        rays,
        pieces: form.pieces,
    };
    let mut solutions = Vec::new(alloc);
    push_solved_main(alloc, text, &mut solutions, &notation, contents, memo)?;
    push_framed_section(text, b"Solutions", solutions.as_slice())?;
    Ok(())
}

/// The page of these contents, with such a title: HTML whose diagrams are drawn within it, so that a browser needs nothing else. Nothing is
/// solved unless solutions are asked for. Only a growth that is refused is an error.
#[tactic(auto, unfolding(crate::specs::Pages::page_text))]
pub fn page_text(
    alloc: Global,
    rays: &Rays,
    form: &Form,
    title: &str,
    contents: &Contents,
    memo: &mut Memo,
) -> Result<Vec<u8>, NoMemory>
    ensures text { IfOk result (λ text. text.items ≡ page_text_of form.now title.now contents.now) }
    ensures room { memo.new.room ≡ memo.old.room }
{
    let mut text = Vec::new(alloc);
    push_head(&mut text, title.as_bytes())?;
    push_problems_asked(alloc, &mut text, rays, form, contents, memo)?;
    push_refusals(&mut text, contents.refused.as_slice())?;
    push_end(&mut text)?;
    Ok(text)
}
