//! What files hold of a page's contents.

ghost use Rattle.std.specs.Prelude.{◌≡◌, ◌≢◌, ◌++◌, IfOk, length, map};
ghost use Rattle.problem_sheets.specs.Contents.{Adds, AddsFile, AddsFiles, has_refused, no_contents, refused_text};

use crate::diagrams::push_number;
use crate::escaping::{push_escaped, push_three};
use crate::problems::PageProblem;
use byte_streams::NoMemory;
use chess_moves::Rays;
use chess_notation::{EpdFault, is_blank, read_record, says_bound};
use chess_problems::Bound;
use std::alloc::Global;
use std::marker::Model;
use text_lines::{first_line, without_cr};

/// The problems of a page in their order, and what it says of the lines that are refused.
#[derive(Drop)]
pub struct Contents {
    pub(crate) problems: Vec<PageProblem>,
    pub(crate) refused: Vec<u8>,
}

impl Model for Contents {
    ghost use Rattle.problem_sheets.specs.Contents.{ContentsValue};

    ghost Value = { ContentsValue };

    ghost view = { λ c. record { problems = c.problems.items; refused = c.refused.items } };
}

impl Contents {
    /// Of no file.
    pub fn new(alloc: Global) -> Contents
        ensures { result ≡ no_contents }
    {
        Contents {
            problems: Vec::new(alloc),
            refused: Vec::new(alloc),
        }
    }

    /// Whether a line is refused.
    pub fn has_refused(&self) -> bool
        ensures { result ≡ has_refused self.now }
    {
        self.refused.len() > 0
    }
}

/// The place of a line: the name of its file and its number, from 1.
#[derive(Clone, Copy)]
pub(crate) struct Place<'a> {
    pub name: &'a str,
    pub number: usize,
}

/// Adds what is said of a line that is refused. Want of memory is no fault of the line.
fn push_refused(text: &mut Vec<u8>, place: &Place<'_>, fault: EpdFault) -> Result<(), NoMemory>
    ensures fault { IfOk result (λ _. fault ≢ EpdFault.NoMemory) }
    ensures text { IfOk result (λ _. text.new.items ≡ text.old.items ++ refused_text place.now.name.now place.now.number fault) }
{
    if fault == EpdFault::NoMemory {
        return Err(NoMemory);
    }
    text.extend_from_slice(b"<p>")?;
    push_escaped(text, place.name.as_bytes())?;
    text.extend_from_slice(b":")?;
    push_number(text, place.number)?;
    push_three(text, b" ", fault.code().as_bytes(), b"</p>\n")?;
    Ok(())
}

/// Adds what a line says.
fn add_line(
    alloc: Global,
    rays: &Rays,
    default: Bound,
    place: &Place<'_>,
    line: &[u8],
    contents: &mut Contents,
) -> Result<(), NoMemory>
    ensures { IfOk result (λ _. Adds default place.now.name.now place.now.number line.now contents.old contents.new) }
{
    if is_blank(line) {
        return Ok(());
    }
    match read_record(alloc, rays, line, default) {
        Ok(record) => {
            let problem = PageProblem {
                record,
                says_bound: says_bound(line),
            };
            let Ok(()) = contents.problems.push(problem) else {
                return Err(NoMemory);
            };
            Ok(())
        }
        Err(fault) => {
            push_refused(&mut contents.refused, place, fault)?;
            Ok(())
        }
    }
}

/// Adds what a file of this name holds: each line a record, or refused, or blank.
#[tactic(auto, unfolding(crate::specs::Contents::AddsFile))]
fn add_file(
    alloc: Global,
    rays: &Rays,
    default: Bound,
    name: &str,
    input: &[u8],
    contents: &mut Contents,
) -> Result<(), NoMemory>
    ensures { IfOk result (λ _. AddsFile default name.now input.now contents.old contents.new) }
{
    let mut rest = input;
    for number in 1..usize::MAX {
        let place = Place { name, number };
        let Some((line, more)) = first_line(rest) else {
            return add_line(alloc, rays, default, &place, without_cr(rest), contents);
        };
        add_line(alloc, rays, default, &place, without_cr(line), contents)?;
        rest = more;
    }
    Err(NoMemory)
}

/// What files of these names hold, one after the other: each line a record, or refused, or blank. A record without a bound has the default.
/// Only a growth that is refused is an error.
pub fn add_files(
    alloc: Global,
    rays: &Rays,
    default: Bound,
    names: &[&str],
    inputs: &[Vec<u8>],
) -> Result<Contents, NoMemory>
    requires { length inputs.now ≡ length names.now }
    ensures { IfOk result (λ contents. AddsFiles default (map (λ s. s.now) names.now) (map (λ bytes. bytes.items) inputs.now) no_contents contents) }
{
    let mut contents = Contents::new(alloc);
    for index in 0..names.len() {
        let input = inputs[index].as_slice();
        add_file(alloc, rays, default, names[index], input, &mut contents)?;
    }
    Ok(contents)
}
