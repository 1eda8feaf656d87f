//! Answers with their trees as objects of JSON.

ghost use Rattle.std.specs.Prelude.{◌≡◌, ◌==◌, ◌++◌, IfOk, OnOk, flat_map, map};
ghost use Rattle.std.specs.List.{slice_split};
ghost use Rattle.chess_board.specs.Characters.{char};
ghost use Rattle.json_replies.specs.Trees.{line_string, line_strings as strings_of_lines, tree_json as tree_json_of, tree_object as tree_object_of};

use crate::answers::{is_refusal, open_answer, refusal_object};
use crate::cuts::{cut, without_first};
use crate::strings::{push_byte, push_string};
use std::alloc::{AllocError, Global};

/// What stands between the newlines of a text.
fn split_lines(alloc: Global, text: &[u8]) -> Result<Vec<&[u8]>, AllocError>
    ensures { IfOk result (λ lines. map (λ l. l.now) lines.items ≡ slice_split (λ b. b == char "\n") text.now) }
{
    text.split(|byte| *byte == b'\n').collect(alloc)
}

/// Adds a line as a string behind a comma, and of an empty one nothing.
fn push_line(out: &mut Vec<u8>, line: &[u8]) -> Result<(), AllocError>
    ensures { OnOk result (out.new.items ≡ out.old.items ++ line_string line.now) }
{
    if line.is_empty() {
        return Ok(());
    }
    push_byte(out, b',')?;
    push_string(out, line)
}

/// These lines as strings, likewise.
fn strings_of(alloc: Global, lines: &[&[u8]]) -> Result<Vec<u8>, AllocError>
    ensures { IfOk result (λ text. text.items ≡ flat_map line_string (map (λ l. l.now) lines.now)) }
{
    let mut text = Vec::new(alloc);
    for line in lines {
        push_line(&mut text, line)?;
    }
    Ok(text)
}

/// The lines of a text as strings, likewise.
fn line_strings(alloc: Global, text: &[u8]) -> Result<Vec<u8>, AllocError>
    ensures { IfOk result (λ strings. strings.items ≡ strings_of_lines text.now) }
{
    let lines = split_lines(alloc, text)?;
    strings_of(alloc, lines.as_slice())
}

/// The object of an answer, whose tree is what stands below it.
#[tactic(auto, unfolding(crate::specs::Trees::tree_object))]
fn tree_object(
    alloc: Global,
    front: &[u8],
    number: usize,
    reply: &[u8],
) -> Result<Vec<u8>, AllocError>
    ensures { IfOk result (λ text. text.items ≡ tree_object_of front.now number reply.now) }
{
    let (answer, tree) = cut(reply, b'\n', 0);
    let strings = line_strings(alloc, tree)?;
    let mut out = open_answer(alloc, front, number, answer)?;
    out.extend_from_slice(b"},\"tree\":[")?;
    out.extend_from_slice(without_first(strings.as_slice()))?;
    out.extend_from_slice(b"]}\n")?;
    Ok(out)
}

/// The reply to a line, as `tree` writes it, in JSON.
pub(crate) fn tree_json(
    alloc: Global,
    front: &[u8],
    number: usize,
    reply: &[u8],
) -> Result<Vec<u8>, AllocError>
    ensures { IfOk result (λ text. text.items ≡ tree_json_of front.now number reply.now) }
{
    if is_refusal(reply) {
        refusal_object(alloc, front, number, reply)
    } else {
        tree_object(alloc, front, number, reply)
    }
}
