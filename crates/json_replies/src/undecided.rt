//! What JSON tells of an answer that was not decided, by the comment of the answer.

ghost use Rattle.std.specs.Prelude.{◌≡◌, ◌++◌, codes, OnOk, map};
ghost use Rattle.chess_notation.specs.Opcodes.{same_text};
ghost use Rattle.json_replies.specs.Answers.{comment_members, has_comma as has_comma_in, undecided_by};
ghost use Rattle.json_replies.specs.Answers.{undecided_member, undecided_members, word_in as word_said_in};

use crate::answers::push_name;
use crate::cuts::{cut, without_first};
use crate::operations::parts_of;
use std::alloc::AllocError;

/// The word behind so many spaces and one.
fn word_in(text: &[u8], spaces: usize) -> &[u8]
    ensures { result.now ≡ word_said_in spaces text.now }
{
    let (_, behind) = cut(text, b' ', spaces);
    cut(without_first(behind), b' ', 0).0
}

fn has_comma(text: &[u8]) -> bool
    ensures { result ≡ has_comma_in text.now }
{
    !cut(text, b',', 0).1.is_empty()
}

fn is_comment(opcode: &[u8]) -> bool
    ensures { result ≡ same_text (codes "c0") opcode.now }
{
    matches!(opcode, [b'c', b'0'])
}

/// Whether a word begins the comment of an answer of which nothing is known.
fn is_not(word: &[u8]) -> bool
    ensures { result ≡ same_text (codes "\"not") word.now }
{
    matches!(word, [b'"', b'n', b'o', b't'])
}

/// Adds within how many moves there is known to be no mate, and within how many one was asked for.
#[tactic(auto, unfolding(crate::specs::Answers::undecided_by))]
fn push_undecided_by(out: &mut Vec<u8>, none: &[u8], asked: &[u8]) -> Result<(), AllocError>
    ensures { OnOk result (out.new.items ≡ out.old.items ++ undecided_by none.now asked.now) }
{
    push_name(out, b"decided")?;
    out.extend_from_slice(b"false")?;
    push_name(out, b"none_within")?;
    out.extend_from_slice(none)?;
    push_name(out, b"asked")?;
    out.extend_from_slice(asked)
}

/// Adds what a comment says of it.
fn push_comment(out: &mut Vec<u8>, comment: &[u8]) -> Result<(), AllocError>
    ensures { OnOk result (out.new.items ≡ out.old.items ++ comment_members comment.now) }
{
    if is_not(word_in(comment, 0)) {
        return push_undecided_by(out, b"0", word_in(comment, 3));
    }
    if has_comma(comment) {
        let (none, _) = cut(word_in(comment, 3), b',', 0);
        return push_undecided_by(out, none, word_in(comment, 7));
    }
    Ok(())
}

/// Adds what an operation says of it.
fn push_member(out: &mut Vec<u8>, operation: &[u8]) -> Result<(), AllocError>
    ensures { OnOk result (out.new.items ≡ out.old.items ++ undecided_member operation.now) }
{
    let (opcode, operands) = parts_of(operation);
    if is_comment(opcode) {
        push_comment(out, operands)
    } else {
        Ok(())
    }
}

/// Adds what the operations of an answer say of it: nothing, where the answer is the truth about its problem.
pub(crate) fn push_undecided(out: &mut Vec<u8>, operations: &[&[u8]]) -> Result<(), AllocError>
    ensures { OnOk result (out.new.items ≡ out.old.items ++ undecided_members (map (λ o. o.now) operations.now)) }
{
    for operation in operations {
        push_member(out, operation)?;
    }
    Ok(())
}
