//! Answers to records as objects of JSON.

ghost use Rattle.std.specs.Prelude.{◌≡◌, ◌++◌, IfOk, OnOk, flat_map, map, true};
ghost use Rattle.json_replies.specs.Answers.{answer_json as answer_json_of, answer_object as answer_object_of, error_in as error_said_in, open_answer as open_answer_of};
ghost use Rattle.json_replies.specs.Answers.{front_of as front_of_file, mate_member, mate_value, members, members_by, named, opening as opening_of};
ghost use Rattle.json_replies.specs.Answers.{is_refusal as is_refusal_text, other_member, refusal_object as refusal_object_of};

use crate::cuts::{cut, without_first};
use crate::operations::{have_keys, is_length, operations_of, parts_of, tells_mate};
use crate::strings::{push_array, push_byte, push_string};
use crate::undecided::push_undecided;
use std::alloc::{AllocError, Global};

/// What all objects of a file of this name begin with, where there are several.
fn named_front(alloc: Global, name: &str) -> Result<Vec<u8>, AllocError>
    ensures { IfOk result (λ front. front.items ≡ front_of_file true name.now) }
{
    let mut front = Vec::from_slice(alloc, b"{\"file\":")?;
    push_string(&mut front, name.as_bytes())?;
    push_byte(&mut front, b',')?;
    Ok(front)
}

/// What all objects of a file begin with: it names the file where there are several.
pub fn front_of(alloc: Global, several: bool, name: &str) -> Result<Vec<u8>, AllocError>
    ensures { IfOk result (λ front. front.items ≡ front_of_file several name.now) }
{
    if several {
        named_front(alloc, name)
    } else {
        Vec::from_slice(alloc, b"{")
    }
}

/// An object as it begins.
pub(crate) fn opening(alloc: Global, front: &[u8], number: usize) -> Result<Vec<u8>, AllocError>
    ensures { IfOk result (λ out. out.items ≡ opening_of front.now number) }
{
    let mut out = Vec::from_slice(alloc, front)?;
    out.extend_from_slice(b"\"line\":")?;
    out.extend_from_slice(number.to_string(alloc)?.as_bytes())?;
    Ok(out)
}

/// Adds the name of a member, behind a comma and before a colon.
#[tactic(auto, unfolding(crate::specs::Answers::named))]
pub(crate) fn push_name(out: &mut Vec<u8>, name: &[u8]) -> Result<(), AllocError>
    ensures { OnOk result (out.new.items ≡ out.old.items ++ named name.now) }
{
    push_byte(out, b',')?;
    push_string(out, name)?;
    push_byte(out, b':')
}

/// Adds the value of an operation that tells of a mate.
fn push_mate_value(
    alloc: Global,
    out: &mut Vec<u8>,
    opcode: &[u8],
    operands: &[u8],
) -> Result<(), AllocError>
    ensures { OnOk result (out.new.items ≡ out.old.items ++ mate_value opcode.now operands.now) }
{
    if is_length(opcode) {
        out.extend_from_slice(without_first(operands))
    } else {
        push_array(alloc, out, operands)
    }
}

/// Adds the member of an operation that tells of a mate, where there are keys.
fn push_mate_member(
    alloc: Global,
    out: &mut Vec<u8>,
    keys: bool,
    operation: &[u8],
) -> Result<(), AllocError>
    ensures { OnOk result (out.new.items ≡ out.old.items ++ mate_member keys operation.now) }
{
    let (opcode, operands) = parts_of(operation);
    if !(keys && tells_mate(opcode)) {
        return Ok(());
    }
    push_name(out, opcode)?;
    push_mate_value(alloc, out, opcode, operands)
}

/// Adds the member of any other operation.
fn push_other_member(
    alloc: Global,
    out: &mut Vec<u8>,
    keys: bool,
    operation: &[u8],
) -> Result<(), AllocError>
    ensures { OnOk result (out.new.items ≡ out.old.items ++ other_member keys operation.now) }
{
    let (opcode, operands) = parts_of(operation);
    if keys && tells_mate(opcode) {
        return Ok(());
    }
    push_name(out, opcode)?;
    push_array(alloc, out, operands)
}

/// Adds the members that tell of a mate, where there are keys.
fn push_mate(
    alloc: Global,
    out: &mut Vec<u8>,
    keys: bool,
    operations: &[&[u8]],
) -> Result<(), AllocError>
    ensures { OnOk result (out.new.items ≡ out.old.items ++ flat_map (mate_member keys) (map (λ o. o.now) operations.now)) }
{
    for operation in operations {
        push_mate_member(alloc, out, keys, operation)?;
    }
    Ok(())
}

/// The members of all other operations, each behind a comma.
fn others(alloc: Global, keys: bool, operations: &[&[u8]]) -> Result<Vec<u8>, AllocError>
    ensures { IfOk result (λ text. text.items ≡ flat_map (other_member keys) (map (λ o. o.now) operations.now)) }
{
    let mut text = Vec::new(alloc);
    for operation in operations {
        push_other_member(alloc, &mut text, keys, operation)?;
    }
    Ok(text)
}

/// Adds the members of operations, among which there are keys or not.
#[tactic(auto, unfolding(crate::specs::Answers::members_by))]
fn push_members_by(
    alloc: Global,
    out: &mut Vec<u8>,
    keys: bool,
    operations: &[&[u8]],
) -> Result<(), AllocError>
    ensures { OnOk result (out.new.items ≡ out.old.items ++ members_by keys (map (λ o. o.now) operations.now)) }
{
    push_mate(alloc, out, keys, operations)?;
    let others = others(alloc, keys, operations)?;
    out.extend_from_slice(b",\"operations\":{")?;
    out.extend_from_slice(without_first(others.as_slice()))?;
    Ok(())
}

/// Adds the members of operations.
fn push_members(alloc: Global, out: &mut Vec<u8>, operations: &[&[u8]]) -> Result<(), AllocError>
    ensures { OnOk result (out.new.items ≡ out.old.items ++ members (map (λ o. o.now) operations.now)) }
{
    push_members_by(alloc, out, have_keys(operations), operations)
}

/// The object of an answer, up to its last operation.
#[tactic(auto, unfolding(crate::specs::Answers::open_answer))]
pub(crate) fn open_answer(
    alloc: Global,
    front: &[u8],
    number: usize,
    answer: &[u8],
) -> Result<Vec<u8>, AllocError>
    ensures { IfOk result (λ text. text.items ≡ open_answer_of front.now number answer.now) }
{
    let (fen, rest) = cut(answer, b' ', 3);
    let operations = operations_of(alloc, rest)?;
    let mut out = opening(alloc, front, number)?;
    out.extend_from_slice(b",\"fen\":")?;
    push_string(&mut out, fen)?;
    push_undecided(&mut out, operations.as_slice())?;
    push_members(alloc, &mut out, operations.as_slice())?;
    Ok(out)
}

/// The object of an answer.
fn answer_object(
    alloc: Global,
    front: &[u8],
    number: usize,
    answer: &[u8],
) -> Result<Vec<u8>, AllocError>
    ensures { IfOk result (λ text. text.items ≡ answer_object_of front.now number answer.now) }
{
    let mut out = open_answer(alloc, front, number, answer)?;
    out.extend_from_slice(b"}}\n")?;
    Ok(out)
}

/// The name of the fault that a refusal says.
fn error_in(refusal: &[u8]) -> &[u8]
    ensures { result.now ≡ error_said_in refusal.now }
{
    let (line, _) = cut(refusal, b'\n', 0);
    let (_, behind) = cut(line, b':', 0);
    without_first(without_first(behind))
}

/// The object of a refusal.
#[tactic(auto, unfolding(crate::specs::Answers::refusal_object))]
pub(crate) fn refusal_object(
    alloc: Global,
    front: &[u8],
    number: usize,
    refusal: &[u8],
) -> Result<Vec<u8>, AllocError>
    ensures { IfOk result (λ text. text.items ≡ refusal_object_of front.now number refusal.now) }
{
    let mut out = opening(alloc, front, number)?;
    out.extend_from_slice(b",\"error\":")?;
    push_string(&mut out, error_in(refusal))?;
    out.extend_from_slice(b"}\n")?;
    Ok(out)
}

/// Whether a reply begins with a number sign.
pub(crate) fn is_refusal(reply: &[u8]) -> bool
    ensures { result ≡ is_refusal_text reply.now }
{
    matches!(reply, [b'#', ..])
}

/// The reply to a line, as `solve` writes it, in JSON.
pub(crate) fn answer_json(
    alloc: Global,
    front: &[u8],
    number: usize,
    reply: &[u8],
) -> Result<Vec<u8>, AllocError>
    ensures { IfOk result (λ text. text.items ≡ answer_json_of front.now number reply.now) }
{
    if is_refusal(reply) {
        refusal_object(alloc, front, number, reply)
    } else {
        answer_object(alloc, front, number, reply)
    }
}
