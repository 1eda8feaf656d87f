//! Rows of claims as objects of JSON.

ghost use Rattle.std.specs.Prelude.{◌≡◌, ◌==◌, ◌++◌, ◌∷◌, IfOk, OnOk, codes, flat_map, map};
ghost use Rattle.chess_notation.specs.Opcodes.{same_text};
ghost use Rattle.std.specs.List.{slice_split};
ghost use Rattle.chess_board.specs.Characters.{char};
ghost use Rattle.json_replies.specs.Rows.{asked_members, field_in as field_of_row, found_member, is_default as is_default_number};
ghost use Rattle.json_replies.specs.Rows.{claimed_by, claimed_members, is_none as is_none_of, is_unknown as is_unknown_of, number_in as number_said_in, or_nothing as text_or_nothing};
ghost use Rattle.json_replies.specs.Rows.{record_members, row_json as row_json_of, row_object as row_object_of, told_members, truth_text};
ghost use Rattle.json_replies.specs.Rows.{words_array, words_member, words_of as words_in_field};
ghost use Rattle.json_replies.specs.Strings.{string};

use crate::answers::{opening, push_name};
use crate::cuts::{cut, without_first};
use crate::strings::{push_byte, push_string};
use std::alloc::{AllocError, Global};

/// The field behind so many tabs and one.
fn field_in(row: &[u8], tabs: usize) -> &[u8]
    ensures { result.now ≡ field_of_row tabs row.now }
{
    let (_, behind) = cut(row, b'\t', tabs);
    cut(without_first(behind), b'\t', 0).0
}

/// Whether a field has a hyphen in place of nothing.
fn is_none(field: &[u8]) -> bool
    ensures { result ≡ is_none_of field.now }
{
    matches!(field, [b'-'])
}

/// Whether a field says that it wasn't decided.
fn is_unknown(field: &[u8]) -> bool
    ensures { result ≡ is_unknown_of field.now }
{
    matches!(field, [b'?'])
}

fn or_nothing(field: &[u8]) -> &[u8]
    ensures { result.now ≡ text_or_nothing field.now }
{
    if is_none(field) { &[] } else { field }
}

/// The digits of a number of moves.
fn number_in(field: &[u8]) -> &[u8]
    ensures { result.now ≡ number_said_in field.now }
{
    cut(without_first(field), b'?', 0).0
}

/// Whether a number of moves is the default one.
fn is_default(field: &[u8]) -> bool
    ensures { result ≡ is_default_number field.now }
{
    !cut(field, b'?', 0).1.is_empty()
}

/// Adds whether something is so.
fn push_truth(out: &mut Vec<u8>, is: bool) -> Result<(), AllocError>
    ensures { OnOk result (out.new.items ≡ out.old.items ++ truth_text is) }
{
    if is {
        out.extend_from_slice(b"true")
    } else {
        out.extend_from_slice(b"false")
    }
}

/// Adds the number of moves asked for, and whether it is the default one.
fn push_asked(out: &mut Vec<u8>, field: &[u8]) -> Result<(), AllocError>
    ensures { OnOk result (out.new.items ≡ out.old.items ++ asked_members field.now) }
{
    push_name(out, b"asked")?;
    out.extend_from_slice(number_in(field))?;
    push_name(out, b"default")?;
    push_truth(out, is_default(field))
}

/// Adds the length that was found, or that it isn't known whether there is one.
fn push_found(out: &mut Vec<u8>, field: &[u8]) -> Result<(), AllocError>
    ensures { OnOk result (out.new.items ≡ out.old.items ++ found_member field.now) }
{
    if is_none(field) {
        return Ok(());
    }
    if is_unknown(field) {
        push_name(out, b"decided")?;
        return out.extend_from_slice(b"false");
    }
    push_name(out, b"found")?;
    out.extend_from_slice(number_in(field))
}

/// Whether a word names the line of play.
fn is_play(word: &[u8]) -> bool
    ensures { result ≡ same_text (codes "pv") word.now }
{
    matches!(word, [b'p', b'v'])
}

/// What stands between the spaces of a text.
fn split_words(alloc: Global, text: &[u8]) -> Result<Vec<&[u8]>, AllocError>
    ensures { IfOk result (λ words. map (λ w. w.now) words.items ≡ slice_split (λ b. b == char " ") text.now) }
{
    text.split(|byte| *byte == b' ').collect(alloc)
}

/// The words of a field.
fn words_of(alloc: Global, field: &[u8]) -> Result<Vec<&[u8]>, AllocError>
    ensures { IfOk result (λ words. map (λ w. w.now) words.items ≡ words_in_field field.now) }
{
    if is_none(field) {
        return Ok(Vec::new(alloc));
    }
    split_words(alloc, field)
}

/// The strings of words, each behind a comma.
fn strings_of(alloc: Global, words: &[&[u8]]) -> Result<Vec<u8>, AllocError>
    ensures { IfOk result (λ text. text.items ≡ flat_map (λ word. char "," ∷ string word) (map (λ w. w.now) words.now)) }
{
    let mut text = Vec::new(alloc);
    for word in words {
        push_byte(&mut text, b',')?;
        push_string(&mut text, word)?;
    }
    Ok(text)
}

/// Adds words as an array of strings.
#[tactic(auto, unfolding(crate::specs::Rows::words_array))]
fn push_words(alloc: Global, out: &mut Vec<u8>, words: &[&[u8]]) -> Result<(), AllocError>
    ensures { OnOk result (out.new.items ≡ out.old.items ++ words_array (map (λ w. w.now) words.now)) }
{
    let text = strings_of(alloc, words)?;
    push_byte(out, b'[')?;
    out.extend_from_slice(without_first(text.as_slice()))?;
    push_byte(out, b']')
}

/// Adds the member of this name with the words of a field.
#[tactic(auto, unfolding(crate::specs::Rows::words_member))]
fn push_words_member(
    alloc: Global,
    out: &mut Vec<u8>,
    name: &[u8],
    field: &[u8],
) -> Result<(), AllocError>
    ensures { OnOk result (out.new.items ≡ out.old.items ++ words_member name.now field.now) }
{
    push_name(out, name)?;
    let words = words_of(alloc, field)?;
    push_words(alloc, out, words.as_slice())
}

/// Adds what is claimed, and by which operation.
fn push_claimed_by(
    alloc: Global,
    out: &mut Vec<u8>,
    opcode: &[u8],
    words: &[&[u8]],
) -> Result<(), AllocError>
    ensures { OnOk result (out.new.items ≡ out.old.items ++ claimed_by opcode.now (map (λ w. w.now) words.now)) }
{
    push_name(out, b"claimed")?;
    push_words(alloc, out, words)?;
    push_name(out, b"claimed_by")?;
    push_string(out, opcode)
}

/// Adds what is claimed, and by which operation, where anything is.
#[tactic(auto, unfolding(crate::specs::Rows::claimed_members))]
fn push_claimed(alloc: Global, out: &mut Vec<u8>, words: &[&[u8]]) -> Result<(), AllocError>
    ensures { OnOk result (out.new.items ≡ out.old.items ++ claimed_members (map (λ w. w.now) words.now)) }
{
    match words {
        [] => {
            push_name(out, b"claimed")?;
            push_words(alloc, out, &[])
        }
        [word, behind @ ..] => {
            if is_play(word) {
                push_claimed_by(alloc, out, b"pv", behind)
            } else {
                push_claimed_by(alloc, out, b"bm", words)
            }
        }
    }
}

/// Adds what is told of a record.
#[tactic(auto, unfolding(crate::specs::Rows::record_members))]
fn push_record(alloc: Global, out: &mut Vec<u8>, row: &[u8]) -> Result<(), AllocError>
    ensures { OnOk result (out.new.items ≡ out.old.items ++ record_members row.now) }
{
    push_asked(out, field_in(row, 1))?;
    push_found(out, field_in(row, 2))?;
    push_words_member(alloc, out, b"keys", field_in(row, 3))?;
    let claimed = words_of(alloc, field_in(row, 4))?;
    push_claimed(alloc, out, claimed.as_slice())?;
    push_name(out, b"id")?;
    push_string(out, or_nothing(field_in(row, 5)))
}

/// Adds what is told of a record, where the line says one.
fn push_told(alloc: Global, out: &mut Vec<u8>, row: &[u8]) -> Result<(), AllocError>
    ensures { OnOk result (out.new.items ≡ out.old.items ++ told_members row.now) }
{
    if is_none(field_in(row, 1)) {
        return Ok(());
    }
    push_record(alloc, out, row)
}

/// The object of a row without its newline.
#[tactic(auto, unfolding(crate::specs::Rows::row_object))]
fn row_object(alloc: Global, front: &[u8], number: usize, row: &[u8]) -> Result<Vec<u8>, AllocError>
    ensures { IfOk result (λ text. text.items ≡ row_object_of front.now number row.now) }
{
    let mut out = opening(alloc, front, number)?;
    push_name(&mut out, b"verdict")?;
    push_string(&mut out, field_in(row, 0))?;
    push_told(alloc, &mut out, row)?;
    out.extend_from_slice(b"}\n")?;
    Ok(out)
}

/// The reply to a line, as `verify` writes it, in JSON.
pub(crate) fn row_json(
    alloc: Global,
    front: &[u8],
    number: usize,
    reply: &[u8],
) -> Result<Vec<u8>, AllocError>
    ensures { IfOk result (λ text. text.items ≡ row_json_of front.now number reply.now) }
{
    row_object(alloc, front, number, cut(reply, b'\n', 0).0)
}
