//! The row of a line: seven fields, parted by tabs.

ghost use Rattle.std.specs.Prelude.{◌≡◌, ◌++◌, IfOk, IfSome, OnOk, codes, drop, option_map, string_bytes};
ghost use Rattle.chess_notation.specs.Opcodes.{operands_under};
ghost use Rattle.chess_problems.specs.Outcomes.{IsPlayable};
ghost use Rattle.mate_claims.specs.Rows.{or_hyphen as text_or_hyphen, field, length_field, asked_field, found_field, found_fields};
ghost use Rattle.mate_claims.specs.Rows.{unquoted, keys_found as keys_found_in, listed, row_of, refused_row as refused_row_of};

use crate::bound_sources::BoundSource;
use crate::claimed_records::ClaimedRecord;
use byte_streams::NoMemory;
use chess_board::{Move, Position};
use chess_moves::Rays;
use chess_notation::{Operation, kept_operands, listed_text};
use chess_problems::{Bound, Outcome};
use std::alloc::{AllocError, Global};

/// A hyphen in place of nothing.
fn or_hyphen(text: &[u8]) -> &[u8]
    ensures { result.now ≡ text_or_hyphen text.now }
{
    match text {
        [] => b"-",
        [_, ..] => text,
    }
}

/// A text without its first byte.
fn without_first(text: &[u8]) -> &[u8]
    ensures { result.now ≡ drop 1 text.now }
{
    match text {
        [] => &[],
        [_, rest @ ..] => rest,
    }
}

/// Adds a field behind a tab.
fn push_field(row: &mut Vec<u8>, text: &[u8]) -> Result<(), AllocError>
    ensures { OnOk result (row.new.items ≡ row.old.items ++ field text.now) }
{
    row.push(b'\t')?;
    row.extend_from_slice(or_hyphen(text))
}

/// Adds a length.
fn push_length(alloc: Global, row: &mut Vec<u8>, length: Bound) -> Result<(), AllocError>
    ensures { OnOk result (row.new.items ≡ row.old.items ++ length_field length) }
{
    row.extend_from_slice(b"\t#")?;
    row.extend_from_slice(length.get().to_string(alloc)?.as_bytes())
}

/// Adds the number of moves asked for.
fn push_asked(
    alloc: Global,
    row: &mut Vec<u8>,
    asked: Bound,
    source: BoundSource,
) -> Result<(), AllocError>
    ensures { OnOk result (row.new.items ≡ row.old.items ++ asked_field source asked) }
{
    push_length(alloc, row, asked)?;
    match source {
        BoundSource::Line => {}
        BoundSource::Default => row.push(b'?')?,
    }
    Ok(())
}

/// Adds the length of the shortest mate.
fn push_found_length(alloc: Global, row: &mut Vec<u8>, outcome: &Outcome) -> Result<(), AllocError>
    ensures { OnOk result (row.new.items ≡ row.old.items ++ found_field outcome.now) }
{
    match outcome {
        Outcome::Mate { dm, .. } => push_length(alloc, row, *dm),
        Outcome::NoMate => push_field(row, b""),
    }
}

/// The keys that were found.
pub(crate) fn keys_found(outcome: &Outcome) -> &[Move]
    ensures { result.now ≡ keys_found_in outcome.now }
{
    match outcome {
        Outcome::Mate { keys, .. } => keys.as_slice(),
        Outcome::NoMate => &[],
    }
}

/// The text of the keys that were found, each behind a space.
#[tactic(auto, unfolding(chess_problems::specs::Outcomes::IsPlayable))]
pub(crate) fn keys_text(
    alloc: Global,
    rays: &Rays,
    position: &Position,
    outcome: &Outcome,
) -> Result<String, NoMemory>
    requires { IsPlayable position.now outcome.now }
    ensures { IfOk result (λ text. string_bytes text ≡ listed position.now (keys_found_in outcome.now)) }
{
    listed_text(alloc, rays, position, keys_found(outcome))
}

/// Operands of which each stands behind a space, without the first space and the quotation marks.
fn unquoted_text(alloc: Global, operands: &[u8]) -> Result<Vec<u8>, AllocError>
    ensures { IfOk result (λ text. text.items ≡ unquoted operands.now) }
{
    let mut text = Vec::new(alloc);
    for byte in without_first(operands) {
        if *byte != b'"' {
            text.push(*byte)?;
        }
    }
    Ok(text)
}

/// Adds the operands of `id`.
fn push_id(alloc: Global, row: &mut Vec<u8>, operations: &[Operation]) -> Result<(), AllocError>
    ensures { OnOk result (row.new.items ≡ row.old.items ++ field (unquoted (operands_under (codes "id") operations.now))) }
{
    let text = unquoted_text(alloc, kept_operands(operations, b"id"))?;
    push_field(row, text.as_slice())
}

/// What was found of a record: an outcome, and the text of its keys, of which each stands behind a space.
#[derive(Clone, Copy)]
pub(crate) struct Found<'a> {
    pub(crate) outcome: &'a Outcome,
    pub(crate) keys: &'a [u8],
}

/// Adds the length and the keys that were found at a position, if it is known what there is to find.
fn push_found(
    alloc: Global,
    row: &mut Vec<u8>,
    position: &Position,
    found: Option<&Found<'_>>,
) -> Result<(), AllocError>
    requires keys { IfSome found (λ f. f.now.keys.now ≡ listed position.now (keys_found_in f.now.outcome.now)) }
    ensures { OnOk result (row.new.items ≡ row.old.items ++ found_fields position.now (option_map (λ f. f.now.outcome.now) found.entry)) }
{
    match found {
        Some(found) => {
            push_found_length(alloc, row, found.outcome)?;
            push_field(row, without_first(found.keys))
        }
        None => {
            push_field(row, b"?")?;
            push_field(row, b"")
        }
    }
}

/// Adds the row of a record, with a newline: with this word for what comes of its claims, and this text of them, behind a space.
#[tactic(auto, unfolding(crate::specs::Rows::row_of))]
pub(crate) fn push_row(
    alloc: Global,
    row: &mut Vec<u8>,
    claimed: &ClaimedRecord<'_>,
    word: &str,
    found: Option<&Found<'_>>,
    claims: &[u8],
) -> Result<(), AllocError>
    requires keys { IfSome found (λ f. f.now.keys.now ≡ listed claimed.now.«record».now.position (keys_found_in f.now.outcome.now)) }
    ensures { OnOk result (row.new.items ≡ row.old.items
        ++ row_of claimed.now.place.now claimed.now.«record».now claimed.now.source word.now (option_map (λ f. f.now.outcome.now) found.entry)
        claims.now) }
{
    let record = claimed.record;
    row.extend_from_slice(claimed.place)?;
    push_field(row, word.as_bytes())?;
    push_asked(alloc, row, record.bound, claimed.source)?;
    push_found(alloc, row, &record.position, found)?;
    push_field(row, without_first(claims))?;
    push_id(alloc, row, record.rest.as_slice())?;
    row.extend_from_slice(b"\n")
}

/// The row of a line that is refused, with a newline: its place and the fault's name.
#[tactic(auto, unfolding(crate::specs::Rows::refused_row))]
pub fn refused_row(alloc: Global, place: &[u8], name: &str) -> Result<Vec<u8>, AllocError>
    ensures { IfOk result (λ row. row.items ≡ refused_row_of place.now name.now) }
{
    let mut row = Vec::from_slice(alloc, place)?;
    push_field(&mut row, name.as_bytes())?;
    row.extend_from_slice(b"\t-\t-\t-\t-\t-\n")?;
    Ok(row)
}
