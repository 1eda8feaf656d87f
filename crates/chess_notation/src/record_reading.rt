//! Lines read as records.

ghost use Rattle.std.specs.Prelude.{◌≡◌, ◌≢◌, ◌⊎◌, ◌≤◌, length, IfOk, OnOk, IfErr, IfSome, IfNone, Some, None, true, false, []};
ghost use Rattle.std.specs.List.{list_all};
ghost use Rattle.chess_board.specs.Soundness.{IsSound};
ghost use Rattle.chess_notation.specs.Segments.{segments_of};
ghost use Rattle.chess_notation.specs.Operations.{is_printable};
ghost use Rattle.chess_notation.specs.Records.{RecordValue, Reads, max_line};
ghost use Rattle.chess_notation.specs.EpdFaults.{IsFaultOf, has_opcode, are_distinct, has_names_if_avoid};
ghost use Rattle.chess_notation.specs.inside.RecordReading.{avoid_text_in, avoid_in, rest_of};

use crate::avoid_moves::named_moves;
use crate::epd_faults::{EpdFault, position_of};
use crate::operations::operations_of;
use crate::problem_operations::{Asked, asked_of};
use crate::record_fields::operations_in;
use crate::records::Record;
use chess_board::{Position, spells_one};
use chess_moves::{Rays, legal_listed, legal_rise};
use chess_problems::{AvoidList, Bound};
use std::alloc::Global;

/// The record of operations that have none of the faults before `BadAvoid`, which ask for this in this position. Lines with one
/// of these faults are spared the room for a record.
fn record_of(
    alloc: Global,
    rays: &Rays,
    text: &[u8],
    position: Position,
    asked: Asked<'_>,
) -> Result<Record, EpdFault>
    requires short { length text.now ≤ max_line }
    requires printable { list_all is_printable text.now ≡ true }
    requires opcodes { list_all has_opcode (segments_of text.now).ended ≡ true }
    requires distinct { are_distinct (segments_of text.now).ended ≡ true }
    requires sound { IsSound position }
    requires avoid { IfSome asked.avoid (λ words. avoid_text_in (segments_of text.now).ended ≡ Some words.now) }
    requires nothing { IfNone asked.avoid (avoid_text_in (segments_of text.now).ended ≡ None) }
    requires shorter { IfSome asked.avoid (λ words. length words.now ≤ length text.now) }
    ensures made { IfOk result (λ r. r ≡ record {
      position = position;
      bound = asked.entry.bound;
      avoid = avoid_in position (segments_of text.now).ended;
      rest = rest_of (segments_of text.now).ended;
    }) }
    ensures names { OnOk result (list_all (has_names_if_avoid position) (segments_of text.now).ended ≡ true) }
    ensures refused { IfErr result (λ fault.
        ((fault ≡ EpdFault.BadAvoid) × (list_all (has_names_if_avoid position) (segments_of text.now).ended ≡ false))
        ⊎ ((fault ≡ EpdFault.NoMemory) × ((list_all (has_names_if_avoid position) (segments_of text.now).ended ≡ true)
        × (rest_of (segments_of text.now).ended ≢ [])))) }
{
    // That the moves to avoid rise rests on this law.
    legal_rise();
    let avoid = match asked.avoid {
        Some(words) => match named_moves(rays, &position, words) {
            Some(avoid) => avoid,
            None => return Err(EpdFault::BadAvoid),
        },
        None => AvoidList::new(),
    };
    match operations_of(alloc, text) {
        Ok(rest) => Ok(Record {
            position,
            bound: asked.bound,
            avoid,
            rest,
        }),
        Err(_) => Err(EpdFault::NoMemory),
    }
}

/// Reads a record (PGN Specification, section 16.2): four fields of a FEN, two counters or none, and operations.
///
/// The bound is that of `dm`, or the default one, and the moves to avoid are those that `am` names. A line that says no record is
/// refused by the first fault of it, in the order of `EpdFault`; memory is asked for only when there is none, for the operations
/// that are kept.
pub fn read_record(
    alloc: Global,
    rays: &Rays,
    line: &[u8],
    default: Bound,
) -> Result<Record, EpdFault>
    ensures reads { IfOk result (λ r. Reads line.now default r) }
    ensures only { IfOk result (λ r. (other : RecordValue) → Reads line.now default other → r ≡ other) }
    ensures refused { IfErr result (λ fault. IsFaultOf line.now fault
        ⊎ ((fault ≡ EpdFault.NoMemory) × ((r : RecordValue) × Reads line.now default r × (r.rest ≢ [])))) }
{
    // That the fields spell no other position, and what words name, rest on these laws.
    spells_one();
    legal_listed();
    let position = position_of(line)?;
    let text = operations_in(line);
    let Some(asked) = asked_of(text, default) else {
        return Err(EpdFault::BoundTooLarge);
    };
    record_of(alloc, rays, text, position, asked)
}
