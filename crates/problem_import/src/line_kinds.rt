//! What a line is: a record in which there is nothing to mend, another record, or none.

ghost use Rattle.std.specs.Prelude.{◌≡◌, ◌≢◌, Bool, IfErr, IfOk, IfSome, true};
ghost use Rattle.std.specs.List.{list_all};
ghost use Rattle.chess_notation.specs.Records.{RecordValue, Reads};
ghost use Rattle.move_words.specs.Languages.{is_english};
ghost use Rattle.problem_import.specs.inside.Counted.{IsSaid};
ghost use Rattle.problem_import.specs.Imports.{IsClean, IsRecord};
ghost use Rattle.problem_import.specs.Mendable.{has_clear_claims, is_mendable as is_mendable_byte, is_settled};
ghost use Rattle.problem_import.specs.inside.Findings.{Asks};
ghost use Rattle.problem_import.specs.inside.LineRecords.{IsFoundIn, IsReadBy};
ghost use Rattle.chess_notation.specs.declared.epd_faults.EpdFault.{EpdFault as EpdFaultValue};

use crate::import_faults::ImportFault;
use byte_streams::NoMemory;
use chess_board::Position;
use chess_moves::Rays;
use chess_notation::{
    Bound, EpdFault, claimed_moves, claims_text, four_words, read_record, records_clear, says_one,
};
use move_words::Letters;
use std::alloc::Global;
use stipulations::speaks_of_aim;

/// A record that a line is.
#[derive(Clone, Copy)]
pub(crate) struct LineRecord {
    position: Position,
    bound: Bound,
    /// Whether it says its number of moves itself.
    says: bool,
}

/// What a line is.
#[derive(Clone, Copy)]
pub(crate) enum LineKind {
    /// A record in which there is nothing to mend.
    Clean,
    /// Another record.
    Mendable,
    /// No record.
    Other,
}

/// What a line is, and whether it says its number of moves itself, if it is a record.
#[derive(Clone, Copy)]
pub(crate) struct LineRead {
    pub(crate) kind: LineKind,
    pub(crate) says: bool,
}

/// What a line asks that is to be a record.
#[derive(Clone, Copy)]
pub(crate) enum RecordKind {
    /// It is one, and asks what it is to ask; and whether it says its number of moves itself.
    Right(bool),
    /// It is one, and asks another number of moves.
    Other,
    /// It is none.
    Refused(EpdFault),
}

/// The bound of a record that asks for none: whether a line is one doesn't depend on it.
fn some_bound() -> Bound
    ensures { result ≡ 3 }
{
    match Bound::new(3) {
        Some(bound) => bound,
        None => unreachable!(),
    }
}

/// A bound for which few records ask.
fn long_bound() -> Bound
    ensures { result ≡ 15 }
{
    match Bound::new(15) {
        Some(bound) => bound,
        None => unreachable!(),
    }
}

/// What a line says with such a default bound, or what a line that is no record is refused by. That it says its number of moves itself is put
/// down until it is read once more.
fn read_by(
    alloc: Global,
    rays: &Rays,
    line: &[u8],
    default: Bound,
) -> Result<Result<LineRecord, EpdFault>, NoMemory>
    ensures reads { IfOk result (λ read. IfOk read (λ found. IsReadBy line.now default found)) }
    ensures none { IfOk result (λ read. IfErr read (λ fault. ¬ (IsRecord line.now))) }
{
    // That a line with a fault is no record is this law.
    records_clear();
    match read_record(alloc, rays, line, default) {
        Ok(record) => Ok(Ok(LineRecord {
            position: record.position,
            bound: record.bound,
            says: true,
        })),
        Err(fault) => {
            if fault == EpdFault::NoMemory {
                return Err(NoMemory);
            }
            Ok(Err(fault))
        }
    }
}

/// The record that a line is, or what a line that is none is refused by. The line is read once more, with another default bound, where its
/// bound is the first one.
fn line_record(
    alloc: Global,
    rays: &Rays,
    line: &[u8],
) -> Result<Result<LineRecord, EpdFault>, NoMemory>
    ensures found { IfOk result (λ read. IfOk read (λ found. IsFoundIn line.now found)) }
    ensures none { IfOk result (λ read. IfErr read (λ fault. ¬ (IsRecord line.now))) }
{
    // That a line says one record at most is this law.
    says_one();
    let first = match read_by(alloc, rays, line, long_bound())? {
        Ok(first) => first,
        Err(fault) => return Ok(Err(fault)),
    };
    if first.bound.get() != 15 {
        return Ok(Ok(first));
    }
    let again = match read_by(alloc, rays, line, some_bound())? {
        Ok(again) => again,
        Err(fault) => return Ok(Err(fault)),
    };
    if again.bound.get() == 15 {
        return Ok(Ok(again));
    }
    Ok(Ok(LineRecord {
        says: false,
        ..again
    }))
}

/// Whether a record of such a bound asks so many moves, where that is a number.
fn is_asked(bound: Bound, moves: Option<u8>) -> bool
    ensures { result ≡ true → IfSome moves (λ n. bound ≡ n) }
{
    match moves {
        Some(moves) => bound.get() == moves,
        None => true,
    }
}

/// What a line asks that is to be a record, and to ask so many moves where that is a number.
pub(crate) fn asking(
    alloc: Global,
    rays: &Rays,
    line: &[u8],
    moves: Option<u8>,
) -> Result<RecordKind, NoMemory>
    ensures record { IfOk result (λ asking. (says : Bool) → asking ≡ RecordKind.Right says → IsRecord line.now) }
    ensures said { IfOk result (λ asking. (says : Bool) → asking ≡ RecordKind.Right says → IsSaid line.now says) }
    ensures asks { IfOk result (λ asking. (says : Bool) → asking ≡ RecordKind.Right says → Asks moves line.now) }
    ensures none { IfOk result (λ asking. (fault : EpdFaultValue) → asking ≡ RecordKind.Refused fault → ¬ (IsRecord line.now)) }
{
    match line_record(alloc, rays, line)? {
        Ok(found) => {
            if is_asked(found.bound, moves) {
                Ok(RecordKind::Right(found.says))
            } else {
                Ok(RecordKind::Other)
            }
        }
        Err(fault) => Ok(RecordKind::Refused(fault)),
    }
}

/// What such a line is refused by; or it is a record that asks what it is to ask, and whether it says its number of moves itself.
pub(crate) fn says_asked(
    alloc: Global,
    rays: &Rays,
    line: &[u8],
    moves: Option<u8>,
) -> Result<Result<bool, ImportFault>, NoMemory>
    ensures record { IfOk result (λ asked. IfOk asked (λ says. IsRecord line.now)) }
    ensures said { IfOk result (λ asked. IfOk asked (λ says. IsSaid line.now says)) }
    ensures asks { IfOk result (λ asked. IfOk asked (λ says. Asks moves line.now)) }
{
    match asking(alloc, rays, line, moves)? {
        RecordKind::Right(says) => Ok(Ok(says)),
        RecordKind::Other => Ok(Err(ImportFault::TwoBounds)),
        RecordKind::Refused(fault) => Ok(Err(ImportFault::Record(fault))),
    }
}

fn is_mendable(byte: u8) -> bool
    ensures { result ≡ is_mendable_byte byte }
{
    byte == b'\'' || byte == b'!' || byte == b'?' || byte == b'#'
}

/// Whether no byte may be mended.
fn have_no_mendable(line: &[u8]) -> bool
    ensures { result ≡ list_all is_settled line.now }
{
    for byte in line {
        if is_mendable(*byte) {
            return false;
        }
    }
    true
}

/// Whether each operand of `bm` says a number of moves, or names a legal move. Where there is none, no move is looked for.
#[tactic(auto, unfolding(crate::specs::Mendable::has_clear_claims))]
fn have_clear_claims(
    alloc: Global,
    rays: &Rays,
    line: &[u8],
    position: &Position,
) -> Result<bool, NoMemory>
    ensures { IfOk result (λ are. are ≡ has_clear_claims position.now line.now) }
{
    let text = claims_text(alloc, line)?;
    let words = text.as_slice();
    if words.is_empty() {
        return Ok(true);
    }
    match claimed_moves(rays, position, words) {
        Ok(_) => Ok(true),
        Err(_) => Ok(false),
    }
}

/// What a line is that is a record of such a position, where men have such letters in moves.
fn kind_of_record(
    alloc: Global,
    rays: &Rays,
    letters: &Letters,
    line: &[u8],
    position: &Position,
) -> Result<LineKind, NoMemory>
    requires position { (r : RecordValue) → Reads line.now 3 r → r.position ≡ position.now }
    ensures other { IfOk result (λ kind. kind ≢ LineKind.Other) }
    ensures mendable { IfOk result (λ kind. kind ≡ LineKind.Mendable → is_english letters.now ≡ true → ¬ (IsClean line.now)) }
{
    if !letters.is_english() {
        return Ok(LineKind::Mendable);
    }
    if !have_no_mendable(line) || speaks_of_aim(four_words(line).behind) {
        return Ok(LineKind::Mendable);
    }
    if have_clear_claims(alloc, rays, line, position)? {
        Ok(LineKind::Clean)
    } else {
        Ok(LineKind::Mendable)
    }
}

/// What a line is. Where men haven't English letters in moves, each record is to be made anew.
pub(crate) fn read_line(
    alloc: Global,
    rays: &Rays,
    letters: &Letters,
    line: &[u8],
) -> Result<LineRead, NoMemory>
    ensures record { IfOk result (λ read. read.kind ≡ LineKind.Clean → IsRecord line.now) }
    ensures said { IfOk result (λ read. read.kind ≡ LineKind.Clean → IsSaid line.now read.says) }
    ensures other { IfOk result (λ read. read.kind ≡ LineKind.Other → ¬ (IsRecord line.now)) }
    ensures mendable { IfOk result (λ read. read.kind ≡ LineKind.Mendable → is_english letters.now ≡ true → ¬ (IsClean line.now)) }
    ensures mended { IfOk result (λ read. read.kind ≡ LineKind.Mendable → IsRecord line.now) }
{
    let Ok(found) = line_record(alloc, rays, line)? else {
        return Ok(LineRead {
            kind: LineKind::Other,
            says: false,
        });
    };
    let kind = kind_of_record(alloc, rays, letters, line, &found.position)?;
    Ok(LineRead {
        kind,
        says: found.says,
    })
}
