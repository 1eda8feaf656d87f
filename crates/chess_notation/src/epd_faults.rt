//! Why a line of EPD is no record: its faults, in the order in which they are answered.

ghost use Rattle.std.specs.Prelude.{◌≡◌, ◌++◌, ◌<◌, ◌≤◌, ℕ, List, IfSome, IfNone, IfOk, IfErr, OnOk, codes, true, false, Some};
ghost use Rattle.std.specs.List.{list_all};
ghost use Rattle.chess_board.specs.declared.faults.FenFault.{FenFault as FenFaultValue};
ghost use Rattle.chess_board.specs.Faults.{fault_name};
ghost use Rattle.chess_board.specs.Soundness.{IsSound};
ghost use Rattle.chess_board.specs.Fens.{SpellsSetup};
ghost use Rattle.chess_notation.specs.declared.epd_faults.EpdFault.{EpdFault as EpdFaultValue};
ghost use Rattle.chess_notation.specs.Segments.{segments_of};
ghost use Rattle.chess_notation.specs.Quoting.{strings_fit as do_strings_fit};
ghost use Rattle.chess_notation.specs.Words.{word_at as word_of_text};
ghost use Rattle.chess_notation.specs.RecordFields.{line_fields, operations_in as text_of_operations};
ghost use Rattle.chess_notation.specs.EpdFaults.{epd_fault_name, each_segment, has_opcode as does_have_opcode, differs_from};
ghost use Rattle.chess_notation.specs.EpdFaults.{are_distinct, fault_number, IsAmissBy, IsFaultOf};
ghost use Rattle.chess_notation.specs.inside.RecordReading.{IsClearTo};

use crate::opcodes::{is_opcode, is_same_text};
use crate::problem_operations::have_numbers;
use crate::quoting::strings_fit;
use crate::record_fields::{are_printable, four_words, operations_in};
use crate::segments::{first_segment, last_rest};
use crate::words::{is_blank, word_at};
use chess_board::{FenFault, Position, read_fields, spells_one};
use std::fmt;
use thiserror::Error;

/// The most bytes of a record's line.
const MAX_LINE: usize = 1023;

/// The first fault of a line, in the order in which the variants stand. It prints as its name; that of the fields as the word
/// `Fen`, a space and the name of the FEN's fault.
#[derive(Clone, Copy, Debug, PartialEq, Eq, Error)]
pub enum EpdFault {
    /// The line has more than 1,023 bytes.
    TooLong,
    /// A byte is no printable ASCII.
    NotPrintable,
    /// There are fewer than four fields (`FieldCount`), or they have this fault.
    Fen(FenFault),
    /// A segment between semicolons does not begin with an opcode.
    BadOpcode,
    /// A string is not closed, has more than 255 bytes, or does not stand apart.
    BadString,
    /// The last operation lacks its semicolon.
    MissingSemicolon,
    /// An opcode stands twice.
    DoubleOpcode,
    /// `dm` does not have one plain operand of digits with a value above 0.
    BadBound,
    /// The value of `dm` is above 15.
    BoundTooLarge,
    /// `am` does not have plain operands, at least one, each of which names a legal move.
    BadAvoid,
    /// A growth was refused; the line says a record.
    NoMemory,
}

impl fmt::Display for EpdFault {
    ghost output = { λ fault. Some (epd_fault_name fault) };

    fn fmt<W: fmt::Write>(&self, f: &mut fmt::Formatter<W>) -> fmt::Result {
        f.write_str(self.code())
    }
}

/// What is printed for a fault of the fields.
fn fen_code(fault: &FenFault) -> &'static str
    ensures { result.now ≡ codes "Fen " ++ fault_name fault.now }
{
    match fault {
        FenFault::FieldCount => "Fen FieldCount",
        FenFault::BadPlacement => "Fen BadPlacement",
        FenFault::BadSide => "Fen BadSide",
        FenFault::BadCastling => "Fen BadCastling",
        FenFault::BadTarget => "Fen BadTarget",
        FenFault::BadCounter => "Fen BadCounter",
        FenFault::BadKings => "Fen BadKings",
        FenFault::PawnOnEndRank => "Fen PawnOnEndRank",
        FenFault::TooManyMen => "Fen TooManyMen",
        FenFault::RightWithoutMen => "Fen RightWithoutMen",
        FenFault::TargetWithoutPawn => "Fen TargetWithoutPawn",
        FenFault::OpponentInCheck => "Fen OpponentInCheck",
    }
}

impl EpdFault {
    /// The fault's name.
    pub fn code(&self) -> &'static str
        ensures { result.now ≡ epd_fault_name self.now }
    {
        match self {
            EpdFault::TooLong => "TooLong",
            EpdFault::NotPrintable => "NotPrintable",
            EpdFault::Fen(fault) => fen_code(fault),
            EpdFault::BadOpcode => "BadOpcode",
            EpdFault::BadString => "BadString",
            EpdFault::MissingSemicolon => "MissingSemicolon",
            EpdFault::DoubleOpcode => "DoubleOpcode",
            EpdFault::BadBound => "BadBound",
            EpdFault::BoundTooLarge => "BoundTooLarge",
            EpdFault::BadAvoid => "BadAvoid",
            EpdFault::NoMemory => "NoMemory",
        }
    }
}

fn has_opcode(segment: &[u8]) -> bool
    ensures { result ≡ does_have_opcode segment.now }
{
    is_opcode(word_at(segment).0)
}

/// Whether each segment has an opcode.
fn have_opcodes(text: &[u8]) -> bool
    ensures { result ≡ each_segment does_have_opcode (segments_of text.now) }
{
    let mut rest = text;
    while let Some((segment, back)) = first_segment(rest) {
        if !has_opcode(segment) {
            return false;
        }
        rest = back;
    }
    is_blank(rest) || has_opcode(rest)
}

/// Whether the strings of each segment stand as they have to.
fn have_fit_strings(text: &[u8]) -> bool
    ensures { result ≡ each_segment do_strings_fit (segments_of text.now) }
{
    let mut rest = text;
    while let Some((segment, back)) = first_segment(rest) {
        if !strings_fit(segment) {
            return false;
        }
        rest = back;
    }
    is_blank(rest) || strings_fit(rest)
}

/// Whether no ended segment has the opcode.
fn differ_from(opcode: &[u8], text: &[u8]) -> bool
    ensures { result ≡ list_all (differs_from opcode.now) (segments_of text.now).ended }
{
    let mut rest = text;
    while let Some((segment, back)) = first_segment(rest) {
        if is_same_text(opcode, word_at(segment).0) {
            return false;
        }
        rest = back;
    }
    true
}

/// Whether no two ended segments have one opcode.
fn have_distinct_opcodes(text: &[u8]) -> bool
    ensures { result ≡ are_distinct (segments_of text.now).ended }
{
    let mut rest = text;
    while let Some((segment, back)) = first_segment(rest) {
        if !differ_from(word_at(segment).0, back) {
            return false;
        }
        rest = back;
    }
    true
}

/// Whether these operations of a line have a fault, one of those behind `Fen` and before `BoundTooLarge`.
#[tactic(auto, unfolding(crate::specs::RecordFields::cut_of))]
fn applies(fault: EpdFault, text: &[u8]) -> bool
    requires { fault_number fault ≤ 8 }
    ensures applies { 3 < fault_number fault → result ≡ true → (line : List ℕ) → text.now ≡ text_of_operations line → IsAmissBy line fault }
    ensures clear { 3 < fault_number fault → result ≡ false → (line : List ℕ) → text.now ≡ text_of_operations line → ¬ (IsAmissBy line fault) }
{
    match fault {
        EpdFault::BadOpcode => !have_opcodes(text),
        EpdFault::BadString => !have_fit_strings(text),
        EpdFault::MissingSemicolon => !is_blank(last_rest(text)),
        EpdFault::DoubleOpcode => !have_distinct_opcodes(text),
        EpdFault::BadBound => !have_numbers(text),
        _ => false,
    }
}

/// The first fault of the operations of a line, of those before `BoundTooLarge`.
fn operations_fault(line: &[u8]) -> Option<EpdFault>
    ensures later { IfSome result (λ fault. 3 < fault_number fault) }
    ensures applies { IfSome result (λ fault. IsAmissBy line.now fault) }
    ensures first { IfSome result (λ fault. (earlier : EpdFaultValue) → 3 < fault_number earlier → fault_number earlier < fault_number fault
        → ¬ (IsAmissBy line.now earlier)) }
    ensures none { IfNone result ((fault : EpdFaultValue) → 3 < fault_number fault → fault_number fault ≤ 8 → ¬ (IsAmissBy line.now fault)) }
{
    let faults = [
        EpdFault::BadOpcode,
        EpdFault::BadString,
        EpdFault::MissingSemicolon,
        EpdFault::DoubleOpcode,
        EpdFault::BadBound,
    ];
    let text = operations_in(line);
    for fault in faults {
        if applies(fault, text) {
            return Some(fault);
        }
    }
    None
}

/// The position that the fields of a line spell, or their fault.
#[tactic(auto, unfolding(crate::specs::RecordFields::fourth_word, crate::specs::RecordFields::line_fields))]
fn position_of_fields(line: &[u8]) -> Result<Position, EpdFault>
    ensures read { IfOk result (λ p. SpellsSetup (line_fields line.now) p × IsSound p) }
    ensures clear { OnOk result ((fault : FenFaultValue) → ¬ (IsAmissBy line.now (EpdFaultValue.Fen fault))) }
    ensures refused { IfErr result (λ fault. (fault_number fault ≡ 3) × IsAmissBy line.now fault) }
{
    // That the fields spell no other position is the clause of `spells_one`.
    spells_one();
    let words = four_words(line);
    if words.target.is_empty() {
        return Err(EpdFault::Fen(FenFault::FieldCount));
    }
    match read_fields(words.placement, words.side, words.castling, words.target) {
        Ok(position) => Ok(position),
        Err(fault) => Err(EpdFault::Fen(fault)),
    }
}

/// The position of a line, or its first fault, where that is one before `BoundTooLarge`.
#[tactic(auto, unfolding(crate::specs::inside::RecordReading::IsClearTo))]
pub(crate) fn position_of(line: &[u8]) -> Result<Position, EpdFault>
    ensures read { IfOk result (λ p. SpellsSetup (line_fields line.now) p × IsSound p) }
    ensures clear { OnOk result (IsClearTo 8 line.now) }
    ensures refused { IfErr result (λ fault. IsFaultOf line.now fault) }
{
    if MAX_LINE < line.len() {
        return Err(EpdFault::TooLong);
    }
    if !are_printable(line) {
        return Err(EpdFault::NotPrintable);
    }
    let position = position_of_fields(line)?;
    match operations_fault(line) {
        Some(fault) => Err(fault),
        None => Ok(position),
    }
}
