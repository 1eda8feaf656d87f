//! What holds of lines and records. Each function here does nothing: its contract is the law.

ghost use Rattle.chess_notation.specs.RecordLaws.{AnswerReads, ClaimsRead, RecordsClear, SaysOne};

use chess_board::{printed_spells, spells_one};
use chess_moves::legal_listed;

/// A line says one record at most, with one bound where it asks for none itself.
pub fn says_one()
    ensures { SaysOne }
{
    spells_one();
}

/// A line that says a record has no fault: where a fault is answered, there is no record.
pub fn records_clear()
    ensures { RecordsClear }
{
    spells_one();
}

/// An answer text for a record that was read, no longer than a line may be, says that record again. Its bound is the length of
/// the mate, or the default where there is none.
pub fn answer_reads()
    ensures { AnswerReads }
{
    printed_spells();
    legal_listed();
}

/// What the line of a record claims of its keys are the operands of `bm`, a string as so many quotation marks; nothing without `bm`.
pub fn claims_read()
    ensures { ClaimsRead }
{}
