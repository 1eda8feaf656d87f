//! Why a problem can't be imported.

ghost use Rattle.std.specs.Prelude.{◌≡◌, Some};
ghost use Rattle.problem_import.specs.Imports.{import_fault_name};

use chess_notation::EpdFault;
use std::fmt;
use thiserror::Error;

/// Why a problem can't be read. It prints as its name.
#[derive(Clone, Copy, Debug, PartialEq, Eq, Error)]
pub enum ImportFault {
    /// What was made of it is no record.
    Record(EpdFault),
    /// A game has no `FEN` among its tags.
    NoFen,
    /// A game has two that differ.
    TwoFens,
    /// No number of moves is said.
    NoBound,
    /// Two numbers of moves are said.
    TwoBounds,
    /// It speaks of an aim in words that aren't understood; or a problem of Popeye's or Olive's has no stipulation, or another than `#N` and `N#`;
    /// or a game's is none.
    BadStipulation,
    /// It says that the other side moves.
    WrongSide,
    /// It tells of other numbers of men than it has.
    OtherMen,
    /// It has a condition, or is of another variant.
    FairyCondition,
    /// It has a man that is none of chess.
    FairyPiece,
    /// It has another command, or an option that changes the problem.
    UnknownCommand,
}

impl ImportFault {
    /// The fault's name.
    pub fn code(&self) -> &'static str
        ensures { result.now ≡ import_fault_name self.now }
    {
        match self {
            ImportFault::Record(fault) => fault.code(),
            ImportFault::NoFen => "NoFen",
            ImportFault::TwoFens => "TwoFens",
            ImportFault::NoBound => "NoBound",
            ImportFault::TwoBounds => "TwoBounds",
            ImportFault::BadStipulation => "BadStipulation",
            ImportFault::WrongSide => "WrongSide",
            ImportFault::OtherMen => "OtherMen",
            ImportFault::FairyCondition => "FairyCondition",
            ImportFault::FairyPiece => "FairyPiece",
            ImportFault::UnknownCommand => "UnknownCommand",
        }
    }
}

impl fmt::Display for ImportFault {
    ghost output = { λ fault. Some (import_fault_name fault) };

    fn fmt<W: fmt::Write>(&self, f: &mut fmt::Formatter<W>) -> fmt::Result {
        f.write_str(self.code())
    }
}
