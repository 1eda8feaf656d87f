//! Why a text is no FEN of a sound position.

ghost use Rattle.std.specs.Prelude.{◌≡◌, codes, Some};
ghost use Rattle.chess_board.specs.Faults.{fault_name};

use std::fmt;
use thiserror::Error;

/// The first fault of a text, in the order in which the variants stand. It prints as its name.
#[derive(Clone, Copy, Debug, PartialEq, Eq, Error)]
pub enum FenFault {
    /// Cutting at every space does not give six fields.
    FieldCount,
    /// The first field is no placement.
    BadPlacement,
    /// The side to move is neither `w` nor `b`.
    BadSide,
    /// The castling field is neither `-` nor letters of `KQkq` without repeats.
    BadCastling,
    /// The target is neither `-` nor a square on the target rank of the side to move.
    BadTarget,
    /// A counter is not one to four digits.
    BadCounter,
    /// A side has not exactly one king.
    BadKings,
    /// A pawn stands on rank 1 or 8.
    PawnOnEndRank,
    /// A side has more than 16 men.
    TooManyMen,
    /// A castling right lacks its king or its rook at home.
    RightWithoutMen,
    /// The target lacks its pawn just beyond it, or it or the pawn's origin is not empty.
    TargetWithoutPawn,
    /// The king of the side that is not to move is attacked.
    OpponentInCheck,
}

impl fmt::Display for FenFault {
    ghost output = { λ fault. Some (fault_name fault) };

    fn fmt<W: fmt::Write>(&self, f: &mut fmt::Formatter<W>) -> fmt::Result {
        f.write_str(self.code())
    }
}

impl FenFault {
    /// The fault's name.
    pub fn code(&self) -> &'static str
        ensures { result.now ≡ fault_name self.now }
    {
        match self {
            FenFault::FieldCount => "FieldCount",
            FenFault::BadPlacement => "BadPlacement",
            FenFault::BadSide => "BadSide",
            FenFault::BadCastling => "BadCastling",
            FenFault::BadTarget => "BadTarget",
            FenFault::BadCounter => "BadCounter",
            FenFault::BadKings => "BadKings",
            FenFault::PawnOnEndRank => "PawnOnEndRank",
            FenFault::TooManyMen => "TooManyMen",
            FenFault::RightWithoutMen => "RightWithoutMen",
            FenFault::TargetWithoutPawn => "TargetWithoutPawn",
            FenFault::OpponentInCheck => "OpponentInCheck",
        }
    }
}
