//! The directions of a ray, and the leaps that nothing in between can stop.

ghost use Rattle.std.specs.Prelude.{◌≡◌};
ghost use Rattle.chess_moves.specs.inside.Directions.{is_rising};
ghost use Rattle.chess_moves.specs.inside.Leaps.{capture_of, step_of, double_of, capture_back};

use chess_board::Colour;

/// The eight directions in which a queen goes; north is where White's pawns go.
#[derive(Clone, Copy, PartialEq, Eq)]
pub(crate) enum Direction {
    North,
    NorthEast,
    East,
    SouthEast,
    South,
    SouthWest,
    West,
    NorthWest,
}

impl Direction {
    /// Whether the numbers of the squares rise in this direction.
    pub(crate) fn rises(self) -> bool
        ensures { result ≡ is_rising self }
    {
        match self {
            Direction::North | Direction::NorthEast | Direction::East | Direction::NorthWest =>
                true,
            Direction::SouthEast | Direction::South | Direction::SouthWest | Direction::West =>
                false,
        }
    }
}

/// Where a man goes that nothing in between can stop. A capture is what a pawn attacks, and a double step is one from its
/// second rank.
#[derive(Clone, Copy, PartialEq, Eq)]
pub(crate) enum Leap {
    KnightLeap,
    KingStep,
    WhiteCapture,
    BlackCapture,
    WhiteStep,
    BlackStep,
    WhiteDouble,
    BlackDouble,
}

impl Leap {
    /// What a colour's pawns attack.
    pub(crate) fn capture_of(colour: Colour) -> Leap
        ensures { result ≡ capture_of colour }
    {
        match colour {
            Colour::White => Leap::WhiteCapture,
            Colour::Black => Leap::BlackCapture,
        }
    }

    /// The leap from a square back to the colour's pawns that attack it.
    pub(crate) fn capture_back(colour: Colour) -> Leap
        ensures { result ≡ capture_back colour }
    {
        match colour {
            Colour::White => Leap::BlackCapture,
            Colour::Black => Leap::WhiteCapture,
        }
    }

    /// The single step of a colour's pawns.
    pub(crate) fn step_of(colour: Colour) -> Leap
        ensures { result ≡ step_of colour }
    {
        match colour {
            Colour::White => Leap::WhiteStep,
            Colour::Black => Leap::BlackStep,
        }
    }

    /// The double step of a colour's pawns.
    pub(crate) fn double_of(colour: Colour) -> Leap
        ensures { result ≡ double_of colour }
    {
        match colour {
            Colour::White => Leap::WhiteDouble,
            Colour::Black => Leap::BlackDouble,
        }
    }
}
