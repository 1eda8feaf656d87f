//! Places: what a word says of a square.

ghost use Rattle.std.specs.Prelude.{◌≡◌};
ghost use Rattle.move_words.specs.Places.{after_place, is_at, is_nowhere, is_said as is_said_of, is_square, place};

use crate::letters::{file_at, rank_at};
use chess_board::Square;

/// What is said of a square: its file and its rank, from 0 to 7, each or neither.
#[derive(Clone, Copy)]
pub struct Place {
    pub file: Option<u8>,
    pub rank: Option<u8>,
}

/// The place that a text begins with, and what stands behind.
pub(crate) fn place_at(text: &[u8]) -> (Place, &[u8])
    ensures place { result.0 ≡ place text.now }
    ensures behind { result.1.now ≡ after_place text.now }
{
    let (file, rest) = file_at(text);
    let (rank, rest) = rank_at(rest);
    (Place { file, rank }, rest)
}

/// Whether a number is what is said, if something is.
fn is_said(said: Option<u8>, number: u8) -> bool
    ensures { result ≡ is_said_of said number }
{
    match said {
        Some(said) => said == number,
        None => true,
    }
}

impl Place {
    /// No place.
    pub(crate) const NOWHERE: Place = Place {
        file: None,
        rank: None,
    };

    /// Whether file and rank are said.
    pub(crate) fn is_square(self) -> bool
        ensures { result ≡ is_square self }
    {
        self.file.is_some() && self.rank.is_some()
    }

    /// Whether neither is said.
    pub(crate) fn is_nowhere(self) -> bool
        ensures { result ≡ is_nowhere self }
    {
        self.file.is_none() && self.rank.is_none()
    }

    /// Whether what is said is true of a square.
    pub(crate) fn is_at(self, square: Square) -> bool
        ensures { result ≡ is_at self square }
    {
        is_said(self.file, square.file()) && is_said(self.rank, square.rank())
    }
}
