//! What texts ask.

ghost use Rattle.std.specs.Prelude.{◌≡◌};
ghost use Rattle.stipulations.specs.Stipulations.{asks_something as does_ask, both as both_of};

/// What a text asks.
#[derive(Clone, Copy, Debug, PartialEq, Eq)]
pub enum Asked {
    /// It speaks of no aim.
    Nothing,
    /// A mate in so many moves.
    Moves(u8),
    /// It says two numbers of moves.
    Two,
    /// It speaks of an aim in words that aren't understood.
    Unknown,
}

impl Asked {
    /// What two texts ask together.
    pub fn and(self, other: Asked) -> Asked
        ensures { result ≡ both_of self other }
    {
        match (self, other) {
            (Asked::Nothing, _) => other,
            (Asked::Unknown, _) | (_, Asked::Unknown) => Asked::Unknown,
            (Asked::Moves(_), Asked::Nothing) => self,
            (Asked::Moves(m), Asked::Moves(n)) if m == n => self,
            (Asked::Moves(_), _) | (Asked::Two, _) => Asked::Two,
        }
    }

    /// Whether it is anything.
    pub(crate) fn asks_something(self) -> bool
        ensures { result ≡ does_ask self }
    {
        !matches!(self, Asked::Nothing)
    }
}
