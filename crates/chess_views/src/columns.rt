//! Which columns a list of moves has.

/// What stands on the line of a move, with a tab between each two.
#[derive(Clone, Copy, Debug, PartialEq, Eq)]
pub enum Columns {
    /// Its text in SAN.
    San,
    /// Its coordinates.
    Coordinates,
    /// Its text in SAN, and the FEN after it.
    SanFen,
    /// Its text in SAN, its coordinates, and the FEN after it.
    SanCoordinatesFen,
}
