//! How a position can stand.

/// Whether the side to move can go on, and if not, how the game has ended.
#[derive(Clone, Copy, Debug, PartialEq, Eq, Hash)]
pub enum Verdict {
    /// There is a legal move.
    Play,
    /// The king of the side to move is attacked and there is no legal move (FIDE Laws of Chess, article 5.1.1).
    Mate,
    /// That king is not attacked and there is no legal move (article 5.2.1).
    Stalemate,
}
