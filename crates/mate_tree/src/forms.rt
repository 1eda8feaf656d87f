//! How much of a tree is shown, and how.

ghost use Rattle.std.specs.Prelude.{◌≡◌};
ghost use Rattle.mate_tree.specs.Forms.{moves_shown};

use move_words::Letters;

/// What stands for pieces in the lines of a tree.
#[derive(Clone, Copy, Debug, PartialEq, Eq)]
pub enum Pieces {
    /// The letters of SAN.
    San,
    /// White's figurines.
    Figurines,
    /// Such letters.
    Letters(Letters),
}

/// What is shown of a tree, how much, and how.
#[derive(Clone, Copy, Debug, PartialEq, Eq)]
pub struct Form {
    /// How many of the attacker's moves; without a number all of a mate in up to 3, and 2 of a longer one.
    pub moves: Option<u8>,
    /// Whether of the defences those alone are shown that parry the threat, together where the same mates answer them.
    pub defences: bool,
    /// Whether set play is shown, before the keys.
    pub set_play: bool,
    /// Whether tries are shown, behind the keys.
    pub tries: bool,
    /// How many lines at most; without a number all.
    pub lines: Option<u32>,
    /// Whether the lines stand behind each other, as one.
    pub column: bool,
    /// What stands for pieces in the lines.
    pub pieces: Pieces,
}

impl Form {
    /// How many of the attacker's moves are shown of a mate in `n`.
    pub(crate) fn moves_shown(&self, n: u8) -> u8
        ensures { result ≡ moves_shown self.now.moves n }
    {
        match self.moves {
            Some(moves) => moves,
            None => { if n <= 3 { n } else { 2 } }
        }
    }
}
