//! How a position is to be searched: what the words behind `go` say.

ghost use Rattle.std.specs.Prelude.{◌≡◌, map};
ghost use Rattle.uci_commands.specs.GoCommands.{go_of};

use crate::marks::{number_behind, says};

/// What is said of a search. Times are milliseconds; no number is larger than 1,000,000,000.
#[derive(Clone, Copy, Debug, PartialEq, Eq)]
pub struct Go {
    /// Within how many moves mate is to be looked for.
    pub mate: Option<u64>,
    /// How many halfmoves deep.
    pub depth: Option<u64>,
    /// How many positions.
    pub nodes: Option<u64>,
    /// How long exactly.
    pub move_time: Option<u64>,
    /// What White's clock shows.
    pub white_time: Option<u64>,
    pub black_time: Option<u64>,
    /// What White's clock gains with each move.
    pub white_increment: Option<u64>,
    pub black_increment: Option<u64>,
    /// How many moves there are to the next time control.
    pub moves_to_go: Option<u64>,
    /// Until it is told to stop.
    pub infinite: bool,
    /// The same, until what the opponent was expected to play is played.
    pub ponder: bool,
}

/// Reads the words behind `go`. What isn't known is passed over.
#[tactic(auto, unfolding(crate::specs::GoCommands::go_of))]
pub fn read_go(words: &[&str]) -> Go
    ensures { result ≡ go_of (map (λ s. s.now) words.now) }
{
    Go {
        mate: number_behind("mate", words),
        depth: number_behind("depth", words),
        nodes: number_behind("nodes", words),
        move_time: number_behind("movetime", words),
        white_time: number_behind("wtime", words),
        black_time: number_behind("btime", words),
        white_increment: number_behind("winc", words),
        black_increment: number_behind("binc", words),
        moves_to_go: number_behind("movestogo", words),
        infinite: says("infinite", words),
        ponder: says("ponder", words),
    }
}
