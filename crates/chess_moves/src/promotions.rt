//! Promotions: where a man is promoted, and how many moves it has.

ghost use Rattle.std.specs.Prelude.{◌≡◌, ℕ, ◌<◌, ◌≤◌, length};
ghost use Rattle.std.specs.List.{flat_map};
ghost use Rattle.square_sets.specs.Members.{has, members};
ghost use Rattle.chess_board.specs.PseudoLegal.{promotes};
ghost use Rattle.chess_moves.specs.inside.LegalTargets.{ways};

use chess_board::{Colour, Kind, Man};

/// The squares on which the man is promoted: a pawn's last rank (FIDE Laws of Chess, article 3.7).
pub(crate) fn promotion_squares(man: Man) -> u64
    ensures { (s : ℕ) → s < 64 → has result s ≡ promotes man s }
{
    if man.kind != Kind::Pawn {
        return 0;
    }
    match man.colour {
        Colour::White => 0xff00_0000_0000_0000,
        Colour::Black => 0xff,
    }
}

/// How many moves to these targets a man has: four where it is promoted, else one.
pub(crate) fn count_ways(man: Man, targets: u64) -> u64
    ensures count { (origin : ℕ) → result ≡ length (flat_map (ways man origin) (members targets)) }
    ensures few { result ≤ 256 }
{
    let promoted = targets & promotion_squares(man);
    u64::from(targets.count_ones()) + 3 * u64::from(promoted.count_ones())
}
