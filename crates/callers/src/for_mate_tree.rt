//! A caller of `mate_tree`.

ghost use Rattle.std.specs.Prelude.{◌≡◌, false};
ghost use Rattle.std.specs.Option.{option_map_or};
ghost use Rattle.chess_moves.specs.Verdicts.{has_mating_move};
ghost use Rattle.mate_tree.specs.Passing.{passed};

use chess_board::Position;
use chess_moves::{Rays, has_mating_move};
use mate_tree::passed;

/// Whether the side that is not to move would mate at once, were the other to pass.
pub fn has_threat(rays: &Rays, position: &Position) -> bool
    ensures { result ≡ option_map_or has_mating_move (passed position.now) false }
{
    match passed(position) {
        Some(other) => has_mating_move(rays, &other),
        None => false,
    }
}
