//! Callers of `chess_moves`.

ghost use Rattle.std.specs.Prelude.{◌≡◌, List, [], ◌∷◌, length, IfSome, IfNone};
ghost use Rattle.chess_board.specs.MakeMove.{after_setup};
ghost use Rattle.chess_board.specs.Moves.{Move};
ghost use Rattle.chess_moves.specs.inside.Listing.{legal_moves};

use chess_board::{Position, after};
use chess_moves::{Rays, legal, legal_listed};

/// How many legal moves there are.
pub fn mobility(rays: &Rays, position: &Position) -> usize
    ensures { result ≡ length (legal_moves position.now) }
{
    legal(rays, position).len()
}

/// The position after the first legal move; none where there is no legal move.
pub fn after_first(rays: &Rays, position: &Position) -> Option<Position>
    ensures made { IfSome result (λ next. (m : Move) × (others : List Move) × (legal_moves position.now ≡ m ∷ others)
        × (next ≡ after_setup position.now m)) }
    ensures none { IfNone result (legal_moves position.now ≡ []) }
{
    legal_listed();
    match legal(rays, position).as_slice() {
        [first, ..] => Some(after(position, *first)),
        [] => None,
    }
}
