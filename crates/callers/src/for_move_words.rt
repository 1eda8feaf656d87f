//! A caller of `move_words`.

ghost use Rattle.std.specs.Prelude.{◌≡◌, ◌≢◌, IfNone, IfSome};
ghost use Rattle.chess_board.specs.Moves.{Move as MoveValue};
ghost use Rattle.move_words.specs.Naming.{named};
ghost use Rattle.move_words.specs.declared.naming.Named.{Named as NamedValue};

use chess_board::{Move, Position};
use chess_moves::Rays;
use move_words::{Letters, Named, named_move};

/// The one legal move that a word names under these letters, if it names one alone.
pub fn move_meant(rays: &Rays, letters: &Letters, position: &Position, word: &[u8]) -> Option<Move>
    ensures meant { IfSome result (λ m. named letters.now position.now word.now ≡ NamedValue.One m) }
    ensures none { IfNone result ((m : MoveValue) → named letters.now position.now word.now ≢ NamedValue.One m) }
{
    match named_move(rays, letters, position, word) {
        Named::One(m) => Some(m),
        Named::No | Named::Several => None,
    }
}
