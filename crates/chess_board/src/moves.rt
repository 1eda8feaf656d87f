//! Moves: how they compare, and how they are written.

ghost use Rattle.std.specs.Prelude.{◌≡◌, ◌↔◌, ◌+◌, ◌++◌, ◌<◌, ◌≤◌, IsTrue};
ghost use Rattle.arrayvec.specs.ArrayString.{array_string_len};
ghost use Rattle.chess_board.specs.Moves.{promotion_text, move_text, move_place};

use crate::men::Kind;
use crate::squares::{Square, push_square};
use arrayvec::ArrayString;
use std::marker::Model;

/// A move of a man from its origin to its target, and what it becomes there if it is a pawn on its last rank (FIDE Laws of
/// Chess, article 3.7). A castling move is the king's (article 3.8).
///
/// Moves compare by origin, then target, then promotion in the order none, knight, bishop, rook, queen.
#[derive(Clone, Copy, Debug, Default, PartialEq, Eq, PartialOrd, Ord, Hash)]
pub struct Move {
    pub origin: Square,
    pub target: Square,
    pub promotion: Option<Kind>,
}

impl Model for Move {
    ghost use Rattle.std.specs.Prelude.{◌<◌};
    ghost use Rattle.chess_board.specs.Moves.{Move};

    ghost Value = { Move };

    ghost view = { λ m. record { origin = m.origin; target = m.target; promotion = m.promotion } };

    ghost invariant = { λ m. (m.origin < 64) × (m.target < 64) };

    ghost inverse = { λ v. record { origin = v.origin; target = v.target; promotion = v.promotion } };
}

/// Writes what the pawn becomes by its small letter, or nothing.
fn push_promotion(text: &mut ArrayString<8>, promotion: Option<Kind>)
    requires { array_string_len text.old < 8 }
    ensures { text.new.bytes ≡ text.old.bytes ++ promotion_text promotion }
{
    if let Some(kind) = promotion {
        text.push((kind.letter() + 32) as char);
    }
}

impl Move {
    /// The origin, the target and the promotion's small letter: `e2e4`, `a7a8q`; castling as `e1g1`.
    pub fn text(&self) -> ArrayString<8>
        ensures { result.bytes ≡ move_text self.now }
    {
        let mut text = ArrayString::new();
        push_square(&mut text, self.origin);
        push_square(&mut text, self.target);
        push_promotion(&mut text, self.promotion);
        text
    }
}

/// Whether `a` stands before `b` in the order of moves: `<`, by what contracts see.
pub fn comes_before(a: Move, b: Move) -> bool
    ensures { IsTrue result ↔ (move_place a < move_place b) }
{
    // A place leaves room for 64 targets.
    prove!(a.target.index() < 64 && b.target.index() < 64);
    a < b
}
