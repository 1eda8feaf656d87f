//! Capture en passant: its target, and the pawn that is captured (FIDE Laws of Chess, article 3.7).

ghost use Rattle.std.specs.Prelude.{◌≡◌};
ghost use Rattle.chess_board.specs.EnPassant.{target_after, is_square, is_en_passant, captured_pawn};

use crate::men::{Kind, Man};
use crate::moves::Move;
use crate::positions::Position;
use crate::squares::{Square, crossed, rank_gap_of};

/// The square that a double step passed over, whether or not a pawn can capture there.
pub(crate) fn target_after(man: Man, m: Move) -> Option<Square>
    ensures { result ≡ target_after man m }
{
    if man.kind == Kind::Pawn && rank_gap_of(m.origin, m.target) == 2 {
        Some(crossed(m.origin, m.target))
    } else {
        None
    }
}

/// Whether the target, if there is one, is this square.
fn is_square(target: &Option<Square>, square: Square) -> bool
    ensures { result ≡ is_square target.now square }
{
    match target {
        Some(target) => *target == square,
        None => false,
    }
}

/// Whether a man's move is a capture en passant: a pawn goes to the target (FIDE Laws of Chess, article 3.7). Of a legal move it can
/// come there in no other way.
pub fn is_en_passant(position: &Position, man: Man, m: Move) -> bool
    ensures { result ≡ is_en_passant position.now man m }
{
    man.kind == Kind::Pawn && is_square(&position.ep_target(), m.target)
}

/// The square of the pawn that is captured en passant: on the origin's rank and the target's file (FIDE Laws of Chess, article
/// 3.7).
pub fn captured_pawn(a: Square, b: Square) -> Square
    ensures { result ≡ captured_pawn a b }
{
    Square::numbered(8 * a.rank() + b.file())
}
