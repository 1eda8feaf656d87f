//! Escapes: whether the king of the side to move steps out of each mate at once, as far as lines tell without a move made.

ghost use Rattle.std.specs.Prelude.{◌≡◌, ℕ, ◌<◌, true, false, IfSome};
ghost use Rattle.square_sets.specs.Members.{has};
ghost use Rattle.chess_board.specs.declared.men.Kind.TheVariants as kind;
ghost use Rattle.chess_board.specs.Soundness.{IsSound};
ghost use Rattle.chess_moves.specs.Escapes.{Escape};
ghost use Rattle.chess_moves.specs.inside.EscapeSquares.{AreMissedBy, AreStepsOf, IsRefuge};

use crate::directions::Leap;
use crate::flights::lines_to_all;
use crate::king_steps::{KingSteps, steps_of_king};
use crate::ray_tables::Rays;
use crate::side_men::{all_of, side_men_of};
use chess_board::{Colour, Kind, Position, sound_after};

/// Whether the king of the side to move is seen to have a step after which no move mates. It is seen where the king steps to an empty
/// square that is in line with no man of the other side, and no kind of man has a square from which it attacks that square and each to
/// which the king may go from there. `false` says nothing: many an escape is not seen so.
pub fn king_escapes(rays: &Rays, position: &Position) -> bool
    ensures { result ≡ true → Escape position.now }
{
    // That a legal move leaves a sound position is this law.
    sound_after();
    let Some(steps) = steps_of_king(rays, position, position.side()) else {
        return false;
    };
    for square in square_sets::squares(steps.squares) {
        if refuge(rays, position, steps, square).is_some() {
            return true;
        }
    }
    false
}

/// The square of a step, and those to which the king may go from there, where no man can attack each of them next.
pub(crate) fn refuge(rays: &Rays, position: &Position, steps: KingSteps, square: u8) -> Option<u64>
    requires steps { AreStepsOf steps position.now }
    requires on_board { square < 64 }
    requires step { has steps.squares square ≡ true }
    ensures { IfSome result (λ squares. IsRefuge squares position.now steps.colour square) }
{
    let enemy = steps.colour.other();
    let others = square_sets::without(all_of(&side_men_of(position, steps.colour)), steps.king);
    let lasting = rays.leap(square, Leap::KingStep) & !others & !steps.in_line;
    let refuge = square_sets::with(lasting, square);
    if may_cover(rays, position, enemy, refuge, Kind::Queen) {
        return None;
    }
    if may_cover(rays, position, enemy, refuge, Kind::Rook) {
        return None;
    }
    if may_cover(rays, position, enemy, refuge, Kind::Bishop) {
        return None;
    }
    if may_cover(rays, position, enemy, refuge, Kind::Knight) {
        return None;
    }
    if may_cover(rays, position, enemy, refuge, Kind::Pawn) {
        return None;
    }
    if king_may_cover(rays, position, enemy, refuge) {
        return None;
    }
    Some(refuge)
}

/// Whether a colour's man of a kind, not a king, may go where it attacks each of these squares.
#[inline(always)]
fn may_cover(rays: &Rays, position: &Position, colour: Colour, squares: u64, kind: Kind) -> bool
    ensures { result ≡ false → AreMissedBy squares colour position.now kind }
{
    position.men(colour, kind) != 0 && lines_to_all(rays, squares, kind, colour) != 0
}

/// Whether a colour's king may step where it attacks each of these squares.
fn king_may_cover(rays: &Rays, position: &Position, colour: Colour, squares: u64) -> bool
    requires sound { IsSound position.now }
    ensures { result ≡ false → AreMissedBy squares colour position.now kind.King }
{
    let king = position.king(colour).index() as u8;
    rays.leap(king, Leap::KingStep) & lines_to_all(rays, squares, Kind::King, colour) != 0
}
