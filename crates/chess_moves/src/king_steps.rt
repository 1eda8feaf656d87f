//! The steps of a king to empty squares in line with no man of the other side, as far as each of these men only goes as it attacks.

ghost use Rattle.std.specs.Prelude.{◌≡◌, false, IfSome};
ghost use Rattle.chess_board.specs.Soundness.{IsSound};
ghost use Rattle.chess_moves.specs.inside.EscapeSquares.{AreStepsOf, HasPlainMen};

use crate::attacked_sets::squares_in_line;
use crate::directions::Leap;
use crate::mating_men::rank_before_last;
use crate::ray_tables::Rays;
use crate::side_men::side_men_of;
use chess_board::{Colour, Kind, Position, king_home};

/// A king, the empty squares beside it that are in line with no man of the other side, and all squares that are in line with one.
#[derive(Clone, Copy)]
pub(crate) struct KingSteps {
    pub colour: Colour,
    pub king: u8,
    pub squares: u64,
    pub in_line: u64,
}

/// The steps of a colour's king, where it has some and no man of the other side may promote or castle next.
#[inline(always)]
pub(crate) fn steps_of_king(rays: &Rays, position: &Position, colour: Colour) -> Option<KingSteps>
    requires sound { IsSound position.now }
    ensures steps { IfSome result (λ s. AreStepsOf s position.now) }
    ensures colour { IfSome result (λ s. s.colour ≡ colour) }
{
    let enemy = colour.other();
    let king = position.king(colour).index() as u8;
    let empty = rays.leap(king, Leap::KingStep) & !position.occupied();
    if empty == 0 || may_be_special(position, enemy) {
        return None;
    }
    let in_line = squares_in_line(rays, &side_men_of(position, enemy), enemy);
    Some(KingSteps {
        colour,
        king,
        squares: empty & !in_line,
        in_line,
    })
}

/// Whether a man of a colour may promote or castle next.
fn may_be_special(position: &Position, colour: Colour) -> bool
    ensures { result ≡ false → HasPlainMen colour position.now }
{
    let before_last = position.men(colour, Kind::Pawn) & rank_before_last(colour);
    let home = square_sets::single(king_home(colour).index() as u8);
    before_last != 0 || position.men(colour, Kind::King) & home != 0
}
