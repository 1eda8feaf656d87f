//! Attackers: the men that attack a square, and whether one does.

ghost use Rattle.std.specs.Prelude.{◌≡◌, ℕ, ◌<◌, ◌&&◌, List, Option, is_some};
ghost use Rattle.square_sets.specs.Members.{has};
ghost use Rattle.chess_board.specs.declared.men.Man.{Man as ManValue};
ghost use Rattle.chess_board.specs.Attacks.{is_attacked};
ghost use Rattle.chess_board.specs.Sets.{IsSetOf};
ghost use Rattle.chess_moves.specs.inside.Directions.{reaches_as_bishop, reaches_as_rook};
ghost use Rattle.chess_moves.specs.inside.Hits.{hits_from, is_hit};
ghost use Rattle.chess_moves.specs.inside.SideMen.{StandFor};

use crate::directions::Leap;
use crate::ray_tables::Rays;
use crate::side_men::{SideMen, side_men_of};
use chess_board::{Colour, Position, Square};

/// Whether some man of the colour attacks the square, whoever stands there, and whether or not that man may move (FIDE Laws
/// of Chess, articles 3.1.2 and 3.1.3).
pub fn attacked(rays: &Rays, position: &Position, square: Square, by: Colour) -> bool
    ensures { result ≡ is_attacked position.now.men square by }
{
    let side_men = side_men_of(position, by);
    is_hit_over(
        rays,
        position.occupied(),
        &side_men,
        by,
        square.index() as u8,
    )
}

/// The sliders that see a square as bishops do. Where none of them stands on its diagonals nothing is scanned.
fn diagonal_attackers(rays: &Rays, occupied: u64, sliders: u64, square: u8) -> u64
    requires { square < 64 }
    ensures { (t : ℕ) → t < 64 → has result t ≡ (has sliders t && reaches_as_bishop (has occupied) square t) }
{
    let near = sliders & rays.diagonals(square);
    if near == 0 {
        return 0;
    }
    near & rays.bishop_attacks(square, occupied)
}

/// The sliders that see a square as rooks do. Where none of them stands on its rank or its file nothing is scanned.
fn straight_attackers(rays: &Rays, occupied: u64, sliders: u64, square: u8) -> u64
    requires { square < 64 }
    ensures { (t : ℕ) → t < 64 → has result t ≡ (has sliders t && reaches_as_rook (has occupied) square t) }
{
    let near = sliders & rays.straights(square);
    if near == 0 {
        return 0;
    }
    near & rays.rook_attacks(square, occupied)
}

/// The squares from which men of a colour attack a square, on whatever board these sets stand for.
pub(crate) fn attackers(
    rays: &Rays,
    occupied: u64,
    side_men: &SideMen,
    by: Colour,
    square: u8,
) -> u64
    requires { square < 64 }
    ensures { (men : List (Option ManValue)) → IsSetOf occupied is_some men → StandFor side_men.now by men
        → (s : ℕ) → s < 64 → has result s ≡ hits_from men by s square }
{
    side_men.pawns & rays.leap(square, Leap::capture_back(by))
        | side_men.knights & rays.leap(square, Leap::KnightLeap)
        | diagonal_attackers(rays, occupied, side_men.diagonal, square)
        | straight_attackers(rays, occupied, side_men.straight, square)
        | side_men.king & rays.leap(square, Leap::KingStep)
}

/// Whether a man of the colour attacks a square, on whatever board these sets stand for.
pub(crate) fn is_hit_over(
    rays: &Rays,
    occupied: u64,
    side_men: &SideMen,
    by: Colour,
    square: u8,
) -> bool
    requires { square < 64 }
    ensures { (men : List (Option ManValue)) → IsSetOf occupied is_some men → StandFor side_men.now by men
        → result ≡ is_hit men square by }
{
    attackers(rays, occupied, side_men, by, square) != 0
}
