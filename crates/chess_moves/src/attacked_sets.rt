//! All squares that a side attacks, or to which it has a line, as one set.

ghost use Rattle.std.specs.Prelude.{◌≡◌, ℕ, ◌<◌, Bool, ◌&&◌, List, Option, false, is_some};
ghost use Rattle.square_sets.specs.Members.{has};
ghost use Rattle.chess_board.specs.declared.men.Man.{Man as ManValue};
ghost use Rattle.chess_board.specs.Positions.{man_at};
ghost use Rattle.chess_board.specs.Sets.{IsSetOf};
ghost use Rattle.chess_board.specs.Squares.{some_square};
ghost use Rattle.chess_moves.specs.inside.Directions.{is_on_diagonal, is_on_straight, reaches_as_bishop, reaches_as_rook};
ghost use Rattle.chess_moves.specs.inside.SideMen.{StandFor};
ghost use Rattle.chess_moves.specs.inside.Hits.{is_hit, place_hits};
ghost use Rattle.chess_moves.specs.inside.Leaps.{leaps};

use crate::directions::Leap;
use crate::ray_tables::Rays;
use crate::side_men::SideMen;
use chess_board::Colour;
use square_sets::squares;

/// The squares that men of a colour attack, on whatever board these sets stand for.
pub(crate) fn attacked_squares(rays: &Rays, occupied: u64, side_men: &SideMen, by: Colour) -> u64
    ensures { (men : List (Option ManValue)) → IsSetOf occupied is_some men → StandFor side_men.now by men
        → (t : ℕ) → t < 64 → has result t ≡ is_hit men t by }
{
    leapt_to(rays, side_men.pawns, Leap::capture_of(by))
        | leapt_to(rays, side_men.knights, Leap::KnightLeap)
        | seen_by_bishops(rays, side_men.diagonal, occupied)
        | seen_by_rooks(rays, side_men.straight, occupied)
        | leapt_to(rays, side_men.king, Leap::KingStep)
}

/// The squares that men of a colour would attack on an empty board. Whatever stands on the board, they attack no other.
pub(crate) fn squares_in_line(rays: &Rays, side_men: &SideMen, by: Colour) -> u64
    ensures { (men : List (Option ManValue)) → StandFor side_men.now by men → (t : ℕ) → t < 64 → has result t ≡ false
        → (taken : ℕ → Bool) (a : ℕ) → a < 64 → place_hits taken by (man_at men a) a t ≡ false }
{
    leapt_to(rays, side_men.pawns, Leap::capture_of(by))
        | leapt_to(rays, side_men.knights, Leap::KnightLeap)
        | on_diagonals(rays, side_men.diagonal)
        | on_straights(rays, side_men.straight)
        | leapt_to(rays, side_men.king, Leap::KingStep)
}

/// The squares to which a leap goes from one of these.
pub(crate) fn leapt_to(rays: &Rays, from: u64, leap: Leap) -> u64
    ensures { (t : ℕ) → t < 64 → has result t ≡ some_square (λ a. has from a && leaps leap a t) }
{
    let mut set = 0;
    for a in squares(from) {
        set |= rays.leap(a, leap);
    }
    set
}

/// The squares that bishops on these see.
fn seen_by_bishops(rays: &Rays, from: u64, occupied: u64) -> u64
    ensures { (t : ℕ) → t < 64 → has result t ≡ some_square (λ a. has from a && reaches_as_bishop (has occupied) a t) }
{
    let mut set = 0;
    for a in squares(from) {
        set |= rays.bishop_attacks(a, occupied);
    }
    set
}

/// The squares that rooks on these see.
fn seen_by_rooks(rays: &Rays, from: u64, occupied: u64) -> u64
    ensures { (t : ℕ) → t < 64 → has result t ≡ some_square (λ a. has from a && reaches_as_rook (has occupied) a t) }
{
    let mut set = 0;
    for a in squares(from) {
        set |= rays.rook_attacks(a, occupied);
    }
    set
}

/// The squares on a diagonal with one of these.
fn on_diagonals(rays: &Rays, from: u64) -> u64
    ensures { (t : ℕ) → t < 64 → has result t ≡ some_square (λ a. has from a && is_on_diagonal a t) }
{
    let mut set = 0;
    for a in squares(from) {
        set |= rays.diagonals(a);
    }
    set
}

/// The squares on a file or a rank with one of these.
fn on_straights(rays: &Rays, from: u64) -> u64
    ensures { (t : ℕ) → t < 64 → has result t ≡ some_square (λ a. has from a && is_on_straight a t) }
{
    let mut set = 0;
    for a in squares(from) {
        set |= rays.straights(a);
    }
    set
}
