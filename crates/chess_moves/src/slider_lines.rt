//! Lines between sliders and a square: which sliders nothing keeps from it, and where a man stands alone between.

ghost use Rattle.std.specs.Prelude.{◌≡◌, ℕ, ◌<◌, ◌&&◌, ◌||◌, ◌==◌, true, false};
ghost use Rattle.square_sets.specs.Members.{has};
ghost use Rattle.chess_moves.specs.inside.Directions.{reaches_as_bishop, reaches_as_rook, is_on_diagonal, is_on_straight};
ghost use Rattle.chess_moves.specs.inside.SliderLines.{is_open, IsAlone, IsAloneIn};

use crate::ray_tables::Rays;

/// What stands between some sliders and a square.
#[derive(Clone, Copy)]
pub(crate) struct SliderLines {
    /// The sliders between which and the square nothing stands.
    pub clear: u64,
    /// Where a man stands alone between one of them and the square.
    pub blockers: u64,
}

/// The same with one slider more, where these squares between it and the square are taken.
#[inline(always)]
fn with_slider(lines: SliderLines, slider: u8, taken: u64) -> SliderLines
    requires { slider < 64 }
    ensures clear { (t : ℕ) → t < 64 → has result.clear t ≡ (has lines.clear t || t == slider && taken == 0) }
    ensures more { (t : ℕ) → t < 64 → has lines.blockers t ≡ true → has result.blockers t ≡ true }
    ensures blockers { (o : ℕ) → o < 64 → IsAloneIn taken o → has result.blockers o ≡ true }
{
    let mut lines = lines;
    if taken == 0 {
        lines.clear = square_sets::with(lines.clear, slider);
    } else if square_sets::without(taken, square_sets::lowest(taken)) == 0 {
        lines.blockers |= taken;
    }
    lines
}

/// What stands between a square and sliders on its lines.
#[inline(always)]
fn slider_lines(rays: &Rays, occupied: u64, sliders: u64, square: u8) -> SliderLines
    requires { square < 64 }
    ensures clear { (a : ℕ) → a < 64 → has result.clear a ≡ (has sliders a && is_open (has occupied) square a) }
    ensures blockers { (a o : ℕ) → a < 64 → o < 64 → has sliders a ≡ true → IsAlone (has occupied) square a o → has result.blockers o ≡ true }
{
    let mut lines = SliderLines {
        clear: 0,
        blockers: 0,
    };
    for slider in square_sets::squares(sliders) {
        lines = with_slider(lines, slider, rays.between(square, slider) & occupied);
    }
    lines
}

/// What stands between a square and the sliders on its diagonals.
pub(crate) fn diagonal_lines(rays: &Rays, occupied: u64, sliders: u64, square: u8) -> SliderLines
    requires { square < 64 }
    ensures clear { (a : ℕ) → a < 64 → has result.clear a ≡ (has sliders a && reaches_as_bishop (has occupied) square a) }
    ensures blockers { (a o : ℕ) → a < 64 → o < 64 → has sliders a ≡ true → is_on_diagonal square a ≡ true → IsAlone (has occupied) square a o
        → has result.blockers o ≡ true }
{
    slider_lines(rays, occupied, sliders & rays.diagonals(square), square)
}

/// What stands between a square and the sliders on its rank and its file.
pub(crate) fn straight_lines(rays: &Rays, occupied: u64, sliders: u64, square: u8) -> SliderLines
    requires { square < 64 }
    ensures clear { (a : ℕ) → a < 64 → has result.clear a ≡ (has sliders a && reaches_as_rook (has occupied) square a) }
    ensures blockers { (a o : ℕ) → a < 64 → o < 64 → has sliders a ≡ true → is_on_straight square a ≡ true → IsAlone (has occupied) square a o
        → has result.blockers o ≡ true }
{
    slider_lines(rays, occupied, sliders & rays.straights(square), square)
}
