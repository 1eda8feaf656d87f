//! Callers of `square_sets`.

ghost use Rattle.std.specs.Prelude.{◌≡◌, ℕ, ◌-◌, ◌<◌, ◌==◌, not, ◌&&◌, ◌||◌, IfSome, IfNone};
ghost use Rattle.square_sets.specs.BitScan.{IsLowest};
ghost use Rattle.square_sets.specs.Members.{has};

use square_sets::{lowest, squares, with, without};

/// The lowest square of a set; none of the empty set.
pub fn first_square(set: u64) -> Option<u8>
    ensures found { IfSome result (λ square. IsLowest square set) }
    ensures none { IfNone result (set ≡ 0) }
{
    if set == 0 { None } else { Some(lowest(set)) }
}

/// The squares of some men, once one of them went elsewhere.
pub fn moved(set: u64, origin: u8, target: u8) -> u64
    requires { (origin < 64) × (target < 64) }
    ensures { (s : ℕ) → s < 64 → has result s ≡ (s == target || not (s == origin) && has set s) }
{
    with(without(set, origin), target)
}

/// The set as it is seen from the other side of the board.
pub fn turned(set: u64) -> u64
    ensures { (s : ℕ) → s < 64 → has result s ≡ has set (63 - s) }
{
    let mut result = 0;
    for square in squares(set) {
        result = with(result, 63 - square);
    }
    result
}
