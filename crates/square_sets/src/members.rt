//! Which squares are in a set.

ghost use Rattle.std.specs.Prelude.{◌≡◌, ℕ, ◌<◌, ◌==◌, ◌||◌, ◌&&◌, not};
ghost use Rattle.square_sets.specs.Members.{has};

/// Whether a square, 0 for a1 to 63 for h8, is in a set.
pub fn contains(set: u64, square: u8) -> bool
    requires { square < 64 }
    ensures { result ≡ has set square }
{
    set >> square & 1 == 1
}

/// The set of one square.
pub fn single(square: u8) -> u64
    requires { square < 64 }
    ensures { (s : ℕ) → s < 64 → has result s ≡ (s == square) }
{
    with(0, square)
}

/// A set with one square more.
pub fn with(set: u64, square: u8) -> u64
    requires { square < 64 }
    ensures { (s : ℕ) → s < 64 → has result s ≡ (s == square || has set s) }
{
    set | 1 << square
}

/// A set without a square.
pub fn without(set: u64, square: u8) -> u64
    requires { square < 64 }
    ensures { (s : ℕ) → s < 64 → has result s ≡ (not (s == square) && has set s) }
{
    set & !(1 << square)
}
