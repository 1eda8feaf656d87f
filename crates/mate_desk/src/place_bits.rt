//! Places in a queue of at most 64, as a word: bit k stands for the k-th place.

ghost use Rattle.std.specs.Prelude.{◌≡◌, ◌+◌, ◌<◌, ◌==◌, ◌||◌, ◌&&◌, not, true, false, ℕ, IfNone, IfSome};
ghost use Rattle.mate_desk.specs.inside.PlaceBits.{has_place};

/// The lowest place in a word; none where it has no place.
pub(crate) fn first_place(word: u64) -> Option<usize>
    ensures none { IfNone result ((place : ℕ) → place < 64 → has_place word place ≡ false) }
    ensures inside { IfSome result (λ first. (first < 64) × (has_place word first ≡ true)) }
    ensures lowest { IfSome result (λ first. (place : ℕ) → place < first → has_place word place ≡ false) }
{
    if word == 0 {
        return None;
    }
    Some(word.trailing_zeros() as usize)
}

/// A word with one place more.
pub(crate) fn with_place(word: u64, place: usize) -> u64
    requires { place < 64 }
    ensures { (p : ℕ) → p < 64 → has_place result p ≡ (p == place || has_place word p) }
{
    word | 1 << place
}

/// A word without a place.
pub(crate) fn without_place(word: u64, place: usize) -> u64
    requires { place < 64 }
    ensures { (p : ℕ) → p < 64 → has_place result p ≡ (not (p == place) && has_place word p) }
{
    word & !(1 << place)
}

/// A word whose places are one lower; place 0 is gone.
pub(crate) fn lower_places(word: u64) -> u64
    ensures { (p : ℕ) → p < 64 → has_place result p ≡ has_place word (p + 1) }
{
    word >> 1
}
