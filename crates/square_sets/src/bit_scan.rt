//! The squares of a set one after the other, from a1 to h8.

ghost use Rattle.std.specs.Prelude.{◌≡◌, ℕ, ◌<◌};
ghost use Rattle.std.specs.Iterator.{item_count};
ghost use Rattle.square_sets.specs.Members.{members};
ghost use Rattle.square_sets.specs.BitScan.{IsLowest, IsSplit, YieldsLowest};

use crate::members::without;
use std::iter::FusedIterator;
use std::marker::Model;

/// The lowest square of a set that is not empty.
#[inline(always)]
pub fn lowest(set: u64) -> u8
    requires { 0 < set }
    ensures { IsLowest result set }
{
    set.trailing_zeros() as u8
}

/// A set that is not empty, without its lowest square.
#[inline(always)]
pub fn without_lowest(set: u64) -> u64
    requires { 0 < set }
    ensures { (square : ℕ) → IsLowest square set → IsSplit set square result }
{
    without(set, lowest(set))
}

/// The squares of a set, each once, rising. A contract sees the set of those that are still to come.
#[derive(Drop)]
pub struct SquareScan {
    left: u64,
}

impl Model for SquareScan {
    ghost use Rattle.std.specs.Prelude.{ℕ};

    ghost Value = { ℕ };

    ghost view = { λ scan. scan.left };
}

/// Goes through the squares of a set: `for square in squares(set)`.
#[inline(always)]
pub fn squares(set: u64) -> SquareScan
    ensures { result ≡ set }
{
    SquareScan { left: set }
}

impl Iterator for SquareScan {
    type Item = u8;

    ghost next_gives = { YieldsLowest };

    ghost remaining = { item_count members };

    #[inline(always)]
    fn next(&mut self) -> Option<u8> {
        if self.left == 0 {
            return None;
        }
        let square = lowest(self.left);
        self.left = without_lowest(self.left);
        Some(square)
    }
}

impl FusedIterator for SquareScan {}
