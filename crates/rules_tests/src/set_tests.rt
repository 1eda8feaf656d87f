//! Sets of squares: one square more, one less, and the squares one after the other.

use crate::test_positions::same;
use square_sets::{contains, lowest, single, squares, with, without, without_lowest};

#[test]
fn puts_and_takes_squares(rt: HostRuntime) {
    // a1, h1, a2, h8
    static TABLE: [(u8, u64); 4] = [(0, 0x1), (7, 0x80), (8, 0x100), (63, 0x8000_0000_0000_0000)];
    for (square, set) in &TABLE {
        let others = u64::MAX - set;
        let put = (single(*square), with(0, *square), with(*set, *square));
        same(&rt, square, &put, &(*set, *set, *set));
        let taken = (without(*set, *square), without(u64::MAX, *square));
        same(&rt, square, &taken, &(0, others));
        let found = (contains(*set, *square), contains(others, *square));
        same(&rt, square, &found, &(true, false));
    }
}

#[test]
fn goes_from_a1_to_h8(rt: HostRuntime) {
    // Nothing; a1; h8; a1, h1, a2 and h8; the long diagonal.
    static ROWS: [(u64, &[u8]); 5] = [
        (0, &[]),
        (0x1, &[0]),
        (0x8000_0000_0000_0000, &[63]),
        (0x8000_0000_0000_0181, &[0, 7, 8, 63]),
        (0x8040_2010_0804_0201, &[0, 9, 18, 27, 36, 45, 54, 63]),
    ];
    for (set, expected) in &ROWS {
        let mut left = squares(*set);
        for square in *expected {
            same(&rt, set, &left.next(), &Some(*square));
        }
        same(&rt, set, &(left.next(), left.next()), &(None, None));
    }
}

#[test]
fn goes_through_all_squares(rt: HostRuntime) {
    let mut next = 0;
    for square in squares(u64::MAX) {
        assert_eq!(rt; square, next);
        next += 1;
    }
    assert_eq!(rt; next, 64);
}

#[test]
fn takes_the_lowest_square(rt: HostRuntime) {
    static TABLE: [(u64, u8, u64); 4] = [
        (0x1, 0, 0),
        (0x8000_0000_0000_0000, 63, 0),
        (0x8000_0000_0000_0180, 7, 0x8000_0000_0000_0100),
        (u64::MAX, 0, u64::MAX - 1),
    ];
    for (set, square, rest) in &TABLE {
        let found = (lowest(*set), without_lowest(*set));
        same(&rt, set, &found, &(*square, *rest));
    }
}
