//! Problems with moves to avoid, on one memo with those without.

use crate::test_rows::{check_input, memo_of};

/// Records, each with its answer. The second of the first three keeps its position in the memo as one with a mate in two.
static KNOWN: [(&str, &str); 7] = [
    (
        "7k/8/5K2/8/8/8/8/R7 w - - am Kf7 Kg6; dm 2;",
        "7k/8/5K2/8/8/8/8/R7 w - - am Kf7 Kg6; c0 \"no mate in 2\";\n",
    ),
    (
        "7k/8/5K2/8/8/8/8/R7 w - - dm 2;",
        "7k/8/5K2/8/8/8/8/R7 w - - bm Kf7 Kg6; dm 2; pv Kg6 Kg8 Ra8#;\n",
    ),
    (
        "7k/8/5K2/8/8/8/8/R7 w - - am Kf7 Kg6; dm 2;",
        "7k/8/5K2/8/8/8/8/R7 w - - am Kf7 Kg6; c0 \"no mate in 2\";\n",
    ),
    (
        "7k/8/5K2/8/8/8/8/R7 w - - am Kf7; dm 2;",
        "7k/8/5K2/8/8/8/8/R7 w - - am Kf7; bm Kg6; dm 2; pv Kg6 Kg8 Ra8#;\n",
    ),
    (
        "7k/8/5K2/8/8/8/8/R7 w - - am Kg6; dm 2;",
        "7k/8/5K2/8/8/8/8/R7 w - - am Kg6; bm Kf7; dm 2; pv Kf7 Kh7 Rh1#;\n",
    ),
    (
        "6k1/5ppp/8/8/8/8/8/R3K3 w Q - am Ra8; dm 1;",
        "6k1/5ppp/8/8/8/8/8/R3K3 w Q - am Ra8; c0 \"no mate in 1\";\n",
    ),
    // The mating move of the end is the one that is avoided at the beginning.
    (
        "7k/8/5K2/8/8/8/8/R7 w - - am Ra8; dm 2;",
        "7k/8/5K2/8/8/8/8/R7 w - - am Ra8; bm Kf7 Kg6; dm 2; pv Kg6 Kg8 Ra8#;\n",
    ),
];

#[test]
fn leaves_out_moves_to_avoid(rt: HostRuntime) {
    let alloc = rt.alloc();
    for entries in &[1, 16, 65_536] {
        let mut memo = memo_of(&rt, alloc, *entries);
        for (line, answer) in KNOWN.iter().chain(KNOWN.iter().rev()) {
            check_input(&rt, alloc, &mut memo, line, line.as_bytes(), (answer, 0));
        }
    }
}
