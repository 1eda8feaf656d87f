//! Known problems and what there is to say of them.

use crate::test_rows::{Known, check_outcome, memo_of, problem_of};
use chess_moves::Rays;
use mate_search::solve;
use std::alloc::Global;
use std::process::Abort;

/// Refuses where not that is found of a problem, over a memo of its own.
fn check_solved(rt: &impl Abort, alloc: Global, known: &Known) {
    let problem = problem_of(rt, known.0, known.1);
    let outcome = solve(&Rays::new(), &problem, &mut memo_of(rt, alloc, 1));
    check_outcome(rt, known, &outcome);
}

#[test]
fn finds_mates_in_one(rt: HostRuntime) {
    static TABLE: [Known; 4] = [
        (
            "6k1/5ppp/8/8/8/8/8/R3K3 w Q - 0 1",
            1,
            1,
            &["a1a8"],
            &["a1a8"],
        ),
        (
            "3k4/8/8/8/8/8/2R1R3/R3K3 w Q - 0 1",
            1,
            1,
            &["a1d1", "e1c1"],
            &["a1d1"],
        ),
        ("7k/8/6K1/8/8/8/8/5Q2 w - - 0 1", 1, 1, &["f1f8"], &["f1f8"]),
        // Only a knight gives mate.
        (
            "rb6/kpP5/p7/8/8/8/8/7K w - - 0 1",
            1,
            1,
            &["c7c8n"],
            &["c7c8n"],
        ),
    ];
    for known in &TABLE {
        check_solved(&rt, rt.alloc(), known);
    }
}

#[test]
fn finds_mates_in_two(rt: HostRuntime) {
    const KINGS: &str = "7k/8/5K2/8/8/8/8/R7 w - - 0 1";
    const WITH_PAWN: &str = "7k/p7/5K2/8/8/8/8/1R6 w - - 0 1";
    static TABLE: [Known; 4] = [
        (KINGS, 2, 2, &["f6g6", "f6f7"], &["f6g6", "h8g8", "a1a8"]),
        // A bound beyond the least number changes nothing.
        (KINGS, 5, 2, &["f6g6", "f6f7"], &["f6g6", "h8g8", "a1a8"]),
        (KINGS, 1, 0, &[], &[]),
        (
            WITH_PAWN,
            2,
            2,
            &["f6g6", "f6f7"],
            &["f6g6", "a7a5", "b1b8"],
        ),
    ];
    for known in &TABLE {
        check_solved(&rt, rt.alloc(), known);
    }
}

#[test]
fn finds_a_mate_in_three(rt: HostRuntime) {
    static KNOWN: Known = (
        "6k1/2r2ppp/3r4/8/8/8/8/R6K w - - 0 1",
        3,
        3,
        &["a1a8"],
        &["a1a8", "c7c8", "a8c8", "d6d8", "c8d8"],
    );
    check_solved(&rt, rt.alloc(), &KNOWN);
}

#[test]
fn finds_no_mate_in_stalemate(rt: HostRuntime) {
    static KNOWN: Known = ("7k/5Q2/6K1/8/8/8/8/8 b - - 0 1", 1, 0, &[], &[]);
    check_solved(&rt, rt.alloc(), &KNOWN);
}
