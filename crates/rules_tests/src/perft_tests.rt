//! Counts of known positions.

use crate::test_positions::{INITIAL, position_of, same};
use chess_moves::{Rays, perft};
use std::process::Abort;

/// The lines of no move, of one, of two, and so on, are as many as these.
fn check_counts(rt: &impl Abort, text: &str, counts: &[u64]) {
    let rays = Rays::new();
    let position = position_of(rt, text);
    for depth in 0..7 {
        if let Some(count) = counts.get(depth as usize) {
            same(rt, &(text, depth), &perft(&rays, &position, depth), count);
        }
    }
}

#[test]
fn counts_from_the_initial_position(rt: HostRuntime) {
    check_counts(&rt, INITIAL, &[1, 20, 400, 8902]);
}

#[test]
fn counts_castling_and_pins(rt: HostRuntime) {
    check_counts(
        &rt,
        "r3k2r/p1ppqpb1/bn2pnp1/3PN3/1p2P3/2N2Q1p/PPPBBPPP/R3K2R w KQkq - 0 1",
        &[1, 48, 2039],
    );
    check_counts(&rt, "4kr2/8/8/8/8/8/8/R3K2R w KQ - 0 1", &[1, 23]);
}

#[test]
fn counts_a_pawn_ending(rt: HostRuntime) {
    check_counts(
        &rt,
        "8/2p5/3p4/KP5r/1R3p1k/8/4P1P1/8 w - - 0 1",
        &[1, 14, 191, 2812],
    );
}

#[test]
fn counts_answers_to_a_check(rt: HostRuntime) {
    check_counts(
        &rt,
        "r3k2r/Pppp1ppp/1b3nbN/nP6/BBP1P3/q4N2/Pp1P2PP/R2Q1RK1 w kq - 0 1",
        &[1, 6, 264, 9467],
    );
}

#[test]
fn counts_promotions(rt: HostRuntime) {
    check_counts(
        &rt,
        "rnbq1k1r/pp1Pbppp/2p5/8/2B5/8/PPP1NnPP/RNBQK2R w KQ - 0 1",
        &[1, 44, 1486],
    );
}
