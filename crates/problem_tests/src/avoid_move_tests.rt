//! Moves to avoid, read off lines, and lines refused for them.

use crate::test_rows::{read, same, same_moves};
use chess_notation::{EpdFault, Record};
use std::alloc::Global;
use std::process::Abort;

/// The record of a rook's ending, white to move, with such a tail, or its fault.
fn read_tail(rt: &impl Abort, alloc: Global, tail: &str) -> Result<Record, EpdFault> {
    let line = format!(in alloc; "7k/8/5K2/8/8/8/8/R7 w - -{tail}").expect(rt, tail);
    read(rt, alloc, line.as_bytes())
}

/// Refuses where these are not the moves to avoid.
fn check_avoid(rt: &impl Abort, alloc: Global, tail: &str, wanted: &[&str]) {
    let record = read_tail(rt, alloc, tail).expect(rt, tail);
    same_moves(rt, tail, record.avoid.as_slice(), wanted);
    let is_kept = record.problem().avoid == record.avoid;
    same(rt, &tail, &is_kept, &true);
}

#[test]
fn reads_moves_to_avoid(rt: HostRuntime) {
    static TABLE: [(&str, &[&str]); 9] = [
        (" dm 2;", &[]),
        (" am Kf7; dm 2;", &["f6f7"]),
        (" dm 2; am Kg6;", &["f6g6"]),
        (" am Kf7 Kg6; dm 2;", &["f6g6", "f6f7"]),
        (" am  Kg6   Kf7 ; dm 2;", &["f6g6", "f6f7"]),
        (" am Kf7 Kf7 Kf7#; dm 2;", &["f6f7"]),
        (" am Kf7+; dm 2;", &["f6f7"]),
        (" am Ra8; dm 2;", &["a1a8"]),
        (" 0 1 am Ra8+;", &["a1a8"]),
    ];
    for (tail, wanted) in &TABLE {
        check_avoid(&rt, rt.alloc(), tail, wanted);
    }
}

#[test]
fn refuses_what_names_no_move_to_avoid(rt: HostRuntime) {
    static TABLE: [(&str, EpdFault); 16] = [
        (" am;", EpdFault::BadAvoid),
        (" am Kf8;", EpdFault::BadAvoid),
        (" am \"Kf7\";", EpdFault::BadAvoid),
        (" am \"Kf7\" Kf7;", EpdFault::BadAvoid),
        (" am f6f7;", EpdFault::BadAvoid),
        (" am Kf7!;", EpdFault::BadAvoid),
        (" am Kf7++;", EpdFault::BadAvoid),
        (" am Kf7+#;", EpdFault::BadAvoid),
        (" am +;", EpdFault::BadAvoid),
        (" am Kf7 kg6;", EpdFault::BadAvoid),
        // two faults at once: the first in the order of faults is answered
        (" am Kf8; dm 0;", EpdFault::BadBound),
        (" am Kf8; dm 16;", EpdFault::BoundTooLarge),
        (" am Kf7; am Kg6;", EpdFault::DoubleOpcode),
        (" am Kf8", EpdFault::MissingSemicolon),
        (" am \"Kf7;", EpdFault::BadString),
        (" am Kf8; 1;", EpdFault::BadOpcode),
    ];
    for (tail, fault) in &TABLE {
        let found = read_tail(&rt, rt.alloc(), tail).err();
        same(&rt, tail, &found, &Some(*fault));
    }
}
