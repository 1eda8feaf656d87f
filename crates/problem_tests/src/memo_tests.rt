//! Memos of all sizes, and problems solved one after the other over one of them.

use crate::test_rows::{Known, check_outcome, large_memo_of, memo_of, problem_of, same};
use chess_moves::Rays;
use mate_search::{MAX_LARGE_ENTRIES, Memo, MemoFault, connect_peers, solve};
use std::alloc::Global;
use std::process::Abort;

#[test]
fn makes_memos_of_some_sizes(rt: HostRuntime) {
    let alloc = rt.alloc();
    for entries in &[0, 65_537] {
        let fault = Memo::new(alloc, *entries).err();
        same(&rt, entries, &fault, &Some(MemoFault::BadSize));
    }
    for (fault, name) in &[
        (MemoFault::BadSize, "BadSize"),
        (MemoFault::NoMemory, "NoMemory"),
    ] {
        let printed = fault.to_string(alloc).expect(&rt, name);
        same(&rt, fault, &printed.as_str(), name);
    }
    same(&rt, &"code", &MemoFault::BadSize.code(), &"BadSize");
    for entries in &[1, 65_536] {
        let _memo = memo_of(&rt, alloc, *entries);
    }
}

#[test]
fn makes_large_memos_of_some_sizes(rt: HostRuntime) {
    let alloc = rt.alloc();
    for entries in &[0, MAX_LARGE_ENTRIES + 1] {
        let fault = Memo::large(alloc, *entries).err();
        same(&rt, entries, &fault, &Some(MemoFault::BadSize));
    }
    for entries in &[1, 65_536, 65_537, MAX_LARGE_ENTRIES] {
        let memo = large_memo_of(&rt, alloc, *entries);
        same(&rt, entries, &memo.room(), entries);
    }
}

/// Refuses where not that is found of a problem over this memo.
fn check_known(rt: &impl Abort, known: &Known, memo: &mut Memo) {
    let problem = problem_of(rt, known.0, known.1);
    check_outcome(rt, known, &solve(&Rays::new(), &problem, memo));
}

const KINGS: &str = "7k/8/5K2/8/8/8/8/R7 w - - 0 1";

/// The same problem on one memo, asked with bounds of 1, 2, 5 and 1 again.
fn kept_on_one_memo(rt: &impl Abort, alloc: Global, entries: usize) -> usize {
    static TABLE: [Known; 4] = [
        (KINGS, 1, 0, &[], &[]),
        (KINGS, 2, 2, &["f6g6", "f6f7"], &["f6g6", "h8g8", "a1a8"]),
        (KINGS, 5, 2, &["f6g6", "f6f7"], &["f6g6", "h8g8", "a1a8"]),
        (KINGS, 1, 0, &[], &[]),
    ];
    let mut memo = memo_of(rt, alloc, entries);
    same(rt, &"new", &memo.len(), &0);
    for known in &TABLE {
        check_known(rt, known, &mut memo);
    }
    memo.len()
}

#[test]
fn keeps_what_it_found(rt: HostRuntime) {
    same(&rt, &1, &kept_on_one_memo(&rt, rt.alloc(), 1), &1);
    let is_kept = kept_on_one_memo(&rt, rt.alloc(), 65_536) >= 1;
    same(&rt, &65_536, &is_kept, &true);
}

/// A king and a rook far from the other king: no mate within four moves, of White's or of Black's.
const FAR: &str = "7k/8/8/8/3K4/8/8/R7 w - - 0 1";

const FAR_OF_BLACK: &str = "7K/8/8/8/3k4/8/8/r7 b - - 0 1";

/// Finds no mate within so many moves.
fn find_none(rt: &impl Abort, text: &'static str, bound: u8, memo: &mut Memo) {
    check_known(rt, &(text, bound, 0, &[], &[]), memo);
}

#[test]
fn hears_what_another_found(rt: HostRuntime) {
    let alloc = rt.alloc();
    let mut one = memo_of(&rt, alloc, 4096);
    let mut other = memo_of(&rt, alloc, 4096);
    let mut alone = memo_of(&rt, alloc, 4096);
    let mut peers = connect_peers(alloc, 2).expect(&rt, "peers");
    one.join(peers.pop().expect(&rt, "one"));
    other.join(peers.pop().expect(&rt, "other"));
    find_none(&rt, FAR, 4, &mut one);
    same(&rt, &"before it asks", &other.len(), &0);
    // Of its own positions the other is the attacker, so that none of them is one that it hears of.
    find_none(&rt, FAR_OF_BLACK, 3, &mut other);
    find_none(&rt, FAR_OF_BLACK, 3, &mut alone);
    same(&rt, &"heard", &(other.len() > alone.len()), &true);
    let (held, heard) = (one.len(), other.len());
    one.exchange(&mut other);
    same(&rt, &"exchanged", &(one.len(), other.len()), &(heard, held));
}

static KNOWN: [Known; 10] = [
    (
        "6k1/5ppp/8/8/8/8/8/R3K3 w Q - 0 1",
        1,
        1,
        &["a1a8"],
        &["a1a8"],
    ),
    (
        "3k4/8/8/8/8/8/2R1R3/R3K3 w Q - 0 1",
        3,
        1,
        &["a1d1", "e1c1"],
        &["a1d1"],
    ),
    ("7k/8/6K1/8/8/8/8/5Q2 w - - 0 1", 2, 1, &["f1f8"], &["f1f8"]),
    (
        "rb6/kpP5/p7/8/8/8/8/7K w - - 0 1",
        1,
        1,
        &["c7c8n"],
        &["c7c8n"],
    ),
    (KINGS, 2, 2, &["f6g6", "f6f7"], &["f6g6", "h8g8", "a1a8"]),
    (KINGS, 1, 0, &[], &[]),
    (
        "7k/p7/5K2/8/8/8/8/1R6 w - - 0 1",
        2,
        2,
        &["f6g6", "f6f7"],
        &["f6g6", "a7a5", "b1b8"],
    ),
    (
        "6k1/2r2ppp/3r4/8/8/8/8/R6K w - - 0 1",
        3,
        3,
        &["a1a8"],
        &["a1a8", "c7c8", "a8c8", "d6d8", "c8d8"],
    ),
    ("6k1/2r2ppp/3r4/8/8/8/8/R6K w - - 0 1", 2, 0, &[], &[]),
    ("7k/5Q2/6K1/8/8/8/8/8 b - - 0 1", 1, 0, &[], &[]),
];

#[test]
fn solves_the_same_over_a_shared_memo(rt: HostRuntime) {
    for entries in &[16, 65_536, MAX_LARGE_ENTRIES] {
        let mut memo = large_memo_of(&rt, rt.alloc(), *entries);
        for known in KNOWN.iter().chain(KNOWN.iter().rev()) {
            check_known(&rt, known, &mut memo);
        }
    }
}
