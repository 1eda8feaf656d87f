//! Lines held against their own claims.

use crate::test_rows::{bound_of, memo_of, same};
use chess_moves::Rays;
use mate_claims::{BoundSource, ClaimMemory, ClaimRows, ClaimVerdict, Counts, Hints, told_of};
use mate_search::Memo;
use std::alloc::Global;
use std::process::Abort;
use text_lines::answer_input;

/// Refuses where something else is told of a rook's ending, in which Kf7 and Kg6 mate in two, with such a tail.
fn check_told(rt: &impl Abort, alloc: Global, tail: &str, wanted: &str, memo: &mut Memo) {
    let line = format!(in alloc; "7k/8/5K2/8/8/8/8/R7 w - -{tail}").expect(rt, tail);
    let row = format!(in alloc; "f:7\t{wanted}\n").expect(rt, tail);
    let default = bound_of(rt, 3);
    let told = told_of(alloc, &Rays::new(), b"f:7", line.as_bytes(), default, memo);
    let told = told.expect(rt, tail);
    same(rt, &tail, &told.row.as_slice(), &row.as_bytes());
}

#[test]
fn tells_the_first_verdict_that_applies(rt: HostRuntime) {
    // Tails, and what is told behind the line's place.
    static TABLE: [(&str, &str); 40] = [
        (" bm Kf7 Kg6; dm 2;", "several\t#2\t#2\tKf7 Kg6\tKf7 Kg6\t-"),
        (
            " bm Kg6 Kf7 Kg6; dm 2;",
            "several\t#2\t#2\tKf7 Kg6\tKf7 Kg6\t-",
        ),
        (
            " bm Kf7# Kg6+; dm 2;",
            "several\t#2\t#2\tKf7 Kg6\tKf7 Kg6\t-",
        ),
        (" bm #2 Kf7 #1 Kg6;", "several\t#2\t#2\tKf7 Kg6\tKf7 Kg6\t-"),
        (" am Kf7; bm #2;", "unclaimed\t#2\t#2\tKg6\t-\t-"),
        (" bm Kg6; dm 2;", "cooked\t#2\t#2\tKf7 Kg6\tKg6\t-"),
        (" bm #02;", "cooked\t#2\t#2\tKf7 Kg6\t-\t-"),
        (
            " dm 2; id \"a  b\" c \"\";",
            "cooked\t#2\t#2\tKf7 Kg6\t-\ta  b c ",
        ),
        // a claimed move that is no key, and also keys that aren't claimed
        (" bm Ra8 Kf7; dm 2;", "wrong\t#2\t#2\tKf7 Kg6\tKf7 Ra8+\t-"),
        (
            " am Kf7; bm Kf7 Kg6; dm 2;",
            "wrong\t#2\t#2\tKg6\tKf7 Kg6\t-",
        ),
        // too long, and also a claimed move that is no key
        (" bm Ra8; dm 3;", "short\t#3\t#2\tKf7 Kg6\tRa8+\t-"),
        (" bm #3;", "short\t#3\t#2\tKf7 Kg6\t-\t-"),
        // the line says no number of moves
        (" bm Ra8;", "wrong\t#3?\t#2\tKf7 Kg6\tRa8+\t-"),
        (" am Kf7; bm Kg6;", "sound\t#3?\t#2\tKg6\tKg6\t-"),
        (" bm Kg6 Kf7;", "several\t#3?\t#2\tKf7 Kg6\tKf7 Kg6\t-"),
        (" bm #5;", "short\t#5\t#2\tKf7 Kg6\t-\t-"),
        // too short, and also a claimed move that is no key
        (" bm Ra8; dm 1; id \"\";", "unsolvable\t#1\t-\t-\tRa8+\t-"),
        (
            " bm #0 #16 Kf8; dm 2;",
            "BadBound\t#2\t#2\tKf7 Kg6\t#0 #16 Kf8\t-",
        ),
        (
            " bm Kf8 #16; dm 2; id \"a\";",
            "BoundTooLarge\t#2\t#2\tKf7 Kg6\tKf8 #16\ta",
        ),
        (" bm Kf7 Kf8;", "NoSuchMove\t#3?\t#2\tKf7 Kg6\tKf7 Kf8\t-"),
        (
            " bm \"Kf7\" Kf7;",
            "NoSuchMove\t#3?\t#2\tKf7 Kg6\t\"\"\"\"\" Kf7\t-",
        ),
        (
            " bm \"x #16 y\";",
            "NoSuchMove\t#3?\t#2\tKf7 Kg6\t\"\"\"\"\"\"\"\"\"\t-",
        ),
        (" bm # Kf7;", "NoSuchMove\t#3?\t#2\tKf7 Kg6\t# Kf7\t-"),
        (
            " bm #5 Kf8; dm 2;",
            "NoSuchMove\t#2\t#2\tKf7 Kg6\t#5 Kf8\t-",
        ),
        // the first length that is claimed is another
        (
            " bm Ra8 #5; dm 2;",
            "TwoLengths\t#2\t#2\tKf7 Kg6\tRa8 #5\t-",
        ),
        (" bm #3 #2; dm 1;", "TwoLengths\t#1\t-\t-\t#3 #2\t-"),
        // no move in `bm`, so that the first of the line of play is claimed
        (
            " pv Kg6 Kg8 Ra8#; dm 2;",
            "cooked\t#2\t#2\tKf7 Kg6\tpv Kg6\t-",
        ),
        (" am Kf7; dm 2; pv Kg6;", "sound\t#2\t#2\tKg6\tpv Kg6\t-"),
        (
            " am Kf7; bm #2; id \"a; pv Kf8;\"; pv  f6g6 Kf7;",
            "sound\t#2\t#2\tKg6\tpv Kg6\ta; pv Kf8;",
        ),
        (" 0 1 pv Ra8#;dm 2;", "wrong\t#2\t#2\tKf7 Kg6\tpv Ra8+\t-"),
        (" am Kf7; pv Kf7; dm 2;", "wrong\t#2\t#2\tKg6\tpv Kf7\t-"),
        (" pv Ra8;", "wrong\t#3?\t#2\tKf7 Kg6\tpv Ra8+\t-"),
        (" pv Ra8; dm 1;", "unsolvable\t#1\t-\t-\tpv Ra8+\t-"),
        // its first word names no move
        (
            " dm 2; pv Tg1 Kg8;",
            "NoSuchMove\t#2\t#2\tKf7 Kg6\tpv Tg1\t-",
        ),
        (" bm #2; pv #2;", "NoSuchMove\t#2\t#2\tKf7 Kg6\tpv #2\t-"),
        // something is amiss with `bm`, or it claims a move; and there is no line
        (
            " bm #3; dm 2; pv Kg6;",
            "TwoLengths\t#2\t#2\tKf7 Kg6\t#3\t-",
        ),
        (
            " bm Kf7 Kg6; dm 2; pv Ra8;",
            "several\t#2\t#2\tKf7 Kg6\tKf7 Kg6\t-",
        ),
        (" am Kf7; pv; dm 2;", "unclaimed\t#2\t#2\tKg6\t-\t-"),
        // a fault of the record, and also one of its claims
        (" bm #0; am Kf8;", "BadAvoid\t-\t-\t-\t-\t-"),
        (" 1; bm #0;", "BadOpcode\t-\t-\t-\t-\t-"),
    ];
    let mut memo = memo_of(&rt, rt.alloc(), 16);
    for (tail, wanted) in &TABLE {
        check_told(&rt, rt.alloc(), tail, wanted, &mut memo);
    }
}

fn check_counts(rt: &impl Abort, alloc: Global, counts: &Counts, wanted: &str) {
    let text = counts.text(alloc).expect(rt, wanted);
    same(rt, &"counts", &text.as_str(), &wanted);
}

#[test]
fn counts_each_verdict(rt: HostRuntime) {
    static VERDICTS: [Option<ClaimVerdict>; 17] = [
        Some(ClaimVerdict::Sound),
        Some(ClaimVerdict::Sound),
        Some(ClaimVerdict::Several),
        Some(ClaimVerdict::Several),
        Some(ClaimVerdict::Several),
        Some(ClaimVerdict::Unclaimed),
        Some(ClaimVerdict::Unclaimed),
        Some(ClaimVerdict::Unclaimed),
        Some(ClaimVerdict::Unclaimed),
        Some(ClaimVerdict::Cooked),
        Some(ClaimVerdict::Wrong),
        Some(ClaimVerdict::Short),
        Some(ClaimVerdict::Unsolvable),
        Some(ClaimVerdict::Unsolved),
        None,
        None,
        None,
    ];
    let mut counts = Counts::new();
    for verdict in &VERDICTS {
        counts = counts
            .with(*verdict, Some(BoundSource::Line))
            .expect(&rt, "count");
    }
    check_counts(
        &rt,
        rt.alloc(),
        &counts,
        "sound 2, several 3, unclaimed 4, cooked 1, wrong 1, short 1, unsolvable 1, unsolved 1, refused 3",
    );
    // Two that say no number of moves, one of them with a fault of its claims, and a line that is no record.
    static MORE: [(Option<ClaimVerdict>, Option<BoundSource>); 3] = [
        (Some(ClaimVerdict::Unsolved), Some(BoundSource::Default)),
        (None, Some(BoundSource::Default)),
        (None, None),
    ];
    for (verdict, source) in &MORE {
        counts = counts.with(*verdict, *source).expect(&rt, "count");
    }
    check_counts(
        &rt,
        rt.alloc(),
        &counts,
        "sound 2, several 3, unclaimed 4, cooked 1, wrong 1, short 1, unsolvable 1, unsolved 2, refused 5; 2 without a number of moves",
    );
}

#[test]
fn counts_the_lines_of_an_input(rt: HostRuntime) {
    let alloc = rt.alloc();
    let record = "6k1/5ppp/8/8/8/8/8/R3K3 w Q - bm Ra8; dm 1;";
    // The third line has 2,000 bytes.
    let input = format!(in alloc; "{record}\r\n  \n{record:<2000}\nx").expect(&rt, "input");
    let rays = Rays::new();
    let rows = ClaimRows {
        rays: &rays,
        default: bound_of(&rt, 3),
        prefix: b"f:",
    };
    let mut memory = ClaimMemory {
        memo: memo_of(&rt, alloc, 16),
        counts: Counts::new(),
        hints: Hints::new(),
    };
    let mut text = Vec::new(alloc);
    let before = memory.counts.not_sound();
    let Ok(refused) = answer_input(alloc, &rows, input.as_bytes(), &mut memory, &mut text) else {
        panic!(rt; "stopped");
    };
    memory.count_unread(before, refused);
    let expected: &[u8] =
        b"f:1\tsound\t#1\t#1\tRa8#\tRa8#\t-\nf:3\tTooLong\t-\t-\t-\t-\t-\nf:4\tFen FieldCount\t-\t-\t-\t-\t-\n";
    same(&rt, &"rows", &(text.as_slice(), refused), &(expected, 2));
    check_counts(
        &rt,
        alloc,
        &memory.counts,
        "sound 1, several 0, unclaimed 0, cooked 0, wrong 0, short 0, unsolvable 0, unsolved 0, refused 2",
    );
}
