//! Records each of which may take so long: what is said of one that was not decided, and that it asks the same when it is read.

ghost use Rattle.std.specs.Prelude.{⊤};

use crate::test_rows::{bound_of, memo_of, same};
use chess_moves::Rays;
use mate_answers::{Limited, LimitedMemory, TimeLimit};
use mate_claims::{Counts, Hints, LimitedClaimMemory, LimitedClaims};
use mate_search::{Halt, Memo, OneThread};
use std::alloc::Global;
use std::process::Abort;
use text_lines::answer_bytes;

/// A limit that is over from the first question on, or never.
#[derive(Clone, Copy)]
struct Clock {
    is_over: bool,
}

impl Halt for Clock {
    ghost may_stop = { λ _. ⊤ };

    fn is_stopped(&self) -> bool {
        self.is_over
    }
}

impl TimeLimit for Clock {
    fn begin(&self) {}
}

/// Refuses where a line is answered otherwise, or is not counted where it was not decided.
fn check_limited(
    rt: &impl Abort,
    alloc: Global,
    is_over: bool,
    (line, wanted): (&str, &str),
    memory: &mut LimitedMemory<Memo>,
) {
    let limited = Limited {
        rays: &Rays::new(),
        default: bound_of(rt, 3),
        seconds: 7,
        limit: &Clock { is_over },
        solver: OneThread,
    };
    let before = memory.undecided;
    let output = answer_bytes(alloc, &limited, line.as_bytes(), memory).expect(rt, line);
    let found = (output.text.as_slice(), output.refused);
    same(rt, &line, &found, &(wanted.as_bytes(), 0));
    let is_late = wanted.contains("not decided");
    let counted = before.saturating_add(is_late as usize);
    same(rt, &line, &memory.undecided, &counted);
}

/// A search asks whether to stop at each position behind the first that it searches for more than a mate in one. So where the time is over
/// at once, mates in one and in two are judged, and no longer ones.
#[test]
fn says_what_was_judged_in_time(rt: HostRuntime) {
    static TABLE: [(&str, &str, &str); 4] = [
        (
            "6k1/2r2ppp/3r4/8/8/8/8/R6K w - - dm 3; id \"x\";",
            "6k1/2r2ppp/3r4/8/8/8/8/R6K w - - c0 \"no mate in 2, not decided within 3 in 7 s\"; dm 3; id \"x\";\n",
            "6k1/2r2ppp/3r4/8/8/8/8/R6K w - - bm Ra8+; dm 3; id \"x\"; pv Ra8+ Rc8 Rxc8+ Rd8 Rxd8#;\n",
        ),
        // Without a bound the default is asked, which isn't the record's own, and a move to avoid is kept.
        (
            "6k1/2r2ppp/3r4/8/8/8/8/R6K w - - am Ra8; ce 3; zz;",
            "6k1/2r2ppp/3r4/8/8/8/8/R6K w - - am Ra8; c0 \"no mate in 2, not decided within 3 in 7 s\"; ce 3; zz;\n",
            "6k1/2r2ppp/3r4/8/8/8/8/R6K w - - am Ra8; c0 \"no mate in 3\"; ce 3; zz;\n",
        ),
        // What an earlier answer said is said anew.
        (
            "7k/8/8/8/8/8/8/R6K w - - dm 4; c0 \"no mate in 1, not decided within 4 in 9 s\";",
            "7k/8/8/8/8/8/8/R6K w - - c0 \"no mate in 2, not decided within 4 in 7 s\"; dm 4;\n",
            "7k/8/8/8/8/8/8/R6K w - - c0 \"no mate in 4\";\n",
        ),
        // A mate in two is found before anything is asked.
        (
            "7k/8/5K2/8/8/8/8/R7 w - - dm 15;",
            "7k/8/5K2/8/8/8/8/R7 w - - bm Kf7 Kg6; dm 2; pv Kg6 Kg8 Ra8#;\n",
            "7k/8/5K2/8/8/8/8/R7 w - - bm Kf7 Kg6; dm 2; pv Kg6 Kg8 Ra8#;\n",
        ),
    ];
    let alloc = rt.alloc();
    let mut memory = LimitedMemory {
        memory: memo_of(&rt, alloc, 16),
        undecided: 0,
    };
    for (line, late, whole) in &TABLE {
        check_limited(&rt, alloc, true, (line, late), &mut memory);
        check_limited(&rt, alloc, false, (late, whole), &mut memory);
        check_limited(&rt, alloc, false, (line, whole), &mut memory);
    }
}

/// Refuses where something else is told of a line that is held against its claims.
fn check_claims(
    rt: &impl Abort,
    alloc: Global,
    is_over: bool,
    (line, wanted): (&str, &str),
    memory: &mut LimitedClaimMemory<Memo>,
) {
    let limited = Limited {
        rays: &Rays::new(),
        default: bound_of(rt, 3),
        seconds: 7,
        limit: &Clock { is_over },
        solver: OneThread,
    };
    let claims = LimitedClaims {
        limited: &limited,
        prefix: b"f:",
    };
    let output = answer_bytes(alloc, &claims, line.as_bytes(), memory).expect(rt, line);
    let refused = !(wanted.contains("sound") || wanted.contains("undecided")) as usize;
    let found = (output.text.as_slice(), output.refused);
    same(rt, &line, &found, &(wanted.as_bytes(), refused));
}

#[test]
fn tells_claims_of_records_that_were_not_decided(rt: HostRuntime) {
    // Lines, and what is told where the time is over at once, and where it never is.
    static TABLE: [(&str, &str, &str); 5] = [
        (
            "6k1/2r2ppp/3r4/8/8/8/8/R6K w - - bm Ra8; dm 3; id \"x\";",
            "f:1\tundecided\t#3\t?\t-\tRa8+\tx\n",
            "f:1\tsound\t#3\t#3\tRa8+\tRa8+\tx\n",
        ),
        (
            "6k1/2r2ppp/3r4/8/8/8/8/R6K w - - pv Ra8 Rc8;",
            "f:1\tundecided\t#3?\t?\t-\tpv Ra8+\t-\n",
            "f:1\tsound\t#3?\t#3\tRa8+\tpv Ra8+\t-\n",
        ),
        (
            "6k1/2r2ppp/3r4/8/8/8/8/R6K w - - dm 3; pv Ra9;",
            "f:1\tNoSuchMove\t#3\t?\t-\tpv Ra9\t-\n",
            "f:1\tNoSuchMove\t#3\t#3\tRa8+\tpv Ra9\t-\n",
        ),
        (
            "6k1/2r2ppp/3r4/8/8/8/8/R6K w - - bm #2 Ra8; dm 3;",
            "f:1\tTwoLengths\t#3\t?\t-\t#2 Ra8\t-\n",
            "f:1\tTwoLengths\t#3\t#3\tRa8+\t#2 Ra8\t-\n",
        ),
        // A mate in two is found before anything is asked.
        (
            "7k/8/5K2/8/8/8/8/R7 w - - bm Kf7 Kg6; dm 2;",
            "f:1\tseveral\t#2\t#2\tKf7 Kg6\tKf7 Kg6\t-\n",
            "f:1\tseveral\t#2\t#2\tKf7 Kg6\tKf7 Kg6\t-\n",
        ),
    ];
    let alloc = rt.alloc();
    let mut memory = LimitedClaimMemory {
        memory: memo_of(&rt, alloc, 16),
        counts: Counts::new(),
        hints: Hints::new(),
    };
    for (line, late, _) in &TABLE {
        check_claims(&rt, alloc, true, (line, late), &mut memory);
    }
    let counts = memory.counts.text(alloc).expect(&rt, "counts");
    let wanted =
        "sound 0, several 1, unclaimed 0, cooked 0, wrong 0, short 0, unsolvable 0, unsolved 0, refused 2; 1 without a number of moves; 4 not decided";
    same(&rt, &"counts", &counts.as_str(), &wanted);
    for (line, _, whole) in &TABLE {
        check_claims(&rt, alloc, false, (line, whole), &mut memory);
    }
}
