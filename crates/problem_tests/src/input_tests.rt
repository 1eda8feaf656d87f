//! Inputs and what they are answered, line by line.

use crate::test_rows::{check_input, memo_of};
use mate_search::Memo;
use std::alloc::Global;
use std::process::Abort;

/// A record with mate on the back rank, and its answer.
const BACK_RANK: &str = "6k1/5ppp/8/8/8/8/8/R3K3 w Q - dm 1;";

const ANSWER: &str = "6k1/5ppp/8/8/8/8/8/R3K3 w Q - bm Ra8#; dm 1; pv Ra8#;\n";

const TOO_LONG: &str = "# line 1: TooLong\n";

#[test]
fn answers_the_lines_of_an_input(rt: HostRuntime) {
    static TABLE: [(&str, &str, usize); 6] = [
        ("", "", 0),
        ("\n  \n\r\n", "", 0),
        (BACK_RANK, ANSWER, 0),
        ("6k1/5ppp/8/8/8/8/8/R3K3 w Q - dm 1;\r\n", ANSWER, 0),
        (
            "\n  \n8/8/8/8/8/8/8/K7 w - - dm 1;\r\n6k1/5ppp/8/8/8/8/8/R3K3 w Q - dm 1;",
            "# line 3: Fen BadKings\n6k1/5ppp/8/8/8/8/8/R3K3 w Q - bm Ra8#; dm 1; pv Ra8#;\n",
            1,
        ),
        // The bound of a record without one is that of the call.
        (
            "7k/8/5K2/8/8/8/8/R7 w - -\n7k/8/5K2/8/8/8/8/R7 w - - dm 2;\nx",
            "7k/8/5K2/8/8/8/8/R7 w - - c0 \"no mate in 1\";\n\
             7k/8/5K2/8/8/8/8/R7 w - - bm Kf7 Kg6; dm 2; pv Kg6 Kg8 Ra8#;\n# line 3: Fen FieldCount\n",
            1,
        ),
    ];
    let mut memo = memo_of(&rt, rt.alloc(), 16);
    for (input, text, refused) in &TABLE {
        check_input(
            &rt,
            rt.alloc(),
            &mut memo,
            input,
            input.as_bytes(),
            (text, *refused),
        );
    }
}

/// Refuses where a line is answered otherwise that begins and ends so, and has so many bytes before its end, and where the line behind it
/// has no reply.
fn check_long(
    rt: &impl Abort,
    alloc: Global,
    memo: &mut Memo,
    line: (&str, usize, &str),
    reply: &str,
) {
    let (begin, bytes, end) = line;
    let input = format!(in alloc; "{begin:<bytes$}{end}\n8/8").expect(rt, reply);
    let wanted = format!(in alloc; "{reply}# line 2: Fen FieldCount\n").expect(rt, reply);
    let refused = if reply == TOO_LONG { 2 } else { 1 };
    check_input(
        rt,
        alloc,
        memo,
        &line,
        input.as_bytes(),
        (wanted.as_str(), refused),
    );
}

#[test]
fn a_long_line_is_blank_or_too_long(rt: HostRuntime) {
    // What a line begins with, how many bytes it has with the spaces behind that, what it ends with, and the reply.
    static TABLE: [((&str, usize, &str), &str); 16] = [
        ((BACK_RANK, 1023, ""), ANSWER),
        ((BACK_RANK, 1023, "\r"), ANSWER),
        ((BACK_RANK, 1024, ""), TOO_LONG),
        ((BACK_RANK, 1024, "\r"), TOO_LONG),
        ((BACK_RANK, 1023, "\r\r"), TOO_LONG),
        ((BACK_RANK, 100_000, ""), TOO_LONG),
        (("", 1024, ""), ""),
        (("", 1025, "\r"), ""),
        (("", 100_000, ""), ""),
        (("", 100_000, "\r"), ""),
        (("", 100_000, "\r\r"), TOO_LONG),
        (("", 100_000, "\r "), TOO_LONG),
        (("", 100_000, "x"), TOO_LONG),
        (("", 1024, "x"), TOO_LONG),
        (("x", 100_000, ""), TOO_LONG),
        (("\r", 100_000, "\r"), TOO_LONG),
    ];
    let mut memo = memo_of(&rt, rt.alloc(), 16);
    for (line, reply) in &TABLE {
        check_long(&rt, rt.alloc(), &mut memo, *line, reply);
    }
}
