//! An engine talked to.

use crate::test_rows::same;
use byte_streams::{Input, InputFault, Stop};
use std::alloc::Global;
use std::process::Abort;
use std::sync::Wait;
use std::sync::atomic::AtomicU64;
use std::thread::Threads;
use std::time::Duration;
use uci_engine::{TalkFault, run_engine};

/// A text, of which the end comes a while after what stands before it.
#[derive(Drop)]
struct Late<'a, R: Wait> {
    rt: &'a R,
    word: AtomicU64,
    text: &'a [u8],
}

impl<R: Wait> Input for Late<'_, R> {
    ghost use Rattle.std.specs.Prelude.{Some};

    ghost left = { λ late. Some late.text.now };

    ghost breaks = { λ _. ⊥ };

    fn read(&mut self, room: &mut [u8]) -> Result<usize, InputFault> {
        if self.text.is_empty() {
            self.word
                .park_timeout(self.rt, 0, Duration::from_millis(1500));
        }
        self.text.read(room)
    }
}

/// A text, behind which nothing can be read.
#[derive(Drop)]
struct Broken<'a> {
    text: &'a [u8],
}

impl Input for Broken<'_> {
    ghost use Rattle.std.specs.Prelude.{Some, ⊤};

    ghost left = { λ broken. Some broken.text.now };

    ghost breaks = { λ _. ⊤ };

    fn read(&mut self, room: &mut [u8]) -> Result<usize, InputFault> {
        if self.text.is_empty() {
            return Err(InputFault::Unreadable);
        }
        self.text.read(room)
    }
}

/// How many lines begin so.
fn count(text: &[u8], start: &[u8]) -> usize {
    let mut count = 0usize;
    for line in text.split(|byte| *byte == b'\n') {
        if line.starts_with(start) {
            count = count.saturating_add(1);
        }
    }
    count
}

/// What an engine writes that is told so, and then ends well.
fn written<R: Abort + Threads + Wait + Sync, I: Input + Drop + Send>(
    rt: &R,
    alloc: Global,
    input: I,
) -> Vec<u8> {
    let mut out = Vec::new(alloc);
    let ended = run_engine(rt, alloc, "1", input, &mut out);
    same(rt, &"ended", &ended.is_ok(), &true);
    out
}

/// Refuses where not so many lines begin so.
fn check_lines(rt: &impl Abort, text: &[u8], counts: &[(&str, usize)]) {
    for (start, wanted) in counts {
        same(rt, start, &count(text, start.as_bytes()), wanted);
    }
}

#[test]
fn searches_no_position_before_a_refused_one(rt: HostRuntime) {
    let input: &[u8] = b"position fen 7k/8/5K2/8/8/8/8/R7 w - - 0 1\n\
        position fen 7k/8/5K2/8/8/8/8/R8 w - - 0 1\ngo mate 2\ngo infinite\n\
        position startpos moves e2e4 e2e5\ngo\nposition fen \xff\ngo\nposition startpos\ngo mate 1\n";
    // Each fault is told once where it is said, and with each search behind it.
    static COUNTS: [(&str, usize); 5] = [
        ("info string BadPlacement", 3),
        ("info string move 2: NoSuchMove", 2),
        ("info string FieldCount", 2),
        ("bestmove 0000", 4),
        ("bestmove ", 5),
    ];
    check_lines(&rt, written(&rt, rt.alloc(), input).as_slice(), &COUNTS);
}

#[test]
fn refuses_a_position_on_too_long_a_line(rt: HostRuntime) {
    let mut input = String::new(rt.alloc());
    input
        .push_str("position startpos moves")
        .expect(&rt, "input");
    // Twenty bytes each, so that the line is cut between two of them.
    for _ in 0..4000 {
        input.push_str(" g1f3 g8f6 f3g1 f6g8").expect(&rt, "input");
    }
    let rest = "\ngo mate 1\nposition startpos\ngo mate 1\n";
    input.push_str(rest).expect(&rt, "input");
    static COUNTS: [(&str, usize); 3] = [
        ("info string the line has more bytes than 65536", 2),
        ("bestmove 0000", 1),
        ("bestmove ", 2),
    ];
    check_lines(
        &rt,
        written(&rt, rt.alloc(), input.as_bytes()).as_slice(),
        &COUNTS,
    );
}

#[test]
fn counts_a_position_where_it_mates_at_once(rt: HostRuntime) {
    let input: &[u8] = b"position fen 6k1/5ppp/8/8/8/8/8/R6K w - - 0 1\ngo mate 1\n";
    static COUNTS: [(&str, usize); 2] = [
        ("info depth 1 multipv 1 score mate 1 nodes 1 ", 1),
        ("bestmove a1a8", 1),
    ];
    check_lines(&rt, written(&rt, rt.alloc(), input).as_slice(), &COUNTS);
}

#[test]
fn makes_a_search_to_its_own_end_where_the_input_ends(rt: HostRuntime) {
    // Samuel Loyd, 1860: mate in two by Bh1 alone.
    let input: &[u8] =
        b"position fen 8/8/3p1p2/1N2p3/4kNQ1/5n2/2K3B1/8 w - - 0 1\ngo mate 2\nisready\n";
    static COUNTS: [(&str, usize); 4] = [
        ("info depth 3 multipv 1 score mate 2 ", 1),
        ("bestmove g2h1", 1),
        ("bestmove ", 1),
        ("readyok", 1),
    ];
    check_lines(&rt, written(&rt, rt.alloc(), input).as_slice(), &COUNTS);
    // Nobody mates by force in three moves from the start, which takes a while to see.
    static NONE: [(&str, usize); 2] = [("info string no mate in 3", 1), ("bestmove ", 1)];
    let input: &[u8] = b"position startpos\ngo mate 3\n";
    check_lines(&rt, written(&rt, rt.alloc(), input).as_slice(), &NONE);
    // The last of two, as the first is stopped by it, and one that is no longer to wait for what it expects.
    let input: &[u8] =
        b"go infinite\nposition fen 8/8/3p1p2/1N2p3/4kNQ1/5n2/2K3B1/8 w - - 0 1\ngo ponder mate 2\nponderhit\n";
    static LAST: [(&str, usize); 2] = [("bestmove g2h1", 1), ("bestmove ", 2)];
    check_lines(&rt, written(&rt, rt.alloc(), input).as_slice(), &LAST);
}

#[test]
fn stops_an_endless_search_where_the_input_ends(rt: HostRuntime) {
    for input in [
        &b"go infinite\n"[..],
        &b"go ponder movetime 1\n"[..],
        &b"go mate 15\nquit\n"[..],
        &b"go mate 15\nstop\n"[..],
    ] {
        check_lines(
            &rt,
            written(&rt, rt.alloc(), input).as_slice(),
            &[("bestmove ", 1)],
        );
    }
}

#[test]
fn stops_where_its_input_breaks_off(rt: HostRuntime) {
    let mut out = Vec::new(rt.alloc());
    let input = Broken {
        text: b"position startpos\ngo mate 15\n",
    };
    let ended = run_engine(&rt, rt.alloc(), "1", input, &mut out);
    let is_told = matches!(ended, Err(TalkFault::Stop(Stop::Unreadable)));
    same(&rt, &"unreadable", &is_told, &true);
    check_lines(&rt, out.as_slice(), &[("bestmove ", 1)]);
}

#[test]
fn tells_how_a_game_has_ended(rt: HostRuntime) {
    // Mate, stalemate, mate; and where the king is in check but the rook may take.
    let input: &[u8] = b"position startpos moves f2f3 e7e5 g2g4 d8h4\ngo mate 2\n\
        position fen 8/8/8/8/8/5k2/5p2/5K2 w - - 0 1\ngo movetime 10\n\
        position fen 7k/6Q1/6K1/8/8/8/8/8 b - - 0 1\ngo infinite\n\
        position fen 7k/6Q1/5K2/8/8/8/8/6r1 b - - 0 1\ngo mate 1\n";
    static COUNTS: [(&str, usize); 5] = [
        ("info depth 0 score mate 0", 2),
        ("info depth 0 score cp 0", 1),
        ("info depth 0 ", 3),
        ("bestmove 0000", 3),
        ("bestmove g1g7", 1),
    ];
    check_lines(&rt, written(&rt, rt.alloc(), input).as_slice(), &COUNTS);
}

#[test]
fn tells_what_a_long_search_costs(rt: HostRuntime) {
    let input = Late {
        rt: &rt,
        word: AtomicU64::new(0),
        text: b"position startpos\ngo infinite\n",
    };
    let text = written(&rt, rt.alloc(), input);
    let is_told = count(text.as_slice(), b"info nodes ") > 0;
    same(&rt, &"info nodes", &is_told, &true);
    check_lines(&rt, text.as_slice(), &[("bestmove ", 1)]);
}

#[test]
fn answers_each_search_once(rt: HostRuntime) {
    let input: &[u8] =
        b"uci\nposition fen 7k/8/5K2/8/8/8/8/R7 w - - 0 1\ngo mate 2\ngo infinite\nisready\nquit\nisready\n";
    static COUNTS: [(&str, usize); 3] = [("bestmove ", 2), ("readyok", 1), ("uciok", 1)];
    check_lines(&rt, written(&rt, rt.alloc(), input).as_slice(), &COUNTS);
}
