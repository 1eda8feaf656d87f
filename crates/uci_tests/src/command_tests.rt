//! What commands say.

use crate::test_rows::same;
use chess_board::Fen;
use chess_moves::Rays;
use chess_problems::Bound;
use std::alloc::Global;
use std::process::Abort;
use uci_commands::{
    Board, PositionFault, Setting, Spin, only_these, place, read_go, read_setting, searched_moves,
    start_fen, within, words_of,
};

fn first_fen(rt: &impl Abort) -> Fen {
    start_fen().expect(rt, "start")
}

fn words(rt: &impl Abort, alloc: Global, line: &'static str) -> Vec<&'static str> {
    let words = words_of(alloc, line.as_bytes()).expect(rt, line);
    words.expect(rt, line)
}

/// The name of a fault. A move that is none is known where it is the second.
fn name_of(fault: PositionFault) -> &'static str {
    match fault {
        PositionFault::Fen(fault) => fault.code(),
        PositionFault::NoPosition => "NoPosition",
        PositionFault::NoSuchMove(2) => "NoSuchMove",
        _ => "another fault",
    }
}

/// Has a position said in place of the first, and refuses where that, or the fault, has another text.
fn check_place(rt: &impl Abort, alloc: Global, line: &'static str, wanted: &str) {
    let mut fen = first_fen(rt);
    let words = words(rt, alloc, line);
    let placed = place(alloc, &Rays::new(), words.as_slice(), &mut fen);
    let text = fen.text();
    let found = match placed {
        Ok(()) => text.as_str(),
        Err(fault) => name_of(fault),
    };
    same(rt, &line, &found, &wanted);
}

#[test]
fn reads_positions(rt: HostRuntime) {
    static TABLE: [(&str, &str); 9] = [
        (
            "startpos moves e2e4 c7c5",
            "rnbqkbnr/pp1ppppp/8/2p5/4P3/8/PPPP1PPP/RNBQKBNR w KQkq c6 0 2",
        ),
        (
            "  startpos  ",
            "rnbqkbnr/pppppppp/8/8/8/8/PPPPPPPP/RNBQKBNR w KQkq - 0 1",
        ),
        (
            "fen 7k/P7/8/8/8/8/8/K7 w - - 3 9 moves a7a8q h8h7",
            "Q7/7k/8/8/8/8/8/K7 w - - 1 10",
        ),
        (
            "fen 4k3/8/8/8/8/8/8/4K2R w K - moves e1g1",
            "4k3/8/8/8/8/8/8/5RK1 b - - 1 1",
        ),
        ("", "NoPosition"),
        ("start", "NoPosition"),
        ("fen", "FieldCount"),
        ("fen 8/8/8/8/8/8/8/8 w - - 0 1", "BadKings"),
        ("startpos moves e2e4 e2e4", "NoSuchMove"),
    ];
    for (line, wanted) in &TABLE {
        check_place(&rt, rt.alloc(), line, wanted);
    }
}

#[test]
fn searches_none_behind_a_refused_one(rt: HostRuntime) {
    let alloc = rt.alloc();
    let rays = Rays::new();
    let start = first_fen(&rt);
    let mut board = Board {
        taken: start,
        refused: None,
    };
    let said = words(&rt, alloc, "startpos moves e2e4 e2e4");
    let is_refused = board.take(alloc, &rays, said.as_slice()).is_err();
    same(&rt, &"refused", &(is_refused, board.taken), &(true, start));
    let fault = board.searched().err();
    same(&rt, &"fault", &fault, &Some(PositionFault::NoSuchMove(2)));
    let said = words(&rt, alloc, "startpos moves e2e4");
    let is_taken = board.take(alloc, &rays, said.as_slice()).is_ok();
    let is_searched = board.searched().is_ok_and(|fen| *fen == board.taken);
    let found = (is_taken, is_searched, board.taken != start);
    same(&rt, &"taken", &found, &(true, true, true));
}

#[test]
fn reads_how_to_search(rt: HostRuntime) {
    let line = "wtime 300 btime 99999999999 winc x mate 3 infinite movetime";
    let go = read_go(words(&rt, rt.alloc(), line).as_slice());
    let times = (
        go.white_time,
        go.black_time,
        go.white_increment,
        go.move_time,
    );
    same(
        &rt,
        &"times",
        &times,
        &(Some(300), Some(1_000_000_000), None, None),
    );
    same(&rt, &"mate", &go.mate, &Some(3));
    same(
        &rt,
        &"infinite, ponder",
        &(go.infinite, go.ponder),
        &(true, false),
    );
}

#[test]
fn reads_options(rt: HostRuntime) {
    static TABLE: [(&str, Option<Setting>); 16] = [
        ("name Hash value 7", Some(Setting::Value(Spin::Hash, 7))),
        ("name Bound value 4", Some(Setting::Value(Spin::Bound, 4))),
        (
            "name MultiPV value 2",
            Some(Setting::Value(Spin::MultiPv, 2)),
        ),
        ("name hash value 1", Some(Setting::Value(Spin::Hash, 1))),
        ("name HASH value 10", Some(Setting::Value(Spin::Hash, 10))),
        ("name bOUND value 15", Some(Setting::Value(Spin::Bound, 15))),
        (
            "name multipv value 64",
            Some(Setting::Value(Spin::MultiPv, 64)),
        ),
        (
            "name Hash value 1024",
            Some(Setting::OutOfRange(Spin::Hash)),
        ),
        (
            "name Bound value 20",
            Some(Setting::OutOfRange(Spin::Bound)),
        ),
        ("name Bound value 0", Some(Setting::OutOfRange(Spin::Bound))),
        (
            "name MultiPV value 65",
            Some(Setting::OutOfRange(Spin::MultiPv)),
        ),
        ("name Hash value -1", Some(Setting::OutOfRange(Spin::Hash))),
        ("name Hash", Some(Setting::OutOfRange(Spin::Hash))),
        ("name Has value 3", None),
        ("name Hashes value 3", None),
        ("name Ponder value true", None),
    ];
    for (line, wanted) in &TABLE {
        let said = words(&rt, rt.alloc(), line);
        same(&rt, line, &read_setting(said.as_slice()), wanted);
    }
}

#[test]
fn keeps_a_search_to_moves(rt: HostRuntime) {
    let rays = Rays::new();
    let position = first_fen(&rt).position;
    let bound = Bound::new(2).expect(&rt, "bound");
    let longer = Bound::new(3).expect(&rt, "bound");
    let said = words(&rt, rt.alloc(), "mate 2 searchmoves e2e4 e2e5 a2a3");
    let moves = searched_moves(&rays, &position, said.as_slice());
    same(&rt, &"moves", &moves.len(), &2);
    let problem = only_these(&rays, &position, bound, moves.as_slice()).expect(&rt, "problem");
    // The first position has 20 legal moves.
    same(
        &rt,
        &"problem",
        &(problem.avoid.len(), problem.bound.get()),
        &(18, 2),
    );
    let again = within(&problem, longer);
    same(
        &rt,
        &"longer",
        &(again.avoid.len(), again.bound.get()),
        &(18, 3),
    );
}
