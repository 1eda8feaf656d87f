//! Texts of moves in known positions.

use crate::test_rows::{move_of, position_of, same};
use chess_moves::{Rays, is_legal, legal};
use chess_notation::san;
use std::process::Abort;

/// Refuses where the text of a legal move is not this one.
fn check_text(rt: &impl Abort, row: &(&str, &str, &str)) {
    let rays = Rays::new();
    let read = position_of(rt, row.0);
    let m = move_of(rt, row.1);
    if is_legal(&rays, &read, m) {
        same(rt, row, &san(&rays, &read, m).as_str(), &row.2);
    } else {
        panic!(rt; "not legal: {row:?}");
    }
}

#[test]
fn tells_a_man_from_its_rivals(rt: HostRuntime) {
    // The queen of h4 has a rival on its file and one on its rank.
    const ROOKS: &str = "4k3/8/8/R7/8/8/8/R3K3 w - - 0 1";
    const QUEENS: &str = "2k5/8/8/8/4Q2Q/8/8/1K5Q w - - 0 1";
    static TABLE: [(&str, &str, &str); 8] = [
        (ROOKS, "a1a3", "R1a3"),
        (ROOKS, "a5a3", "R5a3"),
        (ROOKS, "a1d1", "Rd1"),
        (ROOKS, "a5e5", "Re5+"),
        (ROOKS, "a5a8", "Ra8+"),
        (QUEENS, "e4e1", "Qee1"),
        (QUEENS, "h1e1", "Q1e1"),
        (QUEENS, "h4e1", "Qh4e1"),
    ];
    for row in &TABLE {
        check_text(&rt, row);
    }
}

#[test]
fn marks_check_and_mate(rt: HostRuntime) {
    const CASTLES: &str = "3k4/8/8/8/8/8/2R1R3/R3K3 w Q - 0 1";
    static TABLE: [(&str, &str, &str); 7] = [
        ("6k1/5ppp/8/8/8/8/8/R3K3 w Q - 0 1", "a1a8", "Ra8#"),
        (CASTLES, "e1c1", "O-O-O#"),
        (CASTLES, "a1d1", "Rd1#"),
        (CASTLES, "c2d2", "Rcd2+"),
        (CASTLES, "e2e8", "Re8+"),
        ("5k2/8/8/8/8/8/8/4K2R w K - 0 1", "e1g1", "O-O+"),
        ("4k2r/8/8/8/8/8/8/5K2 b k - 0 1", "e8g8", "O-O+"),
    ];
    for row in &TABLE {
        check_text(&rt, row);
    }
}

#[test]
fn names_what_a_pawn_becomes(rt: HostRuntime) {
    const MATES: &str = "rb6/kpP5/p7/8/8/8/8/7K w - - 0 1";
    const CAPTURES: &str = "1n5k/P7/8/8/8/8/8/K7 w - - 0 1";
    static TABLE: [(&str, &str, &str); 8] = [
        (MATES, "c7c8n", "c8=N#"),
        (MATES, "c7c8q", "c8=Q"),
        (MATES, "c7b8b", "cxb8=B+"),
        (MATES, "c7b8n", "cxb8=N"),
        (CAPTURES, "a7a8q", "a8=Q"),
        (CAPTURES, "a7a8r", "a8=R"),
        (CAPTURES, "a7b8b", "axb8=B"),
        (CAPTURES, "a7b8q", "axb8=Q+"),
    ];
    for row in &TABLE {
        check_text(&rt, row);
    }
}

/// Refuses where the texts of a position's legal moves, in their order, are not these.
fn check_texts(rt: &impl Abort, position: &str, expected: &[&str]) {
    let rays = Rays::new();
    let read = position_of(rt, position);
    let moves = legal(&rays, &read);
    same(rt, &position, &moves.len(), &expected.len());
    for (m, expected) in moves.as_slice().iter().zip(expected) {
        let _origin = m.origin;
        if is_legal(&rays, &read, *m) {
            same(rt, &position, &san(&rays, &read, *m).as_str(), expected);
        }
    }
}

#[test]
fn writes_each_legal_move(rt: HostRuntime) {
    // Taken en passant, the two pawns would open the rank to the rook.
    check_texts(
        &rt,
        "8/8/8/K2pP2r/8/8/8/7k w - d6 0 1",
        &["Ka4", "Kb4", "Kb5", "Ka6", "Kb6", "e6"],
    );
    check_texts(
        &rt,
        "7k/8/8/3pP3/2K5/8/8/8 w - d6 0 1",
        &[
            "Kb3", "Kc3", "Kd3", "Kb4", "Kd4", "Kb5", "Kc5", "Kxd5", "exd6",
        ],
    );
    // The other knight is pinned.
    check_texts(
        &rt,
        "4k3/8/8/8/4r3/8/4N3/1N2K3 w - - 0 1",
        &["Nd2", "Na3", "Nc3", "Kd1", "Kf1", "Kd2", "Kf2"],
    );
}

#[test]
fn writes_castling_where_it_is_legal(rt: HostRuntime) {
    // The rook on f8 attacks f1.
    check_texts(
        &rt,
        "4kr2/8/8/8/8/8/8/R3K2R w KQ - 0 1",
        &[
            "Rb1", "Rc1", "Rd1", "Ra2", "Ra3", "Ra4", "Ra5", "Ra6", "Ra7", "Ra8+", "O-O-O", "Kd1",
            "Kd2", "Ke2", "Rf1", "Rg1", "Rh2", "Rh3", "Rh4", "Rh5", "Rh6", "Rh7", "Rh8",
        ],
    );
}
