//! Moves in tables: how they are written and compared, which are legal, and the position after one; and positions read from
//! four fields.

use crate::test_positions::{move_of, position_of, same};
use chess_board::{FenFault, after, comes_before, read_fields};
use chess_moves::{Rays, is_legal};

#[test]
fn writes_moves(rt: HostRuntime) {
    static TABLE: [&str; 10] = [
        "e2e4", "a1h8", "h8a1", "e1g1", "a7a8q", "a7b8r", "h2g1b", "h2h1n", "a7a8p", "a7a8k",
    ];
    for text in &TABLE {
        same(&rt, &"written", &move_of(&rt, text).text().as_str(), text);
    }
}

/// Each row rises: by origin, then target, then promotion.
#[test]
fn orders_moves(rt: HostRuntime) {
    static TABLE: [(&str, &str); 9] = [
        ("a1h8", "b1a1"),
        ("h1a1", "a2a1"),
        ("e2e3", "e2e4"),
        ("a1h1", "a1a2"),
        ("a7a8", "a7a8n"),
        ("a7a8n", "a7a8b"),
        ("a7a8b", "a7a8r"),
        ("a7a8r", "a7a8q"),
        ("a7a8q", "a7b8n"),
    ];
    for row in &TABLE {
        let a = move_of(&rt, row.0);
        let b = move_of(&rt, row.1);
        let found = (comes_before(a, b), comes_before(b, a), comes_before(a, a));
        same(&rt, row, &found, &(true, false, false));
    }
}

#[test]
fn makes_moves(rt: HostRuntime) {
    static TABLE: [(&str, &str, &str); 10] = [
        (
            "rnbqkbnr/pppppppp/8/8/8/8/PPPPPPPP/RNBQKBNR w KQkq - 0 1",
            "e2e4",
            "rnbqkbnr/pppppppp/8/8/4P3/8/PPPP1PPP/RNBQKBNR b KQkq e3",
        ),
        (
            "r3k2r/8/8/8/8/8/8/R3K2R w KQkq - 0 1",
            "e1g1",
            "r3k2r/8/8/8/8/8/8/R4RK1 b kq -",
        ),
        (
            "r3k2r/8/8/8/8/8/8/R3K2R b KQkq - 0 1",
            "e8c8",
            "2kr3r/8/8/8/8/8/8/R3K2R w KQ -",
        ),
        (
            "r3k2r/8/8/8/8/8/8/R3K2R w KQkq - 0 1",
            "a1a8",
            "R3k2r/8/8/8/8/8/8/4K2R b Kk -",
        ),
        (
            "r3k2r/8/8/8/8/8/8/R3K2R w KQkq - 0 1",
            "e1e2",
            "r3k2r/8/8/8/8/8/4K3/R6R b kq -",
        ),
        (
            "4k3/8/8/3pP3/8/8/8/4K3 w - d6 0 1",
            "e5d6",
            "4k3/8/3P4/8/8/8/8/4K3 b - -",
        ),
        (
            "4k3/8/8/8/3pP3/8/8/4K3 b - e3 0 1",
            "d4e3",
            "4k3/8/8/8/8/4p3/8/4K3 w - -",
        ),
        (
            "4k3/8/8/3pP3/8/8/8/4K3 w - d6 0 1",
            "e5e6",
            "4k3/8/4P3/3p4/8/8/8/4K3 b - -",
        ),
        (
            "8/P6k/8/8/8/8/8/K7 w - - 0 1",
            "a7a8n",
            "N7/7k/8/8/8/8/8/K7 b - -",
        ),
        (
            "4k3/8/8/8/8/8/3p4/K1B5 b - - 0 1",
            "d2c1q",
            "4k3/8/8/8/8/8/8/K1q5 w - -",
        ),
    ];
    let rays = Rays::new();
    for row in &TABLE {
        let position = position_of(&rt, row.0);
        let m = move_of(&rt, row.1);
        if is_legal(&rays, &position, m) {
            same(&rt, row, &after(&position, m).text().as_str(), &row.2);
        } else {
            panic!(rt; "{row:?}");
        }
    }
}

#[test]
fn tells_legal_moves(rt: HostRuntime) {
    static TABLE: [(&str, &str, bool); 26] = [
        // en passant would take two pawns off the king's rank
        ("8/8/8/K2pP2r/8/8/8/7k w - d6 0 1", "e5d6", false),
        ("8/8/8/K2pP2r/8/8/8/7k w - d6 0 1", "e5e6", true),
        // f1 is attacked
        ("4kr2/8/8/8/8/8/8/R3K2R w KQ - 0 1", "e1g1", false),
        ("4kr2/8/8/8/8/8/8/R3K2R w KQ - 0 1", "e1c1", true),
        // g1, e1, and b1, which only the rook crosses
        ("4k1r1/8/8/8/8/8/8/R3K2R w KQ - 0 1", "e1g1", false),
        ("3kr3/8/8/8/8/8/8/R3K2R w KQ - 0 1", "e1c1", false),
        ("1r2k3/8/8/8/8/8/8/R3K2R w KQ - 0 1", "e1c1", true),
        // a man in between, and no right
        ("4k3/8/8/8/8/8/8/RN2K2R w KQ - 0 1", "e1c1", false),
        ("4k3/8/8/8/8/8/8/R3K2R w K - 0 1", "e1c1", false),
        // a king that steps back along the ray of a check
        ("k3r3/8/8/8/8/8/4K3/8 w - - 0 1", "e2e1", false),
        ("k3r3/8/8/8/8/8/4K3/8 w - - 0 1", "e2d1", true),
        // a pinned man may go along the line alone
        ("k3r3/8/8/8/8/8/4R3/4K3 w - - 0 1", "e2d2", false),
        ("k3r3/8/8/8/8/8/4R3/4K3 w - - 0 1", "e2e8", true),
        // pawns
        ("4k3/8/8/8/8/4n3/4P3/4K3 w - - 0 1", "e2e4", false),
        ("4k3/8/8/8/4n3/8/4P3/4K3 w - - 0 1", "e2e4", false),
        ("4k3/8/8/8/8/4P3/8/4K3 w - - 0 1", "e3e5", false),
        ("4k3/8/8/8/8/8/4P3/4K3 w - - 0 1", "e2d3", false),
        ("7k/P7/8/8/8/8/8/K7 w - - 0 1", "a7a8", false),
        ("7k/P7/8/8/8/8/8/K7 w - - 0 1", "a7a8k", false),
        ("7k/P7/8/8/8/8/8/K7 w - - 0 1", "a7a8p", false),
        ("7k/P7/8/8/8/8/8/K7 w - - 0 1", "a7a8b", true),
        ("7k/8/P7/8/8/8/8/K7 w - - 0 1", "a6a7q", false),
        // its own man, the enemy's man, no man, and the square on which it stands
        ("4k3/8/8/8/8/8/4P3/4K3 w - - 0 1", "e1e2", false),
        ("4k3/8/8/8/8/8/4P3/4K3 w - - 0 1", "e8e7", false),
        ("4k3/8/8/8/8/8/4P3/4K3 w - - 0 1", "a1a2", false),
        ("4k3/8/8/8/8/8/4P3/4K3 w - - 0 1", "e1e1", false),
    ];
    let rays = Rays::new();
    for row in &TABLE {
        let found = is_legal(&rays, &position_of(&rt, row.0), move_of(&rt, row.1));
        same(&rt, row, &found, &row.2);
    }
}

#[test]
fn reads_four_fields(rt: HostRuntime) {
    let text = "r3k2r/8/8/3pP3/8/8/8/4K2R w Kq d6";
    let position = read_fields(b"r3k2r/8/8/3pP3/8/8/8/4K2R", b"w", b"qK", b"d6").expect(&rt, text);
    same(&rt, &text, &position.text().as_str(), &text);
    static TABLE: [(&str, &str, &str, &str, FenFault); 10] = [
        ("44/8/8/8/8/8/8/K1k5", "x", "-", "-", FenFault::BadPlacement),
        ("4k3/8/8/8/8/8/8/4K3", "W", "KK", "-", FenFault::BadSide),
        ("4k3/8/8/8/8/8/8/4K3", "w", "", "e3", FenFault::BadCastling),
        ("8/8/8/8/8/8/8/K7", "w", "-", "e3", FenFault::BadTarget),
        ("P7/8/8/8/8/8/8/K7", "w", "-", "-", FenFault::BadKings),
        (
            "P3k3/8/8/8/8/8/8/4K3",
            "w",
            "K",
            "-",
            FenFault::PawnOnEndRank,
        ),
        (
            "4k3/8/8/8/8/P7/PPPPPPPP/RNBQKBNR",
            "w",
            "-",
            "e6",
            FenFault::TooManyMen,
        ),
        (
            "4k3/8/8/8/8/8/8/4K3",
            "w",
            "K",
            "e6",
            FenFault::RightWithoutMen,
        ),
        (
            "8/8/8/8/8/8/8/Kk6",
            "w",
            "-",
            "e6",
            FenFault::TargetWithoutPawn,
        ),
        (
            "8/8/8/8/8/8/8/Kk6",
            "w",
            "-",
            "-",
            FenFault::OpponentInCheck,
        ),
    ];
    for row in &TABLE {
        let (placement, side, rights, target, fault) = row;
        let answer = read_fields(
            placement.as_bytes(),
            side.as_bytes(),
            rights.as_bytes(),
            target.as_bytes(),
        );
        same(&rt, row, &answer.err(), &Some(*fault));
    }
}
