//! Lists, single moves, verdicts and attacks in known positions.

use crate::test_positions::{INITIAL, position_of, same, same_moves, square_of};
use chess_board::{Colour, Kind, Move};
use chess_moves::{Rays, Verdict, attacked, is_legal, legal, legal_moves_of, verdict};
use std::process::Abort;

#[test]
fn lists_the_most_moves_known(rt: HostRuntime) {
    let text = "R6R/3Q4/1Q4Q1/4Q3/2Q4Q/Q4Q2/pp1Q4/kBNN1KB1 w - - 0 1";
    let list = legal(&Rays::new(), &position_of(&rt, text));
    same(&rt, &text, &list.len(), &218);
}

/// Refuses where the list of a position's legal moves is not this one, or where one of them is not legal by itself.
fn check_list(rt: &impl Abort, text: &str, expected: &[&str]) {
    let rays = Rays::new();
    let position = position_of(rt, text);
    let list = legal(&rays, &position);
    same_moves(rt, text, list.as_slice(), expected);
    for m in list.as_slice() {
        same(rt, &(text, *m), &is_legal(&rays, &position, *m), &true);
    }
}

#[test]
fn lists_moves_in_order(rt: HostRuntime) {
    // Taken en passant, the two pawns would open the rank to the rook.
    check_list(
        &rt,
        "8/8/8/K2pP2r/8/8/8/7k w - d6 0 1",
        &["a5a4", "a5b4", "a5b5", "a5a6", "a5b6", "e5e6"],
    );
    check_list(
        &rt,
        "8/P7/8/8/8/8/7p/K6k w - - 0 1",
        &["a1b1", "a1a2", "a1b2", "a7a8n", "a7a8b", "a7a8r", "a7a8q"],
    );
}

/// The legal moves of the men on these squares are these, in this order.
fn check_list_of(rt: &impl Abort, text: &str, names: &[&str], expected: &[&str]) {
    let mut men = 0;
    for name in names {
        men = square_sets::with(men, square_of(rt, name).index() as u8);
    }
    let rays = Rays::new();
    let position = position_of(rt, text);
    let mut left = legal_moves_of(&rays, &position, men);
    for expected in expected {
        let m = left.next().expect(rt, text);
        same(rt, &text, &m.text().as_str(), expected);
    }
    same(rt, &text, &left.next(), &None);
}

#[test]
fn lists_the_moves_of_some_men(rt: HostRuntime) {
    const PROMOTING: &str = "8/P7/8/8/8/8/7p/K6k w - - 0 1";
    const PINNED: &str = "4r2k/8/8/8/8/8/4N3/4K3 w - - 0 1";
    static TABLE: [(&str, &[&str], &[&str]); 9] = [
        (PROMOTING, &["a1"], &["a1b1", "a1a2", "a1b2"]),
        (PROMOTING, &["a7"], &["a7a8n", "a7a8b", "a7a8r", "a7a8q"]),
        (
            PROMOTING,
            &["a7", "a1", "e4"],
            &["a1b1", "a1a2", "a1b2", "a7a8n", "a7a8b", "a7a8r", "a7a8q"],
        ),
        // A man of the other side, and none.
        (PROMOTING, &["h2"], &[]),
        (PROMOTING, &[], &[]),
        // Both wings are open to the king.
        (
            "r3k2r/8/8/8/8/8/8/R3K2R w KQkq - 0 1",
            &["e1", "e8"],
            &["e1c1", "e1d1", "e1f1", "e1g1", "e1d2", "e1e2", "e1f2"],
        ),
        // A pinned knight has no move; a pinned rook goes along the line.
        (PINNED, &["e2"], &[]),
        (PINNED, &["e1"], &["e1d1", "e1f1", "e1d2", "e1f2"]),
        (
            "4r2k/8/8/8/8/8/4R3/4K3 w - - 0 1",
            &["e2"],
            &["e2e3", "e2e4", "e2e5", "e2e6", "e2e7", "e2e8"],
        ),
    ];
    for (text, names, expected) in &TABLE {
        check_list_of(&rt, text, names, expected);
    }
}

#[test]
fn tells_a_move_that_is_not_legal(rt: HostRuntime) {
    let rays = Rays::new();
    let position = position_of(&rt, "8/P7/8/8/8/8/7p/K6k w - - 0 1");
    let origin = square_of(&rt, "a7");
    let target = square_of(&rt, "a8");
    static TABLE: [(Option<Kind>, bool); 5] = [
        (None, false),
        (Some(Kind::Pawn), false),
        (Some(Kind::Knight), true),
        (Some(Kind::Queen), true),
        (Some(Kind::King), false),
    ];
    for (promotion, expected) in &TABLE {
        let m = Move {
            origin,
            target,
            promotion: *promotion,
        };
        same(&rt, promotion, &is_legal(&rays, &position, m), expected);
    }
}

#[test]
fn tells_the_verdict(rt: HostRuntime) {
    static TABLE: [(&str, Verdict); 5] = [
        (INITIAL, Verdict::Play),
        (
            "rnb1kbnr/pppp1ppp/8/4p3/6Pq/5P2/PPPPP2P/RNBQKBNR w KQkq - 1 3",
            Verdict::Mate,
        ),
        ("7k/5Q2/6K1/8/8/8/8/8 b - - 0 1", Verdict::Stalemate),
        ("7k/8/6K1/8/8/8/8/7R b - - 0 1", Verdict::Play),
        ("7k/8/5K2/8/8/8/8/7R b - - 0 1", Verdict::Play),
    ];
    let rays = Rays::new();
    for (text, expected) in &TABLE {
        same(
            &rt,
            text,
            &verdict(&rays, &position_of(&rt, text)),
            expected,
        );
    }
}

#[test]
fn tells_what_is_attacked(rt: HostRuntime) {
    let rays = Rays::new();
    let position = position_of(&rt, "4k3/8/8/8/8/8/4P3/4K2R w - - 0 1");
    // By White, and by Black.
    static TABLE: [(&str, (bool, bool)); 5] = [
        ("f3", (true, false)),
        ("e3", (false, false)),
        ("h8", (true, false)),
        ("e2", (true, false)),
        ("d7", (false, true)),
    ];
    for (name, expected) in &TABLE {
        let square = square_of(&rt, name);
        let by_white = attacked(&rays, &position, square, Colour::White);
        let by_black = attacked(&rays, &position, square, Colour::Black);
        same(&rt, name, &(by_white, by_black), expected);
    }
}
