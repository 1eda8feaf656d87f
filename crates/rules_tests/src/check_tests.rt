//! Check, the moves that give it, and those that mate, in known positions.

use crate::test_positions::{INITIAL, move_of, position_of, same, same_moves};
use chess_moves::{
    MoveList, Rays, checks, guards_of_escapes, has_mating_move, in_check, is_legal, king_escapes,
    leaves_escape, push_mating_moves,
};
use std::process::Abort;

#[test]
fn tells_whether_the_side_to_move_is_in_check(rt: HostRuntime) {
    static TABLE: [(&str, bool); 14] = [
        (INITIAL, false),
        // On a file, on a diagonal, and through a man.
        ("7k/8/6K1/8/8/8/8/7R b - - 0 1", true),
        ("7k/8/8/8/8/8/8/B3K3 b - - 0 1", true),
        ("7k/8/8/4p3/8/8/8/B3K3 b - - 0 1", false),
        (
            "rnb1kbnr/pppp1ppp/8/4p3/6Pq/5P2/PPPPP2P/RNBQKBNR w KQkq - 1 3",
            true,
        ),
        // Stalemate.
        ("7k/5Q2/6K1/8/8/8/8/8 b - - 0 1", false),
        ("7k/5N2/8/8/8/8/8/K7 b - - 0 1", true),
        // Pawns attack aslant, each colour's to its front.
        ("7k/6P1/8/8/8/8/8/K7 b - - 0 1", true),
        ("7k/7P/8/8/8/8/8/K7 b - - 0 1", false),
        ("7k/8/8/8/8/8/1p6/K7 w - - 0 1", true),
        ("7k/8/8/8/8/8/p7/K7 w - - 0 1", false),
        ("8/7P/6k1/8/8/8/8/K7 b - - 0 1", false),
        // A man that is pinned gives check as well.
        ("7k/8/8/8/K6r/8/8/7R w - - 0 1", true),
        // The side's own men give none.
        ("7k/8/8/8/8/8/8/R3K3 w - - 0 1", false),
    ];
    let rays = Rays::new();
    for (text, expected) in &TABLE {
        same(
            &rt,
            text,
            &in_check(&rays, &position_of(&rt, text)),
            expected,
        );
    }
}

#[test]
fn lists_each_check(rt: HostRuntime) {
    static TABLE: [(&str, &[&str]); 8] = [
        // The queen itself, on each of its lines.
        (
            "7k/8/6K1/8/8/8/8/5Q2 w - - 0 1",
            &["f1a1", "f1h1", "f1h3", "f1f6", "f1f8"],
        ),
        // A pawn of Black's.
        ("7k/8/8/8/8/3p4/8/4K3 b - - 0 1", &["d3d2"]),
        // The knight opens the file with each move; two of them attack the king as well.
        (
            "4k3/8/8/8/4N3/8/8/K3R3 w - - 0 1",
            &[
                "e4d2", "e4f2", "e4c3", "e4g3", "e4c5", "e4g5", "e4d6", "e4f6",
            ],
        ),
        // The king opens the file where it leaves it.
        (
            "4k3/8/8/8/4K3/8/8/4R3 w - - 0 1",
            &["e4d3", "e4f3", "e4d4", "e4f4", "e4d5", "e4f5"],
        ),
        // The rook of a castling king.
        ("5k2/8/8/8/8/8/8/4K2R w K - 0 1", &["e1g1", "h1f1", "h1h8"]),
        // What the pawn becomes, and not the pawn.
        ("4k3/1P6/8/8/8/8/8/7K w - - 0 1", &["b7b8r", "b7b8q"]),
        // The rank is open once both pawns left it.
        ("8/8/8/k2pP2R/8/8/8/7K w - d6 0 1", &["e5d6"]),
        ("4k3/8/8/8/8/8/8/4K3 w - - 0 1", &[]),
    ];
    let rays = Rays::new();
    for (text, expected) in &TABLE {
        let list = checks(&rays, &position_of(&rt, text));
        same_moves(&rt, text, list.as_slice(), expected);
    }
}

#[test]
fn tells_whether_a_move_mates(rt: HostRuntime) {
    static TABLE: [(&str, bool); 19] = [
        // The back rank; and where the king may step off it.
        ("6k1/5ppp/8/8/8/8/8/R5K1 w - - 0 1", true),
        ("7k/8/5K2/8/8/8/8/R7 w - - 0 1", false),
        // Smothered, and where the knight can be taken.
        ("6rk/6pp/7N/8/8/8/8/6K1 w - - 0 1", true),
        ("6rk/6pp/7N/8/8/1b6/8/6K1 w - - 0 1", false),
        // The king opens the rank, the pawn the diagonal.
        ("k1K4R/p7/8/8/8/8/8/8 w - - 0 1", true),
        ("k7/p7/8/8/4P3/8/8/1R2K2B w - - 0 1", true),
        // Castling alone mates.
        ("8/8/8/8/7p/8/7Q/2k1K2R w K - 0 1", true),
        ("8/8/8/8/7p/8/7Q/2k1K2R w - - 0 1", false),
        // The capture en passant alone mates.
        ("7k/5K2/8/6pP/8/7R/8/8 w - g6 0 1", true),
        ("7k/5K2/8/6pP/8/7R/8/8 w - - 0 1", false),
        ("1K6/3k4/4R3/2pP2N1/3R4/p7/8/8 w - c6 0 1", true),
        // The promotion to a knight alone mates; to a queen or a rook.
        ("7R/1P1k4/8/4Q3/8/2p5/8/5K2 w - - 0 1", true),
        ("6R1/2P1k1K1/8/2N5/8/8/8/8 w - - 0 1", true),
        ("k7/2P5/K7/8/8/8/8/8 w - - 0 1", true),
        ("6bk/5P1p/7P/8/8/8/8/6K1 w - - 0 1", false),
        // The man that gives check is guarded.
        ("7k/R7/5N2/8/8/8/8/K7 w - - 0 1", true),
        ("7k/R7/8/8/8/8/8/K7 w - - 0 1", false),
        ("4rk2/5p2/6R1/8/2B5/8/8/K4R2 w - - 0 1", true),
        // No check.
        ("8/8/8/8/8/5k2/5p2/5K2 w - - 0 1", false),
    ];
    let rays = Rays::new();
    for (text, expected) in &TABLE {
        let found = has_mating_move(&rays, &position_of(&rt, text));
        same(&rt, text, &found, expected);
    }
}

#[test]
fn sees_the_king_escape(rt: HostRuntime) {
    static TABLE: [(&str, bool); 7] = [
        // A rook attacks too few of the squares around the king, and the other king is far.
        ("8/8/8/3k4/8/8/8/R6K b - - 0 1", true),
        ("7k/8/8/5K2/8/8/8/R7 b - - 0 1", true),
        // The rook mates after the one step that there is.
        ("k7/8/1K6/8/8/8/8/7R b - - 0 1", false),
        // There is no step.
        ("7k/5Q2/6K1/8/8/8/8/8 b - - 0 1", false),
        (INITIAL, false),
        // A pawn may promote next, a king castle.
        ("8/4P3/8/8/8/8/7k/K7 b - - 0 1", false),
        ("8/8/8/3k4/8/8/8/4K2R b K - 0 1", false),
    ];
    let rays = Rays::new();
    for (text, expected) in &TABLE {
        let found = king_escapes(&rays, &position_of(&rt, text));
        same(&rt, text, &found, expected);
    }
}

/// A legal move is seen to leave an escape, or is not.
fn check_leaves(rt: &impl Abort, text: &str, name: &str, expected: bool) {
    let (rays, position, m) = (Rays::new(), position_of(rt, text), move_of(rt, name));
    let guards = guards_of_escapes(&rays, &position);
    assert!(rt; is_legal(&rays, &position, m));
    same(
        rt,
        &(text, name),
        &leaves_escape(&position, &guards, m),
        &expected,
    );
}

#[test]
fn sees_which_moves_leave_an_escape(rt: HostRuntime) {
    static TABLE: [(&str, &str, bool); 11] = [
        // Only on the king's own rank or file does the rook attack beside each of its steps.
        ("8/8/8/3k4/8/8/8/R6K w - - 0 1", "a1a4", true),
        ("8/8/8/3k4/8/8/8/R6K w - - 0 1", "a1a5", false),
        ("8/8/8/3k4/8/8/8/R6K w - - 0 1", "a1d1", false),
        ("8/8/8/3k4/8/8/8/R6K w - - 0 1", "a1e1", true),
        // The pawn may promote after its step, and a king that stands at home castle.
        ("8/8/4P3/8/8/8/7k/K7 w - - 0 1", "a1b1", true),
        ("8/8/4P3/8/8/8/7k/K7 w - - 0 1", "e6e7", false),
        ("8/8/8/3k4/8/8/5K2/8 w - - 0 1", "f2e1", false),
        ("8/8/8/3k4/8/8/5K2/8 w - - 0 1", "f2e3", true),
        // A capture en passant.
        ("8/8/7k/2pP4/8/8/8/K7 w - c6 0 1", "d5c6", false),
        ("8/8/7k/2pP4/8/8/8/K7 w - c6 0 1", "d5d6", true),
        // The other king has no step.
        ("k1K5/8/1P6/8/8/8/8/8 w - - 0 1", "b6b7", false),
    ];
    for (text, name, expected) in &TABLE {
        check_leaves(&rt, text, name, *expected);
    }
}

/// The moves of a position that mate are these.
fn check_mates(rt: &impl Abort, text: &str, expected: &[&str]) {
    let mut list = MoveList::new();
    push_mating_moves(&Rays::new(), &position_of(rt, text), &mut list);
    same_moves(rt, text, list.as_slice(), expected);
}

#[test]
fn lists_each_mate(rt: HostRuntime) {
    static TABLE: [(&str, &[&str]); 8] = [
        ("6k1/5ppp/8/8/8/8/8/R5K1 w - - 0 1", &["a1a8"]),
        ("7k/8/6K1/8/8/8/8/R2R4 w - - 0 1", &["a1a8", "d1d8"]),
        ("6rk/6pp/7N/8/8/8/8/6K1 w - - 0 1", &["h6f7"]),
        // The rook or the queen that the pawn becomes.
        ("k7/2P5/K7/8/8/8/8/8 w - - 0 1", &["c7c8r", "c7c8q"]),
        ("8/8/8/8/7p/8/7Q/2k1K2R w K - 0 1", &["e1g1"]),
        ("7k/5K2/8/6pP/8/7R/8/8 w - g6 0 1", &["h5g6"]),
        ("7k/R7/8/8/8/8/8/K7 w - - 0 1", &[]),
        // No check.
        ("8/8/8/8/8/5k2/5p2/5K2 w - - 0 1", &[]),
    ];
    for (text, expected) in &TABLE {
        check_mates(&rt, text, expected);
    }
}
