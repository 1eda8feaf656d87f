//! Words that name moves, played, and what is shown of a position.

use crate::test_rows::{fen_of, same};
use chess_board::Colour;
use chess_moves::Rays;
use chess_views::{
    Columns, board_text, divided_text, look_board_text, moves_text, play, reached_text,
};
use std::process::Abort;

/// The initial position.
const INITIAL: &str = "rnbqkbnr/pppppppp/8/8/8/8/PPPPPPPP/RNBQKBNR w KQkq - 0 1";

/// Kings and rooks at home, and every right.
const HOMES: &str = "r3k2r/8/8/8/8/8/8/R3K2R w KQkq - 4 9";

/// Refuses where words name no moves, or lead elsewhere.
fn check_played(rt: &impl Abort, text: &str, words: &[&str], expected: &str) {
    let reached = play(&Rays::new(), &fen_of(rt, text), words).expect(rt, text);
    same(rt, &(text, words), &reached.text().as_str(), &expected);
}

#[test]
fn plays_by_both_spellings(rt: HostRuntime) {
    const PROMOTING: &str = "8/P7/8/8/8/7k/8/K7 w - - 5 10";
    const PASSING: &str = "4k3/8/8/3pP3/8/8/8/4K3 w - d6 0 2";
    static TABLE: [(&str, &str, &str, &str); 7] = [
        (HOMES, "O-O", "e1g1", "r3k2r/8/8/8/8/8/8/R4RK1 b kq - 5 9"),
        (HOMES, "O-O-O", "e1c1", "r3k2r/8/8/8/8/8/8/2KR3R b kq - 5 9"),
        (PASSING, "exd6", "e5d6", "4k3/8/3P4/8/8/8/8/4K3 b - - 0 2"),
        (PROMOTING, "a8=Q", "a7a8q", "Q7/8/8/8/8/7k/8/K7 b - - 0 10"),
        (PROMOTING, "a8=R", "a7a8r", "R7/8/8/8/8/7k/8/K7 b - - 0 10"),
        (PROMOTING, "a8=B", "a7a8b", "B7/8/8/8/8/7k/8/K7 b - - 0 10"),
        (PROMOTING, "a8=N#", "a7a8n", "N7/8/8/8/8/7k/8/K7 b - - 0 10"),
    ];
    for (text, san, coordinates, expected) in &TABLE {
        check_played(&rt, text, &[*san], expected);
        check_played(&rt, text, &[*coordinates], expected);
    }
}

#[test]
fn refuses_the_first_word_that_names_no_move(rt: HostRuntime) {
    let rays = Rays::new();
    const PINNED: &str = "4r2k/8/8/8/8/8/4N3/4K3 w - - 0 1";
    const PROMOTING: &str = "8/P7/8/8/8/7k/8/K7 w - - 5 10";
    static TABLE: [(&str, &[&str], usize); 11] = [
        (PINNED, &["Nc3"], 1),
        (PINNED, &["e2c3"], 1),
        (INITIAL, &["e4", "e7e5", "Ke3"], 3),
        (INITIAL, &["e4", "e2e4"], 2),
        (INITIAL, &["e4++"], 1),
        (INITIAL, &["e2e4+"], 1),
        (INITIAL, &[""], 1),
        (HOMES, &["e1h1"], 1),
        (PROMOTING, &["a7a8"], 1),
        (PROMOTING, &["a7a8Q"], 1),
        (PROMOTING, &["a7a8k"], 1),
    ];
    for (text, words, number) in &TABLE {
        let found = play(&rays, &fen_of(&rt, text), words).err();
        same(&rt, &(*text, *words), &found, &Some(*number));
    }
}

#[test]
fn counts_on(rt: HostRuntime) {
    // The first three are the examples of the PGN Specification, section 16.1.4.
    static TABLE: [(&str, &[&str], &str); 7] = [
        (
            INITIAL,
            &["e4+"],
            "rnbqkbnr/pppppppp/8/8/4P3/8/PPPP1PPP/RNBQKBNR b KQkq e3 0 1",
        ),
        (
            INITIAL,
            &["e4", "c5"],
            "rnbqkbnr/pp1ppppp/8/2p5/4P3/8/PPPP1PPP/RNBQKBNR w KQkq c6 0 2",
        ),
        (
            INITIAL,
            &["e4", "c5", "Nf3#"],
            "rnbqkbnr/pp1ppppp/8/2p5/4P3/5N2/PPPP1PPP/RNBQKB1R b KQkq - 1 2",
        ),
        (INITIAL, &[], INITIAL),
        (
            "4k3/8/8/3p4/8/4N3/8/4K3 w - - 7 20",
            &["Nxd5", "Kd7"],
            "8/3k4/8/3N4/8/8/8/4K3 w - - 1 21",
        ),
        (
            "4k3/8/8/3p4/8/4N3/8/4K3 w - - 7 20",
            &["Nf5"],
            "4k3/8/8/3p1N2/8/8/8/4K3 b - - 8 20",
        ),
        (
            "4k3/8/8/8/8/8/8/4K3 b - - 9999 9999",
            &["Ke7"],
            "8/4k3/8/8/8/8/8/4K3 w - - 9999 9999",
        ),
    ];
    for (text, words, expected) in &TABLE {
        check_played(&rt, text, words, expected);
    }
}

#[test]
fn says_how_a_position_stands(rt: HostRuntime) {
    let rays = Rays::new();
    static TABLE: [(&str, &[u8]); 4] = [
        (
            "rnb1kbnr/pppp1ppp/8/4p3/6Pq/5P2/PPPPP2P/RNBQKBNR w KQkq - 1 3",
            b"rnb1kbnr/pppp1ppp/8/4p3/6Pq/5P2/PPPPP2P/RNBQKBNR w KQkq - 1 3\nmate\n",
        ),
        (
            "7k/5Q2/6K1/8/8/8/8/8 b - - 0 1",
            b"7k/5Q2/6K1/8/8/8/8/8 b - - 0 1\nstalemate\n",
        ),
        (
            "4k3/8/8/8/8/8/4r3/4K3 w - - 0 1",
            b"4k3/8/8/8/8/8/4r3/4K3 w - - 0 1\ncheck\n",
        ),
        (
            "4k3/8/8/8/8/8/8/4K3 b - - 0 1",
            b"4k3/8/8/8/8/8/8/4K3 b - - 0 1\nno check\n",
        ),
    ];
    for (text, expected) in &TABLE {
        let said = reached_text(rt.alloc(), &rays, &fen_of(&rt, text)).expect(&rt, text);
        same(&rt, text, &said.as_slice(), expected);
    }
}

#[test]
fn draws_the_board_as_either_side_sees_it(rt: HostRuntime) {
    let alloc = rt.alloc();
    let initial = fen_of(&rt, INITIAL).position;
    let white: &[u8] =
        b"8  r n b q k b n r\n7  p p p p p p p p\n6  . . . . . . . .\n5  . . . . . . . .\n\
        4  . . . . . . . .\n3  . . . . . . . .\n2  P P P P P P P P\n1  R N B Q K B N R\n   a b c d e f g h\n";
    let black: &[u8] =
        b"1  R N B K Q B N R\n2  P P P P P P P P\n3  . . . . . . . .\n4  . . . . . . . .\n\
        5  . . . . . . . .\n6  . . . . . . . .\n7  p p p p p p p p\n8  r n b k q b n r\n   h g f e d c b a\n";
    let drawn = board_text(alloc, &initial, Colour::White).expect(&rt, "White");
    same(&rt, &"as White sees it", &drawn.as_slice(), &white);
    let drawn = board_text(alloc, &initial, Colour::Black).expect(&rt, "Black");
    same(&rt, &"as Black sees it", &drawn.as_slice(), &black);
    let black_to_move = fen_of(&rt, "7k/8/8/8/8/8/8/K7 b - - 0 1");
    let shown = look_board_text(alloc, &black_to_move, Colour::White).expect(&rt, "look");
    let above = b"7k/8/8/8/8/8/8/K7 b - - 0 1\nno check\n8  . . . . . . . k\n";
    let below = b"1  K . . . . . . .\n   a b c d e f g h\nBlack to move\n";
    let found = (
        shown.as_slice().starts_with(above),
        shown.as_slice().ends_with(below),
    );
    same(&rt, &"above and below", &found, &(true, true));
}

#[test]
fn lists_and_counts(rt: HostRuntime) {
    let alloc = rt.alloc();
    let rays = Rays::new();
    let cornered = fen_of(&rt, "8/8/8/8/8/1k6/8/K7 w - - 3 40");
    static TABLE: [(Columns, &[u8]); 4] = [
        (Columns::San, b"Kb1\n"),
        (Columns::Coordinates, b"a1b1\n"),
        (Columns::SanFen, b"Kb1\t8/8/8/8/8/1k6/8/1K6 b - - 4 40\n"),
        (
            Columns::SanCoordinatesFen,
            b"Kb1\ta1b1\t8/8/8/8/8/1k6/8/1K6 b - - 4 40\n",
        ),
    ];
    for (columns, expected) in &TABLE {
        let listed = moves_text(alloc, &rays, &cornered, *columns).expect(&rt, "moves");
        same(&rt, columns, &listed.as_slice(), expected);
    }
    let few = fen_of(&rt, "8/8/8/K2pP2r/8/8/8/7k w - d6 0 1");
    let none = divided_text(alloc, &rays, &few, 0).expect(&rt, "no move");
    same(&rt, &"no move", &none.as_slice(), &b"1\n".as_slice());
    let one = divided_text(alloc, &rays, &few, 1).expect(&rt, "one move");
    let expected: &[u8] = b"a5a4: 1\na5b4: 1\na5b5: 1\na5a6: 1\na5b6: 1\ne5e6: 1\n6\n";
    same(&rt, &"one move", &one.as_slice(), &expected);
}
