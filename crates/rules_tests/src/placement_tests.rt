//! The placement field of a FEN: how it is printed, where its men stand, and what misspells it.

use crate::test_positions::same;
use chess_board::{Colour, FenFault, Kind, Position, Square, read_fields};

const TWO_KINGS: &str = "4k3/8/8/8/8/8/8/4K3";

const LONGEST: &str = "r1b1k1n1/1n1q1b1r/p1p1p1p1/1p1p1p1p/P1P1P1P1/1P1P1P1P/R1B1K1N1/1N1Q1B1R";

// The examples of the PGN Specification, 16.1.4, in order of play.
const START: &str = "rnbqkbnr/pppppppp/8/8/8/8/PPPPPPPP/RNBQKBNR";

const AFTER_E4: &str = "rnbqkbnr/pppppppp/8/8/4P3/8/PPPP1PPP/RNBQKBNR";

const AFTER_C5: &str = "rnbqkbnr/pp1ppppp/8/2p5/4P3/8/PPPP1PPP/RNBQKBNR";

const AFTER_NF3: &str = "rnbqkbnr/pp1ppppp/8/2p5/4P3/5N2/PPPP1PPP/RNBQKB1R";

/// The position of a placement field, White to move.
fn read_placement(text: &str) -> Result<Position, FenFault> {
    read_fields(text.as_bytes(), b"w", b"-", b"-")
}

#[test]
fn text_is_printed_as_read(rt: HostRuntime) {
    static TABLE: [&str; 6] = [START, AFTER_E4, AFTER_C5, AFTER_NF3, TWO_KINGS, LONGEST];
    for spelt in &TABLE {
        let text = read_placement(spelt).expect(&rt, spelt).text();
        same(
            &rt,
            spelt,
            &text.as_str().strip_suffix(" w - -"),
            &Some(*spelt),
        );
    }
}

#[test]
fn men_stand_on_their_squares(rt: HostRuntime) {
    let position = read_placement(AFTER_NF3).expect(&rt, AFTER_NF3);
    // The knight has left g1.
    static TABLE: [(u8, Option<(Colour, Kind)>); 9] = [
        (0, Some((Colour::White, Kind::Rook))),
        (3, Some((Colour::White, Kind::Queen))),
        (4, Some((Colour::White, Kind::King))),
        (6, None),
        (21, Some((Colour::White, Kind::Knight))),
        (28, Some((Colour::White, Kind::Pawn))),
        (34, Some((Colour::Black, Kind::Pawn))),
        (58, Some((Colour::Black, Kind::Bishop))),
        (59, Some((Colour::Black, Kind::Queen))),
    ];
    for (square, man) in &TABLE {
        let found = position.man(Square::numbered(*square));
        same(&rt, square, &found.map(|man| (man.colour, man.kind)), man);
    }
}

#[test]
fn misspelt_fields_are_refused(rt: HostRuntime) {
    static TABLE: [(&str, &str); 13] = [
        ("", "no text"),
        ("8/8/8/8/8/8/8", "seven ranks"),
        ("8/8/8/8/8/8/8/8/8", "nine ranks"),
        ("8/8/8/8/8/8/8/8/", "a slash at the end"),
        ("/8/8/8/8/8/8/8", "an empty rank"),
        ("44/8/8/8/8/8/8/8", "two digits side by side"),
        ("9/8/8/8/8/8/8/8", "a digit above 8"),
        ("8/8/8/8/8/8/8/80", "a digit 0"),
        ("8/8/8/8/8/8/7/8", "seven squares in a rank"),
        ("8/8/8/8/8/8/8P/8", "nine squares in a rank"),
        ("8/8/8/8/8/8/ppppppppp/8", "nine men in a rank"),
        ("8/8/8/8/8/8/8/7x", "a letter of no man"),
        ("8/8/8/8/8/8/8/8 ", "a space"),
    ];
    for row in &TABLE {
        let found = read_placement(row.0).err();
        same(&rt, row, &found, &Some(FenFault::BadPlacement));
    }
}
