//! FEN in tables: what is read and printed, what is refused, and which of two faults is answered.

use crate::test_positions::{INITIAL, fen_of, position_of, same};
use chess_board::{Colour, FenFault, Kind, Man, Position, Square, Wing, read_fen, reads_back};
use std::hash::{DefaultHasher, Hash, Hasher};

#[test]
fn reads_and_prints(rt: HostRuntime) {
    static TABLE: [(&str, &str); 7] = [
        (INITIAL, INITIAL),
        (
            "rnbqkbnr/pppppppp/8/8/8/8/PPPPPPPP/RNBQKBNR w qkQK - 0 1",
            INITIAL,
        ),
        (
            "rnbqkbnr/pppppppp/8/8/8/8/PPPPPPPP/RNBQKBNR w kKqQ - 000 0001",
            INITIAL,
        ),
        (
            "rnb1kbnr/pppp1ppp/8/4p3/6Pq/5P2/PPPPP2P/RNBQKBNR w KQkq - 1 3",
            "rnb1kbnr/pppp1ppp/8/4p3/6Pq/5P2/PPPPP2P/RNBQKBNR w KQkq - 1 3",
        ),
        (
            "rnbqkbnr/pppppppp/8/8/4P3/8/PPPP1PPP/RNBQKBNR b KQkq e3 0 1",
            "rnbqkbnr/pppppppp/8/8/4P3/8/PPPP1PPP/RNBQKBNR b KQkq e3 0 1",
        ),
        (
            "rnbqkbnr/ppp1pppp/8/3pP3/8/8/PPPP1PPP/RNBQKBNR w kQ d6 0 3",
            "rnbqkbnr/ppp1pppp/8/3pP3/8/8/PPPP1PPP/RNBQKBNR w Qk d6 0 3",
        ),
        (
            "4k3/8/8/8/8/8/8/4K3 b - - 9999 0",
            "4k3/8/8/8/8/8/8/4K3 b - - 9999 0",
        ),
    ];
    for (text, printed) in &TABLE {
        let fen = fen_of(&rt, text);
        same(&rt, text, &fen.text().as_str(), printed);
        same(&rt, text, &reads_back(&fen).ok(), &Some(fen));
    }
}

#[test]
fn shows_the_parts_of_a_position(rt: HostRuntime) {
    let fen = fen_of(&rt, "r3k2r/8/8/3pP3/8/8/8/4K2R w Kq d6 4 31");
    let position = fen.position;
    let counters = (fen.halfmove, fen.fullmove);
    same(&rt, &"counters", &counters, &(4, 31));
    let text = "r3k2r/8/8/3pP3/8/8/8/4K2R w Kq d6";
    same(&rt, &"text", &position.text().as_str(), &text);
    same(&rt, &"side", &position.side(), &Colour::White);
    let squares = (position.ep_target(), Some(position.king(Colour::Black)));
    same(
        &rt,
        &"d6 and e8",
        &squares,
        &(Square::at(3, 5), Square::at(4, 7)),
    );
    let rights = (
        position.has_right(Colour::White, Wing::KingSide),
        position.has_right(Colour::White, Wing::QueenSide),
    );
    same(&rt, &"rights", &rights, &(true, false));
    same(&rt, &"check", &position.in_check(), &false);
    let rook = Man {
        colour: Colour::White,
        kind: Kind::Rook,
    };
    let h1 = Square::at(7, 0).expect(&rt, "h1");
    same(&rt, &"h1", &position.man(h1), &Some(rook));
    let h7 = Square::at(7, 6).expect(&rt, "h7");
    let attacks = (
        position.is_attacked(h7, Colour::White),
        position.is_attacked(h7, Colour::Black),
    );
    same(&rt, &"attacks on h7", &attacks, &(true, true));
}

/// The bits of a rank are eight, the first rank lowest and the a-file the lowest of each.
#[test]
fn tells_where_men_stand(rt: HostRuntime) {
    let position = position_of(&rt, "r3k2r/8/8/3pP3/8/8/8/4K2R w Kq d6 4 31");
    same(
        &rt,
        &"occupied",
        &position.occupied(),
        &0x9100_0018_0000_0090,
    );
    static TABLE: [(Colour, Kind, u64); 8] = [
        (Colour::White, Kind::Pawn, 0x0000_0010_0000_0000),
        (Colour::White, Kind::Rook, 0x0000_0000_0000_0080),
        (Colour::White, Kind::King, 0x0000_0000_0000_0010),
        (Colour::White, Kind::Queen, 0),
        (Colour::Black, Kind::Pawn, 0x0000_0008_0000_0000),
        (Colour::Black, Kind::Rook, 0x8100_0000_0000_0000),
        (Colour::Black, Kind::King, 0x1000_0000_0000_0000),
        (Colour::Black, Kind::Knight, 0),
    ];
    for row in &TABLE {
        same(&rt, row, &position.men(row.0, row.1), &row.2);
    }
}

fn hash_of(position: &Position) -> u64 {
    let mut state = DefaultHasher::new();
    position.hash(&mut state);
    state.finish()
}

#[test]
fn tells_positions_apart(rt: HostRuntime) {
    let text = "4k3/8/8/3p4/8/8/8/4K2R w K - 0 1";
    let position = position_of(&rt, text);
    let hash = hash_of(&position);
    let later = position_of(&rt, "4k3/8/8/3p4/8/8/8/4K2R w K - 7 9");
    same(&rt, &"later", &(later, hash_of(&later)), &(position, hash));
    static TABLE: [&str; 10] = [
        "4k3/8/8/8/8/8/8/4K2R w K - 0 1",
        "4k3/8/8/8/3p4/8/8/4K2R w K - 0 1",
        "4k3/8/8/3P4/8/8/8/4K2R w K - 0 1",
        "4k3/8/8/3n4/8/8/8/4K2R w K - 0 1",
        "4k3/8/8/3b4/8/8/8/4K2R w K - 0 1",
        "4k3/8/8/3r4/8/8/8/4K2R w K - 0 1",
        "4k3/8/8/3q4/8/8/8/4K2R w K - 0 1",
        // the side, a right, a target
        "4k3/8/8/3p4/8/8/8/4K2R b K - 0 1",
        "4k3/8/8/3p4/8/8/8/4K2R w - - 0 1",
        "4k3/8/8/3p4/8/8/8/4K2R w K d6 0 1",
    ];
    for text in &TABLE {
        let other = position_of(&rt, text);
        let found = (position != other, hash != hash_of(&other));
        same(&rt, text, &found, &(true, true));
    }
}

#[test]
fn tells_a_check(rt: HostRuntime) {
    static TABLE: [(&str, bool); 10] = [
        (INITIAL, false),
        (
            "rnb1kbnr/pppp1ppp/8/4p3/6Pq/5P2/PPPPP2P/RNBQKBNR w KQkq - 1 3",
            true,
        ),
        ("4k3/8/8/8/8/5n2/8/4K3 w - - 0 1", true),
        ("4k3/8/8/8/8/8/3p4/4K3 w - - 0 1", true),
        ("4k3/8/8/8/8/3p4/8/4K3 w - - 0 1", false),
        ("4k3/3P4/8/8/8/8/8/4K3 b - - 0 1", true),
        ("4k3/4P3/8/8/8/8/8/4K3 b - - 0 1", false),
        ("4k3/8/8/4r3/8/8/4N3/4K3 w - - 0 1", false),
        ("4k3/8/8/8/1b6/8/3P4/4K3 w - - 0 1", false),
        ("4k3/8/8/8/1b6/8/8/4K3 w - - 0 1", true),
    ];
    for (text, check) in &TABLE {
        same(&rt, text, &position_of(&rt, text).in_check(), check);
    }
}

#[test]
fn refuses_a_faulty_text(rt: HostRuntime) {
    static TABLE: [(&str, FenFault); 19] = [
        ("4k3/8/8/8/8/8/8/4K3 w - - 0 1 x", FenFault::FieldCount),
        ("4k3/8/8/8/8/8/8/4K3  w - - 0 1", FenFault::FieldCount),
        ("", FenFault::FieldCount),
        ("4k3/8/8/8/8/8/8/4K3 w - - 0", FenFault::FieldCount),
        ("4k3/8/8/8/8/8/8/4K3 w - - 0 1 ", FenFault::FieldCount),
        ("7kK/8/8/8/8/8/8/8 w - - 0 1", FenFault::BadPlacement),
        ("44/8/8/8/8/8/8/K1k5 w - - 0 1", FenFault::BadPlacement),
        ("4k3/8/8/8/8/8/8/4K3 W - - 0 1", FenFault::BadSide),
        ("4k3/8/8/8/8/8/8/4K3 w KK - 0 1", FenFault::BadCastling),
        ("4k3/8/8/8/4P3/8/8/4K3 w - e3 0 1", FenFault::BadTarget),
        ("4k3/8/8/8/8/8/8/4K3 w - - x 1", FenFault::BadCounter),
        ("4k3/8/8/8/8/8/8/4K3 w - - 0 10000", FenFault::BadCounter),
        ("8/8/8/8/8/8/8/K7 w - - 0 1", FenFault::BadKings),
        ("P7/8/8/8/8/8/8/K1k5 w - - 0 1", FenFault::PawnOnEndRank),
        (
            "4k3/8/8/8/8/P7/PPPPPPPP/RNBQKBNR w - - 0 1",
            FenFault::TooManyMen,
        ),
        ("4k3/8/8/8/8/8/8/4K3 w K - 0 1", FenFault::RightWithoutMen),
        (
            "4k3/8/8/8/8/8/8/4K3 w - e6 0 1",
            FenFault::TargetWithoutPawn,
        ),
        ("4k3/8/8/8/8/8/8/4RK2 w - - 0 1", FenFault::OpponentInCheck),
        ("8/8/8/8/8/8/8/Kk6 w - - 0 1", FenFault::OpponentInCheck),
    ];
    for (text, fault) in &TABLE {
        same(&rt, text, &read_fen(text.as_bytes()).err(), &Some(*fault));
    }
}

/// Each text has two faults, for each two that can occur together; the earlier one is answered.
#[test]
fn answers_the_first_of_two_faults(rt: HostRuntime) {
    static TABLE: [(&str, FenFault); 58] = [
        ("4k3/8/8/8/8/8/8/4K2 w - - 0 1 x", FenFault::FieldCount),
        ("4k3/8/8/8/8/8/8/4K3 x - - 0 1 x", FenFault::FieldCount),
        ("4k3/8/8/8/8/8/8/4K3 w KK - 0 1 x", FenFault::FieldCount),
        ("4k3/8/8/8/8/8/8/4K3 w - e3 0 1 x", FenFault::FieldCount),
        ("4k3/8/8/8/8/8/8/4K3 w - - x 1 x", FenFault::FieldCount),
        ("8/8/8/8/8/8/8/K7 w - - 0 1 x", FenFault::FieldCount),
        ("P3k3/8/8/8/8/8/8/4K3 w - - 0 1 x", FenFault::FieldCount),
        (
            "4k3/8/8/8/8/P7/PPPPPPPP/RNBQKBNR w - - 0 1 x",
            FenFault::FieldCount,
        ),
        ("4k3/8/8/8/8/8/8/4K3 w K - 0 1 x", FenFault::FieldCount),
        ("4k3/8/8/8/8/8/8/4K3 w - e6 0 1 x", FenFault::FieldCount),
        ("8/8/8/8/8/8/8/Kk6 w - - 0 1 x", FenFault::FieldCount),
        ("4k3/8/8/8/8/8/8/4K2 x - - 0 1", FenFault::BadPlacement),
        ("4k3/8/8/8/8/8/8/4K2 w KK - 0 1", FenFault::BadPlacement),
        ("4k3/8/8/8/8/8/8/4K2 w - e3 0 1", FenFault::BadPlacement),
        ("4k3/8/8/8/8/8/8/4K2 w - - x 1", FenFault::BadPlacement),
        ("4k3/8/8/8/8/8/8/4K3 x KK - 0 1", FenFault::BadSide),
        ("4k3/8/8/8/8/8/8/4K3 x - e4 0 1", FenFault::BadSide),
        ("4k3/8/8/8/8/8/8/4K3 x - - x 1", FenFault::BadSide),
        ("8/8/8/8/8/8/8/K7 x - - 0 1", FenFault::BadSide),
        ("P3k3/8/8/8/8/8/8/4K3 x - - 0 1", FenFault::BadSide),
        (
            "4k3/8/8/8/8/P7/PPPPPPPP/RNBQKBNR x - - 0 1",
            FenFault::BadSide,
        ),
        ("4k3/8/8/8/8/8/8/4K3 x K - 0 1", FenFault::BadSide),
        ("4k3/8/8/8/8/8/8/4K3 x - e6 0 1", FenFault::BadSide),
        ("8/8/8/8/8/8/8/Kk6 x - - 0 1", FenFault::BadSide),
        ("4k3/8/8/8/8/8/8/4K3 w KK e3 0 1", FenFault::BadCastling),
        ("4k3/8/8/8/8/8/8/4K3 w KK - x 1", FenFault::BadCastling),
        ("8/8/8/8/8/8/8/K7 w KK - 0 1", FenFault::BadCastling),
        ("P3k3/8/8/8/8/8/8/4K3 w KK - 0 1", FenFault::BadCastling),
        (
            "4k3/8/8/8/8/P7/PPPPPPPP/RNBQKBNR w KK - 0 1",
            FenFault::BadCastling,
        ),
        ("4k3/8/8/8/8/8/8/4K3 w KK e6 0 1", FenFault::BadCastling),
        ("8/8/8/8/8/8/8/Kk6 w KK - 0 1", FenFault::BadCastling),
        ("4k3/8/8/8/8/8/8/4K3 w - e3 x 1", FenFault::BadTarget),
        ("8/8/8/8/8/8/8/K7 w - e3 0 1", FenFault::BadTarget),
        ("P3k3/8/8/8/8/8/8/4K3 w - e3 0 1", FenFault::BadTarget),
        (
            "4k3/8/8/8/8/P7/PPPPPPPP/RNBQKBNR w - e3 0 1",
            FenFault::BadTarget,
        ),
        ("4k3/8/8/8/8/8/8/4K3 w K e3 0 1", FenFault::BadTarget),
        ("8/8/8/8/8/8/8/Kk6 w - e3 0 1", FenFault::BadTarget),
        ("8/8/8/8/8/8/8/K7 w - - x 1", FenFault::BadCounter),
        ("P3k3/8/8/8/8/8/8/4K3 w - - x 1", FenFault::BadCounter),
        (
            "4k3/8/8/8/8/P7/PPPPPPPP/RNBQKBNR w - - x 1",
            FenFault::BadCounter,
        ),
        ("4k3/8/8/8/8/8/8/4K3 w K - x 1", FenFault::BadCounter),
        ("4k3/8/8/8/8/8/8/4K3 w - e6 x 1", FenFault::BadCounter),
        ("8/8/8/8/8/8/8/Kk6 w - - x 1", FenFault::BadCounter),
        ("P7/8/8/8/8/8/8/4K3 w - - 0 1", FenFault::BadKings),
        (
            "8/8/8/8/8/P7/PPPPPPPP/RNBQKBNR w - - 0 1",
            FenFault::BadKings,
        ),
        ("8/8/8/8/8/8/8/K7 w K - 0 1", FenFault::BadKings),
        ("8/8/8/8/8/8/8/K7 w - e6 0 1", FenFault::BadKings),
        ("4k2k/8/8/8/8/8/8/4RK2 w - - 0 1", FenFault::BadKings),
        (
            "P3k3/8/8/8/8/8/PPPPPPPP/RNBQKBNR w - - 0 1",
            FenFault::PawnOnEndRank,
        ),
        ("P3k3/8/8/8/8/8/8/4K3 w K - 0 1", FenFault::PawnOnEndRank),
        ("P3k3/8/8/8/8/8/8/4K3 w - e6 0 1", FenFault::PawnOnEndRank),
        ("P3k3/8/8/8/8/8/8/4RK2 w - - 0 1", FenFault::PawnOnEndRank),
        (
            "4k3/8/8/8/8/PP6/PPPP1PPP/RNBQRKBN b K - 0 1",
            FenFault::TooManyMen,
        ),
        (
            "4k3/8/8/8/8/P7/PPPPPPPP/RNBQKBNR w - e6 0 1",
            FenFault::TooManyMen,
        ),
        (
            "4k3/8/8/8/8/PP6/PPPP1PPP/RNBQRKBN w - - 0 1",
            FenFault::TooManyMen,
        ),
        ("4k3/8/8/8/8/8/8/4K3 w K e6 0 1", FenFault::RightWithoutMen),
        ("8/8/8/8/8/8/8/Kk6 w K - 0 1", FenFault::RightWithoutMen),
        ("8/8/8/8/8/8/8/Kk6 w - e6 0 1", FenFault::TargetWithoutPawn),
    ];
    for (text, fault) in &TABLE {
        same(&rt, text, &read_fen(text.as_bytes()).err(), &Some(*fault));
    }
}

#[test]
fn names_each_fault(rt: HostRuntime) {
    let alloc = rt.alloc();
    static TABLE: [(FenFault, &str); 12] = [
        (FenFault::FieldCount, "FieldCount"),
        (FenFault::BadPlacement, "BadPlacement"),
        (FenFault::BadSide, "BadSide"),
        (FenFault::BadCastling, "BadCastling"),
        (FenFault::BadTarget, "BadTarget"),
        (FenFault::BadCounter, "BadCounter"),
        (FenFault::BadKings, "BadKings"),
        (FenFault::PawnOnEndRank, "PawnOnEndRank"),
        (FenFault::TooManyMen, "TooManyMen"),
        (FenFault::RightWithoutMen, "RightWithoutMen"),
        (FenFault::TargetWithoutPawn, "TargetWithoutPawn"),
        (FenFault::OpponentInCheck, "OpponentInCheck"),
    ];
    for (fault, name) in &TABLE {
        let printed = fault.to_string(alloc).expect(&rt, name);
        same(
            &rt,
            fault,
            &(fault.code(), printed.as_str()),
            &(*name, *name),
        );
    }
}
