//! Castling: where king and rook stand before and after it, and how a right to it is lost (FIDE Laws of Chess, article 3.8).

ghost use Rattle.std.specs.Prelude.{◌≡◌, ◌||◌};
ghost use Rattle.chess_board.specs.inside.Homes.{is_home};
ghost use Rattle.chess_board.specs.Castling.{king_home, rook_home, king_goal, is_castling, wing_of, castled, touches, right_after, rights_after};

use crate::boards::Board;
use crate::men::{Colour, Kind, Man, Rights, Wing};
use crate::moves::Move;
use crate::squares::{Square, crossed, file_gap_of};

/// Where the king stands before it castles: e1 or e8 (FIDE Laws of Chess, article 2.3).
pub fn king_home(colour: Colour) -> Square
    ensures { result ≡ king_home colour }
{
    match colour {
        Colour::White => Square::numbered(4),
        Colour::Black => Square::numbered(60),
    }
}

/// Where the rook stands before it castles: h1, a1, h8 or a8 (FIDE Laws of Chess, article 2.3).
pub fn rook_home(colour: Colour, wing: Wing) -> Square
    ensures { result ≡ rook_home colour wing }
{
    match (colour, wing) {
        (Colour::White, Wing::KingSide) => Square::numbered(7),
        (Colour::White, Wing::QueenSide) => Square::numbered(0),
        (Colour::Black, Wing::KingSide) => Square::numbered(63),
        (Colour::Black, Wing::QueenSide) => Square::numbered(56),
    }
}

/// Where the king goes that castles: g1, c1, g8 or c8 (FIDE Laws of Chess, article 3.8.2).
pub fn king_goal(colour: Colour, wing: Wing) -> Square
    ensures { result ≡ king_goal colour wing }
{
    match (colour, wing) {
        (Colour::White, Wing::KingSide) => Square::numbered(6),
        (Colour::White, Wing::QueenSide) => Square::numbered(2),
        (Colour::Black, Wing::KingSide) => Square::numbered(62),
        (Colour::Black, Wing::QueenSide) => Square::numbered(58),
    }
}

/// Whether a move is castling: its king goes two files (FIDE Laws of Chess, article 3.8.2). Of a legal move no other king does so.
pub fn is_castling(man: Man, m: Move) -> bool
    ensures { result ≡ is_castling man m }
{
    man.kind == Kind::King && file_gap_of(m.origin, m.target) == 2
}

/// The wing towards which a king goes from one square to another of its rank.
pub fn wing_of(a: Square, b: Square) -> Wing
    ensures { result ≡ wing_of a b }
{
    if a < b {
        Wing::KingSide
    } else {
        Wing::QueenSide
    }
}

/// The men once the rook of a castling king went to the square that the king has crossed.
pub(crate) fn castled(men: &Board, colour: Colour, a: Square, b: Square) -> Board
    ensures { result ≡ castled men.now colour a b }
{
    let rook = Man {
        colour,
        kind: Kind::Rook,
    };
    men.moved(rook_home(colour, wing_of(a, b)), crossed(a, b), rook)
}

/// Whether a move leaves the square or reaches it.
fn touches(m: Move, square: Square) -> bool
    ensures { result ≡ touches m square }
{
    m.origin == square || m.target == square
}

/// Whether a right is left after a move: it is lost when its king or its rook moves or its rook is captured.
fn right_after(rights: Rights, m: Move, colour: Colour, wing: Wing) -> bool
    ensures { result ≡ right_after rights m colour wing }
{
    rights.has(colour, wing)
        && !touches(m, king_home(colour))
        && !touches(m, rook_home(colour, wing))
}

/// Whether a king or a rook stands on the square before it castles.
fn is_home(square: Square) -> bool
    ensures { result ≡ is_home square }
{
    matches!(square.index(), 0 | 4 | 7 | 56 | 60 | 63)
}

/// Whether a move leaves or reaches such a square.
fn touches_home(m: Move) -> bool
    ensures { result ≡ (is_home m.origin || is_home m.target) }
{
    is_home(m.origin) || is_home(m.target)
}

/// The castling rights that are left after a move. Most moves touch no home square, and no right is lost then.
#[tactic(auto, using(crate::proofs::AfterRights::rights_kept_away))]
pub(crate) fn rights_after(rights: Rights, m: Move) -> Rights
    ensures { result ≡ rights_after rights m }
{
    if touches_home(m) {
        Rights {
            white_king_side: right_after(rights, m, Colour::White, Wing::KingSide),
            white_queen_side: right_after(rights, m, Colour::White, Wing::QueenSide),
            black_king_side: right_after(rights, m, Colour::Black, Wing::KingSide),
            black_queen_side: right_after(rights, m, Colour::Black, Wing::QueenSide),
        }
    } else {
        rights
    }
}
