//! Figurines: men as they are drawn.

use chess_board::Kind;

/// The kind of man that a sign shows.
pub(crate) fn figurine(c: char) -> Option<Kind> {
    match c {
        '♔' | '♚' => Some(Kind::King),
        '♕' | '♛' => Some(Kind::Queen),
        '♖' | '♜' => Some(Kind::Rook),
        '♗' | '♝' => Some(Kind::Bishop),
        '♘' | '♞' => Some(Kind::Knight),
        '♙' | '♟' => Some(Kind::Pawn),
        _ => None,
    }
}
