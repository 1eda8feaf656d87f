//! A word that names a move, read.

ghost use Rattle.std.specs.Prelude.{◌≡◌, IfSome, true};
ghost use Rattle.chess_board.specs.Legality.{is_legal};
ghost use Rattle.chess_notation.specs.MoveReading.{tells as does_tell, move_named};

use crate::avoid_moves::without_suffix;
use crate::opcodes::is_same_text;
use crate::san_text::bare;
use chess_board::{Move, Position};
use chess_moves::{Rays, legal, legal_listed};

/// Whether a word tells a move.
fn tells(rays: &Rays, position: &Position, word: &[u8], m: Move) -> bool
    ensures { result ≡ does_tell position.now word.now m }
{
    let san = bare(rays, position, m);
    let coordinates = m.text();
    is_same_text(without_suffix(word), san.as_str().as_bytes())
        || is_same_text(word, coordinates.as_str().as_bytes())
}

/// The legal move that a word names, or none where it names none: by SAN (PGN Specification, section 8.2.3), with one `+` or `#` at its
/// end or without, be it right or wrong, or by coordinates as UCI writes them: `g2h1`, `a7a8q`, castling as `e1g1`.
///
/// No word names two moves (`tells_one`), and each text of a legal move names it (`texts_read`).
#[tactic(auto, unfolding(crate::specs::MoveReading::move_named), using(crate::proofs::ToldMoves::find_here, crate::proofs::ToldMoves::find_none_more))]
pub fn read_move(rays: &Rays, position: &Position, word: &[u8]) -> Option<Move>
    ensures named { result ≡ move_named position.now word.now }
    ensures legal { IfSome result (λ m. is_legal position.now m ≡ true) }
{
    let moves = legal(rays, position);
    // That each of them is legal by itself.
    legal_listed();
    for m in moves.as_slice() {
        if tells(rays, position, word, *m) {
            return Some(*m);
        }
    }
    None
}
