//! A caller of `problem_sheets`.

ghost use Rattle.std.specs.Prelude.{◌≡◌, IfOk, IfSome};
ghost use Rattle.chess_board.specs.Fens.{FenValue, Spells};
ghost use Rattle.problem_sheets.specs.Diagrams.{svg_of};

use chess_board::{Colour, read_fen};
use problem_sheets::svg_text;
use std::alloc::{AllocError, Global};

/// The diagram of a FEN, if it is one, as a side sees the board.
pub fn drawn(alloc: Global, fen: &[u8], from: Colour) -> Result<Option<Vec<u8>>, AllocError>
    ensures { IfOk result (λ drawn. IfSome drawn (λ text. (v : FenValue) × Spells fen.now v × (text.items ≡ svg_of from v))) }
{
    match read_fen(fen) {
        Ok(fen) => Ok(Some(svg_text(alloc, &fen.position, from)?)),
        Err(_) => Ok(None),
    }
}
