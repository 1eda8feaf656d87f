//! Callers of `chess_views`.

ghost use Rattle.std.specs.Prelude.{◌≡◌, ℕ, Ok, Err, IfNone, IfOk, IfSome, map};
ghost use Rattle.chess_board.specs.Fens.{FenValue};
ghost use Rattle.chess_views.specs.Looks.{reached_text as text_of_reached};
ghost use Rattle.chess_views.specs.Played.{played};

use chess_board::Fen;
use chess_moves::Rays;
use chess_views::{play, reached_text};
use std::alloc::{AllocError, Global};

/// What there is to say of the FEN that words lead to; none where one of them names no legal move.
pub fn said_after(
    alloc: Global,
    rays: &Rays,
    fen: &Fen,
    words: &[&str],
) -> Result<Option<Vec<u8>>, AllocError>
    ensures said { IfOk result (λ said. IfSome said
        (λ text. (v : FenValue) × (played fen.now (map (λ s. s.now) words.now) ≡ Ok v) × (text.items ≡ text_of_reached v))) }
    ensures none { IfOk result (λ said. IfNone said ((number : ℕ) × (played fen.now (map (λ s. s.now) words.now) ≡ Err number))) }
{
    match play(rays, fen, words) {
        Ok(reached) => Ok(Some(reached_text(alloc, rays, &reached)?)),
        Err(_) => Ok(None),
    }
}
