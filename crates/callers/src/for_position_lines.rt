//! A caller of `position_lines`.

ghost use Rattle.std.specs.Prelude.{◌≡◌, ℕ, IfOk};
ghost use Rattle.text_lines.specs.Replies.{IsReply};
ghost use Rattle.chess_views.specs.Looks.{look_text};
ghost use Rattle.position_lines.specs.PositionReplies.{IsPositionReply};

use byte_streams::Stop;
use chess_board::Fen;
use chess_views::look_text;
use position_lines::{FenView, answer_positions};
use std::alloc::{AllocError, Global};

/// Shows of a FEN what `look` does.
#[derive(Clone, Copy)]
struct Look;

impl FenView for Look {
    ghost use Rattle.chess_views.specs.Looks.{look_text};

    ghost shown = { λ _. look_text };

    fn text(&self, alloc: Global, fen: &Fen) -> Result<Vec<u8>, AllocError> {
        look_text(alloc, fen)
    }
}

/// What `look` shows of each line of an input, or its fault.
pub fn looks(alloc: Global, input: &[u8]) -> Result<Vec<u8>, Stop>
    ensures { IfOk result (λ text. (refused : ℕ) × IsReply (IsPositionReply look_text) input.now text.items refused) }
{
    let mut text = Vec::new(alloc);
    answer_positions(alloc, &Look, input, &mut text)?;
    Ok(text)
}
