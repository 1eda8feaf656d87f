//! Callers of `uci_commands`.

ghost use Rattle.std.specs.Prelude.{◌≡◌, IfOk, map};
ghost use Rattle.uci_commands.specs.PositionCommands.{Leads};

use chess_board::Fen;
use chess_moves::Rays;
use std::alloc::Global;
use uci_commands::{PositionFault, place};

/// What the words behind `position` lead to, where the position before is no matter.
pub fn reached(
    alloc: Global,
    rays: &Rays,
    before: &Fen,
    words: &[&str],
) -> Result<Fen, PositionFault>
    ensures { IfOk result (λ fen. Leads (map (λ s. s.now) words.now) fen) }
{
    let mut fen = *before;
    place(alloc, rays, words, &mut fen)?;
    Ok(fen)
}
