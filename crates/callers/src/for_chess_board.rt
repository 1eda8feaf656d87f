//! Callers of `chess_board`.

ghost use Rattle.std.specs.Prelude.{◌≡◌, IfErr, IfOk};
ghost use Rattle.chess_board.specs.Attacks.{is_in_check};
ghost use Rattle.chess_board.specs.Fens.{FenValue, IsFault, Spells};

use chess_board::{FenFault, read_fen};

/// Whether the side to move is in check, in the position that a FEN spells.
pub fn is_check(text: &[u8]) -> Result<bool, FenFault>
    ensures told { IfOk result (λ found. (f : FenValue) × Spells text.now f × (found ≡ is_in_check f.position.men f.position.side)) }
    ensures refused { IfErr result (λ fault. IsFault text.now fault) }
{
    let fen = read_fen(text)?;
    Ok(fen.position.in_check())
}
