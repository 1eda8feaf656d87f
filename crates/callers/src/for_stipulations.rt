//! A caller of `stipulations`.

ghost use Rattle.std.specs.Prelude.{◌≡◌, ◌↔◌, true};
ghost use Rattle.stipulations.specs.Stipulations.{asked};
ghost use Rattle.stipulations.specs.declared.asked.Asked.{Asked as AskedValue};

use stipulations::{Asked, moves_asked};

/// Whether a text asks for a mate in two moves, and for no other.
pub fn is_two_mover(text: &[u8]) -> bool
    ensures { (result ≡ true) ↔ (asked text.now ≡ AskedValue.Moves 2) }
{
    match moves_asked(text) {
        Asked::Moves(moves) => moves == 2,
        Asked::Nothing | Asked::Two | Asked::Unknown => false,
    }
}
