//! Whether a line says itself within how many moves mate is asked for.

ghost use Rattle.std.specs.Prelude.{◌≡◌};
ghost use Rattle.chess_notation.specs.SaidBounds.{is_bound as is_bound_opcode, says_bound as does_say_bound};

use crate::record_fields::operations_in;
use crate::segments::first_segment;
use crate::words::word_at;

/// Whether an opcode is `dm`.
fn is_bound(opcode: &[u8]) -> bool
    ensures { result ≡ is_bound_opcode opcode.now }
{
    matches!(opcode, [b'd', b'm'])
}

/// Whether a line has the operation `dm` (PGN Specification, section 16.2.5), so that the bound of the record that it says is no default.
#[tactic(auto, unfolding(crate::specs::SaidBounds::says_bound, crate::specs::SaidBounds::says_bound_in, crate::specs::RecordFields::cut_of))]
pub fn says_bound(line: &[u8]) -> bool
    ensures { result ≡ does_say_bound line.now }
{
    let mut rest = operations_in(line);
    while let Some((segment, back)) = first_segment(rest) {
        if is_bound(word_at(segment).0) {
            return true;
        }
        rest = back;
    }
    false
}
