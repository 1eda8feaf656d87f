//! The first word of the line of play, `pv`, of a line.

ghost use Rattle.std.specs.Prelude.{◌≡◌};
ghost use Rattle.mate_claims.specs.PlayWords.{is_play as is_play_opcode, play_word as play_word_of};

use chess_notation::{first_segment, operations_in, word_at};

/// Whether an opcode is `pv`.
fn is_play(opcode: &[u8]) -> bool
    ensures { result ≡ is_play_opcode opcode.now }
{
    match opcode {
        [b'p', b'v'] => true,
        _ => false,
    }
}

/// The first word behind `pv`, or nothing.
#[tactic(auto, unfolding(crate::specs::PlayWords::play_word, crate::specs::PlayWords::play_word_in, chess_notation::specs::RecordFields::cut_of))]
pub(crate) fn play_word(line: &[u8]) -> &[u8]
    ensures { result.now ≡ play_word_of line.now }
{
    let mut rest = operations_in(line);
    while let Some((segment, back)) = first_segment(rest) {
        let (opcode, operands) = word_at(segment);
        if is_play(opcode) {
            return word_at(operands).0;
        }
        rest = back;
    }
    &[]
}
