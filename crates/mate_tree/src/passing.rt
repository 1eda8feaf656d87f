//! A side that passes.

ghost use Rattle.std.specs.Prelude.{◌≡◌};
ghost use Rattle.chess_board.specs.Fields.{side_text};
ghost use Rattle.chess_board.specs.Men.{other_side};
ghost use Rattle.mate_tree.specs.Passing.{passed};

use chess_board::{Colour, Position, cut_at, printed_spells, read_fields};

/// The letter of the other side.
fn other_letter(side: Colour) -> &'static [u8]
    ensures { result.now ≡ side_text (other_side side) }
{
    match side {
        Colour::White => b"b",
        Colour::Black => b"w",
    }
}

/// The position once the side to move has passed; none where it is in check. It is read from the fields of a FEN, with the other side to
/// move and without a square to capture en passant on.
#[tactic(auto, unfolding(crate::specs::Passing::passed))]
pub fn passed(position: &Position) -> Option<Position>
    ensures { result ≡ passed position.now }
{
    if position.in_check() {
        return None;
    }
    // That what is printed of a position spells it is this law.
    printed_spells();
    let text = position.text();
    let (placement, rest) = cut_at(text.as_str().as_bytes(), b' ')?;
    let (_, rest) = cut_at(rest, b' ')?;
    let (castling, _) = cut_at(rest, b' ')?;
    match read_fields(placement, other_letter(position.side()), castling, b"-") {
        Ok(other) => Some(other),
        Err(_) => None,
    }
}
