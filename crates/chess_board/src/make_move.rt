//! A move made: the men, the castling rights and the en passant target afterwards.

ghost use Rattle.std.specs.Prelude.{◌≡◌, true};
ghost use Rattle.chess_board.specs.MakeMove.{becomes, men_after, after_setup};
ghost use Rattle.chess_board.specs.Legality.{is_legal};

use crate::boards::Board;
use crate::castling::{castled, is_castling, rights_after};
use crate::en_passant::{captured_pawn, is_en_passant, target_after};
use crate::men::{Kind, Man};
use crate::moves::Move;
use crate::positions::Position;
use crate::setups::Setup;

/// What a man is after its move.
fn becomes(man: Man, promotion: Option<Kind>) -> Man
    ensures { result ≡ becomes man promotion }
{
    match promotion {
        Some(kind) => Man {
            colour: man.colour,
            kind,
        },
        None => man,
    }
}

/// The men after a man's move.
fn men_after(position: &Position, man: Man, m: Move) -> Board
    ensures { result ≡ men_after position.now man m }
{
    let men = position.board();
    if is_en_passant(position, man, m) {
        men.moved(m.origin, m.target, man)
            .without(captured_pawn(m.origin, m.target))
    } else if is_castling(man, m) {
        let stepped = men.moved(m.origin, m.target, man);
        castled(&stepped, man.colour, m.origin, m.target)
    } else {
        men.moved(m.origin, m.target, becomes(man, m.promotion))
    }
}

/// The position after a legal move (FIDE Laws of Chess, articles 3.1 to 3.8): its men, the other side to move, the castling
/// rights that are left, and the square that a double step has passed over.
///
/// A legal move of a sound position leaves a sound one, so there is nothing to refuse.
// A position that is returned through memory in parts costs its reader a stall.
#[inline(always)]
pub fn after(position: &Position, chosen: Move) -> Position
    requires { is_legal position.now chosen ≡ true }
    ensures { result ≡ after_setup position.now chosen }
{
    match position.man(chosen.origin) {
        Some(man) => Position::new(&Setup {
            board: men_after(position, man, chosen),
            side: position.side().other(),
            rights: rights_after(position.rights(), chosen),
            target: target_after(man, chosen),
        }),
        None => unreachable!(),
    }
}
