//! The moves that give check.

ghost use Rattle.std.specs.Prelude.{◌≡◌, true};
ghost use Rattle.chess_board.specs.Legality.{is_legal as is_legal_in};
ghost use Rattle.chess_moves.specs.GivesCheck.{gives_check as gives_check_in, checking_moves};
ghost use Rattle.chess_moves.specs.inside.CheckSquares.{AreCheckSquaresOf};

use crate::check_squares::{CheckSquares, attacks_king, check_squares_of, is_told};
use crate::move_generation::{MoveList, legal_moves};
use crate::ray_tables::Rays;
use crate::verdict_of_position::in_check;
use chess_board::{Move, Position, after};

/// Exactly the legal moves after which the side then to move is in check, each once, in the order of moves.
#[tactic(auto, unfolding(crate::specs::GivesCheck::checking_moves), using(crate::proofs::Listed::all_legal))]
pub fn checks(rays: &Rays, position: &Position) -> MoveList
    ensures { result.items ≡ checking_moves position.now }
{
    let check_squares = check_squares_of(rays, position);
    let mut list = MoveList::new();
    for m in legal_moves(rays, position) {
        if gives_check(rays, position, &check_squares, m) {
            list.push(m);
        }
    }
    list
}

/// Whether a legal move gives check. It is made only where the check squares do not tell.
fn gives_check(rays: &Rays, position: &Position, check_squares: &CheckSquares, m: Move) -> bool
    requires check_squares { AreCheckSquaresOf check_squares.now position.now }
    requires legal { is_legal_in position.now m ≡ true }
    ensures { result ≡ gives_check_in position.now m }
{
    let Some(man) = position.man(m.origin) else {
        return false;
    };
    if is_told(position, check_squares, man, m) {
        return attacks_king(check_squares, man.kind, m.target.index() as u8);
    }
    in_check(rays, &after(position, m))
}
