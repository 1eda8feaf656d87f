//! The men of whom a legal move may mate, kind by kind: of the others nothing is asked.

ghost use Rattle.std.specs.Prelude.{◌≡◌, ◌<◌, ℕ, ◌==◌, true, false, Some};
ghost use Rattle.square_sets.specs.Members.{has};
ghost use Rattle.chess_board.specs.declared.men.Kind.TheVariants as kind;
ghost use Rattle.chess_board.specs.declared.men.Man.{Man as ManValue};
ghost use Rattle.chess_board.specs.Squares.{rank_of};
ghost use Rattle.chess_board.specs.MakeMove.{after_setup};
ghost use Rattle.chess_board.specs.Legality.{is_legal};
ghost use Rattle.chess_board.specs.Moves.{Move as MoveValue};
ghost use Rattle.chess_board.specs.Positions.{man_at};
ghost use Rattle.chess_moves.specs.inside.CheckSquares.{AreCheckSquaresOf, is_special as is_special_move};
ghost use Rattle.chess_moves.specs.inside.Flights.{AreLastingOf};
ghost use Rattle.chess_moves.specs.inside.LegalityInfo.{IsLegalityInfo};
ghost use Rattle.chess_moves.specs.inside.Shifts.{rank_before};
ghost use Rattle.chess_moves.specs.Verdicts.{is_mate};

use crate::castling_targets::castling_goals;
use crate::check_squares::{CheckSquares, squares_of};
use crate::flights::{Flights, squares_on_lasting};
use crate::legality_info::LegalityInfo;
use chess_board::{Colour, Kind};

/// The men of the side to move of whom a legal move may mate: one of the kind attacks the other king and each of its lasting flights from
/// somewhere, or the man may open a line to that king, or make a special move.
pub(crate) fn mating_men(info: &LegalityInfo, check_squares: &CheckSquares, lasting: Flights) -> u64
    requires info { IsLegalityInfo info.now }
    requires check_squares { AreCheckSquaresOf check_squares.now info.now.position.now }
    requires lasting { AreLastingOf lasting info.now.position.now }
    ensures { (m : MoveValue) → is_legal info.now.position.now m ≡ true → m.origin < 64 → m.target < 64 → has result m.origin ≡ false
        → is_mate (after_setup info.now.position.now m) ≡ false }
{
    let pawns = special_pawns(info) | men_that_cover(info, check_squares, lasting, Kind::Pawn);
    let knights = men_that_cover(info, check_squares, lasting, Kind::Knight);
    let bishops = men_that_cover(info, check_squares, lasting, Kind::Bishop);
    let rooks = men_that_cover(info, check_squares, lasting, Kind::Rook);
    let queens = men_that_cover(info, check_squares, lasting, Kind::Queen);
    let king = castling_king(info) | men_that_cover(info, check_squares, lasting, Kind::King);
    pawns | knights | bishops | rooks | queens | king
}

/// The pawns of whom a legal move may be special: those before their last rank, and all where one may be captured en passant.
fn special_pawns(info: &LegalityInfo) -> u64
    requires { IsLegalityInfo info.now }
    ensures { (m : MoveValue) (man : ManValue) → is_legal info.now.position.now m ≡ true → man_at info.now.position.now.men m.origin ≡ Some man
        → man.kind ≡ kind.Pawn → m.origin < 64 → has result m.origin ≡ false → is_special_move info.now.position.now man m ≡ false }
{
    let pawns = info.position.men(info.side, Kind::Pawn);
    match info.position.ep_target() {
        Some(_) => pawns,
        None => pawns & rank_before_last(info.side),
    }
}

/// The king, where it stands so that it might castle.
fn castling_king(info: &LegalityInfo) -> u64
    requires { IsLegalityInfo info.now }
    ensures { (m : MoveValue) (man : ManValue) → is_legal info.now.position.now m ≡ true → man_at info.now.position.now.men m.origin ≡ Some man
        → man.kind ≡ kind.King → m.origin < 64 → m.target < 64 → has result m.origin ≡ false
        → is_special_move info.now.position.now man m ≡ false }
{
    if castling_goals(info) == 0 {
        return 0;
    }
    info.position.men(info.side, Kind::King)
}

/// The rank from which a colour's pawns go to their last.
pub(crate) fn rank_before_last(colour: Colour) -> u64
    ensures { (s : ℕ) → s < 64 → has result s ≡ (rank_of s == rank_before colour) }
{
    match colour {
        Colour::White => 0x00ff_0000_0000_0000,
        Colour::Black => 0xff00,
    }
}

/// The men of a kind of whom a legal move may mate that is not special.
#[inline(always)]
fn men_that_cover(
    info: &LegalityInfo,
    check_squares: &CheckSquares,
    lasting: Flights,
    kind: Kind,
) -> u64
    requires info { IsLegalityInfo info.now }
    requires check_squares { AreCheckSquaresOf check_squares.now info.now.position.now }
    requires lasting { AreLastingOf lasting info.now.position.now }
    ensures { (m : MoveValue) (man : ManValue) → is_legal info.now.position.now m ≡ true → man_at info.now.position.now.men m.origin ≡ Some man
        → man.kind ≡ kind → is_special_move info.now.position.now man m ≡ false → m.origin < 64 → m.target < 64
        → has result m.origin ≡ false → is_mate (after_setup info.now.position.now m) ≡ false }
{
    let men = info.position.men(info.side, kind);
    if men == 0 {
        return 0;
    }
    let covering = squares_on_lasting(info, lasting, kind);
    if covering & squares_of(check_squares, kind) != 0 {
        return men;
    }
    if covering == 0 {
        return 0;
    }
    men & check_squares.queen
}
