//! Mate in one: whether a legal move mates.

ghost use Rattle.std.specs.Prelude.{◌≡◌, ◌<◌, true, false, IfSome};
ghost use Rattle.square_sets.specs.Members.{has};
ghost use Rattle.chess_board.specs.MakeMove.{after_setup};
ghost use Rattle.chess_board.specs.Legality.{is_legal};
ghost use Rattle.chess_board.specs.Moves.{Move as MoveValue};
ghost use Rattle.chess_moves.specs.inside.Flights.{AreFlightsOf, AreLastingOf};
ghost use Rattle.chess_moves.specs.inside.CheckSquares.{AreCheckSquaresOf};
ghost use Rattle.chess_moves.specs.inside.MateInOne.{mates_from};
ghost use Rattle.chess_moves.specs.Verdicts.{is_mate, has_mating_move as some_move_mates};
ghost use Rattle.chess_moves.specs.inside.LegalityInfo.{IsLegalityInfo};
ghost use Rattle.chess_moves.specs.inside.Movers.{IsMoverOf};

use crate::check_squares::{CheckSquares, check_squares_of};
use crate::discovered_checks::check_targets;
use crate::flights::{
    Flights, flights_once, lasting_flights_of, squares_at_lasting, squares_that_cover,
};
use crate::legal_targets::targets_from;
use crate::legality_info::{LegalityInfo, bare_info_of};
use crate::mating_men::mating_men;
use crate::move_generation::ManMoves;
use crate::movers::{Mover, mover_on};
use crate::pseudo_legal_targets::pseudo_legal_targets;
use crate::ray_tables::Rays;
use crate::verdict_of_position::is_mated;
use chess_board::{Kind, Position, after};

/// Whether some legal move mates (FIDE Laws of Chess, article 5.1.1): the last move of a search. Of the moves only those that give
/// check, or may, are made.
pub fn has_mating_move(rays: &Rays, position: &Position) -> bool
    ensures { result ≡ some_move_mates position.now }
{
    // Few men are left of whom it is asked whether they may go, and each is asked by itself.
    let info = bare_info_of(rays, position);
    let check_squares = check_squares_of(rays, position);
    let lasting = lasting_flights_of(&info);
    let mut flights = None;
    for origin in square_sets::squares(mating_men(&info, &check_squares, lasting) & info.own) {
        let mover = mover_on(info.position, origin);
        if man_mates(&info, &check_squares, lasting, &mut flights, mover) {
            return true;
        }
    }
    false
}

/// Whether a legal move of a man of the side to move mates. Where it goes to no square from which it may give check, or attacks the lasting
/// flights, nothing else is asked.
#[inline(always)]
fn man_mates(
    info: &LegalityInfo,
    check_squares: &CheckSquares,
    lasting: Flights,
    flights: &mut Option<Flights>,
    mover: Mover,
) -> bool
    requires info { IsLegalityInfo info.now }
    requires check_squares { AreCheckSquaresOf check_squares.now info.now.position.now }
    requires lasting { AreLastingOf lasting info.now.position.now }
    requires flights { IfSome flights.old (λ f. AreFlightsOf f info.now.position.now) }
    requires mover { IsMoverOf mover info.now.position.now }
    ensures mates { result ≡ mates_from info.now.position.now mover.origin }
    ensures flights { IfSome flights.new (λ f. AreFlightsOf f info.now.position.now) }
{
    let covering = squares_at_lasting(info, lasting, mover) & pseudo_legal_targets(info, mover);
    if covering == 0 {
        return false;
    }
    let candidates = covering & check_targets(info, check_squares, mover);
    if candidates == 0 {
        return false;
    }
    mates_on(info, flights, mover, candidates)
}

/// Whether a legal move of a man to one of these squares mates, where none to another does. Where it goes to none from which it may
/// cover the flights of the other king, its king's safety is not asked about.
fn mates_on(
    info: &LegalityInfo,
    flights: &mut Option<Flights>,
    mover: Mover,
    candidates: u64,
) -> bool
    requires info { IsLegalityInfo info.now }
    requires flights { IfSome flights.old (λ f. AreFlightsOf f info.now.position.now) }
    requires mover { IsMoverOf mover info.now.position.now }
    requires candidates { (m : MoveValue) → is_legal info.now.position.now m ≡ true → m.origin ≡ mover.origin → m.target < 64
        → has candidates m.target ≡ false → is_mate (after_setup info.now.position.now m) ≡ false }
    ensures mates { result ≡ mates_from info.now.position.now mover.origin }
    ensures flights { IfSome flights.new (λ f. AreFlightsOf f info.now.position.now) }
{
    let known = flights_once(info, flights);
    let squares = squares_that_cover(info, known, mover, candidates);
    if squares == 0 {
        return false;
    }
    let targets = squares & targets_from(info, mover);
    let mut left = ManMoves {
        mover,
        targets,
        promotion: Kind::Knight,
    };
    while left.targets != 0 {
        let m = left.take();
        if is_mated(info.rays, &after(info.position, m)) {
            return true;
        }
    }
    false
}
