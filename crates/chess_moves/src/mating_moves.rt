//! The moves that mate.

ghost use Rattle.std.specs.Prelude.{◌≡◌, ◌+◌, ◌<◌, ◌≤◌, ◌++◌, [], true, false, IfSome, length};
ghost use Rattle.square_sets.specs.Members.{has};
ghost use Rattle.arrayvec.specs.ArrayVec.{array_vec_len};
ghost use Rattle.chess_board.specs.MakeMove.{after_setup};
ghost use Rattle.chess_board.specs.Legality.{is_legal};
ghost use Rattle.chess_board.specs.Moves.{Move as MoveValue};
ghost use Rattle.chess_moves.specs.inside.CheckSquares.{AreCheckSquaresOf};
ghost use Rattle.chess_moves.specs.inside.Flights.{AreFlightsOf, AreLastingOf};
ghost use Rattle.chess_moves.specs.inside.MateInOne.{mates_of};
ghost use Rattle.chess_moves.specs.Verdicts.{is_mate, mating_moves};
ghost use Rattle.chess_moves.specs.inside.LegalityInfo.{IsLegalityInfo};
ghost use Rattle.chess_moves.specs.inside.Movers.{IsMoverOf};

use crate::check_squares::{CheckSquares, check_squares_of};
use crate::discovered_checks::check_targets;
use crate::flights::{
    Flights, flights_once, lasting_flights_of, squares_at_lasting, squares_that_cover,
};
use crate::legal_targets::targets_from;
use crate::legality_info::{LegalityInfo, bare_info_of};
use crate::mating_men::mating_men;
use crate::move_generation::{ManMoves, MoveList};
use crate::movers::{Mover, mover_on};
use crate::pseudo_legal_targets::pseudo_legal_targets;
use crate::ray_tables::Rays;
use crate::verdict_of_position::is_mated;
use chess_board::{Kind, Position, after};

/// Lists exactly the legal moves that mate (FIDE Laws of Chess, article 5.1.1), each once, in the order of moves. Of the others only those
/// that give check, or may, are made. The list is written where there is room for it: one that is handed back is copied.
pub fn push_mating_moves(rays: &Rays, position: &Position, out: &mut MoveList)
    requires { out.old.items ≡ [] }
    ensures { out.new.items ≡ mating_moves position.now }
{
    let info = bare_info_of(rays, position);
    let check_squares = check_squares_of(rays, position);
    let lasting = lasting_flights_of(&info);
    let mut flights = None;
    for origin in square_sets::squares(mating_men(&info, &check_squares, lasting) & info.own) {
        let mover = mover_on(info.position, origin);
        push_mates_of(&info, &check_squares, lasting, &mut flights, mover, out);
    }
}

/// Appends the legal moves of a man that mate. Where it goes to no square from which it may give check, or attacks the lasting flights,
/// nothing else is asked.
#[inline(always)]
fn push_mates_of(
    info: &LegalityInfo,
    check_squares: &CheckSquares,
    lasting: Flights,
    flights: &mut Option<Flights>,
    mover: Mover,
    out: &mut MoveList,
)
    requires info { IsLegalityInfo info.now }
    requires check_squares { AreCheckSquaresOf check_squares.now info.now.position.now }
    requires lasting { AreLastingOf lasting info.now.position.now }
    requires flights { IfSome flights.old (λ f. AreFlightsOf f info.now.position.now) }
    requires mover { IsMoverOf mover info.now.position.now }
    requires room { array_vec_len out.old + length (mates_of info.now.position.now mover.origin) ≤ 1024 }
    ensures mates { out.new.items ≡ out.old.items ++ mates_of info.now.position.now mover.origin }
    ensures flights { IfSome flights.new (λ f. AreFlightsOf f info.now.position.now) }
{
    let covering = squares_at_lasting(info, lasting, mover) & pseudo_legal_targets(info, mover);
    if covering == 0 {
        return;
    }
    let candidates = covering & check_targets(info, check_squares, mover);
    if candidates == 0 {
        return;
    }
    push_mates_on(info, flights, mover, candidates, out);
}

/// Appends the legal moves of a man to these squares that mate, where none to another does.
fn push_mates_on(
    info: &LegalityInfo,
    flights: &mut Option<Flights>,
    mover: Mover,
    candidates: u64,
    out: &mut MoveList,
)
    requires info { IsLegalityInfo info.now }
    requires flights { IfSome flights.old (λ f. AreFlightsOf f info.now.position.now) }
    requires mover { IsMoverOf mover info.now.position.now }
    requires candidates { (m : MoveValue) → is_legal info.now.position.now m ≡ true → m.origin ≡ mover.origin → m.target < 64
        → has candidates m.target ≡ false → is_mate (after_setup info.now.position.now m) ≡ false }
    requires room { array_vec_len out.old + length (mates_of info.now.position.now mover.origin) ≤ 1024 }
    ensures mates { out.new.items ≡ out.old.items ++ mates_of info.now.position.now mover.origin }
    ensures flights { IfSome flights.new (λ f. AreFlightsOf f info.now.position.now) }
{
    let known = flights_once(info, flights);
    let squares = squares_that_cover(info, known, mover, candidates);
    if squares == 0 {
        return;
    }
    let targets = squares & targets_from(info, mover);
    let mut left = ManMoves {
        mover,
        targets,
        promotion: Kind::Knight,
    };
    while left.targets != 0 {
        let m = left.take();
        if is_mated(info.rays, &after(info.position, m)) {
            out.push(m);
        }
    }
}
