//! The flights of the king of the side that is not to move: a move that leaves one of them does not mate.

ghost use Rattle.std.specs.Prelude.{◌≡◌, ℕ, ◌<◌, Bool, true, false, Some, IfSome};
ghost use Rattle.square_sets.specs.Members.{has};
ghost use Rattle.chess_board.specs.MakeMove.{after_setup};
ghost use Rattle.chess_board.specs.Legality.{is_legal};
ghost use Rattle.chess_board.specs.Moves.{Move as MoveValue};
ghost use Rattle.chess_board.specs.declared.men.Man.{Man as ManValue};
ghost use Rattle.chess_board.specs.Positions.{man_at};
ghost use Rattle.chess_moves.specs.inside.CheckSquares.{is_special as is_special_move};
ghost use Rattle.chess_moves.specs.inside.EscapeSquares.{Misses};
ghost use Rattle.chess_moves.specs.inside.Flights.{AreFlightsOf, AreLastingOf, leaves_flight};
ghost use Rattle.chess_moves.specs.inside.Hits.{hits_as};
ghost use Rattle.chess_moves.specs.Verdicts.{is_mate};
ghost use Rattle.chess_moves.specs.inside.LegalityInfo.{IsLegalityInfo};
ghost use Rattle.chess_moves.specs.inside.Movers.{IsMoverOf};

use crate::attacked_sets::{attacked_squares, squares_in_line};
use crate::attackers::is_hit_over;
use crate::check_squares::special_squares;
use crate::directions::Leap;
use crate::legality_info::LegalityInfo;
use crate::movers::Mover;
use crate::ray_tables::Rays;
use crate::side_men::{side_men_of, without};
use chess_board::{Colour, Kind, sound_after};

/// The king of the side that is not to move, and its flights: the squares beside it that hold none of its own men and that nobody
/// attacks once it is lifted off the board.
#[derive(Clone, Copy)]
pub(crate) struct Flights {
    pub king: u8,
    pub squares: u64,
}

/// The flights of a position, found at the first question about them.
#[inline(always)]
pub(crate) fn flights_once(info: &LegalityInfo, found: &mut Option<Flights>) -> Flights
    requires info { IsLegalityInfo info.now }
    requires found { IfSome found.old (λ f. AreFlightsOf f info.now.position.now) }
    ensures flights { AreFlightsOf result info.now.position.now }
    ensures found { IfSome found.new (λ f. AreFlightsOf f info.now.position.now) }
{
    match *found {
        Some(flights) => flights,
        None => {
            let flights = flights_of(info);
            *found = Some(flights);
            flights
        }
    }
}

/// The flights of a position.
fn flights_of(info: &LegalityInfo) -> Flights
    requires info { IsLegalityInfo info.now }
    ensures { AreFlightsOf result info.now.position.now }
{
    let side = info.side;
    let king = info.position.king(side.other()).index() as u8;
    let lifted = square_sets::without(info.occupied, king);
    let attacked = attacked_squares(info.rays, lifted, &side_men_of(info.position, side), side);
    let enemies = info.occupied & !info.own;
    Flights {
        king,
        squares: info.rays.leap(king, Leap::KingStep) & !enemies & !attacked,
    }
}

/// The flights of a position that are in line with no man of the side to move: a move leaves each of them to the king but where the man that
/// moved attacks it. They are told without what stands on the board, and so sooner than all.
pub(crate) fn lasting_flights_of(info: &LegalityInfo) -> Flights
    requires info { IsLegalityInfo info.now }
    ensures { AreLastingOf result info.now.position.now }
{
    let side = info.side;
    let king = info.position.king(side.other()).index() as u8;
    let in_line = squares_in_line(info.rays, &side_men_of(info.position, side), side);
    let enemies = info.occupied & !info.own;
    Flights {
        king,
        squares: info.rays.leap(king, Leap::KingStep) & !enemies & !in_line,
    }
}

/// The squares from which a man of a kind would attack each of these on an empty board.
#[inline(always)]
pub(crate) fn lines_to_all(rays: &Rays, squares: u64, kind: Kind, colour: Colour) -> u64
    ensures { (t : ℕ) → t < 64 → has result t ≡ false → Misses squares colour kind t }
{
    let mut lines = u64::MAX;
    for square in square_sets::squares(squares) {
        lines &= lines_to(rays, kind, colour, square);
    }
    lines
}

/// The squares from which a man of a kind attacks each of the lasting flights. Elsewhere his move mates only where it is special.
#[inline(always)]
pub(crate) fn squares_on_lasting(info: &LegalityInfo, lasting: Flights, kind: Kind) -> u64
    requires info { IsLegalityInfo info.now }
    requires lasting { AreLastingOf lasting info.now.position.now }
    ensures { (m : MoveValue) (man : ManValue) → is_legal info.now.position.now m ≡ true → man_at info.now.position.now.men m.origin ≡ Some man
        → man.kind ≡ kind → is_special_move info.now.position.now man m ≡ false → m.origin < 64 → m.target < 64
        → has result m.target ≡ false → is_mate (after_setup info.now.position.now m) ≡ false }
{
    // That a legal move leaves a sound position is this law.
    sound_after();
    lines_to_all(info.rays, lasting.squares, kind, info.side)
}

/// The squares to which a man's legal move may mate, as the lasting flights tell.
#[inline(always)]
pub(crate) fn squares_at_lasting(info: &LegalityInfo, lasting: Flights, mover: Mover) -> u64
    requires info { IsLegalityInfo info.now }
    requires lasting { AreLastingOf lasting info.now.position.now }
    requires mover { IsMoverOf mover info.now.position.now }
    ensures { (m : MoveValue) → is_legal info.now.position.now m ≡ true → m.origin ≡ mover.origin → m.target < 64
        → has result m.target ≡ false → is_mate (after_setup info.now.position.now m) ≡ false }
{
    special_squares(info, mover.man) | squares_on_lasting(info, lasting, mover.man.kind)
}

/// Of these squares those to which a man's legal move may mate: it attacks each flight from there, opens a line, or is special.
#[inline(always)]
pub(crate) fn squares_that_cover(
    info: &LegalityInfo,
    flights: Flights,
    mover: Mover,
    candidates: u64,
) -> u64
    requires info { IsLegalityInfo info.now }
    requires flights { AreFlightsOf flights info.now.position.now }
    requires mover { IsMoverOf mover info.now.position.now }
    ensures { (m : MoveValue) → is_legal info.now.position.now m ≡ true → m.origin ≡ mover.origin → m.target < 64 → has candidates m.target ≡ true
        → has result m.target ≡ false → is_mate (after_setup info.now.position.now m) ≡ false }
{
    // That a legal move leaves a sound position is this law.
    sound_after();
    let special = special_squares(info, mover.man);
    let mut covering = candidates;
    for flight in square_sets::squares(flights.squares) {
        if covering == 0 {
            break;
        }
        covering &= special | squares_covering(info, flights, mover, flight);
    }
    covering
}

/// The squares from which a man may attack a flight once it moved: all where it opens a line to it.
fn squares_covering(info: &LegalityInfo, flights: Flights, mover: Mover, flight: u8) -> u64
    requires on_board { flight < 64 }
    requires info { IsLegalityInfo info.now }
    requires flights { AreFlightsOf flights info.now.position.now }
    requires mover { IsMoverOf mover info.now.position.now }
    requires flight { has flights.squares flight ≡ true }
    ensures { (t : ℕ) → t < 64 → has result t ≡ false → leaves_flight info.now.position.now flights.king mover.origin mover.man.kind t flight ≡ true }
{
    let side = info.side;
    let lines = lines_to(info.rays, Kind::Queen, side, flight);
    if square_sets::contains(lines, mover.origin) {
        let lifted = square_sets::without(info.occupied, flights.king);
        let gone = square_sets::without(lifted, mover.origin);
        let others = without(&side_men_of(info.position, side), mover.origin);
        if is_hit_over(info.rays, gone, &others, side, flight) {
            return u64::MAX;
        }
    }
    lines_to(info.rays, mover.man.kind, side, flight)
}

/// The squares from which a man of a kind would attack a square on an empty board.
pub(crate) fn lines_to(rays: &Rays, kind: Kind, colour: Colour, square: u8) -> u64
    requires { square < 64 }
    ensures { (taken : ℕ → Bool) (t : ℕ) → t < 64 → has result t ≡ false → hits_as taken colour kind t square ≡ false }
{
    match kind {
        Kind::Pawn => rays.leap(square, Leap::capture_back(colour)),
        Kind::Knight => rays.leap(square, Leap::KnightLeap),
        Kind::Bishop => rays.diagonals(square),
        Kind::Rook => rays.straights(square),
        Kind::Queen => rays.diagonals(square) | rays.straights(square),
        Kind::King => rays.leap(square, Leap::KingStep),
    }
}
