//! Perft: the count of the lines of play. The last moves are counted from sets of targets and not played; pawns that nothing holds
//! back are moved ahead as a set.

ghost use Rattle.std.specs.Prelude.{◌≡◌, ℕ, ◌≤◌, ◌<◌, ◌&&◌, ◌==◌, ◌^◌, filter, length};
ghost use Rattle.square_sets.specs.Members.{has, members};
ghost use Rattle.chess_board.specs.declared.men.Kind.TheVariants as kind;
ghost use Rattle.chess_board.specs.Squares.{file_of, rank_of};
ghost use Rattle.chess_moves.specs.inside.LegalityInfo.{IsLegalityInfo};
ghost use Rattle.chess_board.specs.Legality.{is_legal};
ghost use Rattle.chess_moves.specs.inside.Listing.{legal_moves, moves_to};
ghost use Rattle.chess_moves.specs.inside.MoveGeneration.{moves_of_men, HaveMenOf};
ghost use Rattle.chess_moves.specs.Plays.{plays};
ghost use Rattle.chess_moves.specs.inside.Shifts.{is_shifted, back, left_file as left_file_of, right_file as right_file_of};
ghost use Rattle.chess_moves.specs.inside.Shifts.{third_rank as third_rank_of, AreFree};

use crate::en_passant_targets::en_passant_origins;
use crate::legal_targets::{targets_at_once, targets_of_king};
use crate::legality_info::{LegalityInfo, legality_info_of};
use crate::move_generation::legal_moves;
use crate::movers::{Mover, king_of};
use crate::promotions::count_ways;
use crate::ray_tables::Rays;
use chess_board::{Colour, Kind, Man, Position, after};

/// How many lines of `depth` legal moves there are, played one after the other: the count by which programs compare their
/// rules, known as perft. The line of no moves is one.
#[tactic(auto, using(crate::proofs::Counts::plays_none))]
pub fn perft(rays: &Rays, position: &Position, depth: u8) -> u64
    requires { depth ≤ 6 }
    ensures { result ≡ length (plays position.now depth) }
{
    if depth == 0 {
        1
    } else {
        count_plays(rays, position, depth)
    }
}

/// How many lines of at least one move there are. The last moves are counted and not played.
fn count_plays(rays: &Rays, position: &Position, depth: u8) -> u64
    requires some { 0 < depth }
    requires few { depth ≤ 6 }
    ensures count { result ≡ length (plays position.now depth) }
    ensures few { result ≤ 1024 ^ depth }
{
    if depth == 1 {
        return count_moves(rays, position);
    }
    let mut total = 0;
    for m in legal_moves(rays, position) {
        total += count_plays(rays, &after(position, m), depth - 1);
    }
    total
}

/// How many legal moves there are. The men are taken kind by kind, so that none has to be looked up.
fn count_moves(rays: &Rays, position: &Position) -> u64
    ensures count { result ≡ length (legal_moves position.now) }
    ensures few { result ≤ 1024 }
{
    let info = legality_info_of(rays, position);
    let pawns = info.position.men(info.side, Kind::Pawn);
    let knights = info.position.men(info.side, Kind::Knight);
    let bishops = info.position.men(info.side, Kind::Bishop);
    let rooks = info.position.men(info.side, Kind::Rook);
    let queens = info.position.men(info.side, Kind::Queen);
    count_pawns(&info, pawns)
        + count_from(&info, Kind::Knight, knights)
        + count_from(&info, Kind::Bishop, bishops)
        + count_from(&info, Kind::Rook, rooks)
        + count_from(&info, Kind::Queen, queens)
        + count_king(&info)
}

/// How many legal moves the king has.
fn count_king(info: &LegalityInfo) -> u64
    requires info { IsLegalityInfo info.now }
    ensures count { result ≡ length (filter (is_legal info.now.position.now) (moves_to info.now.king 64)) }
    ensures few { result ≤ 256 }
{
    let king = king_of(info);
    count_ways(king.man, targets_of_king(info, king))
}

/// How many legal moves pawns have together. Those that might be pinned or capture en passant are asked one by one.
fn count_pawns(info: &LegalityInfo, pawns: u64) -> u64
    requires info { IsLegalityInfo info.now }
    requires men { HaveMenOf kind.Pawn pawns info.now.position.now }
    ensures count { result ≡ length (moves_of_men info.now.position.now (members pawns)) }
    ensures few { result ≤ 1024 }
{
    let alone = pawns & (info.pin_squares | en_passant_origins(info));
    count_from(info, Kind::Pawn, alone) + count_free_pawns(info, pawns & !alone)
}

/// How many legal moves men of one kind have together. It is laid into its callers, once for each kind.
#[inline(always)]
fn count_from(info: &LegalityInfo, kind: Kind, men: u64) -> u64
    requires info { IsLegalityInfo info.now }
    requires men { HaveMenOf kind men info.now.position.now }
    ensures count { result ≡ length (moves_of_men info.now.position.now (members men)) }
    ensures few { result ≤ 1024 }
{
    let man = Man {
        colour: info.side,
        kind,
    };
    let mut total = 0;
    for origin in square_sets::squares(men) {
        total += count_ways(man, targets_at_once(info, Mover { man, origin }));
    }
    total
}

/// How many legal moves pawns have together, none of which can be pinned or captures en passant.
fn count_free_pawns(info: &LegalityInfo, pawns: u64) -> u64
    requires info { IsLegalityInfo info.now }
    requires men { HaveMenOf kind.Pawn pawns info.now.position.now }
    requires free { AreFree pawns info.now info.now.position.now }
    ensures count { result ≡ length (moves_of_men info.now.position.now (members pawns)) }
    ensures few { result ≤ 1024 }
{
    let side = info.side;
    let pawn = Man {
        colour: side,
        kind: Kind::Pawn,
    };
    let once = shifted(side, pawns, 8) & !info.occupied;
    let twice = shifted(side, once & third_rank(side), 8) & !info.occupied;
    let enemies = info.occupied & !info.own;
    let left = shifted(side, pawns & !left_file(side), 7) & enemies;
    let right = shifted(side, pawns & !right_file(side), 9) & enemies;
    count_ways(pawn, once & info.check_mask)
        + count_ways(pawn, twice & info.check_mask)
        + count_ways(pawn, left & info.check_mask)
        + count_ways(pawn, right & info.check_mask)
}

/// A set moved so many numbers ahead, as the colour's pawns go.
fn shifted(colour: Colour, set: u64, gap: u32) -> u64
    requires { gap < 64 }
    ensures { (t : ℕ) → t < 64 → has result t ≡ (is_shifted colour gap t && has set (back colour gap t)) }
{
    match colour {
        Colour::White => set << gap,
        Colour::Black => set >> gap,
    }
}

/// The file that ends the board to the left of a colour's pawns.
fn left_file(colour: Colour) -> u64
    ensures { (s : ℕ) → s < 64 → has result s ≡ (file_of s == left_file_of colour) }
{
    match colour {
        Colour::White => 0x0101_0101_0101_0101,
        Colour::Black => 0x8080_8080_8080_8080,
    }
}

/// The file that ends the board to the right of a colour's pawns.
fn right_file(colour: Colour) -> u64
    ensures { (s : ℕ) → s < 64 → has result s ≡ (file_of s == right_file_of colour) }
{
    match colour {
        Colour::White => 0x8080_8080_8080_8080,
        Colour::Black => 0x0101_0101_0101_0101,
    }
}

/// The rank over which a colour's pawns go with a double step.
fn third_rank(colour: Colour) -> u64
    ensures { (s : ℕ) → s < 64 → has result s ≡ (rank_of s == third_rank_of colour) }
{
    match colour {
        Colour::White => 0x00ff_0000,
        Colour::Black => 0xff00_0000_0000,
    }
}
