//! Castling targets: where the king goes that castles (FIDE Laws of Chess, article 3.8.2).

ghost use Rattle.std.specs.Prelude.{◌≡◌, ℕ, ◌<◌, false, IfSome};
ghost use Rattle.square_sets.specs.Members.{has};
ghost use Rattle.chess_board.specs.Men.{other_side};
ghost use Rattle.chess_board.specs.Attacks.{is_attacked};
ghost use Rattle.chess_board.specs.Castling.{king_home as king_home_of, rook_home as rook_home_of, castles_to, castles};
ghost use Rattle.chess_moves.specs.inside.Directions.{stands_between};
ghost use Rattle.chess_moves.specs.inside.LegalityInfo.{IsLegalityInfo, is_king_attacked};

use crate::attackers::is_hit_over;
use crate::legality_info::LegalityInfo;
use chess_board::{Colour, Wing, king_goal, king_home};

/// The squares between a king and a rook that castle.
fn castling_way(colour: Colour, wing: Wing) -> u64
    ensures { (t : ℕ) → t < 64 → has result t ≡ stands_between (king_home_of colour) (rook_home_of colour wing) t }
{
    match (colour, wing) {
        (Colour::White, Wing::KingSide) => 0x60,
        (Colour::White, Wing::QueenSide) => 0x0e,
        (Colour::Black, Wing::KingSide) => 0x6000_0000_0000_0000,
        (Colour::Black, Wing::QueenSide) => 0x0e00_0000_0000_0000,
    }
}

/// Whether a man of the other side attacks a square.
fn is_attacked_in(info: &LegalityInfo, square: u8) -> bool
    requires info { IsLegalityInfo info.now }
    requires on_board { square < 64 }
    ensures { result ≡ is_attacked info.now.position.now.men square (other_side info.now.position.now.side) }
{
    is_hit_over(
        info.rays,
        info.occupied,
        &info.enemy,
        info.side.other(),
        square,
    )
}

/// Whether the king of the side to move is attacked. Where checks and pins were looked for, the check mask tells: no check is answered on
/// the king's own square.
fn is_checked(info: &LegalityInfo) -> bool
    requires { IsLegalityInfo info.now }
    ensures { result ≡ is_king_attacked info.now }
{
    if square_sets::contains(info.pin_squares, info.king) {
        return is_attacked_in(info, info.king);
    }
    !square_sets::contains(info.check_mask, info.king)
}

/// The same, found at the first question about it.
#[inline(always)]
fn is_checked_once(info: &LegalityInfo, checked: &mut Option<bool>) -> bool
    requires info { IsLegalityInfo info.now }
    requires checked { IfSome checked.old (λ b. b ≡ is_king_attacked info.now) }
    ensures check { result ≡ is_king_attacked info.now }
    ensures checked { IfSome checked.new (λ b. b ≡ is_king_attacked info.now) }
{
    match *checked {
        Some(found) => found,
        None => {
            let found = is_checked(info);
            *checked = Some(found);
            found
        }
    }
}

/// Where the king goes when it castles on a wing: one square, or none.
#[inline(always)]
fn castling_target(info: &LegalityInfo, checked: &mut Option<bool>, wing: Wing) -> u64
    requires info { IsLegalityInfo info.now }
    requires checked { IfSome checked.old (λ b. b ≡ is_king_attacked info.now) }
    ensures targets { (t : ℕ) → t < 64 → has result t ≡ castles_to info.now.position.now info.now.position.now.side wing info.now.king t }
    ensures checked { IfSome checked.new (λ b. b ≡ is_king_attacked info.now) }
{
    let home = king_home(info.side).index() as u8;
    if info.king != home || !info.position.has_right(info.side, wing) {
        return 0;
    }
    let between = castling_way(info.side, wing);
    if between & info.occupied != 0 {
        return 0;
    }
    let goal = king_goal(info.side, wing).index() as u8;
    let crossed = (home + goal) / 2;
    if is_checked_once(info, checked)
        || is_attacked_in(info, crossed)
        || is_attacked_in(info, goal)
    {
        return 0;
    }
    square_sets::single(goal)
}

/// Where the king goes when it castles on either wing. Whether it is in check is asked at most once.
fn targets_of_wings(info: &LegalityInfo) -> u64
    requires info { IsLegalityInfo info.now }
    ensures { (t : ℕ) → t < 64 → has result t ≡ castles info.now.position.now info.now.position.now.side info.now.king t }
{
    let mut checked = None;
    castling_target(info, &mut checked, Wing::KingSide)
        | castling_target(info, &mut checked, Wing::QueenSide)
}

/// Where the king goes when it castles: two squares at most. Most kings of a search do not stand at home.
#[inline(always)]
pub(crate) fn castling_targets(info: &LegalityInfo) -> u64
    requires info { IsLegalityInfo info.now }
    ensures { (t : ℕ) → t < 64 → has result t ≡ castles info.now.position.now info.now.position.now.side info.now.king t }
{
    if info.king != king_home(info.side).index() as u8 {
        return 0;
    }
    targets_of_wings(info)
}

/// Where the king would go that castles, whether or not it may: from home it steps to none of these squares.
#[inline(always)]
pub(crate) fn castling_goals(info: &LegalityInfo) -> u64
    requires { IsLegalityInfo info.now }
    ensures { (t : ℕ) → t < 64 → has result t ≡ false → castles info.now.position.now info.now.position.now.side info.now.king t ≡ false }
{
    if info.king != king_home(info.side).index() as u8 {
        return 0;
    }
    let king_side = square_sets::single(king_goal(info.side, Wing::KingSide).index() as u8);
    let queen_side = square_sets::single(king_goal(info.side, Wing::QueenSide).index() as u8);
    king_side | queen_side
}
