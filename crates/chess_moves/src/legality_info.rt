//! The legality information of a position: what the legality of each of its moves asks about, its checks and pins among it, found
//! once for it. It holds the position and the rays too, so that all of it is passed as one value.

ghost use Rattle.std.specs.Prelude.{◌≡◌};
ghost use Rattle.chess_moves.specs.inside.LegalityInfo.{IsLegalityInfo, with_checks_and_pins};

use crate::checks_and_pins::check_mask;
use crate::ray_tables::Rays;
use crate::side_men::{SideMen, all_of, side_men_of};
use crate::slider_lines::{diagonal_lines, straight_lines};
use chess_board::{Colour, Position};

/// A position and the rays, with what the legality of each move asks about, mostly as sets of squares.
#[derive(Clone, Copy)]
pub(crate) struct LegalityInfo<'a> {
    pub rays: &'a Rays,
    pub position: &'a Position,
    /// Where a man stands, of either side.
    pub occupied: u64,
    /// Where a man of the side to move stands.
    pub own: u64,
    /// The men of the other side.
    pub enemy: SideMen,
    /// Only men on these squares can be pinned: where one stands alone between the king and a slider of the other side, or all squares
    /// where pins were not looked for.
    pub pin_squares: u64,
    /// The squares on which a man other than the king answers the checks that there are: all where there is none. It tells where a man
    /// may go that stands on none of `pin_squares`, and nothing where these are all squares.
    pub check_mask: u64,
    /// The side to move.
    pub side: Colour,
    /// The square of the king of the side to move.
    pub king: u8,
}

/// The legality information of a position with its checks and pins not looked for: each man is taken for one that may be pinned.
#[inline(always)]
pub(crate) fn bare_info_of<'a>(rays: &'a Rays, position: &'a Position) -> LegalityInfo<'a>
    ensures info { IsLegalityInfo result }
    ensures position { result.position.now ≡ position.now }
{
    let side = position.side();
    LegalityInfo {
        rays,
        position,
        side,
        occupied: position.occupied(),
        own: all_of(&side_men_of(position, side)),
        enemy: side_men_of(position, side.other()),
        king: position.king(side).index() as u8,
        pin_squares: u64::MAX,
        check_mask: 0,
    }
}

/// The squares of the pins, and the check mask.
#[derive(Clone, Copy)]
struct ChecksAndPins {
    pin_squares: u64,
    check_mask: u64,
}

/// The checks and pins of a position, whatever its legality information says of them.
fn checks_and_pins_of(info: &LegalityInfo) -> ChecksAndPins
    requires { IsLegalityInfo info.now }
    ensures { IsLegalityInfo (with_checks_and_pins info.now result.pin_squares result.check_mask) }
{
    let diagonal = diagonal_lines(info.rays, info.occupied, info.enemy.diagonal, info.king);
    let straight = straight_lines(info.rays, info.occupied, info.enemy.straight, info.king);
    ChecksAndPins {
        pin_squares: diagonal.blockers | straight.blockers,
        check_mask: check_mask(info, diagonal.clear, straight.clear),
    }
}

/// The same legality information with the checks and pins found. No more than these two words is handed back by a call.
#[inline(always)]
pub(crate) fn with_checks_and_pins<'a>(info: LegalityInfo<'a>) -> LegalityInfo<'a>
    requires { IsLegalityInfo info }
    ensures info { IsLegalityInfo result }
    ensures position { result.position.now ≡ info.entry.position.now }
{
    let found = checks_and_pins_of(&info);
    LegalityInfo {
        pin_squares: found.pin_squares,
        check_mask: found.check_mask,
        ..info
    }
}

/// The legality information of a position.
#[inline(always)]
pub(crate) fn legality_info_of<'a>(rays: &'a Rays, position: &'a Position) -> LegalityInfo<'a>
    ensures info { IsLegalityInfo result }
    ensures position { result.position.now ≡ position.now }
{
    with_checks_and_pins(bare_info_of(rays, position))
}
