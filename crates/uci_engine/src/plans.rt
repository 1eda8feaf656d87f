//! What is planned for a search: how long it may last, and how far it goes.

use chess_board::Colour;
use chess_problems::Bound;
use uci_commands::Go;

/// What is kept of a clock for what a move takes beside its search, in milliseconds.
const RESERVE: u64 = 50;

/// For how many moves a clock is meant to last where nothing is said.
const MOVES_TO_GO: u64 = 30;

/// How many milliseconds a search may last by its side's clock.
fn by_clock(time: u64, increment: u64, moves_to_go: u64) -> u64 {
    let share = time / moves_to_go.saturating_add(1).max(1);
    share
        .saturating_add(increment / 2)
        .min(time.saturating_sub(RESERVE))
        .max(1)
}

/// How many milliseconds a search may last, where it is told; the clock that counts is that of the side to move.
pub(crate) fn time_of(go: &Go, side: Colour) -> Option<u64> {
    if let Some(time) = go.move_time {
        return Some(time);
    }
    let (time, increment) = match side {
        Colour::White => (go.white_time, go.white_increment),
        Colour::Black => (go.black_time, go.black_increment),
    };
    let is_timed = go.white_time.is_some() || go.black_time.is_some();
    if is_timed {
        let moves_to_go = go.moves_to_go.unwrap_or(MOVES_TO_GO);
        Some(by_clock(time.unwrap_or(0), increment.unwrap_or(0), moves_to_go))
    } else {
        None
    }
}

/// The bound of so many moves, or the nearest there is.
pub(crate) fn bound_near(moves: u64, default: Bound) -> Bound {
    let nearest = moves.max(1).min(15) as u8;
    Bound::new(nearest).unwrap_or(default)
}

/// Within how many moves mate is looked for. A depth in halfmoves is one of the attacker's moves and of the replies between them.
pub(crate) fn bound_of(go: &Go, default: Bound) -> Bound {
    if let Some(moves) = go.mate {
        bound_near(moves, default)
    } else if let Some(depth) = go.depth {
        bound_near(depth.saturating_add(1) / 2, default)
    } else {
        default
    }
}
