//! The two rings between a window and the keeper: how they are made.

ghost use Rattle.std.specs.Prelude.{◌≡◌, ◌≤◌, [], length, map, replicate, IfOk};
ghost use Rattle.room_ends.specs.WindowRings.{letters_taken, deliveries_put, ring_of};
ghost use Rattle.room_ends.specs.Opening.{AreOpened, IsFresh};

use crate::window_ring_line::Line;
use crate::windows::Window;
use chess_problems::Bound;
use rtrb::RingBuffer;
use std::alloc::{AllocError, Global};

/// A window of this number and default bound, and the keeper's ends of its two rings, each of `ring` places.
fn open_line(
    alloc: Global,
    number: usize,
    ring: usize,
    default: Bound,
) -> Result<(Window, Line), AllocError>
    requires { ring ≤ 64 }
    ensures fresh { IfOk result (λ r. IsFresh ring default number r.0 r.1) }
    ensures taken { IfOk result (λ r. letters_taken r.1 ≡ []) }
    ensures put { IfOk result (λ r. deliveries_put r.1 ≡ []) }
    ensures ring { IfOk result (λ r. ring_of r.1 ≡ ring) }
{
    let (to_keeper, letters) = RingBuffer::new(alloc, ring)?;
    let (answers, from_keeper) = RingBuffer::new(alloc, ring)?;
    let window = Window {
        letters: to_keeper,
        answers: from_keeper,
        number,
        default,
        posted: 0,
        gone: false,
    };
    let line = Line {
        letters,
        answers,
        ring,
        taken: 0,
        gone: false,
    };
    Ok((window, line))
}

/// So many windows, numbered from 0, and the keeper's ends of each.
#[tactic(auto, using(crate::proofs::Openings::opened_snoc, crate::proofs::Openings::fresh_snoc, crate::proofs::Openings::rings_snoc))]
pub fn open_windows(
    alloc: Global,
    windows: usize,
    ring: usize,
    default: Bound,
) -> Result<(Vec<Window>, Vec<Line>), AllocError>
    requires { ring ≤ 64 }
    ensures windows { IfOk result (λ ends. length ends.0.items ≡ windows) }
    ensures lines { IfOk result (λ ends. length ends.1.items ≡ windows) }
    ensures opened { IfOk result (λ ends. AreOpened ring default 0 ends.0.items ends.1.items) }
    ensures taken { IfOk result (λ ends. map letters_taken ends.1.items ≡ replicate windows []) }
    ensures put { IfOk result (λ ends. map deliveries_put ends.1.items ≡ replicate windows []) }
    ensures rings { IfOk result (λ ends. map ring_of ends.1.items ≡ replicate windows ring) }
{
    let mut ends = Vec::with_capacity(alloc, windows)?;
    let mut lines = Vec::with_capacity(alloc, windows)?;
    for number in 0..windows {
        let (window, line) = open_line(alloc, number, ring, default)?;
        ends.push_reserved(window);
        lines.push_reserved(line);
    }
    Ok((ends, lines))
}
