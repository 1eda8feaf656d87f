//! Callers of `chess_notation`.

ghost use Rattle.std.specs.Prelude.{◌≡◌, IfOk};
ghost use Rattle.chess_notation.specs.Records.{RecordValue, Reads};

use chess_moves::Rays;
use chess_notation::{EpdFault, read_record};
use chess_problems::Bound;
use std::alloc::Global;

/// Within how many moves a line asks for mate.
pub fn asked(alloc: Global, rays: &Rays, line: &[u8], default: Bound) -> Result<u8, EpdFault>
    ensures { IfOk result (λ moves. (r : RecordValue) × Reads line.now default r × (moves ≡ r.bound)) }
{
    let record = read_record(alloc, rays, line, default)?;
    Ok(record.bound.get())
}
