//! A caller of `lettered_placements`.

ghost use Rattle.std.specs.Prelude.{◌≡◌, IfOk};
ghost use Rattle.lettered_placements.specs.Readings.{line_read as line_in_english};

use lettered_placements::line_read;
use move_words::Letters;
use std::alloc::{AllocError, Global};

/// A line whose placement may have such letters, with English ones.
pub fn placed(alloc: Global, letters: &Letters, line: &[u8]) -> Result<Vec<u8>, AllocError>
    ensures { IfOk result (λ text. text.items ≡ line_in_english letters.now line.now) }
{
    line_read(alloc, letters, line)
}
