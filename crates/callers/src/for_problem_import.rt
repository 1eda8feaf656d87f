//! A caller of `problem_import`.

ghost use Rattle.std.specs.Prelude.{ℕ, List, IfOk, None, codes, true};
ghost use Rattle.std.specs.Io.KnownBytes.{Appends};
ghost use Rattle.byte_streams.specs.Inputs.{MayBe};
ghost use Rattle.problem_import.specs.Imported.{IsImported, import_letters_in};

use byte_streams::{Input, Stop};
use chess_moves::Rays;
use problem_import::{ImportCounts, ImportLetters, Printing, import_input};
use std::alloc::Global;
use std::io::Write;

/// Makes records of a collection, each of which tells what was changed, whose men have the letters that a word gives in moves, and English ones
/// in placements; gives at how many lines something is refused. Each position is one that lines or tags spell, and so is each number of moves.
pub fn import_all<I: Input + Drop, O: Write>(
    alloc: Global,
    letters: &str,
    input: I,
    out: &mut O,
) -> Result<usize, Stop>
    ensures { IfOk result (λ count. (bytes : List ℕ) × (text : List ℕ) × MayBe (I.left input) bytes
        × IsImported (import_letters_in letters.now (codes "en")) true None bytes text count
        × Appends (O.contents out.old) (O.contents out.new) text) }
{
    let rays = Rays::new();
    let printing = Printing {
        rays: &rays,
        keep: true,
        bound: None,
        letters: ImportLetters::said(letters, "en"),
    };
    import_input(alloc, &printing, &mut ImportCounts::new(), input, out)
}
