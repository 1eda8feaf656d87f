//! A caller of `text_lines`.

ghost use Rattle.std.specs.Prelude.{◌≡◌, ℕ, List, IfOk};
ghost use Rattle.text_lines.specs.Replies.{IsReply};

use byte_streams::NoMemory;
use std::alloc::Global;
use text_lines::{LineHandler, Output, answer_bytes};

/// Answers no line, and refuses those that are too long for a record.
#[derive(Clone, Copy)]
struct Lengths;

impl LineHandler for Lengths {
    ghost use Rattle.std.specs.Prelude.{◌≡◌, ◌&&◌, Bool, [], length, nat_lt, not, refl, if◌then◌else◌};
    ghost use Rattle.std.proofs.Common.{ap, sym};
    ghost use Rattle.chess_notation.specs.Records.{max_line};
    ghost use Rattle.chess_notation.specs.Words.{is_blank};

    type Memory = ();

    ghost replies = { λ _ number line text refusals. (text ≡ [])
        × (refusals ≡ (if not (is_blank line) && nat_lt max_line (length line) then 1 else 0)) };

    ghost room = { λ _. 0 };

    fn answer(
        &self,
        alloc: Global,
        _number: usize,
        _line: &[u8],
        _memory: &mut (),
    ) -> Result<Output, NoMemory> {
        Ok(Output {
            text: Vec::new(alloc),
            refused: 0,
        })
    }

    fn refuse_long(&self, alloc: Global, _number: usize) -> Result<Output, NoMemory> {
        Ok(Output {
            text: Vec::new(alloc),
            refused: 1,
        })
    }

    ghost skips = { λ _ number line blank. (refl, ap (λ (b : Bool). if not b && nat_lt max_line (length line) then 1 else 0) (sym blank)) };

    ghost unmarked = { λ _ _ _ _. tt };

    ghost passes = { λ _ _ _ _ _ _. tt };

    ghost skips_behind = { λ _ _ _ _ _. tt };
}

/// How many lines of an input are too long for a record, blank ones aside.
pub fn long_lines(alloc: Global, input: &[u8]) -> Result<usize, NoMemory>
    ensures { IfOk result (λ count. (text : List ℕ) × IsReply (⟦<Lengths as LineHandler>⟧.replies (record {})) input.now text count) }
{
    let output = answer_bytes(alloc, &Lengths, input, &mut ())?;
    Ok(output.refused)
}
