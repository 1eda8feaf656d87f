//! The lines of an input, taken one by one by who answers them later.

ghost use Rattle.std.specs.Prelude.{◌≡◌, ◌∷◌, ◌++◌, ℕ, List, Option, [], IfErr, IfOk, false, true};
ghost use Rattle.text_lines.specs.TakenLines.{AreAllOf, HasTaken, IsTakenAs, LinesBegin, are_broken, left_in};
ghost use Rattle.text_lines.specs.inside.InputLines.{IsKept};

use crate::input_lines::{Kept, Lines, MAX_LINE, without_cr};
use byte_streams::{Input, InputFault};
use std::alloc::Global;

/// A line without its CR; of one that is blank, or longer than a record may be, only that.
#[derive(Drop)]
pub enum TakenLine {
    Blank,
    Long,
    Text(Vec<u8>),
}

/// What was taken: a line, and whether it is the last, behind which there is no newline.
#[derive(Drop)]
pub struct TakenNext {
    pub line: TakenLine,
    pub is_last: bool,
}

/// What a line is taken as, by what is kept of it.
fn taken_as(kept: Kept) -> TakenLine
    ensures { (line : List ℕ) → IsKept kept line → IsTakenAs result line }
{
    if kept.is_blank() {
        return TakenLine::Blank;
    }
    let length = without_cr(kept.bytes.as_slice()).len();
    if length > MAX_LINE {
        return TakenLine::Long;
    }
    let Kept { mut bytes, .. } = kept;
    bytes.truncate(length);
    TakenLine::Text(bytes)
}

/// An input of which lines are taken.
#[derive(Drop)]
pub struct TakenLines<I: Drop> {
    lines: Lines<I>,
}

impl<I: Input + Drop> TakenLines<I> {
    /// Of an input of which nothing is taken yet. So many bytes are asked for at once, one at least.
    pub fn new(alloc: Global, input: I, piece: usize) -> TakenLines<I>
        ensures none { HasTaken (I.left input) (left_in I.left result) [] }
        ensures steady { are_broken I.breaks result → I.breaks input }
    {
        TakenLines {
            lines: Lines::by_pieces(alloc, input, piece),
        }
    }

    /// Whether the next line was read whole, so that to take it waits for nobody.
    pub fn has_line(&self) -> bool {
        self.lines.has_line()
    }

    /// Takes the next line. Whatever its length, no more than the longest record has is kept of it.
    pub fn take(&mut self, alloc: Global) -> Result<TakenNext, InputFault>
        ensures more { IfOk result (λ taken. taken.is_last ≡ false → (line : List ℕ) × IsTakenAs taken.line line
            × ((known : Option (List ℕ)) (lines : List (List ℕ)) → HasTaken known (left_in I.left self.old) lines
            → HasTaken known (left_in I.left self.new) (lines ++ line ∷ []))) }
        ensures last { IfOk result (λ taken. taken.is_last ≡ true → (line : List ℕ) × IsTakenAs taken.line line
            × ((known : Option (List ℕ)) (lines : List (List ℕ)) → HasTaken known (left_in I.left self.old) lines
            → AreAllOf known (lines ++ line ∷ []))) }
        ensures unreadable { IfErr result (λ fault. fault ≡ InputFault.Unreadable → are_broken I.breaks self.old) }
        ensures steady { are_broken I.breaks self.new → are_broken I.breaks self.old }
    {
        let taken = self.lines.take_line(alloc)?;
        Ok(TakenNext {
            is_last: taken.is_last,
            line: taken_as(taken.kept),
        })
    }
}

/// A law: lines that were taken are the first of the input, whatever follows.
#[tactic(auto, using(crate::proofs::LinesTaken::lines_begin))]
pub fn lines_begin()
    ensures { LinesBegin }
{}
