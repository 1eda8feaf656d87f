//! The replies to an input of positions.

ghost use Rattle.std.specs.Prelude.{◌≡◌, ℕ, List, IfErr, IfOk};
ghost use Rattle.std.specs.Io.KnownBytes.{Appends};
ghost use Rattle.byte_streams.specs.Inputs.{MayBe};
ghost use Rattle.byte_streams.specs.Stops.{AppendsBy};
ghost use Rattle.chess_board.specs.Fens.{FenValue};
ghost use Rattle.text_lines.specs.Replies.{IsReply, IsReplyToFirst};
ghost use Rattle.position_lines.specs.PositionReplies.{IsPositionReply};

use crate::line_fens::line_fen;
use byte_streams::{Input, NoMemory, Stop};
use chess_board::{Fen, read_fen};
use chess_notation::EpdFault;
use std::alloc::{AllocError, Global};
use std::io::Write;
use text_lines::{LineHandler, Output, answer_input, refusal};

/// What there is to show of a FEN.
pub trait FenView {
    /// The text that is shown.
    ghost shown: { Self → FenValue → List ℕ };

    /// The text that is shown of a FEN, made whole.
    fn text(&self, alloc: Global, fen: &Fen) -> Result<Vec<u8>, AllocError>
        ensures { IfOk result (λ text. text.items ≡ shown self.now fen.now) };
}

/// What answers lines of positions: it keeps nothing from line to line.
#[derive(Clone, Copy)]
struct Positions<'a, V> {
    view: &'a V,
}

impl<V: FenView> LineHandler for Positions<'_, V> {
    ghost use Rattle.position_lines.specs.PositionReplies.{IsPositionReply, skipped};

    type Memory = ();

    ghost replies = { λ positions. IsPositionReply (V.shown positions.view.now) };

    ghost room = { λ memory. 0 };

    /// What is shown of the FEN that a line says, or its fault.
    fn answer(
        &self,
        alloc: Global,
        number: usize,
        line: &[u8],
        _memory: &mut (),
    ) -> Result<Output, NoMemory> {
        let text = line_fen(alloc, line)?;
        match read_fen(text.as_slice()) {
            Ok(fen) => Ok(Output {
                text: self.view.text(alloc, &fen)?,
                refused: 0,
            }),
            Err(fault) => refusal(alloc, number, EpdFault::Fen(fault)),
        }
    }

    fn refuse_long(&self, alloc: Global, number: usize) -> Result<Output, NoMemory> {
        refusal(alloc, number, EpdFault::TooLong)
    }

    ghost skips = { λ positions number line blank. skipped blank };

    ghost unmarked = { λ _ _ _ _. tt };

    ghost passes = { λ _ _ _ _ _ _. tt };

    ghost skips_behind = { λ _ _ _ _ _. tt };
}

/// Answers an input of positions line by line by what is shown of each: each line before the next is waited for. Gives how many lines are
/// refused.
///
/// Where it stops before the end, the replies to some of the first lines are written. A line is taken into memory no further
/// than a record is long.
pub fn answer_positions<V: FenView, I: Input + Drop, O: Write>(
    alloc: Global,
    view: &V,
    input: I,
    out: &mut O,
) -> Result<usize, Stop>
    ensures ok { IfOk result (λ refused. (bytes : List ℕ) × (text : List ℕ) × MayBe (I.left input) bytes
        × IsReply (IsPositionReply (V.shown view.now)) bytes text refused
        × Appends (O.contents out.old) (O.contents out.new) text) }
    ensures err { IfErr result (λ stop. (bytes : List ℕ) × (text : List ℕ) × MayBe (I.left input) bytes
        × IsReplyToFirst (IsPositionReply (V.shown view.now)) bytes text
        × AppendsBy stop (O.contents out.old) (O.contents out.new) text) }
    ensures unreadable { IfErr result (λ stop. stop ≡ Stop.Unreadable → I.breaks input) }
{
    answer_input(alloc, &Positions { view }, input, &mut (), out)
}
