//! The replies to lines of records whose trees are asked for, each as a text.

ghost use Rattle.std.specs.Prelude.{◌≡◌, ◌<◌, ◌≤◌, ℕ, List, IfNone, IfOk, IfSome, length, false};
ghost use Rattle.chess_notation.specs.Records.{RecordValue, Reads, max_line};
ghost use Rattle.chess_notation.specs.Words.{is_blank};
ghost use Rattle.mate_tree.specs.TreeReplies.{IsTreeReply};

use crate::tree_replies::{TreeReplies, refused_text};
use byte_streams::NoMemory;
use chess_notation::read_record;
use mate_search::Memo;
use std::alloc::Global;
use text_lines::{LineWriter, Output};

impl TreeReplies<'_> {
    /// The reply to a line that isn't blank and says no record, and nothing for one that says one.
    pub fn look(
        &self,
        alloc: Global,
        number: usize,
        line: &[u8],
    ) -> Result<Option<Output>, NoMemory>
        ensures reply { IfOk result (λ known. IfSome known (λ output. is_blank line.now ≡ false
            → IsTreeReply self.now.form self.now.default number line.now output.text.items output.refused)) }
        ensures record { IfOk result (λ known. IfNone known ((r : RecordValue) × Reads line.now self.now.default r)) }
    {
        let fault = match read_record(alloc, self.rays, line, self.default) {
            Ok(_) => return Ok(None),
            Err(fault) => fault,
        };
        let output = refused_text(alloc, number, fault)?;
        Ok(Some(output))
    }

    /// The reply to a line that is neither blank nor longer than a record may be.
    pub fn told(
        &self,
        alloc: Global,
        number: usize,
        line: &[u8],
        memo: &mut Memo,
    ) -> Result<Output, NoMemory>
        requires filled { is_blank line.now ≡ false }
        requires short { length line.now ≤ max_line }
        ensures reply { IfOk result (λ output. IsTreeReply self.now.form self.now.default number line.now output.text.items output.refused) }
        ensures room { memo.new.room ≡ memo.old.room }
    {
        let mut text = Vec::new(alloc);
        match self.write_reply(alloc, number, line, memo, &mut text) {
            Ok(refused) => Ok(Output { text, refused }),
            // A list refuses to be written for want of memory alone.
            Err(_) => Err(NoMemory),
        }
    }

    /// The reply to a line that is longer than a record may be.
    pub fn told_long(&self, alloc: Global, number: usize) -> Result<Output, NoMemory>
        ensures reply { IfOk result (λ output. (line : List ℕ) → is_blank line ≡ false → max_line < length line
            → IsTreeReply self.now.form self.now.default number line output.text.items output.refused) }
    {
        let mut text = Vec::new(alloc);
        match self.refuse_long(alloc, number, &mut text) {
            Ok(refused) => Ok(Output { text, refused }),
            Err(_) => Err(NoMemory),
        }
    }
}
