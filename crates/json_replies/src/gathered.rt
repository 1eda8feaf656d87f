//! Replies gathered from one who writes them.

use byte_streams::NoMemory;
use std::alloc::Global;
use text_lines::{LineHandler, LineWriter, Output};

/// Answers each line with what another writes of it, whole in memory.
#[derive(Clone, Copy)]
pub struct Gathered<'a, W> {
    pub writer: &'a W,
}

impl<W: LineWriter> LineHandler for Gathered<'_, W> {
    type Memory = W::Memory;

    ghost ready = { λ gathered. W.ready gathered.writer.now };

    ghost replies = { λ gathered. W.replies gathered.writer.now };

    ghost marks = { λ gathered. W.marks gathered.writer.now };

    ghost tally = { λ memory. W.tally memory };

    ghost room = { λ memory. W.room memory };

    fn answer(
        &self,
        alloc: Global,
        number: usize,
        line: &[u8],
        memory: &mut W::Memory,
    ) -> Result<Output, NoMemory> {
        let mut text = Vec::new(alloc);
        match self
            .writer
            .write_reply(alloc, number, line, memory, &mut text)
        {
            Ok(refused) => Ok(Output { text, refused }),
            // A list refuses to be written for want of memory alone.
            Err(_) => Err(NoMemory),
        }
    }

    fn refuse_long(&self, alloc: Global, number: usize) -> Result<Output, NoMemory> {
        let mut text = Vec::new(alloc);
        match self.writer.refuse_long(alloc, number, &mut text) {
            Ok(refused) => Ok(Output { text, refused }),
            Err(_) => Err(NoMemory),
        }
    }

    ghost skips = { λ gathered number line blank. W.skips gathered.writer.now number line blank };

    ghost unmarked = { λ gathered number line blank. W.unmarked gathered.writer.now number line blank };

    ghost passes = { λ _ _ _ _ _ _. tt };

    ghost skips_behind = { λ _ _ _ _ _. tt };
}
