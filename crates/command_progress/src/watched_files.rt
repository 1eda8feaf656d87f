//! Files of which it is told how far they are answered.

use crate::progress_counts::ProgressCounts;
use crate::said::{Said, said_by};
use byte_streams::{Input, InputFault};
use file_answers::{NameKind, Source, SourceFault};
use std::alloc::Global;
use text_lines::{Progress, first_line};

/// A file of which is counted how much was read.
#[derive(Drop)]
pub struct WatchedFile<'a, I: Drop> {
    input: I,
    progress: &'a ProgressCounts,
}

impl<I: Input + Drop> Input for WatchedFile<'_, I> {
    ghost left = { λ file. I.left file.input };

    ghost breaks = { λ file. I.breaks file.input };

    fn read(&mut self, room: &mut [u8]) -> Result<usize, InputFault> {
        let count = self.input.read(room)?;
        self.progress.read(count);
        Ok(count)
    }
}

/// The files of a source, whose progress is left for the thread that tells of it.
#[derive(Drop)]
pub struct WatchedFiles<'a, S> {
    pub source: &'a S,
    pub progress: &'a ProgressCounts,
}

impl<S: Source> Progress for WatchedFiles<'_, S> {
    fn turns_to(&self, name: &str) {
        self.source.turns_to(name);
        self.progress.open(name, self.source.size(name));
    }

    fn goes_on_with(&self, name: &str) {
        self.source.goes_on_with(name);
    }

    fn begins(&self, number: usize) {
        self.progress.begin(number);
    }

    fn follows_lengths(&self) -> bool {
        true
    }

    fn searches(&self, moves: u8) {
        self.progress.search(moves);
    }

    fn ends(&self, replies: &[u8]) {
        self.progress.search(0);
        let mut rest = replies;
        for _ in 0..replies.len() {
            let Some((line, more)) = first_line(rest) else {
                return;
            };
            self.progress.count(said_by(line));
            rest = more;
        }
    }

    fn wrote(&self, refused: usize) {
        self.progress.count(if refused > 0 {
            Said::Refused
        } else {
            Said::Row
        });
    }
}

impl<'a, S: Source> Source for WatchedFiles<'a, S> {
    type File = WatchedFile<'a, S::File>;

    ghost holds = { λ files. S.holds files.source.now };

    ghost refuses = { λ files. S.refuses files.source.now };

    fn open(&self, alloc: Global, name: &str) -> Result<Self::File, SourceFault> {
        let input = self.source.open(alloc, name)?;
        self.progress.open(name, self.source.size(name));
        Ok(WatchedFile {
            input,
            progress: self.progress,
        })
    }

    fn read(&self, alloc: Global, name: &str) -> Result<Vec<u8>, SourceFault> {
        self.source.read(alloc, name)
    }

    fn size(&self, name: &str) -> Option<u64> {
        self.source.size(name)
    }

    fn kind(&self, name: &str) -> NameKind {
        self.source.kind(name)
    }
}
