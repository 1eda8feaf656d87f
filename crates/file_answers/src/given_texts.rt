//! Texts that are given in place of files.

ghost use Rattle.std.specs.Prelude.{◌≡◌, ◌≤◌, ◌<◌, ◌++◌, [], IfOk, drop, length, take};

use crate::sources::{NameKind, Source, SourceFault};
use byte_streams::{Input, InputFault};
use std::alloc::{AllocError, Global};
use std::io::Read;
use text_lines::Progress;

/// A text, of which so many bytes were read.
#[derive(Drop)]
pub struct GivenText {
    bytes: Vec<u8>,
    at: usize,
}

/// What is read: a text, or a file.
#[derive(Drop)]
pub enum Given<I: Drop> {
    Text(GivenText),
    File(I),
}

/// A source whose names are, where that is so, no names but the texts themselves.
#[derive(Drop)]
pub struct GivenTexts<'a, S> {
    pub source: &'a S,
    pub are_texts: bool,
}

impl GivenText {
    /// A text of which nothing was read.
    fn new(alloc: Global, text: &str) -> Result<GivenText, AllocError>
        ensures { IfOk result (λ given. drop given.at given.bytes.items ≡ text.now) }
    {
        Ok(GivenText {
            bytes: Vec::from_slice(alloc, text.as_bytes())?,
            at: 0,
        })
    }

    /// What is still to be read.
    fn rest(&self) -> &[u8]
        ensures { result.now ≡ drop self.now.at self.now.bytes.items }
    {
        let bytes = self.bytes.as_slice();
        bytes.split_at(self.at.min(bytes.len())).1
    }

    /// Puts what comes next at the start of `room`, and gives how many bytes; none only at the end, or where there is no room.
    fn read(&mut self, room: &mut [u8]) -> usize
        ensures within { result ≤ length room.new }
        ensures bytes { drop self.old.at self.old.bytes.items ≡ take result room.new ++ drop self.new.at self.new.bytes.items }
        ensures end { result ≡ 0 → 0 < length room.new → drop self.new.at self.new.bytes.items ≡ [] }
    {
        let mut rest = self.rest();
        let count = match Read::read(&mut rest, room) {
            Ok(count) => count,
            Err(_) => unreachable!(),
        };
        self.at += count;
        count
    }
}

impl<I: Input + Drop> Input for Given<I> {
    ghost use Rattle.file_answers.specs.inside.GivenTexts.{breaks_in, left_in};

    ghost left = { λ given. left_in (λ file. I.left file) given };

    ghost breaks = { λ given. breaks_in (λ file. I.breaks file) given };

    fn read(&mut self, room: &mut [u8]) -> Result<usize, InputFault> {
        match self {
            Given::Text(text) => Ok(text.read(room)),
            Given::File(file) => file.read(room),
        }
    }
}

impl<S: Source> Progress for GivenTexts<'_, S> {
    fn turns_to(&self, name: &str) {
        self.source.turns_to(name);
    }

    fn goes_on_with(&self, name: &str) {
        self.source.goes_on_with(name);
    }

    fn begins(&self, number: usize) {
        self.source.begins(number);
    }

    fn follows_lengths(&self) -> bool {
        self.source.follows_lengths()
    }

    fn searches(&self, moves: u8) {
        self.source.searches(moves);
    }

    fn ends(&self, replies: &[u8]) {
        self.source.ends(replies);
    }

    fn wrote(&self, refused: usize) {
        self.source.wrote(refused);
    }
}

impl<'a, S: Source> Source for GivenTexts<'a, S> {
    ghost use Rattle.file_answers.specs.Sources.{held, held_back};

    type File = Given<S::File>;

    ghost holds = { λ given. held given.are_texts (S.holds given.source.now) };

    ghost refuses = { λ given. held_back given.are_texts (S.refuses given.source.now) };

    fn open(&self, alloc: Global, name: &str) -> Result<Self::File, SourceFault> {
        if self.are_texts {
            Ok(Given::Text(GivenText::new(alloc, name)?))
        } else {
            Ok(Given::File(self.source.open(alloc, name)?))
        }
    }

    fn read(&self, alloc: Global, name: &str) -> Result<Vec<u8>, SourceFault> {
        if self.are_texts {
            Ok(Vec::from_slice(alloc, name.as_bytes())?)
        } else {
            self.source.read(alloc, name)
        }
    }

    fn size(&self, name: &str) -> Option<u64> {
        self.source.size(name)
    }

    fn kind(&self, name: &str) -> NameKind {
        self.source.kind(name)
    }
}
