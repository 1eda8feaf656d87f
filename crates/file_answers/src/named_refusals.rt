//! Which file the lines are of that are refused, where there are several.

use crate::sources::{NameKind, Source, SourceFault};
use arrayvec::ArrayVec;
use std::alloc::Global;
use std::cell::Cell;
use std::io;
use std::io::Write;
use text_lines::Progress;

/// How many bytes of a line are kept: more than a line has that refuses.
const MOST: usize = 128;

/// What a line that refuses begins with, and nothing else that is written line by line.
const MARK: &[u8] = b"# line ";

/// Which of several files is answered.
#[derive(Drop)]
pub struct FileInTurn<'w> {
    /// The words of the command line, among which the files are named.
    words: &'w [String],
    /// Which of them names the file, and 0 where it is the only one, or none was opened.
    file: Cell<usize>,
}

impl<'w> FileInTurn<'w> {
    /// None, of a command of such words.
    pub fn new(words: &'w [String]) -> FileInTurn<'w> {
        FileInTurn {
            words,
            file: Cell::new(0),
        }
    }

    /// It is the file of this name.
    fn turn_to(&self, name: &str) {
        for (index, word) in self.words.iter().enumerate() {
            if word.as_str() == name {
                self.file.set(index);
            }
        }
    }

    /// Its name, where it is one of several.
    fn name(&self) -> Option<&str> {
        match self.file.get() {
            0 => None,
            file => self.words.get(file).map(String::as_str),
        }
    }
}

/// The files of a source, of which it is known which is answered.
#[derive(Drop)]
pub struct NamedFiles<'a, 'w, S> {
    pub source: &'a S,
    pub turn: &'a FileInTurn<'w>,
}

impl<S: Source> Progress for NamedFiles<'_, '_, S> {
    fn goes_on_with(&self, name: &str) {
        self.turn.turn_to(name);
        self.source.goes_on_with(name);
    }

    fn turns_to(&self, name: &str) {
        self.source.turns_to(name);
    }

    fn begins(&self, number: usize) {
        self.source.begins(number);
    }

    fn follows_lengths(&self) -> bool {
        self.source.follows_lengths()
    }

    fn searches(&self, moves: u8) {
        self.source.searches(moves);
    }

    fn ends(&self, replies: &[u8]) {
        self.source.ends(replies);
    }

    fn wrote(&self, refused: usize) {
        self.source.wrote(refused);
    }
}

impl<S: Source> Source for NamedFiles<'_, '_, S> {
    type File = S::File;

    ghost holds = { λ files. S.holds files.source.now };

    ghost refuses = { λ files. S.refuses files.source.now };

    fn open(&self, alloc: Global, name: &str) -> Result<S::File, SourceFault> {
        self.source.open(alloc, name)
    }

    fn read(&self, alloc: Global, name: &str) -> Result<Vec<u8>, SourceFault> {
        self.source.read(alloc, name)
    }

    fn size(&self, name: &str) -> Option<u64> {
        self.source.size(name)
    }

    fn kind(&self, name: &str) -> NameKind {
        self.source.kind(name)
    }
}

/// A line that is written, as far as it may be one that refuses.
#[derive(Drop)]
struct BegunLine {
    bytes: ArrayVec<u8, MOST>,
    /// Whether it refuses nothing.
    is_other: bool,
}

impl BegunLine {
    /// One of which nothing is written.
    fn new() -> BegunLine {
        BegunLine {
            bytes: ArrayVec::new(),
            is_other: false,
        }
    }

    /// Takes a byte.
    fn push(&mut self, byte: u8) {
        if self.is_other {
            return;
        }
        let is_kept = self.bytes.try_push(byte).is_ok();
        let begun = self.bytes.as_slice();
        self.is_other = !is_kept || !(MARK.starts_with(begun) || begun.starts_with(MARK));
    }

    /// Ends it, and tells of it, where it refuses. That this can't be told changes nothing.
    fn end<E: Write>(&mut self, err: &mut E, name: &str) {
        if let Some(refused) = self.bytes.as_slice().strip_prefix(MARK) {
            if let Ok(refused) = str::from_utf8(refused) {
                let _ = writeln!(err, "matedesk: {name}: line {refused}");
            }
        }
        self.bytes.clear();
        self.is_other = false;
    }

    /// Takes what is written on it, and on lines behind it.
    fn take<E: Write>(&mut self, err: &mut E, name: &str, text: &[u8]) {
        for byte in text {
            if *byte == b'\n' {
                self.end(err, name);
            } else {
                self.push(*byte);
            }
        }
    }
}

/// An output, and who is told, once it is written, of each line that refuses one of several files.
#[derive(Drop)]
pub struct NamedRefusals<'a, 'w, O: Drop, E: Drop> {
    out: O,
    err: E,
    turn: &'a FileInTurn<'w>,
    line: BegunLine,
}

impl<'a, 'w, O: Drop, E: Write + Drop> NamedRefusals<'a, 'w, O, E> {
    /// That of an output to which nothing is written yet.
    pub fn new(out: O, err: E, turn: &'a FileInTurn<'w>) -> NamedRefusals<'a, 'w, O, E> {
        NamedRefusals {
            out,
            err,
            turn,
            line: BegunLine::new(),
        }
    }
}

impl<O: Write + Drop, E: Write + Drop> Write for NamedRefusals<'_, '_, O, E> {
    ghost contents = { λ named. O.contents named.out };

    fn write(&mut self, buf: &[u8]) -> io::Result<usize> {
        let count = self.out.write(buf)?;
        if let Some(name) = self.turn.name() {
            self.line.take(&mut self.err, name, &buf[..count]);
        }
        Ok(count)
    }

    fn flush(&mut self) -> io::Result<()> {
        self.out.flush()
    }
}
