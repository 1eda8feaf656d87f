//! A file in memory, and a digest in place of what is written.

ghost use Rattle.std.specs.Prelude.{None, ⊤};

use crate::stops::Stop;
use file_answers::{Reading, Source, SourceFault, whole};
use plain_commands::plain_command;
use std::alloc::Global;
use std::io;
use std::io::{Read, Write};
use text_lines::Progress;

/// FNV-1a of 64 bits (Fowler, Noll, Vo) over all that is written, and how many bytes that is.
#[derive(Clone, Copy, Drop)]
pub(crate) struct Digest {
    pub hash: u64,
    pub bytes: u64,
}

impl Digest {
    pub(crate) fn new() -> Digest {
        Digest {
            hash: 0xcbf2_9ce4_8422_2325,
            bytes: 0,
        }
    }

    /// Takes bytes in.
    pub(crate) fn add(&mut self, bytes: &[u8]) {
        let mut hash = self.hash;
        for byte in bytes {
            hash = (hash ^ *byte as u64).wrapping_mul(0x0000_0100_0000_01b3);
        }
        self.hash = hash;
        self.bytes = self.bytes.wrapping_add(bytes.len() as u64);
    }
}

impl Write for Digest {
    fn write(&mut self, buf: &[u8]) -> io::Result<usize> {
        self.add(buf);
        Ok(buf.len())
    }

    fn flush(&mut self) -> io::Result<()> {
        Ok(())
    }
}

/// The rest of a text.
#[derive(Drop)]
pub(crate) struct Rest<'a> {
    left: &'a [u8],
}

impl<'a> Read for Rest<'a> {
    fn read(&mut self, buf: &mut [u8]) -> io::Result<usize> {
        let count = self.left.len().min(buf.len());
        let (now, later) = self.left.split_at(count);
        buf[..count].copy_from_slice(now);
        self.left = later;
        Ok(count)
    }
}

/// One file, whatever its name.
#[derive(Drop)]
pub(crate) struct OneFile<'a> {
    pub text: &'a str,
}

impl Progress for OneFile<'_> {}

impl<'a> Source for OneFile<'a> {
    type File = Reading<Rest<'a>>;

    ghost holds = { λ _ _. None };

    ghost refuses = { λ _ _. ⊤ };

    fn open(&self, _alloc: Global, _name: &str) -> Result<Self::File, SourceFault> {
        Ok(Reading {
            reader: Rest {
                left: self.text.as_bytes(),
            },
        })
    }

    fn read(&self, alloc: Global, name: &str) -> Result<Vec<u8>, SourceFault> {
        whole(alloc, self.open(alloc, name)?)
    }
}

/// The words of a program, its name first.
fn program_words(alloc: Global, words: &[&str]) -> Result<Vec<String>, Stop> {
    let mut all = Vec::new(alloc);
    push_word(alloc, &mut all, "matedesk")?;
    for word in words {
        push_word(alloc, &mut all, word)?;
    }
    Ok(all)
}

fn push_word(alloc: Global, words: &mut Vec<String>, word: &str) -> Result<(), Stop> {
    match words.push(String::from_str(alloc, word)?) {
        Ok(()) => Ok(()),
        Err(_) => Err(Stop("NoMemory")),
    }
}

/// Answers a command over a text, whose file is named last; takes what it writes, and its status, into the digest.
pub(crate) fn command(
    alloc: Global,
    words: &[&str],
    text: &str,
    digest: &mut Digest,
) -> Result<(), Stop> {
    let words = program_words(alloc, words)?;
    let mut told = Digest::new();
    let status = plain_command(
        alloc,
        words.as_slice(),
        &OneFile { text },
        digest,
        &mut told,
    );
    digest.add(&[status.ok_or("threads")?]);
    digest.add(&told.hash.to_le_bytes());
    Ok(())
}
