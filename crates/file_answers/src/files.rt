//! The files of the system.

ghost use Rattle.std.specs.Prelude.{None, ⊤};
ghost use Rattle.file_answers.specs.inside.Files.{left_of};

use crate::sources::{NameKind, Source, SourceFault, whole};
use byte_streams::Input;
use std::alloc::Global;
use std::io::{Read, Stdin};
use std::rt::Files;
use std::{fs, io};
use text_lines::Progress;

/// What a reader gives, to its end; that it breaks off is not shut out. What a signal interrupts is tried again.
#[derive(Drop)]
pub struct Reading<R> {
    pub reader: R,
}

impl<R: Read> Input for Reading<R> {
    ghost left = { λ reading. R.remaining reading.reader };

    ghost breaks = { λ _. ⊤ };

    fn read(&mut self, room: &mut [u8]) -> Result<usize, SourceFault> {
        for _ in 0..u64::MAX {
            match self.reader.read(room) {
                Ok(count) => return Ok(count),
                Err(fault) => match fault.kind() {
                    io::ErrorKind::Interrupted => {}
                    io::ErrorKind::OutOfMemory => return Err(SourceFault::NoMemory),
                    _ => return Err(SourceFault::Unreadable),
                },
            }
        }
        Err(SourceFault::Unreadable)
    }
}

/// A file or standard input.
#[derive(Drop)]
pub enum Stream<F> {
    File(F),
    StandardInput(Stdin),
}

impl<F: Read> Read for Stream<F> {
    ghost remaining = { left_of (λ file. F.remaining file) };

    fn read(&mut self, buf: &mut [u8]) -> io::Result<usize> {
        match self {
            Stream::File(file) => file.read(buf),
            Stream::StandardInput(stdin) => stdin.read(buf),
        }
    }
}

/// The files of the system. What a name holds is not known, only that what is opened is read as it is. The name `-` is standard input, which
/// has one reading for all who ask.
#[derive(Clone, Copy)]
pub struct FileSystem<'r, R> {
    pub rt: &'r R,
    pub stdin: Stdin,
}

/// The system isn't told.
impl<R> Progress for FileSystem<'_, R> {}

impl<'r, R: Files + AllocGlobal> Source for FileSystem<'r, R> {
    type File = Reading<Stream<R::File>>;

    ghost holds = { λ _ _. None };

    ghost refuses = { λ _ _. ⊤ };

    fn open(&self, _alloc: Global, name: &str) -> Result<Self::File, SourceFault> {
        if name == "-" {
            let reader = Stream::StandardInput(self.stdin);
            return Ok(Reading { reader });
        }
        match fs::open(self.rt, name) {
            Ok(file) => Ok(Reading {
                reader: Stream::File(file),
            }),
            Err(fault) if fault.kind() == io::ErrorKind::OutOfMemory => Err(SourceFault::NoMemory),
            Err(_) => Err(SourceFault::Unreadable),
        }
    }

    fn read(&self, alloc: Global, name: &str) -> Result<Vec<u8>, SourceFault> {
        whole(alloc, self.open(alloc, name)?)
    }

    fn size(&self, name: &str) -> Option<u64> {
        match fs::metadata(self.rt, name) {
            Ok(found) if name != "-" && found.is_file() => Some(found.len()),
            _ => None,
        }
    }

    fn kind(&self, name: &str) -> NameKind {
        if name == "-" {
            return NameKind::Unknown;
        }
        match fs::open(self.rt, name) {
            Err(fault) if fault.kind() == io::ErrorKind::PermissionDenied => NameKind::Forbidden,
            _ => match fs::metadata(self.rt, name) {
                Ok(found) if found.is_dir() => NameKind::Folder,
                _ => NameKind::Unknown,
            },
        }
    }
}
