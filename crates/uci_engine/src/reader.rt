//! What the thread that reads does: it takes the lines of an input as they come.

use crate::commands::{Command, command_in};
use crate::events::{Event, send};
use byte_streams::{Input, InputFault};
use crossbeam_channel::Sender;
use std::alloc::{AllocError, Global};
use std::sync::Wait;
use uci_commands::words_of;

/// How many bytes are asked for at once.
const PIECE: usize = 4096;

/// How many bytes of a line are read.
pub(crate) const MAX_LINE: usize = 65_536;

/// An input, of which lines are taken.
#[derive(Drop)]
struct Lines<I: Drop> {
    input: I,
    /// What was read last.
    piece: Vec<u8>,
    /// How much of it is taken.
    taken: usize,
}

/// A byte of a line as it is read: tabs are spaces, and a CR is one. What is not ASCII stands in no command: as `?` it is refused where it
/// matters.
fn plain(byte: u8) -> u8 {
    if byte == b'\t' || byte == b'\r' {
        b' '
    } else if byte < 128 {
        byte
    } else {
        b'?'
    }
}

/// Adds bytes to a line up to its newline; gives how many there were with that, and whether it came. Of a longer line one more byte is kept
/// than is read, by which it is known.
fn take_bytes(line: &mut Vec<u8>, bytes: &[u8]) -> Result<(usize, bool), AllocError> {
    for (index, byte) in bytes.iter().enumerate() {
        if *byte == b'\n' {
            return Ok((index + 1, true));
        }
        if line.len() <= MAX_LINE {
            line.push(plain(*byte))?;
        }
    }
    Ok((bytes.len(), false))
}

impl<I: Input + Drop> Lines<I> {
    /// All lines of an input.
    fn new(alloc: Global, input: I) -> Lines<I> {
        Lines {
            input,
            piece: Vec::new(alloc),
            taken: 0,
        }
    }

    /// Reads the next piece in place of the last; gives whether the input is at its end.
    fn read_on(&mut self) -> Result<bool, InputFault> {
        self.piece.resize(PIECE, 0)?;
        let count = self.input.read(self.piece.as_mut_slice())?;
        self.piece.truncate(count);
        self.taken = 0;
        Ok(count == 0)
    }

    /// The next line; none at the end of the input.
    fn next(&mut self, alloc: Global) -> Result<Option<Vec<u8>>, InputFault> {
        let mut line = Vec::new(alloc);
        for _ in 0..u64::MAX {
            let read = self.piece.as_slice();
            let (_, left) = read.split_at(self.taken.min(read.len()));
            let (count, is_whole) = take_bytes(&mut line, left)?;
            self.taken = self.taken.saturating_add(count);
            if is_whole {
                return Ok(Some(line));
            }
            if self.read_on()? {
                return Ok(if line.is_empty() { None } else { Some(line) });
            }
        }
        Err(InputFault::NoMemory)
    }
}

/// What has come where a line did.
fn event_of(alloc: Global, line: Vec<u8>) -> Event {
    let is_quit = match words_of(alloc, line.as_slice()) {
        Ok(Some(words)) => command_in(words.as_slice()).0 == Command::Quit,
        Ok(None) => false,
        Err(_) => return Event::End(Some(InputFault::NoMemory)),
    };
    if is_quit {
        Event::Quit
    } else {
        Event::Line(line)
    }
}

/// Sends each line of an input, up to its end or to `quit`.
pub(crate) fn run_reader<R: Wait, I: Input + Drop>(
    rt: &R,
    alloc: Global,
    input: I,
    events: &Sender<Event, Global>,
) {
    let mut lines = Lines::new(alloc, input);
    for _ in rt.forever() {
        let event = match lines.next(alloc) {
            Ok(Some(line)) => event_of(alloc, line),
            Ok(None) => Event::End(None),
            Err(fault) => Event::End(Some(fault)),
        };
        let is_end = matches!(&event, Event::Quit | Event::End(_));
        if !send(rt, events, event) || is_end {
            break;
        }
    }
}
