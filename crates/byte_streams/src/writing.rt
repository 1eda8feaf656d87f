//! Writing to an output.

ghost use Rattle.std.specs.Prelude.{◌≡◌, ◌≤◌, OnErr, OnOk, IfErr, IfOk, length, take, true};
ghost use Rattle.std.specs.Io.KnownBytes.{Appends, Keeps};
ghost use Rattle.byte_streams.specs.Stops.{AppendsPart, is_of_output};

use crate::stops::Stop;
use std::io;
use std::io::Write;

/// How many bytes are written at once, at most, but for a longer line: what a pipe takes whole or not at all.
const PIECE: usize = 4096;

/// What a fault of the output stops answers by.
pub fn stop_of_output(fault: &io::Error) -> Stop
    ensures { is_of_output result ≡ true }
{
    if fault.kind() == io::ErrorKind::BrokenPipe {
        Stop::NoReader
    } else {
        Stop::Unwritable
    }
}

/// Has a writer pass on what it may hold back.
fn flush<O: Write>(out: &mut O) -> Result<(), Stop>
    ensures kept { Keeps (O.contents out.old) (O.contents out.new) }
    ensures err { IfErr result (λ stop. is_of_output stop ≡ true) }
{
    match out.flush() {
        Ok(()) => Ok(()),
        Err(fault) => Err(stop_of_output(&fault)),
    }
}

/// How many bytes of a text its whole lines have, up to the last newline.
pub fn whole_lines(text: &[u8]) -> usize
    ensures { result ≤ length text.now }
{
    for behind in 0..text.len() {
        let count = text.len() - behind;
        if text[count - 1] == b'\n' {
            return count;
        }
    }
    0
}

/// How many bytes the first line of a text has, with its newline.
fn first_line(text: &[u8]) -> usize
    ensures { result ≤ length text.now }
{
    for index in 0..text.len() {
        if text[index] == b'\n' {
            return index + 1;
        }
    }
    text.len()
}

/// How many bytes of a text are written at once: whole lines, so that whoever is ended between two writes leaves whole lines.
fn piece_of(text: &[u8]) -> usize
    ensures { result ≤ length text.now }
{
    if text.len() <= PIECE {
        return text.len();
    }
    match whole_lines(&text[..PIECE]) {
        0 => first_line(text),
        count => count,
    }
}

/// One write of a text that is not empty: how much of it was written, and nothing where a signal interrupted it.
fn write_some<O: Write>(out: &mut O, text: &[u8]) -> Result<usize, Stop>
    ensures ok { IfOk result (λ count. (count ≤ length text.now) × Appends (O.contents out.old) (O.contents out.new) (take count text.now)) }
    ensures err { IfErr result (λ stop. is_of_output stop ≡ true) }
    ensures kept { OnErr result (Keeps (O.contents out.old) (O.contents out.new)) }
{
    match out.write(&text[..piece_of(text)]) {
        Ok(0) => Err(Stop::Unwritable),
        Ok(count) => Ok(count),
        Err(fault) if fault.kind() == io::ErrorKind::Interrupted => Ok(0),
        Err(fault) => Err(stop_of_output(&fault)),
    }
}

/// Writes a text whole, some lines at once, and flushes it; counts in `written` how many of its first bytes are written, also where that breaks
/// off, and writes nothing else.
///
/// A loop over `write` stands here, since `write_all` says nothing of what a writer holds that failed.
pub fn put_counted<O: Write>(out: &mut O, text: &[u8], written: &mut usize) -> Result<(), Stop>
    ensures whole { OnOk result (written.new ≡ length text.now) }
    ensures err { IfErr result (λ stop. is_of_output stop ≡ true) }
    ensures few { written.new ≤ length text.now }
    ensures first { Appends (O.contents out.old) (O.contents out.new) (take written.new text.now) }
{
    *written = 0;
    for _ in 0..u64::MAX {
        if *written == text.len() {
            return flush(out);
        }
        let count = write_some(out, &text[*written..])?;
        *written += count;
    }
    Err(Stop::Unwritable)
}

/// The same where nobody asks how much is written. Where it breaks off, a first part of the text is.
pub fn put<O: Write>(out: &mut O, text: &[u8]) -> Result<(), Stop>
    ensures ok { OnOk result (Appends (O.contents out.old) (O.contents out.new) text.now) }
    ensures err { IfErr result (λ stop. is_of_output stop ≡ true) }
    ensures part { OnErr result (AppendsPart (O.contents out.old) (O.contents out.new) text.now) }
{
    let mut written = 0;
    put_counted(out, text, &mut written)
}
