//! Writing: what is shown on the output, and messages on the error output.

ghost use Rattle.std.specs.Prelude.{◌≡◌, IfErr, IfOk, OnErr, false, true};
ghost use Rattle.std.specs.Io.KnownBytes.{Appends};
ghost use Rattle.byte_streams.specs.Stops.{AppendsPart, is_of_output};

use byte_streams::{Stop, put};
use std::io::Write;

/// Writes the whole text that is shown. Nothing is refused then.
pub fn show<O: Write>(out: &mut O, text: &[u8]) -> Result<bool, Stop>
    ensures ok { IfOk result (λ refused. (refused ≡ false) × Appends (O.contents out.old) (O.contents out.new) text.now) }
    ensures err { IfErr result (λ stop. is_of_output stop ≡ true) }
    ensures part { OnErr result (AppendsPart (O.contents out.old) (O.contents out.new) text.now) }
{
    put(out, text)?;
    Ok(false)
}

/// A message for whoever reads the standard error. That it can't be written changes nothing.
pub fn complain<E: Write>(err: &mut E, message: &str) {
    let _ = writeln!(err, "matedesk: {message}");
}

/// A message about a file, which is named where it is one of several. That it can't be written changes nothing.
pub fn complain_of<E: Write>(err: &mut E, name: Option<&str>, message: &str) {
    match name {
        Some(name) => {
            let _ = writeln!(err, "matedesk: {name}: {message}");
        }
        None => complain(err, message),
    }
}

/// Says which file can't be read. That it can't be written changes nothing.
pub fn complain_unreadable<E: Write>(err: &mut E, name: &str) {
    let _ = writeln!(err, "matedesk: cannot read {name}");
}

/// Says how many records were not decided. That it can't be written changes nothing.
pub(crate) fn complain_undecided<E: Write>(err: &mut E, count: usize) {
    let _ = writeln!(err, "matedesk: not decided: {count}");
}

/// Says which line of a script is at fault. That it can't be written changes nothing.
pub fn complain_faulty<E: Write>(err: &mut E, number: usize) {
    let _ = writeln!(err, "matedesk: script line {number}");
}

/// Says which of the moves is none, counted from 1. That it can't be written changes nothing.
pub fn complain_move<E: Write>(err: &mut E, number: usize) {
    let _ = writeln!(err, "matedesk: move {number}: NoSuchMove");
}
