//! A call of `byte_streams`.

ghost use Rattle.std.specs.Prelude.{◌≡◌, true, false};
ghost use Rattle.std.specs.Io.KnownBytes.{Appends};
ghost use Rattle.byte_streams.specs.Stops.{AppendsPart};

use byte_streams::put;
use std::io::Write;

/// Writes a text, and says whether all of it went out.
pub fn is_put<O: Write>(out: &mut O, text: &[u8]) -> bool
    ensures whole { result ≡ true → Appends (O.contents out.old) (O.contents out.new) text.now }
    ensures part { result ≡ false → AppendsPart (O.contents out.old) (O.contents out.new) text.now }
{
    match put(out, text) {
        Ok(()) => true,
        Err(_) => false,
    }
}
