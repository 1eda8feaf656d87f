//! What stands before rows, the names of their fields before all of them and the name of its file before each; and what is told behind a file's
//! rows and at their end.

ghost use Rattle.std.specs.Prelude.{◌≡◌, ◌++◌, IfErr, IfOk, OnErr, OnOk, true};
ghost use Rattle.std.specs.Io.KnownBytes.{Appends};
ghost use Rattle.byte_streams.specs.Stops.{AppendsPart, is_of_output};
ghost use Rattle.file_verifying.specs.Verified.{header_text, prefix_of};

use byte_streams::{NoMemory, Stop, put};
use file_answers::{complain, complain_of};
use mate_claims::{Counts, Hints};
use std::alloc::{AllocError, Global};
use std::cell::Cell;
use std::io::Write;

/// Rows of records, by who holds these against their claims, and whether a first row names their fields.
#[derive(Clone, Copy)]
pub struct Rows<'a, V> {
    pub by: &'a V,
    pub header: bool,
}

/// What stands before the number of a line.
pub(crate) fn prefix_of(alloc: Global, several: bool, name: &str) -> Result<Vec<u8>, AllocError>
    ensures { IfOk result (λ prefix. prefix.items ≡ prefix_of several name.now) }
{
    let mut prefix = Vec::new(alloc);
    if several {
        prefix.extend_from_slice(name.as_bytes())?;
        prefix.push(b':')?;
    }
    Ok(prefix)
}

/// Writes the names of a row's fields, where these are asked for.
#[tactic(auto, unfolding(crate::specs::Verified::header_text))]
pub(crate) fn put_header<O: Write>(out: &mut O, header: bool) -> Result<(), Stop>
    ensures ok { OnOk result (Appends (O.contents out.old) (O.contents out.new) (header_text header)) }
    ensures err { IfErr result (λ stop. is_of_output stop ≡ true) }
    ensures part { OnErr result (AppendsPart (O.contents out.old) (O.contents out.new) (header_text header)) }
{
    if header {
        put(out, b"LINE\tVERDICT\tASKED\tFOUND\tKEYS\tCLAIMED\tID\n")
    } else {
        Ok(())
    }
}

/// What is told where a claim names no move.
const UNNAMED: &str =
    "NoSuchMove: bm is read in SAN, pv by coordinates too; verify --import reads more in bm, as Qh7!, R6g2, b8N, 1.Bh1";

/// What is told where an opcode has other letters than the one that is read.
const MISSPELT: &str =
    "an opcode as DM asks and claims nothing; only am, bm, dm and pv in small letters do";

/// What was told of files so far beside their rows.
#[derive(Drop)]
pub struct ToldHints {
    so_far: Cell<Hints>,
}

impl ToldHints {
    /// Nothing.
    pub fn new() -> ToldHints {
        ToldHints {
            so_far: Cell::new(Hints::new()),
        }
    }

    /// Tells what was written in one file more, but isn't read so, each thing once; the file is named where it is one of several.
    pub fn tell<E: Write>(&self, name: Option<&str>, hints: Hints, err: &mut E) {
        let news = hints.since(self.so_far.get());
        self.so_far.set(hints);
        if news.unnamed > 0 {
            complain_of(err, name, UNNAMED);
        }
        if news.misspelt > 0 {
            complain_of(err, name, MISSPELT);
        }
    }
}

/// Tells at the end how many lines came to which verdict.
pub fn tell_counts<E: Write>(alloc: Global, counts: &Counts, err: &mut E) -> Result<(), NoMemory> {
    complain(err, counts.text(alloc)?.as_str());
    Ok(())
}
