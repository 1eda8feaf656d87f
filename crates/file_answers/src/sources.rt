//! Where files come from.

ghost use Rattle.std.specs.Prelude.{◌≡◌, ◌⊎◌, ℕ, List, Option, IfErr, IfOk, length, map};
ghost use Rattle.byte_streams.specs.Inputs.{MayBe};
ghost use Rattle.file_answers.specs.Sources.{HasAll, Holds, HoldsEach, HoldsMore, SomeRefused};

use crate::writing::{complain, complain_unreadable};
use byte_streams::{Input, Stop};
use std::alloc::Global;
use std::io::Write;
use text_lines::Progress;

/// How many bytes are asked for at once.
const PIECE: usize = 4096;

/// Why a file can't be had: it can't be read, or memory was refused.
pub use byte_streams::InputFault as SourceFault;

/// What is known of a name that can't be read.
#[derive(Clone, Copy, PartialEq, Eq)]
pub enum NameKind {
    /// Nothing.
    Unknown,
    /// It is that of a folder.
    Folder,
    /// It is that of a file that may not be read.
    Forbidden,
}

/// Files by their names, which is told how far they are answered.
pub trait Source: Progress {
    /// A file that was opened.
    type File: Input + Drop;

    /// What the file of a name holds, where that is known.
    ghost holds: { Self → List ℕ → Option (List ℕ) };

    /// The file of a name may be refused, or break off before its end.
    ghost refuses: { Self → List ℕ → Type 0 };

    /// The file of this name, of which nothing is read yet.
    fn open(&self, alloc: Global, name: &str) -> Result<Self::File, SourceFault>
        ensures bytes { IfOk result (λ file. HasAll (holds self.now name.now) (Self.File.Input.left file)) }
        ensures breaks { IfOk result (λ file. Self.File.Input.breaks file → refuses self.now name.now) }
        ensures refused { IfErr result (λ fault. fault ≡ SourceFault.Unreadable → refuses self.now name.now) };

    /// All bytes of the file of this name.
    fn read(&self, alloc: Global, name: &str) -> Result<Vec<u8>, SourceFault>
        ensures bytes { IfOk result (λ bytes. MayBe (holds self.now name.now) bytes.items) }
        ensures refused { IfErr result (λ fault. fault ≡ SourceFault.Unreadable → refuses self.now name.now) };

    /// How many bytes the file of this name has, where that is known before it is read.
    fn size(&self, _name: &str) -> Option<u64> {
        None
    }

    /// What is known of a name that can't be read, so that it can be said.
    fn kind(&self, _name: &str) -> NameKind {
        NameKind::Unknown
    }
}

/// Reads a file to its end.
pub fn whole<I: Input + Drop>(alloc: Global, file: I) -> Result<Vec<u8>, SourceFault>
    ensures bytes { IfOk result (λ bytes. MayBe (I.left file) bytes.items) }
    ensures refused { IfErr result (λ fault. fault ≡ SourceFault.Unreadable → I.breaks file) }
{
    let mut file = file;
    let mut bytes = Vec::new(alloc);
    let mut room = Vec::from_elem(alloc, 0, PIECE)?;
    for _ in 0..u64::MAX {
        let count = file.read(room.as_mut_slice())?;
        if count == 0 {
            return Ok(bytes);
        }
        bytes.extend_from_slice(&room.as_slice()[..count])?;
    }
    Err(SourceFault::NoMemory)
}

/// Whether a name begins as a record does: its first word has eight ranks of men and numbers.
fn begins_as_record(name: &str) -> bool {
    let mut strokes = 0_usize;
    for byte in name.as_bytes() {
        match *byte {
            b' ' => break,
            b'/' => strokes = strokes.saturating_add(1),
            b'1'..=b'8' => {}
            b'p' | b'n' | b'b' | b'r' | b'q' | b'k' => {}
            b'P' | b'N' | b'B' | b'R' | b'Q' | b'K' => {}
            _ => return false,
        }
    }
    strokes == 7
}

/// Says which file can't be read, and behind that what its name is and what to type, where that is known. That it can't be written changes
/// nothing.
pub(crate) fn complain_of<S: Source, E: Write>(err: &mut E, source: &S, name: &str) {
    complain_unreadable(err, name);
    if begins_as_record(name) {
        complain(
            err,
            "that is a record: behind --record solve, verify and tree take it as it stands",
        );
        return;
    }
    match source.kind(name) {
        NameKind::Folder => complain(err, "that is a folder: name the files in it, as FOLDER/*"),
        NameKind::Forbidden => complain(err, "that file may not be read: chmod u+r FILE"),
        NameKind::Unknown => {}
    }
}

/// Names the file that it stops at on `err`, if that can't be read; gives why it stops.
pub(crate) fn stop_at<S: Source, E: Write>(stop: Stop, err: &mut E, source: &S, name: &str) -> Stop
    ensures { result ≡ stop }
{
    if stop == Stop::Unreadable {
        complain_of(err, source, name);
    }
    stop
}

/// Tells the source which file is answered next, where there are several.
pub(crate) fn tell_next<S: Source>(source: &S, names: &[&str], name: &str) {
    if names.len() > 1 {
        source.goes_on_with(name);
    }
}

/// A file, of which nothing is read yet. One that can't be opened is named on `err`.
pub(crate) fn open_file<S: Source, E: Write>(
    alloc: Global,
    name: &str,
    source: &S,
    err: &mut E,
) -> Result<S::File, Stop>
    ensures bytes { IfOk result (λ file. HasAll (S.holds source.now name.now) (S.File.Input.left file)) }
    ensures breaks { IfOk result (λ file. S.File.Input.breaks file → S.refuses source.now name.now) }
    ensures refused { IfErr result (λ stop. (stop ≡ Stop.NoMemory) ⊎ ((stop ≡ Stop.Unreadable) × S.refuses source.now name.now)) }
{
    match source.open(alloc, name) {
        Ok(file) => Ok(file),
        Err(fault) => Err(stop_at(Stop::from(fault), err, source, name)),
    }
}

/// All bytes of a file. One that can't be read is named on `err`.
pub fn read_file<S: Source, E: Write>(
    alloc: Global,
    name: &str,
    source: &S,
    err: &mut E,
) -> Result<Vec<u8>, Stop>
    ensures bytes { IfOk result (λ bytes. MayBe (S.holds source.now name.now) bytes.items) }
    ensures refused { IfErr result (λ stop. (stop ≡ Stop.NoMemory) ⊎ ((stop ≡ Stop.Unreadable) × S.refuses source.now name.now)) }
{
    match source.read(alloc, name) {
        Ok(bytes) => Ok(bytes),
        Err(SourceFault::NoMemory) => Err(Stop::NoMemory),
        Err(SourceFault::Unreadable) => {
            complain_of(err, source, name);
            Err(Stop::Unreadable)
        }
    }
}

/// All bytes of each file, in order. The first that can't be read is named on `err`, and none behind it is opened.
pub fn read_files<S: Source, E: Write>(
    alloc: Global,
    names: &[&str],
    source: &S,
    err: &mut E,
) -> Result<Vec<Vec<u8>>, Stop>
    ensures count { IfOk result (λ files. length files.items ≡ length names.now) }
    ensures bytes { IfOk result (λ files. Holds (S.holds source.now) (map (λ s. s.now) names.now) (map (λ bytes. bytes.items) files.items)) }
    ensures refused { IfErr result (λ stop. (stop ≡ Stop.NoMemory)
        ⊎ ((stop ≡ Stop.Unreadable) × SomeRefused (S.refuses source.now) (map (λ s. s.now) names.now))) }
{
    let mut files = Vec::new(alloc);
    for name in names {
        let bytes = read_file(alloc, name, source, err)?;
        let Ok(()) = files.push(bytes) else {
            return Err(Stop::NoMemory);
        };
    }
    Ok(files)
}

/// What `Holds` says of names and inputs, however many they are. It does nothing: its contract is the law.
#[tactic(auto, using(crate::proofs::HeldFiles::holds_each, crate::proofs::HeldFiles::holds_more))]
pub fn holds_reads()
    ensures each { HoldsEach }
    ensures more { HoldsMore }
{}
