//! Inputs of collections, imported: their problems, printed.

ghost use Rattle.std.specs.Prelude.{◌≡◌, ◌++◌, ◌∷◌, [], ℕ, List, IfErr, IfOk, decimal};
ghost use Rattle.std.specs.Io.KnownBytes.{Appends};
ghost use Rattle.byte_streams.specs.Inputs.{MayBe};
ghost use Rattle.byte_streams.specs.Stops.{AppendsBy};
ghost use Rattle.chess_board.specs.Characters.{char};
ghost use Rattle.problem_import.specs.Imports.{ImportsAreRecords, ImportsKeepPositions, refused_line};
ghost use Rattle.problem_import.specs.Imported.{IsImported, IsImportedOfFirst};

use crate::import_counts::ImportCounts;
use crate::import_faults::ImportFault;
use crate::printing::Printing;
use crate::problem_handlers::ProblemHandler;
use crate::problem_lines::{ProblemLines, ProblemMemory, answer_problems};
use byte_streams::{Input, NoMemory, Stop};
use std::alloc::{AllocError, Global};
use std::io::Write;
use text_lines::Output;

/// Prints records and refusals.
#[derive(Drop)]
struct Printer {}

/// A line, with its newline.
fn printed_line(alloc: Global, line: &[u8]) -> Result<Vec<u8>, AllocError>
    ensures { IfOk result (λ printed. printed.items ≡ line.now ++ char "\n" ∷ []) }
{
    let mut printed = Vec::from_slice(alloc, line)?;
    printed.push(b'\n')?;
    Ok(printed)
}

/// What is printed of a problem that can't be read, by the digits of its number.
fn printed_refusal(
    alloc: Global,
    number: usize,
    digits: &[u8],
    fault: ImportFault,
) -> Result<Vec<u8>, AllocError>
    requires { digits.now ≡ decimal number }
    ensures { IfOk result (λ printed. printed.items ≡ refused_line number fault) }
{
    let mut refusal = Vec::from_slice(alloc, b"# line ")?;
    refusal.extend_from_slice(digits)?;
    refusal.extend_from_slice(b": ")?;
    refusal.extend_from_slice(fault.code().as_bytes())?;
    printed_line(alloc, refusal.as_slice())
}

impl ProblemHandler for Printer {
    ghost use Rattle.problem_import.specs.inside.Answered.{prints_record, prints_refusal};

    type Memory = ();

    ghost records = { λ _. prints_record };

    ghost rows = { λ _. prints_refusal };

    fn answer(
        &self,
        alloc: Global,
        _number: usize,
        line: &[u8],
        _memory: &mut (),
    ) -> Result<Output, NoMemory> {
        Ok(Output {
            text: printed_line(alloc, line)?,
            refused: 0,
        })
    }

    fn refuse(
        &self,
        alloc: Global,
        number: usize,
        fault: ImportFault,
    ) -> Result<Vec<u8>, NoMemory> {
        let digits = number.to_string(alloc)?;
        let printed = printed_refusal(alloc, number, digits.as_bytes(), fault)?;
        Ok(printed)
    }
}

/// Imports an input: what each line ends is printed before the next is waited for, but for a problem whose text goes on. With `keep` it is
/// told in `c9` of each record what was changed to make it. A problem that says no number of moves, and is no record as it stands, is made
/// one of such a bound, if one is given, and else refused. Gives at how many lines, the end of the input for one, a problem is refused.
/// What is printed is added to the counts; where it stops, they are of no use.
///
/// Men have such letters in the moves that records claim and avoid and in a game's first, and in placements; figurines mean the same in each
/// language, and problems for Popeye and Olive's have letters of their own. Where those of moves aren't English, every record is made anew,
/// and a word that names no legal move stands behind `?`; a placement's letter that is no man's is `?`.
///
/// Where it stops before the end, what some of the first lines say is written. No more than a problem is kept in memory.
pub fn import_input<I: Input + Drop, O: Write>(
    alloc: Global,
    printing: &Printing<'_>,
    counts: &mut ImportCounts,
    input: I,
    out: &mut O,
) -> Result<usize, Stop>
    ensures ok { IfOk result (λ count. (bytes : List ℕ) × (text : List ℕ) × MayBe (I.left input) bytes
        × IsImported printing.now.letters printing.now.keep printing.now.bound bytes text count
        × Appends (O.contents out.old) (O.contents out.new) text) }
    ensures err { IfErr result (λ stop. (bytes : List ℕ) × (text : List ℕ) × MayBe (I.left input) bytes
        × IsImportedOfFirst printing.now.letters printing.now.keep printing.now.bound bytes text
        × AppendsBy stop (O.contents out.old) (O.contents out.new) text) }
    ensures unreadable { IfErr result (λ stop. stop ≡ Stop.Unreadable → I.breaks input) }
{
    let printer = Printer {};
    let lines = ProblemLines::new(
        printing.rays,
        printing.letters,
        printing.keep,
        printing.bound,
        &printer,
    );
    lines.counts.set(*counts);
    let mut memory = ProblemMemory::new(());
    let end = answer_problems(alloc, &lines, input, &mut memory, out);
    *counts = lines.counts.get();
    end
}

/// A law: whatever was read, records and refusals are printed.
pub fn imports_are_records()
    ensures { ImportsAreRecords }
{}

/// A law: with `keep` each record that is printed has a line's position and number of moves, or is told to be of a game or for Popeye.
pub fn imports_keep_positions()
    ensures { ImportsKeepPositions }
{}
