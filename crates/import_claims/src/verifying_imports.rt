//! The command `verify --import`.

ghost use Rattle.std.specs.Prelude.{◌≡◌, ◌++◌, IfErr, IfOk, OnErr, OnOk, map, true};
ghost use Rattle.std.specs.Io.KnownBytes.{Appends};
ghost use Rattle.byte_streams.specs.Stops.{AppendsPart, is_of_output};
ghost use Rattle.file_answers.specs.Writing.{Gains};
ghost use Rattle.problem_import.specs.Imported.{import_letters_in};
ghost use Rattle.import_claims.specs.VerifiedImports.{ShowsRows, StopsRows, StopsVerifyingImported, VerifiesImported};
ghost use Rattle.import_claims.specs.VerifiedImports.{bound_or_three as three_unless, has_several, header_text, prefix_of};

use crate::imported_rows::ImportedRows;
use crate::lines_answered::answer_problems_from;
use byte_streams::{Input, Stop, put};
use chess_moves::Rays;
use chess_problems::Bound;
use command_words::ImportedAsked;
use file_answers::{
    FileAnswers, FileStart, Source, SourceFiles, answer_files, complain, holds_reads,
};
use file_solving::new_memo;
use file_verifying::ToldHints;
use mate_claims::{ClaimMemory, ClaimRows, Counts, Hints};
use problem_import::{ImportLetters, ProblemLines, ProblemMemory};
use std::alloc::{AllocError, Global};
use std::cell::Cell;
use std::io::Write;

/// Holds problems against their claims: with the bound of those that are made records of and say none, and that of records that say none.
#[derive(Drop)]
struct ImportedAnswers<'a> {
    rays: &'a Rays,
    letters: ImportLetters,
    bound: Option<Bound>,
    /// Whether a row names its file.
    several: bool,
    told: ToldHints,
}

/// What stands before the number of a line.
fn prefix_of(alloc: Global, several: bool, name: &str) -> Result<Vec<u8>, AllocError>
    ensures { IfOk result (λ prefix. prefix.items ≡ prefix_of several name.now) }
{
    let mut prefix = Vec::new(alloc);
    if several {
        prefix.extend_from_slice(name.as_bytes())?;
        prefix.push(b':')?;
    }
    Ok(prefix)
}

impl<'a> FileAnswers for ImportedAnswers<'a> {
    ghost use Rattle.file_answers.specs.FileAnswers.{unmarked};
    ghost use Rattle.import_claims.specs.VerifiedImports.{first_imported_replies, imported_replies};

    type Memory = ProblemMemory<ClaimMemory>;

    ghost replies = { λ answers. imported_replies answers.several answers.letters answers.bound };

    ghost told = { λ answers. unmarked (imported_replies answers.several answers.letters answers.bound) };

    ghost tells = { λ _ _ _ _ _ _ _ told. told };

    ghost first = { λ answers. first_imported_replies answers.several answers.letters answers.bound };

    fn answer<S: Source, I: Input + Drop, O: Write>(
        &self,
        alloc: Global,
        start: &FileStart<S>,
        input: I,
        memory: &mut ProblemMemory<ClaimMemory>,
        out: &mut O,
    ) -> Result<usize, Stop> {
        let prefix = prefix_of(alloc, self.several, start.name)?;
        let default = bound_or_three(self.bound);
        let rows = ImportedRows {
            rows: ClaimRows {
                rays: self.rays,
                default,
                prefix: prefix.as_slice(),
            },
            refused: Cell::new(0),
        };
        let lines = ProblemLines::new(self.rays, self.letters, false, self.bound, &rows);
        let unsound = answer_problems_from(alloc, &lines, start, input, memory, out);
        rows.count_refused(&mut memory.memory);
        unsound
    }

    fn tell_beside<E: Write>(
        &self,
        name: Option<&str>,
        memory: &ProblemMemory<ClaimMemory>,
        err: &mut E,
    ) {
        // What is told of moves that aren't read points here.
        let hints = Hints {
            unnamed: 0,
            ..memory.memory.hints
        };
        self.told.tell(name, hints, err);
    }

    fn begins_with_nothing(&self) {}
}

/// The bound of records that say none: the one that is given, or else 3.
fn bound_or_three(bound: Option<Bound>) -> Bound
    ensures { result ≡ three_unless bound }
{
    match (bound, Bound::new(3)) {
        (Some(bound), _) => bound,
        (None, Some(three)) => three,
        (None, None) => unreachable!(),
    }
}

/// Writes the row of each problem of each file, in order, but of those of the first file that are passed over.
fn show_rows<S: Source, O: Write, E: Write>(
    alloc: Global,
    asked: &ImportedAsked,
    source: &S,
    out: &mut O,
    err: &mut E,
) -> Result<bool, Stop>
    ensures ok { IfOk result (λ refused. Gains (ShowsRows (S.holds source.now)
        (import_letters_in asked.now.letters.now asked.now.placements.now) asked.now.bound asked.now.files.from
        (map (λ s. s.now) asked.now.files.names.now) refused) (O.contents out.old) (O.contents out.new)) }
    ensures err { IfErr result (λ stop. StopsRows (S.holds source.now) (S.refuses source.now)
        (import_letters_in asked.now.letters.now asked.now.placements.now) asked.now.bound asked.now.files.from
        (map (λ s. s.now) asked.now.files.names.now) stop (O.contents out.old) (O.contents out.new)) }
{
    // How many inputs there are of so many names.
    holds_reads();
    let rays = Rays::new();
    let memo = new_memo(alloc, asked.memo.get() as usize)?;
    let claims = ClaimMemory {
        memo,
        counts: Counts::new(),
        hints: Hints::new(),
    };
    let mut memory = ProblemMemory::new(claims);
    let answers = ImportedAnswers {
        rays: &rays,
        letters: ImportLetters::said(asked.letters, asked.placements),
        bound: asked.bound,
        several: asked.files.names.len() > 1,
        told: ToldHints::new(),
    };
    let files = SourceFiles {
        names: asked.files.names,
        from: asked.files.from,
        source,
    };
    match answer_files(alloc, &answers, &files, &mut memory, out, err) {
        Ok(unsound) => {
            let counts = memory.memory.counts.text(alloc)?;
            complain(err, counts.as_str());
            Ok(unsound)
        }
        Err(stop) => Err(stop),
    }
}

/// Writes the names of a row's fields, where these are asked for.
#[tactic(auto, unfolding(crate::specs::VerifiedImports::header_text))]
fn put_header<O: Write>(out: &mut O, header: bool) -> Result<(), Stop>
    ensures ok { OnOk result (Appends (O.contents out.old) (O.contents out.new) (header_text header)) }
    ensures err { IfErr result (λ stop. is_of_output stop ≡ true) }
    ensures part { OnErr result (AppendsPart (O.contents out.old) (O.contents out.new) (header_text header)) }
{
    if header {
        put(out, b"LINE\tVERDICT\tASKED\tFOUND\tKEYS\tCLAIMED\tID\n")
    } else {
        Ok(())
    }
}

/// Holds each problem of each file, in any form that `import` takes, against its claims, over one memo of such a size; gives whether one isn't
/// sound. A row is of the line where its problem begins; those that the lines before that of `from` say are passed over in the first file.
/// With a bound, a problem that says no number of moves is asked for so many; without one it is refused, but for a record as it stands, which
/// is asked for three. At the end `err` is told how many came to which verdict; a file that can't be read is named there.
pub fn verify_imported<S: Source, O: Write, E: Write>(
    alloc: Global,
    asked: &ImportedAsked,
    source: &S,
    out: &mut O,
    err: &mut E,
) -> Result<bool, Stop>
    ensures ok { IfOk result (λ refused. Gains (VerifiesImported (S.holds source.now)
        (import_letters_in asked.now.letters.now asked.now.placements.now) asked.now.bound asked.now.header asked.now.files.from
        (map (λ s. s.now) asked.now.files.names.now) refused) (O.contents out.old) (O.contents out.new)) }
    ensures err { IfErr result (λ stop. StopsVerifyingImported (S.holds source.now) (S.refuses source.now)
        (import_letters_in asked.now.letters.now asked.now.placements.now) asked.now.bound asked.now.header
        asked.now.files.from (map (λ s. s.now) asked.now.files.names.now) stop (O.contents out.old) (O.contents out.new)) }
{
    put_header(out, asked.header)?;
    show_rows(alloc, asked, source, out, err)
}
