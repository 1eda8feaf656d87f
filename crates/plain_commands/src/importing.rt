//! The command `import`.

ghost use Rattle.std.specs.Prelude.{◌≡◌, IfErr, IfOk, map};
ghost use Rattle.file_answers.specs.Writing.{Gains};
ghost use Rattle.plain_commands.specs.Imported.{ImportsFiles, StopsImporting};
ghost use Rattle.problem_import.specs.Imported.{import_letters_in};

use byte_streams::{Input, Stop};
use chess_moves::Rays;
use command_words::{ImportAsked, LineNumber};
use file_answers::{
    FileAnswers, FileStart, Source, SourceFiles, answer_files, complain, holds_reads,
};
use problem_import::{ImportCounts, ImportLetters, Printing, import_input};
use std::alloc::Global;
use std::io::Write;

/// Makes records of problems.
#[derive(Clone, Copy)]
struct Imports<'a> {
    printing: Printing<'a>,
}

impl<'a> FileAnswers for Imports<'a> {
    ghost use Rattle.file_answers.specs.FileAnswers.{unmarked};
    ghost use Rattle.plain_commands.specs.Imported.{import_replies, first_import_replies};

    type Memory = ImportCounts;

    ghost replies = { λ imports. import_replies imports.printing.letters imports.printing.keep imports.printing.bound };

    ghost told = { λ imports. unmarked (import_replies imports.printing.letters imports.printing.keep imports.printing.bound) };

    ghost tells = { λ _ _ _ _ _ _ _ told. told };

    ghost first = { λ imports. first_import_replies imports.printing.letters imports.printing.keep imports.printing.bound };

    fn answer<S: Source, I: Input + Drop, O: Write>(
        &self,
        alloc: Global,
        _start: &FileStart<S>,
        input: I,
        counts: &mut ImportCounts,
        out: &mut O,
    ) -> Result<usize, Stop> {
        import_input(alloc, &self.printing, counts, input, out)
    }

    fn begins_with_nothing(&self) {}
}

/// Makes records of the problems of each file in order, and opens a file only after those before were written; gives whether a problem was
/// refused. At the end `err` is told how many were, and how many records were printed; a file that can't be read is named there.
fn import<S: Source, O: Write, E: Write>(
    alloc: Global,
    imports: &Imports,
    names: &[&str],
    source: &S,
    out: &mut O,
    err: &mut E,
) -> Result<bool, Stop>
    ensures ok { IfOk result (λ refused. Gains (ImportsFiles (S.holds source.now) imports.now.printing.letters
        imports.now.printing.keep imports.now.printing.bound (map (λ s. s.now) names.now) refused) (O.contents out.old) (O.contents out.new)) }
    ensures err { IfErr result (λ stop. StopsImporting (S.holds source.now) (S.refuses source.now) imports.now.printing.letters
        imports.now.printing.keep imports.now.printing.bound (map (λ s. s.now) names.now) stop (O.contents out.old) (O.contents out.new)) }
{
    // How many inputs there are of so many names.
    holds_reads();
    let files = SourceFiles {
        names,
        from: LineNumber::first(),
        source,
    };
    let mut counts = ImportCounts::new();
    match answer_files(alloc, imports, &files, &mut counts, out, err) {
        Ok(refused) => {
            let counts = counts.text(alloc)?;
            complain(err, counts.as_str());
            Ok(refused)
        }
        Err(stop) => Err(stop),
    }
}

/// Makes records as it is asked, those that say no number of moves with the bound that is given, if one is.
pub fn import_given<S: Source, O: Write, E: Write>(
    alloc: Global,
    asked: &ImportAsked,
    source: &S,
    out: &mut O,
    err: &mut E,
) -> Result<bool, Stop>
    ensures ok { IfOk result (λ refused. Gains (ImportsFiles (S.holds source.now) (import_letters_in asked.now.letters.now asked.now.placements.now) asked.now.keep asked.now.bound
        (map (λ s. s.now) asked.now.names.now) refused) (O.contents out.old) (O.contents out.new)) }
    ensures err { IfErr result (λ stop. StopsImporting (S.holds source.now) (S.refuses source.now) (import_letters_in asked.now.letters.now asked.now.placements.now)
        asked.now.keep asked.now.bound (map (λ s. s.now) asked.now.names.now) stop (O.contents out.old) (O.contents out.new)) }
{
    let rays = Rays::new();
    let imports = Imports {
        printing: Printing {
            rays: &rays,
            keep: asked.keep,
            bound: asked.bound,
            letters: ImportLetters::said(asked.letters, asked.placements),
        },
    };
    import(alloc, &imports, asked.names, source, out, err)
}
