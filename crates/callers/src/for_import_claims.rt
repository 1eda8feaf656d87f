//! A caller of `import_claims`.

ghost use Rattle.std.specs.Prelude.{IfOk, None, codes, map, true};
ghost use Rattle.file_answers.specs.Writing.{Gains};
ghost use Rattle.import_claims.specs.VerifiedImports.{VerifiesImported};
ghost use Rattle.problem_import.specs.Imported.{import_letters_in};

use byte_streams::Stop;
use command_words::{Files, ImportedAsked, MemoSize};
use file_answers::Source;
use import_claims::verify_imported;
use std::alloc::Global;
use std::io::Write;

/// The rows of the problems of files, behind the names of their fields; gives whether one isn't sound. Whoever says no number of moves is refused.
pub fn headed_rows<S: Source, O: Write, E: Write>(
    alloc: Global,
    size: MemoSize,
    files: &Files,
    source: &S,
    out: &mut O,
    err: &mut E,
) -> Result<bool, Stop>
    ensures { IfOk result (λ unsound. Gains (VerifiesImported (S.holds source.now) (import_letters_in (codes "en") (codes "en")) None true
        files.now.from (map (λ s. s.now) files.now.names.now) unsound) (O.contents out.old) (O.contents out.new)) }
{
    let asked = ImportedAsked {
        bound: None,
        memo: size,
        header: true,
        letters: "en",
        placements: "en",
        files: Files {
            names: files.names,
            from: files.from,
        },
    };
    verify_imported(alloc, &asked, source, out, err)
}
