//! The command `sheet`.

ghost use Rattle.std.specs.Prelude.{◌≡◌, ◌≤◌, ◌⊎◌, IfErr, IfOk, map};
ghost use Rattle.command_words.specs.Limits.{max_memo_entries};
ghost use Rattle.file_answers.specs.Sources.{SomeRefused};
ghost use Rattle.file_answers.specs.Writing.{Gains};
ghost use Rattle.plain_commands.specs.Sheeted.{Sheets, StopsSheet, page_form_of};

use crate::letters::{letters_in, pieces_of};
use byte_streams::{Stop, put};
use chess_moves::Rays;
use command_words::{SheetAsked, SheetForm};
use file_answers::{Source, read_files};
use file_solving::new_memo;
use problem_sheets::{Form, add_files, page_text};
use std::alloc::Global;
use std::io::Write;

/// A page that was made, and whether a line is refused there.
#[derive(Drop)]
struct Page {
    text: Vec<u8>,
    refused: bool,
}

/// What a page has, as the words ask for it, of which one gives the letters of men.
fn form_of(form: &SheetForm, letters: &str) -> Form
    ensures { result ≡ page_form_of form.now letters.now }
{
    Form {
        solutions: form.solutions,
        pieces: pieces_of(form.figurines, letters_in(letters)),
    }
}

/// How many entries the memo has: where nothing is solved, one is enough.
fn entries_of(asked: &SheetAsked) -> usize
    ensures some { 1 ≤ result }
    ensures few { result ≤ max_memo_entries }
{
    if asked.form.solutions {
        asked.memo.get() as usize
    } else {
        1
    }
}

/// Reads all files, and makes their page.
fn page_of<S: Source, E: Write>(
    alloc: Global,
    asked: &SheetAsked,
    source: &S,
    err: &mut E,
) -> Result<Page, Stop>
    ensures ok { IfOk result (λ page. Sheets (S.holds source.now) asked.now.bound (page_form_of asked.now.form asked.now.letters.now)
        asked.now.title.now (map (λ s. s.now) asked.now.names.now) page.refused page.text.items) }
    ensures err { IfErr result (λ stop. (stop ≡ Stop.NoMemory)
        ⊎ ((stop ≡ Stop.Unreadable) × SomeRefused (S.refuses source.now) (map (λ s. s.now) asked.now.names.now))) }
{
    let files = read_files(alloc, asked.names, source, err)?;
    let rays = Rays::new();
    let contents = add_files(alloc, &rays, asked.bound, asked.names, files.as_slice())?;
    let mut memo = new_memo(alloc, entries_of(asked))?;
    let form = form_of(&asked.form, asked.letters);
    let text = page_text(alloc, &rays, &form, asked.title, &contents, &mut memo)?;
    Ok(Page {
        text,
        refused: contents.has_refused(),
    })
}

/// Makes one page of the records of files, in order, and writes it; gives whether a line was refused. The page is made whole before any of
/// it is written. A file that can't be read is named on `err`.
pub(crate) fn sheet<S: Source, O: Write, E: Write>(
    alloc: Global,
    asked: &SheetAsked,
    source: &S,
    out: &mut O,
    err: &mut E,
) -> Result<bool, Stop>
    ensures ok { IfOk result (λ refused. Gains (Sheets (S.holds source.now) asked.now.bound (page_form_of asked.now.form asked.now.letters.now)
        asked.now.title.now (map (λ s. s.now) asked.now.names.now) refused) (O.contents out.old) (O.contents out.new)) }
    ensures err { IfErr result (λ stop. StopsSheet (S.holds source.now) (S.refuses source.now) asked.now.bound
        (page_form_of asked.now.form asked.now.letters.now) asked.now.title.now (map (λ s. s.now) asked.now.names.now) stop
        (O.contents out.old) (O.contents out.new)) }
{
    let page = page_of(alloc, asked, source, err)?;
    put(out, page.text.as_slice())?;
    Ok(page.refused)
}
