//! The command `tree`, and the same with `--json`.

ghost use Rattle.std.specs.Prelude.{◌≡◌, IfErr, IfOk, map};
ghost use Rattle.file_answers.specs.Writing.{Gains};
ghost use Rattle.json_commands.specs.Told.{StopsTellingJson, TellsJson};
ghost use Rattle.plain_commands.specs.Told.{StopsTelling, Tells, TellsNone, tree_form_of};

use crate::letters::{letters_in, pieces_of};
use byte_streams::{Input, Stop};
use chess_moves::Rays;
use chess_problems::Bound;
use command_words::{TreeAsked, TreeForm};
use file_answers::{FileAnswers, FileStart, Source, SourceFiles, answer_files};
use file_solving::new_memo;
use json_commands::tell_json;
use mate_search::Memo;
use mate_tree::{Form, TreeReplies};
use std::alloc::Global;
use std::io::Write;
use text_lines::{LinesFrom, write_replies};

/// How many positions a memo for trees has room for.
pub const TREE_ENTRIES: usize = 65_536;

/// Tells the trees of records, with the bound of those that say none.
#[derive(Clone, Copy)]
struct TreeAnswers<'a> {
    rays: &'a Rays,
    bound: Bound,
    form: Form,
}

/// What is shown of a tree, as the words ask for it, of which one gives the letters of men.
pub fn tree_form(form: &TreeForm, letters: &str) -> Form
    ensures { result ≡ tree_form_of form.now letters.now }
{
    Form {
        moves: form.moves,
        defences: form.defences,
        set_play: form.set_play,
        tries: form.tries,
        column: form.column,
        pieces: pieces_of(form.figurines, letters_in(letters)),
        lines: form.lines,
    }
}

impl<'a> FileAnswers for TreeAnswers<'a> {
    ghost use Rattle.file_answers.specs.FileAnswers.{unmarked};
    ghost use Rattle.plain_commands.specs.Told.{tree_replies, first_tree_replies};

    type Memory = Memo;

    ghost replies = { λ answers. tree_replies answers.form answers.bound };

    ghost told = { λ answers. unmarked (tree_replies answers.form answers.bound) };

    ghost tells = { λ _ _ _ _ _ _ _ told. told };

    ghost first = { λ answers. first_tree_replies answers.form answers.bound };

    fn answer<S: Source, I: Input + Drop, O: Write>(
        &self,
        alloc: Global,
        start: &FileStart<S>,
        input: I,
        memo: &mut Memo,
        out: &mut O,
    ) -> Result<usize, Stop> {
        let trees = TreeReplies {
            rays: self.rays,
            default: self.bound,
            form: self.form,
        };
        write_replies(
            alloc,
            &LinesFrom {
                by: &trees,
                from: start.from,
                progress: start.source,
            },
            input,
            memo,
            out,
        )
    }

    #[tactic(auto, using(crate::proofs::Unopened::no_tree_reply))]
    fn begins_with_nothing(&self) {}
}

/// Tells the tree of each record of each file in order, but of those of the first file that are passed over, over one memo, and opens a
/// file only after the trees of those before were written; gives whether a line was refused. A file that can't be read is named on `err`.
pub fn tree<S: Source, O: Write, E: Write>(
    alloc: Global,
    asked: &TreeAsked,
    source: &S,
    out: &mut O,
    err: &mut E,
) -> Result<bool, Stop>
    ensures ok { IfOk result (λ refused. Gains (Tells (S.holds source.now) asked.now.bound
        (tree_form_of asked.now.form asked.now.letters.now) asked.now.files.from (map (λ s. s.now) asked.now.files.names.now) refused) (O.contents out.old) (O.contents out.new)) }
    ensures err { IfErr result (λ stop. StopsTelling (S.holds source.now) (S.refuses source.now) asked.now.bound
        (tree_form_of asked.now.form asked.now.letters.now) asked.now.files.from (map (λ s. s.now) asked.now.files.names.now) stop (O.contents out.old) (O.contents out.new)) }
{
    let rays = Rays::new();
    let mut memo = new_memo(alloc, TREE_ENTRIES)?;
    let answers = TreeAnswers {
        rays: &rays,
        bound: asked.bound,
        form: tree_form(&asked.form, asked.letters),
    };
    let files = SourceFiles {
        names: asked.files.names,
        from: asked.files.from,
        source,
    };
    answer_files(alloc, &answers, &files, &mut memo, out, err)
}

/// The same in JSON.
pub fn tree_json<S: Source, O: Write, E: Write>(
    alloc: Global,
    asked: &TreeAsked,
    source: &S,
    out: &mut O,
    err: &mut E,
) -> Result<bool, Stop>
    ensures ok { IfOk result (λ refused. Gains (TellsJson (S.holds source.now) asked.now.bound
        (tree_form_of asked.now.form asked.now.letters.now) asked.now.files.from (map (λ s. s.now) asked.now.files.names.now) refused) (O.contents out.old) (O.contents out.new)) }
    ensures err { IfErr result (λ stop. StopsTellingJson (S.holds source.now) (S.refuses source.now) asked.now.bound
        (tree_form_of asked.now.form asked.now.letters.now) asked.now.files.from (map (λ s. s.now) asked.now.files.names.now) stop (O.contents out.old) (O.contents out.new)) }
{
    let rays = Rays::new();
    let mut memo = new_memo(alloc, TREE_ENTRIES)?;
    let trees = TreeReplies {
        rays: &rays,
        default: asked.bound,
        form: tree_form(&asked.form, asked.letters),
    };
    let files = SourceFiles {
        names: asked.files.names,
        from: asked.files.from,
        source,
    };
    tell_json(alloc, &trees, &files, &mut memo, out, err)
}

/// What a `tree` that ends before it has opened a file has written. It does nothing: its contract is the law.
#[tactic(auto, using(crate::proofs::Unopened::tells_none))]
pub fn tells_none()
    ensures { TellsNone }
{}
