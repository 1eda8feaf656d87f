//! What writes the lines of trees.

ghost use Rattle.std.specs.Prelude.{IfErr, None, OnOk, Some};
ghost use Rattle.mate_tree.specs.inside.Sheets.{name_lines};
ghost use Rattle.mate_tree.specs.inside.Writers.{Adds, AddsPlain, AddsText, BeginsLine, EndsLine, Finishes, Stays};

use crate::sheets::Sheet;
use byte_streams::Stop;
use chess_moves::Rays;
use mate_search::Memo;
use std::io::Write;

/// What goes through all that writes a tree: the table to find moves by, the memo, and the sheet before the output.
#[derive(Drop)]
pub(crate) struct TreeWriter<'a, O> {
    pub rays: &'a Rays,
    pub memo: &'a mut Memo,
    pub sheet: Sheet,
    pub out: &'a mut O,
}

impl<O: Write> TreeWriter<'_, O> {
    /// Begins a line.
    pub(crate) fn begin(&mut self)
        ensures { BeginsLine O.contents self.old self.new }
    {
        let mark = self.sheet.mark();
        self.sheet.add(self.out, mark);
        self.sheet.count_line();
    }

    /// Adds a part of a line that was begun.
    pub(crate) fn push(&mut self, text: &[u8])
        ensures { AddsText O.contents self.old self.new text.now }
    {
        if self.sheet.is_cut() {
            return;
        }
        let shown = self.sheet.part(text);
        self.sheet.pass(shown.is_empty());
        self.sheet.show(self.out, shown);
    }

    /// Ends a line.
    pub(crate) fn end(&mut self)
        ensures { EndsLine O.contents self.old self.new }
    {
        let ending = self.sheet.ending();
        self.sheet.add(self.out, ending);
    }

    /// Writes a name, where it does not stand there and something is to stand below it.
    pub(crate) fn write_name(&mut self, name: &[u8], is_open: bool, has: bool)
        ensures { Adds O.contents self.old self.new (name_lines name.now is_open has) }
    {
        if is_open {
            return;
        }
        if has {
            self.begin();
            self.push(name);
            self.end();
        }
    }

    /// Adds a text that stands before the lines.
    pub(crate) fn add(&mut self, text: &[u8])
        ensures { AddsPlain O.contents self.old self.new text.now }
    {
        self.sheet.add(self.out, text);
    }

    /// Writes a last text, and all that is pending; says whether all was written.
    pub(crate) fn finish(&mut self, last: &[u8]) -> Result<(), Stop>
        ensures ok { OnOk result (Finishes O.contents self.old self.new None last.now) }
        ensures err { IfErr result (λ stop. Finishes O.contents self.old self.new (Some stop) last.now) }
        ensures stays { Stays self.old self.new }
    {
        self.sheet.finish(self.out, last)
    }
}
