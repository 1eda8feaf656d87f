//! What lines are written on, as they are made: as many as there is room for.

ghost use Rattle.std.specs.Prelude.{◌≡◌, ◌++◌, ◌&&◌, [], IfErr, None, OnOk, Some, codes, ⊤};
ghost use Rattle.std.specs.List.{flat_map};
ghost use Rattle.mate_tree.specs.Layouts.{figured, figurine as figurine_of, lettered};
ghost use Rattle.mate_tree.specs.inside.Sheets.{GoesBy, Takes, closing, ending, gap, is_closed};
ghost use Rattle.mate_tree.specs.inside.Sheets.{line_end as line_end_of, mark, next, part as part_of, room_for};

use crate::forms::{Form, Pieces};
use crate::layouts::{behind_letter, figurine, letter_for, line_end, part};
use arrayvec::ArrayVec;
use byte_streams::{Stop, put, whole_lines};
use move_words::Letters;
use std::io::Write;
use std::marker::Model;
use std::slice::from_ref;

/// How many bytes wait to be written together, at most.
const BUFFER: usize = 4096;

/// What lies between lines and the output that they go to: a buffer, and room for so many lines. Lines are written whole, unless one is longer
/// than the buffer. Where a write breaks off, the sheet keeps why, and takes nothing more. It takes no memory.
#[derive(Drop)]
pub(crate) struct Sheet {
    /// What is not written yet.
    pending: ArrayVec<u8, BUFFER>,
    /// How many lines there is room for, where that is limited.
    left: Option<u32>,
    /// Whether a line was left out.
    cut: bool,
    /// Whether lines stand behind each other.
    column: bool,
    /// What stands for pieces.
    pieces: Pieces,
    /// Whether a line was begun.
    begun: bool,
    /// Whether nothing stands there yet of the last line of a column.
    fresh: bool,
    /// Why writing stopped, where it did.
    stop: Option<Stop>,
}

impl Model for Sheet {
    ghost use Rattle.mate_tree.specs.inside.Sheets.{SheetValue};

    ghost Value = { SheetValue };

    ghost view = { λ s. record {
      pending = s.pending.items;
      room = record {
        left = s.left;
        cut = s.cut;
        column = s.column;
        pieces = s.pieces;
        begun = s.begun;
        fresh = s.fresh;
      };
      stop = s.stop;
    } };
}

impl Sheet {
    /// An empty sheet for lines of this form.
    pub(crate) fn new(form: Form) -> Sheet
        ensures { result ≡ record { pending = []; room = room_for form; stop = None } }
    {
        Sheet {
            pending: ArrayVec::new(),
            left: form.lines,
            cut: false,
            column: form.column,
            pieces: form.pieces,
            begun: false,
            fresh: false,
            stop: None,
        }
    }

    /// Whether a line was left out, or writing stopped. Nothing is written any more then.
    pub(crate) fn is_closed(&self) -> bool
        ensures { result ≡ is_closed self.now }
    {
        match self.stop {
            Some(_) => true,
            None => self.cut,
        }
    }

    /// Writes what is pending.
    fn flush<O: Write>(&mut self, out: &mut O)
        ensures takes { Takes (O.contents out.old) self.old (O.contents out.new) self.new [] }
        ensures empty { self.new.stop ≡ None → self.new.pending ≡ [] }
    {
        if self.stop.is_some() {
            return;
        }
        match put(out, self.pending.as_slice()) {
            Ok(()) => self.pending.clear(),
            Err(stop) => {
                self.stop = Some(stop);
            }
        }
    }

    /// Writes the lines of what is pending; the start of one that isn't whole stays.
    fn flush_lines<O: Write>(&mut self, out: &mut O)
        ensures { Takes (O.contents out.old) self.old (O.contents out.new) self.new [] }
    {
        if self.stop.is_some() {
            return;
        }
        let pending = self.pending.as_slice();
        let (lines, start) = pending.split_at(whole_lines(pending));
        let mut kept = ArrayVec::new();
        let Ok(()) = kept.try_extend_from_slice(start) else {
            unreachable!()
        };
        match put(out, lines) {
            Ok(()) => self.pending = kept,
            Err(stop) => self.stop = Some(stop),
        }
    }

    /// Writes a text behind what is pending.
    fn put_behind<O: Write>(&mut self, out: &mut O, text: &[u8])
        requires { self.old.stop ≡ None → self.old.pending ≡ [] }
        ensures { Takes (O.contents out.old) self.old (O.contents out.new) self.new text.now }
    {
        if self.stop.is_some() {
            return;
        }
        if let Err(stop) = put(out, text) {
            self.stop = Some(stop);
        }
    }

    /// Adds a text to a line that was begun: to the buffer, or behind it where there is no room for it, since the line is longer.
    fn add_to_line<O: Write>(&mut self, out: &mut O, text: &[u8])
        ensures { Takes (O.contents out.old) self.old (O.contents out.new) self.new text.now }
    {
        if self.stop.is_some() {
            return;
        }
        match self.pending.try_extend_from_slice(text) {
            Ok(()) => {}
            Err(_) => {
                self.flush(out);
                self.put_behind(out, text);
            }
        }
    }

    /// Adds a text: to the buffer, whose lines are written first where there is no room for it.
    pub(crate) fn add<O: Write>(&mut self, out: &mut O, text: &[u8])
        ensures { Takes (O.contents out.old) self.old (O.contents out.new) self.new text.now }
    {
        if self.stop.is_some() {
            return;
        }
        if self.pending.try_extend_from_slice(text).is_err() {
            self.flush_lines(out);
            self.add_to_line(out, text);
        }
    }

    /// What stands before a line: in a column a space, but for the first.
    fn gap(&self) -> &'static [u8]
        ensures { result.now ≡ gap self.now.room }
    {
        if self.column && self.begun { b" " } else { b"" }
    }

    /// Two dots in place of a line.
    fn dots(&self) -> &'static [u8]
        ensures { result.now ≡ gap self.now.room ++ codes ".." ++ line_end_of self.now.room.column }
    {
        if !self.column {
            b"..\n"
        } else if self.begun {
            b" .."
        } else {
            b".."
        }
    }

    /// What stands before the next line, or two dots in place of the first that there is no room for, and then nothing.
    pub(crate) fn mark(&self) -> &'static [u8]
        ensures { result.now ≡ mark self.now.room }
    {
        if self.cut {
            return b"";
        }
        match self.left {
            Some(0) => self.dots(),
            Some(_) => self.gap(),
            None => self.gap(),
        }
    }

    /// Counts a line.
    pub(crate) fn count_line(&mut self)
        ensures { self.new ≡ record self.old { room = next self.old.room } }
    {
        if self.cut {
            return;
        }
        self.begun = true;
        match self.left {
            Some(0) => self.cut = true,
            Some(left) => {
                self.left = Some(left - 1);
                self.fresh = self.column;
            }
            None => self.fresh = self.column,
        }
    }

    /// Adds a text with figurines in place of letters.
    fn add_figurines<O: Write>(&mut self, out: &mut O, text: &[u8])
        ensures { Takes (O.contents out.old) self.old (O.contents out.new) self.new (flat_map figurine_of text.now) }
    {
        for byte in text {
            self.add(out, figurine(byte));
        }
    }

    /// Adds a byte, a piece's letter as such letters have it.
    fn add_letter<O: Write>(&mut self, out: &mut O, letters: &Letters, byte: u8)
        ensures { Takes (O.contents out.old) self.old (O.contents out.new) self.new (lettered letters.now byte) }
    {
        let first = letter_for(letters, byte);
        self.add(out, from_ref(&first));
        self.add(out, behind_letter(letters, byte));
    }

    /// Adds a text with such letters.
    fn add_lettered<O: Write>(&mut self, out: &mut O, letters: &Letters, text: &[u8])
        ensures { Takes (O.contents out.old) self.old (O.contents out.new) self.new (flat_map (lettered letters.now) text.now) }
    {
        for byte in text {
            self.add_letter(out, letters, *byte);
        }
    }

    /// What stands for pieces.
    fn pieces(&self) -> Pieces
        ensures { result ≡ self.now.room.pieces }
    {
        self.pieces
    }

    /// Adds a text with what stands for pieces.
    pub(crate) fn show<O: Write>(&mut self, out: &mut O, text: &[u8])
        ensures { Takes (O.contents out.old) self.old (O.contents out.new) self.new (figured self.old.room.pieces text.now) }
    {
        match self.pieces() {
            Pieces::San => self.add(out, text),
            Pieces::Figurines => self.add_figurines(out, text),
            Pieces::Letters(letters) => self.add_lettered(out, &letters, text),
        }
    }

    /// Whether a line was left out.
    pub(crate) fn is_cut(&self) -> bool
        ensures { result ≡ self.now.room.cut }
    {
        self.cut
    }

    /// What is shown of a part of a line.
    pub(crate) fn part<'a>(&self, text: &'a [u8]) -> &'a [u8]
        ensures { result.now ≡ part_of self.now.room.fresh text.now }
    {
        part(self.fresh, text)
    }

    /// Keeps in mind whether nothing stands there yet, behind what is shown of a part of a line.
    pub(crate) fn pass(&mut self, none: bool)
        ensures { self.new ≡ record self.old { room = record self.old.room { fresh = self.old.room.fresh && none } } }
    {
        self.fresh &= none;
    }

    /// What stands behind a line.
    pub(crate) fn ending(&self) -> &'static [u8]
        ensures { result.now ≡ ending self.now.room }
    {
        if self.cut { b"" } else { line_end(self.column) }
    }

    /// What ends a column, and an empty line.
    pub(crate) fn closing(&self) -> &'static [u8]
        ensures { result.now ≡ closing self.now.room }
    {
        if self.column && self.begun {
            b"\n\n"
        } else {
            b"\n"
        }
    }

    /// Writes a last text, and all that is pending; says whether all was written.
    pub(crate) fn finish<O: Write>(&mut self, out: &mut O, last: &[u8]) -> Result<(), Stop>
        ensures ok { OnOk result (GoesBy self.old.stop None (O.contents out.old) self.old.pending (O.contents out.new) [] last.now ⊤) }
        ensures err { IfErr result (λ stop.
            GoesBy self.old.stop (Some stop) (O.contents out.old) self.old.pending (O.contents out.new) [] last.now ⊤) }
    {
        self.add(out, last);
        self.flush(out);
        if let Some(stop) = self.stop {
            return Err(stop);
        }
        Ok(())
    }
}
