//! Texts in UTF-8 or Latin-1, made into printable ASCII.

ghost use Rattle.std.specs.Prelude.{◌≡◌, ◌++◌, [], IfOk, true};
ghost use Rattle.std.specs.List.{list_all};
ghost use Rattle.chess_notation.specs.Operations.{is_printable};
ghost use Rattle.problem_import.specs.Letters.{IsAscii, is_plain_byte, plain_byte as plain_byte_of, plain_front};

use crate::alphabets::latin_of;
use crate::changes::Changes;
use crate::figurines::figurine;
use crate::texts::push_byte;
use chess_board::Kind;
use move_words::Letters;
use std::alloc::{AllocError, Global};
use unicode_normalization::Form;
use unicode_normalization::char::{decomposition, is_combining_mark};

/// A line in printable ASCII: its number, its text, and what was changed to make it that.
#[derive(Clone, Copy)]
pub(crate) struct AsciiLine<'a> {
    pub(crate) number: usize,
    pub(crate) text: &'a [u8],
    pub(crate) changes: Changes,
}

/// Which quotation marks a string is open by.
#[derive(Clone, Copy, PartialEq, Eq)]
enum Open {
    No,
    Plain,
    Typographic,
}

/// A text that is made, and which string is open in it.
#[derive(Drop)]
struct Ascii<'a> {
    text: &'a mut Vec<u8>,
    changes: &'a mut Changes,
    open: Open,
    /// What stands for figurines.
    letters: &'a Letters,
}

/// What stands for a space of another width, a sign that nobody sees, a letter that has no mark to lose, or a sign.
fn ascii_of(c: char) -> Option<&'static str> {
    match c {
        '\u{00a0}' | '\u{2009}' | '\u{202f}' | '\u{2002}' | '\u{2003}' => Some(" "),
        '\u{feff}' | '\u{200b}' => Some(""),
        _ => latin_of(c),
    }
}

/// Whether it is a double quotation mark that isn't plain.
fn is_double_mark(c: char) -> bool {
    matches!(
        c,
        '\u{201c}' | '\u{201d}' | '\u{201e}' | '\u{201f}' | '\u{00ab}' | '\u{00bb}'
    )
}

/// Whether it is a single quotation mark that isn't plain.
fn is_single_mark(c: char) -> bool {
    matches!(
        c,
        '\u{2018}' | '\u{2019}' | '\u{201a}' | '\u{201b}' | '\u{2039}' | '\u{203a}'
    )
}

/// What stands for a byte that is plain: itself, or a space for a tab and for a CR.
fn plain_byte(byte: u8) -> Option<u8>
    ensures { result ≡ plain_byte_of byte }
{
    if b' ' <= byte && byte <= b'~' {
        Some(byte)
    } else if byte == b'\t' || byte == b'\r' {
        Some(b' ')
    } else {
        None
    }
}

/// Whether a line is printable ASCII alone.
fn is_plain(line: &[u8]) -> bool
    ensures { result ≡ list_all is_printable line.now }
{
    for byte in line {
        if *byte < b' ' || b'~' < *byte {
            return false;
        }
    }
    true
}

/// Adds what stands for a line up to its first byte that isn't plain; gives what stands from there on.
fn push_front<'l>(text: &mut Vec<u8>, line: &'l [u8]) -> Result<&'l [u8], AllocError>
    ensures front { IfOk result (λ _. text.new.items ≡ text.old.items ++ plain_front line.now) }
    ensures back { IfOk result (λ back. list_all is_plain_byte line.now ≡ true → back.now ≡ []) }
{
    let mut rest = line;
    while let [byte, more @ ..] = rest {
        let Some(plain) = plain_byte(*byte) else {
            return Ok(rest);
        };
        text.push(plain)?;
        rest = more;
    }
    Ok(rest)
}

/// Whether a tab or a CR stands in a line.
fn has_tab(line: &[u8]) -> bool {
    line.contains(&b'\t') || line.contains(&b'\r')
}

/// Which quotation marks a string is open by behind such a text.
fn open_behind(front: &[u8]) -> Open {
    let mut open = Open::No;
    for byte in front {
        if *byte == b'"' {
            open = if open == Open::No {
                Open::Plain
            } else {
                Open::No
            };
        }
    }
    open
}

impl Ascii<'_> {
    /// Adds a double quotation mark: a single one in a string that is open by another.
    fn push_double(&mut self, kind: Open) -> Result<(), AllocError> {
        if self.open != Open::No && self.open != kind {
            self.changes.quotes = true;
            return push_byte(self.text, b'\'');
        }
        self.open = if self.open == Open::No {
            kind
        } else {
            Open::No
        };
        push_byte(self.text, b'"')
    }

    /// Adds a man's letter, or a king's two.
    fn push_man(&mut self, kind: Kind) -> Result<(), AllocError> {
        self.text.push(self.letters.letter(kind))?;
        match (kind, self.letters.behind_king) {
            (Kind::King, Some(behind)) => push_byte(self.text, behind),
            _ => Ok(()),
        }
    }

    /// Adds what stands for one part of a letter: nothing for a mark.
    fn push_part(&mut self, c: char) -> Result<(), AllocError> {
        if c.is_ascii() {
            return push_byte(self.text, c as u8);
        }
        if let Some(kind) = figurine(c) {
            return self.push_man(kind);
        }
        match ascii_of(c) {
            Some(letters) => self.text.extend_from_slice(letters.as_bytes()),
            None if is_combining_mark(c) => Ok(()),
            None => push_byte(self.text, b'?'),
        }
    }

    /// Adds what stands for a letter beyond ASCII, or for a sign.
    fn push_letter(&mut self, c: char) -> Result<(), AllocError> {
        if is_double_mark(c) {
            self.changes.quotes = true;
            return self.push_double(Open::Typographic);
        }
        if is_single_mark(c) {
            self.changes.quotes = true;
            return push_byte(self.text, b'\'');
        }
        self.changes.letters = true;
        let mut room = ['a'; 3];
        for part in decomposition(c, Form::Nfd, &mut room) {
            self.push_part(*part)?;
        }
        Ok(())
    }

    /// Adds what stands for a character.
    fn push(&mut self, c: char) -> Result<(), AllocError> {
        if c == '"' {
            return self.push_double(Open::Plain);
        }
        if c == '\t' || c == '\r' {
            return push_byte(self.text, b' ');
        }
        if !c.is_ascii() {
            return self.push_letter(c);
        }
        if c.is_ascii_control() {
            self.changes.letters = true;
            return push_byte(self.text, b'?');
        }
        push_byte(self.text, c as u8)
    }
}

/// What stands for the bytes of a line from the first on that isn't plain, where such a string is open before them.
fn back_text(
    alloc: Global,
    letters: &Letters,
    back: &[u8],
    open: Open,
    changes: &mut Changes,
) -> Result<Vec<u8>, AllocError> {
    let mut text = Vec::new(alloc);
    let mut ascii = Ascii {
        text: &mut text,
        changes,
        open,
        letters,
    };
    match std::str::from_utf8(back) {
        Ok(utf8) => {
            for c in utf8.chars() {
                ascii.push(c)?;
            }
        }
        Err(_) => {
            for byte in back {
                ascii.push(char::from(*byte))?;
            }
        }
    }
    Ok(text)
}

/// A line in printable ASCII. What is no UTF-8 is read as Latin-1; letters lose their marks, figurines are men's letters,
/// and `?` stands for what has nothing like it.
pub(crate) fn ascii_text(
    alloc: Global,
    letters: &Letters,
    line: &[u8],
    changes: &mut Changes,
) -> Result<Vec<u8>, AllocError>
    ensures plain { IfOk result (λ text. list_all is_printable line.now ≡ true → text.items ≡ line.now) }
    ensures ascii { IfOk result (λ text. IsAscii line.now text.items) }
{
    if is_plain(line) {
        let text = Vec::from_slice(alloc, line)?;
        return Ok(text);
    }
    let mut text = Vec::new(alloc);
    let back = push_front(&mut text, line)?;
    changes.tabs = changes.tabs || has_tab(line);
    if back.is_empty() {
        return Ok(text);
    }
    let more = back_text(alloc, letters, back, open_behind(text.as_slice()), changes)?;
    text.extend_from_slice(more.as_slice())?;
    Ok(text)
}
