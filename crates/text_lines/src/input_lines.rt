//! The lines of an input, taken from it as it comes.

ghost use Rattle.std.specs.Prelude.{◌≡◌, ◌++◌, ◌<◌, ◌≤◌, ◌+◌, ℕ, List, [], ◌∷◌, IfNone, IfOk, IfErr, IfSome, drop, false, length, true};
ghost use Rattle.std.specs.Io.KnownBytes.{Consumes, IsAtEnd, prepend_known};
ghost use Rattle.chess_notation.specs.Words.{is_blank as is_blank_text};
ghost use Rattle.text_lines.specs.Lines.{lines_of, without_cr as text_without_cr};
ghost use Rattle.text_lines.specs.inside.InputLines.{IsKept, IsOneLine, TakesLine, last_or, left_of, spaces_before};

use byte_streams::{Input, InputFault};
use chess_board::cut_at;
use std::alloc::{AllocError, Global};

/// How many bytes are asked for at once, where nothing else is said.
const PIECE: usize = 4096;

/// How long a line may be without its CR: as long as a record. That it is the `max_line` of records is proved.
pub const MAX_LINE: usize = 1023;

/// How many bytes of a line are kept: one more than the longest and the CR behind it.
const MOST_KEPT: usize = MAX_LINE + 2;

/// What is kept of a line that comes piece by piece: its first bytes, and what tells whether it is blank.
#[derive(Drop)]
pub(crate) struct Kept {
    pub(crate) bytes: Vec<u8>,
    /// Whether there are spaces alone before the last byte.
    pub(crate) spaces: bool,
    /// The last byte, or a space where there is none.
    pub(crate) last: u8,
}

impl Kept {
    /// Of a line of which nothing has come.
    fn new(alloc: Global) -> Kept
        ensures { IsKept result [] }
    {
        Kept {
            bytes: Vec::new(alloc),
            spaces: true,
            last: b' ',
        }
    }

    /// Looks at a piece that comes next, for what tells whether the line is blank.
    fn look_at(&mut self, piece: &[u8])
        ensures spaces { self.new.spaces ≡ spaces_before self.old.spaces self.old.last piece.now }
        ensures last { self.new.last ≡ last_or self.old.last piece.now }
        ensures bytes { self.new.bytes ≡ self.old.bytes }
    {
        for byte in piece {
            self.spaces = self.spaces && self.last == b' ';
            self.last = *byte;
        }
    }

    /// Takes in a piece that comes next.
    fn keep(&mut self, piece: &[u8]) -> Result<(), AllocError>
        ensures { IfOk result (λ _. (before : List ℕ) → IsKept self.old before → IsKept self.new (before ++ piece.now)) }
    {
        let room = MOST_KEPT.saturating_sub(self.bytes.len());
        let (first, _) = piece.split_at(room.min(piece.len()));
        self.bytes.extend_from_slice(first)?;
        self.look_at(piece);
        Ok(())
    }

    /// Whether the line has nothing but spaces, one CR at its end dropped.
    pub(crate) fn is_blank(&self) -> bool
        ensures { (line : List ℕ) → IsKept self.now line → result ≡ is_blank_text (text_without_cr line) }
    {
        self.spaces && (self.last == b' ' || self.last == b'\r')
    }
}

/// The first line of a text, and what follows the newline behind it; none where there is no newline.
fn cut_line(text: &[u8]) -> Option<(&[u8], &[u8])>
    ensures none { IfNone result (IsOneLine text.now) }
    ensures line { IfSome result (λ cut. IsOneLine cut.0.now) }
    ensures cut { IfSome result (λ cut. text.now ≡ cut.0.now ++ 10 ∷ cut.1.now) }
{
    for (index, byte) in text.iter().enumerate() {
        if *byte == b'\n' {
            let (line, _) = text.split_at(index);
            let (_, more) = text.split_at(index + 1);
            return Some((line, more));
        }
    }
    None
}

/// The first line of a text that isn't the last, and what follows it; none where the text is one line.
pub fn first_line(text: &[u8]) -> Option<(&[u8], &[u8])>
    ensures none { IfNone result (lines_of text.now ≡ text.now ∷ []) }
    ensures cut { IfSome result (λ cut. lines_of text.now ≡ cut.0.now ∷ lines_of cut.1.now) }
    ensures shorter { IfSome result (λ cut. length cut.1.now < length text.now) }
{
    cut_at(text, b'\n')
}

/// A line without one CR at its end.
pub fn without_cr(line: &[u8]) -> &[u8]
    ensures { result.now ≡ text_without_cr line.now }
{
    if !line.is_empty() && line[line.len() - 1] == b'\r' {
        line.split_at(line.len() - 1).0
    } else {
        line
    }
}

/// An input, of which lines are taken.
#[derive(Drop)]
pub(crate) struct Lines<I: Drop> {
    pub(crate) input: I,
    /// What was read last.
    pub(crate) piece: Vec<u8>,
    /// How much of it is taken.
    pub(crate) taken: usize,
    /// How many bytes are asked for at once.
    most: usize,
}

/// A line that was taken, and whether it is the last, behind which there is no newline.
#[derive(Drop)]
pub(crate) struct Taken {
    pub(crate) kept: Kept,
    pub(crate) is_last: bool,
}

impl<I: Input + Drop> Lines<I> {
    /// All lines of an input.
    pub(crate) fn new(alloc: Global, input: I) -> Lines<I>
        ensures left { left_of I.left result ≡ I.left input }
        ensures input { result.input ≡ input }
    {
        Lines::by_pieces(alloc, input, PIECE)
    }

    /// The same, by pieces of so many bytes, one at least.
    pub(crate) fn by_pieces(alloc: Global, input: I, most: usize) -> Lines<I>
        ensures left { left_of I.left result ≡ I.left input }
        ensures input { result.input ≡ input }
    {
        Lines {
            input,
            piece: Vec::new(alloc),
            taken: 0,
            most,
        }
    }

    /// Whether a whole line was read that isn't taken yet.
    pub(crate) fn has_line(&self) -> bool {
        let read = self.piece.as_slice();
        let (_, left) = read.split_at(self.taken.min(read.len()));
        cut_line(left).is_some()
    }

    /// Reads the next piece in place of the last; gives whether the input is at its end.
    fn read_on(&mut self) -> Result<bool, InputFault>
        ensures bytes { IfOk result (λ _. Consumes (I.left self.old.input) (I.left self.new.input) self.new.piece.items) }
        ensures end { IfOk result (λ at_end. at_end ≡ true → (self.new.piece.items ≡ []) × IsAtEnd (I.left self.new.input)) }
        ensures fresh { IfOk result (λ _. self.new.taken ≡ 0) }
        ensures unreadable { IfErr result (λ fault. fault ≡ InputFault.Unreadable → I.breaks self.old.input) }
        ensures steady { I.breaks self.new.input → I.breaks self.old.input }
    {
        self.piece.resize(self.most.max(1), 0)?;
        let count = self.input.read(self.piece.as_mut_slice())?;
        self.piece.truncate(count);
        self.taken = 0;
        Ok(count == 0)
    }

    /// Takes what was read and isn't taken yet, as far as the line goes; gives whether its newline came.
    fn take_piece(&mut self, kept: &mut Kept) -> Result<bool, AllocError>
        ensures ended { IfOk result (λ ended. ended ≡ true → (piece : List ℕ) × IsOneLine piece
            × (drop self.old.taken self.old.piece.items ≡ piece ++ 10 ∷ drop self.new.taken self.new.piece.items)
            × ((before : List ℕ) → IsKept kept.old before → IsKept kept.new (before ++ piece))) }
        ensures open { IfOk result (λ ended. ended ≡ false → IsOneLine (drop self.old.taken self.old.piece.items)
            × (drop self.new.taken self.new.piece.items ≡ [])
            × ((before : List ℕ) → IsKept kept.old before → IsKept kept.new (before ++ drop self.old.taken self.old.piece.items))) }
        ensures input { self.new.input ≡ self.old.input }
    {
        let read = self.piece.as_slice();
        let (_, left) = read.split_at(self.taken.min(read.len()));
        let Some((line, more)) = cut_line(left) else {
            kept.keep(left)?;
            self.taken = read.len();
            return Ok(false);
        };
        kept.keep(line)?;
        self.taken = read.len() - more.len();
        Ok(true)
    }

    /// Takes the next line. Whatever its length, no more than the longest record has is kept of it.
    pub(crate) fn take_line(&mut self, alloc: Global) -> Result<Taken, InputFault>
        ensures ok { IfOk result (λ taken. (line : List ℕ) × IsKept taken.kept line
            × TakesLine taken.is_last (left_of I.left self.old) (left_of I.left self.new) line) }
        ensures unreadable { IfErr result (λ fault. fault ≡ InputFault.Unreadable → I.breaks self.old.input) }
        ensures steady { I.breaks self.new.input → I.breaks self.old.input }
    {
        let mut kept = Kept::new(alloc);
        for _ in 0..u64::MAX {
            if self.take_piece(&mut kept)? {
                return Ok(Taken {
                    kept,
                    is_last: false,
                });
            }
            if self.read_on()? {
                return Ok(Taken {
                    kept,
                    is_last: true,
                });
            }
        }
        Err(InputFault::NoMemory)
    }
}
