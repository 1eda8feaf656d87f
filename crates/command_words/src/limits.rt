//! The numbers that the command line bounds: the depth of `perft`, how many workers, the entries of a memo, and numbers of lines.

ghost use Rattle.std.specs.Prelude.{◌≡◌, ◌≤◌, ℕ};
ghost use Rattle.command_words.specs.Limits.{depth_of, line_number_of, max_depth, max_line_number, max_memo_entries};
ghost use Rattle.command_words.specs.Limits.{max_workers, memo_size_of, workers_of};

use std::marker::Model;

/// The greatest depth.
const MAX_DEPTH: u8 = 6;

/// The most workers.
const MAX_WORKERS: u8 = 16;

/// The most entries of a memo.
const MAX_MEMO_ENTRIES: u64 = 268_435_456;

/// The greatest number of a line that may be asked for.
const MAX_LINE_NUMBER: u32 = 1_000_000_000;

/// A number of moves from 0 to 6.
#[derive(Clone, Copy, PartialEq, Eq)]
pub struct Depth {
    moves: u8,
}

impl Model for Depth {
    ghost Value = { ℕ };

    ghost view = { λ d. d.moves };

    ghost invariant = { λ d. d.moves ≤ max_depth };

    ghost inverse = { λ n. record { moves = n } };
}

impl Depth {
    /// The depth of so many moves; none above 6.
    pub fn new(moves: u8) -> Option<Depth>
        ensures { result ≡ depth_of moves }
    {
        if moves <= MAX_DEPTH {
            Some(Depth { moves })
        } else {
            None
        }
    }

    /// The number of moves.
    pub fn get(self) -> u8
        ensures moves { result ≡ self }
        ensures small { result ≤ max_depth }
    {
        self.moves
    }
}

/// A number of workers from 1 to 16.
#[derive(Clone, Copy, PartialEq, Eq)]
pub struct Workers {
    count: u8,
}

impl Model for Workers {
    ghost Value = { ℕ };

    ghost view = { λ w. w.count };

    ghost invariant = { λ w. (1 ≤ w.count) × (w.count ≤ max_workers) };

    ghost inverse = { λ n. record { count = n } };
}

impl Workers {
    /// So many workers; none outside 1 to 16.
    pub fn new(count: u8) -> Option<Workers>
        ensures { result ≡ workers_of count }
    {
        if 1 <= count && count <= MAX_WORKERS {
            Some(Workers { count })
        } else {
            None
        }
    }

    /// The number of workers.
    pub fn get(self) -> u8
        ensures count { result ≡ self }
        ensures some { 1 ≤ result }
        ensures few { result ≤ max_workers }
    {
        self.count
    }
}

/// A number of entries of a memo, from 1 to 268,435,456.
#[derive(Clone, Copy, PartialEq, Eq)]
pub struct MemoSize {
    entries: u32,
}

impl Model for MemoSize {
    ghost Value = { ℕ };

    ghost view = { λ m. m.entries };

    ghost invariant = { λ m. (1 ≤ m.entries) × (m.entries ≤ max_memo_entries) };

    ghost inverse = { λ n. record { entries = n } };
}

impl MemoSize {
    /// So many entries; none outside 1 to 268,435,456.
    pub fn new(entries: u64) -> Option<MemoSize>
        ensures { result ≡ memo_size_of entries }
    {
        if 1 <= entries && entries <= MAX_MEMO_ENTRIES {
            Some(MemoSize {
                entries: entries as u32,
            })
        } else {
            None
        }
    }

    /// The number of entries.
    pub fn get(self) -> u32
        ensures entries { result ≡ self }
        ensures some { 1 ≤ result }
        ensures few { result ≤ max_memo_entries }
    {
        self.entries
    }
}

/// The number of a line in its file, from 1 to 1,000,000,000.
#[derive(Clone, Copy, PartialEq, Eq)]
pub struct LineNumber {
    number: u32,
}

impl Model for LineNumber {
    ghost Value = { ℕ };

    ghost view = { λ l. l.number };

    ghost invariant = { λ l. (1 ≤ l.number) × (l.number ≤ max_line_number) };

    ghost inverse = { λ n. record { number = n } };
}

impl LineNumber {
    /// This number; none outside 1 to 1,000,000,000.
    pub fn new(number: u32) -> Option<LineNumber>
        ensures { result ≡ line_number_of number }
    {
        if 1 <= number && number <= MAX_LINE_NUMBER {
            Some(LineNumber { number })
        } else {
            None
        }
    }

    /// That of the first line.
    pub fn first() -> LineNumber
        ensures { result ≡ 1 }
    {
        LineNumber { number: 1 }
    }

    /// The number.
    pub fn get(self) -> u32
        ensures number { result ≡ self }
        ensures some { 1 ≤ result }
        ensures few { result ≤ max_line_number }
    {
        self.number
    }
}
