//! How the lines of a tree are laid out.

ghost use Rattle.std.specs.Prelude.{◌≡◌, ◌==◌, [], codes, if◌then◌else◌};
ghost use Rattle.chess_board.specs.Characters.{char};
ghost use Rattle.mate_tree.specs.Layouts.{any_byte, figurine as figurine_of, heading, letter_for as letter_for_of, unindented as unindented_of};
ghost use Rattle.mate_tree.specs.inside.Sheets.{line_end as line_end_of, part as part_of};

use move_words::Letters;
use std::slice::from_ref;

/// A text without the spaces that it begins with.
fn unindented(text: &[u8]) -> &[u8]
    ensures { result.now ≡ unindented_of text.now }
{
    for index in 0..text.len() {
        if text[index] != b' ' {
            return &text[index..];
        }
    }
    b""
}

/// What is shown of a part of a line: no spaces, where nothing stands there yet of a line of a column.
pub(crate) fn part(fresh: bool, text: &[u8]) -> &[u8]
    ensures { result.now ≡ part_of fresh text.now }
{
    if fresh { unindented(text) } else { text }
}

/// What stands for a byte, a figurine for a piece's letter.
pub(crate) fn figurine(byte: &u8) -> &[u8]
    ensures { result.now ≡ figurine_of byte.now }
{
    if *byte == b'K' {
        b"\xe2\x99\x94"
    } else if *byte == b'Q' {
        b"\xe2\x99\x95"
    } else if *byte == b'R' {
        b"\xe2\x99\x96"
    } else if *byte == b'B' {
        b"\xe2\x99\x97"
    } else if *byte == b'N' {
        b"\xe2\x99\x98"
    } else {
        from_ref(byte)
    }
}

/// What such letters have for a piece's; other bytes as they are.
pub(crate) fn letter_for(letters: &Letters, byte: u8) -> u8
    ensures { result ≡ letter_for_of letters.now byte }
{
    if byte == b'K' {
        letters.king
    } else if byte == b'Q' {
        letters.queen
    } else if byte == b'R' {
        letters.rook
    } else if byte == b'B' {
        letters.bishop
    } else if byte == b'N' {
        letters.knight
    } else {
        byte
    }
}

/// What stands behind the first letter of a king in such letters, and behind other bytes nothing.
pub(crate) fn behind_letter(letters: &Letters, byte: u8) -> &[u8]
    ensures { result.now ≡ if byte == char "K" then any_byte letters.now.behind_king else [] }
{
    if byte != b'K' {
        return b"";
    }
    match &letters.behind_king {
        Some(more) => from_ref(more),
        None => b"",
    }
}

/// What ends a line: nothing in a column.
pub(crate) fn line_end(column: bool) -> &'static [u8]
    ensures { result.now ≡ line_end_of column }
{
    if column { b"" } else { b"\n" }
}

/// The heading of set play.
pub(crate) fn set_play_heading(column: bool) -> &'static [u8]
    ensures { result.now ≡ heading column (codes "set play") }
{
    if column { b"set play:" } else { b"set play" }
}

/// The heading of tries.
pub(crate) fn tries_heading(column: bool) -> &'static [u8]
    ensures { result.now ≡ heading column (codes "tries") }
{
    if column { b"tries:" } else { b"tries" }
}
