//! The moves that a record claims and avoids, mended: each that is named otherwise than in SAN.

ghost use Rattle.std.specs.Prelude.{◌≡◌, ◌≢◌, [], IfOk, IfSome, IsTrue};
ghost use Rattle.chess_notation.specs.RecordFields.{fourth_word, line_fields};
ghost use Rattle.problem_import.specs.inside.MendedMoves.{IsMeant};

use crate::changes::{Changes, Form};
use crate::fields::{behind_counters, has_fields, position_of, push_counters, text_before};
use crate::texts::{is_same, push_byte, push_word, trimmed};
use crate::tokens::{Kind, segment_at, token_at};
use arrayvec::ArrayString;
use chess_board::Position;
use chess_moves::Rays;
use chess_notation::{claimed_moves, four_words, san, word_at};
use move_words::{Letters, Named, is_aside, named_move};
use std::alloc::{AllocError, Global};

/// What stands behind four fields, made anew, and whether a move was mended in it.
#[derive(Drop)]
struct Moves<'a> {
    rays: &'a Rays,
    letters: &'a Letters,
    position: &'a Position,
    text: Vec<u8>,
    is_mended: bool,
}

/// Whether an operation claims or avoids moves.
fn has_moves(opcode: &[u8]) -> bool {
    is_same(opcode, "bm") || is_same(opcode, "am")
}

/// Whether one of these operations does.
fn have_moves(operations: &[u8]) -> bool {
    let mut rest = operations;
    for _ in 0..operations.len() {
        let Some(segment) = segment_at(rest) else {
            return false;
        };
        if has_moves(word_at(segment.text).0) {
            return true;
        }
        rest = segment.rest;
    }
    false
}

/// The text in SAN of the one legal move that a word names as people write moves, under these letters.
fn san_meant(
    rays: &Rays,
    letters: &Letters,
    position: &Position,
    word: &[u8],
) -> Option<ArrayString<8>>
    ensures { IfSome result (λ text. IsMeant letters.now position.now word.now text.bytes) }
{
    match named_move(rays, letters, position, word) {
        Named::One(m) => Some(san(rays, position, m)),
        Named::No | Named::Several => None,
    }
}

impl Moves<'_> {
    /// Adds a word behind a space.
    fn push(&mut self, word: &[u8]) -> Result<(), AllocError> {
        push_word(&mut self.text, word)
    }

    /// Whether a word is one that stays: a number of moves, or, where men have their English letters, a move as SAN has it.
    fn stays(&self, word: &[u8]) -> bool {
        match claimed_moves(self.rays, self.position, word) {
            Ok(moves) => self.letters.is_english() || moves.is_empty(),
            Err(_) => false,
        }
    }

    /// Adds a word that names no move under the letters: behind `?` where these aren't English, so that nobody takes it for one in SAN.
    fn push_unnamed(&mut self, word: &[u8]) -> Result<(), AllocError> {
        if self.letters.is_english() {
            return self.push(word);
        }
        self.is_mended = true;
        self.push(b"?")?;
        self.text.extend_from_slice(word)
    }

    /// Adds a word that names no move as it has to.
    fn push_mended(&mut self, word: &[u8]) -> Result<(), AllocError> {
        if is_aside(self.position.side(), word) {
            self.is_mended = true;
            return Ok(());
        }
        let Some(text) = san_meant(self.rays, self.letters, self.position, word) else {
            return self.push_unnamed(word);
        };
        let text = text.as_str().as_bytes();
        self.is_mended = self.is_mended || text != word;
        self.push(text)
    }

    /// Adds operands that are moves: those that stand as they have to, as they are.
    fn push_operands(&mut self, operands: &[u8]) -> Result<(), AllocError> {
        let mut rest = operands;
        for _ in 0..operands.len() {
            let Some(token) = token_at(rest) else {
                break;
            };
            let taken = rest.len().saturating_sub(token.rest.len()).min(rest.len());
            let word = trimmed(rest.split_at(taken).0);
            if !matches!(token.kind, Kind::Word) || self.stays(word) {
                self.push(word)?;
            } else {
                self.push_mended(word)?;
            }
            rest = token.rest;
        }
        Ok(())
    }

    /// Adds operations.
    fn push_operations(&mut self, operations: &[u8]) -> Result<(), AllocError> {
        let mut rest = operations;
        for _ in 0..operations.len() {
            let Some(segment) = segment_at(rest) else {
                break;
            };
            let (opcode, operands) = word_at(segment.text);
            if has_moves(opcode) {
                self.push(opcode)?;
                self.push_operands(operands)?;
            } else {
                self.push(segment.text)?;
            }
            push_byte(&mut self.text, b';')?;
            rest = segment.rest;
        }
        Ok(())
    }
}

/// Whether a text is a position, and counters if they are there, and no operation stands behind.
pub(crate) fn is_position(text: &[u8]) -> bool
    ensures { IsTrue result → fourth_word text.now ≢ [] }
{
    if !has_fields(text) {
        return false;
    }
    let fields = four_words(text);
    position_of(&fields).is_some() && trimmed(behind_counters(fields.behind)).is_empty()
}

/// A text whose moves are mended, or none where none wants it.
fn mended(
    alloc: Global,
    rays: &Rays,
    letters: &Letters,
    text: &[u8],
) -> Result<Option<Vec<u8>>, AllocError>
    ensures { IfOk result (λ made. IfSome made (λ new. line_fields new.items ≡ line_fields text.now)) }
{
    let fields = four_words(text);
    let mut counters = Vec::new(alloc);
    let operations = push_counters(&mut counters, fields.behind)?;
    if fields.target.is_empty() {
        return Ok(None);
    }
    if !have_moves(operations) {
        return Ok(None);
    }
    let Some(position) = position_of(&fields) else {
        return Ok(None);
    };
    let mut moves = Moves {
        rays,
        letters,
        position: &position,
        text: counters,
        is_mended: false,
    };
    moves.push_operations(operations)?;
    if !moves.is_mended {
        return Ok(None);
    }
    Ok(Some(text_before(alloc, &fields, moves.text.as_slice())?))
}

/// A text in which each move that it claims or avoids is named in SAN, as far as one legal move can be meant; a move's number and `ep` are
/// left out. Where there is nothing to mend, it is the text. The letters of men are these, but in a problem of Olive's.
pub(crate) fn with_moves(
    alloc: Global,
    rays: &Rays,
    letters: &Letters,
    text: &[u8],
    changes: &mut Changes,
) -> Result<Vec<u8>, AllocError>
    ensures fields { IfOk result (λ made. line_fields made.items ≡ line_fields text.now) }
    ensures form { changes.new.form ≡ changes.old.form }
{
    // Men of Popeye's and Olive's have been given the letters of SAN.
    let letters = match changes.form {
        Form::Popeye => &Letters::ENGLISH,
        Form::Line | Form::Game => letters,
    };
    match mended(alloc, rays, letters, text)? {
        Some(mended) => {
            changes.moves = true;
            Ok(mended)
        }
        None => Vec::from_slice(alloc, text),
    }
}
