//! The movetext of a game in PGN (Portable Game Notation Specification, section 8.2): the comments before its first move, which may say a number
//! of moves; and that move, which is claimed. What stands behind it is passed over.

ghost use Rattle.std.specs.Prelude.{◌≡◌, ◌⊎◌, Contains, IfOk, IfSome, true};
ghost use Rattle.chess_board.specs.Characters.{char};
ghost use Rattle.problem_import.specs.Sources.{SaysMoves};
ghost use Rattle.problem_import.specs.inside.KnownSources.{AsksMore, CommentSays, KeepsAsked, KeepsFen};
ghost use Rattle.problem_import.specs.TagPairs.{EndsText, begins_with as begins_with_byte};

use crate::games::Game;
use crate::moves::is_position;
use crate::tag_pairs::begins_with;
use crate::texts::{cut_at, is_same, push_byte, without_first};
use std::alloc::AllocError;
use stipulations::{Asked, moves_asked};

/// Movetext that is passed over.
#[derive(Clone, Copy)]
pub(crate) struct Movetext {
    /// Whether a comment in braces is open.
    pub(crate) in_comment: bool,
}

/// A word of movetext, up to a space, a comment or a mark as `$1`, and what stands behind.
fn move_word(text: &[u8]) -> (&[u8], &[u8])
    ensures { EndsText result.1.now text.now }
{
    for (index, byte) in text.iter().enumerate() {
        if matches!(*byte, b' ' | b'{' | b';') || (index > 0 && *byte == b'$') {
            return text.split_at(index);
        }
    }
    (text, &[])
}

/// A comment in braces with which a text begins, if it does, and what stands behind.
fn cut_braces(text: &[u8]) -> (&[u8], &[u8]) {
    if begins_with(b'{', text) {
        cut_at(text, b'}')
    } else {
        (&[], text)
    }
}

/// Whether a word blames the move before it: `$2`, `$4`, `$5`, `$6`, or one with `?`.
fn blames(word: &[u8]) -> bool {
    matches!(word, [b'$', b'2' | b'4'..=b'6']) || word.contains(&b'?')
}

/// Whether a word is a mark of a move: `$1`, `!`, `?`.
fn is_mark(word: &[u8]) -> bool {
    matches!(word, [b'$' | b'!' | b'?', ..])
}

/// Whether a comment is a mark of blame and nothing else: `{?}`.
fn is_blame(comment: &[u8]) -> bool {
    let mut is_blame = false;
    for byte in without_first(comment, 1) {
        match *byte {
            b'?' => is_blame = true,
            b'!' | b' ' => {}
            _ => return false,
        }
    }
    is_blame
}

/// Whether one of the marks behind a move blames it, between which comments may stand, or a comment that is such a mark.
fn is_blamed(behind: &[u8]) -> bool {
    let mut rest = behind;
    for _ in 0..behind.len() {
        let (comment, text) = cut_braces(rest.trim_ascii_start());
        let (word, more) = move_word(text.trim_ascii_start());
        if is_blame(comment) || blames(word) {
            return true;
        }
        if !is_mark(word) && !begins_with(b'{', text.trim_ascii_start()) {
            return false;
        }
        rest = if word.is_empty() { text } else { more };
    }
    false
}

/// Whether a word of movetext claims a key: it has the form of castling, or a letter and behind it a rank; and it isn't blamed.
pub(crate) fn is_key(word: &[u8]) -> bool {
    let mut is_move = matches!(word, [_, b'-', b'O' | b'0', ..]);
    for byte in word {
        if matches!(*byte, b'?' | b'"') {
            return false;
        }
        is_move = is_move || matches!(*byte, b'1'..=b'8');
    }
    match word {
        [first, ..] => is_move
            && word.len() < 16
            && (*first == b'0' || first.is_ascii_alphabetic()),
        [] => false,
    }
}

/// What stands before a key that is claimed.
fn claim_opcode(is_blacks: bool) -> &'static str
    ensures { begins_with_byte (char " ") result.now ≡ true }
{
    if is_blacks { " bm 1..." } else { " bm " }
}

impl Game {
    /// Claims a key behind the position, if that is one and no operation stands there.
    fn claim(&mut self, key: &[u8]) -> Result<(), AllocError>
        ensures fen { IfOk result (λ _. KeepsFen self.old self.new) }
        ensures asks { IfOk result (λ _. KeepsAsked self.old self.new) }
        ensures begun { IfOk result (λ _. self.new.is_begun ≡ self.old.is_begun) }
        ensures comment { IfOk result (λ _. self.new.in_comment ≡ self.old.in_comment) }
    {
        if !is_position(self.fen.as_slice()) {
            return Ok(());
        }
        self.changes.moves = true;
        self.fen
            .extend_from_slice(claim_opcode(self.is_blacks).as_bytes())?;
        self.fen.extend_from_slice(key)?;
        push_byte(&mut self.fen, b';')?;
        Ok(())
    }

    /// Takes a comment up to its end, or the line's: it may ask for a number of moves. Of one over several lines a part that speaks of an aim
    /// isn't understood, since what goes on there may be of it.
    fn take_comment<'t>(&mut self, text: &'t [u8], is_front: bool) -> &'t [u8]
        ensures fen { KeepsFen self.old self.new }
        ensures asks { AsksMore (CommentSays text.now) self.old self.new }
        ensures rest { EndsText result.now text.now }
    {
        let (comment, behind) = cut_at(text, b'}');
        self.in_comment = comment.len() == text.len();
        self.take_sides(comment);
        let asked = match moves_asked(comment) {
            Asked::Moves(_) if self.in_comment || !is_front => Asked::Unknown,
            asked => asked,
        };
        self.asked = self.asked.and(asked);
        behind
    }

    /// Takes the comment that is open, if one is, which may begin there; gives what stands behind.
    fn after_comment<'t>(&mut self, text: &'t [u8], is_front: bool) -> &'t [u8]
        ensures fen { KeepsFen self.old self.new }
        ensures asks { AsksMore (CommentSays text.now) self.old self.new }
        ensures rest { EndsText result.now text.now }
        ensures comment { self.new.in_comment ≡ true → self.old.in_comment ≡ true }
    {
        if !self.in_comment {
            return text;
        }
        self.take_comment(text, is_front)
    }

    /// Takes a byte of a number, its dots, or a mark as `$1`, if one stands there; gives what stands behind.
    fn take_mark<'t>(&mut self, text: &'t [u8]) -> Option<&'t [u8]>
        ensures fen { KeepsFen self.old self.new }
        ensures asks { KeepsAsked self.old self.new }
        ensures rest { IfSome result (λ rest. EndsText rest.now text.now) }
        ensures comment { self.new.in_comment ≡ self.old.in_comment }
    {
        if begins_with(b'$', text) && text.len() > 1 {
            return Some(move_word(text).1);
        }
        if text.starts_with(b"..") {
            self.is_blacks = true;
            return Some(without_first(text, 2));
        }
        if matches!(text, [b'0'..=b'9' | b'.', ..]) && !text.starts_with(b"0-0") {
            return Some(without_first(text, 1));
        }
        None
    }

    /// Takes movetext from a word on: that is the first move, or says that there is none.
    fn take_word(&mut self, text: &[u8]) -> Result<(), AllocError>
        ensures fen { IfOk result (λ _. KeepsFen self.old self.new) }
        ensures asks { IfOk result (λ _. KeepsAsked self.old self.new) }
        ensures begun { IfOk result (λ _. self.new.is_begun ≡ self.old.is_begun) }
        ensures comment { IfOk result (λ _. self.new.in_comment ≡ self.old.in_comment) }
    {
        let (word, behind) = move_word(text);
        self.is_over = true;
        if is_key(word) && !is_blamed(behind) {
            self.claim(word)?;
        }
        Ok(())
    }

    /// Takes movetext up to the first move: comments, numbers, and marks as `$1`; gives what stands from that on, or nothing.
    fn find_move<'t>(&mut self, line: &'t [u8]) -> &'t [u8]
        ensures fen { KeepsFen self.old self.new }
        ensures asks { AsksMore (SaysMoves line.now) self.old self.new }
        ensures comment { self.new.in_comment ≡ true → (self.old.in_comment ≡ true) ⊎ Contains line.now (char "{") }
    {
        let mut found: &[u8] = &[];
        let mut rest = line;
        let mut is_front = false;
        for _ in 0..line.len() {
            let text = self.after_comment(rest, is_front).trim_ascii_start();
            if text.is_empty() || begins_with(b';', text) {
                break;
            }
            if begins_with(b'{', text) {
                self.in_comment = true;
                is_front = true;
                rest = without_first(text, 1);
                continue;
            }
            let Some(behind) = self.take_mark(text) else {
                found = text;
                break;
            };
            rest = behind;
            self.is_begun = true;
        }
        found
    }

    /// Takes a line of movetext, up to the first move, with which nothing more is looked for.
    pub(crate) fn take_moves(&mut self, line: &[u8]) -> Result<(), AllocError>
        ensures fen { IfOk result (λ _. KeepsFen self.old self.new) }
        ensures asks { IfOk result (λ _. AsksMore (SaysMoves line.now) self.old self.new) }
        ensures begun { IfOk result (λ _. self.new.is_begun ≡ true) }
        ensures comment { IfOk result (λ _. self.new.in_comment ≡ true → (self.old.in_comment ≡ true) ⊎ Contains line.now (char "{")) }
    {
        let was_in_comment = self.in_comment;
        let found = self.find_move(line);
        self.is_begun = true;
        if found.is_empty() {
            return Ok(());
        }
        self.in_comment = was_in_comment;
        self.take_word(found)?;
        Ok(())
    }
}

/// Whether the last word of a text ends a game.
fn ends_game(text: &[u8]) -> bool {
    let text = text.trim_ascii_end();
    let mut last = text;
    for (index, byte) in text.iter().enumerate() {
        if *byte == b' ' {
            last = text.split_at(index + 1).1;
        }
    }
    is_same(last, "1-0") || is_same(last, "0-1") || is_same(last, "1/2-1/2") || is_same(last, "*")
}

impl Movetext {
    /// Passes over a line, which may end the game.
    pub(crate) fn pass(&mut self, line: &[u8]) -> bool {
        for byte in line {
            if self.in_comment {
                self.in_comment = *byte != b'}';
            } else if *byte == b';' {
                break;
            } else if *byte == b'{' {
                self.in_comment = true;
            }
        }
        !self.in_comment && ends_game(line)
    }
}
