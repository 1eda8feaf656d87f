//! The moves that a line asks to avoid: the legal moves that the operands of `am` name.

ghost use Rattle.std.specs.Prelude.{◌≡◌, ◌≤◌, length, true, false, IfSome, IfNone};
ghost use Rattle.std.specs.List.{list_any, list_all};
ghost use Rattle.chess_notation.specs.Words.{words_in};
ghost use Rattle.chess_notation.specs.Opcodes.{same_text};
ghost use Rattle.chess_notation.specs.Records.{max_line};
ghost use Rattle.chess_notation.specs.AvoidMoves.{is_suffix as is_suffix_byte, without_suffix as text_without_suffix};
ghost use Rattle.chess_notation.specs.AvoidMoves.{names, is_name as does_name, named};
ghost use Rattle.chess_notation.specs.EpdFaults.{are_names as do_words_name};

use crate::opcodes::is_same_text;
use crate::san_laws::bare_texts_apart;
use crate::san_text::bare;
use crate::words::{is_blank, word_at};
use chess_board::{Move, Position};
use chess_moves::{Rays, legal_listed, legal_moves, legal_rise};
use chess_problems::AvoidList;

/// Whether a byte is `+` or `#`.
fn is_suffix(byte: u8) -> bool
    ensures { result ≡ is_suffix_byte byte }
{
    byte == b'+' || byte == b'#'
}

/// A word without one suffix at its end.
#[tactic(auto, unfolding(crate::specs::AvoidMoves::without_suffix))]
pub(crate) fn without_suffix(word: &[u8]) -> &[u8]
    ensures { result.now ≡ text_without_suffix word.now }
{
    if !word.is_empty() && is_suffix(word[word.len() - 1]) {
        word.split_at(word.len() - 1).0
    } else {
        word
    }
}

/// Whether the word names a legal move. No list of moves is made.
#[tactic(auto, unfolding(crate::specs::AvoidMoves::is_name))]
pub(crate) fn is_name(rays: &Rays, position: &Position, word: &[u8]) -> bool
    ensures { result ≡ does_name position.now word.now }
{
    let text = without_suffix(word);
    for m in legal_moves(rays, position) {
        if is_same_text(text, bare(rays, position, m).as_str().as_bytes()) {
            return true;
        }
    }
    false
}

/// Whether each word names a legal move.
#[tactic(auto, using(crate::proofs::WordLists::words_next, crate::proofs::WordLists::words_none, crate::proofs::WordLists::behind_shorter))]
fn are_all_names(rays: &Rays, position: &Position, words: &[u8]) -> bool
    ensures { result ≡ list_all (does_name position.now) (words_in words.now) }
{
    let mut rest = words;
    while !is_blank(rest) {
        let (word, back) = word_at(rest);
        if !is_name(rays, position, word) {
            return false;
        }
        rest = back;
    }
    true
}

/// Whether there are words, each of which names a legal move.
fn are_names(rays: &Rays, position: &Position, words: &[u8]) -> bool
    ensures { result ≡ do_words_name position.now words.now }
{
    !is_blank(words) && are_all_names(rays, position, words)
}

/// Whether a word names the move with this text.
#[tactic(auto, using(crate::proofs::WordLists::words_next, crate::proofs::WordLists::words_none, crate::proofs::WordLists::behind_shorter))]
pub(crate) fn have_name(words: &[u8], text: &[u8]) -> bool
    ensures { result ≡ list_any (λ word. same_text (text_without_suffix word) text.now) (words_in words.now) }
{
    let mut rest = words;
    while !is_blank(rest) {
        let (word, back) = word_at(rest);
        if is_same_text(without_suffix(word), text) {
            return true;
        }
        rest = back;
    }
    false
}

/// Whether one of the words names this legal move.
pub(crate) fn is_named(rays: &Rays, position: &Position, words: &[u8], m: Move) -> bool
    ensures { result ≡ list_any (λ word. names position.now word m) (words_in words.now) }
{
    have_name(words, bare(rays, position, m).as_str().as_bytes())
}

/// The legal moves that a word names.
#[tactic(auto, unfolding(crate::specs::AvoidMoves::named))]
fn moves_named(rays: &Rays, position: &Position, words: &[u8]) -> AvoidList
    requires few { length (named position.now (words_in words.now)) ≤ 341 }
    ensures { result.items ≡ named position.now (words_in words.now) }
{
    let mut moves = AvoidList::new();
    for m in legal_moves(rays, position) {
        if is_named(rays, position, words, m) {
            moves.push(m);
        }
    }
    moves
}

/// The legal moves that the words name, in the order of moves; none where there is no word, or one that names no legal move.
/// It stands by itself, so that its lists take no room where nothing is to be avoided.
#[inline(never)]
pub(crate) fn named_moves(rays: &Rays, position: &Position, words: &[u8]) -> Option<AvoidList>
    requires { length words.now ≤ max_line }
    ensures names { IfSome result (λ moves. do_words_name position.now words.now ≡ true) }
    ensures moves { IfSome result (λ moves. moves.items ≡ named position.now (words_in words.now)) }
    ensures refused { IfNone result (do_words_name position.now words.now ≡ false) }
{
    // That there is room for all of them rests on these laws.
    legal_listed();
    legal_rise();
    bare_texts_apart();
    if are_names(rays, position, words) {
        Some(moves_named(rays, position, words))
    } else {
        None
    }
}
