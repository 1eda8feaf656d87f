//! What words claim as a problem's key, and which operands of `bm` are a line of play.

ghost use Rattle.std.specs.Prelude.{◌≡◌, IfNone, IfSome, None, Some};
ghost use Rattle.std.specs.Char.{is_ascii_alphabetic, is_ascii_digit};
ghost use Rattle.std.specs.List.{list_any};
ghost use Rattle.std.specs.Str.{str_eq_ignore_ascii_case};
ghost use Rattle.problem_import.specs.Solutions.{is_announced as are_announced, is_praised as is_praised_word};
ghost use Rattle.problem_import.specs.Solutions.{announced as announced_in, of_mover as of_mover_in};
ghost use Rattle.problem_import.specs.Solutions.{begins_first as does_begin_first, begins_play as does_begin_play};
ghost use Rattle.problem_import.specs.Solutions.{begins_with, behind_first as behind_first_of, behind_front, behind_stop as behind_stop_of, claimed as claimed_by};
ghost use Rattle.problem_import.specs.Solutions.{front_of, has_square as does_have_square, is_castling as is_castling_word};
ghost use Rattle.problem_import.specs.Solutions.{is_dot as is_dot_byte, is_file as is_file_byte, is_key_word as is_word_for_key, is_later as is_later_word};
ghost use Rattle.problem_import.specs.Solutions.{is_move as is_move_word, is_move_byte as is_byte_of_move, is_play as are_play, is_rank as is_rank_byte};
ghost use Rattle.problem_import.specs.Solutions.{is_sign as is_sign_byte, is_small as is_small_byte, is_solution as are_solution, is_stop as is_stop_byte};
ghost use Rattle.problem_import.specs.Solutions.{is_try as is_try_word, move_front as move_front_of, told_word as told_by};

use crate::texts::{cut_at, is_same, without_first};
use crate::tokens::part_at;
use chess_notation::{after_spaces, word_at};
use std::alloc::AllocError;

static KEY_WORDS: [&str; 20] = [
    "key",
    "keys",
    "solution",
    "sol",
    "losung",
    "loesung",
    "schlussel",
    "cle",
    "clef",
    "clave",
    "solucion",
    "chiave",
    "soluzione",
    "sleutel",
    "oplossing",
    "klucz",
    "rozwiazanie",
    "kliuch",
    "klyuch",
    "reshenie",
];

/// Whether a word is another, small and large letters alike.
fn is_alike(word: &[u8], other: &str) -> bool
    ensures { result ≡ str_eq_ignore_ascii_case word.now other.now }
{
    word.eq_ignore_ascii_case(other.as_bytes())
}

/// Whether a word is one of others.
fn is_among(word: &[u8], others: &[&str]) -> bool
    ensures { result ≡ list_any (λ other. str_eq_ignore_ascii_case word.now other.now) others.now }
{
    for other in others {
        if is_alike(word, other) {
            return true;
        }
    }
    false
}

/// Whether a word is one for a key or a solution.
#[tactic(auto, unfolding(crate::specs::Solutions::is_key_word))]
fn is_key_word(word: &[u8]) -> bool
    ensures { result ≡ is_word_for_key word.now }
{
    is_among(word, &KEY_WORDS)
}

/// The letters with which a text begins, and what stands behind.
fn cut_letters(text: &[u8]) -> (&[u8], &[u8])
    ensures front { result.0.now ≡ front_of is_ascii_alphabetic text.now }
    ensures behind { result.1.now ≡ behind_front is_ascii_alphabetic text.now }
{
    for (index, byte) in text.iter().enumerate() {
        if !byte.is_ascii_alphabetic() {
            return text.split_at(index);
        }
    }
    (text, &[])
}

/// The digits with which it begins, and what stands behind.
fn cut_digits(text: &[u8]) -> (&[u8], &[u8])
    ensures front { result.0.now ≡ front_of is_ascii_digit text.now }
    ensures behind { result.1.now ≡ behind_front is_ascii_digit text.now }
{
    for (index, byte) in text.iter().enumerate() {
        if !byte.is_ascii_digit() {
            return text.split_at(index);
        }
    }
    (text, &[])
}

fn is_dot(byte: u8) -> bool
    ensures { result ≡ is_dot_byte byte }
{
    byte == b'.'
}

/// What stands behind the dots with which a text begins.
fn behind_dots(text: &[u8]) -> &[u8]
    ensures { result.now ≡ behind_front is_dot_byte text.now }
{
    for (index, byte) in text.iter().enumerate() {
        if !is_dot(*byte) {
            return text.split_at(index).1;
        }
    }
    &[]
}

fn begins_with_dot(text: &[u8]) -> bool
    ensures { result ≡ begins_with is_dot_byte text.now }
{
    match text {
        [] => false,
        [byte, ..] => is_dot(*byte),
    }
}

fn begins_with_digit(text: &[u8]) -> bool
    ensures { result ≡ begins_with is_ascii_digit text.now }
{
    match text {
        [] => false,
        [byte, ..] => byte.is_ascii_digit(),
    }
}

fn begins_with_letter(text: &[u8]) -> bool
    ensures { result ≡ begins_with is_ascii_alphabetic text.now }
{
    match text {
        [] => false,
        [byte, ..] => byte.is_ascii_alphabetic(),
    }
}

/// Whether a word begins with the number of a move that isn't the first.
#[tactic(auto, unfolding(crate::specs::Solutions::is_later))]
fn is_later(word: &[u8]) -> bool
    ensures { result ≡ is_later_word word.now }
{
    let (number, behind) = cut_digits(word);
    begins_with_dot(behind) && (begins_with_digit(word) && !is_same(number, "1"))
}

/// Whether operands are a line of play.
pub(crate) fn is_play(operands: &[u8]) -> bool
    ensures { result ≡ are_play operands.now }
{
    let mut rest = operands;
    while let Some(part) = part_at(rest, b' ') {
        if is_later(part.text) {
            return true;
        }
        rest = part.rest;
    }
    false
}

/// Whether a text begins with the number of the first move.
fn begins_first(text: &[u8]) -> bool
    ensures { result ≡ does_begin_first text.now }
{
    let (number, behind) = cut_digits(text);
    is_same(number, "1") && begins_with_dot(behind)
}

/// What stands behind that number and its dots, if it is there.
fn behind_first(text: &[u8]) -> &[u8]
    ensures { result.now ≡ behind_first_of text.now }
{
    if begins_first(text) {
        behind_dots(cut_digits(text).1)
    } else {
        text
    }
}

/// Whether a text begins with a move of the side to move, by its number.
fn begins_play(text: &[u8]) -> bool
    ensures { result ≡ does_begin_play text.now }
{
    begins_first(text) && !begins_with_dot(without_first(cut_digits(text).1, 1))
}

fn is_file(byte: u8) -> bool
    ensures { result ≡ is_file_byte byte }
{
    b'a' <= byte && byte <= b'h'
}

fn is_rank(byte: u8) -> bool
    ensures { result ≡ is_rank_byte byte }
{
    b'1' <= byte && byte <= b'8'
}

/// Whether a byte is a small letter of a man.
fn is_small(byte: u8) -> bool
    ensures { result ≡ is_small_byte byte }
{
    byte == b'n' || byte == b'q' || byte == b'r'
}

/// Whether a byte is a sign that may stand in a move.
fn is_sign(byte: u8) -> bool
    ensures { result ≡ is_sign_byte byte }
{
    byte == b'x' || byte == b':' || byte == b'-' || byte == b'=' || byte == b'+' || byte == b'#'
}

fn is_move_byte(byte: u8) -> bool
    ensures { result ≡ is_byte_of_move byte }
{
    byte.is_ascii_uppercase()
        || byte.is_ascii_digit()
        || is_file(byte)
        || is_small(byte)
        || is_sign(byte)
}

fn begins_with_rank(text: &[u8]) -> bool
    ensures { result ≡ begins_with is_rank_byte text.now }
{
    match text {
        [] => false,
        [byte, ..] => is_rank(*byte),
    }
}

/// Whether a square stands in a word.
fn has_square(word: &[u8]) -> bool
    ensures { result ≡ does_have_square word.now }
{
    let mut rest = word;
    while let [byte, more @ ..] = rest {
        if is_file(*byte) && begins_with_rank(more) {
            return true;
        }
        rest = more;
    }
    false
}

fn is_castling(word: &[u8]) -> bool
    ensures { result ≡ is_castling_word word.now }
{
    match word {
        [king, sign, ..] => (*king == b'0' || *king == b'O') && *sign == b'-',
        _ => false,
    }
}

/// Whether a word has the form of a move.
fn is_move(word: &[u8]) -> bool
    ensures { result ≡ is_move_word word.now }
{
    is_castling(word) || begins_with_letter(word) && has_square(word)
}

/// How far a word may be a move.
fn move_front(word: &[u8]) -> &[u8]
    ensures { result.now ≡ move_front_of word.now }
{
    for (index, byte) in word.iter().enumerate() {
        if !is_move_byte(*byte) {
            return word.split_at(index).0;
        }
    }
    word
}

/// Whether a word is marked as a try, as `Bf1?`: what it names is no key.
pub(crate) fn is_try(word: &[u8]) -> bool
    ensures { result ≡ is_try_word word.now }
{
    for byte in word {
        if *byte == b'?' {
            return true;
        }
    }
    false
}

fn is_stop(byte: u8) -> bool
    ensures { result ≡ is_stop_byte byte }
{
    byte == b':' || byte == b'.'
}

/// A text without the stop at its front.
fn behind_stop(text: &[u8]) -> &[u8]
    ensures { result.now ≡ behind_stop_of text.now }
{
    match text {
        [byte, more @ ..] if is_stop(*byte) => more,
        _ => text,
    }
}

/// What stands behind the number of the first move, if it is there, and nothing behind `1...` where White is to move.
fn of_mover(is_blacks: bool, text: &[u8]) -> &[u8]
    ensures { result.now ≡ of_mover_in is_blacks text.now }
{
    if begins_first(text) && !(begins_play(text) || is_blacks) {
        &[]
    } else {
        behind_first(text)
    }
}

/// What stands behind a word for a key, or behind the number of the first move.
fn announced(is_blacks: bool, text: &[u8]) -> &[u8]
    ensures { result.now ≡ announced_in is_blacks text.now }
{
    let (word, behind) = cut_letters(text);
    if is_key_word(word) {
        of_mover(is_blacks, after_spaces(behind_stop(after_spaces(behind))))
    } else if begins_play(text) {
        behind_first(text)
    } else {
        &[]
    }
}

/// The word that words tell of as a key, by its marks.
#[tactic(auto, unfolding(crate::specs::Solutions::told_word))]
fn told_word(is_blacks: bool, words: &[u8]) -> &[u8]
    ensures { result.now ≡ told_by is_blacks words.now }
{
    word_at(announced(is_blacks, after_spaces(words))).0
}

/// Whether words tell of a solution.
pub(crate) fn is_solution(is_blacks: bool, words: &[u8]) -> bool
    ensures { result ≡ are_solution is_blacks words.now }
{
    is_move(move_front(told_word(is_blacks, words)))
}

/// Whether a word is marked as a key, as `Bh1!`.
fn is_praised(word: &[u8]) -> bool
    ensures { result ≡ is_praised_word word.now }
{
    for byte in word {
        if *byte == b'!' {
            return true;
        }
    }
    false
}

/// Whether words say that a key follows.
#[tactic(auto, unfolding(crate::specs::Solutions::is_announced))]
fn is_announced(words: &[u8]) -> bool
    ensures { result ≡ are_announced words.now }
{
    is_key_word(cut_letters(after_spaces(words)).0)
}

/// What words claim as a problem's key.
#[tactic(auto, unfolding(crate::specs::Solutions::claimed))]
pub(crate) fn claimed(is_blacks: bool, words: &[u8]) -> Option<&[u8]>
    ensures none { IfNone result (claimed_by is_blacks words.now ≡ None) }
    ensures some { IfSome result (λ key. claimed_by is_blacks words.now ≡ Some key.now) }
{
    let word = told_word(is_blacks, words);
    if is_solution(is_blacks, words) && !is_try(word) && (is_announced(words) || is_praised(word)) {
        Some(cut_at(word, b'!').0)
    } else {
        None
    }
}

static JOINING: [&str; 10] = ["and", "or", "und", "oder", "et", "ou", "y", "e", "en", "of"];

static DENYING: [&str; 12] = [
    "but",
    "fails",
    "fail",
    "wrong",
    "refuted",
    "refutes",
    "not",
    "aber",
    "scheitert",
    "falsch",
    "mais",
    "pero",
];

/// A word without a comma, a full stop or a parenthesis at its ends.
pub(crate) fn bare(word: &[u8]) -> &[u8] {
    let word = match word {
        [b'(', more @ ..] => more,
        _ => word,
    };
    match word {
        [front @ .., b',' | b'.' | b')'] => front,
        _ => word,
    }
}

/// Adds the further keys that words tell of behind the first, each behind a space: those that stand behind a word as `and`, or a comma. Gives
/// whether they leave open what they claim: before a try they name another first move otherwise, or deny something.
pub(crate) fn push_joined(
    keys: &mut Vec<u8>,
    is_blacks: bool,
    words: &[u8],
) -> Result<bool, AllocError> {
    let (first, behind) = word_at(announced(is_blacks, after_spaces(words)));
    let mut is_listed = first.ends_with(b",");
    let mut is_joined = false;
    let mut rest = behind;
    for _ in 0..words.len() {
        let (word, more) = word_at(rest);
        if word.is_empty() || is_try(word) {
            return Ok(false);
        }
        let next = word_at(more).0;
        let ends = next.is_empty() || word.ends_with(b",") || is_among(next, &JOINING);
        let key = cut_at(bare(behind_first(word)), b'!').0;
        if is_move(move_front(key)) && (is_joined || is_listed && ends) {
            keys.push(b' ')?;
            keys.extend_from_slice(key)?;
            is_listed = word.ends_with(b",");
        } else if begins_play(bare(word)) || is_among(bare(word), &DENYING) {
            return Ok(true);
        } else {
            is_listed = false;
        }
        is_joined = is_among(word, &JOINING);
        rest = more;
    }
    Ok(false)
}
