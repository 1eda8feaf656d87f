//! The FEN that a line says.

ghost use Rattle.std.specs.Prelude.{◌≡◌, ◌++◌, IfOk};
ghost use Rattle.position_lines.specs.LineFens.{FensRead, begins_with_digit as does_begin_with_digit, counters_text, line_fen as fen_of_line, spaced};

use chess_notation::{four_words, word_at};
use std::alloc::{AllocError, Global};

fn begins_with_digit(word: &[u8]) -> bool
    ensures { result ≡ does_begin_with_digit word.now }
{
    match word {
        [byte, ..] => byte.is_ascii_digit(),
        [] => false,
    }
}

/// Adds a word and a space behind it.
fn push_word(text: &mut Vec<u8>, word: &[u8]) -> Result<(), AllocError>
    ensures { IfOk result (λ _. text.new.items ≡ text.old.items ++ spaced word.now) }
{
    text.extend_from_slice(word)?;
    text.push(b' ')?;
    Ok(())
}

/// Adds the counters that stand behind the fields, or 0 and 1.
#[tactic(auto, unfolding(crate::specs::LineFens::counters_text))]
fn push_counters(text: &mut Vec<u8>, behind: &[u8]) -> Result<(), AllocError>
    ensures { IfOk result (λ _. text.new.items ≡ text.old.items ++ counters_text behind.now) }
{
    let (halfmove, rest) = word_at(behind);
    if !begins_with_digit(halfmove) {
        text.extend_from_slice(b"0 1")?;
        return Ok(());
    }
    let (fullmove, _) = word_at(rest);
    push_word(text, halfmove)?;
    text.extend_from_slice(fullmove)?;
    Ok(())
}

/// The FEN that a line says: its first four words, and behind them two more where the fifth begins with a digit, as a counter does and
/// no opcode, or else the counters 0 and 1. What stands behind these isn't read. Nothing where there are fewer than four words.
#[tactic(auto, unfolding(crate::specs::LineFens::line_fen, chess_notation::specs::RecordFields::line_fields, chess_notation::specs::RecordFields::fourth_word, chess_notation::specs::RecordFields::behind_fields))]
pub fn line_fen(alloc: Global, line: &[u8]) -> Result<Vec<u8>, AllocError>
    ensures { IfOk result (λ text. text.items ≡ fen_of_line line.now) }
{
    let words = four_words(line);
    let mut text = Vec::new(alloc);
    if words.target.is_empty() {
        return Ok(text);
    }
    push_word(&mut text, words.placement)?;
    push_word(&mut text, words.side)?;
    push_word(&mut text, words.castling)?;
    push_word(&mut text, words.target)?;
    push_counters(&mut text, words.behind)?;
    Ok(text)
}

/// A law: the line of a FEN says that FEN, so that it is answered as the FEN is.
pub fn fens_read()
    ensures { FensRead }
{}
