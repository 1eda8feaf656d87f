//! The words of a line.

ghost use Rattle.std.specs.Prelude.{◌≡◌, IfNone, IfOk, IfSome, [], ◌∷◌, ◌++◌, false, filter, map, true};
ghost use Rattle.std.specs.List.{list_all};
ghost use Rattle.std.specs.Str.{is_utf8};
ghost use Rattle.chess_notation.specs.Words.{words_in};
ghost use Rattle.uci_commands.specs.inside.LineWords.{is_some_word};

use chess_board::cut_at;
use std::alloc::{AllocError, Global};

/// Adds a word, where it is not empty. It answers whether that is a text in UTF-8.
fn push_word<'a>(words: &mut Vec<&'a str>, word: &'a [u8]) -> Result<bool, AllocError>
    ensures added { IfOk result (λ is_text. is_text ≡ true
        → map (λ s. s.now) words.new.items ≡ map (λ s. s.now) words.old.items ++ filter is_some_word (word.now ∷ [])) }
    ensures refused { IfOk result (λ is_text. is_text ≡ false → is_utf8 word.now ≡ false) }
    ensures kept { IfOk result (λ is_text. is_text ≡ false → map (λ s. s.now) words.new.items ≡ map (λ s. s.now) words.old.items) }
{
    if word.is_empty() {
        return Ok(true);
    }
    let Ok(text) = str::from_utf8(word) else {
        return Ok(false);
    };
    words.push(text)?;
    Ok(true)
}

/// The words of a line, which stand between its spaces; none where one of them is no text in UTF-8.
#[tactic(auto, unfolding(chess_notation::specs::Words::words_in))]
pub fn words_of<'a>(alloc: Global, line: &'a [u8]) -> Result<Option<Vec<&'a str>>, AllocError>
    ensures words { IfOk result (λ all. IfSome all (λ words. map (λ s. s.now) words.items ≡ words_in line.entry.now)) }
    ensures none { IfOk result (λ all. IfNone all (list_all is_utf8 (words_in line.entry.now) ≡ false)) }
{
    let mut words = Vec::new(alloc);
    let mut rest = line;
    while let Some((word, more)) = cut_at(rest, b' ') {
        if !push_word(&mut words, word)? {
            return Ok(None);
        }
        rest = more;
    }
    if push_word(&mut words, rest)? {
        Ok(Some(words))
    } else {
        Ok(None)
    }
}
