//! Words that are a FEN or a record, in place of codes.

ghost use Rattle.std.specs.Prelude.{◌≡◌, ◌++◌, ◌∷◌, IfOk, flat_map, map};
ghost use Rattle.std.specs.List.{list_any};
ghost use Rattle.fen_explanations.specs.Asked.{TellsWords, begins_with_placement as does_begin_with_placement, joined as joined_words};
ghost use Rattle.fen_explanations.specs.Asked.{say_position as do_say_position};

use crate::fields::times;
use crate::told::{Told, tell};
use chess_notation::{NoMemory, word_at};
use std::alloc::{AllocError, Global};

/// Whether a word begins with a placement, or something like it.
#[tactic(auto, unfolding(crate::specs::Asked::begins_with_placement))]
fn begins_with_placement(word: &[u8]) -> bool
    ensures { result ≡ does_begin_with_placement word.now }
{
    let (first, _) = word_at(word);
    3 <= times(first, b'/')
}

/// Whether words say a position, and no codes: one of them begins with a placement, which three slashes or more tell.
pub fn say_position(words: &[&str]) -> bool
    ensures { result ≡ do_say_position (map (λ w. w.now) words.now) }
{
    for word in words {
        if begins_with_placement(word.as_bytes()) {
            return true;
        }
    }
    false
}

/// Adds words, each behind a space.
fn push_spaced(text: &mut Vec<u8>, words: &[&str]) -> Result<(), AllocError>
    ensures { IfOk result (λ _. text.new.items ≡ text.old.items ++ flat_map (λ next. 32 ∷ next) (map (λ w. w.now) words.now)) }
{
    for word in words {
        text.push(b' ')?;
        text.extend_from_slice(word.as_bytes())?;
    }
    Ok(())
}

/// Words with a space between each two.
#[tactic(auto, unfolding(crate::specs::Asked::joined))]
fn joined(alloc: Global, words: &[&str]) -> Result<Vec<u8>, AllocError>
    ensures { IfOk result (λ text. text.items ≡ joined_words (map (λ w. w.now) words.now)) }
{
    let mut text = Vec::new(alloc);
    let [word, more @ ..] = words else {
        return Ok(text);
    };
    text.extend_from_slice(word.as_bytes())?;
    push_spaced(&mut text, more)?;
    Ok(text)
}

/// Tells what is wrong with the FEN or the record that words are, joined by spaces.
pub fn tell_words(alloc: Global, words: &[&str]) -> Result<Told, NoMemory>
    ensures { IfOk result (λ told. TellsWords (map (λ w. w.now) words.now) told.is_faulty told.text.items) }
{
    let text = joined(alloc, words)?;
    tell(alloc, text.as_slice())
}
