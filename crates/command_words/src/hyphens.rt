//! A FEN that begins with a hyphen.
//!
//! `clap` would take such a word for an option. Its setting that allows hyphens in a value would put the whole command
//! line beyond what its contracts say, so the words get `--`, which ends the options, before the FEN.

ghost use Rattle.std.specs.Prelude.{◌≡◌, ◌≤◌, ◌+◌, IfOk, IfSome, length, map};
ghost use Rattle.std.specs.String.{string_bytes};
ghost use Rattle.command_words.specs.Hyphens.{escape_at, hyphened_at, is_hyphened, is_option_of, takes_fen};
ghost use Rattle.command_words.specs.LineCommands.{given};

use crate::line_commands::join_lines;
use crate::texts::is_same;
use std::alloc::{AllocError, Global};

/// Whether the first word of the command, options aside, is a FEN.
fn takes_fen(name: &str) -> bool
    ensures { result ≡ takes_fen name.now }
{
    is_same(name, "look")
        || is_same(name, "play")
        || is_same(name, "moves")
        || is_same(name, "perft")
}

/// Whether the word is an option of the command, which may stand before its FEN.
pub(crate) fn is_option_of(name: &str, word: &str) -> bool
    ensures { result ≡ is_option_of name.now word.now }
{
    if is_same(name, "look") {
        is_same(word, "--board") || is_same(word, "--flip") || is_same(word, "--svg")
    } else if is_same(name, "moves") {
        is_same(word, "--coordinates") || is_same(word, "--fen") || is_same(word, "--json")
    } else {
        is_same(name, "perft") && is_same(word, "--divide")
    }
}

/// Whether `clap` would take the word for an option, but for those of help and of the end of the options.
fn is_hyphened(word: &str) -> bool
    ensures { result ≡ is_hyphened word.now }
{
    let starts = match word.as_bytes().first() {
        Some(byte) => *byte == b'-',
        None => false,
    };
    starts && !(is_same(word, "--") || is_same(word, "-h") || is_same(word, "--help"))
}

/// How many words stand before a FEN that begins with a hyphen, where these stand behind the first two.
fn hyphened_at(name: &str, words: &[&str]) -> Option<usize>
    ensures at { result ≡ hyphened_at name.now 2 (map (λ s. s.now) words.now) }
    ensures inside { IfSome result (λ at. at ≤ 2 + length words.now) }
{
    let mut at = 2;
    let mut rest = words;
    while let [word, more @ ..] = rest {
        if !is_option_of(name, word) {
            return if is_hyphened(word) { Some(at) } else { None };
        }
        at += 1;
        rest = more;
    }
    None
}

/// How many words stand before a FEN that begins with a hyphen.
fn escape_at(words: &[&str]) -> Option<usize>
    ensures at { result ≡ escape_at (map (λ s. s.now) words.now) }
    ensures inside { IfSome result (λ at. at ≤ length words.now) }
{
    match words {
        [_, name, rest @ ..] if takes_fen(name) => hyphened_at(name, rest),
        _ => None,
    }
}

fn texts_of<'a>(alloc: Global, words: &'a [String]) -> Result<Vec<&'a str>, AllocError>
    ensures { IfOk result (λ v. map (λ s. s.now) v.items ≡ map string_bytes words.entry.now) }
{
    let mut texts = Vec::new(alloc);
    for word in words {
        texts.push(word.as_str())?;
    }
    Ok(texts)
}

/// The words as `clap` is to read them: the `--lines` of a command joined to its name, and `--` before a FEN that begins with a hyphen.
#[tactic(auto, using(crate::proofs::Escapes::escaped_no, crate::proofs::Escapes::escaped_so))]
pub fn escaped<'a>(alloc: Global, words: &'a [String]) -> Result<Vec<&'a str>, AllocError>
    ensures { IfOk result (λ v. map (λ s. s.now) v.items ≡ given (map string_bytes words.entry.now)) }
{
    let mut texts = texts_of(alloc, words)?;
    join_lines(&mut texts)?;
    let Some(at) = escape_at(texts.as_slice()) else {
        return Ok(texts);
    };
    texts.insert(at, "--")?;
    Ok(texts)
}
