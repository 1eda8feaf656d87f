//! The commands over lines of positions.
//!
//! `look --lines` takes other arguments than `look`, and what `clap` offers for arguments that hang on an option would put the whole
//! command line beyond what its contracts say. So `clap` is told of a command by that name, and the two words are joined.

ghost use Rattle.std.specs.Prelude.{◌≡◌, ◌≤◌, ◌<◌, ◌+◌, IfOk, IfSome, length, map, option_map};
ghost use Rattle.command_words.specs.LineCommands.{joined, lines_at as lines_stand_at, lines_name as name_of_lines, mark_of as mark_in};

use crate::hyphens::is_option_of;
use crate::texts::is_same;
use std::alloc::AllocError;

/// The name of the command over lines that belongs to a command over a FEN.
fn lines_name(name: &str) -> Option<&'static str>
    ensures { option_map (λ s. s.now) result ≡ name_of_lines name.now }
{
    if is_same(name, "look") {
        Some("look --lines")
    } else if is_same(name, "moves") {
        Some("moves --lines")
    } else if is_same(name, "perft") {
        Some("perft --lines")
    } else {
        None
    }
}

/// How many words stand before the `--lines` of a command, where these stand behind the first two.
fn lines_at(name: &str, words: &[&str]) -> Option<usize>
    ensures at { result ≡ lines_stand_at name.now 2 (map (λ s. s.now) words.now) }
    ensures behind { IfSome result (λ at. 2 ≤ at) }
    ensures inside { IfSome result (λ at. at < 2 + length words.now) }
{
    let mut at = 2;
    let mut rest = words;
    while let [word, more @ ..] = rest {
        if is_same(word, "--lines") {
            return Some(at);
        }
        if !is_option_of(name, word) {
            return None;
        }
        at += 1;
        rest = more;
    }
    None
}

/// The name of the command over lines that words ask for, and how many of them stand before its `--lines`.
fn mark_of(words: &[&str]) -> Option<(&'static str, usize)>
    ensures mark { option_map (λ mark. (mark.0.now, mark.1)) result ≡ mark_in (map (λ s. s.now) words.now) }
    ensures behind { IfSome result (λ mark. 2 ≤ mark.1) }
    ensures inside { IfSome result (λ mark. mark.1 < length words.now) }
{
    let [_, name, rest @ ..] = words else {
        return None;
    };
    let lines = lines_name(name)?;
    let at = lines_at(name, rest)?;
    Some((lines, at))
}

/// Joins the `--lines` of a command to its name.
#[tactic(auto, using(crate::proofs::JoinedWords::joined_no, crate::proofs::JoinedWords::joined_so))]
pub(crate) fn join_lines(texts: &mut Vec<&str>) -> Result<(), AllocError>
    ensures { IfOk result (λ _. map (λ s. s.now) texts.new.items ≡ joined (map (λ s. s.now) texts.old.items)) }
{
    let Some((name, at)) = mark_of(texts.as_slice()) else {
        return Ok(());
    };
    texts.remove(at);
    texts.remove(1);
    texts.insert(1, name)?;
    Ok(())
}
