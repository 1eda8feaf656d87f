//! Blanks other than a space, as a tab.

ghost use Rattle.std.specs.Prelude.{◌≡◌, ◌++◌, IfOk, false};
ghost use Rattle.fen_explanations.specs.Blanks.{begins_with as does_begin_with, blank_told, blanks_told, has_other_blank as is_other_blank_in};
ghost use Rattle.fen_explanations.specs.Blanks.{is_blank_byte as is_byte_of_blank, is_no_break as does_begin_no_break, spaced as spaced_of};
ghost use Rattle.fen_explanations.specs.Blanks.{other_blank_told, spaced_from, tab_told};

use crate::fields::has_letter;
use crate::sentences::push_if;
use std::alloc::{AllocError, Global};

fn is_blank_byte(byte: u8) -> bool
    ensures { result ≡ is_byte_of_blank byte }
{
    9 <= byte && byte <= 13
}

fn begins_with(wanted: u8, text: &[u8]) -> bool
    ensures { result ≡ does_begin_with wanted text.now }
{
    match text {
        [byte, ..] => *byte == wanted,
        [] => false,
    }
}

/// Whether a byte begins a no-break space (U+00A0) with what follows.
fn is_no_break(byte: u8, rest: &[u8]) -> bool
    ensures { result ≡ does_begin_no_break byte rest.now }
{
    byte == 194 && begins_with(160, rest)
}

/// A text with a space for each blank.
#[tactic(auto, unfolding(crate::specs::Blanks::spaced_from))]
pub(crate) fn spaced(alloc: Global, text: &[u8]) -> Result<Vec<u8>, AllocError>
    ensures { IfOk result (λ spaced. spaced.items ≡ spaced_of text.now) }
{
    let mut out = Vec::new(alloc);
    let mut passes = false;
    let mut rest = text;
    while let [byte, more @ ..] = rest {
        let begins = !passes && is_no_break(*byte, more);
        if !passes {
            let is_blank = is_blank_byte(*byte) || begins;
            out.push(if is_blank { b' ' } else { *byte })?;
        }
        passes = begins;
        rest = more;
    }
    Ok(out)
}

/// Whether a blank stands in a text that is neither a space nor a tab.
#[tactic(auto, unfolding(crate::specs::Blanks::has_other_blank))]
fn has_other_blank(text: &[u8]) -> bool
    ensures { result ≡ is_other_blank_in text.now }
{
    let mut rest = text;
    while let [byte, more @ ..] = rest {
        if 10 <= *byte && is_blank_byte(*byte) || is_no_break(*byte, more) {
            return true;
        }
        rest = more;
    }
    false
}

/// Tells where such a blank stands.
fn push_blank(text: &mut Vec<u8>, stands: bool, name: &[u8]) -> Result<(), AllocError>
    ensures { IfOk result (λ _. text.new.items ≡ text.old.items ++ blank_told stands name.now) }
{
    push_if(
        text,
        stands,
        &[
            name,
            b" stands in it: one space stands between each two fields",
        ],
    )
}

/// Tells where a tab stands in a text.
fn push_tab(text: &mut Vec<u8>, told: &[u8]) -> Result<(), AllocError>
    ensures { IfOk result (λ _. text.new.items ≡ text.old.items ++ tab_told told.now) }
{
    push_blank(text, has_letter(told, b'\t'), b"a tab")
}

/// Tells where another blank stands in a text.
fn push_other_blank(text: &mut Vec<u8>, told: &[u8]) -> Result<(), AllocError>
    ensures { IfOk result (λ _. text.new.items ≡ text.old.items ++ other_blank_told told.now) }
{
    push_blank(text, has_other_blank(told), b"a blank that is no space")
}

/// Tells which blanks stand in a text.
#[tactic(auto, unfolding(crate::specs::Blanks::blanks_told))]
pub(crate) fn push_blanks(text: &mut Vec<u8>, told: &[u8]) -> Result<(), AllocError>
    ensures { IfOk result (λ _. text.new.items ≡ text.old.items ++ blanks_told told.now) }
{
    push_tab(text, told)?;
    push_other_blank(text, told)
}
