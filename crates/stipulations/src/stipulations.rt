//! What a text asks, by its parts.

ghost use Rattle.std.specs.Prelude.{◌≡◌};
ghost use Rattle.stipulations.specs.Parts.{parts_of};
ghost use Rattle.stipulations.specs.Stipulations.{asked, asked_by_name, asked_by_part as asked_by_one_part};
ghost use Rattle.stipulations.specs.Stipulations.{asked_before_parts as asked_before_parts_of};
ghost use Rattle.stipulations.specs.Stipulations.{asked_by_part_of_name as asked_by_part_of_one_name, speaks_of_aim};

use crate::aims::{speaks, speaks_plainly};
use crate::asked::Asked;
use crate::parts::{cut_part, trimmed};
use crate::phrases::{in_phrase, in_words};
use crate::signs::{has_parted_sign, has_twin};

/// What a part of a text asks.
fn asked_by_part(part: &[u8]) -> Asked
    ensures { result ≡ asked_by_one_part part.now }
{
    if !speaks(part) {
        return Asked::Nothing;
    }
    match in_phrase(trimmed(part)) {
        Some(moves) => Asked::Moves(moves),
        None => Asked::Unknown,
    }
}

/// What a part of a name asks.
fn asked_by_part_of_name(part: &[u8]) -> Asked
    ensures { result ≡ asked_by_part_of_one_name part.now }
{
    if !speaks(part) {
        return Asked::Nothing;
    }
    match in_words(trimmed(part)) {
        Some(moves) => Asked::Moves(moves),
        None if speaks_plainly(part) => Asked::Unknown,
        None => Asked::Nothing,
    }
}

/// What a text asks before its parts are looked at: neither twins are understood, nor a sign cut off from its letters.
fn asked_before_parts(text: &[u8]) -> Asked
    ensures { result ≡ asked_before_parts_of text.now }
{
    if has_twin(text) || has_parted_sign(text) {
        Asked::Unknown
    } else {
        Asked::Nothing
    }
}

/// What a text asks: the number of moves that it says in a whole phrase; two of them; that it speaks of an aim in other words; or nothing.
#[tactic(auto, unfolding(crate::specs::Stipulations::asked, crate::specs::Parts::parts_of))]
pub fn moves_asked(text: &[u8]) -> Asked
    ensures { result ≡ asked text.now }
{
    let mut asked = asked_before_parts(text);
    let mut rest = text;
    while !rest.is_empty() {
        let (part, behind) = cut_part(rest);
        if !part.is_empty() {
            asked = asked.and(asked_by_part(part));
        }
        rest = behind;
    }
    asked
}

/// The same of the name of an author, a tourney or a problem, in which a sign and a number, or a mate, may be no stipulation.
#[tactic(auto, unfolding(crate::specs::Stipulations::asked_by_name, crate::specs::Parts::parts_of))]
pub fn moves_named(text: &[u8]) -> Asked
    ensures { result ≡ asked_by_name text.now }
{
    let mut asked = Asked::Nothing;
    let mut rest = text;
    while !rest.is_empty() {
        let (part, behind) = cut_part(rest);
        if !part.is_empty() {
            asked = asked.and(asked_by_part_of_name(part));
        }
        rest = behind;
    }
    asked
}

/// Whether a text speaks of an aim, be it understood or not.
#[tactic(auto, unfolding(crate::specs::Stipulations::speaks_of_aim))]
pub fn speaks_of_aim(text: &[u8]) -> bool
    ensures { result ≡ speaks_of_aim text.now }
{
    moves_asked(text).asks_something()
}
