//! Lines, made of their parts.

ghost use Rattle.std.specs.Prelude.{◌≡◌, ◌++◌, IfOk, flat_map, map};
ghost use Rattle.fen_explanations.specs.Sentences.{colour_name as name_of_colour, kind_name as name_of_kind, plural as plural_of};
ghost use Rattle.fen_explanations.specs.Sentences.{sentence, side_name as name_of_side, told_if};

use chess_board::{Colour, Kind};
use std::alloc::AllocError;

/// Adds the parts of a line.
pub(crate) fn push_parts(text: &mut Vec<u8>, parts: &[&[u8]]) -> Result<(), AllocError>
    ensures { IfOk result (λ _. text.new.items ≡ text.old.items ++ flat_map (λ part. part) (map (λ p. p.now) parts.now)) }
{
    for part in parts {
        text.extend_from_slice(part)?;
    }
    Ok(())
}

/// Adds a line of these parts.
#[tactic(auto, unfolding(crate::specs::Sentences::sentence))]
pub(crate) fn push_sentence(text: &mut Vec<u8>, parts: &[&[u8]]) -> Result<(), AllocError>
    ensures { IfOk result (λ _. text.new.items ≡ text.old.items ++ sentence (map (λ p. p.now) parts.now)) }
{
    push_parts(text, parts)?;
    text.extend_from_slice(b"\n")
}

/// Adds a line of these parts where something holds.
pub(crate) fn push_if(text: &mut Vec<u8>, holds: bool, parts: &[&[u8]]) -> Result<(), AllocError>
    ensures { IfOk result (λ _. text.new.items ≡ text.old.items ++ told_if holds (map (λ p. p.now) parts.now)) }
{
    if holds {
        return push_sentence(text, parts);
    }
    Ok(())
}

/// What makes a word plural behind a number.
pub(crate) fn plural(number: u128) -> &'static [u8]
    ensures { result.now ≡ plural_of number }
{
    if number == 1 { b"" } else { b"s" }
}

/// A side as it begins a line.
pub(crate) fn side_name(colour: Colour) -> &'static [u8]
    ensures { result.now ≡ name_of_side colour }
{
    match colour {
        Colour::White => b"White",
        Colour::Black => b"Black",
    }
}

/// A man's colour.
pub(crate) fn colour_name(colour: Colour) -> &'static [u8]
    ensures { result.now ≡ name_of_colour colour }
{
    match colour {
        Colour::White => b"white",
        Colour::Black => b"black",
    }
}

/// A kind's name.
pub(crate) fn kind_name(kind: Kind) -> &'static [u8]
    ensures { result.now ≡ name_of_kind kind }
{
    match kind {
        Kind::Pawn => b"pawn",
        Kind::Knight => b"knight",
        Kind::Bishop => b"bishop",
        Kind::Rook => b"rook",
        Kind::Queen => b"queen",
        Kind::King => b"king",
    }
}
