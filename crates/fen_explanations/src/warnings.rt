//! What can't come about by play, by count.

ghost use Rattle.std.specs.Prelude.{◌≡◌, ◌++◌, IfOk};
ghost use Rattle.fen_explanations.specs.Warnings.{more_text, pawns_left_text, pawns_warned, promoted as promoted_in, promoted_text};
ghost use Rattle.fen_explanations.specs.Warnings.{promoted_warned, side_warned};

use crate::men::count_of;
use crate::sentences::{
    colour_name, kind_name, plural, push_if, push_parts, push_sentence, side_name,
};
use chess_board::{Colour, Kind};
use itoa::Buffer;
use std::alloc::AllocError;

/// Tells where a side has more than eight pawns.
#[tactic(auto, unfolding(crate::specs::Warnings::pawns_warned))]
fn push_pawns(text: &mut Vec<u8>, colour: Colour, pawns: u128) -> Result<(), AllocError>
    ensures { IfOk result (λ _. text.new.items ≡ text.old.items ++ pawns_warned colour pawns) }
{
    let mut digits = Buffer::new();
    let number = digits.format(pawns).as_bytes();
    push_if(
        text,
        8 < pawns,
        &[number, b" ", colour_name(colour), b" pawns"],
    )
}

/// How many pawns have become other men, at least.
#[tactic(auto, unfolding(crate::specs::Warnings::promoted))]
fn promoted(placement: &[u8], colour: Colour) -> u128
    ensures { result ≡ promoted_in placement.now colour }
{
    count_of(placement, colour, Kind::Queen).saturating_sub(1)
        + count_of(placement, colour, Kind::Rook).saturating_sub(2)
        + count_of(placement, colour, Kind::Bishop).saturating_sub(2)
        + count_of(placement, colour, Kind::Knight).saturating_sub(2)
}

/// Adds the men of a kind where there are more of them than at first.
#[tactic(auto, unfolding(crate::specs::Warnings::more_text))]
fn push_more(text: &mut Vec<u8>, first: u128, men: u128, kind: Kind) -> Result<(), AllocError>
    ensures { IfOk result (λ _. text.new.items ≡ text.old.items ++ more_text first men kind) }
{
    if men <= first {
        return Ok(());
    }
    let mut digits = Buffer::new();
    let number = digits.format(men).as_bytes();
    push_parts(text, &[number, b" ", kind_name(kind), b"s and "])
}

/// Adds how many pawns there are, and ends the line.
#[tactic(auto, unfolding(crate::specs::Warnings::pawns_left_text))]
fn push_pawns_left(text: &mut Vec<u8>, pawns: u128) -> Result<(), AllocError>
    ensures { IfOk result (λ _. text.new.items ≡ text.old.items ++ pawns_left_text pawns) }
{
    let mut digits = Buffer::new();
    let number = digits.format(pawns).as_bytes();
    push_sentence(
        text,
        &[
            number,
            b" pawn",
            plural(pawns),
            b": more men than pawns could become",
        ],
    )
}

/// Adds the men of which there are more than at first, and the pawns.
#[tactic(auto, unfolding(crate::specs::Warnings::promoted_text))]
fn push_promoted(text: &mut Vec<u8>, placement: &[u8], colour: Colour) -> Result<(), AllocError>
    ensures { IfOk result (λ _. text.new.items ≡ text.old.items ++ promoted_text placement.now colour) }
{
    push_parts(text, &[side_name(colour), b" has "])?;
    push_more(
        text,
        1,
        count_of(placement, colour, Kind::Queen),
        Kind::Queen,
    )?;
    push_more(text, 2, count_of(placement, colour, Kind::Rook), Kind::Rook)?;
    push_more(
        text,
        2,
        count_of(placement, colour, Kind::Bishop),
        Kind::Bishop,
    )?;
    push_more(
        text,
        2,
        count_of(placement, colour, Kind::Knight),
        Kind::Knight,
    )?;
    push_pawns_left(text, count_of(placement, colour, Kind::Pawn))
}

/// Tells where more pawns became other men than are missing.
#[tactic(auto, unfolding(crate::specs::Warnings::promoted_warned))]
fn push_promoted_if(text: &mut Vec<u8>, placement: &[u8], colour: Colour) -> Result<(), AllocError>
    ensures { IfOk result (λ _. text.new.items ≡ text.old.items ++ promoted_warned placement.now colour) }
{
    let missing = 8u128.saturating_sub(count_of(placement, colour, Kind::Pawn));
    if missing < promoted(placement, colour) {
        return push_promoted(text, placement, colour);
    }
    Ok(())
}

/// Tells what of a side's men can't come about.
#[tactic(auto, unfolding(crate::specs::Warnings::side_warned))]
pub(crate) fn push_side_warned(
    text: &mut Vec<u8>,
    placement: &[u8],
    colour: Colour,
) -> Result<(), AllocError>
    ensures { IfOk result (λ _. text.new.items ≡ text.old.items ++ side_warned placement.now colour) }
{
    push_pawns(text, colour, count_of(placement, colour, Kind::Pawn))?;
    push_promoted_if(text, placement, colour)
}
