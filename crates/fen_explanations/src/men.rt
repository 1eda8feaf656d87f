//! What is wrong with the men of a placement.

ghost use Rattle.std.specs.Prelude.{◌≡◌, ◌++◌, ◌+◌, ◌*◌, ◌<◌, IfOk, map};
ghost use Rattle.fen_explanations.specs.Men.{count_of as count_in, kings_told, many_told, missed_king_told, no_king_told, men_told, pawn_told, pawns_told};
ghost use Rattle.fen_explanations.specs.Men.{side_count as side_count_in, side_told};
ghost use Rattle.fen_explanations.specs.Sentences.{each_below};

use crate::placements::{has_man, is_known, letter_of};
use crate::sentences::{push_if, side_name};
use chess_board::{Colour, Kind, Square};
use itoa::Buffer;
use std::alloc::AllocError;

/// How many men of a colour and a kind a placement names.
pub(crate) fn count_of(placement: &[u8], colour: Colour, kind: Kind) -> u128
    ensures { result ≡ count_in placement.now colour kind }
{
    let letter = letter_of(colour, kind);
    placement.iter().filter(|b| **b == letter).count() as u128
}

/// Tells where a side has no king.
fn push_no_king(text: &mut Vec<u8>, colour: Colour, kings: u128) -> Result<(), AllocError>
    ensures { IfOk result (λ _. text.new.items ≡ text.old.items ++ no_king_told colour kings) }
{
    push_if(text, kings == 0, &[side_name(colour), b" has no king"])
}

/// The same in so many ranks. Where one is missing, the king could stand there.
fn push_missed_king(
    text: &mut Vec<u8>,
    ranks: usize,
    colour: Colour,
    kings: u128,
) -> Result<(), AllocError>
    ensures { IfOk result (λ _. text.new.items ≡ text.old.items ++ missed_king_told ranks colour kings) }
{
    if ranks < 8 {
        return Ok(());
    }
    push_no_king(text, colour, kings)
}

/// Tells where a side has several kings.
fn push_kings(text: &mut Vec<u8>, colour: Colour, kings: u128) -> Result<(), AllocError>
    ensures { IfOk result (λ _. text.new.items ≡ text.old.items ++ kings_told colour kings) }
{
    let mut digits = Buffer::new();
    let number = digits.format(kings).as_bytes();
    push_if(
        text,
        1 < kings,
        &[side_name(colour), b" has ", number, b" kings"],
    )
}

/// Tells where a pawn stands on a square.
fn push_pawn(text: &mut Vec<u8>, ranks: &[&[u8]], square: Square) -> Result<(), AllocError>
    ensures { IfOk result (λ _. text.new.items ≡ text.old.items ++ pawn_told (map (λ r. r.now) ranks.now) square) }
{
    let stands = has_man(ranks, Colour::White, Kind::Pawn, square)
        || has_man(ranks, Colour::Black, Kind::Pawn, square);
    push_if(
        text,
        stands,
        &[
            b"a pawn stands on ",
            &[square.file_letter(), square.rank_digit()],
        ],
    )
}

/// Tells of each pawn of a rank.
#[tactic(auto, using(crate::proofs::EachBelow::none_told, crate::proofs::EachBelow::more_told))]
fn push_each_pawn(text: &mut Vec<u8>, ranks: &[&[u8]], rank: u8) -> Result<(), AllocError>
    requires { rank < 8 }
    ensures { IfOk result (λ _. text.new.items ≡ text.old.items
        ++ each_below 8 (λ file. pawn_told (map (λ r. r.now) ranks.now) (8 * rank + file))) }
{
    for file in 0..8 {
        push_pawn(text, ranks, Square::numbered(8 * rank + file))?;
    }
    Ok(())
}

/// Tells of each pawn of a rank whose squares are known.
#[tactic(auto, unfolding(crate::specs::Men::pawns_told))]
fn push_pawns(text: &mut Vec<u8>, ranks: &[&[u8]], rank: u8) -> Result<(), AllocError>
    requires { rank < 8 }
    ensures { IfOk result (λ _. text.new.items ≡ text.old.items ++ pawns_told (map (λ r. r.now) ranks.now) rank) }
{
    if is_known(ranks, rank) {
        return push_each_pawn(text, ranks, rank);
    }
    Ok(())
}

/// How many men of a colour a placement names.
fn side_count(placement: &[u8], colour: Colour) -> u128
    ensures { result ≡ side_count_in placement.now colour }
{
    count_of(placement, colour, Kind::Pawn)
        + count_of(placement, colour, Kind::Knight)
        + count_of(placement, colour, Kind::Bishop)
        + count_of(placement, colour, Kind::Rook)
        + count_of(placement, colour, Kind::Queen)
        + count_of(placement, colour, Kind::King)
}

/// Tells where a side has more than 16 men.
fn push_many(text: &mut Vec<u8>, colour: Colour, men: u128) -> Result<(), AllocError>
    ensures { IfOk result (λ _. text.new.items ≡ text.old.items ++ many_told colour men) }
{
    let mut digits = Buffer::new();
    let number = digits.format(men).as_bytes();
    push_if(
        text,
        16 < men,
        &[
            side_name(colour),
            b" has ",
            number,
            b" men, and 16 is the most",
        ],
    )
}

/// Tells what is wrong with the kings of a side in so many ranks, and with how many men it has.
#[tactic(auto, unfolding(crate::specs::Men::side_told))]
fn push_side(
    text: &mut Vec<u8>,
    ranks: usize,
    placement: &[u8],
    colour: Colour,
) -> Result<(), AllocError>
    ensures { IfOk result (λ _. text.new.items ≡ text.old.items ++ side_told ranks placement.now colour) }
{
    let kings = count_of(placement, colour, Kind::King);
    push_missed_king(text, ranks, colour, kings)?;
    push_kings(text, colour, kings)?;
    push_many(text, colour, side_count(placement, colour))
}

/// Tells what is wrong with the men: kings, how many there are, pawns on ranks 8 and 1.
#[tactic(auto, unfolding(crate::specs::Men::men_told))]
pub(crate) fn push_men(
    text: &mut Vec<u8>,
    placement: &[u8],
    ranks: &[&[u8]],
) -> Result<(), AllocError>
    ensures { IfOk result (λ _. text.new.items ≡ text.old.items ++ men_told placement.now (map (λ r. r.now) ranks.now)) }
{
    push_side(text, ranks.len(), placement, Colour::White)?;
    push_side(text, ranks.len(), placement, Colour::Black)?;
    push_pawns(text, ranks, 7)?;
    push_pawns(text, ranks, 0)
}
