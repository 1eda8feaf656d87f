//! What a placement says of each square, whether or not it is right.

ghost use Rattle.std.specs.Prelude.{◌≡◌, ◌+◌, ◌<◌, ◌≤◌, IfOk, map};
ghost use Rattle.chess_board.specs.Men.{man_of as man_value};
ghost use Rattle.chess_board.specs.Placement.{coloured_letter};
ghost use Rattle.fen_explanations.specs.Placements.{content, has_man as is_man_said, is_known as is_rank_known, is_run as is_run_digit};
ghost use Rattle.fen_explanations.specs.Placements.{letter_at as letter_of_file};
ghost use Rattle.fen_explanations.specs.Placements.{letter_on as letter_of_square};
ghost use Rattle.fen_explanations.specs.Placements.{man_if as man_of_side, man_named as man_of_letter, man_said as man_of_byte};
ghost use Rattle.fen_explanations.specs.Placements.{men_in as men_of_ranks};
ghost use Rattle.fen_explanations.specs.Placements.{rank_in as rank_of_ranks, ranks_of as ranks_of_text, squares_in as squares_of_rank};
ghost use Rattle.fen_explanations.specs.Placements.{standing as standing_of, width as width_of};

use chess_board::{Colour, Kind, Man, Square};
use std::alloc::{AllocError, Global};

/// Whether a byte counts empty squares.
pub(crate) fn is_run(byte: u8) -> bool
    ensures { result ≡ is_run_digit byte }
{
    b'0' < byte && byte < b'9'
}

/// How many squares a byte says.
#[tactic(auto, unfolding(crate::specs::Placements::width))]
fn width(byte: u8) -> u8
    ensures width { result ≡ width_of byte }
    ensures few { result ≤ 8 }
{
    if is_run(byte) {
        byte - b'0'
    } else if 128 <= byte && byte < 192 {
        0
    } else {
        1
    }
}

/// How many squares a rank says.
pub(crate) fn squares_in(rank: &[u8]) -> u128
    ensures { result ≡ squares_of_rank rank.now }
{
    let mut squares = 0u128;
    for byte in rank {
        squares += u128::from(width(*byte));
    }
    squares
}

/// The ranks of a placement, the eighth first.
pub(crate) fn ranks_of(alloc: Global, placement: &[u8]) -> Result<Vec<&[u8]>, AllocError>
    ensures { IfOk result (λ ranks. map (λ r. r.now) ranks.items ≡ ranks_of_text placement.now) }
{
    placement.split(|byte| *byte == b'/').collect(alloc)
}

/// The text of a rank, of which the first is number 0.
pub(crate) fn rank_in<'t>(ranks: &[&'t [u8]], rank: u8) -> &'t [u8]
    requires { rank < 8 }
    ensures { result.now ≡ rank_of_ranks (map (λ r. r.now) ranks.now) rank }
{
    match ranks.get((7 - rank) as usize) {
        Some(text) => text,
        None => &[],
    }
}

/// Whether the squares of a rank are known: there are eight ranks, and it says eight squares.
pub(crate) fn is_known(ranks: &[&[u8]], rank: u8) -> bool
    requires { rank < 8 }
    ensures { result ≡ is_rank_known (map (λ r. r.now) ranks.now) rank }
{
    ranks.len() == 8 && squares_in(rank_in(ranks, rank)) == 8
}

/// What a byte has stand on a square: nothing where it counts empty ones, or goes on with a character.
#[tactic(auto, unfolding(crate::specs::Placements::standing, crate::specs::Placements::content))]
pub(crate) fn standing(byte: u8) -> Option<u8>
    ensures { result ≡ standing_of byte }
{
    if width(byte) == 0 || is_run(byte) {
        None
    } else {
        Some(byte)
    }
}

/// The byte on a file of a rank.
#[tactic(auto, unfolding(crate::specs::Placements::content))]
pub(crate) fn letter_at(rank: &[u8], file: u8) -> Option<u8>
    ensures { result ≡ letter_of_file rank.now file }
{
    let mut rest = rank;
    let mut left = file;
    while let [byte, more @ ..] = rest {
        let width = width(*byte);
        if left < width {
            return if is_run(*byte) { None } else { Some(*byte) };
        }
        left -= width;
        rest = more;
    }
    None
}

/// The byte on a square.
#[tactic(auto, unfolding(crate::specs::Placements::letter_on))]
pub(crate) fn letter_on(ranks: &[&[u8]], square: Square) -> Option<u8>
    ensures { result ≡ letter_of_square (map (λ r. r.now) ranks.now) square }
{
    letter_at(rank_in(ranks, square.rank()), square.file())
}

/// The letter of a man.
pub(crate) fn letter_of(colour: Colour, kind: Kind) -> u8
    ensures { result ≡ coloured_letter colour kind }
{
    match colour {
        Colour::White => kind.letter(),
        Colour::Black => kind.letter() + 32,
    }
}

/// Whether a man of this colour and kind is said to stand on a square.
pub(crate) fn has_man(ranks: &[&[u8]], colour: Colour, kind: Kind, square: Square) -> bool
    ensures { result ≡ is_man_said (map (λ r. r.now) ranks.now) colour kind square }
{
    match letter_on(ranks, square) {
        Some(letter) => letter == letter_of(colour, kind),
        None => false,
    }
}

/// The man of a colour whose letter it is.
fn man_if(colour: Colour, letter: u8) -> Option<Man>
    ensures { result ≡ man_of_side colour letter }
{
    let kind = if letter == letter_of(colour, Kind::Pawn) {
        Kind::Pawn
    } else if letter == letter_of(colour, Kind::Knight) {
        Kind::Knight
    } else if letter == letter_of(colour, Kind::Bishop) {
        Kind::Bishop
    } else if letter == letter_of(colour, Kind::Rook) {
        Kind::Rook
    } else if letter == letter_of(colour, Kind::Queen) {
        Kind::Queen
    } else if letter == letter_of(colour, Kind::King) {
        Kind::King
    } else {
        return None;
    };
    Some(Man { colour, kind })
}

/// The man whose letter it is.
#[tactic(auto, unfolding(crate::specs::Placements::man_named))]
pub(crate) fn man_named(letter: u8) -> Option<Man>
    ensures { result ≡ man_of_letter letter }
{
    if letter < b'a' {
        man_if(Colour::White, letter)
    } else {
        man_if(Colour::Black, letter)
    }
}

/// The man that is said to stand on a square.
fn man_on(ranks: &[&[u8]], square: Square) -> Option<Man>
    ensures { result ≡ man_of_byte (letter_of_square (map (λ r. r.now) ranks.now) square) }
{
    match letter_on(ranks, square) {
        Some(letter) => man_named(letter),
        None => None,
    }
}

/// The men on the 64 squares.
#[tactic(auto, unfolding(crate::specs::Placements::men_in, crate::specs::Placements::listed))]
pub(crate) fn men_in(alloc: Global, ranks: &[&[u8]]) -> Result<Vec<Option<Man>>, AllocError>
    ensures { IfOk result (λ men. men.items ≡ men_of_ranks (map (λ r. r.now) ranks.now)) }
{
    let mut men = Vec::new(alloc);
    for number in 0..64 {
        men.push(man_on(ranks, Square::numbered(number)))?;
    }
    Ok(men)
}
