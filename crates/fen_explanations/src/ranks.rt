//! What is wrong with the ranks of a placement.

ghost use Rattle.std.specs.Prelude.{◌≡◌, ◌++◌, ◌∷◌, [], ◌+◌, ◌*◌, ◌-◌, ◌<◌, IfOk, codes, decimal, flat_map, map, length, true};
ghost use Rattle.chess_board.specs.Fields.{square_text};
ghost use Rattle.fen_explanations.specs.Placements.{rank_in as rank_of_ranks};
ghost use Rattle.fen_explanations.specs.Ranks.{begins_with_run as does_begin_with_run, count_told, has_runs_together as are_runs_together};
ghost use Rattle.fen_explanations.specs.Ranks.{each_rank_told, hint as hint_of, is_no_man as is_letter_of_no_man, letter_told, letters_told};
ghost use Rattle.fen_explanations.specs.Ranks.{men_of_rank_told, no_man_told, quoted as quoted_of, quoted_rank_told, rank_told, ranks_told};
ghost use Rattle.fen_explanations.specs.Ranks.{runs_told, shown_byte as shown_as, strangers_told, width_told};
ghost use Rattle.fen_explanations.specs.Sentences.{each_below, plural as plural_of, sentence, together};

use crate::placements::{is_run, letter_at, man_named, rank_in, squares_in, standing};
use crate::sentences::{plural, push_if, push_parts, push_sentence};
use chess_board::Square;
use itoa::Buffer;
use std::alloc::{AllocError, Global};

/// Tells where there are not eight ranks.
fn push_count(text: &mut Vec<u8>, ranks: usize) -> Result<(), AllocError>
    ensures { IfOk result (λ _. text.new.items ≡ text.old.items ++ count_told ranks) }
{
    let mut digits = Buffer::new();
    let number = digits.format(ranks).as_bytes();
    push_if(text, ranks != 8, &[b"there are ", number, b" ranks, not 8"])
}

/// A rank as it is called where it has no number: what stands there.
fn quoted(alloc: Global, squares: &[u8]) -> Result<Vec<u8>, AllocError>
    ensures { IfOk result (λ called. called.items ≡ quoted_of squares.now) }
{
    let mut called = Vec::from_slice(alloc, b"\"")?;
    called.extend_from_slice(squares)?;
    called.extend_from_slice(b"\"")?;
    Ok(called)
}

/// Adds how many squares there are, and ends the line.
fn push_squares(text: &mut Vec<u8>, squares: u128) -> Result<(), AllocError>
    ensures { IfOk result (λ _. text.new.items ≡ text.old.items
        ++ sentence (codes " has " ∷ decimal squares ∷ codes " square" ∷ plural_of squares ∷ [])) }
{
    let mut digits = Buffer::new();
    let number = digits.format(squares).as_bytes();
    push_sentence(text, &[b" has ", number, b" square", plural(squares)])
}

/// Tells where a rank has not eight squares.
fn push_width(text: &mut Vec<u8>, called: &[u8], squares: u128) -> Result<(), AllocError>
    ensures { IfOk result (λ _. text.new.items ≡ text.old.items ++ width_told called.now squares) }
{
    if squares == 8 {
        return Ok(());
    }
    push_parts(text, &[called])?;
    push_squares(text, squares)
}

fn begins_with_run(text: &[u8]) -> bool
    ensures { result ≡ does_begin_with_run text.now }
{
    match text {
        [byte, ..] => is_run(*byte),
        [] => false,
    }
}

/// Whether two digits stand side by side somewhere.
#[tactic(auto, unfolding(crate::specs::Ranks::has_runs_together))]
fn has_runs_together(text: &[u8]) -> bool
    ensures { result ≡ are_runs_together text.now }
{
    let mut rest = text;
    while let [byte, more @ ..] = rest {
        if is_run(*byte) && begins_with_run(more) {
            return true;
        }
        rest = more;
    }
    false
}

/// Tells where two digits stand side by side on a rank.
fn push_runs(text: &mut Vec<u8>, called: &[u8], squares: &[u8]) -> Result<(), AllocError>
    ensures { IfOk result (λ _. text.new.items ≡ text.old.items ++ runs_told called.now squares.now) }
{
    push_if(
        text,
        has_runs_together(squares),
        &[b"two digits stand side by side on ", called],
    )
}

/// What a letter of German or Polish diagrams stands for.
#[tactic(auto, unfolding(crate::specs::Ranks::hint))]
fn hint(letter: u8) -> &'static [u8]
    ensures { result.now ≡ hint_of letter }
{
    match letter {
        b'S' => b": knights are N",
        b'L' => b": bishops are B",
        b'T' => b": rooks are R",
        b'D' => b": queens are Q",
        b's' => b": knights are n",
        b'l' => b": bishops are b",
        b't' => b": rooks are r",
        b'd' => b": queens are q",
        _ => b"",
    }
}

/// A byte as it is shown.
#[tactic(auto, unfolding(crate::specs::Ranks::shown_byte))]
fn shown_byte(byte: u8) -> u8
    ensures { result ≡ shown_as byte }
{
    if b' ' < byte && byte < 127 {
        byte
    } else {
        b'?'
    }
}

fn is_no_man(letter: u8) -> bool
    ensures { result ≡ is_letter_of_no_man letter }
{
    man_named(letter).is_none()
}

/// Adds a byte as it is shown, between quotation marks.
fn push_shown(text: &mut Vec<u8>, letter: u8) -> Result<(), AllocError>
    ensures { IfOk result (λ _. text.new.items ≡ text.old.items ++ together (codes "\"" ∷ (shown_as letter ∷ []) ∷ codes "\" " ∷ [])) }
{
    push_parts(text, &[b"\"", &[shown_byte(letter)], b"\" "])
}

/// Tells that no man has the letter that stands at a square, or on a rank.
fn push_no_man(text: &mut Vec<u8>, is_at: &[u8], place: &[u8], letter: u8) -> Result<(), AllocError>
    ensures { IfOk result (λ _. text.new.items ≡ text.old.items ++ no_man_told is_at.now place.now letter) }
{
    push_shown(text, letter)?;
    push_parts(text, &[is_at, b" ", place])?;
    push_sentence(text, &[b" is no man", hint(letter)])
}

/// Tells where what stands there is no man's letter.
#[tactic(auto, unfolding(crate::specs::Ranks::letter_told))]
fn push_letter(
    text: &mut Vec<u8>,
    is_at: &[u8],
    place: &[u8],
    letter: &Option<u8>,
) -> Result<(), AllocError>
    ensures { IfOk result (λ _. text.new.items ≡ text.old.items ++ letter_told is_at.now place.now letter.now) }
{
    match letter {
        Some(letter) if is_no_man(*letter) => push_no_man(text, is_at, place, *letter),
        _ => Ok(()),
    }
}

/// Tells of what stands on a square.
fn push_on_square(text: &mut Vec<u8>, square: Square, letter: &Option<u8>) -> Result<(), AllocError>
    ensures { IfOk result (λ _. text.new.items ≡ text.old.items ++ letter_told (codes "at") (square_text square) letter.now) }
{
    push_letter(
        text,
        b"at",
        &[square.file_letter(), square.rank_digit()],
        letter,
    )
}

/// Tells of each square of a rank.
#[tactic(auto, unfolding(crate::specs::Sentences::each_below))]
fn push_letters(text: &mut Vec<u8>, rank: u8, squares: &[u8]) -> Result<(), AllocError>
    requires { rank < 8 }
    ensures { IfOk result (λ _. text.new.items ≡ text.old.items ++ letters_told rank squares.now) }
{
    for file in 0..8 {
        push_on_square(
            text,
            Square::numbered(8 * rank + file),
            &letter_at(squares, file),
        )?;
    }
    Ok(())
}

/// Tells of each byte of a rank whose squares aren't known.
fn push_strangers(text: &mut Vec<u8>, called: &[u8], squares: &[u8]) -> Result<(), AllocError>
    ensures { IfOk result (λ _. text.new.items ≡ text.old.items ++ strangers_told called.now squares.now) }
{
    for byte in squares {
        push_letter(text, b"on", called, &standing(*byte))?;
    }
    Ok(())
}

/// Tells of all letters of a rank, by their squares where it has eight.
#[tactic(auto, unfolding(crate::specs::Ranks::men_of_rank_told))]
fn push_men_of_rank(text: &mut Vec<u8>, rank: u8, squares: &[u8]) -> Result<(), AllocError>
    requires { rank < 8 }
    ensures { IfOk result (λ _. text.new.items ≡ text.old.items ++ men_of_rank_told rank squares.now) }
{
    if squares_in(squares) == 8 {
        return push_letters(text, rank, squares);
    }
    push_strangers(text, &[b'r', b'a', b'n', b'k', b' ', b'1' + rank], squares)
}

/// Tells all that is wrong with a rank of eight.
#[tactic(auto, unfolding(crate::specs::Ranks::rank_told))]
fn push_rank(text: &mut Vec<u8>, rank: u8, squares: &[u8]) -> Result<(), AllocError>
    requires { rank < 8 }
    ensures { IfOk result (λ _. text.new.items ≡ text.old.items ++ rank_told rank squares.now) }
{
    let called = [b'r', b'a', b'n', b'k', b' ', b'1' + rank];
    push_width(text, &called, squares_in(squares))?;
    push_runs(text, &called, squares)?;
    push_men_of_rank(text, rank, squares)
}

/// Tells all that is wrong with a rank of more or fewer.
#[tactic(auto, unfolding(crate::specs::Ranks::quoted_rank_told))]
fn push_quoted_rank(alloc: Global, text: &mut Vec<u8>, squares: &[u8]) -> Result<(), AllocError>
    ensures { IfOk result (λ _. text.new.items ≡ text.old.items ++ quoted_rank_told squares.now) }
{
    let called = quoted(alloc, squares)?;
    push_width(text, called.as_slice(), squares_in(squares))?;
    push_runs(text, called.as_slice(), squares)?;
    push_strangers(text, called.as_slice(), squares)
}

/// Tells of each of more or fewer ranks than eight.
fn push_quoted_ranks(alloc: Global, text: &mut Vec<u8>, ranks: &[&[u8]]) -> Result<(), AllocError>
    ensures { IfOk result (λ _. text.new.items ≡ text.old.items ++ flat_map quoted_rank_told (map (λ r. r.now) ranks.now)) }
{
    for rank in ranks {
        push_quoted_rank(alloc, text, rank)?;
    }
    Ok(())
}

/// Tells of each of eight ranks, from the eighth down.
#[tactic(auto, using(crate::proofs::EachBelow::none_told, crate::proofs::EachBelow::more_told))]
fn push_eight_ranks(text: &mut Vec<u8>, ranks: &[&[u8]]) -> Result<(), AllocError>
    ensures { IfOk result (λ _. text.new.items ≡ text.old.items
        ++ each_below 8 (λ n. rank_told (7 - n) (rank_of_ranks (map (λ r. r.now) ranks.now) (7 - n)))) }
{
    for number in 0..8 {
        push_rank(text, 7 - number, rank_in(ranks, 7 - number))?;
    }
    Ok(())
}

/// Tells of each rank, from the eighth down.
#[tactic(auto, unfolding(crate::specs::Ranks::each_rank_told))]
fn push_each_rank(alloc: Global, text: &mut Vec<u8>, ranks: &[&[u8]]) -> Result<(), AllocError>
    ensures { IfOk result (λ _. text.new.items ≡ text.old.items ++ each_rank_told (map (λ r. r.now) ranks.now)) }
{
    if ranks.len() == 8 {
        return push_eight_ranks(text, ranks);
    }
    push_quoted_ranks(alloc, text, ranks)
}

/// Tells all that is wrong with the ranks.
#[tactic(auto, unfolding(crate::specs::Ranks::ranks_told))]
pub(crate) fn push_ranks(
    alloc: Global,
    text: &mut Vec<u8>,
    ranks: &[&[u8]],
) -> Result<(), AllocError>
    ensures { IfOk result (λ _. text.new.items ≡ text.old.items ++ ranks_told (map (λ r. r.now) ranks.now)) }
{
    push_count(text, ranks.len())?;
    push_each_rank(alloc, text, ranks)
}
