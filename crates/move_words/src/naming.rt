//! The legal move that a word names.

ghost use Rattle.std.specs.Prelude.{◌≡◌, true, filter};
ghost use Rattle.chess_board.specs.Legality.{is_legal};
ghost use Rattle.chess_moves.specs.inside.Listing.{legal_moves as moves_of};
ghost use Rattle.move_words.specs.Patterns.{fits};
ghost use Rattle.move_words.specs.Naming.{IfOne, is_aside as is_word_aside, named as named_in, named_by};
ghost use Rattle.move_words.specs.inside.Counting.{with_move};

use crate::languages::Letters;
use crate::letters::{is_end, without_number};
use crate::patterns::{Pattern, fits, pattern_of};
use chess_board::{Colour, Move, Position};
use chess_moves::{Rays, legal_listed, legal_moves};

/// What a word names.
#[derive(Clone, Copy, Debug, PartialEq, Eq)]
pub enum Named {
    /// The one legal move that fits it.
    One(Move),
    /// No legal move fits it.
    No,
    /// Two legal moves fit it, or more.
    Several,
}

impl Named {
    /// What is named where one more move fits.
    fn with(self, m: Move) -> Named
        ensures { result ≡ with_move self m }
    {
        match self {
            Named::No => Named::One(m),
            Named::One(_) | Named::Several => Named::Several,
        }
    }
}

/// What is named by what a word says.
fn named_by_pattern(rays: &Rays, position: &Position, pattern: &Pattern) -> Named
    ensures named { result ≡ named_by (filter (fits position.now pattern.now) (moves_of position.now)) }
    ensures legal { IfOne result (λ m. is_legal position.now m ≡ true) }
{
    // That each of them is legal by itself.
    legal_listed();
    let mut named = Named::No;
    for m in legal_moves(rays, position) {
        if fits(position, pattern, m) {
            named = named.with(m);
        }
    }
    named
}

/// The legal move that a word names as people write it: behind `1.`, or `1...` where Black is to move, castling by letters or digits, or a
/// man's letter (none for a pawn, and none needed where both squares are said), from where and to where, with `-`, `x` or `:`
/// between, what the pawn becomes, and signs behind. A capture that is said has to be one; signs behind may be wrong. A pawn's capture has
/// to be said, by its sign or by the pawn's file, and no pawn is told by its rank alone: `a6` names no bxa6, and `2g4` nothing.
#[tactic(auto, unfolding(crate::specs::Naming::named))]
pub fn named_move(rays: &Rays, letters: &Letters, position: &Position, word: &[u8]) -> Named
    ensures named { result ≡ named_in letters.now position.now word.now }
    ensures legal { IfOne result (λ m. is_legal position.now m ≡ true) }
{
    let Some(text) = without_number(position.side(), word) else {
        return Named::No;
    };
    match pattern_of(letters, text) {
        Some(pattern) => named_by_pattern(rays, position, &pattern),
        None => Named::No,
    }
}

/// Whether a word stands beside a move and names none: the number of the first move, or `ep`, and signs.
#[tactic(auto, unfolding(crate::specs::Naming::is_aside))]
pub fn is_aside(side: Colour, word: &[u8]) -> bool
    ensures { result ≡ is_word_aside side word.now }
{
    let [b'1' | b'e', ..] = word else {
        return false;
    };
    match without_number(side, word) {
        Some(text) => is_end(text),
        None => false,
    }
}
