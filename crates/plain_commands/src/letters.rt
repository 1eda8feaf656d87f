//! The letters of men, and what stands for pieces in moves.

ghost use Rattle.std.specs.Prelude.{◌≡◌};
ghost use Rattle.problem_import.specs.Imported.{letters_in};
ghost use Rattle.plain_commands.specs.Told.{pieces_of as pieces_asked};

use mate_tree::Pieces;
use move_words::Letters;

/// The letters of men that a word gives.
pub(crate) fn letters_in(word: &str) -> Letters
    ensures { result ≡ letters_in word.now }
{
    match Letters::said(word) {
        Some(letters) => letters,
        None => Letters::ENGLISH,
    }
}

/// What stands for pieces: figurines, or such letters.
pub(crate) fn pieces_of(figurines: bool, letters: Letters) -> Pieces
    ensures { result ≡ pieces_asked figurines letters }
{
    if figurines {
        Pieces::Figurines
    } else if letters.is_english() {
        Pieces::San
    } else {
        Pieces::Letters(letters)
    }
}
