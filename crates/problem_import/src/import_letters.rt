//! The letters of men that problems are read by.

ghost use Rattle.std.specs.Prelude.{◌≡◌};
ghost use Rattle.problem_import.specs.Imported.{import_letters_in, letters_in};

use move_words::Letters;

/// The letters of men in moves, and in placements.
#[derive(Clone, Copy)]
pub struct ImportLetters {
    pub moves: Letters,
    pub placements: Letters,
}

/// The letters that a word gives: English ones where it gives none.
fn letters_in(word: &str) -> Letters
    ensures { result ≡ letters_in word.now }
{
    match Letters::said(word) {
        Some(letters) => letters,
        None => Letters::ENGLISH,
    }
}

impl ImportLetters {
    /// English ones.
    pub const ENGLISH: ImportLetters = ImportLetters {
        moves: Letters::ENGLISH,
        placements: Letters::ENGLISH,
    };

    /// Those that two words give, as six capitals or the code of a language: English ones where a word gives none.
    pub fn said(moves: &str, placements: &str) -> ImportLetters
        ensures { result ≡ import_letters_in moves.now placements.now }
    {
        ImportLetters {
            moves: letters_in(moves),
            placements: letters_in(placements),
        }
    }
}
