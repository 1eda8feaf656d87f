//! What the texts of moves tell, however they are made.

ghost use Rattle.chess_notation.specs.SanLaws.{TextsApart, BareTextsApart, TextsShort, NamesOne, NamedRead, TellsOne, TextsRead};

use chess_moves::{legal_listed, legal_rise};

/// Two legal moves of one position never share a text (PGN Specification, section 8.2.3.4).
pub fn texts_apart()
    ensures { TextsApart }
{
    legal_listed();
}

/// Two legal moves of one position share no text where the suffix is left out of both, either.
pub fn bare_texts_apart()
    ensures { BareTextsApart }
{
    legal_listed();
}

/// A legal move's text has at most seven bytes: room for it can be set aside before it is known.
pub fn texts_short()
    ensures { TextsShort }
{}

/// A word names one legal move at most, whether its suffix stands at its end or not.
pub fn names_one()
    ensures { NamesOne }
{
    bare_texts_apart();
}

/// What words name are exactly the legal moves that some word names, in the order of moves, each once.
pub fn named_read()
    ensures { NamedRead }
{
    legal_rise();
}

/// A word tells one legal move at most, be it by SAN or by coordinates.
pub fn tells_one()
    ensures { TellsOne }
{
    legal_listed();
    names_one();
}

/// A legal move is named by its text, with its suffix or without it, and by its coordinates.
pub fn texts_read()
    ensures { TextsRead }
{
    tells_one();
}
