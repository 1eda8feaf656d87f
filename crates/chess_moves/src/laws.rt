//! What the lists hold, whatever made them.

ghost use Rattle.chess_moves.specs.Laws.{LegalRise, LegalListed, PlaysListed, PlaysOnce};

/// The legal moves rise in the order of moves, so that none stands in the list twice.
pub fn legal_rise()
    ensures { LegalRise }
{}

/// A move stands in the list exactly where its squares are on the board and it is legal.
pub fn legal_listed()
    ensures { LegalListed }
{}

/// The lines of play are exactly the lists of so many moves, each legal where it is played.
pub fn plays_listed()
    ensures { PlaysListed }
{}

/// No line of play stands there twice: `perft` counts each once.
pub fn plays_once()
    ensures { PlaysOnce }
{}
