//! Laws about the definitions. Each function here does nothing: its contract is the law.

ghost use Rattle.chess_board.specs.Laws.{AttackedReads, ClearReads, LegalReads, SoundAfter, SpellsOne, PrintedSpells, EqualReads};

/// A square is attacked exactly where a man of the colour stands somewhere and attacks it as its kind does.
pub fn attacked_reads()
    ensures { AttackedReads }
{}

/// The way between two squares is clear exactly where no man stands strictly between them.
pub fn clear_reads()
    ensures { ClearReads }
{}

/// A move is legal exactly where the rules allow it and the mover's king is not attacked afterwards.
pub fn legal_reads()
    ensures { LegalReads }
{}

/// A sound position stays sound after a legal move.
pub fn sound_after()
    ensures { SoundAfter }
{}

/// Four fields spell one position at most.
pub fn spells_one()
    ensures { SpellsOne }
{}

/// The four fields that are printed for a position spell it, and each is one visible word.
pub fn printed_spells()
    ensures { PrintedSpells }
{}

/// `==` holds of two sound positions exactly where they are one.
pub fn equal_reads()
    ensures { EqualReads }
{}
