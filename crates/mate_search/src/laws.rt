//! Laws about the definitions. A function here does nothing, beyond citing a law of the rules: its contract is the law.

ghost use Rattle.mate_search.specs.Laws.{WinReads, LostReads, WinGrows, TruthReads, TruthPlayable, LineMates};
ghost use Rattle.mate_search.specs.inside.PartLaws.{AmongAll, KeysRead, KeysRise, LineReads, DistReads, NoDistReads};

use chess_moves::{legal_listed, legal_rise};
use chess_problems::same_move_reads;

/// There is no mate within 0, and one within n + 1 is a legal move that leaves the defender lost with n more.
pub fn win_reads()
    ensures { WinReads }
{}

/// The defender is lost exactly where it is mated, or where it has a legal move and the attacker, with a move left, mates in time
/// after each; stalemate is no loss.
pub fn lost_reads()
    ensures { LostReads }
{}

/// A mate within n moves is one within n + 1.
pub fn win_grows()
    ensures { WinGrows }
{}

/// Over all legal moves `win_among` is `win`.
pub fn among_all()
    ensures { AmongAll }
{}

/// The list of the keys has exactly the first moves that leave the defender lost with n - 1 more.
pub fn keys_read()
    ensures { KeysRead }
{}

/// The keys rise in the order of moves, as the first moves do, so that none stands there twice.
pub fn keys_rise()
    ensures { KeysRise }
{}

/// The line to the least mate begins with the first key in the order of moves. To a longer mate than one in one move there is then
/// a reply: no other lasts longer, and none that lasts as long comes before it. The line of the position after both follows.
pub fn line_reads()
    ensures { LineReads }
{
    legal_rise();
}

/// The number found is exactly the least, from 1 to the bound, within which there is a mate.
pub fn dist_reads()
    ensures { DistReads }
{}

/// None is found exactly where there is no mate within the bound.
pub fn no_dist_reads()
    ensures { NoDistReads }
{}

/// What `solve` tells of a problem is the least number within which there is a mate, exactly its keys, and its line of play as a
/// chess player reads it; or that there is no mate, exactly where there is none within the bound.
pub fn truth_reads()
    ensures { TruthReads }
{
    same_move_reads();
    legal_rise();
}

/// What `solve` tells of a problem can be played: keys and line are legal moves.
pub fn truth_playable()
    ensures { TruthPlayable }
{
    legal_listed();
}

/// The line that `solve` tells of a mate in n moves has 2n - 1 moves, and ends in mate.
pub fn line_mates()
    ensures { LineMates }
{}
