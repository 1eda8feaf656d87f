//! Laws about the definitions. A function here does nothing, beyond citing laws of the search: its contract is the law.

ghost use Rattle.mate_tree.specs.Laws.{DefencesAnswered, LeavesMate, LineBranches, SoonestReads};
ghost use Rattle.mate_tree.specs.Parries.{ParriesRead};
ghost use Rattle.mate_tree.specs.Variations.{EachHasLine};

use chess_moves::legal_listed;
use mate_search::{lost_reads, truth_playable, truth_reads, win_grows, win_reads};

/// Something mates soonest exactly where the attacker mates within the moves that are left.
pub fn soonest_reads()
    ensures { SoonestReads }
{
    truth_reads();
    win_reads();
    win_grows();
}

/// After a move that mates in one the defender is mated: where a tree goes down to its end, it ends in mate.
pub fn leaves_mate()
    ensures { LeavesMate }
{
    truth_reads();
    lost_reads();
}

/// Below each legal reply to a key, or to a move that mates soonest, stands a move that goes on: none refutes it, so that no key is a try.
pub fn defences_answered()
    ensures { DefencesAnswered }
{
    truth_reads();
    lost_reads();
    soonest_reads();
}

/// The whole line that `solve` tells is a branch of the tree: a key, a legal reply, a move that mates soonest from there, and so on to the
/// mate.
pub fn line_branches()
    ensures { LineBranches }
{
    truth_reads();
    win_reads();
    lost_reads();
}

/// No defence is missed: a reply parries exactly where no threat begins a mate in time after it, and each other reply leaves such a threat.
pub fn parries_read()
    ensures { ParriesRead }
{
    truth_playable();
    legal_listed();
}

/// Each reply that parries stands on a line, its own or that of an earlier one which is answered alike.
pub fn each_has_line()
    ensures { EachHasLine }
{}
