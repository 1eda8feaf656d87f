//! A line of a script: the desk that it opens.

ghost use Rattle.std.specs.Prelude.{◌≡◌};
ghost use Rattle.chess_problems.specs.Problems.{bound_of as bound_of_number};
ghost use Rattle.desk_scripts.specs.inside.ScriptReading.{desk_numbers, desk_of, numbers_behind};

use crate::script_words::{cut_at, is_word, number_cut, number_of};
use chess_problems::Bound;
use std::marker::Model;

/// What the first line of a script says.
#[derive(Drop)]
pub struct Opening {
    pub submitters: usize,
    pub room: usize,
    /// For records that say none.
    pub bound: Bound,
}

impl Model for Opening {
    ghost use Rattle.desk_scripts.specs.inside.ScriptReading.{DeskValue};

    ghost Value = { DeskValue };

    ghost view = { λ o. record { submitters = o.submitters; room = o.room; bound = o.bound } };
}

/// The bound of so many moves; none outside the bounds of a problem.
fn bound_of(moves: u32) -> Option<Bound>
    ensures { result ≡ bound_of_number moves }
{
    Bound::new(u8::try_from(moves).ok()?)
}

/// The numbers of records that each may have pending and of moves, beside that of submitters.
fn numbers_behind(submitters: u32, text: &[u8]) -> Option<Opening>
    ensures { result ≡ numbers_behind submitters text.now }
{
    let (room, rest) = number_cut(text)?;
    let bound = bound_of(number_of(rest)?)?;
    Some(Opening {
        submitters: submitters as usize,
        room: room as usize,
        bound,
    })
}

/// The numbers of submitters, of records that each may have pending, and of moves.
fn read_numbers(text: &[u8]) -> Option<Opening>
    ensures { result ≡ desk_numbers text.now }
{
    let (submitters, rest) = number_cut(text)?;
    numbers_behind(submitters, rest)
}

/// The desk that a line opens.
#[tactic(auto, unfolding(crate::specs::inside::ScriptReading::desk_of))]
pub fn read_desk(line: &[u8]) -> Option<Opening>
    ensures { result ≡ desk_of line.now }
{
    let (word, numbers) = cut_at(line, b' ')?;
    if is_word(word, "desk") {
        read_numbers(numbers)
    } else {
        None
    }
}
