//! The lines that an engine writes.

ghost use Rattle.std.specs.Prelude.{◌≡◌, ◌++◌, ◌≤◌, ℕ, List, IfOk, codes, decimal, option_map};
ghost use Rattle.chess_board.specs.Moves.{move_text};
ghost use Rattle.uci_engine.specs.SearchLines.{IsCosts, IsLengthLine, IsMateLine, best_text, depth_of, moves_text, none_text, terminal_text};

use crate::reader::MAX_LINE;
use chess_board::{FenFault, Move};
use chess_moves::Verdict;
use itoa::Buffer;
use std::alloc::{AllocError, Global};
use uci_commands::{PositionFault, Spin};

/// Adds words to a text.
pub(crate) fn push(text: &mut Vec<u8>, words: &str) -> Result<(), AllocError>
    ensures { IfOk result (λ _. text.new.items ≡ text.old.items ++ words.now) }
{
    text.extend_from_slice(words.as_bytes())?;
    Ok(())
}

/// Adds words and a number to a text.
pub(crate) fn push_count(text: &mut Vec<u8>, words: &str, count: u64) -> Result<(), AllocError>
    ensures { IfOk result (λ _. text.new.items ≡ text.old.items ++ words.now ++ decimal count) }
{
    push(text, words)?;
    let mut digits = Buffer::new();
    push(text, digits.format(count))?;
    Ok(())
}

/// Adds words and a move by its coordinates to a text.
fn push_move(text: &mut Vec<u8>, words: &str, m: Move) -> Result<(), AllocError>
    ensures { IfOk result (λ _. text.new.items ≡ text.old.items ++ words.now ++ move_text m) }
{
    push(text, words)?;
    push(text, m.text().as_str())?;
    Ok(())
}

/// Adds the line of an option: its range, and its value where none is set.
pub(crate) fn push_option(text: &mut Vec<u8>, spin: Spin, default: u64) -> Result<(), AllocError> {
    push(text, "option name ")?;
    push(text, spin.name())?;
    push_count(text, " type spin default ", default)?;
    push_count(text, " min 1 max ", spin.most())?;
    push(text, "\n")
}

/// Adds the line that tells what values an option may have.
pub(crate) fn push_range(text: &mut Vec<u8>, spin: Spin) -> Result<(), AllocError> {
    push(text, "info string ")?;
    push(text, spin.name())?;
    push_count(text, " is a number from 1 to ", spin.most())?;
    push(text, "\n")
}

/// Adds the code of a position's fault, or what its code doesn't say.
fn push_fault(text: &mut Vec<u8>, fault: PositionFault) -> Result<(), AllocError> {
    match fault {
        PositionFault::Fen(fault) => push(text, fault.code()),
        // Where no FEN is begun, there are none of its fields.
        PositionFault::NoPosition => push(text, FenFault::FieldCount.code()),
        PositionFault::NoSuchMove(number) => {
            push_count(text, "move ", number as u64)?;
            push(text, ": NoSuchMove")
        }
        PositionFault::TooLong => push_count(
            text,
            "the line has more bytes than ",
            MAX_LINE as u64,
        ),
        PositionFault::NoMemory => Err(AllocError),
    }
}

/// Adds the line that says why a position is not taken.
pub(crate) fn push_refusal(text: &mut Vec<u8>, fault: PositionFault) -> Result<(), AllocError> {
    push(text, "info string ")?;
    push_fault(text, fault)?;
    push(text, "\n")
}

/// What a search has cost so far: positions, and milliseconds.
#[derive(Clone, Copy)]
pub(crate) struct Costs {
    pub(crate) nodes: u64,
    pub(crate) time: u64,
}

/// How far a search has come: to so many moves.
#[derive(Clone, Copy)]
pub(crate) struct Progress {
    pub(crate) moves: u64,
    pub(crate) costs: Costs,
}

/// Adds what `info` begins with. A mate in n moves is 2n - 1 halfmoves deep.
fn push_depth(text: &mut Vec<u8>, progress: &Progress) -> Result<(), AllocError>
    requires { progress.now.moves ≤ 255 }
    ensures { IfOk result (λ _. text.new.items ≡ text.old.items ++ codes "info depth " ++ decimal (depth_of progress.now.moves)) }
{
    let depth = (2 * progress.moves).saturating_sub(1);
    push_count(text, "info depth ", depth)?;
    Ok(())
}

/// Adds what it cost.
fn push_costs(text: &mut Vec<u8>, costs: &Costs) -> Result<(), AllocError>
    ensures { IfOk result (λ _. (told : List ℕ) × IsCosts told × (text.new.items ≡ text.old.items ++ told)) }
{
    let Costs { nodes, time } = *costs;
    let rate = nodes.saturating_mul(1000) / time.max(1);
    push_count(text, " nodes ", nodes)?;
    push_count(text, " time ", time)?;
    push_count(text, " nps ", rate)?;
    Ok(())
}

/// Adds the line of a search that goes on.
pub(crate) fn push_going(text: &mut Vec<u8>, costs: &Costs) -> Result<(), AllocError> {
    push(text, "info")?;
    push_costs(text, costs)?;
    push(text, "\n")
}

/// Adds the line of a length in which there is no mate.
pub(crate) fn push_length(text: &mut Vec<u8>, progress: &Progress) -> Result<(), AllocError>
    requires { progress.now.moves ≤ 255 }
    ensures { IfOk result (λ _. (line : List ℕ) × IsLengthLine progress.now.moves line × (text.new.items ≡ text.old.items ++ line)) }
{
    push_depth(text, progress)?;
    push_costs(text, &progress.costs)?;
    push(text, "\n")?;
    Ok(())
}

/// Adds moves by their coordinates, each behind a space.
fn push_moves(text: &mut Vec<u8>, moves: &[Move]) -> Result<(), AllocError>
    ensures { IfOk result (λ _. text.new.items ≡ text.old.items ++ moves_text moves.now) }
{
    for m in moves {
        push_move(text, " ", *m)?;
    }
    Ok(())
}

/// Adds the line of a mate, the so-many-th of those that are shown.
pub(crate) fn push_mate(
    text: &mut Vec<u8>,
    progress: &Progress,
    rank: u64,
    pv: &[Move],
) -> Result<(), AllocError>
    requires { progress.now.moves ≤ 255 }
    ensures { IfOk result (λ _. (line : List ℕ) × IsMateLine progress.now.moves rank pv.now line × (text.new.items ≡ text.old.items ++ line)) }
{
    push_depth(text, progress)?;
    push_count(text, " multipv ", rank)?;
    push_count(text, " score mate ", progress.moves)?;
    push_costs(text, &progress.costs)?;
    push(text, " pv")?;
    push_moves(text, pv)?;
    push(text, "\n")?;
    Ok(())
}

/// The score of a position that ends the game; none where there is a legal move.
pub(crate) fn terminal_line(alloc: Global, verdict: Verdict) -> Result<Option<Vec<u8>>, AllocError>
    ensures { IfOk result (λ line. option_map (λ text. text.items) line ≡ terminal_text verdict) }
{
    let score = match verdict {
        Verdict::Play => return Ok(None),
        Verdict::Mate => "info depth 0 score mate 0\n",
        Verdict::Stalemate => "info depth 0 score cp 0\n",
    };
    let mut text = Vec::new(alloc);
    push(&mut text, score)?;
    Ok(Some(text))
}

/// Adds the line that says what to play.
pub(crate) fn push_best(text: &mut Vec<u8>, best: Option<Move>) -> Result<(), AllocError>
    ensures { IfOk result (λ _. text.new.items ≡ text.old.items ++ best_text best) }
{
    let Some(m) = best else {
        push(text, "bestmove 0000\n")?;
        return Ok(());
    };
    push_move(text, "bestmove ", m)?;
    push(text, "\n")?;
    Ok(())
}

/// Adds the line that says that there is no mate in so many moves.
pub(crate) fn push_none(text: &mut Vec<u8>, moves: u64) -> Result<(), AllocError>
    ensures { IfOk result (λ _. text.new.items ≡ text.old.items ++ none_text moves) }
{
    if moves == 0 {
        push(text, "info string not decided\n")?;
        return Ok(());
    }
    push_count(text, "info string no mate in ", moves)?;
    push(text, "\n")?;
    Ok(())
}
