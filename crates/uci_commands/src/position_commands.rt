//! The position that a command says.

ghost use Rattle.std.specs.Prelude.{◌≡◌, ◌↔◌, IfErr, IfOk, OnErr, OnOk, Some, map, option_map};
ghost use Rattle.chess_board.specs.Fens.{FenValue, Spells};
ghost use Rattle.chess_board.specs.Soundness.{IsSound};
ghost use Rattle.uci_commands.specs.PositionCommands.{IsPositionFault, Leads, fen_said, spelt, start_text};
ghost use Rattle.uci_commands.specs.declared.position_commands.PositionFault.TheVariants.{NoMemory};

use crate::marks::{behind, count_before};
use chess_board::{Fen, FenFault, read_fen};
use chess_moves::Rays;
use chess_views::play;
use position_lines::line_fen;
use std::alloc::{AllocError, Global};
use thiserror::Error;

/// The position in which a game begins (FIDE Laws of Chess, article 2.3).
const START: &[u8] = b"rnbqkbnr/pppppppp/8/8/8/8/PPPPPPPP/RNBQKBNR w KQkq - 0 1";

/// Why a command says no position.
#[derive(Clone, Copy, Debug, PartialEq, Eq, Error)]
pub enum PositionFault {
    /// It begins neither with `startpos` nor with `fen`.
    #[error("NoPosition")]
    NoPosition,
    /// Its FEN has a fault.
    #[error("{0}")]
    Fen(FenFault),
    /// The word of this number behind `moves`, counted from 1, names no legal move.
    #[error("NoSuchMove")]
    NoSuchMove(usize),
    /// Its line is longer than what is read of one. No words have this fault.
    #[error("TooLong")]
    TooLong,
    /// Memory was refused.
    #[error("NoMemory")]
    NoMemory,
}

impl From<AllocError> for PositionFault {
    ghost from_gives = { λ _ fault. fault ≡ NoMemory };

    fn from(_refused: AllocError) -> PositionFault {
        PositionFault::NoMemory
    }
}

/// Words, each with a space behind it.
fn spelt(alloc: Global, words: &[&str]) -> Result<Vec<u8>, AllocError>
    ensures { IfOk result (λ text. text.items ≡ spelt (map (λ s. s.now) words.now)) }
{
    let mut text = Vec::new(alloc);
    let mut rest = words;
    while let [word, more @ ..] = rest {
        text.extend_from_slice(word.as_bytes())?;
        text.push(b' ')?;
        rest = more;
    }
    Ok(text)
}

/// The FEN that the words begin with.
#[tactic(auto, unfolding(crate::specs::PositionCommands::fen_said))]
fn fen_said(alloc: Global, words: &[&str]) -> Result<Option<Vec<u8>>, AllocError>
    ensures { IfOk result (λ said. option_map (λ text. text.items) said ≡ fen_said (map (λ s. s.now) words.now)) }
{
    let [kind, rest @ ..] = words else {
        return Ok(None);
    };
    if *kind == "startpos" {
        let mut text = Vec::new(alloc);
        text.extend_from_slice(START)?;
        Ok(Some(text))
    } else if *kind == "fen" {
        let text = spelt(alloc, &rest[..count_before("moves", rest)])?;
        Ok(Some(line_fen(alloc, text.as_slice())?))
    } else {
        Ok(None)
    }
}

/// The FEN that the words behind `position` say.
fn position_said(alloc: Global, rays: &Rays, words: &[&str]) -> Result<Fen, PositionFault>
    ensures said { IfOk result (λ fen. Leads (map (λ s. s.now) words.now) fen) }
    ensures refused { IfErr result (λ fault. IsPositionFault (map (λ s. s.now) words.now) fault) }
{
    let Some(text) = fen_said(alloc, words)? else {
        return Err(PositionFault::NoPosition);
    };
    let first = match read_fen(text.as_slice()) {
        Ok(first) => first,
        Err(fault) => return Err(PositionFault::Fen(fault)),
    };
    match play(rays, &first, behind("moves", words)) {
        Ok(fen) => Ok(fen),
        Err(number) => Err(PositionFault::NoSuchMove(number)),
    }
}

/// Puts the FEN that the words behind `position` say in place of another, which stays where they say none.
pub fn place(alloc: Global, rays: &Rays, words: &[&str], fen: &mut Fen) -> Result<(), PositionFault>
    ensures placed { OnOk result (Leads (map (λ s. s.now) words.now) fen.new) }
    ensures refused { IfErr result (λ fault. IsPositionFault (map (λ s. s.now) words.now) fault) }
    ensures kept { OnErr result (fen.new ≡ fen.old) }
{
    *fen = position_said(alloc, rays, words)?;
    Ok(())
}

/// The FEN of the position in which a game begins. It is always there.
pub fn start_fen() -> Option<Fen>
    ensures { (fen : FenValue) → (result ≡ Some fen) ↔ (Spells start_text fen × IsSound fen.position) }
{
    read_fen(START).ok()
}
