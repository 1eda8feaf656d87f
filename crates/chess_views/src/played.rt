//! The FEN after a move, and after words that name moves.

ghost use Rattle.std.specs.Prelude.{◌≡◌, map, true};
ghost use Rattle.chess_board.specs.Legality.{is_legal};
ghost use Rattle.chess_views.specs.Played.{fen_after, fullmove_after, halfmove_after, is_zeroing, next_count, played};

use chess_board::{Colour, Fen, Kind, Move, Position, after};
use chess_moves::Rays;
use chess_notation::read_move;

/// The greatest number that a counter of a FEN says.
const MAX_COUNT: u16 = 9_999;

/// Whether the halfmove clock starts anew with a move.
fn is_zeroing(position: &Position, m: Move) -> bool
    ensures { result ≡ is_zeroing position.now m }
{
    let pawn = match position.man(m.origin) {
        Some(man) => man.kind == Kind::Pawn,
        None => false,
    };
    pawn || position.man(m.target).is_some()
}

/// One more, up to the greatest number that a counter says.
fn next_count(count: u16) -> u16
    ensures { result ≡ next_count count }
{
    count.saturating_add(1).min(MAX_COUNT)
}

/// The halfmove clock after a move.
fn halfmove_after(fen: &Fen, m: Move) -> u16
    ensures { result ≡ halfmove_after fen.now m }
{
    if is_zeroing(&fen.position, m) {
        0
    } else {
        next_count(fen.halfmove)
    }
}

/// The fullmove number after a move.
fn fullmove_after(fen: &Fen) -> u16
    ensures { result ≡ fullmove_after fen.now }
{
    match fen.position.side() {
        Colour::White => fen.fullmove,
        Colour::Black => next_count(fen.fullmove),
    }
}

/// The FEN after a legal move: the position, and the counters (PGN Specification, sections 16.1.3.5 and 16.1.3.6). The halfmove
/// clock starts anew with a move of a pawn and with a capture, the fullmove number goes on after Black's move, and a counter at 9,999
/// stays there.
pub fn after_fen(fen: &Fen, chosen: Move) -> Fen
    requires { is_legal fen.now.position chosen ≡ true }
    ensures { result ≡ fen_after fen.now chosen }
{
    Fen {
        position: after(&fen.position, chosen),
        halfmove: halfmove_after(fen, chosen),
        fullmove: fullmove_after(fen),
    }
}

/// Plays the moves that words name, each in the position that those before it lead to, and gives the FEN at their end; or the number,
/// counted from 1, of the first word that names no legal move there (`read_move` says which words do).
#[tactic(auto, using(crate::proofs::PlayedSteps::played_next, crate::proofs::PlayedSteps::played_all))]
pub fn play(rays: &Rays, fen: &Fen, words: &[&str]) -> Result<Fen, usize>
    ensures { result ≡ played fen.now (map (λ s. s.now) words.now) }
{
    let mut reached = *fen;
    for (index, word) in words.iter().enumerate() {
        match read_move(rays, &reached.position, word.as_bytes()) {
            Some(m) => reached = after_fen(&reached, m),
            None => return Err(index + 1),
        }
    }
    Ok(reached)
}
