//! The command `play`.

ghost use Rattle.std.specs.Prelude.{◌≡◌, ℕ, [], Ok, Err, IfErr, IfOk, IfSome, IfNone, false, map, option_map, unwrap_or};
ghost use Rattle.chess_views.specs.Played.{played};
ghost use Rattle.file_answers.specs.Writing.{Gains, StopsShowing};
ghost use Rattle.plain_commands.specs.Played.{ShowsPlay};

use crate::fen_commands::read;
use byte_streams::Stop;
use chess_board::Fen;
use chess_moves::Rays;
use chess_views::{play, reached_text};
use file_answers::{complain_move, show};
use position_lines::line_fen;
use std::alloc::Global;
use std::io::Write;

/// The position that moves lead to; none where a word names no legal move, of which `err` is told.
fn reach<E: Write>(rays: &Rays, fen: &Fen, words: &[&str], err: &mut E) -> Option<Fen>
    ensures reached { IfSome result (λ v. played fen.now (map (λ s. s.now) words.now) ≡ Ok v) }
    ensures stopped { IfNone result ((number : ℕ) × (played fen.now (map (λ s. s.now) words.now) ≡ Err number)) }
{
    match play(rays, fen, words) {
        Ok(reached) => Some(reached),
        Err(number) => {
            complain_move(err, number);
            None
        }
    }
}

/// Makes moves from a FEN and shows the position reached, or says on `err` what is refused of them; gives whether anything was. The FEN is
/// read as a line of positions is, so that its counters may be left out.
pub(crate) fn play_moves<O: Write, E: Write>(
    alloc: Global,
    fen: &str,
    words: &[&str],
    out: &mut O,
    err: &mut E,
) -> Result<bool, Stop>
    ensures ok { IfOk result (λ refused. Gains (ShowsPlay fen.now (map (λ s. s.now) words.now) refused) (O.contents out.old) (O.contents out.new)) }
    ensures err { IfErr result (λ stop.
        StopsShowing (ShowsPlay fen.now (map (λ s. s.now) words.now) false) stop (O.contents out.old) (O.contents out.new)) }
{
    let text = line_fen(alloc, fen.as_bytes())?;
    let Some(fen) = read(text.as_slice(), err) else {
        return Ok(true);
    };
    let rays = Rays::new();
    let Some(reached) = reach(&rays, &fen, words, err) else {
        return Ok(true);
    };
    let text = reached_text(alloc, &rays, &reached)?;
    show(out, text.as_slice())
}

/// The same of the moves that are given, where any are.
pub(crate) fn play_given<O: Write, E: Write>(
    alloc: Global,
    fen: &str,
    moves: Option<&[&str]>,
    out: &mut O,
    err: &mut E,
) -> Result<bool, Stop>
    ensures ok { IfOk result (λ refused. Gains (ShowsPlay fen.now (unwrap_or
        (option_map (λ names. map (λ s. s.now) names.now) moves.entry) []) refused) (O.contents out.old) (O.contents out.new)) }
    ensures err { IfErr result (λ stop. StopsShowing (ShowsPlay fen.now (unwrap_or (option_map
        (λ names. map (λ s. s.now) names.now) moves.entry) []) false) stop (O.contents out.old) (O.contents out.new)) }
{
    match moves {
        Some(moves) => play_moves(alloc, fen, moves, out, err),
        None => play_moves(alloc, fen, &[], out, err),
    }
}
