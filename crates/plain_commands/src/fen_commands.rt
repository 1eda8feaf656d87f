//! The commands over a FEN alone: `look`, `moves` and `perft`.

ghost use Rattle.std.specs.Prelude.{◌≡◌, IfErr, IfOk, IfSome, IfNone, false};
ghost use Rattle.chess_board.specs.Fens.{Spells, IsFault};
ghost use Rattle.chess_board.specs.Soundness.{IsSound};
ghost use Rattle.chess_board.specs.declared.faults.FenFault.{FenFault as FenFaultValue};
ghost use Rattle.file_answers.specs.Writing.{Gains, StopsShowing};
ghost use Rattle.plain_commands.specs.FenCommands.{ShowsFen, ShowsMovesJson, ShowsObject, columns_of, shown_text};

use byte_streams::Stop;
use chess_board::{Colour, Fen, read_fen};
use chess_moves::Rays;
use chess_views::{
    Columns, divided_text, look_board_text, look_text, moves_line, moves_text, perft_text,
};
use command_words::{Depth, MoveForm};
use file_answers::{complain, show};
use json_replies::{error_json, moves_json};
use problem_sheets::svg_text;
use std::alloc::{AllocError, Global};
use std::io::Write;

/// What there is to show of a FEN.
#[derive(Clone, Copy)]
pub(crate) enum FenCommand {
    /// Its canonical form, and whether the side to move is in check.
    Look,
    /// The same, with the board as it is seen from a side.
    Board(Colour),
    /// The board as it is seen from a side, as an image.
    Svg(Colour),
    /// The legal moves in such a form, or how the game has ended where there is none.
    Moves(MoveForm),
    /// The same in SAN on one line.
    MovesLine,
    /// How many lines of so many legal moves there are.
    Perft(Depth),
    /// The same, for each first move too.
    Divide(Depth),
}

/// What stands on a line of `moves`.
fn columns_of(form: MoveForm) -> Columns
    ensures { result ≡ columns_of form }
{
    match form {
        MoveForm::San => Columns::San,
        MoveForm::Coordinates => Columns::Coordinates,
        MoveForm::SanFen => Columns::SanFen,
        MoveForm::SanCoordinatesFen => Columns::SanCoordinatesFen,
    }
}

/// Reads a FEN, or names its fault on `err`.
pub(crate) fn read<E: Write>(fen: &[u8], err: &mut E) -> Option<Fen>
    ensures read { IfSome result (λ v. Spells fen.now v × IsSound v.position) }
    ensures refused { IfNone result ((fault : FenFaultValue) × IsFault fen.now fault) }
{
    match read_fen(fen) {
        Ok(fen) => Some(fen),
        Err(fault) => {
            complain(err, fault.code());
            None
        }
    }
}

/// What a command shows of a FEN. It is made whole before any of it is written.
pub(crate) fn shown_text(
    alloc: Global,
    rays: &Rays,
    command: FenCommand,
    fen: &Fen,
) -> Result<Vec<u8>, AllocError>
    ensures { IfOk result (λ text. text.items ≡ shown_text command fen.now) }
{
    match command {
        FenCommand::Look => look_text(alloc, fen),
        FenCommand::Board(side) => look_board_text(alloc, fen, side),
        FenCommand::Svg(side) => svg_text(alloc, &fen.position, side),
        FenCommand::Moves(form) => moves_text(alloc, rays, fen, columns_of(form)),
        FenCommand::MovesLine => moves_line(alloc, rays, fen),
        FenCommand::Perft(depth) => perft_text(alloc, rays, fen, depth.get()),
        FenCommand::Divide(depth) => divided_text(alloc, rays, fen, depth.get()),
    }
}

/// Shows of a FEN what a command asks, or names its fault on `err`; gives whether it was refused.
pub(crate) fn show_fen<O: Write, E: Write>(
    alloc: Global,
    command: FenCommand,
    fen: &str,
    out: &mut O,
    err: &mut E,
) -> Result<bool, Stop>
    ensures ok { IfOk result (λ refused. Gains (ShowsFen (shown_text command) fen.now refused) (O.contents out.old) (O.contents out.new)) }
    ensures err { IfErr result (λ stop. StopsShowing (ShowsFen (shown_text command) fen.now false) stop (O.contents out.old) (O.contents out.new)) }
{
    let Some(fen) = read(fen.as_bytes(), err) else {
        return Ok(true);
    };
    let text = shown_text(alloc, &Rays::new(), command, &fen)?;
    show(out, text.as_slice())
}

/// Shows the legal moves of a FEN in JSON, or the fault by which it is refused, which `err` is told too; gives whether it was refused.
pub(crate) fn show_moves_json<O: Write, E: Write>(
    alloc: Global,
    fen: &str,
    out: &mut O,
    err: &mut E,
) -> Result<bool, Stop>
    ensures ok { IfOk result (λ refused. Gains (ShowsMovesJson fen.now refused) (O.contents out.old) (O.contents out.new)) }
    ensures err { IfErr result (λ stop. StopsShowing (ShowsObject fen.now) stop (O.contents out.old) (O.contents out.new)) }
{
    match read_fen(fen.as_bytes()) {
        Ok(fen) => {
            let text = moves_json(alloc, &Rays::new(), &fen)?;
            show(out, text.as_slice())
        }
        Err(fault) => {
            let text = error_json(alloc, fault.code())?;
            show(out, text.as_slice())?;
            complain(err, fault.code());
            Ok(true)
        }
    }
}
