//! The commands over lines of positions: `look`, `moves` and `perft` with `--lines`.

ghost use Rattle.std.specs.Prelude.{◌≡◌, IfErr, IfOk, map};
ghost use Rattle.file_answers.specs.Writing.{Gains};
ghost use Rattle.plain_commands.specs.PositionLines.{ShowsLines, StopsLines, command_of};

use crate::fen_commands::{FenCommand, shown_text};
use byte_streams::{Input, Stop};
use chess_board::Fen;
use chess_moves::Rays;
use command_words::{LineNumber, LineView};
use file_answers::{FileAnswers, FileStart, Source, SourceFiles, answer_files};
use position_lines::{FenView, answer_positions};
use std::alloc::{AllocError, Global};
use std::io::Write;

/// Answers each line, a position, by what a command shows of it.
#[derive(Clone, Copy)]
struct PositionAnswers<'a> {
    rays: &'a Rays,
    command: FenCommand,
}

impl FenView for PositionAnswers<'_> {
    ghost use Rattle.plain_commands.specs.FenCommands.{shown_text};

    ghost shown = { λ answers. shown_text answers.command };

    fn text(&self, alloc: Global, fen: &Fen) -> Result<Vec<u8>, AllocError> {
        shown_text(alloc, self.rays, self.command, fen)
    }
}

impl FileAnswers for PositionAnswers<'_> {
    ghost use Rattle.file_answers.specs.FileAnswers.{unmarked};
    ghost use Rattle.plain_commands.specs.PositionLines.{first_position_replies, position_replies};

    type Memory = ();

    ghost replies = { λ answers. position_replies answers.command };

    ghost told = { λ answers. unmarked (position_replies answers.command) };

    ghost tells = { λ _ _ _ _ _ _ _ told. told };

    ghost first = { λ answers. first_position_replies answers.command };

    fn answer<S: Source, I: Input + Drop, O: Write>(
        &self,
        alloc: Global,
        _start: &FileStart<S>,
        input: I,
        _memory: &mut (),
        out: &mut O,
    ) -> Result<usize, Stop> {
        answer_positions(alloc, self, input, out)
    }

    fn begins_with_nothing(&self) {}
}

/// The command over a FEN whose text answers a line.
fn command_of(view: LineView) -> FenCommand
    ensures { result ≡ command_of view }
{
    match view {
        LineView::Look => FenCommand::Look,
        LineView::Board(side) => FenCommand::Board(side),
        LineView::Moves => FenCommand::MovesLine,
        LineView::Perft(depth) => FenCommand::Perft(depth),
    }
}

/// Shows the position on each line of each file in order, and opens a file only after the answers to those before were written; gives
/// whether a line was refused. A file that can't be read is named on `err`.
pub(crate) fn show_lines<S: Source, O: Write, E: Write>(
    alloc: Global,
    view: LineView,
    names: &[&str],
    source: &S,
    out: &mut O,
    err: &mut E,
) -> Result<bool, Stop>
    ensures ok { IfOk result (λ refused. Gains (ShowsLines (S.holds source.now) (command_of view)
        (map (λ s. s.now) names.now) refused) (O.contents out.old) (O.contents out.new)) }
    ensures err { IfErr result (λ stop. StopsLines (S.holds source.now) (S.refuses source.now) (command_of view)
        (map (λ s. s.now) names.now) stop (O.contents out.old) (O.contents out.new)) }
{
    let rays = Rays::new();
    let answers = PositionAnswers {
        rays: &rays,
        command: command_of(view),
    };
    let files = SourceFiles {
        names,
        from: LineNumber::first(),
        source,
    };
    answer_files(alloc, &answers, &files, &mut (), out, err)
}
