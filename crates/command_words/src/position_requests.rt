//! What is asked of positions: `look`, `play`, `moves`, `perft`, and lines of positions.

ghost use Rattle.std.specs.Prelude.{◌≡◌, option_map};
ghost use Rattle.clap.specs.Words.{found_of, rows_of};
ghost use Rattle.command_words.specs.Asked.{form_in, lines_in, look_in, look_lines_in, moves_at, moves_in, perft_in, perft_lines_in, play_in, svg_at};
ghost use Rattle.command_words.specs.Request.{plan_of};

use crate::matched_values::{depth_in, is_given, names_in, side_in, text_in};
use crate::request::{LineView, MoveForm, Request};
use clap::ArgMatches;

/// What the arguments of `look` ask for, where the board is drawn as an image; nothing where it is to be drawn in letters, too.
fn svg_in<'m, 'a>(matches: &'m ArgMatches<'a>, fen: &'a str) -> Option<Request<'m, 'a>>
    ensures { option_map plan_of result ≡ svg_at (rows_of (found_of matches.now)) fen.entry.now }
{
    if is_given(matches, "board") {
        None
    } else {
        Some(Request::Svg(fen, side_in(matches)))
    }
}

/// What the arguments of `look` ask for; nothing where the board is to be both drawn and an image, or is to be turned and neither.
#[tactic(auto, unfolding(crate::specs::Asked::look_in))]
pub(crate) fn look_in<'m, 'a>(matches: &'m ArgMatches<'a>) -> Option<Request<'m, 'a>>
    ensures { option_map plan_of result ≡ look_in (rows_of (found_of matches.now)) }
{
    let fen = text_in(matches, "FEN")?;
    if is_given(matches, "svg") {
        svg_in(matches, fen)
    } else if is_given(matches, "board") {
        Some(Request::Board(fen, side_in(matches)))
    } else if is_given(matches, "flip") {
        None
    } else {
        Some(Request::Look(fen))
    }
}

/// What the arguments of `play` ask for.
#[tactic(auto, unfolding(crate::specs::Asked::play_in))]
pub(crate) fn play_in<'m, 'a>(matches: &'m ArgMatches<'a>) -> Option<Request<'m, 'a>>
    ensures { option_map plan_of result ≡ play_in (rows_of (found_of matches.now)) }
{
    let fen = text_in(matches, "FEN")?;
    Some(Request::Play(fen, names_in(matches, "MOVE")))
}

/// How the moves are written that `moves` lists.
#[tactic(auto, unfolding(crate::specs::Asked::form_in))]
fn form_in(matches: &ArgMatches) -> MoveForm
    ensures { result ≡ form_in (rows_of (found_of matches.now)) }
{
    let has_coordinates = is_given(matches, "coordinates");
    let has_fen = is_given(matches, "fen");
    match (has_coordinates, has_fen) {
        (false, false) => MoveForm::San,
        (true, false) => MoveForm::Coordinates,
        (false, true) => MoveForm::SanFen,
        (true, true) => MoveForm::SanCoordinatesFen,
    }
}

/// What is asked of the moves of a FEN; nothing where they are to be in JSON and in another form, too.
fn moves_as<'m, 'a>(matches: &'m ArgMatches<'a>, fen: &'a str) -> Option<Request<'m, 'a>>
    ensures { option_map plan_of result ≡ moves_at (rows_of (found_of matches.now)) fen.entry.now }
{
    if !is_given(matches, "json") {
        Some(Request::Moves(form_in(matches), fen))
    } else if is_given(matches, "coordinates") || is_given(matches, "fen") {
        None
    } else {
        Some(Request::MovesJson(fen))
    }
}

/// What the arguments of `moves` ask for.
#[tactic(auto, unfolding(crate::specs::Asked::moves_in))]
pub(crate) fn moves_in<'m, 'a>(matches: &'m ArgMatches<'a>) -> Option<Request<'m, 'a>>
    ensures { option_map plan_of result ≡ moves_in (rows_of (found_of matches.now)) }
{
    let fen = text_in(matches, "FEN")?;
    moves_as(matches, fen)
}

/// What the arguments of `perft` ask for.
#[tactic(auto, unfolding(crate::specs::Asked::perft_in))]
pub(crate) fn perft_in<'m, 'a>(matches: &'m ArgMatches<'a>) -> Option<Request<'m, 'a>>
    ensures { option_map plan_of result ≡ perft_in (rows_of (found_of matches.now)) }
{
    let depth = depth_in(matches)?;
    let fen = text_in(matches, "FEN")?;
    if is_given(matches, "divide") {
        Some(Request::Divide(fen, depth))
    } else {
        Some(Request::Perft(fen, depth))
    }
}

/// What the arguments of a command over lines ask for, by what it shows of each.
#[tactic(auto, unfolding(crate::specs::Asked::lines_in))]
pub(crate) fn lines_in<'m, 'a>(
    matches: &'m ArgMatches<'a>,
    view: LineView,
) -> Option<Request<'m, 'a>>
    ensures { option_map plan_of result ≡ lines_in view (rows_of (found_of matches.now)) }
{
    let names = names_in(matches, "FILE")?;
    Some(Request::Lines(view, names))
}

/// What the arguments of `look --lines` ask for; nothing where a board is to be turned that isn't drawn.
#[tactic(auto, unfolding(crate::specs::Asked::look_lines_in))]
pub(crate) fn look_lines_in<'m, 'a>(matches: &'m ArgMatches<'a>) -> Option<Request<'m, 'a>>
    ensures { option_map plan_of result ≡ look_lines_in (rows_of (found_of matches.now)) }
{
    if is_given(matches, "board") {
        lines_in(matches, LineView::Board(side_in(matches)))
    } else if is_given(matches, "flip") {
        None
    } else {
        lines_in(matches, LineView::Look)
    }
}

/// What the arguments of `perft --lines` ask for.
#[tactic(auto, unfolding(crate::specs::Asked::perft_lines_in))]
pub(crate) fn perft_lines_in<'m, 'a>(matches: &'m ArgMatches<'a>) -> Option<Request<'m, 'a>>
    ensures { option_map plan_of result ≡ perft_lines_in (rows_of (found_of matches.now)) }
{
    let depth = depth_in(matches)?;
    lines_in(matches, LineView::Perft(depth))
}
