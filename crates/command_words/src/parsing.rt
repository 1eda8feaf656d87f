//! From the words of a command line to a request.

ghost use Rattle.std.specs.Prelude.{◌≡◌, ◌≢◌, None, IfOk, IfErr, map, option_map, false, true};
ghost use Rattle.clap.specs.Words.{found_of, kind_of, rows_of};
ghost use Rattle.command_words.specs.Asked.{answers_records, asked_by, asked_exactly, asked_of, asks_display_exactly, desk_asked_by};
ghost use Rattle.command_words.specs.Asked.{is_display, lines_asked_by, may_display_exactly, progress_of};
ghost use Rattle.command_words.specs.Asked.{records_asked_by, records_given_by, records_given_exactly, records_given_of};
ghost use Rattle.command_words.specs.Request.{plan_of};

use crate::command_line::desk_command;
use crate::matched_values::{is_given, names_in, text_in};
use crate::position_requests::{
    lines_in, look_in, look_lines_in, moves_in, perft_in, perft_lines_in, play_in,
};
use crate::record_requests::{import_in, serve_in, solve_in, verify_in};
use crate::request::{LineView, Request};
use crate::texts::is_same;
use crate::tree_requests::{sheet_in, tree_in};
use clap::error::ErrorKind;
use clap::{ArgMatches, Error};
use std::alloc::Global;

/// What the arguments of a command ask for, by its name: of a command over lines of positions.
#[tactic(auto, unfolding(crate::specs::Asked::lines_asked_by))]
fn line_request_by<'m, 'a>(name: &str, matches: &'m ArgMatches<'a>) -> Option<Request<'m, 'a>>
    ensures { option_map plan_of result ≡ lines_asked_by name.now (rows_of (found_of matches.now)) }
{
    if is_same(name, "look --lines") {
        look_lines_in(matches)
    } else if is_same(name, "moves --lines") {
        lines_in(matches, LineView::Moves)
    } else if is_same(name, "perft --lines") {
        perft_lines_in(matches)
    } else {
        None
    }
}

/// Of these, and of one on threads, at a desk, or that explains faults.
#[tactic(auto, unfolding(crate::specs::Asked::desk_asked_by))]
fn desk_request_by<'m, 'a>(name: &str, matches: &'m ArgMatches<'a>) -> Option<Request<'m, 'a>>
    ensures { option_map plan_of result ≡ desk_asked_by name.now (rows_of (found_of matches.now)) }
{
    if is_same(name, "serve") {
        serve_in(matches)
    } else if is_same(name, "replay") {
        text_in(matches, "SCRIPT").map(Request::Replay)
    } else if is_same(name, "explain") {
        Some(Request::Explain(names_in(matches, "WORD")))
    } else if is_same(name, "uci") {
        Some(Request::Uci)
    } else {
        line_request_by(name, matches)
    }
}

/// Of these, and of one over the records of files.
#[tactic(auto, unfolding(crate::specs::Asked::records_asked_by))]
fn record_request_by<'m, 'a>(name: &str, matches: &'m ArgMatches<'a>) -> Option<Request<'m, 'a>>
    ensures { option_map plan_of result ≡ records_asked_by name.now (rows_of (found_of matches.now)) }
{
    if is_same(name, "solve") {
        solve_in(matches)
    } else if is_same(name, "verify") {
        verify_in(matches)
    } else if is_same(name, "tree") {
        tree_in(matches)
    } else if is_same(name, "sheet") {
        sheet_in(matches)
    } else if is_same(name, "import") {
        import_in(matches)
    } else {
        desk_request_by(name, matches)
    }
}

/// Of any command.
#[tactic(auto, unfolding(crate::specs::Asked::asked_by))]
fn request_by<'m, 'a>(name: &str, matches: &'m ArgMatches<'a>) -> Option<Request<'m, 'a>>
    ensures { option_map plan_of result ≡ asked_by name.now (rows_of (found_of matches.now)) }
{
    if is_same(name, "look") {
        look_in(matches)
    } else if is_same(name, "play") {
        play_in(matches)
    } else if is_same(name, "moves") {
        moves_in(matches)
    } else if is_same(name, "perft") {
        perft_in(matches)
    } else {
        record_request_by(name, matches)
    }
}

/// What the matches of the whole command line ask for.
pub fn request_of<'m, 'a>(matches: &'m ArgMatches<'a>) -> Option<Request<'m, 'a>>
    ensures { option_map plan_of result ≡ asked_of matches.now }
{
    let (name, inner) = matches.subcommand()?;
    request_by(name, inner)
}

/// Whether the matches of the whole command line ask to be told how far the command is, which changes nothing of what it answers.
pub fn asks_progress(matches: &ArgMatches) -> bool
    ensures { result ≡ progress_of matches.now }
{
    match matches.subcommand() {
        Some((_, inner)) => is_given(inner, "progress"),
        None => false,
    }
}

/// Whether a command answers records one after the other.
fn answers_records(name: &str) -> bool
    ensures { result ≡ answers_records name.now }
{
    is_same(name, "solve") || is_same(name, "verify") || is_same(name, "tree")
}

/// Whether the arguments of such a command give records themselves, in place of names of files.
#[tactic(auto, unfolding(crate::specs::Asked::records_given_by))]
fn gives_records_by(name: &str, matches: &ArgMatches) -> bool
    ensures { result ≡ records_given_by name.now (rows_of (found_of matches.now)) }
{
    answers_records(name) && (is_given(matches, "record") || is_given(matches, "fen"))
}

/// Whether the matches of the whole command line do.
pub fn gives_records(matches: &ArgMatches) -> bool
    ensures { result ≡ records_given_of matches.now }
{
    match matches.subcommand() {
        Some((name, inner)) => gives_records_by(name, inner),
        None => false,
    }
}

/// Parses the words of a command line. A request for help or for the version is an `Err`.
pub fn parse<'a>(alloc: Global, words: &'a [&'a str]) -> Result<ArgMatches<'a>, Error>
    ensures ok { IfOk result (λ m. asked_of m ≡ asked_exactly (map (λ s. s.now) words.entry.now)) }
    ensures records { IfOk result (λ m. records_given_of m ≡ records_given_exactly (map (λ s. s.now) words.entry.now)) }
    ensures clear { IfOk result (λ _. asks_display_exactly (map (λ s. s.now) words.entry.now) ≡ false) }
    ensures err { IfErr result (λ e. kind_of e ≢ ErrorKind.OutOfMemory → asked_exactly (map (λ s. s.now) words.entry.now) ≡ None) }
    ensures display { IfErr result (λ e. is_display (kind_of e) ≡ true → may_display_exactly (map (λ s. s.now) words.entry.now) ≡ true) }
    ensures misuse { IfErr result (λ e. kind_of e ≢ ErrorKind.OutOfMemory → is_display (kind_of e) ≡ false
        → asks_display_exactly (map (λ s. s.now) words.entry.now) ≡ false) }
{
    desk_command(alloc)?.try_get_matches_from(words)
}
