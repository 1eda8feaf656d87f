//! The words of a command line in, text and a status out, but for what starts threads: `serve`, `uci`, `--workers` and `--limit`.

ghost use Rattle.std.specs.Prelude.{◌≡◌, ◌≢◌, ◌⊎◌, ◌≤◌, None, IfErr, IfNone, IfOk, IfSome, IsNone, IsSome, map, option_map, true, false};
ghost use Rattle.std.specs.String.{string_bytes};
ghost use Rattle.clap.specs.Words.{kind_of};
ghost use Rattle.command_words.specs.Asked.{asked, asks_display, asks_threads, is_display, is_threaded, may_display};
ghost use Rattle.command_words.specs.Request.{plan_of};
ghost use Rattle.plain_commands.specs.Command.{has_letters, Ends, EndsBy, EndsByStatus, EndsInPart, Shown, Stops};

use crate::explaining::explain_given;
use crate::fen_commands::{FenCommand, show_fen, show_moves_json};
use crate::importing::import_given;
use crate::playing::play_given;
use crate::position_answers::show_lines;
use crate::replaying::replay;
use crate::sheeting::sheet;
use crate::telling::{tells_none, tree, tree_json};
use byte_streams::{Stop, stop_of_output};
use clap::Error;
use clap::error::ErrorKind;
use command_words::{
    ImportAsked, ImportedAsked, Request, SheetAsked, TreeAsked, escaped, gives_records,
    goes_without_lines, no_request, parse, request_of,
};
use file_answers::{ANSWERED, GivenTexts, MISUSED, Source, complain, no_memory, status_of};
use file_solving::{limited_none, solve, solves_none};
use file_verifying::verify;
use import_claims::verify_imported;
use json_commands::{solve_json, verify_json};
use move_words::Letters;
use std::alloc::Global;
use std::io::Write;

/// What is said of a word that gives no letters of men.
pub const NO_LETTERS: &str =
    "--letters takes six capitals, each another, as KDTLSB, or the code of a language, as de; so does --fen-letters";

/// Whether a request is one for threads.
fn is_threaded(request: &Request) -> bool
    ensures { result ≡ is_threaded (plan_of request.now) }
{
    matches!(
        request,
        Request::Serve(..)
            | Request::SolveOn(..)
            | Request::SolveJsonOn(..)
            | Request::Limited(..)
            | Request::LimitedJson(..)
            | Request::VerifyOn(..)
            | Request::VerifyLimited(..)
            | Request::VerifyLimitedJson(..)
            | Request::TreeOn(..)
            | Request::TreeLimited(..)
            | Request::Uci
    )
}

/// Whether a request has letters of men, where it wants some.
fn has_letters(request: &Request) -> bool
    ensures { result ≡ has_letters (plan_of request.now) }
{
    match request {
        Request::Import(
            ImportAsked {
                letters,
                placements,
                ..
            },
        )
        | Request::VerifyImported(
            ImportedAsked {
                letters,
                placements,
                ..
            },
        ) => Letters::said(letters).is_some() && Letters::said(placements).is_some(),
        Request::Tree(TreeAsked { letters, .. })
        | Request::TreeOn(TreeAsked { letters, .. })
        | Request::TreeLimited(_, TreeAsked { letters, .. })
        | Request::TreeJson(TreeAsked { letters, .. })
        | Request::Sheet(SheetAsked { letters, .. }) => Letters::said(letters).is_some(),
        _ => true,
    }
}

/// Answers a request that starts no threads; gives whether anything was refused.
fn answer<S: Source, O: Write, E: Write>(
    alloc: Global,
    request: &Request,
    source: &S,
    out: &mut O,
    err: &mut E,
) -> Result<bool, Stop>
    requires plain { is_threaded (plan_of request.now) ≡ false }
    ensures ok { IfOk result (λ refused. Shown (S.holds source.now) (plan_of request.now) refused (O.contents out.old) (O.contents out.new)) }
    ensures err { IfErr result (λ stop. Stops (S.holds source.now) (S.refuses source.now) (plan_of request.now) stop
        (O.contents out.old) (O.contents out.new)) }
{
    match request {
        Request::Look(fen) => show_fen(alloc, FenCommand::Look, fen, out, err),
        Request::Board(fen, side) => show_fen(alloc, FenCommand::Board(*side), fen, out, err),
        Request::Svg(fen, side) => show_fen(alloc, FenCommand::Svg(*side), fen, out, err),
        Request::Play(fen, moves) => play_given(alloc, fen, *moves, out, err),
        Request::Moves(form, fen) => show_fen(alloc, FenCommand::Moves(*form), fen, out, err),
        Request::MovesJson(fen) => show_moves_json(alloc, fen, out, err),
        Request::Perft(fen, depth) => show_fen(alloc, FenCommand::Perft(*depth), fen, out, err),
        Request::Divide(fen, depth) => show_fen(alloc, FenCommand::Divide(*depth), fen, out, err),
        Request::Lines(view, names) => show_lines(alloc, *view, names, source, out, err),
        Request::Solve(asked) => solve(alloc, asked, source, out, err),
        Request::SolveJson(asked) => solve_json(alloc, asked, source, out, err),
        Request::Verify(asked) => verify(alloc, asked, source, out, err),
        Request::VerifyJson(asked) => verify_json(alloc, asked, source, out, err),
        Request::VerifyImported(asked) => verify_imported(alloc, asked, source, out, err),
        Request::Tree(asked) => tree(alloc, asked, source, out, err),
        Request::TreeJson(asked) => tree_json(alloc, asked, source, out, err),
        Request::Sheet(asked) => sheet(alloc, asked, source, out, err),
        Request::Import(asked) => import_given(alloc, asked, source, out, err),
        Request::Serve(..)
        | Request::SolveOn(..)
        | Request::SolveJsonOn(..)
        | Request::Limited(..)
        | Request::LimitedJson(..)
        | Request::VerifyOn(..)
        | Request::VerifyLimited(..)
        | Request::VerifyLimitedJson(..)
        | Request::TreeOn(..)
        | Request::TreeLimited(..)
        | Request::Uci => unreachable!(),
        Request::Replay(name) => replay(alloc, name, source, out, err),
        Request::Explain(words) => explain_given(alloc, *words, out, err),
    }
}

/// Answers what the words ask for, unless that starts threads. Matches that ask for nothing are a misuse like any other, of which this is said:
/// `clap` takes `--flip` alone, and `--board` beside `--svg`.
fn run<S: Source, O: Write, E: Write>(
    alloc: Global,
    request: &Option<Request>,
    none: &str,
    source: &S,
    out: &mut O,
    err: &mut E,
) -> Option<u8>
    ensures ends { IfSome result (λ status. Ends (S.holds source.now) (S.refuses source.now)
        (option_map plan_of request.now) status (O.contents out.old) (O.contents out.new)) }
    ensures asked { IfSome result (λ status. status ≢ 2 → IsSome (option_map plan_of request.now)) }
    ensures threads { IfNone result (asks_threads (option_map plan_of request.now) ≡ true) }
    ensures plain { asks_threads (option_map plan_of request.now) ≡ true → IsNone result }
    ensures kept { IfNone result ((out.new ≡ out.old) × (err.new ≡ err.old)) }
{
    let Some(request) = request else {
        complain(err, none);
        return Some(MISUSED);
    };
    if is_threaded(request) {
        return None;
    }
    if !has_letters(request) {
        complain(err, NO_LETTERS);
        return Some(MISUSED);
    }
    let ended = answer(alloc, request, source, out, err);
    Some(status_of(ended, err))
}

/// Prints the help or the version.
fn display<O: Write, E: Write>(error: &Error, out: &mut O, err: &mut E) -> u8
    ensures { (result ≡ 0) ⊎ (result ≡ 4) }
{
    match write!(out, "{error}") {
        Ok(()) => ANSWERED,
        Err(fault) => status_of(Err(stop_of_output(&fault)), err),
    }
}

/// Says what is wrong with the words, of an option that goes without `--lines` in our words. That it can't be written changes nothing.
fn misuse<E: Write>(error: &Error, texts: &[&str], err: &mut E) -> u8
    ensures { result ≡ 2 }
{
    match goes_without_lines(texts) {
        Some(said) if error.kind() == ErrorKind::UnknownArgument => complain(err, said),
        _ => {
            let _ = write!(err, "{error}");
        }
    }
    MISUSED
}

/// Prints what `clap` answers to these words in place of matches, and gives the status.
fn usage<O: Write, E: Write>(error: &Error, texts: &[&str], out: &mut O, err: &mut E) -> u8
    ensures memory { kind_of error.now ≡ ErrorKind.OutOfMemory → result ≡ 3 }
    ensures display { (result ≡ 0) ⊎ (result ≡ 4) → is_display (kind_of error.now) ≡ true }
    ensures no_misuse { is_display (kind_of error.now) ≡ true → result ≢ 2 }
    ensures no_refusal { result ≢ 1 }
    ensures kept { (result ≡ 2) ⊎ (result ≡ 3) → out.new ≡ out.old }
    ensures bounded { result ≤ 4 }
{
    match error.kind() {
        ErrorKind::OutOfMemory => no_memory(err),
        ErrorKind::DisplayHelp | ErrorKind::DisplayVersion => display(error, out, err),
        _ => misuse(error, texts, err),
    }
}

/// Answers what the words ask for, of which the first is the program's own name, unless that starts threads, as `serve`, `uci`, `--workers` and
/// `--limit` do: then nothing is written, and the answer is none. It reads files from `source`.
///
/// A fault of `err` is passed over and changes no status.
pub fn plain_command<S: Source, O: Write, E: Write>(
    alloc: Global,
    words: &[String],
    source: &S,
    out: &mut O,
    err: &mut E,
) -> Option<u8>
    ensures ends { IfSome result (λ status. EndsBy (S.holds source.now) (S.refuses source.now)
        (map string_bytes words.now) status (O.contents out.old) (O.contents out.new)) }
    ensures display { IfSome result (λ status. (status ≡ 0) ⊎ (status ≡ 4) → asked (map string_bytes words.now) ≡ None
        → may_display (map string_bytes words.now) ≡ true) }
    ensures no_misuse { IfSome result (λ status. status ≡ 2 → asks_display (map string_bytes words.now) ≡ false) }
    ensures threads { IfNone result (asks_threads (asked (map string_bytes words.now)) ≡ true) }
    ensures plain { asks_threads (asked (map string_bytes words.now)) ≡ true → IfSome result (λ status. status ≡ 3) }
    ensures kept { IfNone result ((out.new ≡ out.old) × (err.new ≡ err.old)) }
{
    // What a `solve` or a `tree` has written for which memory is refused here.
    solves_none();
    limited_none();
    tells_none();
    let Ok(texts) = escaped(alloc, words) else {
        return Some(no_memory(err));
    };
    match parse(alloc, texts.as_slice()) {
        Ok(matches) => {
            let given = GivenTexts {
                source,
                are_texts: gives_records(&matches),
            };
            let request = request_of(&matches);
            run(alloc, &request, no_request(&matches), &given, out, err)
        }
        Err(error) => Some(usage(&error, texts.as_slice(), out, err)),
    }
}

/// How `solve`, `verify` or `tree` with `--limit` has ended that showed all, of which some records were not decided. It does nothing: its contract
/// is the law.
#[tactic(auto, using(crate::proofs::Endings::ends_in_part))]
pub fn ends_in_part<S: Source>(source: &S)
    ensures { EndsInPart (S.holds source.now) (S.refuses source.now) }
{}

/// How a command that ended with a status of `status_of` has ended. It does nothing: its contract is the law.
pub fn ends_by_status<S: Source>(source: &S)
    ensures { EndsByStatus (S.holds source.now) (S.refuses source.now) }
{}
