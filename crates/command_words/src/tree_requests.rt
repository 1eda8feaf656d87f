//! What is asked of solutions as they are shown: `tree`, `sheet`.

ghost use Rattle.std.specs.Prelude.{◌≡◌, codes, option_map};
ghost use Rattle.std.specs.Option.{option_map_or};
ghost use Rattle.clap.specs.Walk.{byte_or_zero};
ghost use Rattle.clap.specs.Words.{found_of, one_of, rows_of};
ghost use Rattle.command_words.specs.Asked.{number_or_zero, some_number, tree_form_in, tree_in, tree_workers_in, sheet_form_in, sheet_in, sheet_with};
ghost use Rattle.command_words.specs.Request.{plan_of};

use crate::limits::Workers;
use crate::matched_values::{
    DEFAULT_MEMO, bound_in, from_in, is_given, large_number_in, limit_in, memo_size_in, names_in,
    number_in, text_in,
};
use crate::request::{Files, Request, SheetAsked, SheetForm, TreeAsked, TreeForm};
use clap::ArgMatches;

/// The workers of `tree`, whose N is a number of lines.
#[tactic(auto, unfolding(crate::specs::Asked::tree_workers_in))]
fn tree_workers_in(matches: &ArgMatches) -> Option<Workers>
    ensures { result ≡ tree_workers_in (rows_of (found_of matches.now)) }
{
    Workers::new(number_in(matches, "W"))
}

/// How many of the attacker's moves are shown of a tree. `clap` has kept them to their range, and has none where none are given.
fn shown_in(matches: &ArgMatches) -> Option<u8>
    ensures { result ≡ some_number (option_map_or byte_or_zero (one_of (codes "D") (rows_of (found_of matches.now))) 0) }
{
    match number_in(matches, "D") {
        0 => None,
        moves => Some(moves),
    }
}

/// How many lines of a tree there are at most, likewise.
fn most_lines_in(matches: &ArgMatches) -> Option<u32>
    ensures { result ≡ some_number (option_map_or number_or_zero (one_of (codes "N") (rows_of (found_of matches.now))) 0) }
{
    match large_number_in(matches, "N") {
        0 => None,
        lines => Some(lines),
    }
}

/// What is shown of a tree.
#[tactic(auto, unfolding(crate::specs::Asked::tree_form_in))]
fn tree_form_in(matches: &ArgMatches) -> TreeForm
    ensures { result ≡ tree_form_in (rows_of (found_of matches.now)) }
{
    TreeForm {
        moves: shown_in(matches),
        defences: is_given(matches, "defences"),
        set_play: is_given(matches, "set-play"),
        tries: is_given(matches, "tries"),
        column: is_given(matches, "column"),
        figurines: is_given(matches, "figurines"),
        lines: most_lines_in(matches),
    }
}

/// What the arguments of `tree` ask for; nothing where two of these are asked for at once: JSON, several workers, and a limit.
#[tactic(auto, unfolding(crate::specs::Asked::tree_in))]
pub(crate) fn tree_in<'m, 'a>(matches: &'m ArgMatches<'a>) -> Option<Request<'m, 'a>>
    ensures { option_map plan_of result ≡ tree_in (rows_of (found_of matches.now)) }
{
    let workers = tree_workers_in(matches)?;
    let bound = bound_in(matches)?;
    let from = from_in(matches)?;
    let form = tree_form_in(matches);
    let letters = text_in(matches, "L")?;
    let names = names_in(matches, "FILE")?;
    let limit = limit_in(matches);
    let asked = TreeAsked {
        workers,
        bound,
        form,
        letters,
        files: Files { names, from },
    };
    match (is_given(matches, "json"), limit, workers.get() == 1) {
        (false, None, true) => Some(Request::Tree(asked)),
        (false, None, false) => Some(Request::TreeOn(asked)),
        (false, Some(seconds), true) => Some(Request::TreeLimited(seconds, asked)),
        (true, None, true) => Some(Request::TreeJson(asked)),
        _ => None,
    }
}

/// What a page has beside its diagrams.
#[tactic(auto, unfolding(crate::specs::Asked::sheet_form_in))]
fn sheet_form_in(matches: &ArgMatches) -> SheetForm
    ensures { result ≡ sheet_form_in (rows_of (found_of matches.now)) }
{
    SheetForm {
        solutions: is_given(matches, "solutions"),
        figurines: is_given(matches, "figurines"),
    }
}

/// What the arguments of `sheet` ask for, with what a page has beside its diagrams.
#[tactic(auto, unfolding(crate::specs::Asked::sheet_with))]
fn sheet_with<'m, 'a>(matches: &'m ArgMatches<'a>) -> Option<Request<'m, 'a>>
    ensures { option_map plan_of result ≡ sheet_with (rows_of (found_of matches.now)) }
{
    let bound = bound_in(matches)?;
    let memo = memo_size_in(matches, 1, DEFAULT_MEMO)?;
    let form = sheet_form_in(matches);
    let letters = text_in(matches, "L")?;
    let title = text_in(matches, "T")?;
    let names = names_in(matches, "FILE")?;
    Some(Request::Sheet(SheetAsked {
        bound,
        memo,
        form,
        letters,
        title,
        names,
    }))
}

/// What the arguments of `sheet` ask for; nothing where figurines are to stand in solutions that aren't there.
#[tactic(auto, unfolding(crate::specs::Asked::sheet_in))]
pub(crate) fn sheet_in<'m, 'a>(matches: &'m ArgMatches<'a>) -> Option<Request<'m, 'a>>
    ensures { option_map plan_of result ≡ sheet_in (rows_of (found_of matches.now)) }
{
    if is_given(matches, "figurines") && !is_given(matches, "solutions") {
        None
    } else {
        sheet_with(matches)
    }
}
