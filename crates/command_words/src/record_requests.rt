//! What is asked of the records of files, or of problems: `solve`, `verify`, `import`, `serve`.

ghost use Rattle.std.specs.Prelude.{◌≡◌, codes, map, option_map, unwrap_or};
ghost use Rattle.clap.specs.Words.{found_of, rows_of};
ghost use Rattle.command_words.specs.Asked.{bound_in, default_bound, import_in, is_given, serve_in, solve_at, solve_in, solve_json_at};
ghost use Rattle.command_words.specs.Asked.{has_letters_asked, letters_asked, verify_at, verify_in, verify_json_at, verify_rows_at};
ghost use Rattle.command_words.specs.Request.{plan_of};

use crate::limits::{LineNumber, MemoSize, Workers};
use crate::matched_values::{
    DEFAULT_MEMO, DEFAULT_MEMOS, bound_in, bound_or_default, from_in, has_letters, is_given,
    letters_in, limit_in, memo_size_in, memos_on, names_in, verify_memos_on, workers_in,
};
use crate::request::{
    Files, ImportAsked, ImportedAsked, Request, ServeAsked, SolveAsked, VerifyAsked,
};
use chess_problems::Bound;
use clap::ArgMatches;

/// What `solve` is asked for, with so many seconds for each record, where they are given.
fn solve_with<'m, 'a>(
    limit: Option<u32>,
    workers: Workers,
    bound: Bound,
    memo: MemoSize,
    from: LineNumber,
    names: &'m [&'a str],
) -> Request<'m, 'a>
    ensures { plan_of result ≡ solve_at limit workers bound memo from (map (λ s. s.now) names.entry.now) }
{
    let files = Files { names, from };
    let asked = SolveAsked {
        workers,
        bound,
        memo,
        files,
    };
    if let Some(seconds) = limit {
        return Request::Limited(seconds, asked);
    }
    if workers.get() == 1 {
        Request::Solve(asked)
    } else {
        Request::SolveOn(asked)
    }
}

/// What `solve` is asked for in JSON.
fn solve_json_with<'m, 'a>(
    limit: Option<u32>,
    workers: Workers,
    bound: Bound,
    memo: MemoSize,
    from: LineNumber,
    names: &'m [&'a str],
) -> Request<'m, 'a>
    ensures { plan_of result ≡ solve_json_at limit workers bound memo from (map (λ s. s.now) names.entry.now) }
{
    let files = Files { names, from };
    let asked = SolveAsked {
        workers,
        bound,
        memo,
        files,
    };
    if let Some(seconds) = limit {
        return Request::LimitedJson(seconds, asked);
    }
    if workers.get() == 1 {
        Request::SolveJson(asked)
    } else {
        Request::SolveJsonOn(asked)
    }
}

/// What the arguments of `solve` ask for.
#[tactic(auto, unfolding(crate::specs::Asked::solve_in))]
pub(crate) fn solve_in<'m, 'a>(matches: &'m ArgMatches<'a>) -> Option<Request<'m, 'a>>
    ensures { option_map plan_of result ≡ solve_in (rows_of (found_of matches.now)) }
{
    let workers = workers_in(matches)?;
    let bound = bound_in(matches)?;
    let memo = memo_size_in(matches, memos_on(workers), DEFAULT_MEMO)?;
    let from = from_in(matches)?;
    let names = names_in(matches, "FILE")?;
    let limit = limit_in(matches);
    Some(if is_given(matches, "json") {
        solve_json_with(limit, workers, bound, memo, from, names)
    } else {
        solve_with(limit, workers, bound, memo, from, names)
    })
}

/// What `verify` is asked for in rows of records.
fn verify_rows_with<'m, 'a>(
    matches: &ArgMatches<'a>,
    limit: Option<u32>,
    workers: Workers,
    memo: MemoSize,
    from: LineNumber,
    names: &'m [&'a str],
) -> Request<'m, 'a>
    ensures { plan_of result ≡ verify_rows_at limit workers (unwrap_or (bound_in (rows_of (found_of matches.now))) default_bound) memo
        (is_given (codes "header") (rows_of (found_of matches.now))) from (map (λ s. s.now) names.entry.now) }
{
    let bound = bound_or_default(matches);
    let header = is_given(matches, "header");
    let files = Files { names, from };
    let asked = VerifyAsked {
        workers,
        bound,
        memo,
        header,
        files,
    };
    if let Some(seconds) = limit {
        return Request::VerifyLimited(seconds, asked);
    }
    if workers.get() == 1 {
        Request::Verify(asked)
    } else {
        Request::VerifyOn(asked)
    }
}

/// What `verify` is asked for in JSON, of one worker.
fn verify_json_with<'m, 'a>(
    limit: Option<u32>,
    worker: Workers,
    bound: Bound,
    memo: MemoSize,
    from: LineNumber,
    names: &'m [&'a str],
) -> Request<'m, 'a>
    ensures { plan_of result ≡ verify_json_at limit bound memo from (map (λ s. s.now) names.entry.now) }
{
    let files = Files { names, from };
    let asked = VerifyAsked {
        workers: worker,
        bound,
        memo,
        header: false,
        files,
    };
    match limit {
        Some(seconds) => Request::VerifyLimitedJson(seconds, asked),
        None => Request::VerifyJson(asked),
    }
}

/// What `verify` is asked for; nothing where several workers are to tell it in JSON or of imported problems, where it is to be in JSON and with
/// names of fields or of imported problems, where these have a limit, or where records are to be read by other letters.
fn verify_with<'m, 'a>(
    matches: &'m ArgMatches<'a>,
    limit: Option<u32>,
    workers: Workers,
    memo: MemoSize,
    from: LineNumber,
    names: &'m [&'a str],
) -> Option<Request<'m, 'a>>
    ensures { option_map plan_of result
        ≡ verify_at (rows_of (found_of matches.now)) limit workers memo from (map (λ s. s.now) names.entry.now) }
{
    let imported = is_given(matches, "import");
    let alone = workers.get() == 1;
    if is_given(matches, "json") {
        if is_given(matches, "header") || imported || !alone || has_letters(matches) {
            return None;
        }
        let bound = bound_or_default(matches);
        return Some(verify_json_with(limit, workers, bound, memo, from, names));
    }
    if !imported {
        if has_letters(matches) {
            return None;
        }
        return Some(verify_rows_with(matches, limit, workers, memo, from, names));
    }
    if limit.is_some() || !alone {
        return None;
    }
    Some(Request::VerifyImported(ImportedAsked {
        bound: bound_in(matches),
        memo,
        header: is_given(matches, "header"),
        letters: letters_in(matches, "L"),
        placements: letters_in(matches, "P"),
        files: Files { names, from },
    }))
}

/// What the arguments of `verify` ask for.
#[tactic(auto, unfolding(crate::specs::Asked::verify_in))]
pub(crate) fn verify_in<'m, 'a>(matches: &'m ArgMatches<'a>) -> Option<Request<'m, 'a>>
    ensures { option_map plan_of result ≡ verify_in (rows_of (found_of matches.now)) }
{
    let workers = workers_in(matches)?;
    let limit = limit_in(matches);
    let memo = memo_size_in(matches, verify_memos_on(limit, workers), DEFAULT_MEMO)?;
    let from = from_in(matches)?;
    let names = names_in(matches, "FILE")?;
    verify_with(matches, limit, workers, memo, from, names)
}

/// What the arguments of `import` ask for.
#[tactic(auto, unfolding(crate::specs::Asked::import_in))]
pub(crate) fn import_in<'m, 'a>(matches: &'m ArgMatches<'a>) -> Option<Request<'m, 'a>>
    ensures { option_map plan_of result ≡ import_in (rows_of (found_of matches.now)) }
{
    let keep = is_given(matches, "keep");
    let bound = bound_in(matches);
    let names = names_in(matches, "FILE")?;
    Some(Request::Import(ImportAsked {
        keep,
        bound,
        letters: letters_in(matches, "L"),
        placements: letters_in(matches, "P"),
        names,
    }))
}

/// What the arguments of `serve` ask for.
#[tactic(auto, unfolding(crate::specs::Asked::serve_in))]
pub(crate) fn serve_in<'m, 'a>(matches: &'m ArgMatches<'a>) -> Option<Request<'m, 'a>>
    ensures { option_map plan_of result ≡ serve_in (rows_of (found_of matches.now)) }
{
    let workers = workers_in(matches)?;
    let bound = bound_in(matches)?;
    let memo = memo_size_in(matches, workers.get(), DEFAULT_MEMOS)?;
    let names = names_in(matches, "FILE")?;
    Some(Request::Serve(ServeAsked {
        workers,
        bound,
        memo,
        names,
    }))
}
