//! The program: words in, text and a status out.

ghost use Rattle.std.specs.Prelude.{◌≡◌, ◌⊎◌, None, map, option_map, true, false};
ghost use Rattle.std.specs.String.{string_bytes};
ghost use Rattle.command_words.specs.Asked.{asked, asks_display, asks_threads, may_display};
ghost use Rattle.command_words.specs.Request.{plan_of};
ghost use Rattle.plain_commands.specs.Command.{Ends, EndsBy};

use crate::in_time::answer_in_time;
use crate::serving::serve;
use crate::solving_in_time::{SolveInTime, SolveJsonInTime};
use crate::solving_on::{solve_json_on, solve_on};
use crate::talking::talk;
use crate::telling_in_time::{TellInTime, tell_in_time};
use crate::trees_on::tree_on;
use crate::verifying_in_time::{VerifyInTime, VerifyJsonInTime};
use crate::verifying_on::verify_on;
use command_progress::{Console, Telling, WatchedFiles};
use command_words::{Request, asks_progress, escaped, gives_records, parse, request_of};
use file_answers::{GivenTexts, Source, complain, no_memory};
use file_solving::{limited_none, solves_none};
use plain_commands::{ends_by_status, plain_command, tells_none};
use std::alloc::Global;
use std::io::Write;
use std::sync::Wait;
use std::thread::Threads;
use std::time::Clock;

/// Answers a request that starts threads.
// Its own frame: these commands have large values, which would lie on the stack of all others, too.
#[inline(never)]
fn threaded_request<
    R: Threads + Wait + Clock + Sync + Clone + Drop + Send + 'static,
    S: Source,
    O: Write,
    E: Write,
>(rt: &R, alloc: Global, request: &Option<Request>, source: &S, out: &mut O, err: &mut E) -> u8
where
    S::File: Send,
    requires threads { asks_threads (option_map plan_of request.now) ≡ true }
    ensures { Ends (S.holds source.now) (S.refuses source.now) (option_map plan_of request.now) result
        (O.contents out.old) (O.contents out.new) }
{
    match request {
        Some(Request::Serve(asked)) => serve(rt, alloc, asked, source, out, err),
        Some(Request::SolveOn(asked)) => solve_on(rt, alloc, asked, source, out, err),
        Some(Request::SolveJsonOn(asked)) => solve_json_on(rt, alloc, asked, source, out, err),
        Some(Request::VerifyOn(asked)) => verify_on(rt, alloc, asked, source, out, err),
        Some(Request::TreeOn(asked)) => tree_on(rt, alloc, asked, source, out, err),
        Some(Request::Limited(seconds, asked)) => {
            let seconds = *seconds;
            let command = SolveInTime { rt, seconds, asked };
            answer_in_time(rt, alloc, &command, source, out, err)
        }
        Some(Request::LimitedJson(seconds, asked)) => {
            let seconds = *seconds;
            let command = SolveJsonInTime { rt, seconds, asked };
            answer_in_time(rt, alloc, &command, source, out, err)
        }
        Some(Request::VerifyLimited(seconds, asked)) => {
            let seconds = *seconds;
            let command = VerifyInTime { rt, seconds, asked };
            answer_in_time(rt, alloc, &command, source, out, err)
        }
        Some(Request::VerifyLimitedJson(seconds, asked)) => {
            let seconds = *seconds;
            let command = VerifyJsonInTime { seconds, asked };
            answer_in_time(rt, alloc, &command, source, out, err)
        }
        Some(Request::TreeLimited(seconds, asked)) => {
            let seconds = *seconds;
            let command = TellInTime { seconds, asked };
            tell_in_time(rt, alloc, &command, source, out, err)
        }
        Some(Request::Uci) => talk(rt, alloc, source, out, err),
        _ => unreachable!(),
    }
}

/// Answers words that ask for `serve`, `uci`, `--workers` or `--limit`. That they were parsed before shows that they are no fault:
/// what is refused now is memory.
fn threaded_command<
    R: Threads + Wait + Clock + Sync + Clone + Drop + Send + 'static,
    S: Source,
    O: Write,
    E: Write,
>(rt: &R, alloc: Global, words: &[String], source: &S, out: &mut O, err: &mut E) -> u8
where
    S::File: Send,
    requires threads { asks_threads (asked (map string_bytes words.now)) ≡ true }
    ensures ends { EndsBy (S.holds source.now) (S.refuses source.now) (map string_bytes words.now) result
        (O.contents out.old) (O.contents out.new) }
    ensures no_misuse { result ≡ 2 → asks_display (map string_bytes words.now) ≡ false }
{
    // How it ends with the status of what was written, be it of files or of records given, and with nothing written.
    let mut given = GivenTexts {
        source,
        are_texts: true,
    };
    ends_by_status(&given);
    given.are_texts = false;
    ends_by_status(&given);
    limited_none();
    solves_none();
    tells_none();
    let Ok(texts) = escaped(alloc, words) else {
        return no_memory(err);
    };
    let Ok(matches) = parse(alloc, texts.as_slice()) else {
        return no_memory(err);
    };
    given.are_texts = gives_records(&matches);
    threaded_request(rt, alloc, &request_of(&matches), &given, out, err)
}

/// Answers what the words ask for.
fn answer<
    R: Threads + Wait + Clock + Sync + Clone + Drop + Send + 'static,
    S: Source,
    O: Write,
    E: Write,
>(rt: &R, alloc: Global, words: &[String], source: &S, out: &mut O, err: &mut E) -> u8
where
    S::File: Send,
    ensures ends { EndsBy (S.holds source.now) (S.refuses source.now) (map string_bytes words.now) result
        (O.contents out.old) (O.contents out.new) }
    ensures display { (result ≡ 0) ⊎ (result ≡ 4) → asked (map string_bytes words.now) ≡ None → may_display (map string_bytes words.now) ≡ true }
    ensures no_misuse { result ≡ 2 → asks_display (map string_bytes words.now) ≡ false }
{
    match plain_command(alloc, words, source, out, err) {
        Some(status) => status,
        None => threaded_command(rt, alloc, words, source, out, err),
    }
}

/// Whether the words ask to be told how far the command is.
fn are_told(alloc: Global, words: &[String]) -> bool {
    if !words.iter().any(|word| word.as_str() == "--progress") {
        return false;
    }
    let Ok(texts) = escaped(alloc, words) else {
        return false;
    };
    match parse(alloc, texts.as_slice()) {
        Ok(matches) => asks_progress(&matches),
        Err(_) => false,
    }
}

/// The program: answers what the words ask for, of which the first is the program's own name. It reads files from `source`. Only
/// `serve`, `uci`, `solve`, `verify` and `tree` with `--workers`, these three with `--limit`, and what has `--progress` start threads,
/// and wait for them.
///
/// A fault of `err` is passed over and changes no status. So does one of the thread that tells on standard error how far the command is.
pub fn command<
    R: Threads + Wait + Clock + Console + Sync + Clone + Drop + Send + 'static,
    S: Source,
    O: Write,
    E: Write,
>(rt: &R, alloc: Global, words: &[String], source: &S, out: &mut O, err: &mut E) -> u8
where
    S::File: Send,
    ensures ends { EndsBy (S.holds source.now) (S.refuses source.now) (map string_bytes words.now) result
        (O.contents out.old) (O.contents out.new) }
    ensures display { (result ≡ 0) ⊎ (result ≡ 4) → asked (map string_bytes words.now) ≡ None → may_display (map string_bytes words.now) ≡ true }
    ensures no_misuse { result ≡ 2 → asks_display (map string_bytes words.now) ≡ false }
{
    if !are_told(alloc, words) {
        return answer(rt, alloc, words, source, out, err);
    }
    match Telling::start(rt, alloc, words) {
        Some(telling) => {
            let files = WatchedFiles {
                source,
                progress: &*telling.progress,
            };
            let status = answer(rt, alloc, words, &files, out, err);
            telling.end(rt, alloc, status, err);
            status
        }
        None => {
            complain(err, "no progress is told");
            answer(rt, alloc, words, source, out, err)
        }
    }
}
