//! The words of a command line in, answers and a status out, where they ask for `solve` without threads.

ghost use Rattle.std.specs.Prelude.{◌≡◌, ◌⊎◌, IfNone, IfSome, map, option_map, true, false};
ghost use Rattle.std.specs.String.{string_bytes};
ghost use Rattle.command_words.specs.Asked.{asked, records_given};
ghost use Rattle.command_words.specs.Request.{plan_of};
ghost use Rattle.file_answers.specs.Sources.{held, held_back};
ghost use Rattle.solver.specs.Ends.{Ends, IsTold, asks_solve};

use clap::error::ErrorKind;
use command_words::{Request, asks_progress, escaped, gives_records, parse, request_of};
use file_answers::{GivenTexts, Source, no_memory, status_of};
use file_solving::solve;
use std::alloc::Global;
use std::io::Write;

/// Answers a request for `solve`, and gives the status; none of another.
fn answer<S: Source, O: Write, E: Write>(
    alloc: Global,
    request: &Option<Request>,
    source: &S,
    out: &mut O,
    err: &mut E,
) -> Option<u8>
    ensures ends { IfSome result (λ status. Ends (S.holds source.now) (S.refuses source.now)
        (option_map plan_of request.now) status (O.contents out.old) (O.contents out.new)) }
    ensures other { IfNone result (asks_solve (option_map plan_of request.now) ≡ false) }
    ensures kept { IfNone result ((out.new ≡ out.old) × (err.new ≡ err.old)) }
{
    let Some(request) = request else {
        return None;
    };
    let Request::Solve(asked) = request else {
        return None;
    };
    let ended = solve(alloc, asked, source, out, err);
    Some(status_of(ended, err))
}

/// Answers what the words ask for, of which the first is the program's own name, where that is `solve`. Of all else, also where it is asked
/// to tell how far it is, which takes a thread, nothing is written, and the answer is none. It reads files from `source`.
///
/// A fault of `err` is passed over and changes no status.
pub fn solve_asked<S: Source, O: Write, E: Write>(
    alloc: Global,
    words: &[String],
    source: &S,
    out: &mut O,
    err: &mut E,
) -> Option<u8>
    ensures ends { IfSome result (λ status. Ends (held (records_given (map string_bytes words.now)) (S.holds source.now))
        (held_back (records_given (map string_bytes words.now)) (S.refuses source.now))
        (asked (map string_bytes words.now)) status (O.contents out.old) (O.contents out.new)) }
    ensures other { IfNone result ((asks_solve (asked (map string_bytes words.now)) ≡ false) ⊎ IsTold (asked (map string_bytes words.now))) }
    ensures kept { IfNone result ((out.new ≡ out.old) × (err.new ≡ err.old)) }
{
    let Ok(texts) = escaped(alloc, words) else {
        return Some(no_memory(err));
    };
    match parse(alloc, texts.as_slice()) {
        Ok(matches) => {
            if asks_progress(&matches) {
                return None;
            }
            let given = GivenTexts {
                source,
                are_texts: gives_records(&matches),
            };
            answer(alloc, &request_of(&matches), &given, out, err)
        }
        Err(error) => match error.kind() {
            ErrorKind::OutOfMemory => Some(no_memory(err)),
            _ => None,
        },
    }
}
