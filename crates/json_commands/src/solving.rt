//! The command `solve --json`.

ghost use Rattle.std.specs.Prelude.{◌≡◌, ◌-◌, IfErr, IfOk, map};
ghost use Rattle.file_answers.specs.Writing.{Gains};
ghost use Rattle.json_commands.specs.Solved.{SolvesJson, SolvesLimitedJson, StopsLimitedJson, StopsSolvingJson};

use crate::json_files::{JsonHandler, answer_json};
use byte_streams::Stop;
use chess_moves::Rays;
use command_words::SolveAsked;
use file_answers::{Source, SourceFiles};
use file_solving::{Lengthwise, new_memo};
use json_replies::Form;
use mate_answers::{Answers, Limited, LimitedMemory, TimeLimit};
use mate_search::{Never, OneThread, Solver};
use std::alloc::Global;
use std::io::Write;

/// Answers as `solve` of `file_solving` does, but in JSON: a line for each that isn't blank. It gives whether a line was refused, and names a
/// file that can't be read on `err`.
pub fn solve_json<S: Source, O: Write, E: Write>(
    alloc: Global,
    asked: &SolveAsked,
    source: &S,
    out: &mut O,
    err: &mut E,
) -> Result<bool, Stop>
    ensures ok { IfOk result (λ refused. Gains (SolvesJson (S.holds source.now) asked.now.bound asked.now.files.from
        (map (λ s. s.now) asked.now.files.names.now) refused) (O.contents out.old) (O.contents out.new)) }
    ensures err { IfErr result (λ stop. StopsSolvingJson (S.holds source.now) (S.refuses source.now) asked.now.bound asked.now.files.from
        (map (λ s. s.now) asked.now.files.names.now) stop (O.contents out.old) (O.contents out.new)) }
{
    let rays = Rays::new();
    let mut memo = new_memo(alloc, asked.memo.get() as usize)?;
    let files = SourceFiles {
        names: asked.files.names,
        from: asked.files.from,
        source,
    };
    if source.follows_lengths() {
        let answers = Answers {
            rays: &rays,
            default: asked.bound,
            solver: Lengthwise {
                solver: OneThread,
                progress: source,
            },
        };
        return solve_json_by(alloc, &answers, &files, &mut memo, out, err);
    }
    let answers = Answers {
        rays: &rays,
        default: asked.bound,
        solver: OneThread,
    };
    solve_json_by(alloc, &answers, &files, &mut memo, out, err)
}

/// The same, by who solves the records, over a memory of its own.
pub fn solve_json_by<V: Solver<Never>, S: Source, O: Write, E: Write>(
    alloc: Global,
    answers: &Answers<V>,
    files: &SourceFiles<S>,
    memory: &mut V::Memory,
    out: &mut O,
    err: &mut E,
) -> Result<bool, Stop>
    requires ready { V.ready answers.now.solver }
    ensures ok { IfOk result (λ refused. Gains (SolvesJson (S.holds files.now.source.now) answers.now.default files.now.from
        (map (λ s. s.now) files.now.names.now) refused) (O.contents out.old) (O.contents out.new)) }
    ensures err { IfErr result (λ stop. StopsSolvingJson (S.holds files.now.source.now) (S.refuses files.now.source.now) answers.now.default
        files.now.from (map (λ s. s.now) files.now.names.now) stop (O.contents out.old) (O.contents out.new)) }
{
    let json = JsonHandler {
        handler: answers,
        form: Form::Answer,
    };
    answer_json(alloc, &json, files, memory, out, err)
}

/// The same, where each record may take so many seconds. How many records were not decided, the memory counts.
pub fn solve_json_limited<T: TimeLimit, V: Solver<T>, S: Source, O: Write, E: Write>(
    alloc: Global,
    limited: &Limited<T, V>,
    files: &SourceFiles<S>,
    memory: &mut LimitedMemory<V::Memory>,
    out: &mut O,
    err: &mut E,
) -> Result<bool, Stop>
    requires ready { V.ready limited.now.solver }
    ensures ok { IfOk result (λ refused. Gains (SolvesLimitedJson (S.holds files.now.source.now) (T.may_stop limited.now.limit.now)
        limited.now.seconds limited.now.default files.now.from (map (λ s. s.now) files.now.names.now) refused
        (memory.new.undecided - memory.old.undecided)) (O.contents out.old) (O.contents out.new)) }
    ensures err { IfErr result (λ stop. StopsLimitedJson (S.holds files.now.source.now) (S.refuses files.now.source.now)
        (T.may_stop limited.now.limit.now) limited.now.seconds limited.now.default files.now.from (map (λ s. s.now) files.now.names.now) stop
        (O.contents out.old) (O.contents out.new)) }
{
    let json = JsonHandler {
        handler: limited,
        form: Form::Answer,
    };
    answer_json(alloc, &json, files, memory, out, err)
}
