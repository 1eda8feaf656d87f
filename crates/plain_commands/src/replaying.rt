//! The command `replay`.

ghost use Rattle.std.specs.Prelude.{◌≡◌, ℕ, [], IfErr, IfOk, IfSome, IfNone, false, true, map};
ghost use Rattle.file_answers.specs.Writing.{Gains};
ghost use Rattle.plain_commands.specs.Replayed.{HasNoDesk, Replays, ReplaysFile, Runs, StopsReplaying, reply_lines as lines_of_replies};
ghost use Rattle.desk_scripts.specs.Scripts.{IsFirstFault, IsScript, script_value};

use byte_streams::Stop;
use chess_moves::Rays;
use chess_notation::NoMemory;
use chess_views::push_line;
use desk_scripts::{Script, ScriptFault, read_script};
use file_answers::{Source, complain, complain_faulty, read_file, show};
use file_solving::new_memo;
use mate_desk::{Reply, RunFault, reply_text, run};
use std::alloc::Global;
use std::io::Write;

/// How many entries the memo of a script has.
const MEMO_ENTRIES: usize = 65_536;

/// The script that a text is; none where a line is at fault, whose number is said on `err`.
fn script_in<E: Write>(alloc: Global, text: &[u8], err: &mut E) -> Result<Option<Script>, Stop>
    ensures script { IfOk result (λ found. IfSome found (λ script. IsScript text.now (script_value script))) }
    ensures fault { IfOk result (λ found. IfNone found ((number : ℕ) × IsFirstFault text.now number)) }
    ensures err { IfErr result (λ stop. stop ≡ Stop.NoMemory) }
{
    match read_script(alloc, text) {
        Ok(script) => Ok(Some(script)),
        Err(ScriptFault::NoMemory) => Err(Stop::NoMemory),
        Err(ScriptFault::Line(number)) => {
            complain_faulty(err, number);
            Ok(None)
        }
    }
}

/// The replies, each on a line of its own.
#[tactic(auto, unfolding(crate::specs::Replayed::reply_lines))]
fn reply_lines(alloc: Global, rays: &Rays, replies: &[Reply]) -> Result<Vec<u8>, NoMemory>
    ensures { IfOk result (λ text. text.items ≡ lines_of_replies replies.now) }
{
    let mut text = Vec::new(alloc);
    for reply in replies {
        let words = reply_text(alloc, rays, reply)?;
        push_line(&mut text, words.as_str())?;
    }
    Ok(text)
}

/// What the steps of a script are answered at a new desk; none where there is no such desk, which `err` is told.
fn run_text<E: Write>(alloc: Global, script: &Script, err: &mut E) -> Result<Option<Vec<u8>>, Stop>
    ensures text { IfOk result (λ answered. IfSome answered (λ text. Runs (script_value script.now) text.items)) }
    ensures no_desk { IfOk result (λ answered. IfNone answered (HasNoDesk (script_value script.now))) }
    ensures err { IfErr result (λ stop. stop ≡ Stop.NoMemory) }
{
    let rays = Rays::new();
    let mut memo = new_memo(alloc, MEMO_ENTRIES)?;
    let steps = script.steps.as_slice();
    match run(
        alloc,
        &rays,
        script.submitters,
        script.room,
        script.bound,
        steps,
        &mut memo,
    ) {
        Ok(replies) => Ok(Some(reply_lines(alloc, &rays, replies.as_slice())?)),
        Err(RunFault::NoMemory) => Err(Stop::NoMemory),
        Err(fault) => {
            complain(err, fault.code());
            Ok(None)
        }
    }
}

/// What a text is answered as a script; none where it is refused, which `err` is told.
fn replay_text<E: Write>(alloc: Global, text: &[u8], err: &mut E) -> Result<Option<Vec<u8>>, Stop>
    ensures answered { IfOk result (λ answered. IfSome answered (λ shown. Replays text.now false shown.items)) }
    ensures refused { IfOk result (λ answered. IfNone answered (Replays text.now true [])) }
    ensures err { IfErr result (λ stop. stop ≡ Stop.NoMemory) }
{
    let Some(script) = script_in(alloc, text, err)? else {
        return Ok(None);
    };
    run_text(alloc, &script, err)
}

/// Runs the script of a file at a new desk, and shows the reply to each step; gives whether the script is refused. The replies
/// are made whole before any of them is written.
pub(crate) fn replay<S: Source, O: Write, E: Write>(
    alloc: Global,
    name: &str,
    source: &S,
    out: &mut O,
    err: &mut E,
) -> Result<bool, Stop>
    ensures ok { IfOk result (λ refused. Gains (ReplaysFile (S.holds source.now name.now) refused) (O.contents out.old) (O.contents out.new)) }
    ensures err { IfErr result (λ stop. StopsReplaying (S.holds source.now name.now) (S.refuses source.now name.now) stop
        (O.contents out.old) (O.contents out.new)) }
{
    let script = read_file(alloc, name, source, err)?;
    let Some(text) = replay_text(alloc, script.as_slice(), err)? else {
        return Ok(true);
    };
    show(out, text.as_slice())
}
