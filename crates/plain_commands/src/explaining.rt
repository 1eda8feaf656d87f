//! The command `explain`.

ghost use Rattle.std.specs.Prelude.{◌≡◌, [], map, IfErr, IfOk, option_map, unwrap_or, Bool, false, true};
ghost use Rattle.fault_explanations.specs.Explained.{Explains};
ghost use Rattle.fen_explanations.specs.Asked.{TellsWords};
ghost use Rattle.file_answers.specs.Writing.{Gains, StopsShowing};
ghost use Rattle.plain_commands.specs.Explained.{ExplainsSome, ExplainsWords};

use byte_streams::Stop;
use fault_explanations::explained_text;
use fen_explanations::{say_position, tell_words};
use file_answers::{complain, show};
use std::alloc::Global;
use std::io::Write;

/// Shows what faults mean, by the words of replies that name them, or lists all where none are given; gives whether no word names one,
/// which `err` is told.
fn explain_codes<O: Write, E: Write>(
    alloc: Global,
    replies: &[&str],
    out: &mut O,
    err: &mut E,
) -> Result<bool, Stop>
    ensures ok { IfOk result (λ refused. Gains (Explains (map (λ s. s.now) replies.now) refused) (O.contents out.old) (O.contents out.new)) }
    ensures err { IfErr result (λ stop.
        StopsShowing (Explains (map (λ s. s.now) replies.now) false) stop (O.contents out.old) (O.contents out.new)) }
{
    let Some(text) = explained_text(alloc, replies)? else {
        complain(err, "NoSuchFault");
        return Ok(true);
    };
    show(out, text.as_slice())
}

/// Shows what is wrong with the FEN or the record that words are, or that nothing is; gives whether something is.
fn explain_position<O: Write>(alloc: Global, words: &[&str], out: &mut O) -> Result<bool, Stop>
    ensures ok { IfOk result (λ faulty. Gains (TellsWords (map (λ s. s.now) words.now) faulty) (O.contents out.old) (O.contents out.new)) }
    ensures err { IfErr result (λ stop. StopsShowing (λ text. (faulty : Bool) × TellsWords (map (λ s. s.now) words.now) faulty text) stop
        (O.contents out.old) (O.contents out.new)) }
{
    let told = tell_words(alloc, words)?;
    show(out, told.text.as_slice())?;
    Ok(told.is_faulty)
}

/// Shows what is wrong with a FEN or a record, where words say one; else what faults mean, by the words of replies that name them, or lists all
/// where none are given. Gives whether something is wrong, or no word names a fault, which `err` is told.
#[tactic(auto, unfolding(crate::specs::Explained::ExplainsWords, crate::specs::Explained::ExplainsSome))]
pub(crate) fn explain<O: Write, E: Write>(
    alloc: Global,
    words: &[&str],
    out: &mut O,
    err: &mut E,
) -> Result<bool, Stop>
    ensures ok { IfOk result (λ refused. Gains (ExplainsWords (map (λ s. s.now) words.now) refused) (O.contents out.old) (O.contents out.new)) }
    ensures err { IfErr result (λ stop.
        StopsShowing (ExplainsSome (map (λ s. s.now) words.now)) stop (O.contents out.old) (O.contents out.new)) }
{
    if say_position(words) {
        return explain_position(alloc, words, out);
    }
    explain_codes(alloc, words, out, err)
}

/// The same of the words that are given, where any are.
pub(crate) fn explain_given<O: Write, E: Write>(
    alloc: Global,
    words: Option<&[&str]>,
    out: &mut O,
    err: &mut E,
) -> Result<bool, Stop>
    ensures ok { IfOk result (λ refused. Gains (ExplainsWords (unwrap_or
        (option_map (λ names. map (λ s. s.now) names.now) words.entry) []) refused) (O.contents out.old) (O.contents out.new)) }
    ensures err { IfErr result (λ stop. StopsShowing (ExplainsSome (unwrap_or (option_map
        (λ names. map (λ s. s.now) names.now) words.entry) [])) stop (O.contents out.old) (O.contents out.new)) }
{
    match words {
        Some(words) => explain(alloc, words, out, err),
        None => explain(alloc, &[], out, err),
    }
}
