//! A line of a script: a step.

ghost use Rattle.std.specs.Prelude.{◌≡◌, ◌≢◌, Err, None, IfOk, IfErr, OnErr, IsSome, option_map};
ghost use Rattle.desk_scripts.specs.Scripts.{step_value};
ghost use Rattle.desk_scripts.specs.inside.ScriptReading.{numbered, plain_step as plain_step_of, step_by, step_of, submit_of, withdraw_of};

use crate::script_words::{cut_at, is_word, number_cut, number_of};
use mate_desk::Step;
use std::alloc::{AllocError, Global};

/// A step of one word.
#[tactic(auto, unfolding(crate::specs::inside::ScriptReading::plain_step))]
fn plain_step(word: &[u8]) -> Option<Step>
    ensures { option_map step_value result ≡ plain_step_of word.now }
{
    if is_word(word, "take") {
        Some(Step::Take)
    } else if is_word(word, "drained") {
        Some(Step::Drained)
    } else if is_word(word, "close") {
        Some(Step::Close)
    } else {
        None
    }
}

/// A step that hands in a record, of which it keeps a copy.
fn submit_step(alloc: Global, text: &[u8]) -> Result<Option<Step>, AllocError>
    ensures ok { IfOk result (λ step. option_map step_value step ≡ submit_of text.now) }
    ensures err { OnErr result (IsSome (submit_of text.now)) }
{
    let Some((submitter, line)) = number_cut(text) else {
        return Ok(None);
    };
    Ok(Some(Step::Submit(submitter as usize, Vec::from_slice(alloc, line)?)))
}

/// A step that withdraws a record.
fn withdraw_step(text: &[u8]) -> Option<Step>
    ensures { option_map step_value result ≡ withdraw_of text.now }
{
    let (submitter, rest) = number_cut(text)?;
    let number = number_of(rest)?;
    Some(Step::Withdraw(submitter as usize, u64::from(number)))
}

/// A step that says a number.
fn numbered_step(word: &[u8], text: &[u8]) -> Option<Step>
    ensures { option_map step_value result ≡ numbered word.now text.now }
{
    let number = number_of(text)? as usize;
    if is_word(word, "finish") {
        Some(Step::Finish(number))
    } else if is_word(word, "handback") {
        Some(Step::HandBack(number))
    } else if is_word(word, "collect") {
        Some(Step::Collect(number))
    } else {
        None
    }
}

/// A step by its first word, and by what stands behind the space that follows it.
#[tactic(auto, unfolding(crate::specs::inside::ScriptReading::step_by))]
fn step_with(alloc: Global, word: &[u8], text: &[u8]) -> Result<Option<Step>, AllocError>
    ensures ok { IfOk result (λ step. option_map step_value step ≡ step_by word.now text.now) }
    ensures err { OnErr result (IsSome (step_by word.now text.now)) }
{
    if is_word(word, "submit") {
        submit_step(alloc, text)
    } else if is_word(word, "withdraw") {
        Ok(withdraw_step(text))
    } else {
        Ok(numbered_step(word, text))
    }
}

/// The step that a line says. Memory is wanted for a record alone, once all else of its line is read.
#[tactic(auto, unfolding(crate::specs::inside::ScriptReading::step_of))]
pub fn read_step(alloc: Global, line: &[u8]) -> Result<Option<Step>, AllocError>
    ensures ok { IfOk result (λ step. option_map step_value step ≡ step_of line.now) }
    ensures err { OnErr result (IsSome (step_of line.now)) }
{
    match cut_at(line, b' ') {
        None => Ok(plain_step(line)),
        Some((word, text)) => step_with(alloc, word, text),
    }
}
