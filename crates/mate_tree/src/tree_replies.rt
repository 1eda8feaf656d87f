//! The replies to an input of records whose trees are asked for.

ghost use Rattle.std.specs.Prelude.{◌≡◌, ◌≢◌, ◌++◌, [], IfErr, IfOk, OnOk};
ghost use Rattle.std.specs.Io.KnownBytes.{Appends};
ghost use Rattle.text_lines.specs.Refusals.{fault_line};
ghost use Rattle.text_lines.specs.Writers.{BreaksOff};
ghost use Rattle.chess_problems.specs.Outcomes.{IsPlayable};
ghost use Rattle.chess_notation.specs.Answers.{answer_text};
ghost use Rattle.chess_notation.specs.Records.{problem_of};
ghost use Rattle.mate_search.specs.inside.Truth.{truth};
ghost use Rattle.mate_tree.specs.Lines.{line};
ghost use Rattle.mate_tree.specs.TreeReplies.{IsTreeReply, tree_reply};
ghost use Rattle.mate_tree.specs.inside.Replies.{IsJust, IsRefusal};

use crate::forms::Form;
use crate::sheets::Sheet;
use crate::trees::write_tree;
use crate::writers::TreeWriter;
use byte_streams::{NoMemory, Stop, put};
use chess_moves::Rays;
use chess_notation::{EpdFault, Record, answer_text, read_record};
use chess_problems::{Bound, Outcome};
use mate_search::{Memo, solve};
use std::alloc::Global;
use std::io::Write;
use text_lines::{LineWriter, Output, refusal};

/// What tells the trees of records: the bound of a record that asks for none, and what is shown of each tree.
#[derive(Clone, Copy)]
pub struct TreeReplies<'a> {
    pub rays: &'a Rays,
    pub default: Bound,
    pub form: Form,
}

/// What the replies to records are made by: where memory is taken, the table to find moves by, and what is shown of each tree.
#[derive(Clone, Copy)]
pub(crate) struct Shown<'a> {
    pub alloc: Global,
    pub rays: &'a Rays,
    pub form: Form,
}

/// The line of a record's answer.
fn answer_line(
    alloc: Global,
    rays: &Rays,
    record: &Record,
    outcome: &Outcome,
) -> Result<Vec<u8>, NoMemory>
    requires { IsPlayable «record».now.position outcome.now }
    ensures { IfOk result (λ made. made.items ≡ line (answer_text «record».now outcome.now)) }
{
    let mut answer = answer_text(alloc, rays, record, outcome)?;
    answer.push('\n')?;
    Ok(answer.into_bytes())
}

/// Writes the reply to a record whose outcome is known: its answer, its tree, and an empty line. Memory is taken before the first byte alone.
pub(crate) fn write_solved<O: Write>(
    shown: Shown<'_>,
    record: &Record,
    outcome: &Outcome,
    memo: &mut Memo,
    out: &mut O,
) -> Result<(), Stop>
    requires truth { outcome.now ≡ truth (problem_of «record».now) }
    requires playable { IsPlayable «record».now.position outcome.now }
    ensures ok { OnOk result (Appends (O.contents out.old) (O.contents out.new) (tree_reply shown.entry.form «record».now)) }
    ensures err { IfErr result (BreaksOff (IsJust (tree_reply shown.entry.form «record».now) 0) (O.contents out.old) (O.contents out.new)) }
    ensures room { memo.new.room ≡ memo.old.room }
{
    match answer_line(shown.alloc, shown.rays, record, outcome) {
        Ok(answer) => {
            let mut writer = TreeWriter {
                rays: shown.rays,
                memo,
                sheet: Sheet::new(shown.form),
                out,
            };
            writer.add(answer.as_slice());
            write_tree(&mut writer, &shown.form, record, outcome);
            let closing = writer.sheet.closing();
            writer.finish(closing)
        }
        Err(_) => Err(Stop::NoMemory),
    }
}

/// Writes the reply to a record, which is solved first.
fn write_record<O: Write>(
    shown: Shown<'_>,
    record: &Record,
    memo: &mut Memo,
    out: &mut O,
) -> Result<(), Stop>
    ensures ok { OnOk result (Appends (O.contents out.old) (O.contents out.new) (tree_reply shown.entry.form «record».now)) }
    ensures err { IfErr result (BreaksOff (IsJust (tree_reply shown.entry.form «record».now) 0) (O.contents out.old) (O.contents out.new)) }
    ensures room { memo.new.room ≡ memo.old.room }
{
    let outcome = solve(shown.rays, &record.problem(), memo);
    write_solved(shown, record, &outcome, memo, out)
}

/// The reply to a line that is refused, and an empty line.
pub(crate) fn refused_text(
    alloc: Global,
    number: usize,
    fault: EpdFault,
) -> Result<Output, NoMemory>
    ensures fault { IfOk result (λ output. fault ≢ EpdFault.NoMemory) }
    ensures text { IfOk result (λ output. output.text.items ≡ fault_line number fault ++ line []) }
    ensures one { IfOk result (λ output. output.refused ≡ 1) }
{
    let mut output = refusal(alloc, number, fault)?;
    output.text.extend_from_slice(b"\n")?;
    Ok(output)
}

/// Writes the reply to a line that is refused, and an empty line.
fn write_refused<O: Write>(
    alloc: Global,
    number: usize,
    fault: EpdFault,
    out: &mut O,
) -> Result<usize, Stop>
    ensures ok { IfOk result (λ refused. (fault ≢ EpdFault.NoMemory) × (refused ≡ 1)
        × Appends (O.contents out.old) (O.contents out.new) (fault_line number fault ++ line [])) }
    ensures err { IfErr result (BreaksOff (IsRefusal number fault) (O.contents out.old) (O.contents out.new)) }
{
    match refused_text(alloc, number, fault) {
        Ok(output) => match put(out, output.text.as_slice()) {
            Ok(()) => Ok(output.refused),
            Err(stop) => Err(stop),
        },
        Err(_) => Err(Stop::NoMemory),
    }
}

impl LineWriter for TreeReplies<'_> {
    ghost use Rattle.mate_tree.specs.TreeReplies.{IsTreeReply, skipped};

    type Memory = Memo;

    ghost replies = { λ trees. IsTreeReply trees.form trees.default };

    ghost room = { λ memo. memo.room };

    /// Writes the reply to a line: the answer and the tree of its record, as they are found, or its fault, and an empty line.
    fn write_reply<O: Write>(
        &self,
        alloc: Global,
        number: usize,
        line: &[u8],
        memory: &mut Memo,
        out: &mut O,
    ) -> Result<usize, Stop> {
        let shown = Shown {
            alloc,
            rays: self.rays,
            form: self.form,
        };
        match read_record(alloc, self.rays, line, self.default) {
            Ok(record) => match write_record(shown, &record, memory, out) {
                Ok(()) => Ok(0),
                Err(stop) => Err(stop),
            },
            Err(fault) => write_refused(alloc, number, fault, out),
        }
    }

    fn refuse_long<O: Write>(
        &self,
        alloc: Global,
        number: usize,
        out: &mut O,
    ) -> Result<usize, Stop> {
        write_refused(alloc, number, EpdFault::TooLong, out)
    }

    ghost skips = { λ trees number line blank. skipped blank };

    ghost unmarked = { λ _ _ _ _. tt };

    ghost passes = { λ _ _ _ _ _ _. tt };

    ghost skips_behind = { λ _ _ _ _ _. tt };
}
