//! The replies to records whose trees are asked for, where the search for the mate of each may take so long. A tree whose mate is known is told
//! whole, however long that takes.

ghost use Rattle.std.specs.Prelude.{◌≡◌, ◌++◌, ℕ, [], IfOk, false, true};
ghost use Rattle.chess_notation.specs.Records.{problem_of};
ghost use Rattle.chess_problems.specs.Outcomes.{IsPlayable};
ghost use Rattle.mate_answers.specs.LimitedReplies.{IsNoneSoFar};
ghost use Rattle.mate_search.specs.inside.Truth.{truth};
ghost use Rattle.mate_tree.specs.LimitedTrees.{undecided_tree as undecided_tree_of};
ghost use Rattle.mate_tree.specs.TreeReplies.{tree_reply};

use crate::forms::Form;
use crate::tree_replies::{Shown, refused_text, write_solved};
use byte_streams::NoMemory;
use chess_notation::{EpdFault, Record, read_record, undecided_text};
use chess_problems::Outcome;
use mate_answers::{Limited, LimitedMemory, TimeLimit, decide};
use mate_search::{Guide, Memo, OneThread};
use std::alloc::Global;
use text_lines::{LineHandler, Output};

/// What tells the trees of records, whose mates are searched for in so many seconds each, and what is shown of each tree.
#[derive(Clone, Copy)]
pub struct LimitedTrees<'a, 'r, T> {
    pub limited: &'a Limited<'r, T, OneThread>,
    pub form: Form,
}

/// The reply to a line that says a record, and whether it has the tree.
#[derive(Drop)]
struct Told {
    text: Vec<u8>,
    is_decided: bool,
}

/// The reply to a record whose outcome is known, as a text.
fn solved_text(
    shown: Shown<'_>,
    record: &Record,
    outcome: &Outcome,
    memo: &mut Memo,
) -> Result<Vec<u8>, NoMemory>
    requires truth { outcome.now ≡ truth (problem_of «record».now) }
    requires playable { IsPlayable «record».now.position outcome.now }
    ensures text { IfOk result (λ text. text.items ≡ tree_reply shown.entry.form «record».now) }
    ensures room { memo.new.room ≡ memo.old.room }
{
    let mut text = Vec::new(shown.alloc);
    match write_solved(shown, record, outcome, memo, &mut text) {
        Ok(()) => Ok(text),
        // A list refuses to be written for want of memory alone.
        Err(_) => Err(NoMemory),
    }
}

/// The reply to a record of this line that is not decided.
fn undecided_tree(
    alloc: Global,
    line: &[u8],
    record: &Record,
    none: u8,
    seconds: u32,
) -> Result<Vec<u8>, NoMemory>
    ensures { IfOk result (λ text. text.items ≡ undecided_tree_of none seconds line.now «record».now) }
{
    let mut text = undecided_text(alloc, line, record, none, seconds)?;
    text.push('\n')?;
    text.push('\n')?;
    Ok(text.into_bytes())
}

impl<T: TimeLimit> LimitedTrees<'_, '_, T> {
    /// The reply to this line, which says this record.
    fn tell(
        &self,
        alloc: Global,
        line: &[u8],
        record: &Record,
        memo: &mut Memo,
    ) -> Result<Told, NoMemory>
        ensures decided { IfOk result (λ told. told.is_decided ≡ true → told.text.items ≡ tree_reply self.now.form «record».now) }
        ensures undecided { IfOk result (λ told. told.is_decided ≡ false → (none : ℕ) × IsNoneSoFar «record».now none
            × (told.text.items ≡ undecided_tree_of none self.now.limited.now.seconds line.now «record».now)) }
        ensures stopped { IfOk result (λ told. told.is_decided ≡ false → T.may_stop self.now.limited.now.limit.now) }
        ensures room { memo.new.room ≡ memo.old.room }
    {
        let limited = self.limited;
        limited.limit.begin();
        let rays = limited.rays;
        let guide = Guide {
            rays,
            halt: limited.limit,
        };
        match decide(&guide, &limited.solver, record, memo) {
            Ok(outcome) => {
                let shown = Shown {
                    alloc,
                    rays,
                    form: self.form,
                };
                let text = solved_text(shown, record, &outcome, memo)?;
                Ok(Told {
                    text,
                    is_decided: true,
                })
            }
            Err(none) => {
                let text = undecided_tree(alloc, line, record, none, limited.seconds)?;
                Ok(Told {
                    text,
                    is_decided: false,
                })
            }
        }
    }
}

impl<T: TimeLimit> LineHandler for LimitedTrees<'_, '_, T> {
    ghost use Rattle.mate_tree.specs.LimitedTrees.{IsLateTree, IsLimitedTree, in_time, told};
    ghost use Rattle.mate_tree.specs.TreeReplies.{skipped};
    ghost use Rattle.std.specs.Prelude.{[]};

    type Memory = LimitedMemory<Memo>;

    ghost replies = { λ trees. IsLimitedTree (T.may_stop trees.limited.now.limit.now) trees.limited.now.seconds trees.form
        trees.limited.now.default };

    ghost marks = { λ trees. IsLateTree (T.may_stop trees.limited.now.limit.now) trees.limited.now.seconds trees.form
        trees.limited.now.default };

    ghost tally = { λ memory. memory.undecided };

    ghost room = { λ memory. memory.memory.room };

    /// The answer and tree of a line's record, or its fault, and an empty line. A record that is not decided is counted.
    fn answer(
        &self,
        alloc: Global,
        number: usize,
        line: &[u8],
        memory: &mut LimitedMemory<Memo>,
    ) -> Result<Output, NoMemory> {
        let limited = self.limited;
        match read_record(alloc, limited.rays, line, limited.default) {
            Ok(record) => {
                let told = self.tell(alloc, line, &record, &mut memory.memory)?;
                let output = Output {
                    text: told.text,
                    refused: 0,
                };
                if told.is_decided {
                    return Ok(output);
                }
                let Some(more) = memory.undecided.checked_add(1) else {
                    return Err(NoMemory);
                };
                memory.undecided = more;
                Ok(output)
            }
            Err(fault) => refused_text(alloc, number, fault),
        }
    }

    fn refuse_long(&self, alloc: Global, number: usize) -> Result<Output, NoMemory> {
        refused_text(alloc, number, EpdFault::TooLong)
    }

    ghost skips = { λ trees number line blank. told [] 0 (skipped blank) };

    ghost unmarked = { λ trees number line blank. in_time [] 0 (skipped blank) };

    ghost passes = { λ _ _ _ _ _ _. tt };

    ghost skips_behind = { λ _ _ _ _ _. tt };
}
