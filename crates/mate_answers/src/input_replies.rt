//! The replies to an input of records.

ghost use Rattle.std.specs.Prelude.{◌≡◌, ◌≤◌, ℕ, List, IfErr, IfOk};
ghost use Rattle.std.specs.Io.KnownBytes.{Appends};
ghost use Rattle.byte_streams.specs.Inputs.{MayBe};
ghost use Rattle.byte_streams.specs.Stops.{AppendsBy};
ghost use Rattle.mate_answers.specs.InputReplies.{answer_line as answer_line_of, IsReply, IsReplyToFirst, RepliesGoOn};

use byte_streams::{Input, Stop};
use chess_moves::Rays;
use chess_notation::{EpdFault, NoMemory, Record, answer_text, read_record};
use chess_problems::Bound;
use mate_search::{Guide, Memo, Never, OneThread, Solver};
use std::alloc::Global;
use std::io::Write;
use text_lines::{LineHandler, Output, answer_bytes, refusal};

/// The reply to a line that says this record: its answer, once it is solved.
fn record_text<S: Solver<Never>>(
    alloc: Global,
    answers: &Answers<S>,
    record: &Record,
    memory: &mut S::Memory,
) -> Result<Vec<u8>, NoMemory>
    requires { S.ready answers.now.solver }
    ensures text { IfOk result (λ text. text.items ≡ answer_line_of «record».now) }
    ensures room { S.room memory.new ≡ S.room memory.old }
{
    let guide = Guide {
        rays: answers.rays,
        halt: &Never,
    };
    // An outcome is large, and is looked at where it lies.
    let solved = answers.solver.solve(&guide, &record.problem(), memory);
    let Ok(outcome) = &solved else {
        unreachable!();
    };
    let mut text = answer_text(alloc, answers.rays, record, outcome)?;
    text.push('\n')?;
    Ok(text.into_bytes())
}

/// What answers lines that say records, by one who solves them. A record without a bound has the default.
#[derive(Clone, Copy)]
pub struct Answers<'a, S> {
    pub rays: &'a Rays,
    pub default: Bound,
    pub solver: S,
}

impl<S: Solver<Never>> LineHandler for Answers<'_, S> {
    ghost use Rattle.mate_answers.specs.InputReplies.{IsLineReply, skipped};

    type Memory = S::Memory;

    ghost ready = { λ answers. S.ready answers.solver };

    ghost replies = { λ answers. IsLineReply answers.default };

    ghost room = { λ memory. S.room memory };

    /// The answer to a line or its fault, with a newline behind it.
    fn answer(
        &self,
        alloc: Global,
        number: usize,
        line: &[u8],
        memory: &mut S::Memory,
    ) -> Result<Output, NoMemory> {
        match read_record(alloc, self.rays, line, self.default) {
            Ok(record) => Ok(Output {
                text: record_text(alloc, self, &record, memory)?,
                refused: 0,
            }),
            Err(fault) => refusal(alloc, number, fault),
        }
    }

    fn refuse_long(&self, alloc: Global, number: usize) -> Result<Output, NoMemory> {
        refusal(alloc, number, EpdFault::TooLong)
    }

    ghost skips = { λ answers number line blank. skipped blank };

    ghost unmarked = { λ _ _ _ _. tt };

    ghost passes = { λ _ _ _ _ _ _. tt };

    ghost skips_behind = { λ _ _ _ _ _. tt };
}

/// Answers an input line by line: each line before the next is waited for. Gives how many lines are refused.
///
/// Where it stops before the end, the replies to some of the first lines are written. A line is taken into memory no further
/// than a record is long.
pub fn answer_input<I: Input + Drop, O: Write>(
    alloc: Global,
    rays: &Rays,
    input: I,
    default: Bound,
    memo: &mut Memo,
    out: &mut O,
) -> Result<usize, Stop>
    ensures ok { IfOk result (λ refused. (bytes : List ℕ) × (text : List ℕ) × MayBe (I.left input) bytes × IsReply default bytes text refused
        × Appends (O.contents out.old) (O.contents out.new) text) }
    ensures err { IfErr result (λ stop. (bytes : List ℕ) × (text : List ℕ) × MayBe (I.left input) bytes × IsReplyToFirst default bytes text
        × AppendsBy stop (O.contents out.old) (O.contents out.new) text) }
    ensures unreadable { IfErr result (λ stop. stop ≡ Stop.Unreadable → I.breaks input) }
    ensures room { memo.new.room ≡ memo.old.room }
    ensures within { memo.new.kept ≤ memo.new.room }
{
    let answers = Answers {
        rays,
        default,
        solver: OneThread,
    };
    let refused = text_lines::answer_input(alloc, &answers, input, memo, out);
    // That a memo keeps no more than it has room for is this call's clause.
    memo.len();
    refused
}

/// What an input that is there already is answered, and how many of its lines are refused. Want of memory leaves no part of the
/// text.
pub fn solve_input(
    alloc: Global,
    rays: &Rays,
    input: &[u8],
    default: Bound,
    memo: &mut Memo,
) -> Result<Output, NoMemory>
    ensures reply { IfOk result (λ output. IsReply default input.now output.text.items output.refused) }
    ensures room { memo.new.room ≡ memo.old.room }
    ensures within { memo.new.kept ≤ memo.new.room }
{
    let answers = Answers {
        rays,
        default,
        solver: OneThread,
    };
    let output = answer_bytes(alloc, &answers, input, memo);
    // That a memo keeps no more than it has room for is this call's clause.
    memo.len();
    output
}

/// A law: the reply to one line more goes on the replies to the lines before it.
pub fn replies_go_on()
    ensures { RepliesGoOn }
{
    text_lines::replies_go_on::<Answers<OneThread>>();
}
