//! The replies to records each of which may take so long: what is true of its problem, or that it was not decided in that time.

ghost use Rattle.std.specs.Prelude.{◌≡◌, ◌≢◌, ◌<◌, ◌≤◌, ◌+◌, IfErr, IfOk, IfSome, false, true};
ghost use Rattle.chess_notation.specs.Records.{problem_of};
ghost use Rattle.chess_problems.specs.Outcomes.{IsPlayable};
ghost use Rattle.chess_problems.specs.declared.outcomes.Outcome.TheVariants.{NoMate};
ghost use Rattle.mate_answers.specs.InputReplies.{answer_line};
ghost use Rattle.mate_answers.specs.LimitedReplies.{IsNoneSoFar, IsUndecidedLine};
ghost use Rattle.mate_search.specs.inside.Truth.{truth};

use chess_moves::Rays;
use chess_notation::{EpdFault, NoMemory, Record, answer_text, read_record, undecided_text};
use chess_problems::{Bound, Outcome};
use mate_search::{Guide, Halt, Solver};
use std::alloc::Global;
use text_lines::{LineHandler, Output, refusal};

/// What tells a search to stop when a record has had its time. Nothing is said of how it counts.
pub trait TimeLimit: Halt {
    /// Begins to count for the next record.
    fn begin(&self);
}

/// What answers lines that say records, by one who solves them, each in so many seconds at most. A record without a bound has the default.
#[derive(Clone, Copy)]
pub struct Limited<'a, T, S> {
    pub rays: &'a Rays,
    pub default: Bound,
    pub seconds: u32,
    pub limit: &'a T,
    pub solver: S,
}

/// What goes from record to record: the memory of who solves them, and how many were not decided.
#[derive(Drop)]
pub struct LimitedMemory<M> {
    pub memory: M,
    pub undecided: usize,
}

/// The bound of one move more.
fn one_more(none: u8) -> Bound
    requires { none < 15 }
    ensures { result ≡ none + 1 }
{
    match Bound::new(none + 1) {
        Some(bound) => bound,
        None => unreachable!(),
    }
}

/// Whether it says that there is no mate.
fn is_no_mate(outcome: &Outcome) -> bool
    ensures yes { result ≡ true → outcome.now ≡ NoMate }
    ensures no { result ≡ false → outcome.now ≢ NoMate }
{
    match outcome {
        Outcome::NoMate => true,
        Outcome::Mate { .. } => false,
    }
}

/// What there is to say of a record's problem; or, where the time is over before that is known, the most moves within which there is known to
/// be no mate. The mate is asked for within one move more at a time: what was found before stands in the memory.
#[tactic(auto, unfolding(chess_problems::specs::Outcomes::IsPlayable))]
pub fn decide<T: TimeLimit, S: Solver<T>>(
    guide: &Guide<T>,
    solver: &S,
    record: &Record,
    memory: &mut S::Memory,
) -> Result<Outcome, u8>
    requires { S.ready solver.now }
    ensures truth { IfOk result (λ outcome. outcome ≡ truth (problem_of «record».now)) }
    ensures playable { IfOk result (λ outcome. IsPlayable «record».now.position outcome) }
    ensures none { IfErr result (λ none. IsNoneSoFar «record».now none) }
    ensures stopped { IfErr result (λ _. T.may_stop guide.now.halt.now) }
    ensures room { S.room memory.new ≡ S.room memory.old }
{
    let mut problem = record.problem();
    for none in 0..record.bound.get() {
        problem.bound = one_more(none);
        match solver.solve(guide, &problem, memory) {
            Ok(outcome) => {
                if !is_no_mate(&outcome) {
                    return Ok(outcome);
                }
            }
            Err(_) => return Err(none),
        }
    }
    Ok(Outcome::NoMate)
}

/// The reply to a line that says a record, with a newline behind it, and whether it says what is true of the record's problem.
#[derive(Drop)]
struct LimitedText {
    text: Vec<u8>,
    is_decided: bool,
}

/// The reply to this line, which says this record.
fn limited_text<T: TimeLimit, S: Solver<T>>(
    alloc: Global,
    limited: &Limited<T, S>,
    line: &[u8],
    record: &Record,
    memory: &mut S::Memory,
) -> Result<LimitedText, NoMemory>
    requires { S.ready limited.now.solver }
    ensures decided { IfOk result (λ said. said.is_decided ≡ true → said.text.items ≡ answer_line «record».now) }
    ensures undecided { IfOk result (λ said. said.is_decided ≡ false
        → IsUndecidedLine limited.now.seconds line.now «record».now said.text.items) }
    ensures stopped { IfOk result (λ said. said.is_decided ≡ false → T.may_stop limited.now.limit.now) }
    ensures room { S.room memory.new ≡ S.room memory.old }
{
    limited.limit.begin();
    let guide = Guide {
        rays: limited.rays,
        halt: limited.limit,
    };
    let (mut text, is_decided) = match decide(&guide, &limited.solver, record, memory) {
        Ok(outcome) => (answer_text(alloc, limited.rays, record, &outcome)?, true),
        Err(none) => (
            undecided_text(alloc, line, record, none, limited.seconds)?,
            false,
        ),
    };
    text.push('\n')?;
    Ok(LimitedText {
        text: text.into_bytes(),
        is_decided,
    })
}

impl<T: TimeLimit, S: Solver<T>> LineHandler for Limited<'_, T, S> {
    ghost use Rattle.mate_answers.specs.InputReplies.{IsLineReply, skipped};
    ghost use Rattle.std.proofs.Common.{inr};
    ghost use Rattle.std.specs.Prelude.{◌⊎◌, []};
    ghost use Rattle.mate_answers.specs.LimitedReplies.{IsLateReply, IsLimitedReply, decided, in_time};

    type Memory = LimitedMemory<S::Memory>;

    ghost ready = { λ limited. S.ready limited.solver };

    ghost replies = { λ limited. IsLimitedReply (T.may_stop limited.limit.now) limited.seconds limited.default };

    ghost marks = { λ limited. IsLateReply (T.may_stop limited.limit.now) limited.seconds limited.default };

    ghost tally = { λ memory. memory.undecided };

    /// Whatever stands before it, a line is answered as without a limit, unless the limit may stop a search at all.
    ghost follows = { λ limited _ number line text refusals. T.may_stop limited.limit.now ⊎ IsLineReply limited.default number line text refusals };

    ghost room = { λ memory. S.room memory.memory };

    /// The answer to a line or its fault, with a newline behind it. A record that is not decided is counted.
    fn answer(
        &self,
        alloc: Global,
        number: usize,
        line: &[u8],
        memory: &mut LimitedMemory<S::Memory>,
    ) -> Result<Output, NoMemory> {
        match read_record(alloc, self.rays, line, self.default) {
            Ok(record) => {
                let said = limited_text(alloc, self, line, &record, &mut memory.memory)?;
                let output = Output {
                    text: said.text,
                    refused: 0,
                };
                if said.is_decided {
                    return Ok(output);
                }
                let Some(more) = memory.undecided.checked_add(1) else {
                    return Err(NoMemory);
                };
                memory.undecided = more;
                Ok(output)
            }
            Err(fault) => refusal(alloc, number, fault),
        }
    }

    fn refuse_long(&self, alloc: Global, number: usize) -> Result<Output, NoMemory> {
        refusal(alloc, number, EpdFault::TooLong)
    }

    ghost skips = { λ limited number line blank. decided [] 0 (skipped blank) };

    ghost unmarked = { λ limited number line blank. in_time [] 0 (skipped blank) };

    ghost passes = { λ _ _ _ _ _ _. tt };

    ghost skips_behind = { λ limited before number line blank. inr (skipped blank) };
}
