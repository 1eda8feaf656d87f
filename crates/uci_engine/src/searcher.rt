//! What the thread that searches does.

ghost use Rattle.std.specs.Prelude.{◌≡◌, ◌++◌, Ok, Option, IfOk};
ghost use Rattle.chess_board.specs.Moves.{Move as MoveValue};
ghost use Rattle.chess_problems.specs.Problems.{ProblemValue};
ghost use Rattle.uci_engine.specs.SearchLines.{AreKeyLines, EndsWith, IsLengthLine, IsMateLine, IsSaid, first_of as first_of_keys, none_end};

use crate::events::{Event, send};
use crate::signals::Signals;
use crate::texts::{
    Progress, push_best, push_length, push_mate, push_none, push_refusal, terminal_line,
};
use crate::watches::Watch;
use chess_board::Move;
use chess_moves::{MoveList, Rays, legal, verdict};
use chess_problems::{Bound, Outcome, Problem, is_same_move};
use crossbeam_channel::{Receiver, Sender};
use mate_search::{Memo, Stopped, solve_until};
use std::alloc::{AllocError, Global};
use std::sync::Wait;
use uci_commands::{PositionFault, only_these, within};

/// A search to be made.
#[derive(Drop)]
pub(crate) struct Job {
    /// Its number, by which it is told to stop.
    pub(crate) number: u64,
    /// The position, the moves that it is kept from, and the greatest length of a mate that is looked for; or why there is no position.
    pub(crate) problem: Result<Problem, PositionFault>,
    /// How many keys have lines of their own.
    pub(crate) multi_pv: u64,
    /// How many positions may be searched.
    pub(crate) most_nodes: u64,
    /// How many entries the memo has.
    pub(crate) entries: usize,
    /// Whether nothing is to be remembered of searches before.
    pub(crate) is_fresh: bool,
}

/// What is kept from search to search.
#[derive(Drop)]
struct Memory {
    entries: usize,
    memo: Memo,
}

/// What a search needs beside its job.
#[derive(Clone, Copy)]
pub(crate) struct Searcher<'a> {
    pub(crate) alloc: Global,
    pub(crate) rays: &'a Rays,
    pub(crate) signals: &'a Signals,
    pub(crate) events: &'a Sender<Event, Global>,
}

/// A key, and which of the keys of its problem it is, from 1.
#[derive(Clone, Copy)]
struct RankedKey {
    key: Move,
    rank: u64,
}

/// The first legal move that is not to be avoided.
fn first_move(rays: &Rays, problem: &Problem) -> Option<Move> {
    for m in legal(rays, &problem.position).as_slice() {
        let is_avoided = problem
            .avoid
            .as_slice()
            .iter()
            .any(|n| is_same_move(*m, *n));
        if !is_avoided {
            return Some(*m);
        }
    }
    None
}

/// The first of some keys.
fn first_of(keys: &MoveList) -> Option<Move>
    ensures { result ≡ first_of_keys keys.now.items }
{
    match keys.as_slice() {
        [first, ..] => Some(*first),
        [] => None,
    }
}

impl Searcher<'_> {
    /// How far a search has come.
    fn progress(&self, moves: u64) -> Progress
        ensures { result.moves ≡ moves }
    {
        Progress {
            moves,
            costs: self.signals.costs(),
        }
    }

    /// Adds the last lines where no mate was found in so many moves.
    fn push_last(&self, text: &mut Vec<u8>, problem: &Problem, moves: u64) -> Result<(), AllocError>
        ensures { IfOk result (λ _. (best : Option MoveValue) × (text.new.items ≡ text.old.items ++ none_end moves best)) }
    {
        let Some(best) = first_move(self.rays, problem) else {
            push_best(text, None)?;
            return Ok(());
        };
        push_none(text, moves)?;
        push_best(text, Some(best))?;
        Ok(())
    }

    /// Adds the line of one more key, unless it is to stop.
    fn push_key(
        &self,
        text: &mut Vec<u8>,
        problem: &Problem,
        ranked: RankedKey,
        memo: &mut Memo,
        watch: &Watch,
    ) -> Result<(), AllocError>
        ensures { IfOk result (λ _. AreKeyLines problem.now text.old.items → AreKeyLines problem.now text.new.items) }
    {
        let keys = [ranked.key];
        let Some(alone) = only_these(self.rays, &problem.position, problem.bound, &keys) else {
            return Ok(());
        };
        let Ok(Outcome::Mate { pv, .. }) = solve_until(self.rays, &alone, memo, watch) else {
            return Ok(());
        };
        let progress = self.progress(u64::from(problem.bound.get()));
        push_mate(text, &progress, ranked.rank, pv.as_slice())?;
        Ok(())
    }

    /// The line of the first key.
    fn first_line(&self, problem: &Problem, pv: &[Move]) -> Result<Vec<u8>, AllocError>
        ensures { IfOk result (λ text. IsMateLine problem.now.bound 1 pv.now text.items) }
    {
        let mut text = Vec::new(self.alloc);
        let progress = self.progress(u64::from(problem.bound.get()));
        push_mate(&mut text, &progress, 1, pv)?;
        Ok(text)
    }

    /// The lines of as many more keys as are asked for.
    fn more_lines(
        &self,
        problem: &Problem,
        keys: &MoveList,
        job: &Job,
        memo: &mut Memo,
        watch: &Watch,
    ) -> Result<Vec<u8>, AllocError>
        ensures { IfOk result (λ text. AreKeyLines problem.now text.items) }
    {
        let mut text = Vec::new(self.alloc);
        let mut rank = 1u64;
        for key in keys.as_slice() {
            if 1 < rank && rank <= job.multi_pv {
                let ranked = RankedKey { key: *key, rank };
                self.push_key(&mut text, problem, ranked, memo, watch)?;
            }
            rank = rank.saturating_add(1);
        }
        Ok(text)
    }

    /// Sends lines that are to be written at once, while anyone takes them.
    fn say<R: Wait>(&self, rt: &R, text: Vec<u8>) {
        let _ = send(rt, self.events, Event::Said(text));
    }

    /// The same, of lines of a search for such a problem.
    fn say_of<R: Wait>(&self, rt: &R, _asked: &Problem, text: Vec<u8>)
        requires { IsSaid _asked.now text.items }
    {
        self.say(rt, text);
    }

    /// The line of a length in which there is no mate.
    fn length_line(&self, moves: u8) -> Result<Vec<u8>, AllocError>
        ensures { IfOk result (λ text. IsLengthLine moves text.items) }
    {
        let mut text = Vec::new(self.alloc);
        push_length(&mut text, &self.progress(u64::from(moves)))?;
        Ok(text)
    }

    /// Sends the score of a position that ends the game.
    fn say_terminal<R: Wait>(&self, rt: &R, asked: &Problem) -> Result<(), AllocError> {
        if let Some(line) = terminal_line(self.alloc, verdict(self.rays, &asked.position))? {
            self.say_of(rt, asked, line);
        }
        Ok(())
    }

    /// Searches for a mate in one move, two and so on, sends a line for each, and adds the last lines to a text.
    fn search<R: Wait>(
        &self,
        rt: &R,
        asked: &Problem,
        job: &Job,
        memo: &mut Memo,
        last: &mut Vec<u8>,
    ) -> Result<(), AllocError>
        ensures { IfOk result (λ _. EndsWith asked.now last.old.items last.new.items) }
    {
        let watch = Watch::new(self.signals, job.number, job.most_nodes);
        let most = asked.bound.get();
        if first_move(self.rays, asked).is_none() {
            self.say_terminal(rt, asked)?;
            self.push_last(last, asked, 0)?;
            return Ok(());
        }
        for before in 0..most {
            let Some(bound) = Bound::new(before + 1) else {
                unreachable!();
            };
            let problem = within(asked, bound);
            match solve_until(self.rays, &problem, memo, &watch) {
                Ok(Outcome::Mate { keys, pv, .. }) => {
                    let first = self.first_line(&problem, pv.as_slice())?;
                    self.say_of(rt, asked, first);
                    let more = self.more_lines(&problem, &keys, job, memo, &watch)?;
                    self.say_of(rt, asked, more);
                    push_best(last, first_of(&keys))?;
                    return Ok(());
                }
                Ok(Outcome::NoMate) => {
                    let length = self.length_line(before + 1)?;
                    self.say_of(rt, asked, length);
                }
                Err(Stopped) => {
                    self.push_last(last, asked, u64::from(before))?;
                    return Ok(());
                }
            }
        }
        self.push_last(last, asked, u64::from(most))?;
        Ok(())
    }

    /// Searches, or tells why there is no position; adds the last lines to a text.
    fn answer<R: Wait>(
        &self,
        rt: &R,
        job: &Job,
        memo: &mut Memo,
        last: &mut Vec<u8>,
    ) -> Result<(), AllocError>
        ensures { IfOk result (λ _. (problem : ProblemValue) → job.now.problem ≡ Ok problem → EndsWith problem last.old.items last.new.items) }
    {
        match &job.problem {
            Ok(problem) => {
                self.search(rt, problem, job, memo, last)?;
                Ok(())
            }
            Err(fault) => {
                let mut why = Vec::new(self.alloc);
                push_refusal(&mut why, *fault)?;
                self.say(rt, why);
                push_best(last, None)?;
                Ok(())
            }
        }
    }

    /// What was kept of searches before, or nothing where that is to be forgotten or of another size; none where memory is refused.
    fn memory_for(&self, kept: Option<Memory>, job: &Job) -> Option<Memory> {
        if let Some(memory) = kept {
            if memory.entries == job.entries && !job.is_fresh {
                return Some(memory);
            }
        }
        match Memo::new(self.alloc, job.entries) {
            Ok(memo) => Some(Memory {
                entries: job.entries,
                memo,
            }),
            Err(_) => None,
        }
    }

    /// Makes one search with what is kept, if it is; gives what came of it.
    fn make<R: Wait>(&self, rt: &R, job: &Job, kept: &mut Option<Memory>) -> Event {
        let Some(memory) = kept else {
            return Event::Refused;
        };
        let mut last = Vec::new(self.alloc);
        match self.answer(rt, job, &mut memory.memo, &mut last) {
            Ok(()) => Event::Found(last),
            Err(_) => Event::Refused,
        }
    }

    /// Makes each search that is sent, until no more can be.
    pub(crate) fn run<R: Wait>(&self, rt: &R, jobs: Receiver<Job, Global>) {
        let mut kept = None;
        for _ in rt.forever() {
            let Ok(job) = jobs.recv(rt) else {
                break;
            };
            kept = self.memory_for(kept, &job);
            let event = self.make(rt, &job, &mut kept);
            if !send(rt, self.events, event) || kept.is_none() {
                break;
            }
        }
    }
}
