//! What an engine answers to each thing that comes.

use crate::commands::{Command, command_in};
use crate::events::Event;
use crate::plans::{bound_near, bound_of, time_of};
use crate::reader::MAX_LINE;
use crate::searcher::Job;
use crate::signals::{FOR_EVER, Signals};
use crate::texts::{push, push_going, push_option, push_range, push_refusal};
use byte_streams::{InputFault, Stop};
use chess_board::{Colour, Fen};
use chess_moves::Rays;
use chess_problems::{AvoidList, Bound, Problem};
use chess_views::look_board_text;
use std::alloc::{AllocError, Global};
use uci_commands::{
    Board, Go, PositionFault, Setting, Spin, only_these, read_go, read_setting, searched_moves,
    words_of,
};

/// How many entries a memo has at most, 10 MB.
const MOST_ENTRIES: usize = 65_536;

/// How many entries a megabyte has, with their index and what else a memo keeps beside them, the allocator's own words too.
const ENTRIES: usize = 5_600;

/// A search that is made once those before it are over.
#[derive(Drop)]
struct Plan {
    job: Job,
    /// How many milliseconds it may last.
    limit: u64,
    /// Whether it is answered only once it was told to stop.
    is_endless: bool,
}

/// The search that is made.
#[derive(Drop)]
struct Going {
    number: u64,
    limit: u64,
    is_endless: bool,
    /// Its last lines, once it is over.
    found: Option<Vec<u8>>,
}

/// What follows from something that came.
#[derive(Drop)]
pub(crate) struct Reply {
    /// What is to be written.
    pub(crate) text: Vec<u8>,
    /// A search to be begun.
    pub(crate) job: Option<Job>,
    /// Whether nothing more is to be answered.
    pub(crate) is_last: bool,
}

/// What an engine remembers of what came.
#[derive(Drop)]
pub(crate) struct Talk<'a> {
    alloc: Global,
    rays: &'a Rays,
    signals: &'a Signals,
    /// The version that it gives for its own.
    version: &'a str,
    board: Board,
    bound: Bound,
    lines: u64,
    entries: usize,
    /// Whether the next search is to remember nothing.
    is_fresh: bool,
    /// The number of the last search.
    number: u64,
    plans: Vec<Plan>,
    going: Option<Going>,
    is_ending: bool,
    fault: Option<InputFault>,
}

impl<'a> Talk<'a> {
    /// Nothing came yet.
    pub(crate) fn new(
        alloc: Global,
        rays: &'a Rays,
        signals: &'a Signals,
        version: &'a str,
        fen: Fen,
        bound: Bound,
    ) -> Talk<'a> {
        Talk {
            alloc,
            rays,
            signals,
            version,
            board: Board {
                taken: fen,
                refused: None,
            },
            bound,
            lines: 1,
            entries: MOST_ENTRIES,
            is_fresh: false,
            number: 0,
            plans: Vec::new(alloc),
            going: None,
            is_ending: false,
            fault: None,
        }
    }

    /// Adds what the engine is, and its options.
    fn introduce(&self, text: &mut Vec<u8>) -> Result<(), AllocError> {
        push(text, "id name matedesk ")?;
        push(text, self.version)?;
        push(text, "\nid author the matedesk authors\n")?;
        push_option(text, Spin::Hash, Spin::Hash.most())?;
        push_option(text, Spin::Bound, Spin::Bound.most())?;
        push_option(text, Spin::MultiPv, 1)?;
        push(text, "option name Ponder type check default false\nuciok\n")
    }

    /// Sets an option to a value of its range.
    fn set(&mut self, spin: Spin, value: u64) {
        match spin {
            Spin::Hash => {
                let megabytes = value.max(1).min(10) as usize;
                self.entries = if megabytes == 10 {
                    MOST_ENTRIES
                } else {
                    ENTRIES * megabytes
                };
            }
            Spin::Bound => self.bound = bound_near(value, self.bound),
            Spin::MultiPv => self.lines = value,
        }
    }

    /// Sets the option that the words name; a value out of its range is told, and leaves it as it was.
    fn set_option(&mut self, words: &[&str], text: &mut Vec<u8>) -> Result<(), AllocError> {
        match read_setting(words) {
            Some(Setting::Value(spin, value)) => {
                self.set(spin, value);
                Ok(())
            }
            Some(Setting::OutOfRange(spin)) => push_range(text, spin),
            None => Ok(()),
        }
    }

    /// Takes up a position, unless it isn't said right, which is told.
    fn take_position(&mut self, words: &[&str], text: &mut Vec<u8>) -> Result<(), AllocError> {
        match self.board.take(self.alloc, self.rays, words) {
            Ok(()) => Ok(()),
            Err(fault) => push_refusal(text, fault),
        }
    }

    /// Takes up no position, since its line is cut: behind that may be moves.
    fn refuse_position(&mut self, text: &mut Vec<u8>) -> Result<(), AllocError> {
        self.board.refuse(PositionFault::TooLong);
        push_refusal(text, PositionFault::TooLong)
    }

    /// Shows the board, in place of a text in which there is nothing.
    fn show_board(&self, text: &mut Vec<u8>) -> Result<(), AllocError> {
        *text = look_board_text(self.alloc, &self.board.taken, Colour::White)?;
        Ok(())
    }

    /// The problem that a search asks.
    fn problem(&self, go: &Go, words: &[&str]) -> Result<Problem, PositionFault> {
        let position = self.board.searched()?.position;
        let bound = bound_of(go, self.bound);
        let moves = searched_moves(self.rays, &position, words);
        if !moves.is_empty() {
            if let Some(problem) = only_these(self.rays, &position, bound, moves.as_slice()) {
                return Ok(problem);
            }
        }
        Ok(Problem {
            position,
            bound,
            avoid: AvoidList::new(),
        })
    }

    /// Plans a search. One that goes on is told to stop.
    fn plan(&mut self, words: &[&str]) -> Result<(), AllocError> {
        self.stop();
        let go = read_go(words);
        let side = self.board.taken.position.side();
        self.number = self.number.saturating_add(1);
        let plan = Plan {
            job: Job {
                number: self.number,
                problem: self.problem(&go, words),
                multi_pv: self.lines,
                most_nodes: go.nodes.unwrap_or(u64::MAX),
                entries: self.entries,
                is_fresh: self.is_fresh,
            },
            limit: time_of(&go, side).unwrap_or(FOR_EVER),
            is_endless: go.infinite || go.ponder,
        };
        self.is_fresh = false;
        match self.plans.push(plan) {
            Ok(()) => Ok(()),
            Err(_) => Err(AllocError),
        }
    }

    /// Tells all searches to stop, also those that haven't begun.
    fn stop(&mut self) {
        self.signals.stop(self.number);
        if let Some(going) = &mut self.going {
            going.is_endless = false;
        }
    }

    /// What was expected was played: from now on the last search is like any other.
    fn ponder_hit(&mut self) {
        if let Some(plan) = self.plans.last_mut() {
            plan.is_endless = false;
        } else if let Some(going) = &mut self.going {
            if going.is_endless {
                going.is_endless = false;
                self.signals.limit_from_now(going.limit);
            }
        }
    }

    /// Does what a line says, and adds what it is answered at once.
    fn obey(&mut self, line_read: &[u8], text: &mut Vec<u8>) -> Result<(), AllocError> {
        let is_cut = line_read.len() > MAX_LINE;
        let (kept, _) = line_read.split_at(line_read.len().min(MAX_LINE));
        let Some(words) = words_of(self.alloc, kept)? else {
            return Ok(());
        };
        let (command, rest) = command_in(words.as_slice());
        match command {
            Command::Uci => self.introduce(text),
            Command::IsReady => push(text, "readyok\n"),
            Command::Position if is_cut => self.refuse_position(text),
            Command::Position => self.take_position(rest, text),
            Command::Board => self.show_board(text),
            Command::SetOption => self.set_option(rest, text),
            Command::NewGame => {
                self.is_fresh = true;
                Ok(())
            }
            Command::Go => self.plan(rest),
            Command::Stop => {
                self.stop();
                Ok(())
            }
            Command::PonderHit => {
                self.ponder_hit();
                Ok(())
            }
            Command::Quit | Command::Unknown => Ok(()),
        }
    }

    /// Adds the last lines of a search that is over and may be answered.
    fn release(&mut self, text: &mut Vec<u8>) -> Result<(), AllocError> {
        let Some(going) = &mut self.going else {
            return Ok(());
        };
        if going.is_endless {
            return Ok(());
        }
        let Some(found) = going.found.take() else {
            return Ok(());
        };
        self.going = None;
        text.extend_from_slice(found.as_slice())
    }

    /// Begins the search that is planned next, where none is made. Where others wait behind it, it was told to stop.
    fn begin(&mut self) -> Option<Job> {
        if self.going.is_some() || self.plans.is_empty() {
            return None;
        }
        let plan = self.plans.remove(0);
        let is_endless = plan.is_endless && !self.signals.is_stopped(plan.job.number);
        let limit = if is_endless { FOR_EVER } else { plan.limit };
        self.signals.start_clock(plan.job.number, limit);
        self.going = Some(Going {
            number: plan.job.number,
            limit: plan.limit,
            is_endless,
            found: None,
        });
        Some(plan.job)
    }

    /// Tells what the search of this number has cost so far, unless it is over.
    fn tell(&self, number: u64, text: &mut Vec<u8>) -> Result<(), AllocError> {
        match &self.going {
            Some(going) if going.number == number && going.found.is_none() => {
                push_going(text, &self.signals.costs())
            }
            _ => Ok(()),
        }
    }

    /// Keeps the last lines of the search that is made.
    fn keep(&mut self, found: Vec<u8>) {
        self.signals.stop_clock();
        if let Some(going) = &mut self.going {
            going.found = Some(found);
        }
    }

    /// Whether the last search goes on until it is told to stop. All before it were told when it was planned.
    fn is_endless(&self) -> bool {
        match (self.plans.last(), &self.going) {
            (Some(plan), _) => plan.is_endless,
            (None, Some(going)) => going.is_endless,
            (None, None) => false,
        }
    }

    /// No line comes any more, as nobody says to stop. So only a search that has an end of its own goes on, up to that; none where the input
    /// broke off.
    fn end_input(&mut self, fault: Option<InputFault>) {
        if fault.is_some() || self.is_endless() {
            self.stop();
        }
        self.is_ending = true;
        self.fault = fault;
    }

    /// Takes what came, and gives what follows.
    pub(crate) fn take(&mut self, event: Event) -> Result<Reply, Stop> {
        let mut text = Vec::new(self.alloc);
        let heard = match event {
            Event::Line(line_read) => self.obey(line_read.as_slice(), &mut text),
            Event::Said(said) => {
                text = said;
                Ok(())
            }
            Event::Tick(number) => self.tell(number, &mut text),
            Event::Refused => Err(AllocError),
            Event::Found(found) => {
                self.keep(found);
                Ok(())
            }
            Event::Quit => {
                self.stop();
                self.is_ending = true;
                Ok(())
            }
            Event::End(fault) => {
                self.end_input(fault);
                Ok(())
            }
        };
        heard?;
        self.release(&mut text)?;
        let job = self.begin();
        let is_last = self.is_ending && self.going.is_none();
        Ok(Reply { text, job, is_last })
    }

    /// Why the input gave no more, where it broke off.
    pub(crate) fn fault(&self) -> Option<InputFault> {
        self.fault
    }
}
