//! Workers: threads that answer lines, each with a memo of its own.
//!
//! Lines go out several together, as many as a worker answers in no time; where one takes long it comes back at once with those behind it, which
//! then go out one by one. Nothing is known of who answers what, or when.

use crate::answered_lines::{AnsweredLine, answered};
use crate::line_tasks::LineTask;
use byte_streams::Stop;
use chess_moves::Rays;
use crossbeam_channel::{Receiver, Sender, bounded};
use mate_search::Memo;
use std::alloc::{AllocError, Global};
use std::mem;
use std::sync::Wait;
use std::thread::{JoinHandle, Threads};
use std::time::Clock;

/// For how many lines there are places for answers that came before their turn.
const PLACES: usize = 4096;

/// How many replies may be open at once: fewer than there are places, so that no two lines share one.
pub(crate) const MOST_OPEN: usize = 4000;

/// How many lines go out together at most.
const MOST_TOGETHER: usize = 32;

/// How many blocks of lines may be out for each worker.
const BLOCKS_EACH: usize = 4;

/// After so many microseconds what a worker has answered goes back.
const SOON: u128 = 1000;

/// Why there are no workers.
#[derive(Clone, Copy, Debug, PartialEq, Eq)]
pub enum NoWorkers {
    /// Memory was refused.
    NoMemory,
    /// A thread was refused.
    NoThread,
}

impl From<AllocError> for NoWorkers {
    ghost use Rattle.std.specs.Prelude.{◌≡◌};
    ghost use Rattle.parallel_answers.specs.declared.workers.NoWorkers.TheVariants.{NoMemory};

    ghost from_gives = { λ _ fault. fault ≡ NoMemory };

    fn from(_refused: AllocError) -> NoWorkers {
        NoWorkers::NoMemory
    }
}

/// Answers that came back, each at a place by its line's number.
#[derive(Drop)]
pub(crate) struct Arrived<T: LineTask> {
    places: Vec<Option<AnsweredLine<T>>>,
}

impl<T: LineTask> Arrived<T> {
    /// None yet.
    fn new(alloc: Global) -> Result<Arrived<T>, AllocError> {
        let mut places = Vec::new(alloc);
        for _ in 0..PLACES {
            places.push(None)?;
        }
        Ok(Arrived { places })
    }

    /// Whether the answer to the line of this number has come.
    pub(crate) fn has(&self, number: usize) -> bool {
        match self.places.get(number % PLACES) {
            Some(Some(answered)) => answered.number == number,
            _ => false,
        }
    }

    /// Takes the answer to the line of this number.
    pub(crate) fn take(&mut self, number: usize) -> Option<AnsweredLine<T>> {
        match self.places.get_mut(number % PLACES) {
            Some(place) => place.take(),
            None => None,
        }
    }

    /// Puts an answer at its place.
    fn put(&mut self, answered: AnsweredLine<T>) {
        if let Some(place) = self.places.get_mut(answered.number % PLACES) {
            *place = Some(answered);
        }
    }
}

/// A line that is handed out, its number, and what is asked of it.
#[derive(Drop)]
struct HandedLine<T: LineTask> {
    task: T,
    number: usize,
    line: Vec<u8>,
}

/// What comes back.
#[derive(Drop)]
enum Back<T: LineTask> {
    /// Answers to lines that went out together, those behind one that took long, and whether none did.
    Answered {
        lines: Vec<AnsweredLine<T>>,
        rest: Vec<HandedLine<T>>,
        is_soon: bool,
    },
    /// Memory was refused.
    NoMemory,
}

/// What a worker has: its ends of the channels, and the size of its memo.
#[derive(Drop)]
pub struct Worker<T: LineTask> {
    handed: Receiver<Vec<HandedLine<T>>, Global>,
    backs: Sender<Back<T>, Global>,
    entries: usize,
}

/// What a clock says, in microseconds, or nothing where it can't be read.
fn time<R: Clock>(rt: &R) -> u128 {
    match rt.monotonic() {
        Ok(since) => since.as_micros(),
        Err(_) => 0,
    }
}

impl<T: LineTask> Worker<T> {
    /// Gives answers back; answers whether somebody takes them.
    fn give<R: Wait>(&self, rt: &R, back: Back<T>) -> bool {
        self.backs.send(rt, back).is_ok()
    }

    /// Answers lines that went out together, up to one that takes long; answers whether there is more to do.
    fn answer_block<R: Wait + Clock>(
        &self,
        rt: &R,
        alloc: Global,
        rays: &Rays,
        block: Vec<HandedLine<T>>,
        memo: &mut Memo,
    ) -> bool {
        let began = time(rt);
        let mut is_soon = true;
        let mut lines = Vec::new(alloc);
        let mut rest = Vec::new(alloc);
        for HandedLine { task, number, line } in block {
            if !is_soon {
                if rest.push(HandedLine { task, number, line }).is_err() {
                    return self.give(rt, Back::NoMemory);
                }
                continue;
            }
            let Some(line) = answered(alloc, rays, task, number, line, memo) else {
                return self.give(rt, Back::NoMemory);
            };
            if lines.push(line).is_err() {
                return self.give(rt, Back::NoMemory);
            }
            is_soon = time(rt).saturating_sub(began) < SOON;
        }
        self.give(
            rt,
            Back::Answered {
                lines,
                rest,
                is_soon,
            },
        )
    }

    /// Answers lines until none are handed out any more.
    pub fn run<R: Wait + Clock>(&self, rt: &R, alloc: Global) {
        let Ok(mut memo) = Memo::large(alloc, self.entries) else {
            self.give(rt, Back::NoMemory);
            return;
        };
        let rays = Rays::new();
        for _ in rt.forever() {
            let Ok(block) = self.handed.recv(rt) else {
                return;
            };
            if !self.answer_block(rt, alloc, &rays, block, &mut memo) {
                return;
            }
        }
    }
}

/// Workers, the lines that they have, and the answers that came back.
#[derive(Drop)]
pub struct Workers<T: LineTask> {
    handed: Sender<Vec<HandedLine<T>>, Global>,
    backs: Receiver<Back<T>, Global>,
    pub(crate) arrived: Arrived<T>,
    // Lines that go out with the next, how many are to go together, how many blocks are out and may be.
    held: Vec<HandedLine<T>>,
    together: usize,
    out: usize,
    most_out: usize,
    threads: Vec<JoinHandle<()>>,
}

/// Workers, and those of them whose threads are still to be started.
#[derive(Drop)]
pub struct Prepared<T: LineTask> {
    pub workers: Workers<T>,
    pub waiting: Vec<Worker<T>>,
}

/// So many workers, each with a memo of so many entries, 1 to 268,435,456. Who calls it starts a thread for each, which runs it, and says so by
/// `Workers::add`: a thread is given no value whose type is a parameter.
pub fn prepare<T: LineTask>(
    alloc: Global,
    count: usize,
    entries: usize,
) -> Result<Prepared<T>, NoWorkers> {
    let most_out = count.saturating_mul(BLOCKS_EACH);
    // Places for all that may be out, each line by itself, so that nothing is lost for want of memory.
    let places = most_out.saturating_add(1).saturating_mul(MOST_TOGETHER);
    let (handed, takes) = bounded(alloc, places)?;
    let (gives, backs) = bounded(alloc, places)?;
    let mut waiting = Vec::new(alloc);
    for _ in 0..count {
        let worker = Worker {
            handed: takes.clone()?,
            backs: gives.clone()?,
            entries,
        };
        if waiting.push(worker).is_err() {
            return Err(NoWorkers::NoMemory);
        }
    }
    let workers = Workers {
        handed,
        backs,
        arrived: Arrived::new(alloc)?,
        held: Vec::new(alloc),
        together: 1,
        out: 0,
        most_out,
        threads: Vec::new(alloc),
    };
    Ok(Prepared { workers, waiting })
}

impl<T: LineTask> Workers<T> {
    ghost use Rattle.std.specs.Prelude.{◌≡◌, IfErr};

    /// Another of the workers has its thread.
    pub fn add(&mut self, thread: JoinHandle<()>) -> Result<(), NoWorkers> {
        match self.threads.push(thread) {
            Ok(()) => Ok(()),
            Err(_) => Err(NoWorkers::NoMemory),
        }
    }

    /// Hands lines out together.
    fn send<R: Wait>(&mut self, rt: &R, block: Vec<HandedLine<T>>) -> Result<(), Stop>
        ensures memory { IfErr result (λ stop. stop ≡ Stop.NoMemory) }
    {
        if self.handed.send(rt, block).is_err() {
            return Err(Stop::NoMemory);
        }
        self.out = self.out.saturating_add(1);
        Ok(())
    }

    /// Hands out the lines that are held.
    fn send_held<R: Wait>(&mut self, rt: &R, alloc: Global) -> Result<(), Stop>
        ensures memory { IfErr result (λ stop. stop ≡ Stop.NoMemory) }
    {
        let block = mem::replace(&mut self.held, Vec::new(alloc));
        self.send(rt, block)
    }

    /// Hands a line out by itself.
    fn send_one<R: Wait>(&mut self, rt: &R, alloc: Global, line: HandedLine<T>) -> Result<(), Stop>
        ensures memory { IfErr result (λ stop. stop ≡ Stop.NoMemory) }
    {
        let mut block = Vec::new(alloc);
        if block.push(line).is_err() {
            return Err(Stop::NoMemory);
        }
        self.send(rt, block)
    }

    /// Takes in what came back. Where it came soon more lines go out together from then on, else one at a time, as those do that are left of it.
    fn take_in<R: Wait>(&mut self, rt: &R, alloc: Global, back: Back<T>) -> Result<(), Stop>
        ensures memory { IfErr result (λ stop. stop ≡ Stop.NoMemory) }
    {
        let Back::Answered {
            lines,
            rest,
            is_soon,
        } = back
        else {
            return Err(Stop::NoMemory);
        };
        for line in lines {
            self.arrived.put(line);
        }
        self.out = self.out.saturating_sub(1);
        self.together = if is_soon {
            self.together.saturating_mul(2).min(MOST_TOGETHER)
        } else {
            1
        };
        for line in rest {
            self.send_one(rt, alloc, line)?;
        }
        Ok(())
    }

    /// Takes in all that has come back.
    fn look<R: Wait>(&mut self, rt: &R, alloc: Global) -> Result<(), Stop>
        ensures memory { IfErr result (λ stop. stop ≡ Stop.NoMemory) }
    {
        for _ in 0..PLACES {
            match self.backs.try_recv(rt) {
                Ok(back) => self.take_in(rt, alloc, back)?,
                Err(_) => return Ok(()),
            }
        }
        Ok(())
    }

    /// Waits until something comes back.
    fn await_back<R: Wait>(&mut self, rt: &R, alloc: Global) -> Result<(), Stop>
        ensures memory { IfErr result (λ stop. stop ≡ Stop.NoMemory) }
    {
        match self.backs.recv(rt) {
            Ok(back) => self.take_in(rt, alloc, back)?,
            Err(_) => return Err(Stop::NoMemory),
        }
        self.look(rt, alloc)
    }

    /// Waits until no more blocks are out than may be, and so never more lines than there are places for.
    fn await_room<R: Wait>(&mut self, rt: &R, alloc: Global) -> Result<(), Stop>
        ensures memory { IfErr result (λ stop. stop ≡ Stop.NoMemory) }
    {
        for _ in rt.forever() {
            if self.out < self.most_out {
                return Ok(());
            }
            self.await_back(rt, alloc)?;
        }
        unreachable!()
    }

    /// Hands out a line of which so much is asked, by its number, at the latest with the next wait. It waits where enough are out.
    pub(crate) fn hand_out<R: Wait>(
        &mut self,
        rt: &R,
        alloc: Global,
        task: &T,
        number: usize,
        line: &[u8],
    ) -> Result<(), Stop>
        ensures memory { IfErr result (λ stop. stop ≡ Stop.NoMemory) }
    {
        let mut copy = Vec::new(alloc);
        copy.extend_from_slice(line)?;
        let handed = HandedLine {
            task: task.copy(alloc)?,
            number,
            line: copy,
        };
        if self.held.push(handed).is_err() {
            return Err(Stop::NoMemory);
        }
        if self.held.len() < self.together {
            return Ok(());
        }
        self.send_held(rt, alloc)?;
        self.look(rt, alloc)?;
        self.await_room(rt, alloc)
    }

    /// Waits until something comes back, where something is out.
    pub(crate) fn wait<R: Wait>(&mut self, rt: &R, alloc: Global) -> Result<(), Stop>
        ensures memory { IfErr result (λ stop. stop ≡ Stop.NoMemory) }
    {
        if !self.held.is_empty() {
            self.send_held(rt, alloc)?;
        }
        if self.out == 0 {
            return Err(Stop::NoMemory);
        }
        self.await_back(rt, alloc)
    }

    /// Lets the workers go, and waits until they are gone.
    pub fn end<R: Threads + Wait>(self, rt: &R) {
        let Workers {
            handed,
            threads,
            ..
        } = self;
        drop(handed);
        for thread in threads {
            thread.join(rt);
        }
    }
}
