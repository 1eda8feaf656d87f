//! Calls on the ends of a room of one window and one bench.

ghost use Rattle.std.specs.Prelude.{IfOk};
ghost use Rattle.room_ends.specs.Windows.{SameWindow};
ghost use Rattle.desk_room.specs.Keepers.{IsOf, SameRoom};

use crate::test_calls::{Call, Reply};
use crate::test_rows::same;
use crate::test_scenes::{A, ANSWER_A, ends_of_one};
use chess_moves::Rays;
use chess_notation::{Record, read_record};
use chess_problems::{Bound, Outcome, Problem};
use desk_room::{Back, Bench, Keeper, Taken, Window};
use mate_desk::Delivery;
use mate_jobs::{Job, Ticket};
use mate_search::Memo;
use std::alloc::Global;
use std::collections::VecDeque;
use std::process::Abort;
use std::test::Fail;

/// The records that the window sends, by their numbers: mate in one, asked for within so many moves as tell them apart.
const LINES: [&str; 5] = [
    "6k1/5ppp/8/8/8/8/8/R3K3 w Q - dm 1;",
    "6k1/5ppp/8/8/8/8/8/R3K3 w Q - dm 2;",
    "6k1/5ppp/8/8/8/8/8/R3K3 w Q - dm 3;",
    "6k1/5ppp/8/8/8/8/8/R3K3 w Q - dm 4;",
    "6k1/5ppp/8/8/8/8/8/R3K3 w Q - dm 5;",
];

/// A record that is never sent.
const UNSENT: &str = "6k1/5ppp/8/8/8/8/8/R3K3 w Q - dm 6;";

/// What the calls are made with.
#[derive(Drop)]
pub(crate) struct Tools {
    alloc: Global,
    rays: Rays,
    memo: Memo,
    unsent: Record,
    /// The outcome of each record.
    mate: Outcome,
}

fn record_of(rt: &impl Abort, alloc: Global, rays: &Rays, line: &str) -> Record {
    let default = Bound::new(3).expect(rt, "bound");
    read_record(alloc, rays, line.as_bytes(), default).expect(rt, line)
}

pub(crate) fn make_tools(rt: &impl Abort, alloc: Global) -> Tools {
    let rays = Rays::new();
    let mut memo = Memo::new(alloc, 16).expect(rt, "memo");
    let record = record_of(rt, alloc, &rays, A);
    let done = Job::new(Ticket(0), record.problem()).solve(&rays, &mut memo);
    let mate = done.outcome().clone().expect(rt, "mate");
    let text = done.into_answer(record).text(alloc, &rays).expect(rt, A);
    same(rt, &A, &text.as_str(), &ANSWER_A);
    let unsent = record_of(rt, alloc, &rays, UNSENT);
    Tools {
        alloc,
        rays,
        memo,
        unsent,
        mate,
    }
}

/// The number of the record that asks this bound.
fn number_of(bound: Bound) -> u64 {
    u64::from(bound.get()).wrapping_sub(1)
}

fn submit(rt: &impl Abort, alloc: Global, rays: &Rays, window: &mut Window, n: u64) -> Reply
    ensures { SameWindow window.old window.new }
{
    let line = LINES.get(n as usize).expect(rt, "line");
    match window.submit(alloc, rays, line.as_bytes()) {
        Ok(()) => Reply::Done,
        Err(fault) => Reply::Refused(fault.code()),
    }
}

/// What is collected, an answer only where it is the right one.
fn delivered(delivery: &Delivery, mate: &Outcome) -> Reply {
    match delivery {
        Delivery::Notice(ticket, _) => Reply::Notice(ticket.0),
        Delivery::Answer(answer) => {
            if answer.outcome() == mate {
                Reply::Answer(number_of(answer.asked().bound))
            } else {
                Reply::Refused("a wrong outcome")
            }
        }
    }
}

/// A call of the window.
fn reply_of_window(rt: &impl Abort, tools: &Tools, window: &mut Window, call: Call) -> Reply
    ensures { SameWindow window.old window.new }
{
    match call {
        Call::Submit(n) => submit(rt, tools.alloc, &tools.rays, window, n),
        Call::Withdraw(n) => match window.withdraw(n) {
            Ok(()) => Reply::Done,
            Err(fault) => Reply::Refused(fault.code()),
        },
        Call::Bye => match window.bye() {
            Ok(()) => Reply::Done,
            Err(fault) => Reply::Refused(fault.code()),
        },
        _ => match window.collect() {
            Some(delivery) => delivered(&delivery, &tools.mate),
            None => Reply::Nothing,
        },
    }
}

/// A call of the keeper alone.
#[tactic(auto, using(crate::proofs::Rooms::room_same))]
fn reply_of_keeper(keeper: &mut Keeper, call: Call) -> Reply
    ensures { SameRoom keeper.old keeper.new }
{
    match call {
        Call::Turn => Reply::Turned(keeper.turn()),
        Call::SendHome => Reply::Owed(keeper.send_home()),
        _ => {
            keeper.close();
            Reply::Done
        }
    }
}

fn take(rt: &impl Abort, bench: &mut Bench, hand: &mut VecDeque<Back>) -> Reply {
    match bench.take() {
        Taken::Job(job) => {
            let number = number_of(job.problem().bound);
            if job.ticket().0 != number {
                return Reply::Refused("a job of another record");
            }
            hand.push_back(Back::Returned(job)).expect(rt, "memory");
            Reply::Job(number)
        }
        Taken::Stop => Reply::Stop,
        Taken::Nothing => Reply::Nothing,
    }
}

fn ticket_of(back: &Back) -> u64 {
    match back {
        Back::Solved(done) => done.ticket().0,
        Back::Returned(job) => job.ticket().0,
    }
}

/// Gives back what was in hand, where it stays if it is refused.
fn give(rt: &impl Abort, bench: &mut Bench, hand: &mut VecDeque<Back>, back: Back) -> Reply {
    match bench.back(back) {
        Ok(()) => Reply::Done,
        Err(back) => {
            let ticket = ticket_of(&back);
            hand.push_front(back).expect(rt, "memory");
            Reply::HandedBack(ticket)
        }
    }
}

fn solve(
    rt: &impl Abort,
    tools: &mut Tools,
    bench: &mut Bench,
    hand: &mut VecDeque<Back>,
) -> Reply {
    match hand.pop_front() {
        None => Reply::Impossible,
        Some(Back::Solved(done)) => give(rt, bench, hand, Back::Solved(done)),
        Some(Back::Returned(job)) => {
            let done = job.solve(&tools.rays, &mut tools.memo);
            give(rt, bench, hand, Back::Solved(done))
        }
    }
}

fn hand_back(rt: &impl Abort, bench: &mut Bench, hand: &mut VecDeque<Back>) -> Reply {
    match hand.pop_front() {
        None => Reply::Impossible,
        Some(Back::Returned(job)) => give(rt, bench, hand, Back::Returned(job)),
        Some(Back::Solved(done)) => {
            hand.push_front(Back::Solved(done)).expect(rt, "memory");
            Reply::Impossible
        }
    }
}

/// A job of a record that was never sent.
fn make_up(bench: &mut Bench, problem: Problem, ticket: u64) -> Reply {
    match bench.back(Back::Returned(Job::new(Ticket(ticket), problem))) {
        Ok(()) => Reply::Done,
        Err(back) => Reply::HandedBack(ticket_of(&back)),
    }
}

/// A call of the bench.
fn reply_of_bench(
    rt: &impl Abort,
    tools: &mut Tools,
    bench: &mut Bench,
    hand: &mut VecDeque<Back>,
    call: Call,
) -> Reply {
    match call {
        Call::Take => take(rt, bench, hand),
        Call::Solve => solve(rt, tools, bench, hand),
        Call::Return => hand_back(rt, bench, hand),
        Call::MakeUp(ticket) => make_up(bench, tools.unsent.problem(), ticket),
        _ => Reply::Impossible,
    }
}

/// The ends of a room of one window and one bench, and what the bench has in hand.
#[derive(Drop)]
pub(crate) struct RealRoom {
    pub(crate) keeper: Keeper,
    window: Window,
    bench: Bench,
    hand: VecDeque<Back>,
}

impl RealRoom {
    /// A room whose rings have so many places.
    pub(crate) fn open(rt: &impl Abort, alloc: Global, ring: usize) -> Result<RealRoom, Fail>
        ensures { IfOk result (λ room. IsOf room.window room.keeper) }
    {
        let (keeper, window, mut benches) = ends_of_one(alloc, 1, ring)?;
        Ok(RealRoom {
            keeper,
            window,
            bench: benches.pop().expect(rt, "bench"),
            hand: VecDeque::new(alloc),
        })
    }

    /// A call of the window, of the keeper or of the bench.
    #[tactic(auto, using(crate::proofs::Rooms::of_then, crate::proofs::Rooms::of_window, crate::proofs::Rooms::room_same, crate::proofs::Rooms::room_then))]
    pub(crate) fn reply(&mut self, rt: &impl Abort, tools: &mut Tools, call: Call) -> Reply
        requires { IsOf self.old.window self.old.keeper }
        ensures { IsOf self.new.window self.new.keeper }
    {
        match call {
            Call::Submit(_) | Call::Withdraw(_) | Call::Bye | Call::Collect => {
                reply_of_window(rt, tools, &mut self.window, call)
            }
            Call::Turn | Call::Close | Call::SendHome => reply_of_keeper(&mut self.keeper, call),
            Call::Settle => Reply::Settled(self.keeper.settle(&mut self.window)),
            Call::Take | Call::Solve | Call::Return | Call::MakeUp(_) => {
                reply_of_bench(rt, tools, &mut self.bench, &mut self.hand, call)
            }
        }
    }
}
