//! Desks of a hundred sizes beside a plain desk, a thousand calls each.

use crate::row_tests::{bound_of, desk_of, memo_of, same};
use crate::test_plain_desk::{Phase, PlainDesk, Told};
use chess_moves::Rays;
use chess_notation::{Record, read_record};
use chess_problems::Outcome;
use mate_desk::{Delivery, Desk, NoSuchSubmitter, Stranger};
use mate_jobs::{Job, Ticket};
use mate_search::Memo;
use std::alloc::Global;
use std::process::Abort;

/// Lines that ask three problems, two of them of one position, and within how many moves there is mate, or 0.
const LINES: [(&str, u8); 3] = [
    ("6k1/5ppp/8/8/8/8/8/R3K3 w Q - dm 1;", 1),
    ("6k1/5ppp/8/8/8/8/8/R3K3 w Q - dm 2;", 1),
    ("7k/8/5K2/8/8/8/8/R7 w - - dm 1;", 0),
];

/// Numbers that look random (xorshift of 64 bits).
#[derive(Drop)]
struct Numbers {
    state: u64,
}

impl Numbers {
    /// One of 0, 1, and so on, so many.
    fn below(&mut self, n: usize) -> usize {
        self.state ^= self.state << 13;
        self.state ^= self.state >> 7;
        self.state ^= self.state << 17;
        (self.state % (n as u64).max(1)) as usize
    }
}

/// A job in hand, and the line whose problem it has.
#[derive(Drop)]
struct InHand {
    job: Job,
    line: usize,
}

/// A desk with the plain desk beside it, and the jobs in hand.
#[derive(Drop)]
struct Pair {
    desk: Desk,
    plain: PlainDesk,
    hand: Vec<InHand>,
    rays: Rays,
    memo: Memo,
}

/// A line, and within how many moves there is mate, or 0.
fn line_of(rt: &impl Abort, line: usize) -> (&'static str, u8) {
    *LINES.get(line).expect(rt, "line")
}

/// The record of a line, named by the ticket that it is to get.
fn record_of(rt: &impl Abort, alloc: Global, rays: &Rays, line: usize, ticket: u64) -> Record {
    let (text, _) = line_of(rt, line);
    let named = format!(in alloc; "{text} id {ticket};").expect(rt, "memory");
    read_record(alloc, rays, named.as_bytes(), bound_of(rt, 15)).expect(rt, text)
}

/// The ticket by which a record was named.
fn name_of(rt: &impl Abort, record: &Record) -> u64 {
    let operation = record.rest.first().expect(rt, "operation");
    let name = operation.operands.as_str().trim();
    name.parse::<u64>().ok().expect(rt, "name")
}

/// Within how many moves there is mate, or 0.
fn moves_of(outcome: &Outcome) -> u8 {
    match outcome {
        Outcome::Mate { dm, .. } => dm.get(),
        Outcome::NoMate => 0,
    }
}

impl Pair {
    fn submit(&mut self, rt: &impl Abort, alloc: Global, numbers: &mut Numbers) {
        let s = numbers.below(self.plain.submitters.saturating_add(1));
        let line = numbers.below(3);
        let refusal = self.plain.refusal(s);
        same(rt, &"accepts", &self.desk.accepts(s), &refusal.is_none());
        let name = self.plain.next;
        match self
            .desk
            .submit(s, record_of(rt, alloc, &self.rays, line, name))
        {
            Ok(ticket) => {
                same(rt, &"submitted", &None, &refusal);
                same(rt, &"ticket", &ticket.0, &self.plain.submit(rt, s, line));
            }
            Err((found, record)) => {
                same(rt, &"refused", &Some(found), &refusal);
                same(rt, &"handed back", &name_of(rt, &record), &name);
            }
        }
    }

    fn take(&mut self, rt: &impl Abort) {
        let ticket = self.plain.take();
        let job = self.desk.take();
        let found = job.as_ref().map(|job| job.ticket().0);
        same(rt, &"taken", &found, &ticket);
        if let Some(job) = job {
            let line = self.plain.line_under(job.ticket().0).expect(rt, "line");
            self.hand.push(InHand { job, line }).expect(rt, "memory");
        }
    }

    /// A job of those in hand, or now and then one that no desk gave out.
    fn pick(&mut self, rt: &impl Abort, alloc: Global, numbers: &mut Numbers) -> InHand {
        let i = numbers.below(self.hand.len());
        if i < self.hand.len() && numbers.below(5) > 0 {
            return self.hand.remove(i);
        }
        let line = numbers.below(3);
        let back = numbers.below(8) as u64;
        let ticket = Ticket(self.plain.next.wrapping_sub(back));
        let record = record_of(rt, alloc, &self.rays, line, 0);
        InHand {
            job: Job::new(ticket, record.problem()),
            line,
        }
    }

    fn finish(&mut self, rt: &impl Abort, alloc: Global, numbers: &mut Numbers) {
        let InHand { job, line } = self.pick(rt, alloc, numbers);
        let ticket = job.ticket();
        let done = job.solve(&self.rays, &mut self.memo);
        same(
            rt,
            &"solved",
            &moves_of(done.outcome()),
            &line_of(rt, line).1,
        );
        let known = self.plain.bring_back(ticket.0, line, Phase::Finished);
        let stranger = match self.desk.finish(done) {
            Ok(()) => None,
            Err((Stranger, done)) => Some(done.ticket()),
        };
        same(
            rt,
            &"finished",
            &(stranger.is_none(), stranger.unwrap_or(ticket)),
            &(known, ticket),
        );
    }

    fn hand_back(&mut self, rt: &impl Abort, alloc: Global, numbers: &mut Numbers) {
        let InHand { job, line } = self.pick(rt, alloc, numbers);
        let ticket = job.ticket();
        let known = self.plain.bring_back(ticket.0, line, Phase::Waiting);
        let stranger = match self.desk.hand_back(job) {
            Ok(()) => None,
            Err((Stranger, job)) => Some(job.ticket()),
        };
        same(
            rt,
            &"back",
            &(stranger.is_none(), stranger.unwrap_or(ticket)),
            &(known, ticket),
        );
    }

    /// What was delivered, by the names of records, whose answers are right.
    fn told_by(&self, rt: &impl Abort, delivery: &Delivery) -> Told {
        match delivery {
            Delivery::Answer(answer) => {
                let ticket = name_of(rt, answer.asked());
                let line = self.plain.line_under(ticket).expect(rt, "line");
                same(
                    rt,
                    &"answer",
                    &moves_of(answer.outcome()),
                    &line_of(rt, line).1,
                );
                Told::Answer(ticket)
            }
            Delivery::Notice(ticket, record) => {
                same(rt, &"notice", &name_of(rt, record), &ticket.0);
                Told::Notice(ticket.0)
            }
        }
    }

    fn collect(&mut self, rt: &impl Abort, numbers: &mut Numbers) {
        let s = numbers.below(self.plain.submitters.saturating_add(1));
        let told = self.plain.collect(s);
        same(
            rt,
            &"ready",
            &(s, self.desk.is_ready(s)),
            &(s, told.is_some()),
        );
        match self.desk.collect(s) {
            Ok(Some(delivery)) => {
                same(rt, &"collected", &Some(self.told_by(rt, &delivery)), &told);
            }
            Ok(None) => same(rt, &"nothing", &None, &told),
            Err(NoSuchSubmitter) => same(rt, &"nobody", &s, &self.plain.submitters),
        }
    }

    fn withdraw(&mut self, rt: &impl Abort, numbers: &mut Numbers) {
        let s = numbers.below(self.plain.submitters.saturating_add(1));
        let n = numbers.below(self.plain.accepted(s).saturating_add(2));
        let refusal = self.plain.withdraw(s, n);
        same(
            rt,
            &"withdrawn",
            &self.desk.withdraw(s, n as u64).err(),
            &refusal,
        );
    }

    /// Refuses where the readers of the two desks differ.
    fn look(&self, rt: &impl Abort, numbers: &mut Numbers) {
        let s = numbers.below(self.plain.submitters.saturating_add(1));
        let pending = if s < self.plain.submitters {
            Some(self.plain.pending(s))
        } else {
            None
        };
        same(rt, &"pending", &self.desk.pending(s).ok(), &pending);
        let found = (
            self.desk.accepts(s),
            self.desk.waiting(),
            self.desk.is_drained(),
            self.desk.is_closed(),
        );
        let wanted = (
            self.plain.refusal(s).is_none(),
            self.plain.waiting(),
            self.plain.is_drained(),
            self.plain.closed,
        );
        same(rt, &"accepts, waiting, drained, closed", &found, &wanted);
    }

    fn step(&mut self, rt: &impl Abort, alloc: Global, numbers: &mut Numbers) {
        if numbers.below(700) == 0 {
            self.desk.close();
            self.plain.closed = true;
        }
        match numbers.below(20) {
            0..=6 => self.submit(rt, alloc, numbers),
            7..=10 => self.take(rt),
            11..=13 => self.finish(rt, alloc, numbers),
            14..=15 => self.hand_back(rt, alloc, numbers),
            16..=18 => self.collect(rt, numbers),
            _ => self.withdraw(rt, numbers),
        }
        self.look(rt, numbers);
    }
}

/// A thousand calls on a desk of this size, whose first ticket is this.
fn walk(
    rt: &impl Abort,
    alloc: Global,
    submitters: usize,
    room: usize,
    first: u64,
    numbers: &mut Numbers,
) {
    let mut pair = Pair {
        desk: desk_of(rt, alloc, submitters, room, first),
        plain: PlainDesk {
            submitters,
            room,
            next: first,
            closed: false,
            all: Vec::new(alloc),
        },
        hand: Vec::new(alloc),
        rays: Rays::new(),
        memo: memo_of(rt, alloc),
    };
    for _ in 0..1000 {
        pair.step(rt, alloc, numbers);
    }
}

#[test]
fn does_as_a_plain_desk_does(rt: HostRuntime) {
    let mut numbers = Numbers {
        state: 0x9e37_79b9_7f4a_7c15,
    };
    for size in 0..100 {
        let submitters = size % 16 + 1;
        let room = size * 23 % 64 + 1;
        // Now and then a desk that runs out of tickets.
        let first = if size % 10 == 9 {
            u64::MAX - 100
        } else {
            size as u64
        };
        walk(&rt, rt.alloc(), submitters, room, first, &mut numbers);
    }
}
