//! Calls of desks, told with their replies.

use chess_moves::Rays;
use chess_notation::{Record, read_record};
use chess_problems::Bound;
use mate_desk::{Delivery, Desk, Stranger, SubmitRefusal};
use mate_jobs::{Job, Ticket};
use mate_search::Memo;
use std::alloc::Global;
use std::fmt::{Debug, Display};
use std::process::Abort;

/// Two records, and their answers.
pub(crate) const A: &str = "6k1/5ppp/8/8/8/8/8/R3K3 w Q - dm 1;";

pub(crate) const ANSWER_A: &str = "6k1/5ppp/8/8/8/8/8/R3K3 w Q - bm Ra8#; dm 1; pv Ra8#;";

pub(crate) const B: &str = "7k/8/5K2/8/8/8/8/R7 w - - dm 2;";

pub(crate) const ANSWER_B: &str = "7k/8/5K2/8/8/8/8/R7 w - - bm Kf7 Kg6; dm 2; pv Kg6 Kg8 Ra8#;";

/// Refuses where a row was answered otherwise. One assertion serves all rows, since each is proved anew.
pub(crate) fn same<R: Debug, T: PartialEq + Debug>(
    rt: &impl Abort,
    row: &R,
    found: &T,
    wanted: &T,
) {
    assert_eq!(rt; found, wanted, "{row:?}");
}

pub(crate) fn bound_of(rt: &impl Abort, moves: u8) -> Bound {
    Bound::new(moves).expect(rt, "bound")
}

pub(crate) fn record_of(rt: &impl Abort, alloc: Global, line: &str) -> Record {
    let default = bound_of(rt, 3);
    read_record(alloc, &Rays::new(), line.as_bytes(), default).expect(rt, line)
}

pub(crate) fn memo_of(rt: &impl Abort, alloc: Global) -> Memo {
    Memo::new(alloc, 16).expect(rt, "memo")
}

pub(crate) fn desk_of(
    rt: &impl Abort,
    alloc: Global,
    submitters: usize,
    room: usize,
    first: u64,
) -> Desk {
    Desk::new(alloc, submitters, room, first).expect(rt, "desk")
}

/// Hands a line's record in. A record that is handed back is let go.
pub(crate) fn submit(
    rt: &impl Abort,
    alloc: Global,
    desk: &mut Desk,
    s: usize,
    line: &str,
) -> Result<Ticket, SubmitRefusal> {
    match desk.submit(s, record_of(rt, alloc, line)) {
        Ok(ticket) => Ok(ticket),
        Err((refusal, _)) => Err(refusal),
    }
}

/// A call. Jobs in hand are numbered from 0 in the order of taking, and later ones close up.
#[derive(Clone, Copy)]
pub(crate) enum Call {
    Submit(usize, &'static str),
    Take,
    Finish(usize),
    HandBack(usize),
    Withdraw(usize, u64),
    Collect(usize),
    Close,
    Drained,
}

/// A desk with the jobs that were taken from it.
#[derive(Drop)]
struct Session {
    alloc: Global,
    desk: Desk,
    hand: Vec<Job>,
    rays: Rays,
    memo: Memo,
}

fn session_of(rt: &impl Abort, alloc: Global, submitters: usize, room: usize) -> Session {
    Session {
        alloc,
        desk: desk_of(rt, alloc, submitters, room, 0),
        hand: Vec::new(alloc),
        rays: Rays::new(),
        memo: memo_of(rt, alloc),
    }
}

fn told<D: Display + Drop>(rt: &impl Abort, alloc: Global, reply: D) -> String {
    String::format(alloc, reply).expect(rt, "memory")
}

fn numbered(rt: &impl Abort, alloc: Global, word: &str, ticket: Ticket) -> String {
    told(rt, alloc, format_args!("{word} {}", ticket.0))
}

fn refused<D: Display>(rt: &impl Abort, alloc: Global, refusal: &D) -> String {
    told(rt, alloc, format_args!("refused {refusal}"))
}

fn delivered(rt: &impl Abort, alloc: Global, rays: &Rays, delivery: Delivery) -> String {
    match delivery {
        Delivery::Answer(answer) => answer.text(alloc, rays).expect(rt, "memory"),
        Delivery::Notice(ticket, _) => numbered(rt, alloc, "notice", ticket),
    }
}

impl Session {
    fn submit(&mut self, rt: &impl Abort, s: usize, line: &str) -> String {
        match submit(rt, self.alloc, &mut self.desk, s, line) {
            Ok(ticket) => numbered(rt, self.alloc, "ticket", ticket),
            Err(refusal) => refused(rt, self.alloc, &refusal),
        }
    }

    fn take(&mut self, rt: &impl Abort) -> String {
        let Some(job) = self.desk.take() else {
            return told(rt, self.alloc, "nothing");
        };
        let ticket = job.ticket();
        self.hand.push(job).expect(rt, "memory");
        numbered(rt, self.alloc, "job", ticket)
    }

    fn finish(&mut self, rt: &impl Abort, i: usize) -> String {
        if self.hand.len() <= i {
            return told(rt, self.alloc, "no job");
        }
        let done = self.hand.remove(i).solve(&self.rays, &mut self.memo);
        let ticket = done.ticket();
        match self.desk.finish(done) {
            Ok(()) => numbered(rt, self.alloc, "done", ticket),
            Err((Stranger, done)) => numbered(rt, self.alloc, "stranger", done.ticket()),
        }
    }

    fn hand_back(&mut self, rt: &impl Abort, i: usize) -> String {
        if self.hand.len() <= i {
            return told(rt, self.alloc, "no job");
        }
        let job = self.hand.remove(i);
        let ticket = job.ticket();
        match self.desk.hand_back(job) {
            Ok(()) => numbered(rt, self.alloc, "back", ticket),
            Err((Stranger, job)) => numbered(rt, self.alloc, "stranger", job.ticket()),
        }
    }

    fn withdraw(&mut self, rt: &impl Abort, s: usize, n: u64) -> String {
        match self.desk.withdraw(s, n) {
            Ok(()) => told(rt, self.alloc, "withdrawn"),
            Err(refusal) => refused(rt, self.alloc, &refusal),
        }
    }

    fn collect(&mut self, rt: &impl Abort, s: usize) -> String {
        match self.desk.collect(s) {
            Ok(Some(delivery)) => delivered(rt, self.alloc, &self.rays, delivery),
            Ok(None) => told(rt, self.alloc, "none"),
            Err(refusal) => refused(rt, self.alloc, &refusal),
        }
    }

    fn close(&mut self, rt: &impl Abort) -> String {
        self.desk.close();
        let reply = if self.desk.is_closed() {
            "closed"
        } else {
            "open"
        };
        told(rt, self.alloc, reply)
    }

    fn drained(&self, rt: &impl Abort) -> String {
        let reply = if self.desk.is_drained() {
            "drained yes"
        } else {
            "drained no"
        };
        told(rt, self.alloc, reply)
    }

    fn reply(&mut self, rt: &impl Abort, call: Call) -> String {
        match call {
            Call::Submit(s, line) => self.submit(rt, s, line),
            Call::Take => self.take(rt),
            Call::Finish(i) => self.finish(rt, i),
            Call::HandBack(i) => self.hand_back(rt, i),
            Call::Withdraw(s, n) => self.withdraw(rt, s, n),
            Call::Collect(s) => self.collect(rt, s),
            Call::Close => self.close(rt),
            Call::Drained => self.drained(rt),
        }
    }
}

/// Refuses where a new desk replies otherwise.
fn check_replies(
    rt: &impl Abort,
    alloc: Global,
    (submitters, room): (usize, usize),
    calls: &[(Call, &str)],
) {
    let mut session = session_of(rt, alloc, submitters, room);
    for (number, (call, wanted)) in calls.iter().enumerate() {
        let found = session.reply(rt, *call);
        same(rt, &number, &found.as_str(), wanted);
    }
}

pub(crate) static IN_ORDER: [(Call, &str); 11] = [
    (Call::Submit(0, A), "ticket 0"),
    (Call::Submit(0, B), "ticket 1"),
    (Call::Take, "job 0"),
    (Call::Take, "job 1"),
    (Call::Finish(1), "done 1"),
    (Call::Collect(0), "none"),
    (Call::Finish(0), "done 0"),
    (Call::Collect(0), ANSWER_A),
    (Call::Collect(0), ANSWER_B),
    (Call::Collect(0), "none"),
    (Call::Drained, "drained yes"),
];

#[test]
fn answers_in_the_order_of_acceptance(rt: HostRuntime) {
    check_replies(&rt, rt.alloc(), (1, 2), &IN_ORDER);
}

pub(crate) static OUT_AGAIN: [(Call, &str); 13] = [
    (Call::Submit(0, A), "ticket 0"),
    (Call::Submit(0, B), "ticket 1"),
    (Call::Take, "job 0"),
    (Call::HandBack(0), "back 0"),
    (Call::Take, "job 0"),
    (Call::Finish(0), "done 0"),
    (Call::Drained, "drained no"),
    (Call::Collect(0), ANSWER_A),
    (Call::Drained, "drained no"),
    (Call::Take, "job 1"),
    (Call::Finish(0), "done 1"),
    (Call::Collect(0), ANSWER_B),
    (Call::Drained, "drained yes"),
];

#[test]
fn gives_a_job_out_again_that_came_back(rt: HostRuntime) {
    check_replies(&rt, rt.alloc(), (1, 2), &OUT_AGAIN);
}

pub(crate) static AFTER_CLOSE: [(Call, &str); 9] = [
    (Call::Submit(0, A), "ticket 0"),
    (Call::Close, "closed"),
    (Call::Submit(0, B), "refused Closed"),
    (Call::Take, "job 0"),
    (Call::Finish(0), "done 0"),
    (Call::Collect(0), ANSWER_A),
    (Call::Close, "closed"),
    (Call::Collect(0), "none"),
    (Call::Drained, "drained yes"),
];

#[test]
fn accepts_nothing_after_close(rt: HostRuntime) {
    check_replies(&rt, rt.alloc(), (1, 1), &AFTER_CLOSE);
}

pub(crate) static TWO_SUBMITTERS: [(Call, &str); 9] = [
    (Call::Submit(0, A), "ticket 0"),
    (Call::Submit(0, B), "refused Full"),
    (Call::Submit(1, B), "ticket 1"),
    (Call::Submit(2, B), "refused NoSuchSubmitter"),
    (Call::Collect(2), "refused NoSuchSubmitter"),
    (Call::Finish(0), "no job"),
    (Call::Take, "job 0"),
    (Call::Take, "job 1"),
    (Call::Take, "nothing"),
];

#[test]
fn counts_each_submitter_by_itself(rt: HostRuntime) {
    check_replies(&rt, rt.alloc(), (2, 1), &TWO_SUBMITTERS);
}

pub(crate) static WITH_NOTICES: [(Call, &str); 16] = [
    (Call::Submit(0, A), "ticket 0"),
    (Call::Submit(0, B), "ticket 1"),
    (Call::Take, "job 0"),
    (Call::Withdraw(0, 0), "withdrawn"),
    (Call::Withdraw(0, 1), "withdrawn"),
    (Call::Take, "nothing"),
    (Call::Collect(0), "none"),
    (Call::Drained, "drained no"),
    (Call::Finish(0), "done 0"),
    (Call::Collect(0), "notice 0"),
    (Call::Collect(0), "notice 1"),
    (Call::Collect(0), "none"),
    (Call::Withdraw(0, 0), "refused Delivered"),
    (Call::Withdraw(0, 2), "refused NotAccepted"),
    (Call::Withdraw(1, 0), "refused NoSuchSubmitter"),
    (Call::Drained, "drained yes"),
];

#[test]
fn notices_stand_in_their_places(rt: HostRuntime) {
    check_replies(&rt, rt.alloc(), (1, 2), &WITH_NOTICES);
}

pub(crate) static FINISHED_WITHDRAWN: [(Call, &str); 9] = [
    (Call::Submit(0, A), "ticket 0"),
    (Call::Take, "job 0"),
    (Call::Finish(0), "done 0"),
    (Call::Withdraw(0, 0), "withdrawn"),
    (Call::Withdraw(0, 0), "refused Withdrawn"),
    (Call::Submit(0, B), "refused Full"),
    (Call::Close, "closed"),
    (Call::Collect(0), "notice 0"),
    (Call::Drained, "drained yes"),
];

#[test]
fn a_finished_record_is_withdrawn(rt: HostRuntime) {
    check_replies(&rt, rt.alloc(), (1, 1), &FINISHED_WITHDRAWN);
}

pub(crate) static WITHDRAWN_BACK: [(Call, &str); 7] = [
    (Call::Submit(0, A), "ticket 0"),
    (Call::Take, "job 0"),
    (Call::Withdraw(0, 0), "withdrawn"),
    (Call::HandBack(0), "back 0"),
    (Call::Take, "nothing"),
    (Call::Collect(0), "notice 0"),
    (Call::Drained, "drained yes"),
];

#[test]
fn a_withdrawn_record_waits_no_more(rt: HostRuntime) {
    check_replies(&rt, rt.alloc(), (1, 1), &WITHDRAWN_BACK);
}
