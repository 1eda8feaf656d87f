//! A room of one window and one bench as plain lists, written from what is promised of a room: a slow one to compare with. Whatever
//! one end does is seen by the others at once, and memory is ample. Its turn is in `test_plain_turns`.

use crate::test_calls::{Call, Reply};
use desk_room::Settled;
use std::alloc::Global;
use std::collections::VecDeque;
use std::process::Abort;

/// A letter in the record ring.
#[derive(Clone, Copy, Drop)]
pub(crate) enum Sent {
    Record,
    Withdrawal(u64),
    Farewell,
}

#[derive(Clone, Copy, PartialEq, Eq)]
pub(crate) enum Phase {
    Waiting,
    Out,
    Finished,
}

/// A record that the desk has accepted, by its number, which is its ticket too.
#[derive(Clone, Copy, Drop)]
pub(crate) struct Pending {
    pub(crate) number: u64,
    pub(crate) phase: Phase,
    pub(crate) is_withdrawn: bool,
}

/// A job, by its ticket.
#[derive(Clone, Copy, Drop)]
pub(crate) struct Work {
    pub(crate) ticket: u64,
    pub(crate) is_made_up: bool,
    pub(crate) is_solved: bool,
}

/// What each ring, the deque, the desk and the bench's hand hold, the next first.
#[derive(Drop)]
pub(crate) struct PlainRoom {
    pub(crate) ring: usize,
    pub(crate) sent: u64,
    pub(crate) is_gone: bool,
    pub(crate) letters: VecDeque<Sent>,
    pub(crate) answers: VecDeque<Reply>,
    pub(crate) pending: VecDeque<Pending>,
    pub(crate) accepted: u64,
    pub(crate) is_closed: bool,
    pub(crate) byes: usize,
    pub(crate) is_home: bool,
    // None is a stop.
    pub(crate) orders: VecDeque<Option<u64>>,
    pub(crate) backs: VecDeque<Work>,
    pub(crate) hand: VecDeque<Work>,
    pub(crate) has_stopped: bool,
}

impl PlainRoom {
    pub(crate) fn new(alloc: Global, ring: usize) -> PlainRoom {
        PlainRoom {
            ring,
            sent: 0,
            is_gone: false,
            letters: VecDeque::new(alloc),
            answers: VecDeque::new(alloc),
            pending: VecDeque::new(alloc),
            accepted: 0,
            is_closed: false,
            byes: 0,
            is_home: false,
            orders: VecDeque::new(alloc),
            backs: VecDeque::new(alloc),
            hand: VecDeque::new(alloc),
            has_stopped: false,
        }
    }

    /// How many records the window has sent.
    pub(crate) fn sent(&self) -> u64 {
        self.sent
    }

    pub(crate) fn is_drained(&self) -> bool {
        self.pending.is_empty()
    }

    pub(crate) fn byes(&self) -> usize {
        self.byes
    }

    /// Makes a call, and answers what a room answers.
    pub(crate) fn reply(&mut self, rt: &impl Abort, call: Call) -> Reply {
        match call {
            Call::Submit(_) => self.submit(rt),
            Call::Withdraw(n) => self.withdraw(rt, n),
            Call::Bye => self.bye(rt),
            Call::Collect => self.answers.pop_front().unwrap_or(Reply::Nothing),
            Call::Take => self.take(rt),
            Call::Solve => self.solve(rt),
            Call::Return => self.hand_back(rt),
            Call::MakeUp(ticket) => {
                let made_up = Work {
                    ticket,
                    is_made_up: true,
                    is_solved: false,
                };
                self.give(rt, made_up)
            }
            Call::Turn => self.turn(rt),
            Call::Close => {
                self.is_closed = true;
                Reply::Done
            }
            Call::SendHome => self.send_home(rt),
            Call::Settle => Reply::Settled(self.settle()),
        }
    }

    /// Sends a letter where the ring has a place.
    fn send(&mut self, rt: &impl Abort, letter: Sent) -> Reply {
        if self.letters.len() >= self.ring {
            return Reply::Refused("Busy");
        }
        self.letters.push_back(letter).expect(rt, "memory");
        Reply::Done
    }

    fn submit(&mut self, rt: &impl Abort) -> Reply {
        if self.is_gone {
            return Reply::Refused("Gone");
        }
        let reply = self.send(rt, Sent::Record);
        if reply == Reply::Done {
            self.sent = self.sent.wrapping_add(1);
        }
        reply
    }

    fn withdraw(&mut self, rt: &impl Abort, n: u64) -> Reply {
        if self.is_gone {
            return Reply::Refused("Gone");
        }
        if self.sent <= n {
            return Reply::Refused("NotSent");
        }
        self.send(rt, Sent::Withdrawal(n))
    }

    fn bye(&mut self, rt: &impl Abort) -> Reply {
        if self.is_gone {
            return Reply::Refused("Gone");
        }
        let reply = self.send(rt, Sent::Farewell);
        self.is_gone = reply == Reply::Done;
        reply
    }

    fn settle(&self) -> Settled {
        let mut left: usize = 0;
        for letter in self.letters.iter() {
            if let Sent::Record = letter {
                left = left.wrapping_add(1);
            }
        }
        Settled {
            left,
            uncollected: self.answers.len(),
        }
    }

    /// Once a stop was taken, nothing is.
    fn take(&mut self, rt: &impl Abort) -> Reply {
        if self.has_stopped {
            return Reply::Stop;
        }
        match self.orders.pop_front() {
            None => Reply::Nothing,
            Some(None) => {
                self.has_stopped = true;
                Reply::Stop
            }
            Some(Some(ticket)) => {
                let work = Work {
                    ticket,
                    is_made_up: false,
                    is_solved: false,
                };
                self.hand.push_back(work).expect(rt, "memory");
                Reply::Job(ticket)
            }
        }
    }

    /// Puts a job into the back ring where it has a place.
    fn give(&mut self, rt: &impl Abort, work: Work) -> Reply {
        if self.backs.len() >= self.ring {
            return Reply::HandedBack(work.ticket);
        }
        self.backs.push_back(work).expect(rt, "memory");
        Reply::Done
    }

    /// Gives back the first job in hand, which stays there, solved, where it is refused.
    fn solve(&mut self, rt: &impl Abort) -> Reply {
        let Some(mut work) = self.hand.pop_front() else {
            return Reply::Impossible;
        };
        work.is_solved = true;
        self.give_from_hand(rt, work)
    }

    fn hand_back(&mut self, rt: &impl Abort) -> Reply {
        match self.hand.pop_front() {
            None => Reply::Impossible,
            Some(work) => {
                if work.is_solved {
                    self.hand.push_front(work).expect(rt, "memory");
                    return Reply::Impossible;
                }
                self.give_from_hand(rt, work)
            }
        }
    }

    fn give_from_hand(&mut self, rt: &impl Abort, work: Work) -> Reply {
        let reply = self.give(rt, work);
        if reply != Reply::Done {
            self.hand.push_front(work).expect(rt, "memory");
        }
        reply
    }

    /// One stop for the one bench, put out once.
    fn send_home(&mut self, rt: &impl Abort) -> Reply {
        if !self.is_home {
            self.orders.push_back(None).expect(rt, "memory");
        }
        self.is_home = true;
        Reply::Owed(0)
    }
}
