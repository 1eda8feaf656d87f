//! A turn of a plain room.

use crate::test_calls::Reply;
use crate::test_plain_room::{Pending, Phase, PlainRoom, Sent, Work};
use desk_room::Turn;
use std::process::Abort;

impl PlainRoom {
    /// What the bench gave back is heard, letters are taken, jobs are ordered, and what is ready is delivered.
    pub(crate) fn turn(&mut self, rt: &impl Abort) -> Reply {
        let mut turn = Turn {
            accepted: 0,
            byes: 0,
            withdrawn: 0,
            ordered: 0,
            solved: 0,
            returned: 0,
            strangers: 0,
            delivered: 0,
        };
        for _ in 0..self.ring {
            if let Some(work) = self.backs.pop_front() {
                self.hear(work, &mut turn);
            }
        }
        self.read(rt, &mut turn);
        self.order(rt, &mut turn);
        self.deliver(rt, &mut turn);
        Reply::Turned(turn)
    }

    /// What is not out under this ticket, or was not asked, is a stranger.
    fn hear(&mut self, work: Work, turn: &mut Turn) {
        for entry in self.pending.iter_mut() {
            if entry.number == work.ticket && entry.phase == Phase::Out && !work.is_made_up {
                if work.is_solved {
                    entry.phase = Phase::Finished;
                    turn.solved = turn.solved.wrapping_add(1);
                } else {
                    entry.phase = Phase::Waiting;
                    turn.returned = turn.returned.wrapping_add(1);
                }
                return;
            }
        }
        turn.strangers = turn.strangers.wrapping_add(1);
    }

    /// Letters are taken while the desk would accept a record.
    fn read(&mut self, rt: &impl Abort, turn: &mut Turn) {
        for _ in 0..self.ring {
            if self.is_closed || self.pending.len() >= self.ring {
                return;
            }
            match self.letters.pop_front() {
                None => return,
                Some(Sent::Record) => {
                    let entry = Pending {
                        number: self.accepted,
                        phase: Phase::Waiting,
                        is_withdrawn: false,
                    };
                    self.pending.push_back(entry).expect(rt, "memory");
                    self.accepted = self.accepted.wrapping_add(1);
                    turn.accepted = turn.accepted.wrapping_add(1);
                }
                Some(Sent::Withdrawal(n)) => self.mark(n, turn),
                Some(Sent::Farewell) => {
                    self.byes = self.byes.wrapping_add(1);
                    turn.byes = turn.byes.wrapping_add(1);
                }
            }
        }
    }

    /// Withdraws a record that is pending and was not withdrawn.
    fn mark(&mut self, n: u64, turn: &mut Turn) {
        for entry in self.pending.iter_mut() {
            if entry.number == n && !entry.is_withdrawn {
                entry.is_withdrawn = true;
                turn.withdrawn = turn.withdrawn.wrapping_add(1);
            }
        }
    }

    /// Each job that waits goes out, unless its record was withdrawn or the bench was sent home.
    fn order(&mut self, rt: &impl Abort, turn: &mut Turn) {
        if self.is_home {
            return;
        }
        for entry in self.pending.iter_mut() {
            if entry.phase == Phase::Waiting && !entry.is_withdrawn {
                entry.phase = Phase::Out;
                self.orders
                    .push_back(Some(entry.number))
                    .expect(rt, "memory");
                turn.ordered = turn.ordered.wrapping_add(1);
            }
        }
    }

    /// What comes of the first pending record: its notice once it is withdrawn and not out, else its answer once it is finished.
    fn ready(&self) -> Option<Reply> {
        let first = self.pending.front()?;
        match (first.is_withdrawn, first.phase) {
            (true, Phase::Out) => None,
            (true, _) => Some(Reply::Notice(first.number)),
            (false, Phase::Finished) => Some(Reply::Answer(first.number)),
            (false, _) => None,
        }
    }

    fn deliver(&mut self, rt: &impl Abort, turn: &mut Turn) {
        for _ in 0..self.ring {
            if self.answers.len() >= self.ring {
                return;
            }
            let Some(delivery) = self.ready() else {
                return;
            };
            self.answers.push_back(delivery).expect(rt, "memory");
            let _ = self.pending.pop_front();
            turn.delivered = turn.delivered.wrapping_add(1);
        }
    }
}
