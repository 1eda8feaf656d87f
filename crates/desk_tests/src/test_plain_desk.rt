//! A plain desk: a list of all that was accepted, never shortened, which answers by filters over it.

use mate_desk::{SubmitRefusal, WithdrawRefusal};
use std::process::Abort;

#[derive(Clone, Copy, PartialEq, Eq)]
pub(crate) enum Phase {
    Waiting,
    Out,
    Finished,
}

/// A record that was accepted.
#[derive(Clone, Copy)]
pub(crate) struct Asked {
    submitter: usize,
    ticket: u64,
    line: usize,
    phase: Phase,
    withdrawn: bool,
    delivered: bool,
}

/// What is delivered for a record: its notice, or its answer.
#[derive(Clone, Copy, PartialEq, Eq, Debug)]
pub(crate) enum Told {
    Answer(u64),
    Notice(u64),
}

/// A desk that remembers all it accepted.
#[derive(Drop)]
pub(crate) struct PlainDesk {
    pub(crate) submitters: usize,
    pub(crate) room: usize,
    pub(crate) next: u64,
    pub(crate) closed: bool,
    pub(crate) all: Vec<Asked>,
}

impl PlainDesk {
    pub(crate) fn accepted(&self, s: usize) -> usize {
        self.all.iter().filter(|asked| asked.submitter == s).count()
    }

    pub(crate) fn pending(&self, s: usize) -> usize {
        self.all
            .iter()
            .filter(|asked| asked.submitter == s && !asked.delivered)
            .count()
    }

    pub(crate) fn waiting(&self) -> usize {
        self.all
            .iter()
            .filter(|asked| asked.phase == Phase::Waiting && !asked.withdrawn)
            .count()
    }

    pub(crate) fn refusal(&self, s: usize) -> Option<SubmitRefusal> {
        if self.submitters <= s {
            Some(SubmitRefusal::NoSuchSubmitter)
        } else if self.closed {
            Some(SubmitRefusal::Closed)
        } else if self.pending(s) == self.room {
            Some(SubmitRefusal::Full)
        } else if self.next == u64::MAX {
            Some(SubmitRefusal::Exhausted)
        } else {
            None
        }
    }

    pub(crate) fn submit(&mut self, rt: &impl Abort, s: usize, line: usize) -> u64 {
        let ticket = self.next;
        let asked = Asked {
            submitter: s,
            ticket,
            line,
            phase: Phase::Waiting,
            withdrawn: false,
            delivered: false,
        };
        self.all.push(asked).expect(rt, "memory");
        self.next = ticket.wrapping_add(1);
        ticket
    }

    /// The lowest ticket that waits, which is out then.
    pub(crate) fn take(&mut self) -> Option<u64> {
        let mut lowest = None;
        for asked in &self.all {
            if asked.phase == Phase::Waiting
                && !asked.withdrawn
                && lowest.is_none_or(|ticket| asked.ticket < ticket)
            {
                lowest = Some(asked.ticket);
            }
        }
        for asked in self.all.iter_mut() {
            if Some(asked.ticket) == lowest {
                asked.phase = Phase::Out;
            }
        }
        lowest
    }

    /// Whether a record is out under a ticket with the problem of a line; it comes into another phase then.
    pub(crate) fn bring_back(&mut self, ticket: u64, line: usize, phase: Phase) -> bool {
        let mut known = false;
        for asked in self.all.iter_mut() {
            if asked.ticket == ticket && asked.line == line && asked.phase == Phase::Out {
                asked.phase = phase;
                known = true;
            }
        }
        known
    }

    pub(crate) fn collect(&mut self, s: usize) -> Option<Told> {
        for asked in self.all.iter_mut() {
            if asked.submitter == s && !asked.delivered {
                if asked.phase == Phase::Out {
                    return None;
                }
                if asked.withdrawn {
                    asked.delivered = true;
                    return Some(Told::Notice(asked.ticket));
                }
                if asked.phase == Phase::Waiting {
                    return None;
                }
                asked.delivered = true;
                return Some(Told::Answer(asked.ticket));
            }
        }
        None
    }

    pub(crate) fn withdraw(&mut self, s: usize, n: usize) -> Option<WithdrawRefusal> {
        if self.submitters <= s {
            return Some(WithdrawRefusal::NoSuchSubmitter);
        }
        let mut place = 0usize;
        for asked in self.all.iter_mut() {
            if asked.submitter == s {
                if place == n {
                    if asked.delivered {
                        return Some(WithdrawRefusal::Delivered);
                    }
                    if asked.withdrawn {
                        return Some(WithdrawRefusal::Withdrawn);
                    }
                    asked.withdrawn = true;
                    return None;
                }
                place = place.saturating_add(1);
            }
        }
        Some(WithdrawRefusal::NotAccepted)
    }

    pub(crate) fn line_under(&self, ticket: u64) -> Option<usize> {
        let asked = self.all.iter().find(|asked| asked.ticket == ticket)?;
        Some(asked.line)
    }

    pub(crate) fn is_drained(&self) -> bool {
        self.all.iter().all(|asked| asked.delivered)
    }
}
