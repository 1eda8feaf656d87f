//! A window on a thread of its own, which sends records and looks at what it collects for them.

ghost use Rattle.std.specs.Prelude.{◌≡◌};
ghost use Rattle.room_ends.specs.Windows.{SameWindow};

use crate::test_manners::{Manner, Pace, is_third};
use crate::test_scenes::{A, ANSWER_A, ANSWER_B, B};
use chess_moves::Rays;
use desk_room::Window;
use mate_desk::Delivery;
use mate_jobs::Answer;
use std::alloc::Global;
use std::snapshot::Snapshot;
use std::sync::Wait;
use std::thread::Promise;

/// How many records a window sends, A and B by turns.
pub(crate) const RECORDS: usize = 20;

/// A window at work.
#[derive(Drop)]
pub(crate) struct Submitter {
    pub(crate) window: Window,
    manner: Manner,
    pace: Pace,
    // The records that it has sent, and the one whose withdrawal is still to be sent.
    sent: usize,
    to_withdraw: Option<u64>,
    collected: usize,
    // The number of the first delivery that did not come as it should.
    pub(crate) wrong: Option<usize>,
}

/// The window comes back with the ends that it had.
#[derive(Drop)]
pub(crate) struct SameEnds(pub(crate) Snapshot<Window>);

impl Promise<Submitter> for SameEnds {
    ghost kept_by = { λ p submitter. SameWindow p.0.value submitter.window };
}

fn is_text(alloc: Global, rays: &Rays, answer: &Answer, wanted: &str) -> bool {
    match answer.text(alloc, rays) {
        Ok(text) => text.as_str() == wanted,
        Err(_) => false,
    }
}

/// Whether what was collected is for the record of this number: its answer, or its notice where it was withdrawn.
fn is_for(alloc: Global, rays: &Rays, delivery: Delivery, number: usize, manner: Manner) -> bool {
    let is_a = number % 2 == 0;
    match delivery {
        Delivery::Answer(answer) => {
            is_text(alloc, rays, &answer, if is_a { ANSWER_A } else { ANSWER_B })
        }
        Delivery::Notice(_, record) => {
            manner == Manner::Withdraws
                && is_third(number)
                && record.bound.get() == if is_a { 1 } else { 2 }
        }
    }
}

impl Submitter {
    pub(crate) fn new(window: Window, manner: Manner, pace: Pace) -> Submitter
        ensures { result.window ≡ window }
    {
        Submitter {
            window,
            manner,
            pace,
            sent: 0,
            to_withdraw: None,
            collected: 0,
            wrong: None,
        }
    }

    /// Sends the withdrawal that is still to be sent, else the next record, where the ring has a place.
    fn send(&mut self, alloc: Global, rays: &Rays)
        ensures { SameWindow self.old.window self.new.window }
    {
        if let Some(number) = self.to_withdraw {
            if self.window.withdraw(number).is_ok() {
                self.to_withdraw = None;
            }
            return;
        }
        if RECORDS <= self.sent {
            return;
        }
        let line = if self.sent % 2 == 0 { A } else { B };
        if self.window.submit(alloc, rays, line.as_bytes()).is_ok() {
            if self.manner == Manner::Withdraws && is_third(self.sent) {
                self.to_withdraw = Some(self.sent as u64);
            }
            self.sent += 1;
        }
    }

    /// Collects what there is, and says whether more is to come.
    fn collect(&mut self, alloc: Global, rays: &Rays) -> bool
        ensures { SameWindow self.old.window self.new.window }
    {
        if RECORDS <= self.collected {
            return false;
        }
        if let Some(delivery) = self.window.collect() {
            let is_right = is_for(alloc, rays, delivery, self.collected, self.manner);
            if !is_right && self.wrong.is_none() {
                self.wrong = Some(self.collected);
            }
            self.collected += 1;
        }
        true
    }

    /// Sends the records and collects what is given for them, then says bye.
    pub(crate) fn hand_in<R: Wait>(mut self, rt: &R, alloc: Global) -> Submitter
        ensures { SameWindow self.window result.window }
    {
        let rays = Rays::new();
        for _ in rt.forever() {
            self.send(alloc, &rays);
            if !self.collect(alloc, &rays) {
                break;
            }
            self.pace.go_on(rt);
        }
        for _ in rt.forever() {
            if self.window.bye().is_ok() {
                break;
            }
            self.pace.go_on(rt);
        }
        self
    }
}
