//! A submitter hands one input in at a window, and writes down the reply.

ghost use Rattle.std.specs.Prelude.{◌≡◌, ◌++◌, false, IfOk};
ghost use Rattle.mate_answers.specs.InputReplies.{answer_line};
ghost use Rattle.room_ends.specs.Windows.{is_gone};

use crate::serving::signals::{StopReason, WindowSignals};
use chess_moves::Rays;
use chess_notation::{EpdFault, is_blank};
use mate_answers::{Output, fault_text, first_line, replies_go_on, without_cr};
use mate_jobs::{Answer, Delivery};
use room_ends::{Window, WindowFault};
use std::alloc::Global;
use std::collections::VecDeque;
use std::sync::Wait;

/// What hands one input in at a window, line by line, and writes down the reply.
#[derive(Drop)]
pub(crate) struct Submitter {
    pub(crate) window: Window,
    // The first part of the reply.
    pub(crate) text: Vec<u8>,
    // For each record that was sent and is not answered yet, in order, the replies to the lines behind it up to the next record.
    pub(crate) pending_replies: VecDeque<Vec<u8>>,
    // How many lines are refused.
    pub(crate) refused: usize,
    ghost here: { is_gone window ≡ false },
}

/// A line of an input, and its number in it, from 1.
#[derive(Clone, Copy)]
struct NumberedLine<'a> {
    number: usize,
    text: &'a [u8],
}

/// Writes an answer, and the replies that stand behind it.
fn write_answer(
    alloc: Global,
    rays: &Rays,
    answer: &Answer,
    replies: &[u8],
    text: &mut Vec<u8>,
) -> Result<(), StopReason>
    ensures { IfOk result (λ _. text.new.items ≡ text.old.items ++ (answer_line answer.now.asked ++ replies.now)) }
{
    let answered = answer.text(alloc, rays)?;
    text.extend_from_slice(answered.as_bytes())?;
    text.extend_from_slice(b"\n")?;
    text.extend_from_slice(replies)?;
    Ok(())
}

impl Submitter {
    ghost use Rattle.std.specs.Prelude.{◌≡◌, ◌⊎◌, ◌<◌, ◌≤◌, ◌+◌, ◌-◌, ◌^◌, ℕ, List, [], ◌∷◌, ◌++◌, OnOk, length, true, false};
    ghost use Rattle.chess_notation.specs.Words.{is_blank as is_blank_text};
    ghost use Rattle.text_lines.specs.Lines.{without_cr as text_without_cr, lines_of};
    ghost use Rattle.mate_answers.specs.InputReplies.{IsLineReply};
    ghost use Rattle.room_ends.specs.Windows.{letters_sent, collected, deliveries_known, places_known, default_of, SameWindow};
    ghost use Rattle.desk_room.specs.inside.Submitters.{Collects, HasHandled};

    /// A submitter at a window by which nothing went yet.
    pub(crate) fn new(alloc: Global, window: Window) -> Submitter
        requires sent { letters_sent window ≡ [] }
        requires collected { collected window ≡ [] }
        ensures window { result.window ≡ window }
        ensures none { result.refused ≡ 0 }
        ensures handled { HasHandled [] result }
    {
        Submitter {
            window,
            text: Vec::new(alloc),
            pending_replies: VecDeque::new(alloc),
            refused: 0,
        }
    }

    /// Takes the next answer, which is awaited and has come, and writes it.
    fn take_answer(&mut self, alloc: Global, rays: &Rays) -> Result<(), StopReason>
        requires awaited { 0 < length self.old.pending_replies.items }
        requires known { 0 < length (deliveries_known self.old.window) }
        ensures window { SameWindow self.old.window self.new.window }
        ensures took { OnOk result (length self.new.pending_replies.items + 1 ≡ length self.old.pending_replies.items) }
        ensures collects { OnOk result (Collects self.old self.new) }
    {
        let Delivery::Answer(answer) = self.window.first_known() else {
            // No submitter withdraws, so that no notice comes.
            return Err(StopReason::NoThread);
        };
        let Some(replies) = self.pending_replies.pop_front() else {
            unreachable!()
        };
        write_answer(alloc, rays, answer, replies.as_slice(), &mut self.text)?;
        self.window.collect_seen();
        Ok(())
    }

    /// Whether an answer is awaited and has come. Nothing large is touched, so that looking often costs little.
    #[tactic(auto, using(crate::proofs::RingEnds::same_window, crate::proofs::Collecting::collects_same))]
    fn has_answer(&mut self) -> bool
        ensures window { SameWindow self.old.window self.new.window }
        ensures awaited { result ≡ true → 0 < length self.new.pending_replies.items }
        ensures known { result ≡ true → 0 < length (deliveries_known self.new.window) }
        ensures none { result ≡ false → (self.old.pending_replies.items ≡ []) ⊎ (deliveries_known self.new.window ≡ []) }
        ensures same { self.new.pending_replies ≡ self.old.pending_replies }
        ensures collects { Collects self.old self.new }
    {
        if self.pending_replies.is_empty() {
            return false;
        }
        self.window.has_delivery()
    }

    /// Takes the next answer, where one is awaited and has come. It answers whether it did.
    #[tactic(auto, using(crate::proofs::Collecting::window_then))]
    fn collect(&mut self, alloc: Global, rays: &Rays) -> Result<bool, StopReason>
        ensures window { SameWindow self.old.window self.new.window }
        ensures took { IfOk result (λ took. took ≡ true
            → length self.new.pending_replies.items + 1 ≡ length self.old.pending_replies.items) }
        ensures none { IfOk result (λ took. took ≡ false
            → (self.old.pending_replies.items ≡ []) ⊎ (deliveries_known self.new.window ≡ [])) }
        ensures collects { OnOk result (Collects self.old self.new) }
    {
        if !self.has_answer() {
            return Ok(false);
        }
        self.take_answer(alloc, rays)?;
        Ok(true)
    }

    /// Whether the record ring has a place.
    fn has_place(&mut self) -> bool
        ensures place { result ≡ true → 0 < places_known self.new.window }
        ensures no_place { result ≡ false → places_known self.new.window ≡ 0 }
        ensures collects { Collects self.old self.new }
    {
        self.window.has_place()
    }

    /// Takes answers as they come, until the record ring has a place.
    #[tactic(auto, using(crate::proofs::Collecting::collects_same, crate::proofs::Collecting::window_then))]
    fn make_room<R: Wait>(
        &mut self,
        rt: &R,
        alloc: Global,
        rays: &Rays,
        signals: &mut WindowSignals,
    ) -> Result<(), StopReason>
        ensures window { SameWindow self.old.window self.new.window }
        ensures place { OnOk result (0 < places_known self.new.window) }
        ensures collects { OnOk result (Collects self.old self.new) }
    {
        let mut backoff = signals.backoff();
        for _ in rt.forever() {
            if let Some(reason) = signals.reason() {
                return Err(reason);
            }
            if self.collect(alloc, rays)? {
                signals.count();
                backoff.reset();
            } else if self.has_place() {
                backoff.reset();
                return Ok(());
            } else {
                signals.wait(rt, &mut backoff);
            }
        }
        unreachable!()
    }

    /// Takes answers as they come, until none is awaited.
    #[tactic(auto, using(crate::proofs::Collecting::collects_same, crate::proofs::Collecting::window_then))]
    pub(crate) fn collect_all<R: Wait>(
        &mut self,
        rt: &R,
        alloc: Global,
        rays: &Rays,
        signals: &mut WindowSignals,
    ) -> Result<(), StopReason>
        ensures window { SameWindow self.old.window self.new.window }
        ensures none { OnOk result (self.new.pending_replies.items ≡ []) }
        ensures collects { OnOk result (Collects self.old self.new) }
    {
        let mut backoff = signals.backoff();
        for _ in rt.forever() {
            if self.pending_replies.is_empty() {
                return Ok(());
            }
            if let Some(reason) = signals.reason() {
                return Err(reason);
            }
            if self.collect(alloc, rays)? {
                signals.count();
                backoff.reset();
            } else {
                signals.wait(rt, &mut backoff);
            }
        }
        unreachable!()
    }

    /// Writes that a line is refused, behind the answers that are awaited.
    fn refuse(&mut self, refusal: &[u8]) -> Result<(), StopReason>
        requires { self.old.refused < 2 ^ 64 - 1 }
        ensures window { self.new.window ≡ self.old.window }
        ensures refused { self.new.refused ≤ self.old.refused + 1 }
        ensures handled { OnOk result ((lines : List (List ℕ)) (line : List ℕ)
            → IsLineReply (default_of self.old.window) (length lines + 1) (text_without_cr line) refusal.now 1
            → HasHandled lines self.old → HasHandled (lines ++ line ∷ []) self.new) }
    {
        // That a line's reply follows those to the lines before it is this law.
        replies_go_on();
        self.refused += 1;
        let Some(mut replies) = self.pending_replies.pop_back() else {
            self.text.extend_from_slice(refusal)?;
            return Ok(());
        };
        replies.extend_from_slice(refusal)?;
        if self.pending_replies.push_back(replies).is_err() {
            return Err(StopReason::NoMemory);
        }
        Ok(())
    }

    /// Sends the record that a line says, or writes why the line says none.
    fn send(
        &mut self,
        alloc: Global,
        rays: &Rays,
        number: usize,
        line: &[u8],
    ) -> Result<(), StopReason>
        requires place { 0 < places_known self.old.window }
        requires few { self.old.refused < number }
        ensures window { SameWindow self.old.window self.new.window }
        ensures few { self.new.refused ≤ self.old.refused + 1 }
        ensures handled { OnOk result ((lines : List (List ℕ)) (whole : List ℕ) → length lines + 1 ≡ number
            → text_without_cr whole ≡ line.now → is_blank_text line.now ≡ false → HasHandled lines self.old
            → HasHandled (lines ++ whole ∷ []) self.new) }
    {
        // That a line's reply follows those to the lines before it is this law.
        replies_go_on();
        match self.window.submit(alloc, rays, line) {
            Ok(()) => {
                if self.pending_replies.push_back(Vec::new(alloc)).is_err() {
                    return Err(StopReason::NoMemory);
                }
                Ok(())
            }
            Err(WindowFault::BadRecord(fault)) => {
                if fault == EpdFault::NoMemory {
                    return Err(StopReason::NoMemory);
                }
                let refusal = fault_text(alloc, number, fault)?;
                self.refuse(refusal.as_slice())
            }
            // No input has so many records.
            Err(WindowFault::Exhausted) => Err(StopReason::NoMemory),
            Err(WindowFault::Gone) => unreachable!(),
            Err(WindowFault::Busy) => unreachable!(),
        }
    }

    /// Hands in a line.
    #[tactic(auto, using(crate::proofs::Collecting::window_then))]
    fn hand_in<R: Wait>(
        &mut self,
        rt: &R,
        alloc: Global,
        rays: &Rays,
        signals: &mut WindowSignals,
        line: &NumberedLine<'_>,
    ) -> Result<(), StopReason>
        requires few { self.old.refused < line.now.number }
        ensures window { SameWindow self.old.window self.new.window }
        ensures few { OnOk result (self.new.refused ≤ self.old.refused + 1) }
        ensures handled { OnOk result ((lines : List (List ℕ)) → length lines + 1 ≡ line.now.number → HasHandled lines self.old
            → HasHandled (lines ++ line.now.text.now ∷ []) self.new) }
    {
        // That a line's reply follows those to the lines before it is this law.
        replies_go_on();
        let text = without_cr(line.text);
        if is_blank(text) {
            return Ok(());
        }
        self.make_room(rt, alloc, rays, signals)?;
        let sent = self.send(alloc, rays, line.number, text);
        signals.count();
        sent
    }

    /// Hands in all lines of an input.
    #[tactic(auto, using(crate::proofs::RingEnds::same_window, crate::proofs::Collecting::window_then))]
    pub(crate) fn hand_in_all<R: Wait>(
        &mut self,
        rt: &R,
        alloc: Global,
        rays: &Rays,
        signals: &mut WindowSignals,
        input: &[u8],
    ) -> Result<(), StopReason>
        requires none { self.old.refused ≡ 0 }
        requires handled { HasHandled [] self.old }
        ensures window { SameWindow self.old.window self.new.window }
        ensures handled { OnOk result (HasHandled (lines_of input.now) self.new) }
    {
        let mut rest = input;
        for number in 1..usize::MAX {
            match first_line(rest) {
                Some((text, more)) => {
                    self.hand_in(rt, alloc, rays, signals, &NumberedLine { number, text })?;
                    rest = more;
                }
                None => {
                    let last = NumberedLine { number, text: rest };
                    return self.hand_in(rt, alloc, rays, signals, &last);
                }
            }
        }
        Err(StopReason::NoMemory)
    }
}
