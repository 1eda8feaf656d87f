//! At one window: an input is handed in, its reply collected, and the window comes back with that, in a report.

ghost use Rattle.std.specs.Prelude.{◌≡◌, [], OnOk};
ghost use Rattle.text_lines.specs.Lines.{lines_of};
ghost use Rattle.room_ends.specs.Letters.{records};
ghost use Rattle.room_ends.specs.Windows.{letters_sent, collected, SameWindow};
ghost use Rattle.desk_room.specs.inside.Submitters.{HasHandled, Reports};

use crate::serving::signals::{Signals, StopReason, WindowSignals};
use crate::serving::submitters::Submitter;
use chess_moves::Rays;
use mate_answers::Output;
use room_ends::Window;
use std::alloc::Global;
use std::sync::Wait;

/// A window at which an input was handed in, and the reply, where it is whole.
#[derive(Drop)]
pub(crate) struct Report {
    pub(crate) window: Window,
    pub(crate) reply: Option<Output>,
}

/// Says farewell, once the record ring has a place for it.
#[tactic(auto, using(crate::proofs::RingEnds::same_window, crate::proofs::Collecting::window_then))]
fn say_bye<R: Wait>(rt: &R, window: &mut Window, signals: &mut WindowSignals)
    ensures window { SameWindow window.old window.new }
    ensures records { records (letters_sent window.new) ≡ records (letters_sent window.old) }
    ensures collected { collected window.new ≡ collected window.old }
{
    let mut backoff = signals.backoff();
    for _ in rt.forever() {
        if let Ok(()) = window.bye() {
            signals.count();
            signals.end();
            return;
        }
        if signals.reason().is_some() {
            return;
        }
        signals.wait(rt, &mut backoff);
    }
}

/// Has a submitter hand in all of an input and collect each answer.
#[tactic(auto, using(crate::proofs::Collecting::window_then))]
fn drive<R: Wait>(
    rt: &R,
    alloc: Global,
    rays: &Rays,
    submitter: &mut Submitter,
    input: &[u8],
    signals: &mut WindowSignals,
) -> Result<(), StopReason>
    requires none { submitter.old.refused ≡ 0 }
    requires handled { HasHandled [] submitter.old }
    ensures window { SameWindow submitter.old.window submitter.new.window }
    ensures none { OnOk result (submitter.new.pending_replies.items ≡ []) }
    ensures handled { OnOk result (HasHandled (lines_of input.now) submitter.new) }
{
    submitter.hand_in_all(rt, alloc, rays, signals, input)?;
    submitter.collect_all(rt, alloc, rays, signals)
}

/// Hands an input in at a window and collects the reply to it, unless the stop signal comes first.
pub(crate) fn run_window<R: Wait>(
    rt: &R,
    alloc: Global,
    rays: &Rays,
    window: Window,
    input: &[u8],
    signals: &Signals,
) -> Report
    requires sent { letters_sent window ≡ [] }
    requires collected { collected window ≡ [] }
    ensures { Reports window input.now result }
{
    let mut signals = WindowSignals::new(signals, window.number());
    let mut submitter = Submitter::new(alloc, window);
    let ended = drive(rt, alloc, rays, &mut submitter, input, &mut signals);
    let Submitter {
        mut window,
        text,
        refused,
        ..
    } = submitter;
    match ended {
        Ok(()) => {
            say_bye(rt, &mut window, &mut signals);
            Report {
                window,
                reply: Some(Output { text, refused }),
            }
        }
        Err(reason) => {
            signals.stop(reason);
            Report {
                window,
                reply: None,
            }
        }
    }
}
