//! What the keeper's thread does.

ghost use Rattle.desk_room.specs.Keepers.{SameRoom};

use crate::keepers::Keeper;
use crate::serving::backoff::Backoff;
use crate::serving::signals::{Signals, StopReason};
use crate::turns::Turn;
use std::sync::Wait;

/// Whether a turn found nothing to do.
fn is_idle(turn: &Turn) -> bool {
    turn.accepted == 0
        && turn.byes == 0
        && turn.ordered == 0
        && turn.solved == 0
        && turn.returned == 0
        && turn.delivered == 0
}

/// How often the keeper looks again at once, each time into all rings.
const LOOKS: u32 = 20;

/// Of how many letters and deliveries the windows are told at once.
const TOGETHER: usize = 16;

/// What turns did since the ends were told of it.
#[derive(Drop)]
struct Untold {
    backs: usize,
    letters_and_deliveries: usize,
}

impl Untold {
    /// Nothing.
    fn new() -> Untold {
        Untold {
            backs: 0,
            letters_and_deliveries: 0,
        }
    }

    /// Adds what a turn did.
    fn add(&mut self, turn: &Turn) {
        self.backs = self
            .backs
            .saturating_add(turn.solved)
            .saturating_add(turn.returned);
        self.letters_and_deliveries = self
            .letters_and_deliveries
            .saturating_add(turn.accepted)
            .saturating_add(turn.delivered);
    }

    /// Wakes the ends that it may concern.
    fn tell(&mut self, signals: &Signals) {
        if self.backs != 0 {
            signals.wake_for_places();
        }
        if self.letters_and_deliveries != 0 {
            signals.wake_windows();
        }
        self.backs = 0;
        self.letters_and_deliveries = 0;
    }
}

/// Makes turns until so many windows have said farewell, or the stop signal comes. Then it sends the benches home.
#[tactic(auto, using(crate::proofs::Staying::room_same, crate::proofs::Staying::room_then))]
pub(crate) fn run_keeper<R: Wait>(
    rt: &R,
    mut keeper: Keeper,
    windows: usize,
    signals: &Signals,
) -> Keeper
    ensures { SameRoom keeper result }
{
    let mut backoff = Backoff::new(signals.keeper(), LOOKS);
    let mut untold = Untold::new();
    for _ in rt.forever() {
        let turn = keeper.turn();
        if windows <= keeper.byes() || signals.reason().is_some() {
            break;
        }
        if turn.ordered != 0 {
            signals.wake_for_orders(turn.ordered);
        }
        untold.add(&turn);
        if is_idle(&turn) {
            untold.tell(signals);
            backoff.wait(rt);
        } else {
            if untold.letters_and_deliveries >= TOGETHER {
                untold.tell(signals);
            }
            backoff.reset();
        }
    }
    keeper.close();
    if keeper.send_home() != 0 {
        // Benches that are owed a stop leave at the stop signal.
        signals.stop(StopReason::NoMemory);
    }
    signals.wake_all();
    keeper
}
