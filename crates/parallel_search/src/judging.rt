//! First moves, judged by workers on threads of their own.

ghost use Rattle.std.specs.Prelude.{◌≡◌, ◌<◌, ◌≤◌, ℕ, true, All, length, slice_index_or};
ghost use Rattle.chess_board.specs.Legality.{is_legal};
ghost use Rattle.mate_search.specs.RootResults.{AreTrueIn};
ghost use Rattle.parallel_search.specs.inside.RootResults.{AreAllTrueIn};

use crate::turns::Turns;
use crate::workers::{Question, Worker};
use mate_search::{Guide, Halt};
use std::thread;
use std::thread::Threads;

/// Has each worker judge moves on a thread of its own, one of them on this; where a thread is refused, those that run judge its moves too.
fn judge_each<R: Threads + Sync, H: Halt + Sync>(
    rt: &R,
    guide: &Guide<H>,
    asked: &Question,
    turns: &Turns,
    workers: &mut [Worker],
)
    requires few { length asked.now.first.now ≤ 1024 }
    requires legal { All (λ m. is_legal asked.now.position.now m ≡ true) asked.now.first.now }
    ensures each { (n : ℕ) (d : _) → n < length workers.old
        → AreTrueIn asked.now.position.now (slice_index_or workers.new n d).found.items }
    ensures as_many { length workers.new ≡ length workers.old }
{
    let threads = workers.len().max(1);
    thread::for_each_mut(
        rt,
        workers,
        threads,
        &|_, worker| worker.judge(guide, asked, turns),
    );
}

/// The same, in an order of the moves' places.
pub(crate) fn judge_all<R: Threads + Sync, H: Halt + Sync>(
    rt: &R,
    guide: &Guide<H>,
    asked: &Question,
    order: &[usize],
    workers: &mut [Worker],
)
    requires few { length asked.now.first.now ≤ 1024 }
    requires legal { All (λ m. is_legal asked.now.position.now m ≡ true) asked.now.first.now }
    ensures { AreAllTrueIn asked.now.position.now workers.new }
{
    judge_each(rt, guide, asked, &Turns::new(order), workers);
}
