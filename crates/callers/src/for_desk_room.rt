//! Callers of `desk_room`.

ghost use Rattle.std.specs.Prelude.{◌≡◌, ◌↔◌, ◌⊎◌, ◌<◌, [], ◌∷◌, ◌++◌, length, map, Err, IfOk, IfSome};
ghost use Rattle.chess_notation.specs.Records.{RecordValue, problem_of};
ghost use Rattle.desk_room.specs.Keepers.{IsOf};
ghost use Rattle.desk_room.specs.Serving.{AreReplies};
ghost use Rattle.mate_search.specs.inside.Truth.{truth};
ghost use Rattle.room_ends.specs.WindowFaults.{SaysOnly};
ghost use Rattle.room_ends.specs.Windows.{collected, default_of, letters_sent};
ghost use Rattle.room_ends.specs.declared.letters.Letter.TheVariants as letter;
ghost use Rattle.desk_room.specs.declared.rooms.RoomFault.TheVariants as fault;

use chess_moves::Rays;
use chess_problems::Bound;
use desk_room::{Back, Bench, Keeper, OpenGate, Room, RoomFault, Taken, Window, open_room, serve};
use mate_answers::Output;
use mate_desk::Delivery;
use mate_jobs::Answer;
use mate_search::Memo;
use std::alloc::Global;
use std::sync::Wait;
use std::thread::Threads;

/// The replies to 1 to 16 inputs, by four benches.
pub fn on_threads<R: Threads + Wait + Sync>(
    rt: &R,
    alloc: Global,
    inputs: &[Vec<u8>],
    default: Bound,
) -> Result<Vec<Output>, RoomFault>
    ensures replies { IfOk result (λ outputs. AreReplies default (map (λ input. input.items) inputs.now) outputs.items) }
    ensures bad_windows { (result ≡ Err fault.BadWindows) ↔ ((length inputs.now ≡ 0) ⊎ (16 < length inputs.now)) }
{
    serve(rt, alloc, &Rays::new(), inputs, default, 4, &OpenGate)
}

/// One round of a room whose ends are all on this thread: what the window collects once a line was sent; none where something is
/// refused, or not yet there.
pub fn one_round(
    alloc: Global,
    rays: &Rays,
    line: &[u8],
    window: &mut Window,
    keeper: &mut Keeper,
    bench: &mut Bench,
) -> Option<Delivery>
    ensures collected { IfSome result (λ d. collected window.new ≡ collected window.old ++ d ∷ []) }
    ensures sent { IfSome result (λ _. (r : RecordValue) × SaysOnly line.now (default_of window.old) r
        × (letters_sent window.new ≡ letters_sent window.old ++ letter.Record r ∷ [])) }
    ensures of { IfSome result (λ _. IsOf window.old keeper.old → IsOf window.new keeper.new) }
{
    let Ok(()) = window.submit(alloc, rays, line) else {
        return None;
    };
    keeper.turn();
    if let Taken::Job(job) = bench.take() {
        let mut memo = Memo::new(alloc, 16).ok()?;
        bench.back(Back::Solved(job.solve(rays, &mut memo))).ok()?;
    }
    keeper.turn();
    window.collect()
}

/// The ends of a room of one window and one bench, with rings of four places.
fn small_room(alloc: Global, default: Bound) -> Option<(Keeper, Window, Bench)>
    ensures of { IfSome result (λ ends. IsOf ends.1 ends.0) }
    ensures sent { IfSome result (λ ends. letters_sent ends.1 ≡ []) }
    ensures collected { IfSome result (λ ends. collected ends.1 ≡ []) }
    ensures default { IfSome result (λ ends. default_of ends.1 ≡ default) }
{
    let Ok(
        Room {
            keeper,
            mut windows,
            mut benches,
        },
    ) = open_room(alloc, 1, 1, 4, default)
    else {
        return None;
    };
    let Some(window) = windows.pop() else {
        unreachable!()
    };
    let Some(bench) = benches.pop() else {
        unreachable!()
    };
    Some((keeper, window, bench))
}

/// One line in a room of its own, from its opening to its end, all on this thread: the answer that was collected is the true one of the one
/// record that the line says, as window and keeper find when they settle. None where something is refused, or not yet there.
pub fn ask_once(alloc: Global, rays: &Rays, line: &[u8], default: Bound) -> Option<Answer>
    ensures says { IfSome result (λ answer. SaysOnly line.now default answer.asked) }
    ensures right { IfSome result (λ answer. answer.outcome ≡ truth (problem_of answer.asked)) }
{
    let (mut keeper, mut window, mut bench) = small_room(alloc, default)?;
    let found = one_round(alloc, rays, line, &mut window, &mut keeper, &mut bench)?;
    let Ok(()) = window.bye() else {
        return None;
    };
    keeper.close();
    keeper.turn();
    keeper.settle(&mut window);
    let Delivery::Answer(answer) = found else {
        return None;
    };
    // That its outcome is right is this call's clause.
    answer.outcome();
    Some(answer)
}
