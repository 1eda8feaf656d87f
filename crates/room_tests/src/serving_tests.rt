//! Inputs served by threads.

use crate::test_rows::same;
use crate::test_scenes::{A, ANSWER_A, ANSWER_B, B};
use chess_moves::Rays;
use chess_problems::Bound;
use desk_room::{Gate, OpenGate, RoomFault, serve};
use mate_answers::solve_input;
use mate_jobs::Ticket;
use mate_search::Memo;
use std::alloc::Global;
use std::process::Abort;
use std::sync::Wait;
use std::sync::atomic::{AtomicBool, AtomicU64, Ordering};
use std::thread;
use std::thread::Threads;

/// An input of these lines, each with a newline.
fn input_of(rt: &impl Abort, alloc: Global, lines: &[&str]) -> Vec<u8> {
    let mut input = Vec::new(alloc);
    for line in lines {
        input.extend_from_slice(line.as_bytes()).expect(rt, line);
        input.push(b'\n').expect(rt, line);
    }
    input
}

/// As many inputs, each of these lines.
pub(crate) fn inputs_of(
    rt: &impl Abort,
    alloc: Global,
    count: usize,
    lines: &[&str],
) -> Vec<Vec<u8>> {
    let mut inputs = Vec::new(alloc);
    for _ in 0..count {
        inputs.push(input_of(rt, alloc, lines)).expect(rt, "memory");
    }
    inputs
}

/// How many of these lines are the replies to refused ones.
fn refused_in(lines: &[&str]) -> usize {
    lines.iter().filter(|line| line.starts_with("# ")).count()
}

/// Refuses where these inputs are not served with replies of these lines, or a refusal isn't counted.
pub(crate) fn check_served<R: Abort + Threads + Wait + Sync, G: Gate>(
    rt: &R,
    alloc: Global,
    inputs: &[Vec<u8>],
    benches: usize,
    gate: &G,
    replies: &[&[&str]],
) {
    let default = Bound::new(3).expect(rt, "bound");
    let outputs = serve(rt, alloc, &Rays::new(), inputs, default, benches, gate);
    let outputs = outputs.expect(rt, "served");
    same(rt, &"outputs", &outputs.len(), &replies.len());
    for (output, lines) in outputs.iter().zip(replies) {
        let wanted = input_of(rt, alloc, lines);
        let found = (output.text.as_slice(), output.refused);
        same(rt, lines, &found, &(wanted.as_slice(), refused_in(lines)));
    }
}

/// Holds ticket 0 until ticket 1 has been asked about. It gives up at last.
#[derive(Drop)]
struct HoldsFirst {
    asked: AtomicBool,
    gave_up: AtomicBool,
}

impl Gate for HoldsFirst {
    ghost use Rattle.std.specs.Prelude.{⊤};

    ghost answers = { λ _ _ _ _. ⊤ };

    fn pass(&self, _bench: usize, ticket: Ticket) -> bool {
        if ticket.0 != 0 {
            self.asked.store(true, Ordering::SeqCst);
            return true;
        }
        for _ in 0..1_000_000u32 {
            if self.asked.load(Ordering::SeqCst) {
                return true;
            }
            thread::yield_now();
        }
        self.gave_up.store(true, Ordering::SeqCst);
        true
    }
}

#[test]
fn benches_work_side_by_side(rt: HostRuntime) {
    let alloc = rt.alloc();
    let gate = HoldsFirst {
        asked: AtomicBool::new(false),
        gave_up: AtomicBool::new(false),
    };
    let inputs = inputs_of(&rt, alloc, 1, &[A, B]);
    check_served(
        &rt,
        alloc,
        inputs.as_slice(),
        2,
        &gate,
        &[&[ANSWER_A, ANSWER_B]],
    );
    same(
        &rt,
        &"gave up",
        &gate.gave_up.load(Ordering::SeqCst),
        &false,
    );
}

/// Hands each job back the first time that it comes. It knows the tickets by their number, which must be below 64.
#[derive(Drop)]
struct HandsBackOnce {
    came: AtomicU64,
    handed_back: AtomicU64,
    passed: AtomicU64,
}

impl Gate for HandsBackOnce {
    ghost use Rattle.std.specs.Prelude.{⊤};

    ghost answers = { λ _ _ _ _. ⊤ };

    fn pass(&self, _bench: usize, ticket: Ticket) -> bool {
        let bit = 1 << (ticket.0 % 64);
        if self.came.fetch_or(bit, Ordering::SeqCst) & bit != 0 {
            self.passed.fetch_add(1, Ordering::SeqCst);
            return true;
        }
        self.handed_back.fetch_add(1, Ordering::SeqCst);
        false
    }
}

#[test]
fn jobs_that_are_handed_back_are_solved_later(rt: HostRuntime) {
    let alloc = rt.alloc();
    let gate = HandsBackOnce {
        came: AtomicU64::new(0),
        handed_back: AtomicU64::new(0),
        passed: AtomicU64::new(0),
    };
    let inputs = inputs_of(&rt, alloc, 1, &[A, A, A, A, A]);
    check_served(
        &rt,
        alloc,
        inputs.as_slice(),
        1,
        &gate,
        &[&[ANSWER_A, ANSWER_A, ANSWER_A, ANSWER_A, ANSWER_A]],
    );
    let found = (
        gate.handed_back.load(Ordering::SeqCst),
        gate.passed.load(Ordering::SeqCst),
    );
    same(&rt, &"handed back and passed", &found, &(5, 5));
}

#[test]
fn each_input_has_its_output(rt: HostRuntime) {
    let alloc = rt.alloc();
    let mut inputs = inputs_of(&rt, alloc, 1, &[A]);
    inputs
        .push(input_of(&rt, alloc, &[B]))
        .expect(&rt, "memory");
    check_served(
        &rt,
        alloc,
        inputs.as_slice(),
        2,
        &OpenGate,
        &[&[ANSWER_A], &[ANSWER_B]],
    );
}

#[test]
fn refusals_stand_where_their_lines_stand(rt: HostRuntime) {
    let alloc = rt.alloc();
    let lines = ["?", A, "  ", B, "8/8/8/8/8/8/8/8 w - -", "?", A, "\r"];
    let inputs = inputs_of(&rt, alloc, 3, &lines);
    let reply: [&str; 6] = [
        "# line 1: Fen FieldCount",
        ANSWER_A,
        ANSWER_B,
        "# line 5: Fen BadKings",
        "# line 6: Fen FieldCount",
        ANSWER_A,
    ];
    check_served(
        &rt,
        alloc,
        inputs.as_slice(),
        3,
        &OpenGate,
        &[&reply, &reply, &reply],
    );
}

#[test]
fn more_records_than_rings_have_places_are_served(rt: HostRuntime) {
    let alloc = rt.alloc();
    let mut lines = Vec::new(alloc);
    for number in 0..100usize {
        let line = match (number % 3, number % 7) {
            (1, _) => B,
            (_, 2) => "",
            _ => A,
        };
        lines.push(line).expect(&rt, "memory");
    }
    let inputs = inputs_of(&rt, alloc, 4, lines.as_slice());
    let rays = Rays::new();
    let default = Bound::new(3).expect(&rt, "bound");
    let mut memo = Memo::new(alloc, 16).expect(&rt, "memo");
    let outputs = serve(&rt, alloc, &rays, inputs.as_slice(), default, 3, &OpenGate);
    let outputs = outputs.expect(&rt, "served");
    same(&rt, &"outputs", &outputs.len(), &4);
    for (output, input) in outputs.iter().zip(inputs.as_slice()) {
        let wanted = solve_input(alloc, &rays, input.as_slice(), default, &mut memo);
        let wanted = wanted.expect(&rt, "wanted");
        let found = (output.text.as_slice(), output.refused);
        same(
            &rt,
            &"output",
            &found,
            &(wanted.text.as_slice(), wanted.refused),
        );
    }
}

#[test]
fn as_many_empty_inputs_as_there_may_be_are_served(rt: HostRuntime) {
    let alloc = rt.alloc();
    let inputs = inputs_of(&rt, alloc, 16, &[]);
    let replies: [&[&str]; 16] = [&[]; 16];
    check_served(&rt, alloc, inputs.as_slice(), 16, &OpenGate, &replies);
}

/// Refuses where so many inputs on so many benches are not refused by this name.
fn check_fault<R: Abort + Threads + Wait + Sync>(
    rt: &R,
    alloc: Global,
    (count, benches): (usize, usize),
    name: &str,
) {
    let inputs = inputs_of(rt, alloc, count, &[A]);
    let default = Bound::new(3).expect(rt, "bound");
    let rays = Rays::new();
    let outputs = serve(
        rt,
        alloc,
        &rays,
        inputs.as_slice(),
        default,
        benches,
        &OpenGate,
    );
    match outputs {
        Ok(_) => panic!(rt; "it was served"),
        Err(fault) => same(rt, &(count, benches), &fault.code(), &name),
    }
}

#[test]
fn too_few_or_too_many_ends_are_refused(rt: HostRuntime) {
    let alloc = rt.alloc();
    check_fault(&rt, alloc, (0, 1), "BadWindows");
    check_fault(&rt, alloc, (17, 1), "BadWindows");
    check_fault(&rt, alloc, (0, 0), "BadWindows");
    check_fault(&rt, alloc, (1, 0), "BadBenches");
    check_fault(&rt, alloc, (16, 17), "BadBenches");
    same(&rt, &"code", &RoomFault::NoThread.code(), &"NoThread");
}
