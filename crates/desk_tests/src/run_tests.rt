//! Runs, told with their replies as texts.

use crate::row_tests::{
    A, AFTER_CLOSE, ANSWER_A, Call, IN_ORDER, OUT_AGAIN, TWO_SUBMITTERS, bound_of, memo_of, same,
};
use chess_moves::Rays;
use mate_desk::{Reply, RunFault, Step, reply_text, run};
use std::alloc::Global;
use std::process::Abort;

/// The step that is a call of a desk.
fn step_of(rt: &impl Abort, alloc: Global, call: Call) -> Step {
    match call {
        Call::Submit(s, line) => {
            Step::Submit(s, Vec::from_slice(alloc, line.as_bytes()).expect(rt, line))
        }
        Call::Take => Step::Take,
        Call::Finish(i) => Step::Finish(i),
        Call::HandBack(i) => Step::HandBack(i),
        Call::Withdraw(s, n) => Step::Withdraw(s, n),
        Call::Collect(s) => Step::Collect(s),
        Call::Close => Step::Close,
        Call::Drained => Step::Drained,
    }
}

/// What such steps are answered, at a desk of so many submitters with this room each.
fn replies_to(
    rt: &impl Abort,
    alloc: Global,
    (submitters, room): (usize, usize),
    calls: &[(Call, &str)],
) -> Result<Vec<Reply>, RunFault> {
    let mut steps = Vec::new(alloc);
    for (call, _) in calls {
        steps.push(step_of(rt, alloc, *call)).expect(rt, "memory");
    }
    run(
        alloc,
        &Rays::new(),
        submitters,
        room,
        bound_of(rt, 3),
        steps.as_slice(),
        &mut memo_of(rt, alloc),
    )
}

/// Refuses where a run of these steps is answered otherwise.
pub(crate) fn check_run(
    rt: &impl Abort,
    alloc: Global,
    size: (usize, usize),
    calls: &[(Call, &str)],
) {
    let rays = Rays::new();
    let replies = replies_to(rt, alloc, size, calls).expect(rt, "run");
    same(rt, &"replies", &replies.len(), &calls.len());
    for (number, (reply, (_, wanted))) in replies.iter().zip(calls).enumerate() {
        let text = reply_text(alloc, &rays, reply).expect(rt, "memory");
        same(rt, &number, &text.as_str(), wanted);
    }
}

#[test]
fn answers_go_back_in_order_of_submission(rt: HostRuntime) {
    check_run(&rt, rt.alloc(), (1, 2), &IN_ORDER);
}

#[test]
fn a_job_handed_back_is_taken_again(rt: HostRuntime) {
    check_run(&rt, rt.alloc(), (1, 2), &OUT_AGAIN);
}

#[test]
fn nothing_is_accepted_after_close(rt: HostRuntime) {
    check_run(&rt, rt.alloc(), (1, 1), &AFTER_CLOSE);
}

#[test]
fn full_unknown_and_nothing_to_take(rt: HostRuntime) {
    check_run(&rt, rt.alloc(), (2, 1), &TWO_SUBMITTERS);
}

#[test]
fn faulty_lines_are_replies(rt: HostRuntime) {
    static CALLS: [(Call, &str); 9] = [
        (Call::Submit(0, ""), "refused Fen FieldCount"),
        (
            Call::Submit(7, "8/8/8/8/8/8/8/K7 w - - dm 1;"),
            "refused Fen BadKings",
        ),
        (
            Call::Submit(0, "6k1/5ppp/8/8/8/8/8/R3K3 w Q - dm 16;"),
            "refused BoundTooLarge",
        ),
        (Call::Submit(0, "6k1/5ppp/8/8/8/8/8/R3K3 w Q -"), "ticket 0"),
        (Call::HandBack(0), "no job"),
        (Call::Take, "job 0"),
        (Call::Finish(1), "no job"),
        (Call::Finish(0), "done 0"),
        (
            Call::Collect(0),
            "6k1/5ppp/8/8/8/8/8/R3K3 w Q - bm Ra8#; dm 1; pv Ra8#;",
        ),
    ];
    check_run(&rt, rt.alloc(), (1, 1), &CALLS);
}

#[test]
fn no_desk_no_steps(rt: HostRuntime) {
    static ROWS: [((usize, usize), RunFault); 4] = [
        ((0, 1), RunFault::BadSubmitters),
        ((17, 0), RunFault::BadSubmitters),
        ((1, 0), RunFault::BadRoom),
        ((16, 65), RunFault::BadRoom),
    ];
    for (size, fault) in &ROWS {
        let refused = replies_to(&rt, rt.alloc(), *size, &[(Call::Drained, "")]);
        same(&rt, size, &refused.err(), &Some(*fault));
    }
    check_run(&rt, rt.alloc(), (16, 64), &[]);
}

#[test]
fn an_answer_is_handed_out_as_it_is_held(rt: HostRuntime) {
    static CALLS: [(Call, &str); 4] = [
        (Call::Submit(0, A), "ticket 0"),
        (Call::Take, "job 0"),
        (Call::Finish(0), "done 0"),
        (Call::Collect(0), ANSWER_A),
    ];
    let replies = replies_to(&rt, rt.alloc(), (1, 1), &CALLS).expect(&rt, "run");
    match replies.get(3) {
        Some(Reply::Answer(held)) => {
            let text = held
                .answer()
                .text(rt.alloc(), &Rays::new())
                .expect(&rt, "memory");
            same(&rt, &"held", &text.as_str(), &ANSWER_A);
        }
        _ => panic!(rt; "no answer"),
    }
}
