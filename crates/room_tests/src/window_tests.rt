//! Calls of a window, told with the replies.

use crate::test_rows::same;
use crate::test_scenes::{A, ANSWER_A, ANSWER_B, B, Call, check_room};
use chess_notation::EpdFault;
use desk_room::{ByeFault, WindowFault, WithdrawFault};
use std::alloc::Global;
use std::fmt::Display;
use std::process::Abort;
use std::test::Fail;

/// A line that asks for mate within the default bound.
const C: &str = "7k/8/5K2/8/8/8/8/R7 w - -";

/// Lines that say no record.
const WITHOUT_SIDE: &str = "7k/8/5K2/8/8/8/8/R7";

const IN_SIXTEEN: &str = "7k/8/5K2/8/8/8/8/R7 w - - dm 16;";

#[test]
fn each_kind_of_letter_takes_a_place(rt: HostRuntime) -> Result<(), Fail> {
    static CALLS: [(Call, &str); 32] = [
        (Call::Settle, "left 0 uncollected 0"),
        (Call::Submit(A), "ok"),
        (Call::Withdraw(1), "refused NotSent"),
        (Call::Submit(C), "ok"),
        (Call::Submit(B), "refused Busy"),
        (Call::Submit(IN_SIXTEEN), "refused BoundTooLarge"),
        (Call::Withdraw(1), "refused Busy"),
        (Call::Withdraw(2), "refused NotSent"),
        (Call::Bye, "refused Busy"),
        (Call::Settle, "left 2 uncollected 0"),
        (Call::Turn, "turned accepted 2 ordered 2"),
        (Call::Settle, "left 0 uncollected 0"),
        (Call::Withdraw(1), "ok"),
        (Call::Settle, "left 0 uncollected 0"),
        (Call::Submit(B), "ok"),
        (Call::Settle, "left 1 uncollected 0"),
        (Call::Bye, "refused Busy"),
        (Call::Take(0), "job 0"),
        (Call::Solve(0, 0), "ok"),
        // The desk has no room for another record when letters are taken.
        (Call::Turn, "turned solved 1 delivered 1"),
        (Call::Turn, "turned accepted 1 withdrawn 1 ordered 1"),
        (Call::Settle, "left 0 uncollected 1"),
        (Call::Bye, "ok"),
        (Call::Settle, "left 0 uncollected 1"),
        (Call::Take(0), "job 1"),
        (Call::Return(0, 1), "ok"),
        (Call::Turn, "turned returned 1 delivered 1"),
        (Call::Turn, "turned byes 1"),
        (Call::Collect, ANSWER_A),
        (Call::Collect, "notice 1 of 7k/8/5K2/8/8/8/8/R7 w - - dm 3;"),
        (Call::Collect, "none"),
        (Call::Settle, "left 0 uncollected 0"),
    ];
    check_room(&rt, rt.alloc(), 1, 2, &CALLS)
}

#[test]
fn nothing_is_sent_after_the_farewell(rt: HostRuntime) -> Result<(), Fail> {
    static CALLS: [(Call, &str); 14] = [
        (Call::Submit(A), "ok"),
        (Call::Bye, "ok"),
        (Call::Bye, "refused Gone"),
        (Call::Submit(A), "refused Gone"),
        (Call::Submit(WITHOUT_SIDE), "refused Gone"),
        (Call::Withdraw(0), "refused Gone"),
        (Call::Withdraw(1), "refused Gone"),
        (Call::Settle, "left 1 uncollected 0"),
        (Call::Turn, "turned accepted 1 byes 1 ordered 1"),
        (Call::Take(0), "job 0"),
        (Call::Solve(0, 0), "ok"),
        (Call::Turn, "turned solved 1 delivered 1"),
        (Call::Collect, ANSWER_A),
        (Call::Turn, "turned"),
    ];
    check_room(&rt, rt.alloc(), 1, 8, &CALLS)
}

#[test]
fn a_line_without_a_record_is_not_sent(rt: HostRuntime) -> Result<(), Fail> {
    static CALLS: [(Call, &str); 7] = [
        (Call::Submit(WITHOUT_SIDE), "refused Fen FieldCount"),
        (Call::Submit(IN_SIXTEEN), "refused BoundTooLarge"),
        (Call::Settle, "left 0 uncollected 0"),
        (Call::Submit(A), "ok"),
        (Call::Submit(IN_SIXTEEN), "refused BoundTooLarge"),
        (Call::Submit(B), "refused Busy"),
        (Call::Settle, "left 1 uncollected 0"),
    ];
    check_room(&rt, rt.alloc(), 1, 1, &CALLS)
}

#[test]
fn deliveries_are_collected_in_order(rt: HostRuntime) -> Result<(), Fail> {
    static CALLS: [(Call, &str); 22] = [
        (Call::Collect, "none"),
        (Call::Submit(A), "ok"),
        (Call::Submit(B), "ok"),
        (Call::Turn, "turned accepted 2 ordered 2"),
        (Call::Take(0), "job 0"),
        (Call::Take(0), "job 1"),
        (Call::Solve(0, 1), "ok"),
        (Call::Solve(0, 0), "ok"),
        (Call::Turn, "turned solved 2 delivered 2"),
        (Call::Submit(A), "ok"),
        (Call::Turn, "turned accepted 1 ordered 1"),
        (Call::Take(0), "job 2"),
        (Call::Solve(0, 2), "ok"),
        (Call::Turn, "turned solved 1"),
        (Call::Settle, "left 0 uncollected 2"),
        (Call::Collect, ANSWER_A),
        (Call::Settle, "left 0 uncollected 1"),
        (Call::Turn, "turned delivered 1"),
        (Call::Collect, ANSWER_B),
        (Call::Collect, ANSWER_A),
        (Call::Collect, "none"),
        (Call::Settle, "left 0 uncollected 0"),
    ];
    check_room(&rt, rt.alloc(), 1, 2, &CALLS)
}

/// Refuses where a fault prints otherwise.
fn check_print<E: Display>(rt: &impl Abort, alloc: Global, fault: &E, name: &str) {
    let printed = fault.to_string(alloc).expect(rt, name);
    same(rt, &"printed", &printed.as_str(), &name);
}

#[test]
fn faults_print_as_their_names(rt: HostRuntime) {
    static WINDOW_FAULTS: [(WindowFault, &str); 5] = [
        (WindowFault::Gone, "Gone"),
        (WindowFault::BadRecord(EpdFault::BadString), "BadString"),
        (WindowFault::BadRecord(EpdFault::NoMemory), "NoMemory"),
        (WindowFault::Busy, "Busy"),
        (WindowFault::Exhausted, "Exhausted"),
    ];
    for (fault, name) in &WINDOW_FAULTS {
        same(&rt, &"code", &fault.code(), name);
        check_print(&rt, rt.alloc(), fault, name);
    }
    static WITHDRAW_FAULTS: [(WithdrawFault, &str); 3] = [
        (WithdrawFault::Gone, "Gone"),
        (WithdrawFault::NotSent, "NotSent"),
        (WithdrawFault::Busy, "Busy"),
    ];
    for (fault, name) in &WITHDRAW_FAULTS {
        same(&rt, &"code", &fault.code(), name);
        check_print(&rt, rt.alloc(), fault, name);
    }
    static BYE_FAULTS: [(ByeFault, &str); 2] = [(ByeFault::Gone, "Gone"), (ByeFault::Busy, "Busy")];
    for (fault, name) in &BYE_FAULTS {
        same(&rt, &"code", &fault.code(), name);
        check_print(&rt, rt.alloc(), fault, name);
    }
}
