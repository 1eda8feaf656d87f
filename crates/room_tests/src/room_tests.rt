//! Rooms turned by hand, on one thread, told with the replies.

use crate::test_rows::same;
use crate::test_scenes::{A, ANSWER_A, ANSWER_B, B, Call, check_room, check_two_windows};
use chess_problems::Bound;
use desk_room::{RoomFault, open_room};
use std::test::Fail;

#[test]
fn answers_come_in_the_order_of_the_records(rt: HostRuntime) -> Result<(), Fail> {
    static CALLS: [(Call, &str); 27] = [
        (Call::Submit(A), "ok"),
        (Call::Submit(B), "ok"),
        (Call::Submit(A), "refused Busy"),
        (Call::Turn, "turned accepted 2 ordered 2"),
        (Call::Take(0), "job 0"),
        (Call::Take(0), "job 1"),
        (Call::Take(0), "nothing"),
        (Call::Solve(0, 1), "ok"),
        (Call::Turn, "turned solved 1"),
        (Call::Collect, "none"),
        (Call::Solve(0, 0), "ok"),
        (Call::Turn, "turned solved 1 delivered 2"),
        (Call::Collect, ANSWER_A),
        (Call::Collect, ANSWER_B),
        (Call::Collect, "none"),
        (Call::Drained, "drained true"),
        (Call::Settle, "left 0 uncollected 0"),
        (Call::Byes, "byes 0"),
        (Call::Bye, "ok"),
        (Call::Submit(A), "refused Gone"),
        (Call::Bye, "refused Gone"),
        (Call::Turn, "turned byes 1"),
        (Call::Byes, "byes 1"),
        (Call::Close, "closed"),
        (Call::SendHome, "owed 0"),
        (Call::Take(0), "stop"),
        (Call::Take(0), "stop"),
    ];
    check_room(&rt, rt.alloc(), 1, 2, &CALLS)
}

#[test]
fn a_closed_room_takes_no_letter(rt: HostRuntime) -> Result<(), Fail> {
    static CALLS: [(Call, &str); 4] = [
        (Call::Submit(A), "ok"),
        (Call::Close, "closed"),
        (Call::Turn, "turned"),
        (Call::Settle, "left 1 uncollected 0"),
    ];
    check_room(&rt, rt.alloc(), 1, 2, &CALLS)
}

#[test]
fn a_withdrawn_record_is_noticed_in_its_place(rt: HostRuntime) -> Result<(), Fail> {
    static CALLS: [(Call, &str); 17] = [
        (Call::Submit(A), "ok"),
        (Call::Submit(B), "ok"),
        (Call::Withdraw(1), "ok"),
        (Call::Withdraw(2), "refused NotSent"),
        (Call::Bye, "refused Busy"),
        (Call::Turn, "turned accepted 2 withdrawn 1 ordered 1"),
        (Call::Take(0), "job 0"),
        (Call::Take(0), "nothing"),
        (Call::Solve(0, 0), "ok"),
        (Call::Turn, "turned solved 1 delivered 2"),
        (Call::Collect, ANSWER_A),
        (Call::Collect, "notice 1 of 7k/8/5K2/8/8/8/8/R7 w - - dm 2;"),
        (Call::Collect, "none"),
        (Call::Drained, "drained true"),
        (Call::Settle, "left 0 uncollected 0"),
        (Call::Bye, "ok"),
        (Call::Withdraw(0), "refused Gone"),
    ];
    check_room(&rt, rt.alloc(), 1, 3, &CALLS)
}

#[test]
fn a_returned_job_goes_to_another_bench_and_a_full_ring_delays(
    rt: HostRuntime,
) -> Result<(), Fail> {
    static CALLS: [(Call, &str); 23] = [
        (Call::Submit(A), "ok"),
        (Call::Submit(B), "refused Busy"),
        (Call::Turn, "turned accepted 1 ordered 1"),
        (Call::Submit(B), "ok"),
        (Call::Turn, "turned"),
        (Call::Take(0), "job 0"),
        (Call::Return(0, 0), "ok"),
        (Call::Turn, "turned ordered 1 returned 1"),
        (Call::Take(1), "job 0"),
        (Call::Solve(1, 0), "ok"),
        (Call::Turn, "turned solved 1 delivered 1"),
        (Call::Turn, "turned accepted 1 ordered 1"),
        (Call::Leave, "left true"),
        (Call::Take(0), "job 1"),
        (Call::Solve(0, 1), "ok"),
        (Call::Turn, "turned solved 1"),
        (Call::Drained, "drained false"),
        (Call::Collect, ANSWER_A),
        (Call::Turn, "turned delivered 1"),
        (Call::Drained, "drained true"),
        (Call::Settle, "left 0 uncollected 1"),
        (Call::Collect, ANSWER_B),
        (Call::Collect, "none"),
    ];
    check_room(&rt, rt.alloc(), 2, 1, &CALLS)
}

#[test]
fn a_job_that_is_not_out_is_a_stranger(rt: HostRuntime) -> Result<(), Fail> {
    static CALLS: [(Call, &str); 4] = [
        (Call::MakeUp(0, 9), "ok"),
        (Call::MakeUp(0, 9), "refused returned 9"),
        (Call::Turn, "turned strangers 1"),
        (Call::MakeUp(0, 9), "ok"),
    ];
    check_room(&rt, rt.alloc(), 1, 1, &CALLS)
}

#[test]
fn a_farewell_that_is_left_counts_for_nothing(rt: HostRuntime) -> Result<(), Fail> {
    static CALLS: [(usize, Call, &str); 21] = [
        (0, Call::Submit(A), "ok"),
        (1, Call::Submit(B), "ok"),
        (0, Call::Turn, "turned accepted 2 ordered 2"),
        (0, Call::Submit(B), "ok"),
        (1, Call::Bye, "ok"),
        (0, Call::Close, "closed"),
        (0, Call::Turn, "turned"),
        (0, Call::SendHome, "owed 0"),
        (0, Call::Take(0), "job 0"),
        (0, Call::Take(0), "job 1"),
        (0, Call::Take(0), "stop"),
        (0, Call::Solve(0, 0), "ok"),
        (0, Call::Return(0, 1), "ok"),
        (0, Call::Turn, "turned solved 1 returned 1 delivered 1"),
        (0, Call::Settle, "left 1 uncollected 1"),
        (1, Call::Settle, "left 0 uncollected 0"),
        (0, Call::Byes, "byes 0"),
        (0, Call::Drained, "drained false"),
        (1, Call::Collect, "none"),
        (0, Call::Collect, ANSWER_A),
        (0, Call::Settle, "left 1 uncollected 0"),
    ];
    check_two_windows(&rt, rt.alloc(), 1, 2, &CALLS)
}

#[test]
fn each_bench_takes_one_stop(rt: HostRuntime) -> Result<(), Fail> {
    static CALLS: [(Call, &str); 14] = [
        (Call::Take(0), "nothing"),
        (Call::Submit(A), "ok"),
        (Call::Submit(A), "ok"),
        (Call::Submit(B), "ok"),
        (Call::Turn, "turned accepted 3 ordered 3"),
        (Call::Take(0), "job 0"),
        (Call::Take(1), "job 1"),
        (Call::SendHome, "owed 0"),
        (Call::SendHome, "owed 0"),
        (Call::Take(0), "job 2"),
        (Call::Take(0), "stop"),
        (Call::Take(0), "stop"),
        (Call::Take(1), "stop"),
        (Call::Take(1), "stop"),
    ];
    check_room(&rt, rt.alloc(), 2, 3, &CALLS)
}

#[test]
fn a_room_outside_the_limits_is_not_opened(rt: HostRuntime) {
    static ROWS: [(usize, usize, usize, Option<RoomFault>); 9] = [
        (0, 0, 0, Some(RoomFault::BadWindows)),
        (0, 1, 1, Some(RoomFault::BadWindows)),
        (17, 0, 0, Some(RoomFault::BadWindows)),
        (1, 0, 0, Some(RoomFault::BadBenches)),
        (1, 17, 1, Some(RoomFault::BadBenches)),
        (1, 1, 0, Some(RoomFault::BadRing)),
        (1, 1, 65, Some(RoomFault::BadRing)),
        (1, 1, 1, None),
        (16, 16, 64, None),
    ];
    let default = Bound::new(3).expect(&rt, "bound");
    for row in &ROWS {
        let room = open_room(rt.alloc(), row.0, row.1, row.2, default);
        same(&rt, row, &room.err(), &row.3);
    }
}
