//! The limits of a desk: its sizes, its tickets and its room; and refusals, which print as their names.

use crate::row_tests::{A, desk_of, memo_of, same, submit};
use chess_moves::Rays;
use mate_desk::{Desk, DeskFault, NoSuchSubmitter, Stranger, SubmitRefusal, WithdrawRefusal};
use mate_jobs::Ticket;
use std::alloc::Global;
use std::fmt::Display;
use std::process::Abort;

#[test]
fn the_last_ticket_is_never_given(rt: HostRuntime) {
    let alloc = rt.alloc();
    let mut spent = desk_of(&rt, alloc, 1, 1, u64::MAX);
    same(&rt, &"accepts", &spent.accepts(0), &false);
    let refused = Err(SubmitRefusal::Exhausted);
    same(
        &rt,
        &"spent",
        &submit(&rt, alloc, &mut spent, 0, A),
        &refused,
    );
    let mut last = desk_of(&rt, alloc, 1, 2, u64::MAX - 1);
    let given = Ok(Ticket(u64::MAX - 1));
    same(&rt, &"last", &submit(&rt, alloc, &mut last, 0, A), &given);
    same(
        &rt,
        &"behind",
        &submit(&rt, alloc, &mut last, 0, A),
        &refused,
    );
}

#[test]
fn no_desk_of_a_wrong_size(rt: HostRuntime) {
    static ROWS: [(usize, usize, DeskFault); 5] = [
        (0, 0, DeskFault::BadSubmitters),
        (17, 1, DeskFault::BadSubmitters),
        (17, 65, DeskFault::BadSubmitters),
        (1, 0, DeskFault::BadRoom),
        (16, 65, DeskFault::BadRoom),
    ];
    for row in &ROWS {
        let found = Desk::new(rt.alloc(), row.0, row.1, 0).err();
        same(&rt, row, &found, &Some(row.2));
    }
}

/// Fills a new desk of 16 submitters with room for 64 records each.
fn fill(rt: &impl Abort, alloc: Global, desk: &mut Desk) {
    for n in 0u64..1024 {
        let ticket = submit(rt, alloc, desk, (n % 16) as usize, A);
        same(rt, &n, &ticket, &Ok(Ticket(n)));
    }
    for s in 0..16 {
        same(rt, &s, &desk.pending(s), &Ok(64));
        let ticket = submit(rt, alloc, desk, s, A);
        same(rt, &s, &ticket, &Err(SubmitRefusal::Full));
    }
    same(rt, &"waiting", &desk.waiting(), &1024);
}

/// Solves all jobs of a full desk, and collects the answers.
fn serve(rt: &impl Abort, alloc: Global, desk: &mut Desk) {
    let rays = Rays::new();
    let mut memo = memo_of(rt, alloc);
    for n in 0u64..1024 {
        let job = desk.take().expect(rt, "job");
        same(rt, &n, &job.ticket(), &Ticket(n));
        let finished = desk.finish(job.solve(&rays, &mut memo));
        same(rt, &n, &finished.is_ok(), &true);
    }
    same(rt, &"taken", &desk.take().is_none(), &true);
    for n in 0..1024 {
        let delivery = desk.collect(n % 16).expect(rt, "submitter");
        same(rt, &n, &delivery.is_some(), &true);
    }
    same(rt, &"drained", &desk.is_drained(), &true);
}

#[test]
fn a_full_desk_serves_all(rt: HostRuntime) {
    let mut desk = desk_of(&rt, rt.alloc(), 16, 64, 0);
    fill(&rt, rt.alloc(), &mut desk);
    serve(&rt, rt.alloc(), &mut desk);
}

/// Refuses where a refusal prints otherwise.
fn check_print<D: Display>(rt: &impl Abort, alloc: Global, refusal: &D, name: &str) {
    let printed = refusal.to_string(alloc).expect(rt, name);
    same(rt, &"printed", &printed.as_str(), &name);
}

#[test]
fn refusals_print_as_their_names(rt: HostRuntime) {
    let alloc = rt.alloc();
    static FAULTS: [(DeskFault, &str); 3] = [
        (DeskFault::BadSubmitters, "BadSubmitters"),
        (DeskFault::BadRoom, "BadRoom"),
        (DeskFault::NoMemory, "NoMemory"),
    ];
    for (fault, name) in &FAULTS {
        same(&rt, &"code", &fault.code(), name);
        check_print(&rt, alloc, fault, name);
    }
    static SUBMIT_REFUSALS: [(SubmitRefusal, &str); 4] = [
        (SubmitRefusal::NoSuchSubmitter, "NoSuchSubmitter"),
        (SubmitRefusal::Closed, "Closed"),
        (SubmitRefusal::Full, "Full"),
        (SubmitRefusal::Exhausted, "Exhausted"),
    ];
    for (refusal, name) in &SUBMIT_REFUSALS {
        same(&rt, &"code", &refusal.code(), name);
        check_print(&rt, alloc, refusal, name);
    }
    static WITHDRAW_REFUSALS: [(WithdrawRefusal, &str); 4] = [
        (WithdrawRefusal::NoSuchSubmitter, "NoSuchSubmitter"),
        (WithdrawRefusal::NotAccepted, "NotAccepted"),
        (WithdrawRefusal::Delivered, "Delivered"),
        (WithdrawRefusal::Withdrawn, "Withdrawn"),
    ];
    for (refusal, name) in &WITHDRAW_REFUSALS {
        same(&rt, &"code", &refusal.code(), name);
        check_print(&rt, alloc, refusal, name);
    }
    same(&rt, &"code", &NoSuchSubmitter.code(), &"NoSuchSubmitter");
    check_print(&rt, alloc, &NoSuchSubmitter, "NoSuchSubmitter");
    check_print(&rt, alloc, &Stranger, "Stranger");
}
