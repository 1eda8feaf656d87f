//! Runs in which records are withdrawn, told with their replies as texts.

use crate::row_tests::{FINISHED_WITHDRAWN, WITH_NOTICES, WITHDRAWN_BACK};
use crate::run_tests::check_run;

#[test]
fn withdrawn_records_give_notices_in_their_places(rt: HostRuntime) {
    check_run(&rt, rt.alloc(), (1, 2), &WITH_NOTICES);
}

#[test]
fn a_finished_record_is_withdrawn(rt: HostRuntime) {
    check_run(&rt, rt.alloc(), (1, 1), &FINISHED_WITHDRAWN);
}

#[test]
fn a_withdrawn_job_handed_back_waits_no_more(rt: HostRuntime) {
    check_run(&rt, rt.alloc(), (1, 1), &WITHDRAWN_BACK);
}
