//! Watches of which process 0 is lost: its probe is dropped before it closes.
use super::plans::two_hops;
use super::watches::{Course, ONCE, ONE, assert_left, found, run_in_one_thread};
use std::alloc::Global;
use std::process::Abort;
use std::sync::Wait;
use wcp_book::Book;
use wcp_model::Report;
use wcp_watch::CheckFault;

/// Where process 0 of a watch of two hops is lost after so many snapshots, the loop ends with this report, and says so.
fn assert_lost_after(rt: &(impl Abort + Wait), alloc: Global, snapshots: u32, report: Report) {
    let lost = Course {
        snapshots,
        closes: false,
    };
    let left = run_in_one_thread(rt, alloc, two_hops(rt, alloc), lost, ONCE, 2, Book::new(2));
    assert_left(rt, &left, report, None, Some(ONE));
    assert_eq!(rt;
        (left.end.fault(), left.end.lost()),
        (Some(CheckFault::Lost(0)), Some(0))
    );
}

#[test]
fn a_process_that_is_lost_at_once_leaves_all_undecided(rt: HostRuntime) {
    assert_lost_after(&rt, rt.alloc(), 0, Report::Undecided);
}

#[test]
fn what_a_lost_process_put_counts(rt: HostRuntime) {
    assert_lost_after(&rt, rt.alloc(), 1, found());
}
