//! A growth of the checker that is refused, in a watch that runs in one thread.
use super::plans::plan_of;
use super::watches::{Checked, Course, ONCE, run_in_one_thread};
use std::process::Abort;
use wcp_book::Book;
use wcp_model::{Parent, Report, Tally};
use wcp_watch::{CheckFault, CheckerEnd};

/// How many snapshots process 0 emits: more than the checker has room for at first.
const SNAPSHOTS: u32 = 20;

/// The report of what the loop leaves, which is a fault for want of memory or none.
fn report_of(rt: &impl Abort, end: &CheckerEnd) -> Report {
    match end.fault() {
        None => Report::Nothing,
        Some(fault) => {
            assert_eq!(rt; fault, CheckFault::Memory);
            Report::Undecided
        }
    }
}

/// The loop took all, and posted the share of each process, of which the second is of nothing.
fn assert_whole(rt: &impl Abort, left: &Checked) {
    let whole = Tally {
        emitted: u64::from(SNAPSHOTS),
        taken: u64::from(SNAPSHOTS),
    };
    assert_eq!(rt;
        (left.book.share(0), left.book.totals()),
        (Some(whole), whole)
    );
    assert!(rt; left.book.share(1).is_some());
}

/// Process 0 emits its snapshots, and process 1 none. The loop takes all, and posts the share of each process, also
/// where a growth of the checker is refused. Then it says so, and that nothing is decided.
#[test]
fn a_loop_without_memory_takes_all(rt: HostRuntime) {
    let plan = plan_of(&rt, rt.alloc(), 2, 32, &[Parent::Root], &[Some(0), Some(0)]);
    let often = Course {
        snapshots: SNAPSHOTS,
        ..ONCE
    };
    let never = Course {
        snapshots: 0,
        ..ONCE
    };
    let left = run_in_one_thread(&rt, rt.alloc(), plan, often, never, 1, Book::new(2));
    assert_whole(&rt, &left);
    assert_eq!(rt;
        (left.end.report(), left.end.cut()),
        (report_of(&rt, &left.end), None)
    );
}
