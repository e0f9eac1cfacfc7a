//! Watches that run in one thread, of which a post is refused, or a relay is gone.
use super::plans::plan_of;
use super::watches::{ONCE, ONE, assert_left, found, run_in_one_thread};
use wcp_book::Book;
use wcp_model::{Parent, Report};
use wcp_watch::CheckFault;

#[test]
fn a_post_that_is_refused_holds_nothing_up(rt: HostRuntime) {
    let plan = plan_of(&rt, rt.alloc(), 2, 8, &[Parent::Root], &[Some(0), Some(0)]);
    let left = run_in_one_thread(&rt, rt.alloc(), plan, ONCE, ONCE, 1, Book::new(1));
    assert_left(&rt, &left, found(), Some(ONE), None);
    assert_eq!(rt; left.end.fault(), None);
}

#[test]
fn a_lane_that_is_cut_ends_the_loop(rt: HostRuntime) {
    let plan = plan_of(
        &rt,
        rt.alloc(),
        2,
        8,
        &[Parent::Root; 2],
        &[Some(0), Some(1)],
    );
    let left = run_in_one_thread(&rt, rt.alloc(), plan, ONCE, ONCE, 1, Book::new(2));
    assert_left(&rt, &left, Report::Undecided, Some(ONE), None);
    assert!(rt; matches!(left.end.fault(), Some(CheckFault::Cut(_))) && left.end.cut().is_some());
}
