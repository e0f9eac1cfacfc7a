//! Processes that meet at a moment wherever they hold something, and such that can't.
use crate::tests::guests::{Part, assert_told, assert_watched, long, short, watch_guests};
use crossbeam_channel::bounded;
use wullaphi::{Meeting, WatchFault, Watched};

/// What both answer, where they have met or haven't.
const BOTH: [Option<bool>; 2] = [Some(true), Some(true)];

const NEITHER: [Option<bool>; 2] = [Some(false), Some(false)];

/// A meeting of the two that are watched.
fn meeting() -> Meeting {
    Meeting::new(Watched::pair(0, 1))
}

#[test]
fn two_that_share_nothing_meet(rt: HostRuntime) {
    let alloc = rt.alloc();
    for _ in 0..30 {
        let parts = vec![in alloc; Part::Comes, Part::Comes].expect(&rt, "memory");
        let told = "met: process 0 in interval 0 at label 1, process 1 in interval 0 at label 1";
        let _report = assert_watched(&rt, alloc, parts, meeting(), long(), &BOTH, told);
    }
}

#[test]
fn one_that_sends_and_stays_meets_who_receives(rt: HostRuntime) {
    let alloc = rt.alloc();
    for _ in 0..30 {
        let (sender, receiver) = bounded(alloc, 1).expect(&rt, "memory");
        let parts = vec![in alloc; Part::Sends(sender), Part::Receives(receiver)];
        let parts = parts.expect(&rt, "memory");
        let told = "met: process 0 in interval 1 at label 3, process 1 in interval 1 at label 7";
        let _report = assert_watched(&rt, alloc, parts, meeting(), long(), &BOTH, told);
    }
}

#[test]
fn two_under_a_plain_lock_are_found_and_never_meet(rt: HostRuntime) {
    let alloc = rt.alloc();
    for _ in 0..100 {
        let parts = vec![in alloc; Part::ComesUnderLock, Part::ComesUnderLock];
        let parts = parts.expect(&rt, "memory");
        let told = "not met: process 0 came and gave up, process 1 came and gave up";
        let report = assert_watched(&rt, alloc, parts, meeting(), short(), &NEITHER, told);
        assert!(&rt; report.cut().is_some());
    }
}

#[test]
fn one_goes_on_while_the_other_stays_away(rt: HostRuntime) {
    let alloc = rt.alloc();
    let (sender, receiver) = bounded(alloc, 1).expect(&rt, "memory");
    let parts = vec![in alloc; Part::ComesAndSends(sender), Part::StaysAway(receiver)];
    let parts = parts.expect(&rt, "memory");
    let told = "not met: process 0 came and gave up, process 1 never came to its place";
    let report = assert_watched(&rt, alloc, parts, meeting(), short(), &NEITHER, told);
    assert!(&rt; report.cut().is_some());
}

#[test]
fn one_goes_on_each_time_where_the_other_ends(rt: HostRuntime) {
    let alloc = rt.alloc();
    let parts = vec![in alloc; Part::ComesTwice, Part::Ends].expect(&rt, "memory");
    let told = "not met: process 0 came and gave up, process 1 never came to its place";
    let report = assert_watched(&rt, alloc, parts, meeting(), short(), &NEITHER, told);
    assert!(&rt; report.cut().is_none());
}

#[test]
fn one_goes_on_where_the_other_is_lost(rt: HostRuntime) {
    let alloc = rt.alloc();
    let parts = vec![in alloc; Part::Comes, Part::IsLost].expect(&rt, "memory");
    let (watched, there) = watch_guests(&rt, alloc, parts, meeting(), short());
    assert!(&rt; matches!(watched, Err(WatchFault::Lost { process: 1, .. })));
    assert_told(
        &rt,
        alloc,
        &there,
        "not met: process 0 came and gave up, process 1 never came to its place",
    );
}

#[test]
fn who_is_no_member_does_not_wait(rt: HostRuntime) {
    let alloc = rt.alloc();
    let parts = vec![in alloc; Part::Comes, Part::Comes, Part::Comes].expect(&rt, "memory");
    let told = "met: process 0 in interval 0 at label 1, process 1 in interval 0 at label 1";
    let met = [Some(true), Some(true), Some(false)];
    let _report = assert_watched(&rt, alloc, parts, meeting(), long(), &met, told);
}
