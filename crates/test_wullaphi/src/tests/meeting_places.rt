//! Processes that meet each at its place: in an interval, or at a label.
use crate::tests::guests::{Part, assert_watched, long, short};
use crossbeam_channel::bounded;
use std::alloc::Global;
use std::process::Abort;
use std::sync::Wait;
use std::thread::Threads;
use std::time::{Clock, Duration};
use wullaphi::{GlobalCut, Meeting, MeetingPlace, Report, Watched};

/// What both answer, where they have met or haven't.
const BOTH: [Option<bool>; 2] = [Some(true), Some(true)];

const NEITHER: [Option<bool>; 2] = [Some(false), Some(false)];

/// The report of one that sends three times, and is true in interval 2 at label 20, and one that receives three times,
/// and is true in intervals 1, 2 and 3 at labels 11, 12 and 13. They answer this, and the meeting is told so.
fn assert_talk<R: Threads + Wait + Clock + Send + Sync + Abort + Clone + Drop + 'static>(
    rt: &R,
    alloc: Global,
    meeting: Meeting,
    patience: Duration,
    met: &[Option<bool>],
    told: &str,
) -> Report {
    let (sender, receiver) = bounded(alloc, 3).expect(rt, "memory");
    let parts = vec![in alloc; Part::Speaks(sender), Part::Listens(receiver)];
    let parts = parts.expect(rt, "memory");
    assert_watched(rt, alloc, parts, meeting, patience, met, told)
}

/// A meeting of the two that are watched, at these places.
fn meeting_at(first: MeetingPlace, second: MeetingPlace) -> Meeting {
    Meeting::at(Watched::pair(0, 1), &[(0, first), (1, second)])
}

#[test]
fn two_meet_in_the_intervals_of_the_cut(rt: HostRuntime) {
    let alloc = rt.alloc();
    let strangers = Meeting::new(Watched::pair(2, 3));
    let told = "not met: process 2 never came to its place, process 3 never came to its place";
    let report = assert_talk(&rt, alloc, strangers, long(), &NEITHER, told);
    let cut = GlobalCut::new(&[Some(2), Some(1)]);
    assert!(&rt; report == Report::Found(cut));
    for _ in 0..30 {
        let told = "met: process 0 in interval 2 at label 20, process 1 in interval 1 at label 11";
        let again = assert_talk(&rt, alloc, Meeting::at_cut(&cut), long(), &BOTH, told);
        assert!(&rt; again == report);
    }
}

#[test]
fn two_meet_in_a_later_interval(rt: HostRuntime) {
    let alloc = rt.alloc();
    let meeting = meeting_at(MeetingPlace::Interval(2), MeetingPlace::Interval(2));
    let told = "met: process 0 in interval 2 at label 20, process 1 in interval 2 at label 12";
    let _report = assert_talk(&rt, alloc, meeting, long(), &BOTH, told);
}

/// Each is at a place of its own a while, but not at once: the one goes on to its place as the other has gone.
#[test]
fn two_do_not_meet_where_the_places_follow_each_other(rt: HostRuntime) {
    let alloc = rt.alloc();
    let meeting = meeting_at(MeetingPlace::Interval(2), MeetingPlace::Interval(3));
    let told = "not met: process 0 came and gave up, process 1 came and gave up";
    let _report = assert_talk(&rt, alloc, meeting, short(), &NEITHER, told);
}

/// Who waited elsewhere would have come, and given up.
#[test]
fn who_is_in_another_interval_does_not_wait(rt: HostRuntime) {
    let alloc = rt.alloc();
    let meeting = meeting_at(MeetingPlace::Interval(1), MeetingPlace::Interval(4));
    let told = "not met: process 0 never came to its place, process 1 never came to its place";
    let _report = assert_talk(&rt, alloc, meeting, long(), &NEITHER, told);
}

#[test]
fn two_meet_at_their_labels(rt: HostRuntime) {
    let alloc = rt.alloc();
    for _ in 0..30 {
        let meeting = meeting_at(MeetingPlace::Label(20), MeetingPlace::Label(12));
        let told = "met: process 0 in interval 2 at label 20, process 1 in interval 2 at label 12";
        let _report = assert_talk(&rt, alloc, meeting, long(), &BOTH, told);
    }
}

#[test]
fn who_is_at_another_label_does_not_wait(rt: HostRuntime) {
    let alloc = rt.alloc();
    let meeting = meeting_at(MeetingPlace::Label(2), MeetingPlace::Label(1));
    let told = "not met: process 0 never came to its place, process 1 never came to its place";
    let _report = assert_talk(&rt, alloc, meeting, long(), &NEITHER, told);
}

/// A member without a place waits anywhere. A place of who is no member, or no process, counts for nothing.
#[test]
fn places_are_of_members(rt: HostRuntime) {
    let alloc = rt.alloc();
    let elsewhere = MeetingPlace::Label(99);
    let places = [
        (0, elsewhere),
        (0, MeetingPlace::Label(20)),
        (5, elsewhere),
        (99, elsewhere),
    ];
    let meeting = Meeting::at(Watched::pair(0, 1), &places);
    let told = "met: process 0 in interval 2 at label 20, process 1 in interval 1 at label 11";
    let _report = assert_talk(&rt, alloc, meeting, long(), &BOTH, told);
}
