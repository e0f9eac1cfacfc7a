//! Notes for a taker that naps before it sleeps.
use super::comparing::assert_same;
use super::ends::{Ends, for_a_taker_that_naps};
use super::late::{ROOM, TOLD, is_told_in_time};
use super::waking::{Progress, put_and_take, take_until_left};
use std::alloc::Global;
use std::sync::Wait;
use std::thread::{Threads, join, sleep};
use std::time::{Clock, Duration};
use wcp_clock::Note;
use wcp_ring::RingPutter;

/// The seconds of a nap that doesn't end by itself while a test runs, as where the clock stands still.
const LONG: u64 = 3_600;

/// The milliseconds of a nap that ends by itself.
const SHORT: u64 = 200;

/// After so many milliseconds without a note the taker is at its nap.
const NAPPING: u64 = 20;

/// How often a note comes in a nap.
const TIMES: u32 = 5;

/// With room for one, each note rouses the taker, at every moment of its lying down.
#[test]
fn each_note_rouses_a_taker_with_room_for_one(rt: HostRuntime) {
    let ends = for_a_taker_that_naps(&rt, rt.alloc(), 1, Duration::from_secs(LONG));
    let (put, taken) = put_and_take(&rt, ends);
    assert_same(&rt, put, Some(taken));
}

/// Half of the room rouses a taker, and so does a putter that says so.
#[test]
fn a_taker_that_naps_is_roused(rt: HostRuntime) {
    for (notes, tells) in TOLD {
        let ends = for_a_taker_that_naps(&rt, rt.alloc(), ROOM, Duration::from_secs(LONG));
        let in_time = is_told_in_time(&rt, ends, notes, tells);
        assert!(rt; in_time, "{notes} notes");
    }
}

/// Puts notes, each once the taker is at its nap: whether it took them in time.
fn put_in_naps<R: Clock>(rt: &R, putter: &mut RingPutter, progress: &Progress) -> bool {
    for count in 0..TIMES {
        let _ = sleep(rt, Duration::from_millis(NAPPING));
        if putter.try_put(Note::Close { count }).is_err()
            || !progress.reaches(count.wrapping_add(1))
        {
            return false;
        }
    }
    true
}

/// Whether what comes in a nap, from which no note wakes the taker, is taken after it.
fn comes_after_naps<R: Threads + Wait + Clock + Sync>(rt: &R, ends: Ends) -> bool {
    let Ends {
        mut putter,
        taker,
        sleeper,
    } = ends;
    let progress = Progress::new();
    let shared = &progress;
    let (in_time, ()) = join(
        rt,
        move || {
            let in_time = put_in_naps(rt, &mut putter, shared);
            shared.leave();
            drop(putter);
            in_time
        },
        move || take_until_left(rt, taker, sleeper, shared),
    );
    in_time
}

/// What comes in a nap is taken once it is over.
#[test]
fn a_nap_ends_by_itself(rt: HostRuntime) {
    let ends = for_a_taker_that_naps(&rt, rt.alloc(), 1_024, Duration::from_millis(SHORT));
    assert!(rt; comes_after_naps(&rt, ends));
}
