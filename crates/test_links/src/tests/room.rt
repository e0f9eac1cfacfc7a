//! Room that comes at every moment of a putter's falling asleep.
use super::comparing::assert_same;
use super::ends::{Ends, for_a_putter_that_sleeps};
use super::waking::Progress;
use std::sync::Wait;
use std::sync::atomic::Ordering::SeqCst;
use std::thread;
use std::time::{Clock, Duration, Instant};
use wcp_clock::Note;
use wcp_ring::{RingPutter, RingTaker, Sleeper};

/// For how many milliseconds notes are taken.
const WHILE: u64 = 1_000;

/// For how many milliseconds nothing is taken, so that the putter is asleep after them.
const ASLEEP: u64 = 30;

/// Takes a note each time that the putter has filled the ring again, after a pause of another length. The answer is how
/// many were taken, or `None` where the ring was not filled in time.
fn take_for_a_while<R: Clock>(rt: &R, taker: &mut RingTaker, progress: &Progress) -> Option<u32> {
    let start = Instant::now(rt).ok()?;
    for number in 0..u32::MAX {
        if !progress.reaches(number.wrapping_add(1)) {
            return None;
        }
        if number % 16 == 0 && start.elapsed(rt).ok()? > Duration::from_millis(WHILE) {
            return Some(number);
        }
        progress.pause(number);
        taker.try_take()?;
    }
    None
}

/// Puts notes, and sleeps where the ring is full, until the other end is gone.
fn put_until_gone<R: Wait>(
    rt: &R,
    mut putter: RingPutter,
    mut sleeper: Sleeper,
    progress: &Progress,
) {
    for _ in rt.forever() {
        if putter.try_put(Note::Close { count: 0 }).is_ok() {
            sleeper.stir();
            progress.step();
        } else if putter.linked().is_err() {
            break;
        } else {
            sleeper.rest(rt);
        }
    }
}

/// Where the putter sleeps on although there is room, the taker leaves, and its bell wakes the putter all the same.
#[test]
fn each_note_taken_wakes_the_putter(rt: HostRuntime) {
    let Ends {
        putter,
        mut taker,
        sleeper,
    } = for_a_putter_that_sleeps(&rt, rt.alloc(), 1);
    let progress = Progress::new();
    let (shared, handle) = (&progress, &rt);
    let (taken, ()) = thread::join(
        handle,
        move || {
            let taken = take_for_a_while(handle, &mut taker, shared);
            drop(taker);
            taken
        },
        move || put_until_gone(handle, putter, sleeper, shared),
    );
    assert_same(&rt, taken, progress.count().checked_sub(1));
}

/// The putter fills the ring and sleeps, and ends only once it is told that the other end is gone.
#[test]
fn a_putter_that_sleeps_wakes_as_the_taker_goes(rt: HostRuntime) {
    let Ends {
        putter,
        taker,
        sleeper,
    } = for_a_putter_that_sleeps(&rt, rt.alloc(), 2);
    let progress = Progress::new();
    let (shared, handle) = (&progress, &rt);
    thread::join(
        handle,
        move || {
            let _ = thread::sleep(handle, Duration::from_millis(ASLEEP));
            drop(taker);
        },
        move || put_until_gone(handle, putter, sleeper, shared),
    );
    assert_same(&rt, progress.count(), 2);
}
