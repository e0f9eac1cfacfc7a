use super::ends::{Ends, for_a_taker_that_naps, for_a_taker_that_sleeps};
use std::sync::Wait;
use std::sync::atomic::AtomicU64;
use std::sync::atomic::Ordering::SeqCst;
use std::thread;
use std::thread::Threads;
use std::time::{Clock, Duration};
use wcp_clock::Note;
use wcp_ring::{RingPutter, RingTaker, Sleeper};

/// How the putter leaves after its note.
#[derive(Clone, Copy)]
enum Leaving {
    Ended,
    Dropped,
}

const TAKEN: u64 = 1;

const LEFT: u64 = 2;

/// A while in which the other thread falls asleep.
fn wait_a_while<R: Clock>(rt: &R) {
    let _ = thread::sleep(rt, Duration::from_millis(30));
}

/// Waits until the other thread has taken the note.
fn wait_until_taken(rt: &impl Wait, step: &AtomicU64) {
    for _ in rt.forever() {
        if step.load(SeqCst) == TAKEN {
            break;
        }
        thread::yield_now();
    }
}

/// The putter leaves so.
fn leave(putter: RingPutter, leaving: Leaving) {
    match leaving {
        Leaving::Ended => drop(putter.end()),
        Leaving::Dropped => drop(putter),
    }
}

/// Puts a note and leaves, each late.
fn put_late<R: Wait + Clock>(rt: &R, putter: RingPutter, leaving: Leaving, step: &AtomicU64) {
    let mut putter = putter;
    wait_a_while(rt);
    let _ = putter.try_put(Note::Close { count: 7 });
    wait_until_taken(rt, step);
    wait_a_while(rt);
    step.store(LEFT, SeqCst);
    leave(putter, leaving);
}

/// Takes what is there and sleeps, until the putter has left.
fn take_asleep<R: Wait>(
    rt: &R,
    sleeper: Sleeper,
    taker: RingTaker,
    step: &AtomicU64,
) -> Option<Note> {
    let (mut taker, mut sleeper) = (taker, sleeper);
    let mut taken = None;
    for _ in rt.forever() {
        if let Some(note) = taker.try_take() {
            taken = Some(note);
            sleeper.stir();
            step.store(TAKEN, SeqCst);
        }
        if step.load(SeqCst) == LEFT {
            break;
        }
        sleeper.rest(rt);
    }
    taken
}

/// Whether a taker takes the note, and ends once the putter has left so.
fn wakes<R: Threads + Wait + Clock + Sync>(rt: &R, ends: Ends, leaving: Leaving) -> bool {
    let Ends {
        putter,
        taker,
        sleeper,
    } = ends;
    let step = AtomicU64::new(0);
    let shared = &step;
    let (_, taken) = thread::join(
        rt,
        move || put_late(rt, putter, leaving, shared),
        move || take_asleep(rt, sleeper, taker, shared),
    );
    taken == Some(Note::Close { count: 7 })
}

#[test]
fn a_taker_that_sleeps_wakes(rt: HostRuntime) {
    for leaving in [Leaving::Ended, Leaving::Dropped] {
        let ends = for_a_taker_that_sleeps(&rt, rt.alloc(), 4);
        assert!(rt; wakes(&rt, ends, leaving));
    }
}

/// With room for one, the note rouses a taker from a nap of an hour, and so does the putter as it leaves.
#[test]
fn a_taker_that_naps_wakes(rt: HostRuntime) {
    for leaving in [Leaving::Ended, Leaving::Dropped] {
        let ends = for_a_taker_that_naps(&rt, rt.alloc(), 1, Duration::from_secs(3_600));
        assert!(rt; wakes(&rt, ends, leaving));
    }
}
