//! Notes that come at every moment of a taker's falling asleep.
use super::comparing::assert_same;
use super::ends::{Ends, for_a_taker_that_sleeps};
use std::sync::Wait;
use std::sync::atomic::Ordering::SeqCst;
use std::sync::atomic::{AtomicBool, AtomicU32};
use std::thread::{self, Threads};
use std::time::{Clock, Duration, Instant};
use wcp_clock::Note;
use wcp_ring::{RingPutter, RingTaker, Sleeper};

/// The pause before a note has from none to so many steps, and each has so many more than the one before: a thread that
/// looks on before it falls asleep takes as long as thousands.
const PAUSES: u32 = 16_384;

const LONGER: u32 = 37;

/// How often a thread looks whether the other made its step before it gives its turn away.
const LOOKS: u32 = 2_000;

/// After so many looks the other thread counts as asleep for good.
const PATIENCE: u32 = 20_000_000;

/// For how many milliseconds notes are put.
const WHILE: u64 = 1_000;

/// What the two threads tell each other.
#[derive(Drop)]
pub struct Progress {
    /// How many notes were taken, or put.
    steps: AtomicU32,
    /// Whether the putter puts no more.
    left: AtomicBool,
}

impl Progress {
    pub fn new() -> Progress {
        Progress {
            steps: AtomicU32::new(0),
            left: AtomicBool::new(false),
        }
    }

    /// A note was taken, or put.
    pub fn step(&self) {
        self.steps.fetch_add(1, SeqCst);
    }

    /// How many notes were taken, or put.
    pub fn count(&self) -> u32 {
        self.steps.load(SeqCst)
    }

    /// No more notes are put.
    pub fn leave(&self) {
        self.left.store(true, SeqCst);
    }

    /// Whether no more notes are put.
    pub fn has_left(&self) -> bool {
        self.left.load(SeqCst)
    }

    /// Waits until so many notes were taken, or put: whether they were in time.
    pub fn reaches(&self, count: u32) -> bool {
        for look in 0..PATIENCE {
            if self.steps.load(SeqCst) == count {
                return true;
            }
            if look >= LOOKS {
                thread::yield_now();
            }
        }
        false
    }

    /// Lets some short steps pass, another number for each of these notes.
    pub fn pause(&self, number: u32) {
        for _ in 0..number.wrapping_mul(LONGER) % PAUSES {
            let _ = self.steps.load(SeqCst);
        }
    }
}

/// Puts a note each time that the one before was taken, after a pause of another length. The answer is how many were
/// put and taken, or `None` where one was not taken in time.
fn put_for_a_while<R: Clock>(rt: &R, putter: &mut RingPutter, progress: &Progress) -> Option<u32> {
    let start = Instant::now(rt).ok()?;
    for number in 0..u32::MAX {
        if !progress.reaches(number) {
            return None;
        }
        if number % 16 == 0 && start.elapsed(rt).ok()? > Duration::from_millis(WHILE) {
            return Some(number);
        }
        progress.pause(number);
        putter.try_put(Note::Close { count: number }).ok()?;
    }
    None
}

/// Takes notes, and sleeps where there is none, until the putter has left.
pub fn take_until_left<R: Wait>(
    rt: &R,
    mut taker: RingTaker,
    mut sleeper: Sleeper,
    progress: &Progress,
) {
    for _ in rt.forever() {
        let left = progress.has_left();
        if taker.try_take().is_some() {
            sleeper.stir();
            progress.step();
        } else if left {
            break;
        } else {
            sleeper.rest(rt);
        }
    }
}

/// Puts and takes notes for a while: how many were put, and how many taken. Where the taker sleeps on although there is
/// a note, the putter leaves, and its bell wakes the taker all the same.
pub fn put_and_take<R: Threads + Wait + Clock + Sync>(rt: &R, ends: Ends) -> (Option<u32>, u32) {
    let Ends {
        mut putter,
        taker,
        sleeper,
    } = ends;
    let progress = Progress::new();
    let shared = &progress;
    let (put, ()) = thread::join(
        rt,
        move || {
            let put = put_for_a_while(rt, &mut putter, shared);
            shared.leave();
            drop(putter);
            put
        },
        move || take_until_left(rt, taker, sleeper, shared),
    );
    (put, progress.count())
}

#[test]
fn each_note_wakes_the_taker(rt: HostRuntime) {
    let ends = for_a_taker_that_sleeps(&rt, rt.alloc(), 1);
    let (put, taken) = put_and_take(&rt, ends);
    assert_same(&rt, put, Some(taken));
}
