//! Notes of a putter that rings late, for a taker that sleeps.
use super::ends::{Ends, bell_of, for_a_taker_that_sleeps};
use super::waking::{Progress, take_until_left};
use std::alloc::Global;
use std::process::Abort;
use std::sync::Wait;
use std::thread::{Threads, join, sleep};
use std::time::{Clock, Duration};
use wcp_clock::Note;
use wcp_ring::{Bell, RingPutter, RingTaker, Sleeper, ring};

/// How many notes the rings have room for.
pub const ROOM: u32 = 8;

/// How many notes are told to a taker that sleeps, and whether the putter then says so.
pub const TOLD: [(u32, bool); 4] = [(ROOM / 2, false), (ROOM, false), (1, true), (3, true)];

/// For how many milliseconds nothing is put, so that the taker is asleep after them.
const ASLEEP: u64 = 30;

/// How often the taker is let to fall asleep.
const TIMES: u32 = 3;

/// How many notes are put by a thread that sleeps after each.
const NOTES: u32 = 200;

/// Puts so many notes: whether there was room for them.
fn put_burst(putter: &mut RingPutter, notes: u32, time: u32) -> bool {
    for _ in 0..notes {
        if putter.try_put(Note::Close { count: time }).is_err() {
            return false;
        }
    }
    true
}

/// Puts so many notes once the taker is asleep, and then rings or not: whether the taker took them in time, each time.
fn put_in_bursts<R: Clock>(
    rt: &R,
    putter: &mut RingPutter,
    notes: u32,
    tells: bool,
    progress: &Progress,
) -> bool {
    for time in 1..TIMES + 1 {
        let _ = sleep(rt, Duration::from_millis(ASLEEP));
        if !put_burst(putter, notes, time) {
            return false;
        }
        if tells {
            putter.tell();
        }
        if !progress.reaches(time.wrapping_mul(notes)) {
            return false;
        }
    }
    true
}

/// Whether a taker asleep takes so many notes in time, each time that they are put and the putter then rings or not.
pub fn is_told_in_time<R: Threads + Wait + Clock + Sync>(
    rt: &R,
    ends: Ends,
    notes: u32,
    tells: bool,
) -> bool {
    let Ends {
        putter,
        taker,
        sleeper,
    } = ends;
    let mut putter = putter.ringing_late();
    let progress = Progress::new();
    let shared = &progress;
    let (in_time, ()) = join(
        rt,
        move || {
            let in_time = put_in_bursts(rt, &mut putter, notes, tells, shared);
            shared.leave();
            drop(putter);
            in_time
        },
        move || take_until_left(rt, taker, sleeper, shared),
    );
    in_time
}

/// Half of the room wakes the taker, and so does a putter that says so.
#[test]
fn a_taker_asleep_is_told_late(rt: HostRuntime) {
    for (notes, tells) in TOLD {
        let ends = for_a_taker_that_sleeps(&rt, rt.alloc(), ROOM);
        let in_time = is_told_in_time(&rt, ends, notes, tells);
        assert!(rt; in_time, "{notes} notes");
    }
}

/// Sleeps until there is a note, and takes it: whether one came before time was up.
fn take_asleep<R: Wait>(
    rt: &R,
    taker: &mut RingTaker,
    sleeper: &mut Sleeper,
    progress: &Progress,
) -> bool {
    for _ in rt.forever() {
        if taker.try_take().is_some() {
            sleeper.stir();
            return true;
        }
        if progress.has_left() {
            return false;
        }
        sleeper.rest(rt);
    }
    false
}

/// One of two threads that hand a note to and fro, each asleep until it has it.
#[derive(Drop)]
struct Partner {
    putter: RingPutter,
    taker: RingTaker,
    sleeper: Sleeper,
}

impl Partner {
    /// Puts each note once the other thread is asleep, and then waits for the answer.
    fn ask<R: Wait + Clock>(mut self, rt: &R, progress: &Progress) {
        for number in 0..NOTES {
            let _ = sleep(rt, Duration::from_millis(1));
            let put = self.putter.try_put(Note::Close { count: number });
            if put.is_err() || !take_asleep(rt, &mut self.taker, &mut self.sleeper, progress) {
                break;
            }
            progress.step();
        }
    }

    /// Waits for each note, and then puts the answer.
    fn answer<R: Wait>(mut self, rt: &R, progress: &Progress) {
        for number in 0..NOTES {
            if !take_asleep(rt, &mut self.taker, &mut self.sleeper, progress) {
                break;
            }
            let _ = self.putter.try_put(Note::Close { count: number });
        }
    }
}

/// Whether all notes come to and fro in time. Where they don't, these bells wake both threads.
fn come_in_time(progress: &Progress, bells: (Bell, Bell)) -> bool {
    let in_time = progress.reaches(NOTES);
    progress.leave();
    drop(bells);
    in_time
}

/// Who asks and who answers. The one who asks rings late.
fn partners(rt: &impl Abort, alloc: Global) -> (Partner, Partner) {
    let (asking, asked) = ring(alloc, ROOM).expect(rt, "memory");
    let (answering, answered) = ring(alloc, ROOM).expect(rt, "memory");
    let answerer = Sleeper::new(alloc).expect(rt, "memory");
    let asking = asking.with_bell(bell_of(rt, &answerer)).ringing_late();
    let asker = asking.new_sleeper(alloc).expect(rt, "memory");
    let answering = answering.with_bell(bell_of(rt, &asker));
    let first = Partner {
        putter: asking,
        taker: answered,
        sleeper: asker,
    };
    let second = Partner {
        putter: answering,
        taker: asked,
        sleeper: answerer,
    };
    (first, second)
}

/// Who rings late tells the other by its sleeper before it sleeps.
#[test]
fn a_putter_tells_its_taker_before_it_sleeps(rt: HostRuntime) {
    let (first, second) = partners(&rt, rt.alloc());
    let bells = (bell_of(&rt, &first.sleeper), bell_of(&rt, &second.sleeper));
    let progress = Progress::new();
    let (shared, handle) = (&progress, &rt);
    let (in_time, _) = join(
        handle,
        || come_in_time(shared, bells),
        || {
            join(
                handle,
                || first.ask(handle, shared),
                || second.answer(handle, shared),
            )
        },
    );
    assert!(rt; in_time);
}
