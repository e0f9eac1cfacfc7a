//! Notes that one thread puts into a ring and another takes out of it: `bench_calls ring NOTES`. Each of the two yields
//! where it can't go on.

use crate::taken::Taken;
use crate::words::number_at;
use std::alloc::{AllocError, Global};
use std::sync::Wait;
use std::thread::{Threads, join, yield_now};
use wcp_clock::{Clock, Note};
use wcp_ring::{RingPutter, RingTaker, ring};

/// The room of the ring.
const ROOM: u32 = 64;

fn put_all(rt: &impl Wait, putter: &mut RingPutter, notes: u32) {
    let clock = Clock::new(16);
    let mut number = 0u32;
    for _ in rt.forever() {
        if number == notes {
            break;
        }
        if putter.try_put(Note::Snap { number, clock }).is_ok() {
            number = number.wrapping_add(1);
        } else {
            yield_now();
        }
    }
}

fn take_all(rt: &impl Wait, taker: &mut RingTaker, notes: u32) -> Taken {
    let mut taken = Taken::nothing();
    for _ in rt.forever() {
        if taken.notes == notes {
            break;
        }
        match taker.try_take() {
            Some(note) => taken.add(&note),
            None => yield_now(),
        }
    }
    taken
}

/// Puts and takes so many notes, each in a thread of its own.
fn put_and_take<R: Threads + Wait + Sync>(
    rt: &R,
    alloc: Global,
    notes: u32,
) -> Result<Taken, AllocError> {
    let (mut putter, mut taker) = ring(alloc, ROOM)?;
    let ((), taken) = join(
        rt,
        || put_all(rt, &mut putter, notes),
        || take_all(rt, &mut taker, notes),
    );
    Ok(taken)
}

/// Puts and takes the notes that the words ask for, and prints what was taken.
pub fn make_calls<R: Threads + Wait + Print + AllocGlobal + Sync>(
    rt: &R,
    words: &[String],
) -> anyhow::Result<()> {
    let taken = put_and_take(rt, rt.alloc(), number_at(words, 0))?;
    Ok(taken.print(rt)?)
}
