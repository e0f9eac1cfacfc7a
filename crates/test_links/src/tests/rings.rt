ghost use Rattle.std.specs.Prelude.{◌≡◌, ◌<◌, ◌≤◌};

use super::comparing::assert_same;
use std::alloc::Global;
use std::process::Abort;
use std::sync::Wait;
use std::thread;
use std::thread::Threads;
use wcp_clock::{Clock, Note};
use wcp_ring::{PutterEnd, RingPutter, RingTaker, match_ends, ring};

/// The notes that one thread puts and another takes.
const NOTES: u32 = 100_000;

pub fn snapshot(number: u32) -> Note {
    Note::Snap {
        number,
        clock: Clock::new(2),
    }
}

/// The ring has room for the note.
pub fn assert_puts(rt: &impl Abort, putter: &mut RingPutter, note: Note)
    ensures { putter.new.ring ≡ putter.old.ring }
{
    assert!(rt; putter.try_put(note).is_ok());
}

/// This is the ring's next note, or it has none.
pub fn assert_takes(rt: &impl Abort, taker: &mut RingTaker, note: Option<Note>)
    ensures { taker.new.ring ≡ taker.old.ring }
{
    assert_same(rt, taker.try_take(), note);
}

/// A ring. Where memory runs out, asking again makes it.
fn ring_of(rt: &impl Abort, alloc: Global, cap: u32) -> (RingPutter, RingTaker)
    requires some { 0 < cap }
    requires within { cap ≤ 1024 }
    ensures { result.0.ring ≡ result.1.ring }
{
    match ring(alloc, cap) {
        Ok(ends) => ends,
        Err(_) => ring(alloc, cap).expect(rt, "memory"),
    }
}

/// Ends both ends of a ring: whether all that was put was taken.
fn end_and_match(putter: RingPutter, taker: RingTaker) -> bool
    requires { putter.ring ≡ taker.ring }
{
    match_ends(putter.end(), taker).is_ok()
}

#[test]
fn one_note_through_a_ring_of_one(rt: HostRuntime) {
    let (mut putter, mut taker) = ring_of(&rt, rt.alloc(), 1);
    assert_takes(&rt, &mut taker, None);
    assert_puts(&rt, &mut putter, snapshot(0));
    assert_same(&rt, putter.try_put(snapshot(1)), Err(snapshot(1)));
    assert_takes(&rt, &mut taker, Some(snapshot(0)));
    assert_takes(&rt, &mut taker, None);
    assert!(rt; end_and_match(putter, taker));
}

#[test]
fn a_note_left_in_a_ring(rt: HostRuntime) {
    let (mut putter, taker) = ring_of(&rt, rt.alloc(), 1);
    assert_puts(&rt, &mut putter, snapshot(0));
    assert!(rt; !end_and_match(putter, taker));
}

fn put_waiting(rt: &impl Wait, putter: &mut RingPutter, note: Note)
    ensures { putter.new.ring ≡ putter.old.ring }
{
    let mut note = note;
    for _ in rt.forever() {
        match putter.try_put(note) {
            Ok(()) => return,
            Err(back) => note = back,
        }
        thread::yield_now();
    }
    unreachable!()
}

fn put_all(rt: &impl Wait, putter: RingPutter) -> PutterEnd
    ensures { result.ring ≡ putter.ring }
{
    let mut putter = putter;
    for number in 0..NOTES {
        put_waiting(rt, &mut putter, snapshot(number));
    }
    putter.end()
}

fn take_waiting(rt: &impl Wait, taker: &mut RingTaker) -> Note
    ensures { taker.new.ring ≡ taker.old.ring }
{
    for _ in rt.forever() {
        if let Some(note) = taker.try_take() {
            return note;
        }
        thread::yield_now();
    }
    unreachable!()
}

/// Takes all notes, and counts those that came at their place.
fn take_all(rt: &impl Wait, taker: RingTaker) -> (RingTaker, u32)
    ensures { result.0.ring ≡ taker.ring }
{
    let mut taker = taker;
    let mut in_place = 0u32;
    for number in 0..NOTES {
        if take_waiting(rt, &mut taker) == snapshot(number) {
            in_place = in_place.wrapping_add(1);
        }
    }
    (taker, in_place)
}

/// One thread puts all notes and another takes them: how many came at their place. What was put is what was taken.
fn across<R: Threads + Wait + Abort + Sync>(rt: &R, alloc: Global, cap: u32) -> u32
    requires some { 0 < cap }
    requires within { cap ≤ 1024 }
{
    let (putter, taker) = ring_of(rt, alloc, cap);
    let (end, (taker, in_place)) = thread::join(
        rt,
        move || -> PutterEnd
            ensures { result.ring ≡ putter.ring }
        { put_all(rt, putter) },
        move || -> (RingTaker, u32)
            ensures { result.0.ring ≡ taker.ring }
        { take_all(rt, taker) },
    );
    assert!(rt; match_ends(end, taker).is_ok());
    in_place
}

#[test]
fn all_notes_between_two_threads(rt: HostRuntime) {
    assert_same(&rt, across(&rt, rt.alloc(), 4), NOTES);
}
