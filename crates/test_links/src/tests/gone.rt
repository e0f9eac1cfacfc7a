use super::comparing::assert_same;
use super::rings::{assert_puts, assert_takes, snapshot};
use std::sync::Wait;
use std::thread;
use wcp_ring::{RingPutter, RingTaker, ring};

/// How many rings are filled, each by a thread that drops its end while another takes.
const ROUNDS: u32 = 2_000;

/// How many notes are put into each.
const NOTES: u32 = 3;

#[test]
fn an_end_is_gone_once_what_is_left_of_it_was_dropped(rt: HostRuntime) {
    let (mut putter, mut taker) = ring(rt.alloc(), 2).expect(&rt, "memory");
    assert!(rt; !taker.gone());
    assert_puts(&rt, &mut putter, snapshot(0));
    let end = putter.end();
    assert!(rt; !taker.gone());
    drop(end);
    assert!(rt; taker.gone());
    assert_takes(&rt, &mut taker, Some(snapshot(0)));
    assert_takes(&rt, &mut taker, None);
    assert!(rt; taker.gone());
}

#[test]
fn an_end_that_takes_is_gone_once_it_was_dropped(rt: HostRuntime) {
    let (mut putter, mut taker) = ring(rt.alloc(), 2).expect(&rt, "memory");
    assert!(rt; putter.linked().is_ok());
    assert_puts(&rt, &mut putter, snapshot(0));
    assert_takes(&rt, &mut taker, Some(snapshot(0)));
    assert!(rt; putter.linked().is_ok());
    drop(taker);
    assert!(rt; putter.linked().is_err());
}

fn put_and_drop(mut putter: RingPutter) {
    for number in 0..NOTES {
        let _ = putter.try_put(snapshot(number));
    }
}

/// Takes until the ring is gone and then empty: how many notes came.
fn take_until_gone(rt: &impl Wait, mut taker: RingTaker) -> u32 {
    let mut came = 0u32;
    for _ in rt.forever() {
        let gone = taker.gone();
        match taker.try_take() {
            Some(_) => came = came.wrapping_add(1),
            None if gone => break,
            None => thread::yield_now(),
        }
    }
    came
}

#[test]
fn nothing_is_left_in_a_ring_that_is_gone_and_then_empty(rt: HostRuntime) {
    for _ in 0..ROUNDS {
        let (putter, taker) = ring(rt.alloc(), NOTES).expect(&rt, "memory");
        let ((), came) = thread::join(
            &rt,
            move || put_and_drop(putter),
            move || take_until_gone(&rt, taker),
        );
        assert_same(&rt, came, NOTES);
    }
}
