//! A tree of relays that run one after another, in one thread.
use super::comparing::assert_same;
use super::watches::{Pair, open, pair_of, run_well};
use std::process::Abort;
use std::sync::Wait;
use wcp_clock::{Clock, Item, Note};
use wcp_lane::Taker;
use wcp_model::Parent;
use wcp_tree::{Bundle, LiveProbe, Relay, Watch};

/// Snapshot 0 of a process that has neither sent nor received, of two.
fn first_snap(from: u32) -> Item {
    Item {
        from,
        note: Note::Snap {
            number: 0,
            clock: Clock::new(2),
        },
    }
}

/// The close mark of a process that has emitted so many snapshots.
fn close_mark(from: u32, count: u32) -> Item {
    Item {
        from,
        note: Note::Close { count },
    }
}

/// Runs the relays, from the last on. None meets a fault.
fn run_from_last(rt: &(impl Abort + Wait), relays: Vec<Relay>) {
    for relay in relays.into_iter().rev() {
        run_well(rt, relay);
    }
}

/// Process 1 closes, and process 0 emits a snapshot and closes.
fn close_second_first(rt: &(impl Abort + Wait), pair: Pair) {
    let Pair { mut first, second } = pair;
    assert_same(rt, second.close_in_watch(rt).emitted(), 0);
    assert!(rt; first.observe(true));
    first.flush_in_watch(rt);
    assert_same(rt, first.close_in_watch(rt).emitted(), 1);
}

/// Takes a bundle, which is of just this item.
fn assert_takes(rt: &(impl Abort + Wait), taker: &mut Taker<Bundle>, item: Item) {
    let bundle = taker.take(rt).expect(rt, "a bundle");
    assert_same(rt, bundle.items(), [item].as_slice());
}

/// Takes these items, each as a bundle of its own. Then nothing comes any more, since the lane is cut.
fn assert_brings(rt: &(impl Abort + Wait), mut taker: Taker<Bundle>, items: &[Item]) {
    for item in items {
        assert_takes(rt, &mut taker, *item);
    }
    assert!(rt; taker.take(rt).is_err());
}

/// The inner relay holds an item of one leaf, and has room for one more, when it takes a bundle of two of the other
/// leaf: the second of these waits until the two before it were passed on.
#[test]
fn what_does_not_fit_in_a_hold_comes_behind(rt: HostRuntime) {
    let parents = [Parent::Root, Parent::Relay(0), Parent::Relay(0)];
    let Watch {
        probes,
        relays,
        inbox,
    } = open(&rt, rt.alloc(), (2, 8, 2), &parents, &[Some(1), Some(2)]);
    close_second_first(&rt, pair_of(&rt, probes));
    run_from_last(&rt, relays);
    let items = [close_mark(1, 0), first_snap(0), close_mark(0, 1)];
    assert_brings(&rt, inbox.into_taker(), &items);
}
