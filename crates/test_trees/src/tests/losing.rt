//! Processes that are lost: their probes are dropped before they close.
use super::comparing::assert_same;
use super::full_links::{FullLink, full_link};
use super::threads::{Arrival, take_all};
use super::waiting::comes_before_close;
use super::watches::{Pair, UnderOneRelay, open_under_one_relay, pair_of, run_relay, run_well};
use std::sync::Wait;
use std::thread::{Threads, join, sleep};
use std::time::{Clock, Duration};
use wcp_clock::{Item, Note};
use wcp_lane::Taker;
use wcp_tree::{Bundle, Relay, RelayFault};

/// For how many milliseconds nothing comes, so that the leaf is asleep after them.
const ASLEEP: u64 = 30;

/// A note that is pending as the probe is dropped is gone with it.
#[test]
fn what_a_lost_process_put_into_a_full_link_comes(rt: HostRuntime) {
    let FullLink {
        probe,
        relay,
        taker,
    } = full_link(&rt, rt.alloc());
    drop(probe);
    run_well(&rt, relay);
    let arrivals = take_all(&rt, taker, 2);
    assert_same(
        &rt,
        (arrivals[0], arrivals[1]),
        (Arrival::Lost(2), Arrival::Lost(0)),
    );
}

/// Drops the first of two probes once its leaf is asleep: what comes to the root then, if anything does in time. Then
/// the other probe of the leaf closes, which wakes the leaf in any case.
fn drop_late<R: Wait + Clock>(rt: &R, pair: Pair, taker: Taker<Bundle>) -> Option<Item> {
    let Pair { first, second } = pair;
    let _ = sleep(rt, Duration::from_millis(ASLEEP));
    drop(first);
    comes_before_close(rt, second, taker)
}

/// The leaf runs, and beside it a probe is dropped late: the fault of the leaf, and what comes to the root then.
fn run_and_drop<R: Threads + Wait + Sync + Clock>(
    rt: &R,
    relay: Relay,
    pair: Pair,
    taker: Taker<Bundle>,
) -> (Option<RelayFault>, Option<Item>) {
    join(rt, || run_relay(rt, relay), || drop_late(rt, pair, taker))
}

#[test]
fn a_leaf_that_sleeps_wakes_where_a_probe_is_dropped(rt: HostRuntime) {
    let UnderOneRelay {
        probes,
        relay,
        taker,
    } = open_under_one_relay(&rt, rt.alloc(), 2, 8, 4);
    let pair = pair_of(&rt, probes);
    let mark = Item {
        from: 0,
        note: Note::Lost { count: 0 },
    };
    assert_same(
        &rt,
        run_and_drop(&rt, relay, pair, taker),
        (None, Some(mark)),
    );
}
