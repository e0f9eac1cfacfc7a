//! What a relay does as it waits, and how much goes into a lane of a watch.
use super::comparing::{assert_same, assert_same_at};
use super::threads::{run_relays, take_all};
use super::watches::{
    Pair, UnderOneRelay, close, emit_and_send, only_probe, open, open_under_one_relay, pair_of,
    run_relay, run_well,
};
use std::alloc::Global;
use std::process::Abort;
use std::sync::Wait;
use std::sync::atomic::AtomicBool;
use std::sync::atomic::Ordering::SeqCst;
use std::thread::{Threads, join, yield_now};
use wcp_clock::{Clock, Item, Note};
use wcp_lane::{Origin, Taker};
use wcp_model::Parent;
use wcp_tree::{Bundle, LiveProbe, Relay, RelayFault, Watch};

/// How often a test looks for what is to come.
const LOOKS: u32 = 2_000_000;

/// How often a test looks for what must not come.
const FEW_LOOKS: u32 = 20_000;

/// The second process puts its close mark, and the first one three snapshots and its close mark. It sends after each
/// snapshot.
fn put_five(rt: &impl Abort, pair: Pair) {
    let Pair { mut first, second } = pair;
    close(rt, second);
    for _ in 0..3 {
        emit_and_send(rt, &mut first);
    }
    close(rt, first);
}

/// These are the three snapshots and the close mark of process 0.
fn assert_four(rt: &impl Abort, bundle: &Bundle) {
    assert_same(rt, bundle.len(), 4);
    for (place, item) in bundle.items().iter().enumerate() {
        assert_same(
            rt,
            (item.from, item.place(), item.last()),
            (0, place as u64, place == 3),
        );
    }
}

/// The inbox has room for four bundles, and five items come in two.
#[test]
fn what_a_process_put_in_a_row_comes_as_one_bundle(rt: HostRuntime) {
    let UnderOneRelay {
        probes,
        relay,
        mut taker,
    } = open_under_one_relay(&rt, rt.alloc(), 2, 4, 8);
    put_five(&rt, pair_of(&rt, probes));
    run_well(&rt, relay);
    assert_four(&rt, &taker.take(&rt).expect(&rt, "a bundle"));
}

/// The relay and the inbox of a watch whose processes have closed.
#[derive(Drop)]
struct Closed {
    relay: Relay,
    taker: Taker<Bundle>,
}

/// The relay and the inbox of a watch with room for two in its inbox, whose processes, so many, have closed.
fn closed_watch(rt: &impl Abort, alloc: Global, processes: u32) -> Closed {
    let UnderOneRelay {
        probes,
        relay,
        taker,
    } = open_under_one_relay(rt, alloc, processes, 2, 1);
    for probe in probes {
        close(rt, probe);
    }
    Closed { relay, taker }
}

/// Looks so many times whether this is set.
fn is_set_in(looks: u32, flag: &AtomicBool) -> bool {
    for _ in 0..looks {
        if flag.load(SeqCst) {
            return true;
        }
        yield_now();
    }
    false
}

/// Two close marks find room while nobody takes.
fn two_find_room(rt: &(impl Abort + Wait), alloc: Global) {
    let Closed { relay, taker } = closed_watch(rt, alloc, 2);
    run_well(rt, relay);
    drop(taker);
}

/// The fault of a relay that runs, and whether it ended before anything of three processes was taken.
fn run_and_take_late<R: Threads + Wait + Sync>(
    rt: &R,
    closed: Closed,
) -> (Option<RelayFault>, bool) {
    let Closed { relay, taker } = closed;
    let ended = AtomicBool::new(false);
    join(
        rt,
        || {
            let fault = run_relay(rt, relay);
            ended.store(true, SeqCst);
            fault
        },
        || {
            let early = is_set_in(FEW_LOOKS, &ended);
            take_all(rt, taker, 3);
            early
        },
    )
}

/// Each close mark goes over the lane alone: two find room while nobody takes, and a third waits.
#[test]
fn an_inbox_has_the_room_of_the_plan(rt: HostRuntime) {
    two_find_room(&rt, rt.alloc());
    let closed = closed_watch(&rt, rt.alloc(), 3);
    assert_same(&rt, run_and_take_late(&rt, closed), (None, false));
}

/// Takes the next bundle of the lane, and looks for it so many times.
pub fn next_in_time(rt: &impl Wait, taker: &mut Taker<Bundle>) -> Option<Bundle> {
    for _ in 0..LOOKS {
        match taker.try_take(rt) {
            Ok(Some(bundle)) => return Some(bundle),
            Ok(None) => yield_now(),
            Err(_) => return None,
        }
    }
    None
}

/// What comes to the root of a watch before its last probe closes, if anything does in time.
pub fn comes_before_close(
    rt: &impl Wait,
    probe: LiveProbe,
    mut taker: Taker<Bundle>,
) -> Option<Item> {
    let first = next_in_time(rt, &mut taker);
    drop(probe.close_in_watch(rt));
    take_all(rt, taker, 1);
    match first {
        Some(bundle) => Some(bundle.last_item()),
        None => None,
    }
}

/// Emits one snapshot, and is silent until it came to the root, or didn't in time. Then the probe closes.
fn emit_and_wait(rt: &impl Wait, mut probe: LiveProbe, taker: Taker<Bundle>) -> Option<Item> {
    probe.observe(true);
    probe.flush_in_watch(rt);
    comes_before_close(rt, probe, taker)
}

/// What comes to the root of these relays while the one process, below the last of them, is silent.
fn comes_in_silence<R: Threads + Wait + Abort + Sync>(
    rt: &R,
    alloc: Global,
    parents: &[Parent],
    leaf: u32,
) -> Option<Item> {
    let Watch {
        probes,
        relays,
        inbox,
    } = open(rt, alloc, (1, 8, 4), parents, &[Some(leaf)]);
    let (probe, taker) = (only_probe(rt, probes), inbox.into_taker());
    let (faults, first) = join(
        rt,
        || run_relays(rt, relays),
        || emit_and_wait(rt, probe, taker),
    );
    for fault in faults {
        assert!(rt; fault.is_none());
    }
    first
}

/// The first snapshot of the one process, before any event.
fn first_snap() -> Item {
    Item {
        from: 0,
        note: Note::Snap {
            number: 0,
            clock: Clock::new(1),
        },
    }
}

#[test]
fn an_item_comes_to_the_root_while_all_else_is_silent(rt: HostRuntime) {
    let parents = [Parent::Root, Parent::Relay(0)];
    for leaf in 0..2 {
        let relays = &parents[..leaf + 1];
        let came = comes_in_silence(&rt, rt.alloc(), relays, leaf as u32);
        assert_same_at(&rt, came, Some(first_snap()), "leaf", leaf);
    }
}
