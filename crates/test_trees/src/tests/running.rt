//! Watches that run in threads, whole or with a relay that is gone.
use super::comparing::{assert_same, assert_same_at};
use super::threads::{Arrival, Leaving, Ran, run_and_take};
use super::watches::open;
use std::alloc::Global;
use std::process::Abort;
use std::sync::Wait;
use std::thread::Threads;
use wcp_clock::MAX_PROCS;
use wcp_model::Parent;
use wcp_tree::{RelayFault, Watch};

/// The snapshots of each probe.
const SNAPSHOTS: u32 = 100;

/// How many snapshots a process emitted that left so, where it closed.
fn emitted_by(leaving: Leaving) -> Option<u32> {
    match leaving {
        Leaving::Closed => Some(SNAPSHOTS),
        Leaving::Lost => None,
    }
}

/// What arrives of a process that leaves so in a whole watch.
fn whole_arrival(leaving: Leaving) -> Arrival {
    match leaving {
        Leaving::Closed => Arrival::Closed(SNAPSHOTS),
        Leaving::Lost => Arrival::Lost(SNAPSHOTS),
    }
}

/// All processes left so.
fn assert_emitted(rt: &impl Abort, emitted: &[Option<u32>], leaving: Leaving) {
    let expected = emitted_by(leaving);
    for (process, emitted) in emitted.iter().enumerate() {
        assert_same_at(rt, *emitted, expected, "process", process);
    }
}

/// The lane of the first relay was cut, or was not, and no other one met a fault.
fn assert_faults(rt: &impl Abort, faults: &[Option<RelayFault>], is_first_cut: bool) {
    for (relay, fault) in faults.iter().enumerate() {
        let is_cut = matches!(fault, Some(RelayFault::Cut(_)));
        let expected = is_first_cut && relay == 0;
        assert_same_at(
            rt,
            (is_cut, fault.is_some()),
            (expected, expected),
            "relay",
            relay,
        );
    }
}

/// Of so many processes, which left so, and so many relays: the same arrived of each process. The lane of the first
/// relay was cut, or was not, and no other one met a fault.
fn assert_ran(
    rt: &impl Abort,
    ran: &Ran,
    numbers: (usize, usize),
    leaving: Leaving,
    is_first_cut: bool,
    arrival: Arrival,
) {
    assert_same(rt, (ran.emitted.len(), ran.faults.len()), numbers);
    assert_emitted(rt, ran.emitted.as_slice(), leaving);
    assert_faults(rt, ran.faults.as_slice(), is_first_cut);
    assert_same(rt, ran.arrivals, [arrival; MAX_PROCS]);
}

/// Sixteen processes under three levels of relays.
fn open_three_levels(rt: &impl Abort, alloc: Global) -> Watch {
    let mut attach = Vec::new(alloc);
    for p in 0..16 {
        attach.push(Some(3 + p / 4)).expect(rt, "memory");
    }
    let [left, right] = [Parent::Relay(1), Parent::Relay(2)];
    let root = Parent::Relay(0);
    let parents = [Parent::Root, root, root, left, left, right, right];
    open(rt, alloc, (16, 2, 3), &parents, &attach)
}

#[test]
fn sixteen_probes_under_three_levels_of_relays(rt: HostRuntime) {
    for leaving in [Leaving::Closed, Leaving::Lost] {
        let watch = open_three_levels(&rt, rt.alloc());
        let ran = run_and_take(&rt, watch, 16, SNAPSHOTS, leaving);
        assert_ran(&rt, &ran, (16, 7), leaving, false, whole_arrival(leaving));
    }
}

/// A watch of two processes below the last of these relays, of which the first one is gone.
fn open_without_root(rt: &impl Abort, alloc: Global, parents: &[Parent], leaf: u32) -> Watch {
    let mut watch = open(rt, alloc, (2, 1, 1), parents, &[Some(leaf), Some(leaf)]);
    assert!(rt; watch.relays.len() > 0);
    drop(watch.relays.remove(0));
    watch
}

/// Two processes leave below the last of these relays, of which the first one is gone: nothing arrives, the lane of the
/// next relay is cut, and each other one ends without a fault.
fn leave_without_root<R: Threads + Wait + Abort + Sync>(
    rt: &R,
    alloc: Global,
    parents: &[Parent],
    leaf: u32,
) {
    for leaving in [Leaving::Closed, Leaving::Lost] {
        let watch = open_without_root(rt, alloc, parents, leaf);
        let ran = run_and_take(rt, watch, 2, SNAPSHOTS, leaving);
        assert_ran(
            rt,
            &ran,
            (2, leaf as usize),
            leaving,
            true,
            Arrival::Open(0),
        );
    }
}

#[test]
fn probes_leave_where_the_relay_above_is_gone(rt: HostRuntime) {
    let parents = [Parent::Root, Parent::Relay(0)];
    leave_without_root(&rt, rt.alloc(), &parents, 1);
}

/// The middle one of three relays finds its parent gone: the leaf below it ends without a fault all the same.
#[test]
fn an_inner_relay_goes_on_taking_where_its_parent_is_gone(rt: HostRuntime) {
    let parents = [Parent::Root, Parent::Relay(0), Parent::Relay(1)];
    leave_without_root(&rt, rt.alloc(), &parents, 2);
}
