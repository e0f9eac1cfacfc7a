//! Probes that tell their relay late.
use super::threads::take_all;
use super::waiting::next_in_time;
use super::watches::{UnderOneRelay, only_probe, open_under_one_relay, run_relay};
use std::alloc::Global;
use std::process::Abort;
use std::sync::Wait;
use std::sync::atomic::AtomicBool;
use std::sync::atomic::Ordering::SeqCst;
use std::thread::{Threads, join, sleep, yield_now};
use std::time::{Clock, Duration};
use wcp_lane::Taker;
use wcp_ring::{Bell, Sleeper};
use wcp_tree::{Bundle, LiveProbe};

/// For how many milliseconds a process does nothing, so that its relay is asleep after them.
const ASLEEP: u64 = 30;

/// What a process does once it has put its one snapshot.
#[derive(Clone, Copy)]
enum Then {
    /// It tells its relay, and is busy until the snapshot has come to the root.
    Tells,
    /// It sleeps until the snapshot has come to the root.
    Sleeps,
    /// It closes.
    Closes,
}

/// Puts one snapshot once the relay is asleep.
fn put_one<R: Wait + Clock>(
    rt: &R,
    mut probe: LiveProbe,
    sleeper: Sleeper,
    then: Then,
    came: &AtomicBool,
) {
    let _ = sleep(rt, Duration::from_millis(ASLEEP));
    probe.observe(true);
    probe.flush_in_watch(rt);
    if matches!(then, Then::Tells) {
        probe.tell_relay();
    }
    wait_for(rt, sleeper, then, came);
    drop(probe.close_in_watch(rt));
}

/// Waits until this is set, as the process does so.
fn wait_for(rt: &impl Wait, mut sleeper: Sleeper, then: Then, came: &AtomicBool) {
    for _ in rt.forever() {
        if matches!(then, Then::Closes) || came.load(SeqCst) {
            break;
        }
        match then {
            Then::Sleeps => sleeper.rest(rt),
            _ => yield_now(),
        }
    }
}

/// Whether the snapshot comes to the root in time. After that the process is woken.
fn comes_in_time(rt: &impl Wait, mut taker: Taker<Bundle>, came: &AtomicBool, bell: Bell) -> bool {
    let in_time = next_in_time(rt, &mut taker).is_some();
    came.store(true, SeqCst);
    drop(bell);
    take_all(rt, taker, 1);
    in_time
}

/// Whether the one snapshot of a process comes to the root in time, where its probe tells late.
fn comes_late<R: Threads + Wait + Clock + Abort + Sync>(rt: &R, alloc: Global, then: Then) -> bool {
    let UnderOneRelay {
        probes,
        relay,
        taker,
    } = open_under_one_relay(rt, alloc, 1, 8, 4);
    let probe = only_probe(rt, probes).telling_late();
    let sleeper = probe.new_sleeper(alloc).expect(rt, "memory");
    let bell = sleeper.bell().expect(rt, "memory");
    let came = AtomicBool::new(false);
    let shared = &came;
    let (fault, (in_time, ())) = join(
        rt,
        || run_relay(rt, relay),
        || {
            join(
                rt,
                || comes_in_time(rt, taker, shared, bell),
                || put_one(rt, probe, sleeper, then, shared),
            )
        },
    );
    in_time && fault.is_none()
}

#[test]
fn a_relay_asleep_is_told_before_a_process_waits(rt: HostRuntime) {
    assert!(rt; comes_late(&rt, rt.alloc(), Then::Tells));
    assert!(rt; comes_late(&rt, rt.alloc(), Then::Sleeps));
    assert!(rt; comes_late(&rt, rt.alloc(), Then::Closes));
}
