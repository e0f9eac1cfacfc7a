//! Probes whose link is full: they sleep at it, or are lost.
use super::comparing::assert_same;
use super::threads::{Arrival, take_all};
use super::watches::{
    Pair, UnderOneRelay, emit_and_send, open_under_one_relay, pair_of, run_relay,
};
use std::alloc::Global;
use std::process::Abort;
use std::sync::Wait;
use std::thread::{Threads, join, sleep};
use std::time::{Clock, Duration};
use wcp_clock::MAX_PROCS;
use wcp_lane::Taker;
use wcp_probe::Refusal;
use wcp_tree::{Bundle, LiveProbe, Relay, RelayFault};

/// For how many milliseconds a relay is held up, so that a probe at a full link is asleep after them.
const HELD_UP: u64 = 30;

/// The probe, the relay and the inbox of one process, whose link has room for two notes and is full. A third note is
/// pending.
#[derive(Drop)]
pub struct FullLink {
    pub probe: LiveProbe,
    pub relay: Relay,
    pub taker: Taker<Bundle>,
}

/// The process fills its link. The next note has no room in it, so the next send is refused.
fn fill_link(rt: &impl Abort, probe: &mut LiveProbe) {
    for _ in 0..2 {
        emit_and_send(rt, probe);
    }
    assert!(rt; probe.observe(true) && !probe.flush());
    assert_same(rt, probe.stamp(1, 6).err(), Some((Refusal::Backlog, 6)));
}

/// Of two processes the second one is lost, and the first one, which is handed out, has a full link.
fn lose_second_and_fill(rt: &impl Abort, probes: Vec<LiveProbe>) -> LiveProbe {
    let Pair { mut first, second } = pair_of(rt, probes);
    drop(second);
    fill_link(rt, &mut first);
    first
}

pub fn full_link(rt: &impl Abort, alloc: Global) -> FullLink {
    let UnderOneRelay {
        probes,
        relay,
        taker,
    } = open_under_one_relay(rt, alloc, 2, 2, 4);
    FullLink {
        probe: lose_second_and_fill(rt, probes),
        relay,
        taker,
    }
}

/// Runs the relay late, and takes all that comes of the two processes.
fn run_late<R: Threads + Wait + Clock + Sync>(
    rt: &R,
    relay: Relay,
    taker: Taker<Bundle>,
) -> (Option<RelayFault>, [Arrival; MAX_PROCS]) {
    let _ = sleep(rt, Duration::from_millis(HELD_UP));
    join(rt, || run_relay(rt, relay), || take_all(rt, taker, 2))
}

/// It fills the link once more after it woke, and sleeps there again before it closes: how many snapshots it emitted.
fn fill_again(rt: &(impl Abort + Wait), mut probe: LiveProbe) -> u32 {
    for _ in 0..8 {
        assert!(rt; probe.flush_waiting(rt).is_ok());
        assert!(rt; probe.stamp(1, ()).is_ok());
        probe.observe(true);
    }
    let end = probe.close_waiting(rt).ok().expect(rt, "a relay");
    end.emitted()
}

#[test]
fn a_probe_asleep_at_a_full_link_wakes_for_room(rt: HostRuntime) {
    let FullLink {
        probe,
        relay,
        taker,
    } = full_link(&rt, rt.alloc());
    let handle = &rt;
    let (emitted, (fault, arrivals)) = join(
        handle,
        || fill_again(handle, probe),
        || run_late(handle, relay, taker),
    );
    assert_same(&rt, (emitted, fault), (11, None));
    assert_same(&rt, arrivals[0], Arrival::Closed(11));
}

/// At a full link whose relay is gone a probe is told that its note can't be put, and then that it can't close. It
/// comes back open, with its note.
fn assert_told(rt: &(impl Abort + Wait), mut probe: LiveProbe) {
    assert!(rt; probe.flush_waiting(rt).is_err());
    let (_, mut same) = probe.close_waiting(rt).err().expect(rt, "a probe");
    assert_same(rt, same.id(), 0);
    assert!(rt; !same.flush() && same.stamp(1, ()).is_err());
}

#[test]
fn a_probe_asleep_at_a_full_link_is_told_that_its_relay_is_gone(rt: HostRuntime) {
    let FullLink {
        probe,
        relay,
        taker,
    } = full_link(&rt, rt.alloc());
    let handle = &rt;
    join(
        handle,
        || assert_told(handle, probe),
        || {
            let _ = sleep(handle, Duration::from_millis(HELD_UP));
            drop(relay);
        },
    );
    drop(taker);
}
