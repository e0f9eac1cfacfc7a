//! Watches of plans that are checked, their parts, and the runs of their relays.
use super::comparing::assert_same;
use std::alloc::{AllocError, Global};
use std::process::Abort;
use std::sync::Wait;
use wcp_lane::Taker;
use wcp_model::{Parent, Plan, Watched, plain_plan};
use wcp_tree::{Bundle, LiveProbe, Relay, RelayFault, Watch, watch};

/// Watch 7 of a plan of these numbers, parents and attachments. `Err` where memory runs out.
fn open_once(
    rt: &impl Abort,
    alloc: Global,
    (n, cap, hold): (u32, u32, u32),
    parents: &[Parent],
    attach: &[Option<u32>],
) -> Result<Watch, AllocError> {
    let parents = Vec::from_slice(alloc, parents)?;
    let attach = Vec::from_slice(alloc, attach)?;
    let plan = Plan::new(n, cap, hold, parents, attach, Watched::all(n.min(16)));
    assert!(rt; plan.check().is_ok());
    watch(alloc, &plan, 7)
}

/// Watch 7 of a plan of these numbers, parents and attachments. Where memory runs out, asking again makes it.
pub fn open(
    rt: &impl Abort,
    alloc: Global,
    numbers: (u32, u32, u32),
    parents: &[Parent],
    attach: &[Option<u32>],
) -> Watch {
    match open_once(rt, alloc, numbers, parents, attach) {
        Ok(opened) => opened,
        Err(_) => open_once(rt, alloc, numbers, parents, attach).expect(rt, "memory"),
    }
}

/// The parts of a watch with one relay.
#[derive(Drop)]
pub struct UnderOneRelay {
    pub probes: Vec<LiveProbe>,
    pub relay: Relay,
    pub taker: Taker<Bundle>,
}

/// The parts of watch 7 of so many processes under one relay, with this room in links, inboxes and holds.
pub fn open_under_one_relay(
    rt: &impl Abort,
    alloc: Global,
    processes: u32,
    cap: u32,
    hold: u32,
) -> UnderOneRelay {
    let plan = plain_plan(alloc, processes, cap, hold).expect(rt, "memory");
    assert!(rt; plan.check().is_ok());
    let Watch {
        probes,
        relays,
        inbox,
    } = watch(alloc, &plan, 7).expect(rt, "memory");
    UnderOneRelay {
        probes,
        relay: only_relay(rt, relays),
        taker: inbox.into_taker(),
    }
}

/// The one of these relays.
fn only_relay(rt: &impl Abort, mut relays: Vec<Relay>) -> Relay {
    let relay = relays.pop().expect(rt, "a relay");
    assert_same(rt, relay.number(), 0);
    relay
}

/// The one of these probes.
pub fn only_probe(rt: &impl Abort, mut probes: Vec<LiveProbe>) -> LiveProbe {
    probes.pop().expect(rt, "a probe")
}

/// The probes of two processes.
#[derive(Drop)]
pub struct Pair {
    pub first: LiveProbe,
    pub second: LiveProbe,
}

/// The two of these probes.
pub fn pair_of(rt: &impl Abort, mut probes: Vec<LiveProbe>) -> Pair {
    let second = probes.pop().expect(rt, "a probe");
    let first = only_probe(rt, probes);
    Pair { first, second }
}

/// Runs a relay: the fault that it meets.
pub fn run_relay(rt: &impl Wait, relay: Relay) -> Option<RelayFault> {
    relay.run(rt).fault()
}

/// Runs a relay, which meets no fault.
pub fn run_well(rt: &(impl Abort + Wait), relay: Relay) {
    assert!(rt; run_relay(rt, relay).is_none());
}

/// The process emits a snapshot, for which its link has room, and sends.
pub fn emit_and_send(rt: &impl Abort, probe: &mut LiveProbe) {
    assert!(rt; probe.observe(true) && probe.flush());
    assert!(rt; probe.stamp(1, ()).is_ok());
}

/// The process closes: its link has room for the mark.
pub fn close(rt: &impl Abort, probe: LiveProbe) {
    assert!(rt; probe.close().is_ok());
}
