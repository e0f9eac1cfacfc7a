//! Watches whose probes and relays run in threads of their own.
use super::watches::run_relay;
use std::process::Abort;
use std::sync::Wait;
use std::thread::{Threads, join, map_vec};
use wcp_clock::{MAX_PROCS, Note};
use wcp_lane::Taker;
use wcp_tree::{Bundle, LiveProbe, Relay, RelayFault, Watch};

/// How a process leaves.
#[derive(Clone, Copy)]
pub enum Leaving {
    /// Its probe is closed.
    Closed,
    /// Its probe is dropped.
    Lost,
}

/// Emits so many snapshots, with a send behind each, and leaves: how many it emitted, where it closed.
fn emit_all(
    rt: &(impl Abort + Wait),
    mut probe: LiveProbe,
    snapshots: u32,
    leaving: Leaving,
) -> Option<u32> {
    let to = if probe.id() == 0 { 1 } else { 0 };
    for _ in 0..snapshots {
        probe.observe(true);
        probe.flush_in_watch(rt);
        assert!(rt; probe.stamp(to, ()).is_ok());
    }
    match leaving {
        Leaving::Closed => Some(probe.close_in_watch(rt).emitted()),
        Leaving::Lost => None,
    }
}

/// Runs probes, each in a thread of its own, of which each emits so many snapshots: how many those emitted that closed.
fn run_probes<R: Threads + Wait + Abort + Sync>(
    rt: &R,
    probes: Vec<LiveProbe>,
    snapshots: u32,
    leaving: Leaving,
) -> Vec<Option<u32>> {
    map_vec(
        rt,
        probes,
        &|probe: LiveProbe| emit_all(rt, probe, snapshots, leaving),
    )
    .expect(rt, "memory")
}

/// Runs relays, each in a thread of its own: the faults that they meet.
pub fn run_relays<R: Threads + Wait + Abort + Sync>(
    rt: &R,
    relays: Vec<Relay>,
) -> Vec<Option<RelayFault>> {
    map_vec(rt, relays, &|relay: Relay| run_relay(rt, relay)).expect(rt, "memory")
}

/// What became of a watch that ran.
#[derive(Drop)]
pub struct Ran {
    /// How many snapshots each process emitted, where it closed.
    pub emitted: Vec<Option<u32>>,
    /// The fault of each relay.
    pub faults: Vec<Option<RelayFault>>,
    /// What arrived of each process.
    pub arrivals: [Arrival; MAX_PROCS],
}

/// The probes and relays run, each in a thread of its own, and the inbox is emptied.
pub fn run_and_take<R: Threads + Wait + Abort + Sync>(
    rt: &R,
    watch: Watch,
    processes: u32,
    snapshots: u32,
    leaving: Leaving,
) -> Ran {
    let Watch {
        probes,
        relays,
        inbox,
    } = watch;
    let taker = inbox.into_taker();
    let (emitted, rest) = join(
        rt,
        || run_probes(rt, probes, snapshots, leaving),
        || {
            join(
                rt,
                || run_relays(rt, relays),
                || take_all(rt, taker, processes),
            )
        },
    );
    let (faults, arrivals) = rest;
    Ran {
        emitted,
        faults,
        arrivals,
    }
}

/// What arrived of a process.
#[derive(Clone, Copy, Debug, PartialEq, Eq)]
pub enum Arrival {
    /// So many snapshots, in their order.
    Open(u32),
    /// So many snapshots, in their order, and then the close mark.
    Closed(u32),
    /// So many snapshots, in their order, and then the mark that the process was lost.
    Lost(u32),
    /// Something at a wrong place.
    Disorder,
}

impl Arrival {
    fn then(self, note: &Note) -> Arrival {
        match (self, note) {
            (Arrival::Open(count), Note::Snap { number, .. }) if *number == count => {
                Arrival::Open(count.saturating_add(1))
            }
            (Arrival::Open(count), Note::Close { count: all }) if *all == count => {
                Arrival::Closed(count)
            }
            (Arrival::Open(count), Note::Lost { count: all }) if *all == count => {
                Arrival::Lost(count)
            }
            _ => Arrival::Disorder,
        }
    }
}

/// Notes what arrives with a bundle.
fn arrive(arrivals: &mut [Arrival; MAX_PROCS], bundle: &Bundle) {
    for item in bundle.items() {
        if let Some(arrival) = arrivals.get_mut(item.from as usize) {
            *arrival = arrival.then(&item.note);
        }
    }
}

/// Takes until a last note came of each of so many processes, or the lane is cut: what arrived of each.
pub fn take_all<R: Wait>(rt: &R, mut taker: Taker<Bundle>, processes: u32) -> [Arrival; MAX_PROCS] {
    let mut arrivals = [Arrival::Open(0); MAX_PROCS];
    let mut ended = 0u32;
    for _ in rt.forever() {
        let Ok(bundle) = taker.take(rt) else {
            break;
        };
        arrive(&mut arrivals, &bundle);
        if bundle.last_item().note.is_last() {
            ended = ended.saturating_add(1);
        }
        if ended >= processes {
            break;
        }
    }
    arrivals
}
