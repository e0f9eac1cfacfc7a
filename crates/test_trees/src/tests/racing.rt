//! Probes that put a note and are dropped between two looks of their leaf at their rings.
use super::threads::{Arrival, take_all};
use super::watches::{UnderOneRelay, open_under_one_relay, run_relay};
use std::alloc::Global;
use std::process::Abort;
use std::sync::Wait;
use std::test::Fail;
use std::thread::{Threads, join, map_indices};
use std::time::{Clock, Duration, Instant};
use wcp_lane::Taker;
use wcp_tree::{Bundle, LiveProbe};

/// How many watches race at once, each in two threads: more than there are processors, so that now and then a leaf is
/// stopped between its looks at a ring.
const WATCHES: usize = 4;

/// For how many milliseconds they race, again and again.
const WHILE: u64 = 1_000;

const ROUNDS: u32 = 10_000;

const PROCESSES: u32 = 16;

/// How many snapshots process 0 emits at most.
const SNAPSHOTS: u32 = 20_000;

/// How often it is tried to put one: a leaf that runs makes room sooner.
const TRIES: u32 = 1_000;

/// Puts what is pending, unless the leaf is stopped. Whether it was put.
fn put_soon(probe: &mut LiveProbe) -> bool {
    for _ in 0..TRIES {
        if probe.flush() {
            return true;
        }
    }
    false
}

/// Emits snapshots until the leaf is stopped, which leaves the ring full, and takes what comes meanwhile.
fn emit_until_stopped(rt: &impl Wait, probe: &mut LiveProbe, taker: &mut Taker<Bundle>) {
    for _ in 0..SNAPSHOTS {
        probe.observe(true);
        if !put_soon(probe) {
            return;
        }
        let _ = probe.stamp(1, ());
        let _ = taker.try_take(rt);
    }
}

/// Process 0 keeps the leaf at work. Once the leaf is stopped each other process emits one snapshot, and all are lost.
fn emit_and_drop(
    rt: &impl Wait,
    probes: Vec<LiveProbe>,
    mut taker: Taker<Bundle>,
) -> Taker<Bundle> {
    for mut probe in probes {
        if probe.id() == 0 {
            emit_until_stopped(rt, &mut probe, &mut taker);
        } else {
            probe.observe(true);
            probe.flush();
        }
    }
    taker
}

/// Whether of each process of a watch but process 0 its snapshot came, and then the mark that it was lost.
fn all_come<R: Threads + Wait + Abort + Sync>(rt: &R, alloc: Global) -> bool {
    let UnderOneRelay {
        probes,
        relay,
        taker,
    } = open_under_one_relay(rt, alloc, PROCESSES, 128, 64);
    let (fault, taker) = join(
        rt,
        || run_relay(rt, relay),
        || emit_and_drop(rt, probes, taker),
    );
    let came = others_come(rt, taker);
    came && fault.is_none()
}

/// Whether of each process but process 0 its snapshot comes, and then the mark that it was lost.
fn others_come(rt: &impl Wait, taker: Taker<Bundle>) -> bool {
    take_all(rt, taker, PROCESSES)
        .iter()
        .skip(1)
        .all(|arrival| *arrival == Arrival::Lost(1))
}

/// Lets all watches race once: whether all came in each of them.
fn race<R: Threads + Wait + Abort + Sync>(rt: &R, alloc: Global) -> bool {
    map_indices(rt, alloc, WATCHES, &|_| all_come(rt, alloc))
        .expect(rt, "memory")
        .iter()
        .all(|came| *came)
}

#[test]
fn what_a_process_puts_before_it_is_lost_comes(rt: HostRuntime) -> Result<(), Fail> {
    let start = Instant::now(&rt)?;
    for _ in 0..ROUNDS {
        assert!(rt; race(&rt, rt.alloc()));
        if start.elapsed(&rt)? > Duration::from_millis(WHILE) {
            break;
        }
    }
    Ok(())
}
