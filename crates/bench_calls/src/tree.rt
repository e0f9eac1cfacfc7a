//! A watch of sixteen processes, two under each of eight leaves, which are under one other relay: `bench_calls tree
//! SNAPSHOTS`. Each process makes so many snapshots, with a send behind each, and closes. Each process and each relay
//! runs in a thread of its own.

use crate::taken::Taken;
use crate::words::number_at;
use anyhow::bail;
use std::alloc::{AllocError, Global};
use std::sync::Wait;
use std::thread::{Threads, join, map_vec};
use wcp_lane::Taker;
use wcp_model::{Parent, Plan, Watched};
use wcp_tree::{Bundle, LiveProbe, Relay, Watch, watch};

/// How many notes each ring, each lane and each hold has room for.
const ROOM: u32 = 64;

fn plan_of_eight_leaves(alloc: Global) -> Result<Plan, AllocError> {
    let mut parents = vec![in alloc; Parent::Root]?;
    let mut attach = Vec::new(alloc);
    for leaf in 1..9 {
        parents.push(Parent::Relay(0))?;
        attach.push(Some(leaf))?;
        attach.push(Some(leaf))?;
    }
    Ok(Plan::new(16, ROOM, ROOM, parents, attach, Watched::all(16)))
}

/// Makes the snapshots and closes.
fn run_process(rt: &impl Wait, mut probe: LiveProbe, snapshots: u32) {
    let to = if probe.id() == 0 { 1 } else { 0 };
    for _ in 0..snapshots {
        probe.observe(true);
        probe.flush_in_watch(rt);
        let _ = probe.stamp(to, ());
    }
    drop(probe.close_in_watch(rt));
}

/// Takes until the lane is cut, as it is once all relays have ended.
fn take_all(rt: &impl Wait, mut taker: Taker<Bundle>) -> Taken {
    let mut taken = Taken::nothing();
    for _ in rt.forever() {
        let Ok(bundle) = taker.take(rt) else {
            break;
        };
        for item in bundle.items() {
            taken.add(&item.note);
        }
    }
    taken
}

/// Runs each process and each relay. `Err` where memory runs out.
fn run_watch<R: Threads + Wait + Sync>(
    rt: &R,
    probes: Vec<LiveProbe>,
    relays: Vec<Relay>,
    snapshots: u32,
) -> Result<(), AllocError> {
    let (probes, relays) = join(
        rt,
        || map_vec(
            rt,
            probes,
            &|probe: LiveProbe| run_process(rt, probe, snapshots),
        ),
        || map_vec(rt, relays, &|relay: Relay| drop(relay.run(rt))),
    );
    probes?;
    relays?;
    Ok(())
}

/// Runs the watch that the words ask for, and prints what came.
pub fn make_calls<R: Threads + Wait + Print + AllocGlobal + Sync>(
    rt: &R,
    words: &[String],
) -> anyhow::Result<()> {
    let plan = plan_of_eight_leaves(rt.alloc())?;
    if plan.check().is_err() {
        bail!("no such plan");
    }
    let Watch {
        probes,
        relays,
        inbox,
    } = watch(rt.alloc(), &plan, 0)?;
    let (ran, taken) = join(
        rt,
        || run_watch(rt, probes, relays, number_at(words, 0)),
        || take_all(rt, inbox.into_taker()),
    );
    ran?;
    Ok(taken.print(rt)?)
}
