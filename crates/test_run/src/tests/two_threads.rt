ghost use Rattle.test_run.specs.Ready.{IsReadyWorker};

use super::outcomes::workload_of;
use std::alloc::Global;
use std::process::Abort;
use std::sync::Wait;
use std::sync::atomic::AtomicBool;
use std::sync::atomic::Ordering::SeqCst;
use std::thread::{Threads, join, sleep};
use std::time::{Clock, Duration};
use wcp_tree::{CheckerInbox, Relay, watch};
use wcp_worker::{Gate, Open, Worker, WorkerEnd, WorkerFault, open_workers};

/// Process 0 observes and sends, and process 1 receives and observes; then it sends what nobody receives.
const ONE_MESSAGE: &[u8] =
    b"wcp 1\nprocs 2\np 0 true\np 0 send 1\np 1 recv 0\np 1 true\np 1 send 0\n";

/// Process 1 fills its link, of which the last relay takes, and waits for a message of process 0. Process 2 waits for
/// one of process 1.
const ONE_AFTER_ANOTHER: &[u8] =
    b"wcp 1\nprocs 3\ncap 1\nrelay 0 root\nrelay 1 0\nrelay 2 0\nattach 0 1\nattach 1 2\nattach 2 1\n\
p 1 true\np 0 send 1\np 1 recv 0\np 1 send 2\np 2 recv 1\n";

/// The workers of the last two processes of a watch, its last relay and the checker's inbox.
#[derive(Drop)]
pub struct Parts {
    pub first: Worker,
    pub second: Worker,
    pub relay: Relay,
    pub inbox: CheckerInbox,
}

/// The parts of the watch of a text.
pub fn parts_of(rt: &impl Abort, alloc: Global, text: &[u8]) -> Parts
    ensures { IsReadyWorker result.first × IsReadyWorker result.second }
{
    let workload = workload_of(rt, alloc, text);
    let opened = watch(alloc, &workload.plan, 7).expect(rt, "memory");
    let mut workers = open_workers(alloc, &workload, opened.probes).expect(rt, "memory");
    let mut relays = opened.relays;
    let second = workers.pop().expect(rt, "two workers");
    let first = workers.pop().expect(rt, "two workers");
    Parts {
        first,
        second,
        relay: relays.pop().expect(rt, "a relay"),
        inbox: opened.inbox,
    }
}

/// How a worker ended: how many snapshots it emitted where it did all, and whether it gave up since a lane was cut.
#[derive(Clone, Copy)]
pub struct Ended {
    pub emitted: Option<u32>,
    met_cut: bool,
}

fn end_of(end: &WorkerEnd) -> Ended {
    match end {
        WorkerEnd::Whole { probe, .. } => Ended {
            emitted: Some(probe.emitted()),
            met_cut: false,
        },
        WorkerEnd::GaveUp { fault, .. } => Ended {
            emitted: None,
            met_cut: matches!(fault, WorkerFault::Cut(_)),
        },
    }
}

/// Runs a worker.
fn run_worker<R: Wait, G: Gate>(rt: &R, worker: Worker, gate: &G) -> Ended
    requires { IsReadyWorker worker }
{
    end_of(&worker.run(rt, gate))
}

/// Runs two workers, each in a thread, the second once so many milliseconds have passed, and sets this once the second
/// has ended.
pub fn run_both<R: Threads + Wait + Clock + Sync, G: Gate + Sync>(
    rt: &R,
    first: Worker,
    second: Worker,
    gate: &G,
    delay: u64,
    second_ended: &AtomicBool,
) -> (Ended, Ended)
    requires { IsReadyWorker first × IsReadyWorker second }
{
    join(
        rt,
        move || -> Ended
            requires { IsReadyWorker first }
        { run_worker(rt, first, gate) },
        move || -> Ended
            requires { IsReadyWorker second }
        {
            let _ = sleep(rt, Duration::from_millis(delay));
            let end = run_worker(rt, second, gate);
            second_ended.store(true, SeqCst);
            end
        },
    )
}

/// Waits until this is set, for some twenty seconds at most: whether it was.
fn is_set_in_time<R: Clock>(rt: &R, flag: &AtomicBool) -> bool {
    for _ in 0..2_000 {
        if flag.load(SeqCst) {
            return true;
        }
        let _ = sleep(rt, Duration::from_millis(10));
    }
    false
}

/// Runs both workers, and once the second has ended their relay, without a checker. Where the second doesn't end in
/// time, the relay runs all the same, and the test fails.
fn run_before_relay<R: Threads + Wait + Clock + Sync + Abort>(
    rt: &R,
    alloc: Global,
    text: &[u8],
) -> (Ended, Ended) {
    let Parts {
        first,
        second,
        relay,
        inbox,
    } = parts_of(rt, alloc, text);
    drop(inbox);
    let second_ended = AtomicBool::new(false);
    let shared = &second_ended;
    let (ends, in_time) = join(
        rt,
        move || -> (Ended, Ended)
            requires { IsReadyWorker first × IsReadyWorker second }
        { run_both(rt, first, second, &Open, 0, shared) },
        move || {
            let in_time = is_set_in_time(rt, shared);
            drop(relay.run(rt));
            in_time
        },
    );
    assert!(rt; in_time);
    ends
}

#[test]
fn two_workers_do_all(rt: HostRuntime) {
    let (first, second) = run_before_relay(&rt, rt.alloc(), ONE_MESSAGE);
    assert_eq!(rt; (first.emitted, second.emitted), (Some(1), Some(1)));
}

/// The worker of process 0 is gone, so that of process 1 gives up. It can't close its probe before its relay runs, and
/// lets go the worker of process 2 before.
#[test]
fn a_worker_that_gives_up_lets_its_partners_go_first(rt: HostRuntime) {
    let (first, second) = run_before_relay(&rt, rt.alloc(), ONE_AFTER_ANOTHER);
    assert!(rt; first.met_cut && second.met_cut);
}
