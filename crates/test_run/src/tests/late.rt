//! Snapshots that come to the checker while their worker waits.
ghost use Rattle.test_run.specs.Ready.{IsReadyWorker};

use super::two_threads::{Ended, Parts, parts_of, run_both};
use std::alloc::Global;
use std::process::Abort;
use std::sync::Wait;
use std::sync::atomic::AtomicBool;
use std::sync::atomic::Ordering::SeqCst;
use std::thread::{Threads, join};
use std::time::Clock;
use wcp_tree::{CheckerInbox, Relay};
use wcp_worker::Gate;

/// For how many milliseconds the second worker does nothing, so that the relay is asleep after them.
const ASLEEP: u64 = 30;

/// Process 1 emits a snapshot and makes one more step.
const TWO_STEPS: &[u8] = b"wcp 1\nprocs 2\ncap 8\np 1 true\np 1 false\n";

/// Process 1 emits a snapshot and waits for a message of process 0.
const ONE_MESSAGE: &[u8] = b"wcp 1\nprocs 2\ncap 8\np 0 send 1\np 1 true\np 1 recv 0\n";

/// Lets a process make one of its steps only once a snapshot of process 1 has come to the checker.
#[derive(Drop)]
struct AfterArrival {
    process: u32,
    step: u64,
    came: AtomicBool,
}

impl AfterArrival {
    fn new(process: u32, step: u64) -> AfterArrival {
        AfterArrival {
            process,
            step,
            came: AtomicBool::new(false),
        }
    }
}

impl Gate for AfterArrival {
    fn pass(&self, p: u32, step: u64) -> bool {
        (p, step) != (self.process, self.step) || self.came.load(SeqCst)
    }
}

/// Takes what comes to the checker, and opens the gate for what process 1 has put.
fn take_all(rt: &impl Wait, inbox: CheckerInbox, gate: &AfterArrival) {
    let mut taker = inbox.into_taker();
    for _ in rt.forever() {
        let Ok(bundle) = taker.take(rt) else {
            return;
        };
        if bundle.last_item().from == 1 {
            gate.came.store(true, SeqCst);
        }
    }
}

/// Runs a relay, and takes what comes to the checker.
fn take_beside<R: Threads + Wait + Sync>(
    rt: &R,
    relay: Relay,
    inbox: CheckerInbox,
    gate: &AfterArrival,
) {
    join(
        rt,
        move || drop(relay.run(rt)),
        move || take_all(rt, inbox, gate),
    );
}

/// Both workers do all, where this gate holds one back until the snapshot of process 1 has come.
fn assert_comes<R: Threads + Wait + Clock + Sync + Abort>(
    rt: &R,
    alloc: Global,
    text: &[u8],
    gate: &AfterArrival,
) {
    let Parts {
        first,
        second,
        relay,
        inbox,
    } = parts_of(rt, alloc, text);
    let second_ended = AtomicBool::new(false);
    let shared = &second_ended;
    let ((first, second), _) = join(
        rt,
        move || -> (Ended, Ended)
            requires { IsReadyWorker first × IsReadyWorker second }
        { run_both(rt, first, second, gate, ASLEEP, shared) },
        move || take_beside(rt, relay, inbox, gate),
    );
    assert!(rt; first.emitted.is_some() && second.emitted.is_some());
}

#[test]
fn what_a_worker_put_comes_while_its_gate_holds_it_back(rt: HostRuntime) {
    assert_comes(&rt, rt.alloc(), TWO_STEPS, &AfterArrival::new(1, 1));
}

#[test]
fn what_a_worker_put_comes_while_it_waits_for_a_message(rt: HostRuntime) {
    assert_comes(&rt, rt.alloc(), ONE_MESSAGE, &AfterArrival::new(0, 0));
}
