//! A start gate, at which two threads sleep until it is opened or given up.
use std::process::Abort;
use std::sync::Wait;
use std::sync::atomic::AtomicU32;
use std::sync::atomic::Ordering::SeqCst;
use std::thread::{Threads, join, sleep};
use std::time::{Clock, Duration};
use wcp_threads::StartGate;

/// How often the threads that wait are looked at while the gate is closed, once both are at it, and how many
/// milliseconds pass before each look.
const LOOKS: u32 = 60;

const BETWEEN_LOOKS: u64 = 5;

/// A gate, how many threads have come to it, and how many have left it.
#[derive(Drop)]
struct Watched {
    gate: StartGate,
    came: AtomicU32,
    left: AtomicU32,
}

/// Passes the gate: whether it was opened.
fn pass<R: Wait>(rt: &R, watched: &Watched) -> bool {
    watched.came.fetch_add(1, SeqCst);
    let opened = watched.gate.pass(rt);
    watched.left.fetch_add(1, SeqCst);
    opened
}

/// Waits until both threads have come to the gate.
fn wait_for_both<R: Wait + Clock>(rt: &R, watched: &Watched) {
    for _ in rt.forever() {
        if watched.came.load(SeqCst) == 2 {
            return;
        }
        let _ = sleep(rt, Duration::from_millis(BETWEEN_LOOKS));
    }
}

/// Whether a thread leaves the gate while it is looked at.
fn is_left<R: Clock>(rt: &R, watched: &Watched) -> bool {
    for _ in 0..LOOKS {
        let _ = sleep(rt, Duration::from_millis(BETWEEN_LOOKS));
        if watched.left.load(SeqCst) > 0 {
            return true;
        }
    }
    false
}

/// Opens the gate, or gives it up, once both threads have been at it for long: whether one of them had left it before.
fn tell_late<R: Wait + Clock>(rt: &R, watched: &Watched, opened: bool) -> bool {
    wait_for_both(rt, watched);
    let early = is_left(rt, watched);
    watched.gate.tell(rt, opened);
    early
}

/// Two threads stay at a gate until it is told this, which they answer.
fn assert_told<R: Threads + Wait + Sync + Clock + Abort>(rt: &R, opened: bool) {
    let watched = Watched {
        gate: StartGate::new(),
        came: AtomicU32::new(0),
        left: AtomicU32::new(0),
    };
    let (early, told) = join(
        rt,
        || tell_late(rt, &watched, opened),
        || join(rt, || pass(rt, &watched), || pass(rt, &watched)),
    );
    assert_eq!(rt; (early, told), (false, (opened, opened)));
    assert_eq!(rt; watched.left.load(SeqCst), 2);
}

#[test]
fn threads_wait_until_their_gate_is_opened(rt: HostRuntime) {
    assert_told(&rt, true);
}

#[test]
fn threads_wait_until_their_gate_is_given_up(rt: HostRuntime) {
    assert_told(&rt, false);
}
