use super::outcomes::{assert_comes_to, found, workload_of};
use std::alloc::Global;
use std::process::Abort;
use std::sync::Wait;
use std::thread::Threads;
use wcp_script::single;
use wcp_worker::Open;

/// Eight relays in a chain, each with room for one.
const CHAIN: &[u8] =
    b"wcp 1\nprocs 2\ncap 1\nrelay 0 root\nrelay 1 0\nrelay 2 1\nrelay 3 2\nrelay 4 3\nrelay 5 4\n\
relay 6 5\nrelay 7 6\nattach 0 7\nattach 1 7\np 0 true\np 0 send 1\np 0 true\np 1 recv 0\np 1 true\n";

/// Three leaves put on one lane.
const THREE_LEAVES: &[u8] =
    b"wcp 1\nprocs 3\nrelay 0 root\nrelay 1 0\nrelay 2 0\nrelay 3 0\nattach 0 1\nattach 1 2\n\
attach 2 3\np 0 true\np 0 send 1\np 1 true\np 1 recv 0\np 1 send 2\np 2 recv 1\np 2 true\n";

/// Two satisfying cuts, of which one is less.
const TWO_CUTS: &[u8] = b"wcp 1\nprocs 2\np 0 true\np 0 send 1\np 0 true\np 1 true\np 1 recv 0\n";

/// A message that no task receives.
const NEVER_RECEIVED: &[u8] = b"wcp 1\nprocs 2\np 0 true\np 0 send 1\np 1 true\n";

/// A message goes round, and each is true in its turn.
const IN_TURN: &[u8] =
    b"wcp 1\nprocs 3\np 0 true\np 0 send 1\np 1 recv 0\np 1 true\np 1 send 2\np 2 recv 1\n\
p 2 true\np 2 send 0\np 0 recv 2\np 0 true\n";

/// The threads come to the outcome that one thread gives.
fn assert_agrees<R: Threads + Wait + Sync + Abort>(rt: &R, alloc: Global, text: &[u8]) {
    let workload = workload_of(rt, alloc, text);
    let outcome = single(alloc, &workload).expect(rt, "memory");
    assert_comes_to(rt, alloc, &workload, &Open, &outcome);
}

#[test]
fn runs_agree_with_one_thread(rt: HostRuntime) {
    for text in [CHAIN, THREE_LEAVES, TWO_CUTS, NEVER_RECEIVED, IN_TURN] {
        assert_agrees(&rt, rt.alloc(), text);
    }
}

#[test]
fn a_run_takes_all_after_its_first_cut(rt: HostRuntime) {
    let workload = workload_of(&rt, rt.alloc(), TWO_CUTS);
    let outcome = found([0, 0], [2, 1]);
    assert_comes_to(&rt, rt.alloc(), &workload, &Open, &outcome);
}
