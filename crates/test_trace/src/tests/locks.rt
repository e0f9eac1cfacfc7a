use crate::tests::answering::assert_answer;
use trace_moment::Lasting;

/// The lease of alice runs out, and bob gets the lock while she still writes.
const LEASE_RUNS_OUT: &[u8] = b"server {\"server\":1}\nstarts\n\
alice {\"alice\":1}\nasks\n\
server {\"server\":2,\"alice\":1}\ngrants to alice\n\
alice {\"alice\":2,\"server\":2}\nholds the lock\n\
bob {\"bob\":1}\nasks\n\
server {\"server\":3,\"alice\":1,\"bob\":1}\nlets bob wait\n\
server {\"server\":4,\"alice\":1,\"bob\":1}\ngrants to bob\n\
alice {\"alice\":3,\"server\":2}\nwrites x\n\
bob {\"bob\":2,\"server\":4,\"alice\":1}\nholds the lock\n\
alice {\"alice\":4,\"server\":2}\nfrees the lock\n\
bob {\"bob\":3,\"server\":4,\"alice\":1}\nfrees the lock\n";

/// The server waits until alice has freed the lock.
const LEASE_IS_WAITED_FOR: &[u8] = b"alice {\"alice\":1}\nasks\n\
server {\"server\":1,\"alice\":1}\ngrants to alice\n\
alice {\"alice\":2,\"server\":1}\nholds the lock\n\
bob {\"bob\":1}\nasks\n\
alice {\"alice\":3,\"server\":1}\nwrites x\n\
alice {\"alice\":4,\"server\":1}\nfrees the lock\n\
server {\"server\":2,\"alice\":4,\"bob\":1}\ngrants to bob\n\
bob {\"bob\":2,\"server\":2,\"alice\":4}\nholds the lock\n\
bob {\"bob\":3,\"server\":2,\"alice\":4}\nfrees the lock\n";

/// Bob takes the lock though he knows that alice took it.
const BOB_KNOWS: &[u8] = b"alice {\"alice\":1}\nholds the lock\n\
bob {\"bob\":1,\"alice\":1}\nholds the lock\n\
alice {\"alice\":2}\nfrees the lock\n\
bob {\"bob\":2,\"alice\":1}\nfrees the lock\n";

/// Bob knows of events of alice that weren't logged: her third is the next one in the log, or her second was the last.
const LEFT_OUT: &[(&[u8], &str)] = &[
    (
        b"alice {\"alice\":1}\nholds the lock\nalice {\"alice\":3}\nfrees it\nbob {\"bob\":7,\"alice\":2}\nholds it\n",
        "line 6: alice 2 holds the lock bob 6 holds it",
    ),
    (
        b"alice {\"alice\":1}\nholds the lock\nalice {\"alice\":3}\nfrees it\nbob {\"bob\":7,\"alice\":3}\nholds it\n",
        "none",
    ),
    (
        b"alice {\"alice\":1}\nholds the lock\nbob {\"bob\":7,\"alice\":2}\nholds it\n",
        "end: alice 2 holds the lock bob 4 holds it",
    ),
    (
        b"alice {\"alice\":1}\nholds the lock\nbob {\"bob\":7,\"alice\":2}\nholds it\nalice {\"alice\":3}\nfrees it\n",
        "line 6: alice 2 holds the lock bob 4 holds it",
    ),
    (
        b"alice {\"alice\":1}\nholds the lock\nbob {\"bob\":7,\"alice\":2}\nholds it\nalice {\"alice\":2}\nfrees it\n",
        "none",
    ),
    // an event of bob at which he doesn't hold the lock passes what alice held before it
    (
        b"alice {\"alice\":1}\nholds the lock\nalice {\"alice\":2}\nholds it still\n\
bob {\"bob\":1,\"alice\":2}\nasks\nbob {\"bob\":2,\"alice\":2}\nholds it\n",
        "line 8: alice 4 holds it still bob 8 holds it",
    ),
];

#[test]
fn two_hold_the_lock(rt: HostRuntime) {
    let held = "line 18: alice 8 holds the lock bob 18 holds the lock";
    for (lasting, bytes, expected) in [
        (Lasting::While, LEASE_RUNS_OUT, held),
        (Lasting::At, LEASE_RUNS_OUT, held),
        (Lasting::While, LEASE_IS_WAITED_FOR, "none"),
    ] {
        assert_answer(&rt, rt.alloc(), lasting, bytes, expected);
    }
}

/// At the events alone there is no moment, since one happened before the other.
#[test]
fn a_false_none_under_at(rt: HostRuntime) {
    let held = "line 4: alice 2 holds the lock bob 4 holds the lock";
    assert_answer(&rt, rt.alloc(), Lasting::While, BOB_KNOWS, held);
    assert_answer(&rt, rt.alloc(), Lasting::At, BOB_KNOWS, "none");
}

#[test]
fn events_left_out(rt: HostRuntime) {
    for (bytes, expected) in LEFT_OUT {
        assert_answer(&rt, rt.alloc(), Lasting::While, bytes, expected);
    }
}
