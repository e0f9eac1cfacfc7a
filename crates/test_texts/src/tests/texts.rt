//! Texts, and what they are read as.
use std::process::Abort;
use wcp_model::Step;

/// A workload under a tree: a leaf for each of three processes, of which two are watched, and a relay above the leaves;
/// sends alone reset the flags.
pub const TREE: &[u8] =
    b"wcp 1\nprocs 3\ncap 1024\nhold 1\nrelay 0 root\nrelay 1 0\nrelay 2 0\nrelay 3 0\n\
attach 0 1\nattach 1 2\nattach 2 3\nwatch 0 2\nflag send\np 0 true\np 0 send 2\np 2 recv 0\np 1 false\n";

/// A workload whose head says nothing of relays, and of which a receive stands before its send.
pub const RECEIVE_FIRST: &[u8] =
    b"wcp 1\nprocs 2\nhold 1\np 1 recv 0\np 0 true\np 0 send 1\np 1 false\n";

/// A head that says all that a head can say.
pub const WHOLE: &[u8] =
    b"wcp 1\nprocs 2\ncap 1024\nhold 64\nrelay 0 root\nrelay 1 0\nrelay 2 0\nattach 0 2\nattach 1 1\nwatch 1\n\
flag send\n";

/// A schedule behind this head. Its step lines are the ten of a schedule, with numbers that no plan has.
pub const SCHEDULE: &[u8] =
    b"wcp 1\nprocs 2\ncap 1024\nhold 64\nrelay 0 root\nrelay 1 0\nrelay 2 0\nattach 0 2\nattach 1 1\nwatch 1\n\
flag send\nobserve 0 true\nobserve 7 false\nsend 0 0\nrecv 4294967295 4294967295\nclose 4294967295\ndrop 0\nput 1\n\
admit 15 16\npull 15\npass 0\ncheck\n";

/// Its steps.
const STEPS: &[Step] = &[
    Step::Observe(0, true),
    Step::Observe(7, false),
    Step::Send(0, 0),
    Step::Recv(4_294_967_295, 4_294_967_295),
    Step::Close(4_294_967_295),
    Step::Dropped(0),
    Step::Put(1),
    Step::Admit(15, 16),
    Step::Pull(15),
    Step::Pass(0),
    Step::Check,
];

/// Compares the steps of the schedule.
pub fn assert_steps(rt: &impl Abort, steps: &[Step]) {
    assert_eq!(rt; steps, STEPS);
}

/// Compares a text.
pub fn assert_text(rt: &impl Abort, text: &[u8], wanted: &[u8]) {
    assert_eq!(rt; text, wanted);
}
