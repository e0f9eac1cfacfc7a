//! Gates that tell whether each worker runs in a thread of its own.
use super::outcomes::{assert_comes_to, fault_of, found, workload_of};
use crossbeam_utils::CachePadded;
use std::sync::atomic::Ordering::SeqCst;
use std::sync::atomic::{AtomicBool, AtomicU32};
use std::thread::yield_now;
use wcp_clock::GATE_TURNS;
use wcp_run::RunFault;
use wcp_worker::Gate;

/// Each process is true once, and neither sends.
const TWO_CONCURRENT: &[u8] = b"wcp 1\nprocs 2\np 0 true\np 1 true\n";

/// Process 0 is true before and after its send, and process 1 once it has received.
const TRUE_AGAIN_AFTER_SEND: &[u8] =
    b"wcp 1\nprocs 2\np 0 true\np 0 send 1\np 0 true\np 1 recv 0\np 1 true\n";

/// Process 1 receives two messages of process 0.
const TWO_MESSAGES: &[u8] =
    b"wcp 1\nprocs 2\np 0 send 1\np 0 send 1\np 0 true\np 1 recv 0\np 1 recv 0\np 1 true\n";

/// Process 0 sends to process 1, and process 2 is true.
const ONE_STEP_EACH: &[u8] = b"wcp 1\nprocs 3\np 0 send 1\np 1 recv 0\np 2 true\n";

/// How often the sender is told to ask again.
const REFUSALS: u32 = 100_000;

/// Waits until this is set: whether it was, in the turns that a gate has.
fn is_set_in_time(flag: &AtomicBool) -> bool {
    for _ in 0..GATE_TURNS {
        if flag.load(SeqCst) {
            return true;
        }
        yield_now();
    }
    false
}

/// Lets two workers make their first step once both are at it. Where one waits in vain for the other, it lets nobody
/// pass any more.
#[derive(Drop)]
struct Meeting {
    first: AtomicBool,
    second: AtomicBool,
    spoilt: AtomicBool,
}

impl Meeting {
    fn new() -> Meeting {
        Meeting {
            first: AtomicBool::new(false),
            second: AtomicBool::new(false),
            spoilt: AtomicBool::new(false),
        }
    }

    /// The mark of process `p`, and that of the other.
    fn marks(&self, p: u32) -> (&AtomicBool, &AtomicBool) {
        if p == 0 {
            (&self.first, &self.second)
        } else {
            (&self.second, &self.first)
        }
    }
}

impl Gate for Meeting {
    fn pass(&self, p: u32, _step: u64) -> bool {
        let (own, other) = self.marks(p);
        own.store(true, SeqCst);
        if self.spoilt.load(SeqCst) {
            return false;
        }
        let met = is_set_in_time(other);
        if !met {
            self.spoilt.store(true, SeqCst);
        }
        met
    }
}

#[test]
fn two_workers_are_at_their_gates_at_once(rt: HostRuntime) {
    let gate = Meeting::new();
    let outcome = found([0, 0], [1, 1]);
    let workload = workload_of(&rt, rt.alloc(), TWO_CONCURRENT);
    assert_comes_to(&rt, rt.alloc(), &workload, &gate, &outcome);
    assert!(rt; gate.first.load(SeqCst) && gate.second.load(SeqCst));
}

/// Holds the sender back before its send until the receiver is at its receive, and for many answers more. It notes
/// where the receiver comes past its receive meanwhile.
#[derive(Drop)]
struct Latch {
    receiver_came: AtomicBool,
    asked: AtomicU32,
    sender_left: AtomicBool,
    receiver_went_on: AtomicBool,
}

impl Latch {
    fn new() -> Latch {
        Latch {
            receiver_came: AtomicBool::new(false),
            asked: AtomicU32::new(0),
            sender_left: AtomicBool::new(false),
            receiver_went_on: AtomicBool::new(false),
        }
    }

    /// Whether the sender may send.
    fn lets_send(&self) -> bool {
        let asked_before = self.asked.fetch_add(1, SeqCst);
        if asked_before == 0 {
            let _ = is_set_in_time(&self.receiver_came);
        }
        if asked_before < REFUSALS {
            return false;
        }
        self.sender_left.store(true, SeqCst);
        true
    }

    fn note_the_receiver(&self) {
        if !self.sender_left.load(SeqCst) {
            self.receiver_went_on.store(true, SeqCst);
        }
    }
}

impl Gate for Latch {
    fn pass(&self, p: u32, step: u64) -> bool {
        match (p, step) {
            (0, 1) => return self.lets_send(),
            (1, 0) => self.receiver_came.store(true, SeqCst),
            (1, 1) => self.note_the_receiver(),
            _ => {}
        }
        true
    }
}

#[test]
fn a_receiver_waits_for_a_sender_that_is_held_back(rt: HostRuntime) {
    let gate = Latch::new();
    let outcome = found([1, 1], [2, 1]);
    let workload = workload_of(&rt, rt.alloc(), TRUE_AGAIN_AFTER_SEND);
    assert_comes_to(&rt, rt.alloc(), &workload, &gate, &outcome);
    assert_eq!(rt; gate.asked.load(SeqCst), REFUSALS + 1);
    assert!(rt; !gate.receiver_went_on.load(SeqCst));
}

/// Holds the receiver back before its first receive until the sender has made both sends. It notes where it did so in
/// vain.
#[derive(Drop)]
struct SendsFirst {
    has_sent: AtomicBool,
    waited_in_vain: AtomicBool,
}

impl Gate for SendsFirst {
    fn pass(&self, p: u32, step: u64) -> bool {
        if p == 0 && step == 2 {
            self.has_sent.store(true, SeqCst);
        }
        if p == 1 && step == 0 && !is_set_in_time(&self.has_sent) {
            self.waited_in_vain.store(true, SeqCst);
        }
        true
    }
}

#[test]
fn a_sender_waits_for_no_receiver(rt: HostRuntime) {
    let gate = SendsFirst {
        has_sent: AtomicBool::new(false),
        waited_in_vain: AtomicBool::new(false),
    };
    let outcome = found([2, 2], [1, 1]);
    let workload = workload_of(&rt, rt.alloc(), TWO_MESSAGES);
    assert_comes_to(&rt, rt.alloc(), &workload, &gate, &outcome);
    assert!(rt; !gate.waited_in_vain.load(SeqCst));
}

/// Lets process 0 make its step at the last of a gate's turns, and the others never. It counts what each asks, apart
/// from one another, so that no worker waits for the count of another.
#[derive(Drop)]
struct LastTurn {
    asked: [CachePadded<AtomicU32>; 3],
}

impl LastTurn {
    fn new() -> LastTurn {
        LastTurn {
            asked: [0, 0, 0].map(|none| CachePadded::new(AtomicU32::new(none))),
        }
    }

    /// How often each worker has asked.
    fn asked(&self) -> [u32; 3] {
        self.asked.each_ref().map(|asked| asked.load(SeqCst))
    }
}

impl Gate for LastTurn {
    fn pass(&self, p: u32, _step: u64) -> bool {
        let Some(asked) = self.asked.get(p as usize) else {
            return false;
        };
        let turn = asked.fetch_add(1, SeqCst).wrapping_add(1);
        p == 0 && turn == GATE_TURNS
    }
}

/// The worker that passes at its last turn goes on, and of the two that are held back the lower one is told, also where
/// the first meets a cut since the second is gone.
#[test]
fn a_worker_is_held_back_for_all_turns(rt: HostRuntime) {
    let gate = LastTurn::new();
    let workload = workload_of(&rt, rt.alloc(), ONE_STEP_EACH);
    let fault = fault_of(&rt, rt.alloc(), &workload, &gate);
    assert_eq!(rt; fault, Some(RunFault::Held(1)));
    assert_eq!(rt; gate.asked(), [GATE_TURNS; 3]);
}
