//! What each process of a watch did, and what is said where that looks wrong.
use crossbeam_channel::{Receiver, Sender, unbounded};
use std::process::Abort;
use std::sync::{Mutex, Wait};
use std::thread::Threads;
use wullaphi::{
    Book, LentProbe, Loan, Process, ProcessCounts, Stamped, WatchOutcome, Watched, plain_plan,
    watch_processes,
};

/// Process 0 stamps two letters and sends one, by `stamp` and by `send`. Process 1 receives the one, and observes. The
/// third does nothing.
#[derive(Drop)]
enum Clerk {
    Author(Sender<Stamped<u32>>),
    Printer(Receiver<Stamped<u32>>),
    Idler,
}

impl Process for Clerk {
    type Shared = ();

    type Answer = bool;

    fn run<L: Loan, R: Wait>(self, rt: &R, probe: &mut LentProbe<L>, _shared: &()) -> bool {
        match self {
            Clerk::Author(letters) => {
                probe.observe(rt, false);
                probe.hold(rt);
                let lost = probe.stamp(1, 6).is_ok();
                lost && probe.stamp(0, 7).is_err() && probe.send(rt, &letters, 1, 8).is_ok()
            }
            Clerk::Printer(letters) => {
                let printed = probe.recv(rt, &letters).is_ok();
                probe.observe(rt, true);
                printed && probe.stamp_open(9).is_ok()
            }
            Clerk::Idler => true,
        }
    }
}

/// Watches the three, of which these have a condition.
fn watch<R: Threads + Wait + Sync + AllocGlobal + Abort>(
    rt: &R,
    watched: Watched,
) -> WatchOutcome<bool> {
    let (to_printer, letters) = unbounded(rt.alloc()).expect(rt, "memory");
    let clerks = vec![in rt.alloc();
        Clerk::Author(to_printer),
        Clerk::Printer(letters),
        Clerk::Idler,
    ];
    let clerks = clerks.expect(rt, "memory");
    let mut plan = plain_plan(rt.alloc(), 3, 8, 4).expect(rt, "memory");
    plan.watched = watched;
    let book = Mutex::new(Book::new(3));
    watch_processes(rt, rt.alloc(), &plan, 1, clerks, &(), &book).expect(rt, "a watch")
}

/// The report of this watch is this text.
fn assert_report(rt: &(impl Abort + AllocGlobal), told: &WatchOutcome<bool>, report: &str) {
    let mut text = String::new(rt.alloc());
    told.push_report(&mut text).expect(rt, "memory");
    assert_eq!(rt; text.as_str(), report);
}

#[test]
fn what_each_process_did_is_counted(rt: HostRuntime) {
    let told = watch(&rt, Watched::all(3));
    assert!(&rt; told.answers.as_slice() == [true; 3].as_slice());
    let author = ProcessCounts {
        watched: true,
        observed: 3,
        held: 2,
        stamped: 2,
        received: 1,
    };
    let printer = ProcessCounts {
        watched: true,
        observed: 1,
        held: 1,
        stamped: 0,
        received: 0,
    };
    let idler = ProcessCounts {
        watched: true,
        observed: 0,
        held: 0,
        stamped: 0,
        received: 0,
    };
    assert!(&rt; told.counts.as_slice() == [author, printer, idler].as_slice());
}

#[test]
fn what_looks_wrong_is_said(rt: HostRuntime) {
    let report = "none\n\
        process 0 emitted 2 taken 2\n\
        process 1 emitted 1 taken 1\n\
        process 2 emitted 0 taken 0\n\
        total emitted 3 taken 3\n\
        warning: messages of process 0: 2 stamped, 1 received\n\
        warning: process 2 never observed its condition\n";
    assert_report(&rt, &watch(&rt, Watched::all(3)), report);
}

#[test]
fn a_process_without_a_condition_need_not_observe(rt: HostRuntime) {
    let report = "found 2 1 -\n\
        process 0 emitted 2 taken 2\n\
        process 1 emitted 1 taken 1\n\
        process 2 emitted 0 taken 0\n\
        total emitted 3 taken 3\n\
        warning: messages of process 0: 2 stamped, 1 received\n";
    assert_report(&rt, &watch(&rt, Watched::pair(0, 1)), report);
}
