//! A watch that is asked again where it was refused memory or a thread.
use std::alloc::{AllocError, Global};
use std::process::Abort;
use std::sync::{Mutex, Wait};
use std::thread::Threads;
use wullaphi::{
    Book, LentProbe, Loan, LosableProcess, Outcome, Plan, Process, ProcessCounts, Report, Tallies,
    Tally, WatchFault, WatchOutcome, plain_plan, watch_processes,
};

/// How often a process is true: more than the checker has room for at first.
const OFTEN: u32 = 20;

/// A process that is true so many times, each time before it sends a message that nobody receives. It answers how many
/// of these were accepted.
#[derive(Drop)]
struct Caller {
    times: u32,
}

impl Process for Caller {
    type Shared = ();

    type Answer = u32;

    fn run<L: Loan, R: Wait>(self, rt: &R, probe: &mut LentProbe<L>, _shared: &()) -> u32 {
        let mut accepted = 0u32;
        for _ in 0..self.times {
            probe.observe(rt, true);
            if probe.stamp(1, ()).is_ok() {
                accepted = accepted.saturating_add(1);
            }
        }
        accepted
    }
}

/// Watches one process that is often true, and one that never is.
fn watch<R: Threads + Wait + Sync>(
    rt: &R,
    alloc: Global,
    plan: &Plan,
    book: &Mutex<Book>,
) -> Result<WatchOutcome<u32>, WatchFault> {
    let callers = vec![in alloc; Caller { times: OFTEN }, Caller { times: 0 }]?;
    watch_processes(rt, alloc, plan, 1, callers, &(), book)
}

/// Watches them. Where memory runs out, or no thread can be made, asking again does it.
fn watch_again<R: Threads + Wait + Sync>(
    rt: &R,
    alloc: Global,
    plan: &Plan,
    book: &Mutex<Book>,
) -> Result<WatchOutcome<u32>, WatchFault> {
    match watch(rt, alloc, plan, book) {
        Err(WatchFault::Memory | WatchFault::Spawn) => watch(rt, alloc, plan, book),
        ended => ended,
    }
}

/// A plan of two processes. Where memory runs out, asking again makes it.
fn plan_of_two(rt: &impl Abort, alloc: Global) -> Plan {
    let plan = plain_plan(alloc, 2, 8, 4).or_else(|_| plain_plan(alloc, 2, 8, 4));
    plan.expect(rt, "memory")
}

/// The outcome of such a watch: all that the first process put was taken, and there is no cut.
fn assert_told(rt: &impl Abort, watched: &WatchOutcome<u32>) {
    let snapshots = u64::from(OFTEN);
    let often = Tally {
        emitted: snapshots,
        taken: snapshots,
    };
    let never = Tally {
        emitted: 0,
        taken: 0,
    };
    let outcome = Outcome {
        report: Report::Nothing,
        tallies: Tallies::new(&[often, never]),
    };
    assert!(rt; watched.outcome == outcome && watched.totals == often);
    assert!(rt; watched.answers.as_slice() == [OFTEN, 0].as_slice());
    let caller = ProcessCounts {
        watched: true,
        observed: snapshots,
        held: snapshots,
        stamped: snapshots,
        received: 0,
    };
    let silent = ProcessCounts {
        watched: true,
        observed: 0,
        held: 0,
        stamped: 0,
        received: 0,
    };
    assert!(rt; watched.counts.as_slice() == [caller, silent].as_slice());
}

#[test]
fn a_watch_that_was_refused_can_be_asked_again(rt: HostRuntime) {
    let plan = plan_of_two(&rt, rt.alloc());
    let book = Mutex::new(Book::new(2));
    let watched = watch_again(&rt, rt.alloc(), &plan, &book).expect(&rt, "a watch");
    assert_told(&rt, &watched);
}

/// A process that is true so many times, each time before it sends a message that nobody receives. Then it answers
/// whether its part is done.
#[derive(Drop)]
struct Leaver {
    times: u32,
    stays: bool,
}

impl LosableProcess for Leaver {
    type Shared = ();

    type Answer = bool;

    ghost done = { λ answer. answer };

    fn run<L: Loan, R: Wait>(self, rt: &R, probe: &mut LentProbe<L>, _shared: &()) -> bool {
        for _ in 0..self.times {
            probe.observe(rt, true);
            let _ = probe.stamp(1, ());
        }
        self.stays
    }

    fn is_done(answer: &bool) -> bool {
        *answer
    }
}

/// Watches one process that is often true and then is lost, and one that never is: why that tells nothing.
fn fault_of_lost<R: Threads + Wait + Sync>(
    rt: &R,
    alloc: Global,
    plan: &Plan,
    book: &Mutex<Book>,
) -> Result<Option<WatchFault>, AllocError> {
    let lost = Leaver {
        times: OFTEN,
        stays: false,
    };
    let whole = Leaver {
        times: 0,
        stays: true,
    };
    let leavers = vec![in alloc; lost, whole]?;
    Ok(watch_processes(rt, alloc, plan, 1, leavers, &(), book).err())
}

/// Watches them. Where memory runs out, or no thread can be made, that is the fault, and asking again tells the process
/// that was lost.
fn fault_again<R: Threads + Wait + Sync>(
    rt: &R,
    alloc: Global,
    plan: &Plan,
    book: &Mutex<Book>,
) -> Result<Option<WatchFault>, AllocError> {
    match fault_of_lost(rt, alloc, plan, book) {
        Err(AllocError) | Ok(Some(WatchFault::Memory | WatchFault::Spawn)) => {
            fault_of_lost(rt, alloc, plan, book)
        }
        told => told,
    }
}

/// A checker that ran out of memory doesn't tell which process was lost. So want of memory is told first.
#[test]
fn a_watch_that_was_refused_tells_no_lost_process(rt: HostRuntime) {
    let plan = plan_of_two(&rt, rt.alloc());
    let book = Mutex::new(Book::new(2));
    let told = fault_again(&rt, rt.alloc(), &plan, &book);
    let lost = WatchFault::Lost {
        process: 0,
        report: Report::Undecided,
    };
    assert_eq!(rt; told, Ok(Some(lost)));
}
