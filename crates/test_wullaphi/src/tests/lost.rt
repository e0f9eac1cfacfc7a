//! Watches of processes of which some are lost.
use std::alloc::Global;
use std::process::Abort;
use std::sync::{Mutex, Wait};
use std::test::Fail;
use std::thread::Threads;
use wullaphi::{
    Book, GlobalCut, LentProbe, Loan, LosableProcess, Report, WatchFault, WatchOutcome, plain_plan,
    watch_processes,
};

/// A process that may be lost. It answers whether its part is done.
#[derive(Clone, Copy)]
pub enum Member {
    /// It is true, and does its part.
    Whole,
    /// It is true, and then it is lost.
    Lost,
    /// It is lost before it is true.
    Absent,
}

impl LosableProcess for Member {
    type Shared = ();

    type Answer = bool;

    ghost done = { λ answer. answer };

    fn run<L: Loan, R: Wait>(self, rt: &R, probe: &mut LentProbe<L>, _shared: &()) -> bool {
        match self {
            Member::Whole => {
                probe.observe(rt, true);
                true
            }
            Member::Lost => {
                probe.observe(rt, true);
                false
            }
            Member::Absent => false,
        }
    }

    fn is_done(answer: &bool) -> bool {
        *answer
    }
}

/// Watches three such processes.
fn watch<R: Threads + Wait + Sync + Abort>(
    rt: &R,
    alloc: Global,
    members: [Member; 3],
) -> Result<WatchOutcome<bool>, WatchFault> {
    let plan = plain_plan(alloc, 3, 8, 4).expect(rt, "memory");
    let members = members.to_vec(alloc).expect(rt, "memory");
    let book = Mutex::new(Book::new(3));
    watch_processes(rt, alloc, &plan, 1, members, &(), &book)
}

/// What the watch of these tells: a report, or a fault.
fn assert_told<R: Threads + Wait + Sync + Abort>(
    rt: &R,
    alloc: Global,
    members: [Member; 3],
    told: Result<Report, WatchFault>,
) {
    let watched = watch(rt, alloc, members).map(|watched| watched.outcome.report);
    assert!(rt; watched == told);
}

/// The cut of three processes that have sent and received nothing.
fn found() -> Report {
    Report::Found(GlobalCut::new(&[Some(0), Some(0), Some(0)]))
}

#[test]
fn processes_that_are_done_are_told_as_ever(rt: HostRuntime) {
    assert_told(&rt, rt.alloc(), [Member::Whole; 3], Ok(found()));
}

/// This process is lost, and the report is this one.
fn lost(process: u32, report: Report) -> Result<Report, WatchFault> {
    Err(WatchFault::Lost { process, report })
}

/// What a lost process put counts. Whether there is a cut with what it went on to isn't known.
#[test]
fn the_lowest_lost_process_is_told_with_what_is_known(rt: HostRuntime) {
    let [whole, other, absent] = [Member::Whole, Member::Lost, Member::Absent];
    assert_told(&rt, rt.alloc(), [whole, other, whole], lost(1, found()));
    assert_told(
        &rt,
        rt.alloc(),
        [whole, whole, absent],
        lost(2, Report::Undecided),
    );
    assert_told(
        &rt,
        rt.alloc(),
        [whole, other, absent],
        lost(1, Report::Undecided),
    );
}

#[test]
fn a_lost_process_has_a_line(rt: HostRuntime) -> Result<(), Fail> {
    let lost = WatchFault::Lost {
        process: 2,
        report: Report::Undecided,
    };
    let line = format!(in rt.alloc(); "{lost}")?;
    assert!(rt; line.as_str() == "process 2 was lost");
    Ok(())
}
