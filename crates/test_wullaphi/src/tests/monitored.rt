//! A monitor beside a watch, in a thread of its own.
use std::alloc::Global;
use std::process::Abort;
use std::sync::{Mutex, OnceLock, Wait};
use std::thread::Threads;
use wullaphi::{
    Book, CutAnswer, GlobalCut, LentProbe, Loan, Process, Report, WatchFault, plain_plan,
    wait_for_cut, watch_beside,
};

/// A process that observes this once, and goes on until it is let go.
#[derive(Clone, Copy)]
struct Held {
    holds: bool,
}

impl Process for Held {
    type Shared = OnceLock<()>;

    type Answer = ();

    fn run<L: Loan, R: Wait>(self, rt: &R, probe: &mut LentProbe<L>, let_go: &OnceLock<()>) {
        probe.observe(rt, self.holds);
        let () = *let_go.wait(rt);
    }
}

/// Waits for the answer of the book, and then lets the processes go.
fn let_go_once_told<R: Wait + Abort>(
    rt: &R,
    alloc: Global,
    book: &Mutex<Book>,
    let_go: &OnceLock<()>,
) -> CutAnswer {
    let told = wait_for_cut(rt, alloc, book).expect(rt, "memory");
    let _ = let_go.try_set(());
    told.answer()
}

/// Watches so many of this process by a plan of two, beside a monitor that lets them go: the report, or why there is
/// none, and what the monitor was told.
fn watch_monitored<R: Threads + Wait + Sync + Abort>(
    rt: &R,
    alloc: Global,
    process: Held,
    count: usize,
    let_go: &OnceLock<()>,
) -> (Result<Report, WatchFault>, CutAnswer) {
    let plan = plain_plan(alloc, 2, 8, 4).expect(rt, "memory");
    let processes = vec![in alloc; process; count].expect(rt, "memory");
    let (watched, told) = watch_beside(rt, alloc, &plan, 1, processes, let_go, |rt, book| {
        let_go_once_told(rt, alloc, book, let_go)
    });
    (watched.map(|watched| watched.outcome.report), told)
}

/// The processes end only after the monitor was told.
#[test]
fn a_monitor_is_told_of_the_cut_while_the_processes_run(rt: HostRuntime) {
    let let_go = OnceLock::new();
    let (report, told) = watch_monitored(&rt, rt.alloc(), Held { holds: true }, 2, &let_go);
    let cut = GlobalCut::new(&[Some(0), Some(0)]);
    assert_eq!(rt; told, CutAnswer::Found(cut));
    assert_eq!(rt; report, Ok(Report::Found(cut)));
}

#[test]
fn a_monitor_is_told_that_there_was_no_cut(rt: HostRuntime) {
    let let_go = OnceLock::new();
    let _ = let_go.try_set(());
    let (report, told) = watch_monitored(&rt, rt.alloc(), Held { holds: false }, 2, &let_go);
    assert_eq!(rt; told, CutAnswer::Nothing);
    assert_eq!(rt; report, Ok(Report::Nothing));
}

#[test]
fn a_monitor_is_told_that_a_watch_has_not_run(rt: HostRuntime) {
    let let_go = OnceLock::new();
    let (report, told) = watch_monitored(&rt, rt.alloc(), Held { holds: true }, 1, &let_go);
    assert_eq!(rt; told, CutAnswer::NotRun);
    assert_eq!(rt; report, Err(WatchFault::Count));
}
