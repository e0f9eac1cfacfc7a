//! Watches whose processes emit, for the tests.
ghost use Rattle.std.specs.Prelude.{IfOk};
ghost use Rattle.wcp_model.specs.PlanFault.{IsCheckedPlan};
ghost use Rattle.wcp_watch.specs.CheckerEnds.{IsFreshFor};
ghost use Rattle.wcp_relay.specs.Watches.{IsWired};

use std::alloc::{AllocError, Global};
use std::process::Abort;
use std::sync::{Mutex, Wait};
use wcp_book::Book;
use wcp_model::{GlobalCut, Plan, Report, Tally};
use wcp_queue::Panel;
use wcp_tree::{CheckerInbox, LiveProbe, ProbeEnd, Relay, Watch, watch};
use wcp_watch::{CheckerEnd, check_loop};

/// A watch, and a panel of one question for its inbox.
#[derive(Drop)]
pub struct Opened {
    pub watch: Watch,
    pub panel: Panel,
}

/// The watch of a plan, and a panel of its one question for its inbox. Where memory runs out, asking again makes them.
pub fn open(rt: &impl Abort, alloc: Global, plan: &Plan) -> Opened
    requires { IsCheckedPlan plan.now }
    ensures fresh { IsFreshFor result.watch.inbox result.panel }
    ensures wired { IsWired plan.now 7 result.watch }
{
    match open_once(alloc, plan) {
        Ok(opened) => opened,
        Err(_) => open_once(alloc, plan).expect(rt, "memory"),
    }
}

fn open_once(alloc: Global, plan: &Plan) -> Result<Opened, AllocError>
    requires { IsCheckedPlan plan.now }
    ensures fresh { IfOk result (λ opened. IsFreshFor opened.watch.inbox opened.panel) }
    ensures wired { IfOk result (λ opened. IsWired plan.now 7 opened.watch) }
{
    let panel = Panel::new(alloc, plan.n, &[plan.watched])?;
    let watch = watch(alloc, plan, 7)?;
    Ok(Opened { watch, panel })
}

/// What the checker's loop leaves, and its book.
#[derive(Drop)]
pub struct Checked {
    pub end: CheckerEnd,
    pub book: Book,
}

/// The checker's loop, which posts in this book.
fn check(rt: &impl Wait, inbox: CheckerInbox, panel: Panel, book: Book) -> Checked
    requires { IsFreshFor inbox panel }
{
    let book = Mutex::new(book);
    let end = check_loop(rt, inbox, panel, &book);
    Checked {
        end,
        book: book.into_inner(),
    }
}

/// What a process does in a watch that runs in one thread: it emits so many snapshots, and then it closes or is lost.
#[derive(Clone, Copy)]
pub struct Course {
    pub snapshots: u32,
    pub closes: bool,
}

/// It emits one snapshot, and closes.
pub const ONCE: Course = Course {
    snapshots: 1,
    closes: true,
};

/// The share of a process that emitted one snapshot.
pub const ONE: Tally = Tally {
    emitted: 1,
    taken: 1,
};

/// A watch that runs in one thread: process 0 and then each of the others runs its course. Then the first `count`
/// relays run, the highest number first, and meet no fault, and then the checker's loop, which posts in this book. The
/// other relays are gone.
pub fn run_in_one_thread(
    rt: &(impl Abort + Wait),
    alloc: Global,
    plan: Plan,
    first: Course,
    others: Course,
    count: usize,
    book: Book,
) -> Checked
    requires { IsCheckedPlan plan }
{
    let Opened { watch, panel } = open(rt, alloc, &plan);
    let Watch {
        probes,
        relays,
        inbox,
    } = watch;
    for probe in probes {
        run_course(rt, probe, first, others);
    }
    run_first(rt, relays, count);
    check(rt, inbox, panel, book)
}

/// The first `count` relays run, the highest number first. The others are gone.
fn run_first(rt: &(impl Abort + Wait), mut relays: Vec<Relay>, count: usize) {
    relays.truncate(count);
    for relay in relays.into_iter().rev() {
        run_whole(rt, relay);
    }
}

/// Runs a relay, which meets no fault.
pub fn run_whole(rt: &(impl Abort + Wait), relay: Relay) {
    assert_eq!(rt; relay.run(rt).fault(), None);
}

/// The process of this probe runs its course: the first, or that of the others.
fn run_course(rt: &impl Wait, probe: LiveProbe, first: Course, others: Course) {
    let course = if probe.id() == 0 { first } else { others };
    if course.closes {
        drop(emit_all(rt, probe, course.snapshots));
    } else {
        emit_and_drop(rt, probe, course.snapshots);
    }
}

/// Emits so many snapshots, with a send behind each, and closes.
pub fn emit_all(rt: &impl Wait, mut probe: LiveProbe, snapshots: u32) -> ProbeEnd {
    emit(rt, &mut probe, snapshots);
    probe.close_in_watch(rt)
}

/// Emits so many snapshots, with a send behind each, and is lost.
fn emit_and_drop(rt: &impl Wait, mut probe: LiveProbe, snapshots: u32) {
    emit(rt, &mut probe, snapshots);
}

/// Emits so many snapshots, with a send behind each.
fn emit(rt: &impl Wait, probe: &mut LiveProbe, snapshots: u32) {
    let to = if probe.id() == 0 { 1 } else { 0 };
    for _ in 0..snapshots {
        probe.observe(true);
        probe.flush_in_watch(rt);
        let _ = probe.stamp(to, ());
    }
}

/// The report of two processes that have sent and received nothing.
pub fn found() -> Report {
    Report::Found(GlobalCut::new(&[Some(0), Some(0)]))
}

/// The loop left this report; its book tells a cut just where that is one, has these shares of processes 0 and 1, and
/// has ended.
pub fn assert_left(
    rt: &impl Abort,
    left: &Checked,
    report: Report,
    first: Option<Tally>,
    second: Option<Tally>,
) {
    let told = match left.book.found() {
        Some(cut) => Report::Found(cut),
        None => Report::Undecided,
    };
    assert_eq!(rt; left.end.report(), report);
    assert_eq!(rt; told, report);
    assert_eq!(rt; (left.book.share(0), left.book.share(1)), (first, second));
    assert!(rt; left.book.has_ended());
}
