//! Threads that sleep until the cut of a watch is told, or the watch has ended.
use super::lost::Member as Lost;
use std::alloc::{AllocError, Global};
use std::process::Abort;
use std::sync::{Mutex, OnceLock, Wait};
use std::thread::{Threads, join};
use wullaphi::{
    Book, CutAnswer, GlobalCut, LentProbe, Loan, OpenWatch, Plan, PlanFault, Process, RefusedPlan,
    Report, WatchFault, WatchOutcome, plain_plan, wait_for_cut, watch_processes,
};

/// A process of a watch whose cut is waited for.
#[derive(Clone, Copy)]
enum Member {
    /// It is true, and goes on until it has learnt of the cut, which it answers.
    Eager(Global),
    /// It is never true.
    Idle,
}

impl Process for Member {
    type Shared = Mutex<Book>;

    type Answer = Option<GlobalCut>;

    fn run<L: Loan, R: Wait>(
        self,
        rt: &R,
        probe: &mut LentProbe<L>,
        book: &Mutex<Book>,
    ) -> Option<GlobalCut> {
        let Member::Eager(alloc) = self else {
            return None;
        };
        probe.observe(rt, true);
        let Ok(answer) = answer_of(rt, alloc, book) else {
            return None;
        };
        cut_in(&answer)
    }
}

/// The cut that was found, if that is the answer.
fn cut_in(answer: &CutAnswer) -> Option<GlobalCut> {
    match answer {
        CutAnswer::Found(cut) => Some(*cut),
        CutAnswer::Nothing | CutAnswer::Undecided | CutAnswer::NotRun => None,
    }
}

/// Waits for the cut. Where memory runs out, asking again does it.
fn answer_of<R: Wait>(rt: &R, alloc: Global, book: &Mutex<Book>) -> Result<CutAnswer, AllocError> {
    let told = match wait_for_cut(rt, alloc, book) {
        Err(AllocError) => wait_for_cut(rt, alloc, book),
        told => told,
    };
    Ok(told?.answer())
}

/// Waits for the cut, and compares what is told.
fn assert_answer<R: Wait + Abort>(rt: &R, alloc: Global, book: &Mutex<Book>, answer: CutAnswer) {
    assert_eq!(rt; answer_of(rt, alloc, book), Ok(answer));
}

/// A plan of two processes.
fn two(rt: &impl Abort, alloc: Global) -> Plan {
    two_with_room(rt, alloc, 8)
}

/// A plan of two processes, whose links have so much room.
fn two_with_room(rt: &impl Abort, alloc: Global, room: u32) -> Plan {
    plain_plan(alloc, 2, room, 4).expect(rt, "memory")
}

/// Watches so many of this member by this plan.
fn watch<R: Threads + Wait + Sync + Abort>(
    rt: &R,
    alloc: Global,
    plan: &Plan,
    member: Member,
    count: usize,
    book: &Mutex<Book>,
) -> Result<WatchOutcome<Option<GlobalCut>>, WatchFault> {
    let members = vec![in alloc; member; count].expect(rt, "memory");
    watch_processes(rt, alloc, plan, 1, members, book, book)
}

/// Watches two of this member.
fn watch_two<R: Threads + Wait + Sync + Abort>(
    rt: &R,
    alloc: Global,
    member: Member,
    book: &Mutex<Book>,
) -> Result<WatchOutcome<Option<GlobalCut>>, WatchFault> {
    watch(rt, alloc, &two(rt, alloc), member, 2, book)
}

/// Watches two of this member by this plan, and beside them waits for the cut in a thread of its own. What the members
/// answer and that thread is told is this cut, if it is one, and the report is that of it.
fn assert_told<R: Threads + Wait + Sync + Abort>(
    rt: &R,
    alloc: Global,
    plan: &Plan,
    member: Member,
    book: &Mutex<Book>,
    cut: Option<GlobalCut>,
) {
    let (watched, ()) = join(
        rt,
        || watch(rt, alloc, plan, member, 2, book).expect(rt, "a watch"),
        || assert_answer(
            rt,
            alloc,
            book,
            cut.map_or(CutAnswer::Nothing, CutAnswer::Found),
        ),
    );
    assert_eq!(rt;
        watched.outcome.report,
        cut.map_or(Report::Nothing, Report::Found)
    );
    let again = cut;
    assert_eq!(rt; watched.answers.as_slice(), [cut, again].as_slice());
    assert!(rt; book.lock(rt).has_ended());
}

/// The cut of two processes that have sent and received nothing.
fn first_cut() -> GlobalCut {
    GlobalCut::new(&[Some(0), Some(0)])
}

#[test]
fn processes_and_another_thread_learn_of_the_cut(rt: HostRuntime) {
    let book = Mutex::new(Book::new(2));
    assert_told(
        &rt,
        rt.alloc(),
        &two(&rt, rt.alloc()),
        Member::Eager(rt.alloc()),
        &book,
        Some(first_cut()),
    );
}

/// Where the links have much room the relay naps, and nobody rouses it: the processes put no more, and don't close.
#[test]
fn what_comes_while_the_relay_naps_is_told(rt: HostRuntime) {
    let book = Mutex::new(Book::new(2));
    assert_told(
        &rt,
        rt.alloc(),
        &two_with_room(&rt, rt.alloc(), 64),
        Member::Eager(rt.alloc()),
        &book,
        Some(first_cut()),
    );
}

#[test]
fn a_watch_over_the_same_book_is_waited_for_anew(rt: HostRuntime) {
    let book = Mutex::new(Book::new(2));
    let plan = two(&rt, rt.alloc());
    assert_told(&rt, rt.alloc(), &plan, Member::Idle, &book, None);
    assert_answer(&rt, rt.alloc(), &book, CutAnswer::Nothing);
    assert!(rt; book.lock(&rt).begin(2));
    assert_told(
        &rt,
        rt.alloc(),
        &plan,
        Member::Eager(rt.alloc()),
        &book,
        Some(first_cut()),
    );
}

/// Watches two of this member: the report.
fn report_of_two<R: Threads + Wait + Sync + Abort>(
    rt: &R,
    alloc: Global,
    member: Member,
    book: &Mutex<Book>,
) -> Report {
    let watched = watch_two(rt, alloc, member, book).expect(rt, "a watch");
    watched.outcome.report
}

/// Nothing of the watch before is left in the book.
#[test]
fn a_book_is_begun_anew_for_each_watch(rt: HostRuntime) {
    let alloc = rt.alloc();
    let book = Mutex::new(Book::new(2));
    let eager = report_of_two(&rt, alloc, Member::Eager(alloc), &book);
    assert_eq!(rt; eager, Report::Found(first_cut()));
    let idle = report_of_two(&rt, alloc, Member::Idle, &book);
    assert_eq!(rt; idle, Report::Nothing);
    assert_answer(&rt, alloc, &book, CutAnswer::Nothing);
}

/// Watches so many idle members by this plan, over a book that has told of a cut: the watch has this fault, and whoever
/// waits is told that it hasn't run.
fn assert_not_run<R: Threads + Wait + Sync + Abort>(
    rt: &R,
    alloc: Global,
    plan: &Plan,
    count: usize,
    fault: WatchFault,
) {
    let book = Mutex::new(Book::new(2));
    book.lock(rt).tell(first_cut());
    let refused = watch(rt, alloc, plan, Member::Idle, count, &book);
    assert_eq!(rt; refused.err(), Some(fault));
    assert!(rt; book.lock(rt).has_ended());
    assert_answer(rt, alloc, &book, CutAnswer::NotRun);
}

#[test]
fn a_watch_that_does_not_begin_has_not_run(rt: HostRuntime) {
    let plan = two(&rt, rt.alloc());
    assert_not_run(&rt, rt.alloc(), &plan, 1, WatchFault::Count);
    let refused = RefusedPlan {
        fault: PlanFault::Cap,
        n: 2,
        cap: 0,
        hold: 4,
        relays: 1,
        attached: 2,
        place: None,
    };
    let plan = plain_plan(rt.alloc(), 2, 0, 4).expect(&rt, "memory");
    assert_not_run(&rt, rt.alloc(), &plan, 2, WatchFault::Plan(refused));
}

/// A process that is lost leaves it open whether there is a cut.
#[test]
fn a_watch_that_is_undecided_is_told_so(rt: HostRuntime) {
    let plan = two(&rt, rt.alloc());
    let book = Mutex::new(Book::new(2));
    let members = vec![in rt.alloc(); Lost::Whole, Lost::Absent].expect(&rt, "memory");
    let watched = watch_processes(&rt, rt.alloc(), &plan, 1, members, &(), &book);
    let lost = WatchFault::Lost {
        process: 1,
        report: Report::Undecided,
    };
    assert_eq!(rt; watched.err(), Some(lost));
    assert_answer(&rt, rt.alloc(), &book, CutAnswer::Undecided);
}

/// What a process writes as it runs, and waits for before it ends.
#[derive(Drop)]
struct Gates {
    runs: OnceLock<()>,
    let_go: OnceLock<()>,
}

/// A process that says that it runs, and goes on until it is let go.
#[derive(Clone, Copy)]
struct Held;

impl Process for Held {
    type Shared = Gates;

    type Answer = ();

    fn run<L: Loan, R: Wait>(self, rt: &R, probe: &mut LentProbe<L>, gates: &Gates) {
        let _ = gates.runs.try_set(());
        let () = *gates.let_go.wait(rt);
        probe.observe(rt, true);
    }
}

/// Watches such a process with this book.
fn watch_held<R: Threads + Wait + Sync + Abort>(
    rt: &R,
    alloc: Global,
    gates: &Gates,
    book: &Mutex<Book>,
) -> Result<Report, WatchFault> {
    let plan = plain_plan(alloc, 1, 8, 4).expect(rt, "memory");
    let held = vec![in alloc; Held].expect(rt, "memory");
    let watched = watch_processes(rt, alloc, &plan, 1, held, gates, book)?;
    Ok(watched.outcome.report)
}

/// Once the process runs, gives its book to another watch, and then lets the process go. What that watch told, and
/// whether the book was still in use.
fn intrude<R: Threads + Wait + Sync + Abort>(
    rt: &R,
    alloc: Global,
    gates: &Gates,
    book: &Mutex<Book>,
) -> (Option<WatchFault>, bool) {
    let () = *gates.runs.wait(rt);
    let refused = watch_two(rt, alloc, Member::Idle, book);
    let in_use = book.lock(rt).is_in_use();
    let _ = gates.let_go.try_set(());
    (refused.err(), in_use)
}

#[test]
fn a_book_that_a_running_watch_has_is_refused(rt: HostRuntime) {
    let alloc = rt.alloc();
    let book = Mutex::new(Book::new(1));
    let gates = Gates {
        runs: OnceLock::new(),
        let_go: OnceLock::new(),
    };
    let (watched, (refused, in_use)) = join(
        &rt,
        || watch_held(&rt, alloc, &gates, &book),
        || intrude(&rt, alloc, &gates, &book),
    );
    let cut = GlobalCut::new(&[Some(0)]);
    assert_eq!(rt; watched, Ok(Report::Found(cut)));
    assert_eq!(rt; (refused, in_use), (Some(WatchFault::BookInUse), true));
    assert_answer(&rt, alloc, &book, CutAnswer::Found(cut));
    assert!(rt; !book.lock(&rt).is_in_use());
}
