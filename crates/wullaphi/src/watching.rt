//! A whole watch: opened, run, closed, joined and settled.
ghost use Rattle.std.specs.Prelude.{◌≡◌, ◌≢◌, ℕ, ◌<◌, ◌≤◌, ◌↔◌, [], ◌∷◌, length, true, All, Err, IfErr, IfOk, List};
ghost use Rattle.std.specs.Prelude.{Some};
ghost use Rattle.wcp_clock.specs.Limits.{most_processes};
ghost use Rattle.wcp_clock.specs.ProcessNumbers.{NumberSet};
ghost use Rattle.wcp_model.specs.PlanFault.{IsCheckedPlan};
ghost use Rattle.wcp_relay.specs.declared.checker_inbox.CheckerInbox.{CheckerInbox};
ghost use Rattle.wcp_watch.specs.CheckerEnds.{IsEndOfLoop, IsReportTold, report_at};
ghost use Rattle.wcp_watch.specs.declared.checker_end.CheckFault.TheVariants as check_fault;
ghost use Rattle.wullaphi.specs.Refused.{IfLost, IsOfRun, IsRefusalOf};
ghost use Rattle.wullaphi.specs.declared.refused_plan.RefusedPlan.{RefusedPlan};
ghost use Rattle.wcp_watch.specs.RunParts.{AreReady};
ghost use Rattle.wullaphi.specs.Questions.{CanBeAsked, IsFirstRefused};
ghost use Rattle.wullaphi.specs.Seats.{ArePartsOf, IsNewSeat};
ghost use Rattle.wullaphi.specs.WatchOutcomes.{IsLost, IsWatchOutcome};

use crate::process::LosableProcess;
use crate::questions::{first_refused, reports_of};
use crate::refused_plan::check_plan;
use crate::seat::{Seat, first_lost, seat_all, take_apart};
use crate::watch_fault::WatchFault;
use crate::watch_outcome::WatchOutcome;
use crate::watch_run::WatchRun;
use std::alloc::{AllocError, Global};
use std::sync::{Mutex, Wait};
use std::thread::Threads;
use wcp_book::Book;
use wcp_model::{Plan, Watched};
use wcp_queue::Panel;
use wcp_tree::{Watch, watch};
use wcp_watch::{CheckFault, CheckerEnd, Checking, Ends, Parts, SettleFault, run_parts, settle};

/// Watches these processes, of which there are as many as the plan says: each runs in a thread of its own with the
/// probe of its number, beside a thread for each relay and one for the checker. All are started or none, and all have
/// ended when this returns. The number of the watch tells it from others: a stamp of another one is refused.
///
/// A process may be lost, if it is a `LosableProcess`: the others are watched to their end, and the answer tells the
/// lowest process that was lost, and what the checker came to by all that it took.
///
/// The book is begun anew, and is in use until this returns: another watch that is given it meanwhile is refused. While
/// the watch runs any thread may read in it: the totals, and the cut, as soon as the checker finds it, which is then
/// the report's. So a process may go on until it reads it, and end then. Whoever waits for the cut (`wait_for_cut`) is
/// told it then. The book ends once the checker has taken all, with what it came to; where no process has run it ends
/// with that before this returns. Only a book that another watch has is left as it is.
///
/// It asks one question, of all processes that the plan watches. `watch_questions` asks several.
pub fn watch_processes<
    S: Sync,
    A: Send + Drop + 'static,
    P: LosableProcess<Shared = S, Answer = A> + Send + Drop + 'static,
    R: Threads + Wait + Sync,
>(
    rt: &R,
    alloc: Global,
    plan: &Plan,
    number: u64,
    processes: Vec<P>,
    shared: &S,
    book: &Mutex<Book>,
) -> Result<WatchOutcome<A>, WatchFault>
    ensures watched { IfOk result (IsWatchOutcome P.leaves number plan.now (plan.now.watched ∷ []) processes.items) }
    ensures plan { (refused : RefusedPlan)
        → (result ≡ Err (WatchFault.Plan refused)) ↔ IsRefusalOf plan.now refused }
    ensures count { (result ≡ Err WatchFault.Count)
        ↔ (IsCheckedPlan plan.now × (length processes.items ≢ plan.now.n)) }
    ensures done { IfOk result (λ told. All (λ answer. P.done answer ≡ true) told.answers.items) }
    ensures lost { IfErr result (λ fault.
        IfLost fault (IsLost P.leaves P.done number plan.now (plan.now.watched ∷ []) processes.items)) }
{
    let questions = [plan.watched];
    watch_questions(rt, alloc, plan, number, &questions, processes, shared, book)
}

/// Watches these processes, as `watch_processes` does, and asks several questions of them at once: each is for a set of
/// processes of its own, of those that the plan watches. The answer has a report for each, in their order: what a watch
/// would report that watches just the processes of its set. That of the first question is the outcome's, is told by the
/// book, and is the one of a watch of which a process was lost.
///
/// Where the checker has no memory for a question, no report is told.
pub fn watch_questions<
    S: Sync,
    A: Send + Drop + 'static,
    P: LosableProcess<Shared = S, Answer = A> + Send + Drop + 'static,
    R: Threads + Wait + Sync,
>(
    rt: &R,
    alloc: Global,
    plan: &Plan,
    number: u64,
    questions: &[Watched],
    processes: Vec<P>,
    shared: &S,
    book: &Mutex<Book>,
) -> Result<WatchOutcome<A>, WatchFault>
    ensures watched { IfOk result (IsWatchOutcome P.leaves number plan.now questions.now processes.items) }
    ensures plan { (refused : RefusedPlan)
        → (result ≡ Err (WatchFault.Plan refused)) ↔ IsRefusalOf plan.now refused }
    ensures count { (result ≡ Err WatchFault.Count)
        ↔ (IsCheckedPlan plan.now × (length processes.items ≢ plan.now.n)) }
    ensures none { (result ≡ Err WatchFault.NoQuestion)
        ↔ (IsCheckedPlan plan.now × (length processes.items ≡ plan.now.n) × (length questions.now ≡ 0)) }
    ensures question { (question : ℕ) → (result ≡ Err (WatchFault.Question question))
        ↔ (IsCheckedPlan plan.now × (length processes.items ≡ plan.now.n)
        × IsFirstRefused plan.now questions.now question) }
    ensures done { IfOk result (λ told. All (λ answer. P.done answer ≡ true) told.answers.items) }
    ensures lost { IfErr result (λ fault.
        IfLost fault (IsLost P.leaves P.done number plan.now questions.now processes.items)) }
{
    if let Err(refused) = check_plan(plan) {
        book.lock(rt).refuse();
        return Err(WatchFault::Plan(refused));
    }
    if processes.len() != plan.n as usize {
        book.lock(rt).refuse();
        return Err(WatchFault::Count);
    }
    if questions.is_empty() {
        book.lock(rt).refuse();
        return Err(WatchFault::NoQuestion);
    }
    if let Some(question) = first_refused(plan, questions) {
        book.lock(rt).refuse();
        return Err(WatchFault::Question(question));
    }
    watch_claimed(rt, alloc, plan, number, questions, processes, shared, book)
}

/// Watches as many processes as this plan says, unless another watch that runs has the book.
fn watch_claimed<
    S: Sync,
    A: Send + Drop + 'static,
    P: LosableProcess<Shared = S, Answer = A> + Send + Drop + 'static,
    R: Threads + Wait + Sync,
>(
    rt: &R,
    alloc: Global,
    plan: &Plan,
    number: u64,
    questions: &[Watched],
    processes: Vec<P>,
    shared: &S,
    book: &Mutex<Book>,
) -> Result<WatchOutcome<A>, WatchFault>
    requires checked { IsCheckedPlan plan.now }
    requires count { length processes.items ≡ plan.now.n }
    requires some { 0 < length questions.now }
    requires asked { All (CanBeAsked plan.now) questions.now }
    ensures watched { IfOk result (IsWatchOutcome P.leaves number plan.now questions.now processes.items) }
    ensures fault { IfErr result IsOfRun }
    ensures done { IfOk result (λ told. All (λ answer. P.done answer ≡ true) told.answers.items) }
    ensures lost { IfErr result (λ fault.
        IfLost fault (IsLost P.leaves P.done number plan.now questions.now processes.items)) }
{
    if !claim(rt, book, plan.n) {
        return Err(WatchFault::BookInUse);
    }
    let told = watch_planned(rt, alloc, plan, number, questions, processes, shared, book);
    book.lock(rt).release();
    told
}

/// Watches as many processes as this plan says, over a book that was claimed for it.
fn watch_planned<
    S: Sync,
    A: Send + Drop + 'static,
    P: LosableProcess<Shared = S, Answer = A> + Send + Drop + 'static,
    R: Threads + Wait + Sync,
>(
    rt: &R,
    alloc: Global,
    plan: &Plan,
    number: u64,
    questions: &[Watched],
    processes: Vec<P>,
    shared: &S,
    book: &Mutex<Book>,
) -> Result<WatchOutcome<A>, WatchFault>
    requires checked { IsCheckedPlan plan.now }
    requires count { length processes.items ≡ plan.now.n }
    requires some { 0 < length questions.now }
    requires asked { All (CanBeAsked plan.now) questions.now }
    ensures watched { IfOk result (IsWatchOutcome P.leaves number plan.now questions.now processes.items) }
    ensures fault { IfErr result IsOfRun }
    ensures done { IfOk result (λ told. All (λ answer. P.done answer ≡ true) told.answers.items) }
    ensures lost { IfErr result (λ fault.
        IfLost fault (IsLost P.leaves P.done number plan.now questions.now processes.items)) }
{
    let run = WatchRun::new(alloc, number, plan.n)?;
    let mark = run.mark().ok_or(WatchFault::Memory)?;
    let parts = open_parts(alloc, plan, number, questions, run, processes)?;
    let Ends {
        workers,
        relays,
        checker,
    } = run_parts(rt, alloc, parts, shared, book)?;
    if checker.fault() == Some(CheckFault::Memory) {
        return Err(WatchFault::Memory);
    }
    if let Some(process) = first_lost(&workers) {
        return Err(fault_of_lost(process, &checker));
    }
    let (probes, answers) = take_apart(alloc, workers)?;
    let reports = reports_of(alloc, &checker)?;
    let posted = book.lock(rt).copied();
    let totals = posted.totals();
    let outcome = settle(probes, relays, checker, posted)?;
    let counts = mark.counts(alloc, plan.watched)?;
    Ok(WatchOutcome {
        outcome,
        totals,
        reports,
        answers,
        counts,
    })
}

/// Why a watch tells nothing where this process was lost: that, with the report of the first question of a checker which
/// took it to be the lowest that was lost. Nothing is told of another checker, which has a fault of its own.
fn fault_of_lost(process: u32, checker: &CheckerEnd) -> WatchFault
    requires { (inbox : CheckerInbox) × (questions : List NumberSet) × IsEndOfLoop inbox questions checker.now }
    ensures fault { IsOfRun result }
    ensures told { checker.now.fault ≡ Some (check_fault.Lost process)
        → result ≡ WatchFault.Lost process (report_at checker.now 0) }
    ensures lost { IfLost result (λ told report. (told ≡ process) × IsReportTold checker.now 0 report
        × (checker.now.fault ≡ Some (check_fault.Lost process))) }
{
    if checker.fault() == Some(CheckFault::Lost(process)) {
        WatchFault::Lost {
            process,
            report: checker.report(),
        }
    } else {
        WatchFault::Settle(SettleFault::Faulted)
    }
}

/// Opens the tree of the plan, a seat in this run for each process, and a panel of the questions. `Err` where memory
/// runs out.
fn open_parts<P: Drop>(
    alloc: Global,
    plan: &Plan,
    number: u64,
    questions: &[Watched],
    run: WatchRun,
    processes: Vec<P>,
) -> Result<Parts<Seat<P>>, AllocError>
    requires checked { IsCheckedPlan plan.now }
    requires count { length processes.items ≡ plan.now.n }
    requires some { 0 < length questions.now }
    requires asked { All (CanBeAsked plan.now) questions.now }
    ensures parts { IfOk result (ArePartsOf plan.now number questions.now processes.items) }
    ensures ready { IfOk result (AreReady IsNewSeat) }
{
    let Watch {
        probes,
        relays,
        inbox,
    } = watch(alloc, plan, number)?;
    let workers = seat_all(alloc, &run, probes, processes)?;
    let panel = Panel::new(alloc, plan.n, questions)?;
    Ok(Parts {
        workers,
        relays,
        checking: Checking { inbox, panel },
    })
}

/// Claims this book for a watch of so many processes. `false` where another that runs has it.
fn claim<R: Wait>(rt: &R, book: &Mutex<Book>, n: u32) -> bool
    requires some { 0 < n }
    requires within { n ≤ most_processes }
{
    book.lock(rt).claim(n)
}
