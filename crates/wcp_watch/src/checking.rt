//! The loop of a checker: it takes what arrives at the root of the tree for each question of a panel, posts the share of
//! each process, and tells the cut of the first question as it is found.
ghost use Rattle.std.specs.Prelude.{◌≡◌, ℕ, ◌↔◌, ◌<◌, true, false, ◌||◌, All, List, IsTrue, IfOk, OnOk};
ghost use Rattle.wcp_clock.specs.Notes.{is_close, place_of};
ghost use Rattle.wcp_clock.specs.declared.note.Item.{Item};
ghost use Rattle.wcp_model.specs.declared.outcome.Report.TheVariants.{Found};
ghost use Rattle.wcp_book.specs.Allowed.{may_tell};
ghost use Rattle.wcp_book.specs.State.{answer_of_report};
ghost use Rattle.wcp_queue.specs.Checker.{processes, closed_of, lost_of, report_of};
ghost use Rattle.wcp_queue.specs.Checker.{HasFound, StandsForItems};
ghost use Rattle.wcp_queue.specs.Panel.{question_at, watched_by};
ghost use Rattle.wcp_lane.specs.Ends.{TakeEnd};
ghost use Rattle.wcp_relay.specs.RelayWork.{AreTakenNext, IsSameTaker};
ghost use Rattle.wcp_watch.specs.CheckerEnds.{AreAllEnded, IsEndOfLoop, IsFreshFor, IsLowestLost, IsSameWatch};
ghost use Rattle.wcp_watch.specs.CheckerEnds.{KeepsUp, MayTellReport, MayTellReports};
ghost use Rattle.wcp_watch.specs.CheckerEnds.{HasTakenClose, HasTakenLast, TakesItems};

use crate::checker_end::{CheckerEnd, first_fault};
use std::sync::{Mutex, Wait};
use wcp_book::{Answers, Book};
use wcp_clock::{Item, Note};
use wcp_lane::{Cut, Taker};
use wcp_model::{GlobalCut, Report};
use wcp_queue::{Checker, Panel};
use wcp_relay::{Bundle, CheckerInbox};

/// Gives each question what arrives, until of every process the close mark or the mark that it was lost was taken, or
/// the lane is cut. As a close mark is taken it posts the share of that process in the book: the count of the mark, and
/// how many of its snapshots were taken. Where a post is refused the book is unchanged, and the loop goes on. Of a
/// process that was lost it posts none, since what that emitted isn't known, and the loop goes on. As the first question
/// finds a cut, which stays its report, it tells the book of it, and the loop goes on. A question that has no memory for
/// an item is starved and takes it then, and the loop goes on, so that the relays still have a taker. Once the loop is
/// over it ends the book with the report of the first question.
///
/// The book need only allow what the first question of this watch reports of what it takes of this lane. So a cut is
/// told only where that question has found it, and the book ends with no other report than the question's. That it is
/// told and ended, and what is posted, stands in no clause: `settle` compares the shares and the cut, and so do the
/// tests of `test_watch`, which also show the end.
pub fn check_loop<A: Answers, R: Wait>(
    rt: &R,
    inbox: CheckerInbox,
    mut panel: Panel,
    book: &Mutex<Book<A>>,
) -> CheckerEnd
    requires fresh { IsFreshFor inbox panel }
    requires allowed { MayTellReports A.allows inbox.taker panel }
    ensures { IsEndOfLoop inbox (watched_by panel) result }
{
    let watch = inbox.watch();
    let relays = inbox.relays();
    let processes = panel.processes();
    let mut taker = inbox.into_taker();
    let cut = take_all(rt, &mut taker, &mut panel, book).err();
    let first = panel.first();
    let lost = lowest_lost(first);
    end_book(rt, book, first, first.report());
    let fault = first_fault(is_one_starved(&panel), cut, lost);
    CheckerEnd {
        watch,
        processes,
        relays,
        receipt: taker.end(),
        panel,
        fault,
        cut,
        lost,
    }
}

/// Takes until of every process the close mark or the mark that it was lost was taken.
fn take_all<A: Answers, R: Wait>(
    rt: &R,
    taker: &mut Taker<Bundle>,
    panel: &mut Panel,
    book: &Mutex<Book<A>>,
) -> Result<(), Cut>
    requires keeps_up { KeepsUp taker.old panel.old }
    requires allowed { MayTellReports A.allows taker.old panel.old }
    ensures same { IsSameTaker taker.old taker.new × IsSameWatch panel.old panel.new }
    ensures keeps_up { KeepsUp taker.new panel.new }
    ensures ended { OnOk result (AreAllEnded (processes (question_at panel.new 0)) taker.new.taken) }
{
    let mut finished = have_ended(panel.first());
    let mut told = false;
    for _ in rt.forever() {
        if finished {
            break;
        }
        let end = take_bundle(rt, taker, panel)?;
        if !told {
            told = tell_found(rt, book, panel.first());
        }
        if let Note::Close { count } = end.note {
            post_share(rt, book, panel.first(), end.from, count);
        }
        if end.note.is_last() {
            finished = have_ended(panel.first());
        }
    }
    Ok(())
}

/// Takes the lane's next bundle, and gives its items to each question: the last of them.
fn take_bundle<R: Wait>(rt: &R, taker: &mut Taker<Bundle>, panel: &mut Panel) -> Result<Item, Cut>
    requires { KeepsUp taker.old panel.old }
    ensures same { IsSameTaker taker.old taker.new × IsSameWatch panel.old panel.new }
    ensures keeps_up { KeepsUp taker.new panel.new }
    ensures close { IfOk result (λ end.
        is_close end.note ≡ true → HasTakenClose (question_at panel.new 0) end.from (place_of end.note)) }
{
    let bundle = taker.take(rt)?;
    give_all(panel, &bundle);
    Ok(bundle.last_item())
}

/// Gives each question the items of a bundle that was taken, in order.
fn give_all(panel: &mut Panel, bundle: &Bundle)
    requires { (taker : TakeEnd Bundle Item) × KeepsUp taker panel.old × AreTakenNext taker bundle.now }
    ensures same { IsSameWatch panel.old panel.new }
    ensures taken { TakesItems panel.old panel.new bundle.now }
    ensures close { HasTakenLast (question_at panel.new 0) bundle.now }
{
    let items = bundle.items();
    for item in items {
        panel.take(item);
    }
}

/// Whether a question was starved.
fn is_one_starved(panel: &Panel) -> bool
    ensures { (result ≡ false) ↔ All (λ question. question.starved ≡ false) panel.now }
{
    for question in 0..panel.questions() {
        if panel.is_starved(question) {
            return true;
        }
    }
    false
}

/// Posts the share of a process whose close mark was taken.
fn post_share<A: Answers, R: Wait>(
    rt: &R,
    book: &Mutex<Book<A>>,
    checker: &Checker,
    p: u32,
    count: u32,
)
    requires { HasTakenClose checker.now p count }
{
    let taken = checker.taken(p);
    let _ = book.lock(rt).post(p, u64::from(count), taken);
}

/// Tells the book of the cut that the checker has found. Whether it has found one.
fn tell_found<A: Answers, R: Wait>(rt: &R, book: &Mutex<Book<A>>, checker: &Checker) -> bool
    requires { MayTellReport A.allows checker.now }
    ensures { IsTrue result ↔ HasFound checker.now }
{
    let Report::Found(cut) = checker.report() else {
        return false;
    };
    tell(rt, book, checker, cut);
    true
}

/// Tells the book of this cut of the checker.
fn tell<A: Answers, R: Wait>(rt: &R, book: &Mutex<Book<A>>, checker: &Checker, cut: GlobalCut)
    requires found { report_of checker.now ≡ Found cut }
    requires allowed { may_tell A.allows (answer_of_report (Found cut)) ≡ true }
{
    book.lock(rt).tell(cut);
}

/// Ends the book with this report of the checker, and lets those go who wait for its news.
fn end_book<A: Answers, R: Wait>(rt: &R, book: &Mutex<Book<A>>, checker: &Checker, report: Report)
    requires report { report_of checker.now ≡ report }
    requires allowed { may_tell A.allows (answer_of_report report) ≡ true }
{
    book.lock(rt).end(report);
}

/// Whether of every process the close mark or the mark that it was lost was taken.
fn have_ended(checker: &Checker) -> bool
    ensures { IsTrue result
        ↔ ((p : ℕ) → p < processes checker.now → (closed_of checker.now p || lost_of checker.now p) ≡ true) }
{
    for p in 0..checker.processes() {
        if !checker.closed(p) && !checker.lost(p) {
            return false;
        }
    }
    true
}

/// The lowest process whose mark that it was lost was taken.
fn lowest_lost(checker: &Checker) -> Option<u32>
    ensures { (items : List Item) → StandsForItems checker.now items
        → IsLowestLost (processes checker.now) items result }
{
    for p in 0..checker.processes() {
        if checker.lost(p) {
            return Some(p);
        }
    }
    None
}
