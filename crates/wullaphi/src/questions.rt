//! The questions that a watch asks, and what is told of each.
ghost use Rattle.std.specs.Prelude.{◌≡◌, ◌↔◌, ℕ, true, All, IfNone, IfOk, IfSome, IsTrue, List};
ghost use Rattle.std.specs.FinSet as set;
ghost use Rattle.wcp_clock.specs.ProcessNumbers.{NumberSet};
ghost use Rattle.wcp_relay.specs.declared.checker_inbox.CheckerInbox.{CheckerInbox};
ghost use Rattle.wcp_watch.specs.CheckerEnds.{IsEndOfLoop};
ghost use Rattle.wullaphi.specs.Questions.{AreReportsTold, CanBeAsked, IsFirstRefused};

use std::alloc::{AllocError, Global};
use wcp_clock::MAX_PROCS;
use wcp_model::{Plan, Report, Watched};
use wcp_watch::CheckerEnd;

/// The first of these questions that can't be asked of this plan, if there is one.
pub(crate) fn first_refused(plan: &Plan, questions: &[Watched]) -> Option<usize>
    ensures refused { IfSome result (IsFirstRefused plan.now questions.now) }
    ensures none { IfNone result (All (CanBeAsked plan.now) questions.now) }
{
    for question in 0..questions.len() {
        if !can_be_asked(plan, &questions[question]) {
            return Some(question);
        }
    }
    None
}

/// Whether a question with these watched processes can be asked of this plan.
fn can_be_asked(plan: &Plan, watched: &Watched) -> bool
    ensures { IsTrue result ↔ CanBeAsked plan.now watched.now }
{
    watched.meets(&plan.watched) && are_all_in(watched, &plan.watched)
}

/// Whether each of these processes is one of those.
fn are_all_in(these: &Watched, those: &Watched) -> bool
    ensures { IsTrue result ↔ ((p : ℕ) → set.contains these.now p ≡ true → set.contains those.now p ≡ true) }
{
    for p in 0..MAX_PROCS as u32 {
        if these.has(p) && !those.has(p) {
            return false;
        }
    }
    true
}

/// What the end of a checker's loop tells of each question. `Err` where memory runs out.
pub(crate) fn reports_of(alloc: Global, checker: &CheckerEnd) -> Result<Vec<Report>, AllocError>
    requires { (inbox : CheckerInbox) × (questions : List NumberSet) × IsEndOfLoop inbox questions checker.now }
    ensures { IfOk result (λ reports. AreReportsTold checker.now reports.items) }
{
    let mut reports = Vec::with_capacity(alloc, checker.questions())?;
    for question in 0..checker.questions() {
        let Some(report) = checker.report_of(question) else {
            unreachable!()
        };
        reports.push(report)?;
    }
    Ok(reports)
}
