//! What a checker tells: its report, the cut that it found, tags and counts. Of several questions these are the first
//! one's.
ghost use Rattle.std.specs.Prelude.{◌≡◌, ◌≢◌, ◌<◌, ◌↔◌, ◌⊎◌, ℕ, None, List, IsSome, IfSome};
ghost use Rattle.wcp_model.specs.ReportByClocks.{ClocksRise};
ghost use Rattle.wcp_queue.specs.Checker.{processes, taken_of, report_of};
ghost use Rattle.wcp_c.specs.Answers.{done, no_checker, not_in_cut, out_of_range};
ghost use Rattle.wcp_c.specs.Checkers.{IsInCut, IsRightReport, checker_in, report_number};
ghost use Rattle.wcp_c.specs.Questions.{first_of};
ghost use Rattle.wcp_c.specs.Tags.{IsTagOf, StandsForTaken, TakenItem, items_of};

use crate::answer::{DONE, FOUND, NO_CHECKER, NOT_IN_CUT, NOTHING, OUT_OF_RANGE, UNDECIDED};
use crate::handle::WcpChecker;
use crate::in_cut::member_of;
use std::alloc::Global;
use wcp_model::Report;
use wcp_queue::Checker;

/// The number of the report of a question.
pub fn told(checker: &Checker) -> u32
    ensures value { result ≡ report_number (report_of checker.now) }
    ensures right { IsRightReport checker.now (report_of checker.now) }
{
    match checker.report() {
        Report::Found(_) => FOUND,
        Report::Nothing => NOTHING,
        Report::Undecided => UNDECIDED,
    }
}

/// What the checker's notes tell.
#[unsafe(no_mangle)]
pub extern "C" fn wcp_checker_report(alloc: Global, checker: &mut WcpChecker) -> u32
    ensures none { result ≡ no_checker ↔ (checker_in checker.old ≡ None) }
    ensures value { IfSome (checker_in checker.old)
        (λ held. result ≡ report_number (report_of (first_of held.questions))) }
    ensures right { IfSome (checker_in checker.old)
        (λ held. IsRightReport (first_of held.questions) (report_of (first_of held.questions))) }
    ensures same { checker_in checker.new ≡ checker_in checker.old }
{
    let Some(teller) = checker.take_out(alloc) else {
        return NO_CHECKER;
    };
    let answer = told(teller.questions.first());
    *checker = WcpChecker::of(teller);
    answer
}

/// The interval of process `p` in the cut that was found, if it is one of those watched.
#[unsafe(no_mangle)]
pub extern "C" fn wcp_checker_cut(
    alloc: Global,
    checker: &mut WcpChecker,
    p: u32,
    interval: &mut u32,
) -> u32
    ensures none { result ≡ no_checker ↔ (checker_in checker.old ≡ None) }
    ensures member { result ≡ done
        → IfSome (checker_in checker.old) (λ held. IsInCut (report_of (first_of held.questions)) p interval.new) }
    ensures no_member { result ≡ not_in_cut → IfSome (checker_in checker.old)
        (λ held. (k : ℕ) → IsInCut (report_of (first_of held.questions)) p k → ⊥) }
    ensures answers { IsSome (checker_in checker.old) → (result ≡ done) ⊎ (result ≡ not_in_cut) }
    ensures same { checker_in checker.new ≡ checker_in checker.old }
    ensures kept { result ≢ done → interval.new ≡ interval.old }
{
    let Some(teller) = checker.take_out(alloc) else {
        return NO_CHECKER;
    };
    let member = member_of(&teller.questions.first().report(), p);
    *checker = WcpChecker::of(teller);
    match member {
        Some(found) => {
            *interval = found;
            DONE
        }
        None => NOT_IN_CUT,
    }
}

/// The tag of process `p`'s note in the cut that was found, if it is one of those watched; 0 where the note came
/// without one.
#[unsafe(no_mangle)]
pub extern "C" fn wcp_checker_tag(
    alloc: Global,
    checker: &mut WcpChecker,
    p: u32,
    tag: &mut u64,
) -> u32
    ensures none { result ≡ no_checker ↔ (checker_in checker.old ≡ None) }
    ensures member { result ≡ done → IfSome (checker_in checker.old)
        (λ held. (k : ℕ) × IsInCut (report_of (first_of held.questions)) p k) }
    ensures no_member { result ≡ not_in_cut → IfSome (checker_in checker.old)
        (λ held. (k : ℕ) → IsInCut (report_of (first_of held.questions)) p k → ⊥) }
    ensures tag { result ≡ done → IfSome (checker_in checker.old) (λ held. (taken : List TakenItem) (k : ℕ)
        → StandsForTaken (first_of held.questions) held.shelf taken
        → ClocksRise (processes (first_of held.questions)) (items_of taken)
        → IsInCut (report_of (first_of held.questions)) p k → IsTagOf taken p k tag.new) }
    ensures answers { IsSome (checker_in checker.old) → (result ≡ done) ⊎ (result ≡ not_in_cut) }
    ensures same { checker_in checker.new ≡ checker_in checker.old }
    ensures kept { result ≢ done → tag.new ≡ tag.old }
{
    let Some(teller) = checker.take_out(alloc) else {
        return NO_CHECKER;
    };
    let tagged = teller.tag_in_cut(teller.questions.first(), p);
    *checker = WcpChecker::of(teller);
    match tagged {
        Some(found) => {
            *tag = found;
            DONE
        }
        None => NOT_IN_CUT,
    }
}

/// How many snapshots of process `p` were taken.
#[unsafe(no_mangle)]
pub extern "C" fn wcp_checker_taken(
    alloc: Global,
    checker: &mut WcpChecker,
    p: u32,
    count: &mut u64,
) -> u32
    ensures none { result ≡ no_checker ↔ (checker_in checker.old ≡ None) }
    ensures range { IfSome (checker_in checker.old)
        (λ held. result ≡ done ↔ (p < processes (first_of held.questions))) }
    ensures answers { IsSome (checker_in checker.old) → (result ≡ done) ⊎ (result ≡ out_of_range) }
    ensures count { result ≡ done
        → IfSome (checker_in checker.old) (λ held. count.new ≡ taken_of (first_of held.questions) p) }
    ensures same { checker_in checker.new ≡ checker_in checker.old }
    ensures kept { result ≢ done → count.new ≡ count.old }
{
    let Some(teller) = checker.take_out(alloc) else {
        return NO_CHECKER;
    };
    let first = teller.questions.first();
    let taken = if p < first.processes() {
        Some(first.taken(p))
    } else {
        None
    };
    *checker = WcpChecker::of(teller);
    match taken {
        Some(taken) => {
            *count = taken;
            DONE
        }
        None => OUT_OF_RANGE,
    }
}
