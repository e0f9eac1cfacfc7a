//! What a checker tells of one of its questions.
ghost use Rattle.std.specs.Prelude.{◌≡◌, ◌≢◌, ◌<◌, ◌≤◌, ◌↔◌, ◌⊎◌, ℕ, None, List, IsSome, IfSome, length};
ghost use Rattle.std.specs.Prelude.{if◌then◌else◌};
ghost use Rattle.wcp_model.specs.ReportByClocks.{ClocksRise};
ghost use Rattle.wcp_queue.specs.Checker.{processes, report_of};
ghost use Rattle.wcp_c.specs.Answers.{done, no_checker, not_in_cut, out_of_range};
ghost use Rattle.wcp_c.specs.Checkers.{IsInCut, IsRightReport, checker_in, report_number};
ghost use Rattle.wcp_c.specs.Questions.{checker_at, checkers_of};
ghost use Rattle.wcp_c.specs.Tags.{IsTagOf, StandsForTaken, TakenItem, items_of};

use crate::answer::{DONE, NO_CHECKER, NOT_IN_CUT, OUT_OF_RANGE};
use crate::handle::WcpChecker;
use crate::in_cut::member_of;
use crate::told::told;
use std::alloc::Global;

/// How many questions the checker has. They are numbered from 0.
#[unsafe(no_mangle)]
pub extern "C" fn wcp_checker_questions(
    alloc: Global,
    checker: &mut WcpChecker,
    count: &mut u64,
) -> u32
    ensures none { result ≡ no_checker ↔ (checker_in checker.old ≡ None) }
    ensures answers { IsSome (checker_in checker.old) → result ≡ done }
    ensures count { IfSome (checker_in checker.old) (λ held. count.new ≡ length (checkers_of held.questions)) }
    ensures same { checker_in checker.new ≡ checker_in checker.old }
    ensures kept { result ≢ done → count.new ≡ count.old }
{
    let Some(teller) = checker.take_out(alloc) else {
        return NO_CHECKER;
    };
    *count = teller.questions.count() as u64;
    *checker = WcpChecker::of(teller);
    DONE
}

/// What the checker's notes tell of a question.
#[unsafe(no_mangle)]
pub extern "C" fn wcp_checker_report_of(
    alloc: Global,
    checker: &mut WcpChecker,
    question: u32,
) -> u32
    ensures none { result ≡ no_checker ↔ (checker_in checker.old ≡ None) }
    ensures range { IfSome (checker_in checker.old)
        (λ held. result ≡ out_of_range ↔ (length (checkers_of held.questions) ≤ question)) }
    ensures value { IfSome (checker_in checker.old) (λ held. question < length (checkers_of held.questions)
        → result ≡ report_number (report_of (checker_at held.questions question))) }
    ensures right { IfSome (checker_in checker.old) (λ held. question < length (checkers_of held.questions)
        → IsRightReport (checker_at held.questions question) (report_of (checker_at held.questions question))) }
    ensures same { checker_in checker.new ≡ checker_in checker.old }
{
    let Some(teller) = checker.take_out(alloc) else {
        return NO_CHECKER;
    };
    let answer = match teller.questions.get(question as usize) {
        Some(asked) => told(asked),
        None => OUT_OF_RANGE,
    };
    *checker = WcpChecker::of(teller);
    answer
}

/// The interval of process `p` in the cut that a question found, if it is one of those that the question watches.
#[unsafe(no_mangle)]
pub extern "C" fn wcp_checker_cut_of(
    alloc: Global,
    checker: &mut WcpChecker,
    question: u32,
    p: u32,
    interval: &mut u32,
) -> u32
    ensures none { result ≡ no_checker ↔ (checker_in checker.old ≡ None) }
    ensures range { IfSome (checker_in checker.old)
        (λ held. result ≡ out_of_range ↔ (length (checkers_of held.questions) ≤ question)) }
    ensures member { result ≡ done → IfSome (checker_in checker.old)
        (λ held. IsInCut (report_of (checker_at held.questions question)) p interval.new) }
    ensures no_member { result ≡ not_in_cut → IfSome (checker_in checker.old)
        (λ held. (k : ℕ) → IsInCut (report_of (checker_at held.questions question)) p k → ⊥) }
    ensures answers { IsSome (checker_in checker.old)
        → (result ≡ done) ⊎ (result ≡ not_in_cut) ⊎ (result ≡ out_of_range) }
    ensures same { checker_in checker.new ≡ checker_in checker.old }
    ensures kept { result ≢ done → interval.new ≡ interval.old }
{
    let Some(teller) = checker.take_out(alloc) else {
        return NO_CHECKER;
    };
    let member = match teller.questions.get(question as usize) {
        Some(asked) => Ok(member_of(&asked.report(), p)),
        None => Err(OUT_OF_RANGE),
    };
    *checker = WcpChecker::of(teller);
    match member {
        Ok(Some(found)) => {
            *interval = found;
            DONE
        }
        Ok(None) => NOT_IN_CUT,
        Err(why) => why,
    }
}

/// The tag of process `p`'s note in the cut that a question found, if it is one of those that the question watches; 0
/// where the note came without one.
#[unsafe(no_mangle)]
pub extern "C" fn wcp_checker_tag_of(
    alloc: Global,
    checker: &mut WcpChecker,
    question: u32,
    p: u32,
    tag: &mut u64,
) -> u32
    ensures none { result ≡ no_checker ↔ (checker_in checker.old ≡ None) }
    ensures range { IfSome (checker_in checker.old)
        (λ held. result ≡ out_of_range ↔ (length (checkers_of held.questions) ≤ question)) }
    ensures member { result ≡ done → IfSome (checker_in checker.old)
        (λ held. (k : ℕ) × IsInCut (report_of (checker_at held.questions question)) p k) }
    ensures no_member { result ≡ not_in_cut → IfSome (checker_in checker.old)
        (λ held. (k : ℕ) → IsInCut (report_of (checker_at held.questions question)) p k → ⊥) }
    ensures tag { result ≡ done → IfSome (checker_in checker.old) (λ held. (taken : List TakenItem) (k : ℕ)
        → StandsForTaken (checker_at held.questions question) held.shelf taken
        → ClocksRise (processes (checker_at held.questions question)) (items_of taken)
        → IsInCut (report_of (checker_at held.questions question)) p k → IsTagOf taken p k tag.new) }
    ensures answers { IsSome (checker_in checker.old)
        → (result ≡ done) ⊎ (result ≡ not_in_cut) ⊎ (result ≡ out_of_range) }
    ensures same { checker_in checker.new ≡ checker_in checker.old }
    ensures kept { result ≢ done → tag.new ≡ tag.old }
{
    let Some(teller) = checker.take_out(alloc) else {
        return NO_CHECKER;
    };
    let tagged = match teller.questions.get(question as usize) {
        Some(asked) => Ok(teller.tag_in_cut(asked, p)),
        None => Err(OUT_OF_RANGE),
    };
    *checker = WcpChecker::of(teller);
    match tagged {
        Ok(Some(found)) => {
            *tag = found;
            DONE
        }
        Ok(None) => NOT_IN_CUT,
        Err(why) => why,
    }
}

/// Whether a question was starved: 1 if it was, else 0.
#[unsafe(no_mangle)]
pub extern "C" fn wcp_checker_is_starved(
    alloc: Global,
    checker: &mut WcpChecker,
    question: u32,
    starved: &mut u32,
) -> u32
    ensures none { result ≡ no_checker ↔ (checker_in checker.old ≡ None) }
    ensures range { IfSome (checker_in checker.old)
        (λ held. result ≡ out_of_range ↔ (length (checkers_of held.questions) ≤ question)) }
    ensures answers { IsSome (checker_in checker.old) → (result ≡ done) ⊎ (result ≡ out_of_range) }
    ensures value { result ≡ done → IfSome (checker_in checker.old)
        (λ held. starved.new ≡ (if (checker_at held.questions question).starved then 1 else 0)) }
    ensures same { checker_in checker.new ≡ checker_in checker.old }
    ensures kept { result ≢ done → starved.new ≡ starved.old }
{
    let Some(teller) = checker.take_out(alloc) else {
        return NO_CHECKER;
    };
    let told = match teller.questions.get(question as usize) {
        Some(asked) => Some(asked.is_starved()),
        None => None,
    };
    *checker = WcpChecker::of(teller);
    match told {
        Some(is_starved) => {
            *starved = u32::from(is_starved);
            DONE
        }
        None => OUT_OF_RANGE,
    }
}
