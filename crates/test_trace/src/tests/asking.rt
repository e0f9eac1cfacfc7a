ghost use Rattle.std.specs.Prelude.{All, IfOk};
ghost use Rattle.trace_condition.specs.Conditions.{HaveHosts};
ghost use Rattle.trace_asking.specs.Asking.{HaveAll};
ghost use Rattle.trace_asking.specs.Seeking.{IsAskable};

use super::runs::RUNS_OUT;
use std::alloc::{AllocError, Global};
use std::fmt::Write;
use std::io::{ErrorKind, Read};
use std::process::Abort;
use test_streams::{Source, Trouble};
use trace_asking::{Asking, Question, QuestionAnswer, Subject};
use trace_condition::{Condition, ConditionFault, ConditionWords, Rule, read_conditions};
use trace_detect::DetectFault;
use trace_log::LogLayout;
use trace_pairs::read_hosts_condition;
use trace_source::Clocked;
use trace_text::reasoned_lines;

/// The conditions that these words say.
fn conditions(alloc: Global, whiles: &[&str]) -> Result<Vec<Condition>, ConditionFault>
    ensures { IfOk result (λ conditions. HaveHosts conditions.items) }
{
    let words = ConditionWords {
        whiles,
        froms: &[],
        untils: &[],
        ats: &[],
    };
    read_conditions(alloc, &words)
}

/// The question that this word and that one hold at once.
fn question(alloc: Global, name: &str, whiles: &[&str]) -> Result<Question, ConditionFault>
    ensures { IfOk result (λ question. IsAskable question.subject) }
{
    let subject = Subject::Hosts(conditions(alloc, whiles)?);
    let name = String::from_str(alloc, name)?;
    Ok(Question {
        name,
        subject,
        why: false,
    })
}

/// The question whether they must have held at once.
fn must_hold(alloc: Global, name: &str, whiles: &[&str]) -> Result<Question, ConditionFault>
    ensures { IfOk result (λ question. IsAskable question.subject) }
{
    let subject = Subject::Definitely(conditions(alloc, whiles)?);
    let name = String::from_str(alloc, name)?;
    Ok(Question {
        name,
        subject,
        why: false,
    })
}

/// The question that any two of the hosts whose names match hold at once, by this word.
fn question_of_two(alloc: Global, name: &str, word: &str) -> Result<Question, ConditionFault>
    ensures { IfOk result (λ question. IsAskable question.subject) }
{
    let condition = read_hosts_condition(alloc, &Rule::While(word))?;
    let name = String::from_str(alloc, name)?;
    let subject = Subject::AnyTwo(condition);
    Ok(Question {
        name,
        subject,
        why: false,
    })
}

/// What is answered to each question, in the order of the answers, and the fault that ends them, if there is one.
fn told<I: Read>(alloc: Global, questions: &[Question], input: &mut I) -> Result<String, AllocError>
    requires { HaveAll questions.now }
{
    let mut told = String::new(alloc);
    let source = Clocked::new(alloc, LogLayout::Shiviz.whole(), input)?;
    let mut asking = Asking::new(alloc, source, questions)?;
    for _ in 0..questions.len() {
        match asking.next_answer(&mut ()) {
            Ok(Some(answer)) => push_answer(alloc, &mut told, questions, &answer)?,
            Ok(None) => return Ok(told),
            Err(fault) => {
                write!(told, "{fault}")?;
                return Ok(told);
            }
        }
    }
    Ok(told)
}

/// Adds the name of the question and its answer.
fn push_answer(
    alloc: Global,
    told: &mut String,
    questions: &[Question],
    answer: &QuestionAnswer,
) -> Result<(), AllocError> {
    if let Some(question) = questions.get(answer.place) {
        write!(told, "{}: ", question.name)?;
    }
    match &answer.answer {
        Ok(answer) => {
            let lines = reasoned_lines(alloc, &answer)?;
            told.push_str(lines.as_str())
        }
        Err(fault) => writeln!(told, "{fault}"),
    }
}

/// What is answered to the holders of the lease, to those who ask before it is opened, and to one who never holds it.
fn told_of_three<I: Read>(rt: &impl Abort, alloc: Global, input: &mut I) -> String {
    let holders = question(alloc, "holders", &["ann=holds", "ben=holds"]).expect(rt, "a question");
    let early = question(alloc, "early", &["keeper=opens", "ann=asks"]).expect(rt, "a question");
    let never = question(alloc, "never", &["ann=sleeps", "ben=holds"]).expect(rt, "a question");
    told(alloc, &[holders, early, never], input).expect(rt, "memory")
}

#[test]
fn each_question_is_answered_as_its_moment_becomes_known(rt: HostRuntime) {
    let told = told_of_three(&rt, rt.alloc(), &mut RUNS_OUT.as_bytes());
    assert_eq!(rt;
        told.as_str(),
        "early: found\nkeeper line 2 opens\nann line 4 asks for the lease\n\
         holders: found\nann line 8 holds the lease\nben line 14 holds the lease\n\
         never: none\nann events 3 matched 0\nben events 2 matched 1\n"
    );
}

#[test]
fn an_answer_waits_for_no_later_line(rt: HostRuntime) {
    // a read gives 30 bytes, so the second one reaches the end of line 4, at byte 59
    for (reads, expected) in [
        (1, "read"),
        (
            2,
            "early: found\nkeeper line 2 opens\nann line 4 asks for the lease\nread",
        ),
    ] {
        let mut input = Source::new(
            RUNS_OUT.as_bytes(),
            30,
            Trouble::At(reads, ErrorKind::TimedOut),
        );
        let told = told_of_three(&rt, rt.alloc(), &mut input);
        assert_eq!(rt; told.as_str(), expected);
    }
}

#[test]
fn a_fault_of_the_log_ends_the_questions_that_are_open(rt: HostRuntime) {
    let log = "keeper {\"keeper\":1}\nopens\nann {\"ann\":1}\nasks\nann {\"ann\":1}\nasks again\n";
    let told = told_of_three(&rt, rt.alloc(), &mut log.as_bytes());
    assert_eq!(rt;
        told.as_str(),
        "early: found\nkeeper line 2 opens\nann line 4 asks\nline 5: order: ann is 1 again"
    );
}

#[test]
fn a_host_that_logs_nothing_ends_its_own_question_alone(rt: HostRuntime) {
    let log = "keeper {\"keeper\":1}\nopens\nann {\"ann\":1}\nholds\n";
    let told = told_of_three(&rt, rt.alloc(), &mut log.as_bytes());
    assert_eq!(rt;
        told.as_str(),
        "holders: nohost ben\nearly: none\nkeeper events 1 matched 1\nann events 1 matched 0\nnever: nohost ben\n"
    );
}

#[test]
fn any_two_hosts_are_asked_about_beside_others(rt: HostRuntime) {
    let alloc = rt.alloc();
    let any = question_of_two(alloc, "any", "^(ann|ben)$=holds").expect(&rt, "a question");
    let early = question(alloc, "early", &["keeper=opens", "ann=asks"]).expect(&rt, "a question");
    let none = question_of_two(alloc, "none", "n$=sleeps").expect(&rt, "a question");
    let nobody = question_of_two(alloc, "nobody", "^zoe=").expect(&rt, "a question");
    let told = told(alloc, &[any, early, none, nobody], &mut RUNS_OUT.as_bytes()).expect(
        &rt, "memory",
    );
    assert_eq!(rt;
        told.as_str(),
        "early: found\nkeeper line 2 opens\nann line 4 asks for the lease\n\
         any: found\nann line 8 holds the lease\nben line 14 holds the lease\n\
         none: none\nann events 3 matched 0\nben events 2 matched 0\nnobody: nohost ^zoe\n"
    );
}

/// Ann and ben hold the lease, and each learns of the other while it does.
const TOLD: &str = "ann {\"ann\":1}\nholds\nben {\"ben\":1}\nholds\n\
                    ann {\"ann\":2,\"ben\":1}\nholds on\nben {\"ben\":2,\"ann\":1}\nholds on\n\
                    ann {\"ann\":3,\"ben\":1}\ngives it back\n";

#[test]
fn it_is_told_that_they_must_have_held_as_soon_as_it_is_known(rt: HostRuntime) {
    let alloc = rt.alloc();
    let both = must_hold(alloc, "both", &["ann=holds", "ben=holds"]).expect(&rt, "a question");
    let ends = must_hold(alloc, "ends", &["ann=gives", "ben=on"]).expect(&rt, "a question");
    let once = question(alloc, "once", &["ann=holds", "ben=holds"]).expect(&rt, "a question");
    let told = told(alloc, &[both, ends, once], &mut TOLD.as_bytes()).expect(&rt, "memory");
    assert_eq!(rt;
        told.as_str(),
        "once: found\nann line 2 holds\nben line 4 holds\n\
         both: definitely\nann line 2 on holds\nben line 4 on holds\n\
         ends: definitely\nann line 10 on gives it back\nben line 8 on holds on\n"
    );
}
