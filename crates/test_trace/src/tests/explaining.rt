//! Why an answer stands, of logs that were read by hand.
use super::runs::RUNS_OUT;
use std::alloc::Global;
use std::process::Abort;
use trace_asking::{Question, Subject, ask};
use trace_condition::{ConditionWords, read_conditions};
use trace_log::LogLayout;

/// What is said of why the answer stands where these conditions of `--while` and `--at` are asked for.
fn why(rt: &impl Abort, alloc: Global, whiles: &[&str], ats: &[&str]) -> String {
    let words = ConditionWords {
        whiles,
        froms: &[],
        untils: &[],
        ats,
    };
    let conditions = read_conditions(alloc, &words).expect(rt, "conditions");
    let question = Question {
        name: String::new(alloc),
        subject: Subject::Hosts(conditions),
        why: true,
    };
    let mut input = RUNS_OUT.as_bytes();
    let form = LogLayout::Shiviz.whole();
    let told = ask(alloc, form, &question, &mut input, &mut ()).expect(rt, "an answer");
    told.why
}

#[test]
fn a_moment(rt: HostRuntime) {
    let said = why(&rt, rt.alloc(), &["ann=holds", "ben=holds"], &[]);
    assert_eq!(rt;
        said.as_str(),
        "ann's condition holds from line 8 on\n\
ben's condition holds from line 14 on\nann at line 8 knows no line of ben\n\
ben at line 14 knows ann up to line 4\n"
    );
}

#[test]
fn no_moment(rt: HostRuntime) {
    let said = why(&rt, rt.alloc(), &["keeper=opens", "ben=holds"], &[]);
    assert_eq!(rt;
        said.as_str(),
        "no state of keeper is left\n\
keeper line 2 is over at line 14 of ben, which knows keeper up to line 12\n"
    );
    let said = why(&rt, rt.alloc(), &["ann=sleeps", "ben=holds"], &[]);
    assert_eq!(rt; said.as_str(), "ann's condition holds at no event\n");
}

#[test]
fn events_alone(rt: HostRuntime) {
    let said = why(&rt, rt.alloc(), &[], &["ann=asks", "ben=asks"]);
    assert_eq!(rt;
        said.as_str(),
        "ann's state is the event at line 4\n\
ben's state is the event at line 10\nann at line 4 knows no line of ben\n\
ben at line 10 knows no line of ann\n"
    );
    let said = why(&rt, rt.alloc(), &[], &["keeper=to ann", "ann=holds"]);
    assert_eq!(rt;
        said.as_str(),
        "no state of keeper is left\n\
keeper line 6 is over at line 8 of ann, which knows keeper up to line 6\n"
    );
}
