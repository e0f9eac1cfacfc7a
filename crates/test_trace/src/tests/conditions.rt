//! What conditions words say, and the events at which they hold.
use std::alloc::Global;
use std::fmt::Write;
use std::process::Abort;
use trace_condition::{Condition, ConditionWords, Judge, read_conditions};

const NO_WORDS: ConditionWords<'static> = ConditionWords {
    whiles: &[],
    froms: &[],
    untils: &[],
    ats: &[],
};

/// The texts of a client of a lock.
const CLIENT: &[&str] = &[
    "asks for the lock",
    "holds the lock",
    "writes",
    "gives the lock back",
    "asks for the lock",
    "holds the lock, gives the lock back",
    "",
];

/// What words are read as: each condition with its host, whether it lasts, and its marks; or the fault.
fn shown(rt: &impl Abort, alloc: Global, words: &ConditionWords<'_>) -> String {
    let mut text = String::new(alloc);
    match read_conditions(alloc, words) {
        Ok(conditions) => {
            for condition in &conditions {
                push_condition(rt, alloc, &mut text, condition);
            }
        }
        Err(fault) => write!(text, "{fault}").expect(rt, "memory"),
    }
    text
}

fn push_condition(rt: &impl Abort, alloc: Global, text: &mut String, condition: &Condition) {
    let how = if condition.lasts() { "lasts" } else { "ends" };
    write!(text, "{} {how} ", condition.host).expect(rt, "memory");
    push_judged(rt, alloc, text, condition);
    text.push_str(";").expect(rt, "memory");
}

fn push_judged(rt: &impl Abort, alloc: Global, text: &mut String, condition: &Condition) {
    let mut judge = condition.judge(alloc).expect(rt, "memory");
    push_marks(rt, text, &mut judge, CLIENT);
}

/// A `+` for each event with these texts at which the condition holds, and a `-` for each other one.
fn push_marks(rt: &impl Abort, marks: &mut String, judge: &mut Judge<'_>, texts: &[&str]) {
    for text in texts {
        let mark = if judge.holds(text) { "+" } else { "-" };
        marks.push_str(mark).expect(rt, "memory");
    }
}

#[test]
fn conditions_in_order_and_where_they_hold(rt: HostRuntime) {
    let words = ConditionWords {
        whiles: &["bob=^holds the lock$", "alice="],
        froms: &["dave=holds", "carol=lock"],
        untils: &["carol=lock", "dave=gives"],
        ats: &["erin=holds the lock"],
    };
    let found = shown(&rt, rt.alloc(), &words);
    assert_eq!(rt;
        found.as_str(),
        "bob lasts -+-----;alice lasts +++++++;dave lasts -++--++;carol lasts +--+-++;erin ends -+---+-;"
    );
}

#[test]
fn a_host_with_two_conditions(rt: HostRuntime) {
    let words = ConditionWords {
        whiles: &["alice=holds"],
        ats: &["alice=("],
        ..NO_WORDS
    };
    let found = shown(&rt, rt.alloc(), &words);
    assert_eq!(rt; found.as_str(), "usage");
}

#[test]
fn the_first_expression_that_is_none(rt: HostRuntime) {
    let words = ConditionWords {
        whiles: &["alice=x", "bob=a{2", "carol=("],
        ..NO_WORDS
    };
    let found = shown(&rt, rt.alloc(), &words);
    assert_eq!(rt;
        found.as_str(),
        "expression bob: regex parse error at 1..3: unclosed counted repetition"
    );
}

/// What words at so many hosts are read as.
fn shown_at(rt: &impl Abort, alloc: Global, hosts: usize) -> String {
    let seventeen = "a= b= c= d= e= f= g= h= i= j= k= l= m= n= o= p= q=".split(' ');
    let ats: Vec<&str> = seventeen.take(hosts).collect(alloc).expect(rt, "memory");
    let words = ConditionWords {
        ats: &ats,
        ..NO_WORDS
    };
    shown(rt, alloc, &words)
}

#[test]
fn as_many_hosts_as_there_are(rt: HostRuntime) {
    let many = shown_at(&rt, rt.alloc(), 17);
    assert_eq!(rt; many.len(), 17 * "a ends +++++++;".len());
    let none = shown_at(&rt, rt.alloc(), 0);
    assert_eq!(rt; none.as_str(), "usage");
}
