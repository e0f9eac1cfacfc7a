//! Why words of a command line say no conditions.
use std::alloc::Global;
use std::process::Abort;
use trace_condition::ConditionWords;
use trace_questions::why_no_conditions;

const NO_WORDS: ConditionWords<'static> = ConditionWords {
    whiles: &[],
    froms: &[],
    untils: &[],
    ats: &[],
};

/// Compares the line that says why words of a command line say no conditions.
fn assert_why(rt: &impl Abort, alloc: Global, words: &ConditionWords<'_>, expected: &str) {
    let why = match why_no_conditions(alloc, words, "--") {
        Ok(why) => why,
        Err(_) => why_no_conditions(alloc, words, "--").expect(rt, "memory"),
    };
    assert_eq!(rt; why.as_str(), expected);
}

#[test]
fn a_from_of_a_command_line_has_its_until(rt: HostRuntime) {
    let froms_alone = ConditionWords {
        froms: &["n1=a"],
        ..NO_WORDS
    };
    assert_why(
        &rt,
        rt.alloc(),
        &froms_alone,
        "--from n1 needs an --until n1",
    );
    let untils_alone = ConditionWords {
        whiles: &["a=b"],
        untils: &["n1=a"],
        ..NO_WORDS
    };
    assert_why(
        &rt,
        rt.alloc(),
        &untils_alone,
        "--until n1 needs a --from n1",
    );
    let untils_twice = ConditionWords {
        froms: &["a=b"],
        untils: &["a=b", "a=c"],
        ..NO_WORDS
    };
    let line = "--from a takes one --until a, and there are more";
    assert_why(&rt, rt.alloc(), &untils_twice, line);
}

#[test]
fn a_host_of_a_command_line_has_one_condition(rt: HostRuntime) {
    let no_host = ConditionWords {
        whiles: &["a=b"],
        ats: &["=c"],
        ..NO_WORDS
    };
    assert_why(
        &rt,
        rt.alloc(),
        &no_host,
        "--at takes HOST=REGEX, and not '=c'",
    );
    let twice = ConditionWords {
        whiles: &["a=b"],
        froms: &["a=b"],
        untils: &["a=b"],
        ..NO_WORDS
    };
    assert_why(&rt, rt.alloc(), &twice, "a has more than one condition");
    let line = "no host has a condition: give --while, --from and --until, or --at";
    assert_why(&rt, rt.alloc(), &NO_WORDS, line);
}
