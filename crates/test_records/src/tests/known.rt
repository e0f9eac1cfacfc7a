//! Which events of other processes an event knows.
use super::tellers::{Step, assert_log, named, run_all, run_two};

#[test]
fn an_event_knows_what_was_recorded_before_the_stamp(rt: HostRuntime) {
    let sends = [
        Step::Does("asks"),
        Step::Does("asks again"),
        Step::Send(1),
        Step::Does("waits"),
    ];
    let receives = [Step::Does("wakes"), Step::Recv, Step::Does("answers")];
    let run = run_two(
        &rt,
        rt.alloc(),
        named(&rt, rt.alloc(), "ann", &sends),
        named(&rt, rt.alloc(), "ben", &receives),
    );
    assert_log(&rt, rt.alloc(), &run.records, TWO);
}

const TWO: &str = r#"{"host":"ann","clock":{"ann":1,"ben":0},"event":"asks"}
{"host":"ann","clock":{"ann":2,"ben":0},"event":"asks again"}
{"host":"ann","clock":{"ann":3,"ben":0},"event":"waits"}
{"host":"ben","clock":{"ann":0,"ben":1},"event":"wakes"}
{"host":"ben","clock":{"ann":2,"ben":2},"event":"answers"}
"#;

#[test]
fn knowledge_is_passed_on(rt: HostRuntime) {
    let asks = [
        Step::Does("asks"),
        Step::Send(1),
        Step::Does("waits"),
        Step::Recv,
        Step::Does("is told"),
    ];
    let passes_on = [
        Step::Recv,
        Step::Does("passes it on"),
        Step::Send(2),
        Step::Does("rests"),
    ];
    let answers = [Step::Recv, Step::Does("answers"), Step::Send(0)];
    let tellers = vec![in rt.alloc();
        named(&rt, rt.alloc(), "ann", &asks),
        named(&rt, rt.alloc(), "ben", &passes_on),
        named(&rt, rt.alloc(), "cy", &answers),
    ];
    let run = run_all(&rt, rt.alloc(), tellers.expect(&rt, "memory"));
    assert_log(&rt, rt.alloc(), &run.records, THREE);
}

const THREE: &str = r#"{"host":"ann","clock":{"ann":1,"ben":0,"cy":0},"event":"asks"}
{"host":"ann","clock":{"ann":2,"ben":0,"cy":0},"event":"waits"}
{"host":"ann","clock":{"ann":3,"ben":1,"cy":1},"event":"is told"}
{"host":"ben","clock":{"ann":1,"ben":1,"cy":0},"event":"passes it on"}
{"host":"ben","clock":{"ann":1,"ben":2,"cy":0},"event":"rests"}
{"host":"cy","clock":{"ann":1,"ben":1,"cy":1},"event":"answers"}
"#;

#[test]
fn no_event_has_no_line(rt: HostRuntime) {
    assert_log(&rt, rt.alloc(), &[], "");
    let run = run_two(
        &rt,
        rt.alloc(),
        named(&rt, rt.alloc(), "ann", &[Step::Send(1)]),
        named(&rt, rt.alloc(), "ben", &[Step::Recv, Step::Does("hears")]),
    );
    assert_log(&rt, rt.alloc(), &run.records, ONE);
}

const ONE: &str = r#"{"host":"ben","clock":{"ann":0,"ben":1},"event":"hears"}
"#;
