//! Records that keep the last events alone.
use super::tellers::{Begun, Step, assert_log, begun_with, named, run_two};
use std::alloc::Global;
use std::process::Abort;
use std::sync::Wait;
use std::thread::Threads;

/// The log of two processes, of which the first keeps so many events, is this one.
fn assert_kept<R: Threads + Wait + Sync + Abort>(rt: &R, alloc: Global, most: usize, log: &str) {
    let sends = [
        Step::Does("asks"),
        Step::Does("asks again"),
        Step::Send(1),
        Step::Does("waits"),
        Step::Does("leaves"),
    ];
    let name = String::from_str(alloc, "ann").expect(rt, "memory");
    let first = begun_with(rt, alloc, Begun::LastOnes(name, most), &sends);
    let second = named(rt, alloc, "ben", &[Step::Recv, Step::Does("answers")]);
    let run = run_two(rt, alloc, first, second);
    assert_log(rt, alloc, &run.records, log);
}

#[test]
fn numbers_go_on_where_events_are_gone(rt: HostRuntime) {
    assert_kept(&rt, rt.alloc(), 3, LAST_THREE);
    assert_kept(&rt, rt.alloc(), 2, LAST_TWO);
}

const LAST_THREE: &str = r#"{"host":"ann","clock":{"ann":2,"ben":0},"event":"asks again"}
{"host":"ann","clock":{"ann":3,"ben":0},"event":"waits"}
{"host":"ann","clock":{"ann":4,"ben":0},"event":"leaves"}
{"host":"ben","clock":{"ann":2,"ben":1},"event":"answers"}
"#;

/// Of the events that ben knows none is kept.
const LAST_TWO: &str = r#"{"host":"ann","clock":{"ann":3,"ben":0},"event":"waits"}
{"host":"ann","clock":{"ann":4,"ben":0},"event":"leaves"}
{"host":"ben","clock":{"ann":0,"ben":1},"event":"answers"}
"#;

#[test]
fn one_event_is_kept_at_least(rt: HostRuntime) {
    assert_kept(&rt, rt.alloc(), 1, LAST);
    assert_kept(&rt, rt.alloc(), 0, LAST);
}

const LAST: &str = r#"{"host":"ann","clock":{"ann":4,"ben":0},"event":"leaves"}
{"host":"ben","clock":{"ann":0,"ben":1},"event":"answers"}
"#;
