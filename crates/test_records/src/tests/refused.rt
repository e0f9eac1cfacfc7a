//! Events that aren't recorded, and logs that aren't made.
use super::tellers::{Begun, Run, Step, assert_log, begun_with, named, run_two};
use std::alloc::Global;
use std::process::Abort;
use std::sync::Wait;
use std::thread::Threads;
use wullaphi_record::{Record, RecordFault, recorded_log};

#[test]
fn a_long_text_is_refused(rt: HostRuntime) {
    let longer = [
        Step::Does("asks"),
        Step::DoesLong(4097),
        Step::Does("waits"),
    ];
    let run = run_two(
        &rt,
        rt.alloc(),
        named(&rt, rt.alloc(), "ann", &longer),
        named(&rt, rt.alloc(), "ben", &[Step::DoesLong(4096)]),
    );
    let faults = [Some(RecordFault::Long), None];
    assert_eq!(rt; run.faults.as_slice(), faults.as_slice());
    let most = "x".repeat(rt.alloc(), 4096).expect(&rt, "memory");
    let log = format!(in rt.alloc();
        "{WAITS}{{\"host\":\"ben\",\"clock\":{{\"ann\":0,\"ben\":1}},\"event\":\"{most}\"}}\n"
    );
    assert_log(
        &rt,
        rt.alloc(),
        &run.records,
        log.expect(&rt, "memory").as_str(),
    );
}

const WAITS: &str = r#"{"host":"ann","clock":{"ann":1,"ben":0},"event":"asks"}
{"host":"ann","clock":{"ann":2,"ben":0},"event":"waits"}
"#;

/// A watch in which ann sends to ben.
fn run_once<R: Threads + Wait + Sync + Abort>(rt: &R, alloc: Global) -> Run {
    let sends = [Step::Send(1), Step::Does("has asked")];
    run_two(
        rt,
        alloc,
        named(rt, alloc, "ann", &sends),
        named(rt, alloc, "ben", &[Step::Recv, Step::Does("answers")]),
    )
}

/// The log of that watch.
const ASKED: &str = r#"{"host":"ann","clock":{"ann":1,"ben":0},"event":"has asked"}
{"host":"ben","clock":{"ann":0,"ben":1},"event":"answers"}
"#;

/// Two processes of another watch go on with these records: each refuses its event.
fn refused_on<R: Threads + Wait + Sync + Abort>(
    rt: &R,
    alloc: Global,
    first: Record,
    second: Record,
) -> Vec<Record> {
    let goes_on = [Step::Does("goes on")];
    let run = run_two(
        rt,
        alloc,
        begun_with(rt, alloc, Begun::With(first), &goes_on),
        begun_with(rt, alloc, Begun::With(second), &goes_on),
    );
    let faults = [Some(RecordFault::OtherProbe); 2];
    assert_eq!(rt; run.faults.as_slice(), faults.as_slice());
    run.records
}

#[test]
fn another_watch_is_refused(rt: HostRuntime) {
    let mut records = run_once(&rt, rt.alloc()).records;
    assert_log(&rt, rt.alloc(), &records, ASKED);
    let second = records.pop().expect(&rt, "the record of ben");
    let first = records.pop().expect(&rt, "the record of ann");
    let refused = refused_on(&rt, rt.alloc(), first, second);
    assert_log(&rt, rt.alloc(), &refused, ASKED);
}

#[test]
fn another_process_is_refused(rt: HostRuntime) {
    let mut records = run_once(&rt, rt.alloc()).records;
    let second = records.pop().expect(&rt, "the record of ben");
    let first = records.pop().expect(&rt, "the record of ann");
    let mut refused = refused_on(&rt, rt.alloc(), second, first);
    refused.reverse();
    assert_log(&rt, rt.alloc(), &refused, ASKED);
}

/// Why these records make no log.
fn fault_of(alloc: Global, records: &[Record]) -> Option<RecordFault> {
    recorded_log(alloc, records).err()
}

#[test]
fn two_records_of_one_process_are_refused(rt: HostRuntime) {
    let mut records = run_once(&rt, rt.alloc()).records;
    let cy = named(&rt, rt.alloc(), "cy", &[]);
    let again = run_two(&rt, rt.alloc(), cy, named(&rt, rt.alloc(), "dan", &[]));
    records.truncate(1);
    for other in again.records {
        records.push(other).expect(&rt, "memory");
    }
    assert_eq!(rt; fault_of(rt.alloc(), &records), Some(RecordFault::Twice));
}

#[test]
fn two_records_of_one_name_are_refused(rt: HostRuntime) {
    let first = named(&rt, rt.alloc(), "ann", &[Step::Does("asks")]);
    let second = named(&rt, rt.alloc(), "ann", &[]);
    let run = run_two(&rt, rt.alloc(), first, second);
    assert_eq!(rt;
        fault_of(rt.alloc(), &run.records),
        Some(RecordFault::Twice)
    );
}

/// Why there is no log of two records, of which the first has an event and a name of so many bytes.
fn fault_with_name<R: Threads + Wait + Sync + Abort>(
    rt: &R,
    alloc: Global,
    count: usize,
) -> Option<RecordFault> {
    let name = "x".repeat(alloc, count).expect(rt, "memory");
    let first = named(rt, alloc, name.as_str(), &[Step::Does("asks")]);
    let run = run_two(rt, alloc, first, named(rt, alloc, "ben", &[]));
    fault_of(alloc, &run.records)
}

/// The name stands in the line twice. With it the line has 49 bytes more.
#[test]
fn a_line_that_is_too_long_is_refused(rt: HostRuntime) {
    assert_eq!(rt; fault_with_name(&rt, rt.alloc(), 32_743), None);
    assert_eq!(rt;
        fault_with_name(&rt, rt.alloc(), 32_744),
        Some(RecordFault::Long)
    );
}
