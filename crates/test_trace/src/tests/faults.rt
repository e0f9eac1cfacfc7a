use crate::tests::reading::assert_fault;
use LogFaultKind::{Clock, Cycle, Falls, Order, Own, Text};
use std::alloc::Global;
use std::process::Abort;
use trace_log::{Form, LogFaultKind, LogLayout};

type Row = (&'static [u8], u64, LogFaultKind);

/// Logs of one JSON object a line, and the fault of each.
const LINES: &[Row] = &[
    (b"asks", 1, Text),
    (b"[]", 1, Text),
    (b"{}", 1, Text),
    (
        b"{\"host\":\"a\",\"clock\":{\"a\":1},\"event\":\"x\"",
        1,
        Text,
    ),
    (
        b"{\"host\":\"a\",\"clock\":{\"a\":1},\"event\":\"\xff\"}",
        1,
        Text,
    ),
    (b"{\"host\":\"a\",\"clock\":{\"a\":1},\"event\":2}", 1, Text),
    (
        b"{\"host\":null,\"clock\":{\"a\":1},\"event\":\"x\"}",
        1,
        Text,
    ),
    (
        b"{\"host\":\"a\",\"clock\":{\"a\":01},\"event\":\"x\"}",
        1,
        Text,
    ),
    // what isn't an event comes before its clock
    (b"{\"host\":\"a\",\"clock\":{\"a\":1,\"a\":1}}", 1, Text),
    (b"{\"host\":\"a\",\"event\":\"x\"}", 1, Clock),
    (b"{\"host\":\"a\",\"clock\":[1],\"event\":\"x\"}", 1, Clock),
    (
        b"{\"host\":\"a\",\"clock\":{\"a\":\"1\"},\"event\":\"x\"}",
        1,
        Clock,
    ),
    (
        b"{\"host\":\"a\",\"clock\":{\"a\":1,\"a\":2},\"event\":\"x\"}",
        1,
        Clock,
    ),
    (
        b"{\"host\":\"a\",\"host\":\"a\",\"clock\":{\"a\":1},\"event\":\"x\"}",
        1,
        Clock,
    ),
    (
        b"{\"host\":\"a\",\"clock\":{\"a\":1,\"\\u0061\":1},\"event\":\"x\"}",
        1,
        Clock,
    ),
    // a clock that is none comes before the host's own number
    (
        b"{\"host\":\"a\",\"clock\":{\"b\":-1},\"event\":\"x\"}",
        1,
        Clock,
    ),
    (b"{\"host\":\"a\",\"clock\":{},\"event\":\"x\"}", 1, Own),
    (
        b"{\"host\":\"a\",\"clock\":{\"a\":0,\"b\":1},\"event\":\"x\"}",
        1,
        Own,
    ),
    (
        b"{\"host\":\"a\",\"clock\":{\"a\":2},\"event\":\"x\"}\n{\"host\":\"a\",\"clock\":{\"a\":2},\"event\":\"x\"}",
        2,
        Order,
    ),
    // of a restart the own number is said first
    (
        b"{\"host\":\"a\",\"clock\":{\"a\":2,\"b\":2},\"event\":\"x\"}\n\
          {\"host\":\"a\",\"clock\":{\"a\":1},\"event\":\"x\"}",
        2,
        Order,
    ),
    (
        b"{\"host\":\"a\",\"clock\":{\"a\":1,\"b\":2},\"event\":\"x\"}\n\
          {\"host\":\"a\",\"clock\":{\"a\":2},\"event\":\"x\"}",
        2,
        Falls,
    ),
    (
        b"{\"host\":\"a\",\"clock\":{\"a\":1,\"b\":2},\"event\":\"x\"}\n\
          {\"host\":\"a\",\"clock\":{\"b\":1,\"a\":2},\"event\":\"x\"}",
        2,
        Falls,
    ),
    (
        b"{\"host\":\"a\",\"clock\":{\"a\":1,\"b\":1},\"event\":\"x\"}\n\
          {\"host\":\"b\",\"clock\":{\"a\":1,\"b\":1},\"event\":\"x\"}",
        2,
        Cycle,
    ),
];

/// Logs with two lines for each event, and the fault of each.
const PAIRS: &[Row] = &[
    (b"a\nx", 1, Text),
    (b"a {\"a\":1}", 1, Text),
    (b"a {\"a\":1}\nx\nb {\"b\":1}", 3, Text),
    (b"a {\"a\":1}\n\xff", 2, Text),
    (b"a {\"a\":1} x\nx", 1, Clock),
    (b"a  b {\"a\":1}\nx", 1, Clock),
    (b"a {\"a\":1,\"a\":1}\nx", 1, Clock),
    (b" {\"a\":1}\nx", 1, Own),
    (b"a {\"b\":1}\nx", 1, Own),
    (b"a {\"a\":1}\nx\na {\"a\":1}\nx", 3, Order),
    (b"a {\"a\":1,\"b\":2}\nx\na {\"a\":2,\"b\":1}\nx", 3, Falls),
    (b"a {\"a\":1,\"b\":1}\nx\nb {\"b\":1,\"a\":1}\nx", 3, Cycle),
    (b"a {\"a\":1,\"b\":9}\nx\nb {\"b\":4,\"a\":7}\nx", 3, Cycle),
    // the clocks have the names of those before
    (
        b"a {\"a\":1,\"b\":0}\nx\nb {\"b\":1,\"a\":0}\nx\na {\"a\":2,\"b\":2}\nx\nb {\"b\":2,\"a\":2}\nx",
        7,
        Cycle,
    ),
    // round by three hosts, each of which passes on all that it knows
    (
        b"a {\"a\":1,\"c\":1}\nx\nb {\"b\":1,\"a\":1,\"c\":1}\nx\nc {\"c\":1,\"b\":1,\"a\":1}\nx",
        5,
        Cycle,
    ),
    // the host's own faults come first
    (b"a {\"a\":1,\"b\":1}\nx\nb {\"a\":1}\nx", 3, Own),
    (
        b"b {\"b\":1}\nx\na {\"a\":1,\"b\":1}\nx\nb {\"b\":1,\"a\":1}\nx",
        5,
        Order,
    ),
    (
        b"b {\"b\":1,\"c\":2}\nx\na {\"a\":1,\"b\":2}\nx\nb {\"b\":2,\"a\":1,\"c\":1}\nx",
        5,
        Falls,
    ),
];

/// Logs with two lines for each event that have no fault.
const NO_CYCLES: &[&[u8]] = &[
    // each knows the event of the other before its last one
    b"a {\"a\":1}\nx\nb {\"b\":1}\nx\na {\"a\":2,\"b\":1}\nx\nb {\"b\":2,\"a\":1}\nx",
    // one only knows the other
    b"a {\"a\":1,\"b\":1}\nx\nb {\"b\":1}\nx",
    b"b {\"b\":1}\nx\na {\"a\":1,\"b\":1}\nx",
    b"a {\"a\":1,\"b\":1}\nx\nb {\"b\":2,\"a\":1}\nx",
    // round by three hosts that pass nothing on
    b"a {\"a\":1,\"c\":1}\nx\nb {\"b\":1,\"a\":1}\nx\nc {\"c\":1,\"b\":1}\nx",
    // the event that is known isn't the last one of its host that was read
    b"a {\"a\":1,\"b\":1}\nx\na {\"a\":2,\"b\":1}\nx\nb {\"b\":1,\"a\":1}\nx",
];

/// Logs of the form with the second line of each event first, and the fault of each.
const REVERSED_PAIRS: &[Row] = &[
    (b"x\n\xff", 2, Text),
    (b"x", 1, Text),
    (b"\xff\na {\"a\":1}", 1, Text),
    (b"x\na {\"a\":1}\nx\na {\"a\":1}", 4, Order),
];

/// Reads each log, and compares its fault.
fn assert_faults(rt: &impl Abort, alloc: Global, form: Form, rows: &[Row]) {
    for (bytes, line, kind) in rows {
        assert_fault(rt, alloc, form, bytes, Some((*line, *kind)));
    }
}

#[test]
fn events_that_do_not_know_each_other(rt: HostRuntime) {
    for bytes in NO_CYCLES {
        assert_fault(&rt, rt.alloc(), LogLayout::Shiviz.whole(), bytes, None);
    }
}

#[test]
fn each_fault_with_its_line(rt: HostRuntime) {
    assert_faults(&rt, rt.alloc(), LogLayout::Lines.whole(), LINES);
    assert_faults(&rt, rt.alloc(), LogLayout::Shiviz.whole(), PAIRS);
    assert_faults(
        &rt,
        rt.alloc(),
        LogLayout::ShivizReversed.whole(),
        REVERSED_PAIRS,
    );
}

#[test]
fn what_is_no_fault(rt: HostRuntime) {
    for bytes in [
        // a number of 0 may go missing, and numbers may be left out
        b"a {\"a\":1,\"b\":0}\nx\na {\"a\":7}\ny".as_slice(),
        // hosts in any order, names in any order
        b"a {\"a\":1,\"b\":2}\nx\nb {\"b\":1}\nx\na {\"b\":2,\"a\":2}\nx\nb {\"c\":5,\"b\":9}\nx".as_slice(),
    ] {
        assert_fault(&rt, rt.alloc(), LogLayout::Shiviz.whole(), bytes, None);
    }
}
