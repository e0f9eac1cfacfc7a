use crate::tests::reading::assert_fault;
use std::alloc::Global;
use std::process::Abort;
use trace_log::{Log, LogFaultKind, LogLayout, LogReadFault, MAX_LINE};

/// Asks whether a clock may have this number.
fn check_number(rt: &impl Abort, alloc: Global, number: &str, is_whole: bool) {
    let line = format!(in alloc; "a {{\"a\":1,\"b\":{number}}}\nx").expect(rt, "memory");
    let wanted = if is_whole {
        None
    } else {
        Some((1, LogFaultKind::Clock))
    };
    assert_fault(
        rt,
        alloc,
        LogLayout::Shiviz.whole(),
        line.as_bytes(),
        wanted,
    );
}

#[test]
fn whole_numbers_alone(rt: HostRuntime) {
    for (number, is_whole) in [
        ("1", true),
        ("4294967294", true),
        ("4294967295", false),
        ("18446744073709551617", false),
        ("1.0", false),
        ("1e3", false),
        ("-1", false),
        ("-0", false),
        ("01", false),
        ("+1", false),
        ("true", false),
        ("null", false),
        ("\"1\"", false),
        ("[1]", false),
    ] {
        check_number(&rt, rt.alloc(), number, is_whole);
    }
}

/// An event with a member of lists within lists, so many.
fn deep_line(rt: &impl Abort, alloc: Global, depth: u32) -> String {
    let start = "{\"host\":\"a\",\"clock\":{\"a\":1},\"event\":\"x\",\"more\":";
    let mut line = String::from_str(alloc, start).expect(rt, "memory");
    for _ in 0..depth {
        line.push('[').expect(rt, "memory");
    }
    for _ in 0..depth {
        line.push(']').expect(rt, "memory");
    }
    line.push('}').expect(rt, "memory");
    line
}

/// Asks whether a line with so many lists within lists is read.
fn check_depth(rt: &impl Abort, alloc: Global, depth: u32, is_read: bool) {
    let line = deep_line(rt, alloc, depth);
    let mut log = Log::new(alloc, LogLayout::Lines.whole());
    let read = log.read(line.as_bytes());
    assert!(rt; read.is_ok() == is_read, "{depth}");
}

#[test]
fn deep_values_are_passed_over(rt: HostRuntime) {
    check_depth(&rt, rt.alloc(), 100, true);
    check_depth(&rt, rt.alloc(), 200, false);
}

/// The line and the kind of a line's fault, where it has one.
fn fault_of(log: &mut Log, line: &[u8]) -> Option<(u64, LogFaultKind)> {
    match log.read(line) {
        Err(LogReadFault::Log(fault)) => Some((fault.line, fault.kind)),
        _ => None,
    }
}

#[test]
fn a_line_is_no_longer_than_the_most(rt: HostRuntime) {
    let mut log = Log::new(rt.alloc(), LogLayout::ShivizReversed.whole());
    let mut line = vec![in rt.alloc(); b'x'; MAX_LINE].expect(&rt, "memory");
    assert!(rt; matches!(log.read(&line), Ok(false)));
    line.push(b'x').expect(&rt, "memory");
    assert!(rt; fault_of(&mut log, &line) == Some((2, LogFaultKind::Long)));
    // the log is as before
    assert!(rt; matches!(log.read(b"a {\"a\":1}"), Ok(true)));
}
