//! The clock of a host's later event: spellings that are read at one look, and others that are read as JSON.
use crate::tests::reading::{assert_fault, read_log};
use std::alloc::Global;
use std::process::Abort;
use trace_log::{Log, LogFaultKind, LogLayout};

/// A log in which the host `a` has an event, and then one with this clock.
fn log_with(rt: &impl Abort, alloc: Global, clock: &str) -> String {
    format!(in alloc; "a {{\"a\":1,\"b\":2}}\nx\na {clock}\ny").expect(rt, "memory")
}

/// Reads such a log, and compares the members of the later clock.
fn check_read(rt: &impl Abort, alloc: Global, clock: &str, members: &str) {
    let log = log_with(rt, alloc, clock);
    let found = read_log(rt, alloc, LogLayout::Shiviz.whole(), log.as_bytes());
    let wanted = format!(in alloc; "2 a a=1 b=2: x\n4 a {members}: y\n").expect(rt, "memory");
    assert!(rt; found.fault.is_none(), "{clock}");
    assert_eq!(rt; found.text.as_str(), wanted.as_str());
}

#[test]
fn spellings_of_one_look(rt: HostRuntime) {
    for clock in [
        "{\"a\":2,\"b\":3}",
        "{\"a\": 2, \"b\": 3}",
        "{\"a\":2, \"b\":3}",
        "{ \"a\": 2,\"b\": 3}",
    ] {
        check_read(&rt, rt.alloc(), clock, "a=2 b=3");
    }
    check_read(&rt, rt.alloc(), "{\"a\":10,\"b\":2}", "a=10 b=2");
    check_read(
        &rt,
        rt.alloc(),
        "{\"a\":4294967294,\"b\":20}",
        "a=4294967294 b=20",
    );
}

#[test]
fn spellings_that_are_read_as_json(rt: HostRuntime) {
    for clock in [
        "{\"\\u0061\":2,\"b\":3}",
        "{\"a\" :2,\"b\":3}",
        "{\"a\":2 ,\"b\":3}",
        "{\"a\":  2,\"b\":3}",
        "{\"a\":2,\t\"b\":3}",
        "{\"a\":2,\"b\":3} ",
        " {\"a\":2,\"b\":3}",
        "{\"a\":2,\"b\":3 }",
    ] {
        check_read(&rt, rt.alloc(), clock, "a=2 b=3");
    }
    check_read(&rt, rt.alloc(), "{\"b\":3,\"a\":2}", "b=3 a=2");
    check_read(&rt, rt.alloc(), "{\"a\":2,\"b\":3,\"c\":1}", "a=2 b=3 c=1");
    check_read(&rt, rt.alloc(), "{\"c\":1,\"a\":2,\"b\":3}", "c=1 a=2 b=3");
}

/// Reads such a log, and compares the fault of the later clock.
fn check_fault(rt: &impl Abort, alloc: Global, clock: &str, kind: LogFaultKind) {
    let log = log_with(rt, alloc, clock);
    assert_fault(
        rt,
        alloc,
        LogLayout::Shiviz.whole(),
        log.as_bytes(),
        Some((3, kind)),
    );
}

#[test]
fn faults_of_later_clocks(rt: HostRuntime) {
    for (clock, kind) in [
        ("{\"a\":1,\"b\":3}", LogFaultKind::Order),
        ("{\"a\":0,\"b\":3}", LogFaultKind::Own),
        ("{\"a\":2,\"b\":1}", LogFaultKind::Falls),
        ("{\"a\":2}", LogFaultKind::Falls),
        ("{\"b\":3}", LogFaultKind::Own),
        ("{\"a\":2,\"b\":03}", LogFaultKind::Clock),
        ("{\"a\":02,\"b\":3}", LogFaultKind::Clock),
        ("{\"a\":2,\"b\":4294967295}", LogFaultKind::Clock),
        ("{\"a\":2,\"b\":99999999999999999999}", LogFaultKind::Clock),
        ("{\"a\":2,\"b\":}", LogFaultKind::Clock),
        ("{\"a\":2,\"b\":3.0}", LogFaultKind::Clock),
        ("{\"a\":2,\"b\":3", LogFaultKind::Clock),
        ("{\"a\":2,\"b\":3,}", LogFaultKind::Clock),
        ("{\"a\":2,\"b\":3}}", LogFaultKind::Clock),
        ("{\"a\":2,\"a\":3}", LogFaultKind::Clock),
        ("{\"a\":2 \"b\":3}", LogFaultKind::Clock),
        ("\"a\":2,\"b\":3}", LogFaultKind::Clock),
        ("", LogFaultKind::Clock),
    ] {
        check_fault(&rt, rt.alloc(), clock, kind);
    }
}

/// Whether a line is refused, and an event is read after it as if it hadn't been there.
fn goes_on(log: &mut Log, refused: &[u8]) -> bool {
    log.read(refused).is_err()
        && log.event().is_none()
        && matches!(log.read(b"a {\"a\":2,\"b\":2}"), Ok(false))
        && matches!(log.read(b"y"), Ok(true))
}

/// What a look had put aside of a refused clock isn't kept.
#[test]
fn a_refused_clock_leaves_nothing(rt: HostRuntime) {
    for refused in [
        "a {\"a\":2,\"b\":1}",
        "a {\"a\":3,\"b\":9",
        "a {\"a\":9,\"b\":x}",
    ] {
        let mut log = Log::new(rt.alloc(), LogLayout::Shiviz.whole());
        assert!(rt; log.read(b"a {\"a\":1,\"b\":2}").is_ok());
        assert!(rt; log.read(b"x").is_ok());
        assert!(rt; goes_on(&mut log, refused.as_bytes()), "{refused}");
    }
}

/// A name with a quote or a backslash is spelled with escapes, so it's read as JSON each time.
#[test]
fn names_with_escapes(rt: HostRuntime) {
    let log = b"a {\"a\":1,\"q\\\"\\\\\":2}\nx\na {\"a\":2,\"q\\\"\\\\\":3}\ny";
    let found = read_log(&rt, rt.alloc(), LogLayout::Shiviz.whole(), log);
    assert!(rt; found.fault.is_none());
    assert_eq!(rt;
        found.text.as_str(),
        "2 a a=1 q\"\\=2: x\n4 a a=2 q\"\\=3: y\n"
    );
}
