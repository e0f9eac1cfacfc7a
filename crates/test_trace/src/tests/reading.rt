use std::alloc::Global;
use std::fmt::Write;
use std::process::Abort;
use trace_log::{Form, Log, LogFault, LogFaultKind, LogReadFault, Logged, Member};

/// What a log was read as, event by event, and its fault or its end.
#[derive(Drop)]
pub struct Reading {
    pub text: String,
    pub fault: Option<LogFault>,
}

/// Reads a log line by line. A last line without LF is a line.
pub fn read_log(rt: &impl Abort, alloc: Global, form: Form, bytes: &[u8]) -> Reading {
    let mut text = String::new(alloc);
    let mut log = Log::new(alloc, form);
    let mut fault = read_lines(rt, &mut log, &mut text, bytes);
    if fault.is_none() {
        fault = log.end().err();
    }
    Reading { text, fault }
}

/// Reads the lines up to the first fault, and says each event.
fn read_lines(rt: &impl Abort, log: &mut Log, text: &mut String, bytes: &[u8]) -> Option<LogFault> {
    for line in bytes.split(|byte| *byte == b'\n') {
        if line.is_empty() {
            continue;
        }
        match log.read(line) {
            Ok(_) => push_last(rt, text, log),
            Err(LogReadFault::Log(found)) => return Some(found),
            Err(LogReadFault::Memory) => panic!(rt; "memory"),
        }
    }
    None
}

/// Says the event that the last line ended, if it ended one.
fn push_last(rt: &impl Abort, text: &mut String, log: &Log) {
    if let Some(logged) = log.event() {
        push_event(rt, text, &logged);
    }
}

fn push_event(rt: &impl Abort, text: &mut String, logged: &Logged<'_>) {
    let event = logged.event;
    write!(text, "{} {}", logged.line, event.host).expect(rt, "memory");
    push_clock(rt, text, event.clock);
    write!(text, ": {}\n", event.text).expect(rt, "memory");
}

fn push_clock(rt: &impl Abort, text: &mut String, clock: &[Member]) {
    for one in clock {
        write!(text, " {}={}", one.name, one.number).expect(rt, "memory");
    }
}

/// Reads a log, and compares the line and the kind of its fault.
pub fn assert_fault(
    rt: &impl Abort,
    alloc: Global,
    form: Form,
    bytes: &[u8],
    fault: Option<(u64, LogFaultKind)>,
) {
    let found = read_log(rt, alloc, form, bytes);
    let place = found.fault.as_ref().map(|fault| (fault.line, fault.kind));
    assert!(rt; place == fault, "{bytes:?}");
}
