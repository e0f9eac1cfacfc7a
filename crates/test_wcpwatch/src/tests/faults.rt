//! The line that says why there is no answer.

use super::runs::{same_bytes, same_number};
use std::alloc::AllocError;
use std::process::Abort;
use wcp_cli::{Fault, refuse};
use wcp_io::IoFault;
use wcp_run::RunFault;
use wcp_script::{FaultKind, ReadFault, ScriptFault};

const STUCK: ScriptFault = ScriptFault {
    line: 3,
    kind: FaultKind::Stuck,
};

/// Each fault, and its line.
static LINES: [(Fault, &str); 13] = [
    (Fault::Usage, "wcpwatch: usage\n"),
    (Fault::Io(IoFault::Read), "wcpwatch: read\n"),
    (Fault::Io(IoFault::TooLarge), "wcpwatch: toolarge\n"),
    (Fault::Script(STUCK), "wcpwatch: line 3: stuck\n"),
    (Fault::Io(IoFault::Memory), "wcpwatch: memory\n"),
    (Fault::Io(IoFault::Write), "wcpwatch: write\n"),
    (Fault::Io(IoFault::Closed), "wcpwatch: write\n"),
    (Fault::Run(RunFault::Memory), "wcpwatch: run memory\n"),
    (Fault::Run(RunFault::Spawn), "wcpwatch: run spawn\n"),
    (Fault::Run(RunFault::Held(0)), "wcpwatch: run held 0\n"),
    (Fault::Run(RunFault::Lost(15)), "wcpwatch: run lost 15\n"),
    (Fault::Run(RunFault::Cut), "wcpwatch: run cut\n"),
    (
        Fault::Run(RunFault::Unfinished),
        "wcpwatch: run unfinished\n",
    ),
];

/// The program refuses with this fault by this line.
fn says<R: AllocGlobal + Abort>(rt: &R, fault: Fault, line: &str) {
    let mut errors = Vec::new(rt.alloc());
    let status = refuse(&mut errors, fault);
    same_bytes(rt, &errors, line.as_bytes(), line, 0);
    same_number(rt, usize::from(status), 2, line, 0);
}

#[test]
fn each_fault_has_its_line(rt: HostRuntime) {
    for (fault, line) in LINES.iter() {
        says(&rt, *fault, line);
    }
}

/// Compares two faults.
fn same_fault(rt: &impl Abort, found: Fault, expected: Fault) {
    assert!(rt; found == expected);
}

#[test]
fn each_cause_is_its_fault(rt: HostRuntime) {
    same_fault(&rt, Fault::from(AllocError), Fault::Io(IoFault::Memory));
    same_fault(
        &rt,
        Fault::from(ReadFault::NoMemory),
        Fault::Io(IoFault::Memory),
    );
    same_fault(
        &rt,
        Fault::from(ReadFault::Script(STUCK)),
        Fault::Script(STUCK),
    );
    same_fault(
        &rt,
        Fault::from(RunFault::Lost(15)),
        Fault::Run(RunFault::Lost(15)),
    );
}
