use super::texts::{TREE, assert_text};
use std::alloc::{AllocError, Global};
use std::process::Abort;
use wcp_clock::{Clock, Item, Note};
use wcp_model::{
    Action, Flag, GlobalCut, Outcome, Parent, Plan, Reply, Report, Tallies, Tally, Task, Watched,
    Why, Workload,
};
use wcp_report::{push_reply, push_report, reply_text};
use wcp_script::{FaultKind, ReadFault, ScriptFault, workload_text};

/// A leaf for each of three processes, of which two are watched, and a relay above the leaves; sends alone reset the
/// flags.
fn three_leaves(rt: &impl Abort, alloc: Global) -> Plan {
    let leaf = Parent::Relay(0);
    let parents = Vec::from_slice(alloc, &[Parent::Root, leaf, leaf, leaf]).expect(rt, "memory");
    let attach = Vec::from_slice(alloc, &[Some(1), Some(2), Some(3)]).expect(rt, "memory");
    let mut plan = Plan::new(3, 1024, 1, parents, attach, Watched::none().with(0).with(2));
    plan.flag = Flag::Send;
    plan
}

/// The tasks of the workload under this tree.
const TASKS: &[Task] = &[
    Task {
        p: 0,
        action: Action::Observe(true),
    },
    Task {
        p: 0,
        action: Action::Send(2),
    },
    Task {
        p: 2,
        action: Action::Recv(0),
    },
    Task {
        p: 1,
        action: Action::Observe(false),
    },
];

#[test]
fn a_workload_with_a_tree_of_relays(rt: HostRuntime) {
    let plan = three_leaves(&rt, rt.alloc());
    let tasks = Vec::from_slice(rt.alloc(), TASKS).expect(&rt, "memory");
    let text = workload_text(rt.alloc(), &Workload { plan, tasks }).expect(&rt, "memory");
    assert_text(&rt, &text, TREE);
}

/// Compares the line of a reply.
fn assert_line(rt: &impl Abort, alloc: Global, reply: &Reply, line: &[u8]) {
    let text = reply_text(alloc, reply).expect(rt, "memory");
    assert_text(rt, &text, line);
}

/// Why a step was refused, with the line of the reply.
const REFUSED: &[(Why, &[u8])] = &[
    (Why::NoSuch, b"refused nosuch\n"),
    (Why::Closed, b"refused closed\n"),
    (Why::Backlog, b"refused backlog\n"),
    (Why::Gone, b"refused gone\n"),
    (Why::ClockEnd, b"refused clockend\n"),
    (Why::Empty, b"refused empty\n"),
    (Why::Full, b"refused full\n"),
];

#[test]
fn lines_of_replies(rt: HostRuntime) {
    for (why, line) in REFUSED {
        assert_line(&rt, rt.alloc(), &Reply::Refused(*why), line);
    }
    assert_line(&rt, rt.alloc(), &Reply::Done, b"done\n");
}

/// The clock of process 1 of three after an event of process 2 and then one of its own.
fn clock_of_three(rt: &impl Abort) -> Clock {
    let mut clock = Clock::new(3);
    assert!(rt; clock.tick(2, 1) && clock.tick(1, 1));
    clock
}

/// Compares the line of an item that was taken.
fn assert_taken(rt: &impl Abort, alloc: Global, from: u32, note: Note, line: &[u8]) {
    assert_line(rt, alloc, &Reply::Took(Item { from, note }), line);
}

#[test]
fn lines_of_items_that_were_taken(rt: HostRuntime) {
    let clock = clock_of_three(&rt);
    let snapshot = Note::Snap { number: 4, clock };
    assert_taken(&rt, rt.alloc(), 1, snapshot, b"took 1 snap 4 0 1 1\n");
    let close = Note::Close { count: 2 };
    assert_taken(&rt, rt.alloc(), 0, close, b"took 0 close 2\n");
    let lost = Note::Lost { count: 1 };
    assert_taken(&rt, rt.alloc(), 0, lost, b"took 0 lost 1\n");
}

/// The outcome of two processes of which the first emitted twice, and the cut at their second
/// intervals was found.
pub fn found() -> Outcome {
    let twice = Tally {
        emitted: 2,
        taken: 2,
    };
    let once = Tally {
        emitted: 1,
        taken: 0,
    };
    Outcome {
        report: Report::Found(GlobalCut::new(&[Some(1), Some(1)])),
        tallies: Tallies::new(&[twice, once]),
    }
}

/// Its text.
pub const FOUND: &[u8] =
    b"found 1 1\nprocess 0 emitted 2 taken 2\nprocess 1 emitted 1 taken 0\ntotal emitted 3 taken 2\n";

/// The same behind two replies.
const FOUND_BEHIND_REPLIES: &[u8] =
    b"done\nrefused full\nfound 1 1\nprocess 0 emitted 2 taken 2\nprocess 1 emitted 1 taken 0\n\
total emitted 3 taken 2\n";

/// Adds the lines of two replies and a report.
fn push_lines(text: &mut String) -> Result<(), AllocError> {
    push_reply(text, &Reply::Done)?;
    push_reply(text, &Reply::Refused(Why::Full))?;
    push_report(text, &found())
}

#[test]
fn replies_and_a_report_after_them(rt: HostRuntime) {
    let mut text = String::new(rt.alloc());
    push_lines(&mut text).expect(&rt, "memory");
    assert_text(&rt, text.as_bytes(), FOUND_BEHIND_REPLIES);
}

/// Compares what is displayed of why a text wasn't read.
fn assert_displayed(rt: &impl Abort, alloc: Global, fault: ReadFault, text: &[u8]) {
    let displayed = fault.to_string(alloc).expect(rt, "memory");
    assert_text(rt, displayed.as_bytes(), text);
}

#[test]
fn why_a_text_was_not_read(rt: HostRuntime) {
    let fault = ScriptFault {
        line: 7,
        kind: FaultKind::Header,
    };
    assert_displayed(&rt, rt.alloc(), ReadFault::Script(fault), b"line 7: header");
    assert_displayed(&rt, rt.alloc(), ReadFault::NoMemory, b"memory");
}
