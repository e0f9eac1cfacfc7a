//! Calls that take memory, each asked again where it is refused: a test passes whichever of its allocations fails.
ghost use Rattle.std.specs.Prelude.{IfOk};
ghost use Rattle.wcp_model.specs.Watched.{AreSomeWatched};
ghost use Rattle.wcp_model.specs.WorkloadComputation.{CouldBeRead};

use super::texts::{RECEIVE_FIRST, SCHEDULE, TREE, WHOLE, assert_steps, assert_text};
use super::texts_made::{FOUND, found};
use std::alloc::Global;
use std::process::Abort;
use wcp_hold::Hold;
use wcp_model::{Outcome, Plan, Reply, Why, Workload, plain_plan};
use wcp_report::{reply_text, report_text};
use wcp_script::{
    ReadFault, Schedule, read_schedule, read_workload, ring_workload, single, workload_text,
};

/// The workload of a ring of two processes and one round, with a bad moment.
fn ring(rt: &impl Abort, alloc: Global) -> Workload {
    match ring_workload(alloc, 2, 1, true) {
        Ok(ring) => ring,
        Err(_) => ring_workload(alloc, 2, 1, true).expect(rt, "memory"),
    }
}

/// Its text.
const RING: &[u8] = b"wcp 1\nprocs 2\np 1 true\np 1 false\np 0 true\np 0 false\np 0 send 1\n\
p 1 recv 0\np 1 true\np 1 false\n";

/// The text of a workload.
fn printed(rt: &impl Abort, alloc: Global, workload: &Workload) -> Vec<u8> {
    match workload_text(alloc, workload) {
        Ok(text) => text,
        Err(_) => workload_text(alloc, workload).expect(rt, "memory"),
    }
}

/// Compares the text of a workload.
fn assert_printed(rt: &impl Abort, alloc: Global, workload: &Workload, text: &[u8]) {
    assert_text(rt, &printed(rt, alloc, workload), text);
}

#[test]
fn a_ring_is_made_and_printed(rt: HostRuntime) {
    assert_printed(&rt, rt.alloc(), &ring(&rt, rt.alloc()), RING);
}

/// Reads a workload. Where memory runs out, asking again reads it.
fn workload_of(alloc: Global, text: &[u8]) -> Result<Workload, ReadFault>
    ensures read { IfOk result (λ workload. CouldBeRead workload.plan.n workload.tasks.items) }
    ensures watched { IfOk result (λ workload. AreSomeWatched workload.plan.n workload.plan.watched) }
{
    match read_workload(alloc, text) {
        Err(ReadFault::NoMemory) => read_workload(alloc, text),
        read => read,
    }
}

/// Reads a workload, whose text is then the same.
fn assert_read(rt: &impl Abort, alloc: Global, text: &[u8]) {
    let workload = workload_of(alloc, text).expect(rt, "a workload");
    assert_printed(rt, alloc, &workload, text);
}

#[test]
fn workloads_are_read(rt: HostRuntime) {
    assert_read(&rt, rt.alloc(), RING);
    assert_read(&rt, rt.alloc(), TREE);
    assert_read(&rt, rt.alloc(), RECEIVE_FIRST);
}

/// The schedule of a text.
fn schedule(rt: &impl Abort, alloc: Global, text: &[u8]) -> Schedule {
    match read_schedule(alloc, text) {
        Ok(schedule) => schedule,
        Err(_) => read_schedule(alloc, text).expect(rt, "memory"),
    }
}

/// Compares the head of the text of a workload that has this plan and no tasks.
fn assert_head(rt: &impl Abort, alloc: Global, plan: Plan, head: &[u8]) {
    let tasks = Vec::new(alloc);
    assert_printed(rt, alloc, &Workload { plan, tasks }, head);
}

#[test]
fn a_schedule_is_read(rt: HostRuntime) {
    let read = schedule(&rt, rt.alloc(), SCHEDULE);
    assert_steps(&rt, &read.steps);
    assert_head(&rt, rt.alloc(), read.plan, WHOLE);
}

/// Process 0 is true before and after its send, and process 1 once it has received.
const TRUE_AGAIN_AFTER_SEND: &[u8] =
    b"wcp 1\nprocs 2\np 0 true\np 0 send 1\np 0 true\np 1 recv 0\np 1 true\n";

/// What is printed of it.
const TWO_TAKEN: &[u8] =
    b"found 1 1\nprocess 0 emitted 2 taken 2\nprocess 1 emitted 1 taken 1\ntotal emitted 3 taken 3\n";

/// The outcome of a text.
fn outcome_of(rt: &impl Abort, alloc: Global, text: &[u8]) -> Outcome {
    let workload = workload_of(alloc, text).expect(rt, "a workload");
    match single(alloc, &workload) {
        Ok(outcome) => outcome,
        Err(_) => single(alloc, &workload).expect(rt, "memory"),
    }
}

/// The lines of an outcome.
fn report_lines(rt: &impl Abort, alloc: Global, outcome: &Outcome) -> Vec<u8> {
    match report_text(alloc, outcome) {
        Ok(text) => text,
        Err(_) => report_text(alloc, outcome).expect(rt, "memory"),
    }
}

/// Compares the lines of an outcome.
fn assert_report(rt: &impl Abort, alloc: Global, outcome: &Outcome, lines: &[u8]) {
    assert_text(rt, &report_lines(rt, alloc, outcome), lines);
}

#[test]
fn a_workload_is_read_and_run(rt: HostRuntime) {
    let outcome = outcome_of(&rt, rt.alloc(), TRUE_AGAIN_AFTER_SEND);
    assert_report(&rt, rt.alloc(), &outcome, TWO_TAKEN);
}

#[test]
fn a_report_is_printed(rt: HostRuntime) {
    assert_report(&rt, rt.alloc(), &found(), FOUND);
}

/// The line of a reply.
fn reply_line(rt: &impl Abort, alloc: Global, reply: &Reply) -> Vec<u8> {
    match reply_text(alloc, reply) {
        Ok(text) => text,
        Err(_) => reply_text(alloc, reply).expect(rt, "memory"),
    }
}

#[test]
fn a_reply_is_printed(rt: HostRuntime) {
    let line = reply_line(&rt, rt.alloc(), &Reply::Refused(Why::Backlog));
    assert_text(&rt, &line, b"refused backlog\n");
}

/// A plan of two processes under one relay.
fn plan(rt: &impl Abort, alloc: Global) -> Plan {
    match plain_plan(alloc, 2, 8, 4) {
        Ok(plan) => plan,
        Err(_) => plain_plan(alloc, 2, 8, 4).expect(rt, "memory"),
    }
}

/// It passes its check, and no more is to say of it than how many processes there are.
#[test]
fn a_plan_is_made(rt: HostRuntime) {
    let plan = plan(&rt, rt.alloc());
    assert!(rt; plan.check().is_ok());
    assert_head(&rt, rt.alloc(), plan, b"wcp 1\nprocs 2\n");
}

/// A hold with room for 64 items.
fn hold(rt: &impl Abort, alloc: Global) -> Hold {
    match Hold::new(alloc, 64) {
        Ok(hold) => hold,
        Err(_) => Hold::new(alloc, 64).expect(rt, "memory"),
    }
}

#[test]
fn a_hold_is_made(rt: HostRuntime) {
    let hold = hold(&rt, rt.alloc());
    assert_eq!(rt; hold.len(), 0);
}
