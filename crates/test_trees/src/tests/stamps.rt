//! Stamps of live probes, which are for one probe of the watches of their number.
use super::comparing::assert_same;
use super::watches::{Pair, pair_of};
use std::alloc::Global;
use std::process::Abort;
use wcp_model::plain_plan;
use wcp_probe::{Refusal, Stamped};
use wcp_tree::{LiveProbe, watch};

/// The probes of two processes of a watch of this number.
fn two_probes(rt: &impl Abort, alloc: Global, number: u64) -> Pair {
    let plan = plain_plan(alloc, 2, 8, 4).expect(rt, "memory");
    let opened = watch(alloc, &plan, number).expect(rt, "memory");
    pair_of(rt, opened.probes)
}

/// A message to a process.
fn message(rt: &impl Abort, probe: &mut LiveProbe, to: u32) -> Stamped<u32> {
    probe.stamp(to, 3).ok().expect(rt, "a message")
}

/// The message, once this probe has refused it so.
fn refused(
    rt: &impl Abort,
    probe: &mut LiveProbe,
    message: Stamped<u32>,
    expected: Refusal,
) -> Stamped<u32> {
    let (refusal, message) = probe.receive(message).err().expect(rt, "a refusal");
    assert_same(rt, refusal, expected);
    message
}

/// The probe takes the message.
fn takes(rt: &impl Abort, probe: &mut LiveProbe, message: Stamped<u32>) {
    assert_same(rt, probe.receive(message).ok(), Some(3));
}

/// A message that was sent after another came is ahead of a watch of the same number to which that one didn't come. A
/// watch of another number is a stranger to it, and its sender isn't its receiver. So one probe takes it.
fn send_past_others(rt: &impl Abort, seven: &mut Pair, again: &mut Pair, eight: &mut Pair) {
    let sent = message(rt, &mut seven.first, 1);
    let sent = refused(rt, &mut again.second, sent, Refusal::Ahead);
    let sent = refused(rt, &mut eight.second, sent, Refusal::Stranger);
    let sent = refused(rt, &mut seven.first, sent, Refusal::NotMine);
    takes(rt, &mut seven.second, sent);
}

#[test]
fn a_stamp_is_for_one_probe_of_the_watches_of_its_number(rt: HostRuntime) {
    let mut seven = two_probes(&rt, rt.alloc(), 7);
    let mut again = two_probes(&rt, rt.alloc(), 7);
    let mut eight = two_probes(&rt, rt.alloc(), 8);
    let first = message(&rt, &mut seven.second, 0);
    takes(&rt, &mut seven.first, first);
    send_past_others(&rt, &mut seven, &mut again, &mut eight);
}
