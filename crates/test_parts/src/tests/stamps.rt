ghost use Rattle.std.specs.Prelude.{◌<◌, ◌≤◌};
ghost use Rattle.wcp_clock.specs.Limits.{most_events};

use std::process::Abort;
use wcp_clock::{CLOCK_LIMIT, Clock};
use wcp_model::{Flag, ProbeSetup};
use wcp_probe::{ProbeCore, Refusal, Stamped};

/// The probe of one of two processes, whose clock ends at this limit.
fn core(watch: u64, id: u32, limit: u32) -> ProbeCore
    requires id { id < 2 }
    requires limit { limit ≤ most_events }
{
    let setup = ProbeSetup {
        processes: 2,
        process: id,
        watched: true,
        flag: Flag::Event,
    };
    ProbeCore::new(watch, setup, limit)
}

/// Compares the components of a clock: those of both processes, and none of a third.
fn assert_components(rt: &impl Abort, clock: &Clock, components: [u32; 3]) {
    assert_eq!(rt; [clock.get(0), clock.get(1), clock.get(2)], components);
}

/// A stamp that must be handed out.
fn stamped(rt: &impl Abort, probe: &mut ProbeCore, to: u32, value: u32) -> Stamped<u32> {
    probe.stamp(to, value).ok().expect(rt, "a stamp")
}

/// A message that must be refused for this reason, which comes back.
fn refused(
    rt: &impl Abort,
    probe: &mut ProbeCore,
    message: Stamped<u32>,
    reason: Refusal,
) -> Stamped<u32> {
    let (why, message) = probe.receive(message).err().expect(rt, "a refusal");
    assert_eq!(rt; why, reason);
    message
}

/// A message that must be received with this value.
fn assert_received(rt: &impl Abort, probe: &mut ProbeCore, message: Stamped<u32>, value: u32) {
    let received = probe.receive(message).ok().expect(rt, "a receive");
    assert_eq!(rt; received, value);
}

/// A stamp that must be refused for this reason: the value comes back.
fn assert_unstamped(rt: &impl Abort, probe: &mut ProbeCore, to: u32, reason: Refusal) {
    let back = probe.stamp(to, 5).err().expect(rt, "a refusal");
    assert_eq!(rt; back, (reason, 5), "to {to}");
}

#[test]
fn a_clock_ends_at_its_limit(rt: HostRuntime) {
    let mut probe = core(7, 0, 2);
    for _ in 0..2 {
        let message = stamped(&rt, &mut probe, 1, 5);
        assert_eq!(rt; (message.from(), message.to()), (0, 1));
    }
    assert_unstamped(&rt, &mut probe, 1, Refusal::ClockEnd);
    assert_unstamped(&rt, &mut probe, 0, Refusal::NoSuch);
    assert_unstamped(&rt, &mut probe, 2, Refusal::NoSuch);
    assert_components(&rt, &probe.clock(), [2, 0, 0]);
}

/// Only the receiver takes a message, unless it is behind: all others refuse it, and each gets it back.
fn send_past_others(rt: &impl Abort, a: &mut ProbeCore, b: &mut ProbeCore, value: u32) {
    let mut behind = core(7, 1, CLOCK_LIMIT);
    let mut stranger = core(8, 1, CLOCK_LIMIT);
    let message = stamped(rt, a, 1, value);
    let message = refused(rt, &mut behind, message, Refusal::Ahead);
    let message = refused(rt, &mut stranger, message, Refusal::Stranger);
    let message = refused(rt, a, message, Refusal::NotMine);
    assert_received(rt, b, message, value);
}

#[test]
fn a_stamp_is_for_one_receiver_that_is_not_behind(rt: HostRuntime) {
    let (mut a, mut b) = (core(7, 0, CLOCK_LIMIT), core(7, 1, CLOCK_LIMIT));
    let first = stamped(&rt, &mut b, 0, 1);
    assert_received(&rt, &mut a, first, 1);
    send_past_others(&rt, &mut a, &mut b, 2);
    assert_components(&rt, &b.clock(), [2, 2, 0]);
}
