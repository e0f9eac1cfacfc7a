use std::process::Abort;
use wcp_clock::Clock;

/// The clock of one of two processes at its first event.
fn first_event(rt: &impl Abort, p: u32) -> Clock {
    let mut clock = Clock::new(2);
    assert!(rt; p < clock.len());
    assert!(rt; clock.tick(p, 1));
    clock
}

/// The clock of a process that receives this one.
fn received(rt: &impl Abort, clock: &Clock, sent: &Clock) -> Clock {
    assert_eq!(rt; clock.len(), sent.len());
    clock.merge(sent)
}

/// Compares the components of a clock: those of processes 0 and 1, and none of process 15.
fn assert_components(rt: &impl Abort, clock: &Clock, first: u32, second: u32) {
    assert_eq!(rt;
        (clock.get(0), clock.get(1), clock.get(15)),
        (first, second, 0)
    );
}

#[test]
fn a_message_carries_the_senders_clock(rt: HostRuntime) {
    let sent = first_event(&rt, 0);
    let received = received(&rt, &first_event(&rt, 1), &sent);
    assert_components(&rt, &sent, 1, 0);
    assert_components(&rt, &received, 1, 1);
    assert!(rt; Clock::new(2).precedes(0, &received));
    assert!(rt; !received.precedes(0, &sent));
}
