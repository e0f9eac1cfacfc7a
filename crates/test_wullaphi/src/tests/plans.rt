//! What is printed of a plan that is refused.

use std::alloc::Global;
use std::process::Abort;
use wullaphi::{OpenWatch, Parent, Plan, Watched, plain_plan};

/// What is printed of this plan is this line.
fn assert_line(rt: &(impl Abort + AllocGlobal), plan: &Plan, line: &str) {
    let refused = OpenWatch::open(rt.alloc(), plan, 1)
        .err()
        .expect(rt, "a fault");
    let told = format!(in rt.alloc(); "{refused}").expect(rt, "memory");
    assert_eq!(rt; told.as_str(), line);
}

/// A plan of one relay.
fn plain(rt: &impl Abort, alloc: Global, n: u32, cap: u32, hold: u32) -> Plan {
    plain_plan(alloc, n, cap, hold).expect(rt, "memory")
}

/// A plan of two processes with these relays, of which these serve the two.
fn tree(rt: &impl Abort, alloc: Global, parents: &[Parent], attach: &[Option<u32>]) -> Plan {
    let parents = Vec::from_slice(alloc, parents).expect(rt, "memory");
    let attach = Vec::from_slice(alloc, attach).expect(rt, "memory");
    Plan::new(2, 8, 4, parents, attach, Watched::all(2))
}

/// A plan of two processes that watches these.
fn watching(rt: &impl Abort, alloc: Global, watched: Watched) -> Plan {
    let mut plan = plain(rt, alloc, 2, 8, 4);
    plan.watched = watched;
    plan
}

#[test]
fn a_number_is_named_with_its_limits(rt: HostRuntime) {
    let alloc = rt.alloc();
    let line = "plan: n 17 is not in 1 to 16";
    assert_line(&rt, &plain(&rt, alloc, 17, 8, 4), line);
    let line = "plan: cap 0 is not in 1 to 1,024";
    assert_line(&rt, &plain(&rt, alloc, 2, 0, 4), line);
    let line = "plan: hold 65 is not in 1 to 64";
    assert_line(&rt, &plain(&rt, alloc, 2, 8, 65), line);
}

#[test]
fn the_relays_are_counted(rt: HostRuntime) {
    let (alloc, served) = (rt.alloc(), &[Some(0), Some(0)]);
    let line = "plan: 0 relays are not in 1 to 15";
    assert_line(&rt, &tree(&rt, alloc, &[], served), line);
    let line = "plan: 16 relays are not in 1 to 15";
    assert_line(&rt, &tree(&rt, alloc, &[Parent::Root; 16], served), line);
}

#[test]
fn a_relay_is_named(rt: HostRuntime) {
    let (alloc, root, under) = (rt.alloc(), Parent::Root, Parent::Relay);
    let plan = tree(&rt, alloc, &[root, under(2), under(0)], &[Some(1), Some(2)]);
    let line = "plan: the parent of relay 1 is neither a lower relay nor the root";
    assert_line(&rt, &plan, line);
    let plan = tree(&rt, alloc, &[root, under(0)], &[Some(0), Some(1)]);
    assert_line(&rt, &plan, "plan: relay 0 serves a process and a relay");
    let plan = tree(&rt, alloc, &[root, root], &[Some(0), Some(0)]);
    assert_line(&rt, &plan, "plan: relay 1 serves nothing");
}

#[test]
fn a_path_is_too_long(rt: HostRuntime) {
    let path = [
        Parent::Root,
        Parent::Relay(0),
        Parent::Relay(1),
        Parent::Relay(2),
        Parent::Relay(3),
        Parent::Relay(4),
        Parent::Relay(5),
        Parent::Relay(6),
        Parent::Relay(7),
    ];
    let plan = tree(&rt, rt.alloc(), &path, &[Some(8), Some(8)]);
    assert_line(
        &rt,
        &plan,
        "plan: a path to the root has more than 8 relays",
    );
}

#[test]
fn a_process_is_named(rt: HostRuntime) {
    let (alloc, root) = (rt.alloc(), &[Parent::Root]);
    let plan = tree(&rt, alloc, root, &[Some(0)]);
    assert_line(&rt, &plan, "plan: attach has 1 entries, and n is 2");
    let plan = tree(&rt, alloc, root, &[Some(0), None]);
    assert_line(&rt, &plan, "plan: process 1 has none of the 1 relays");
    let plan = tree(&rt, alloc, root, &[Some(0), Some(1)]);
    assert_line(&rt, &plan, "plan: process 1 has none of the 1 relays");
}

#[test]
fn watched_processes_are_below_n(rt: HostRuntime) {
    let alloc = rt.alloc();
    let plan = watching(&rt, alloc, Watched::pair(0, 5));
    assert_line(&rt, &plan, "plan: process 5 is watched, and n is 2");
    let none = "plan: no process is watched";
    assert_line(&rt, &watching(&rt, alloc, Watched::none()), none);
    assert_line(&rt, &watching(&rt, alloc, Watched::pair(0, 16)), none);
    assert_line(&rt, &watching(&rt, alloc, Watched::pair(0, 0)), none);
    assert_line(
        &rt,
        &watching(&rt, alloc, Watched::these(&[0, 1, 16])),
        none,
    );
}
