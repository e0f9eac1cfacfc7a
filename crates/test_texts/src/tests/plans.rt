use Parent::{Relay, Root};
use PlanFault::{Cap, Childless, Depth, Hold, Mixed, Procs, Unattached};
use std::alloc::Global;
use std::process::Abort;
use wcp_model::{Parent, Plan, PlanFault, Watched};

/// The numbers of a plan, its parents and attachments, and its first fault.
type Row<'a> = (
    (u32, u32, u32),
    &'a [Parent],
    &'a [Option<u32>],
    Result<(), PlanFault>,
);

/// Nine relays in a chain, one more than a plan may have.
const CHAIN: [Parent; 9] = [
    Root,
    Relay(0),
    Relay(1),
    Relay(2),
    Relay(3),
    Relay(4),
    Relay(5),
    Relay(6),
    Relay(7),
];

const ROWS: &[Row<'static>] = &[
    ((1, 0, 4), &[Root], &[Some(0)], Err(Cap)),
    ((1, 8, 65), &[Root], &[Some(0)], Err(Hold)),
    ((17, 8, 4), &[Root], &[Some(0); 17], Err(Procs)),
    ((1, 8, 4), &[], &[Some(0)], Err(PlanFault::Parent)),
    ((1, 8, 4), &[Root, Root], &[Some(0)], Err(Childless)),
    ((2, 8, 4), &[Root], &[Some(0)], Err(Unattached)),
    (
        (2, 8, 4),
        &[Root, Relay(0)],
        &[Some(0), Some(1)],
        Err(Mixed),
    ),
];

/// The plan of a row, all of whose processes are watched.
fn plan_of(rt: &impl Abort, alloc: Global, row: &Row) -> Plan {
    let (n, cap, hold) = row.0;
    let parents = Vec::from_slice(alloc, row.1).expect(rt, "memory");
    let attach = Vec::from_slice(alloc, row.2).expect(rt, "memory");
    Plan::new(n, cap, hold, parents, attach, Watched::all(n.min(16)))
}

/// Makes the plan of each row, and compares its first fault.
fn assert_first_faults(rt: &impl Abort, alloc: Global, rows: &[Row]) {
    for row in rows {
        let found = plan_of(rt, alloc, row).check();
        assert_eq!(rt; found, row.3);
    }
}

#[test]
fn the_first_fault_of_a_plan(rt: HostRuntime) {
    assert_first_faults(&rt, rt.alloc(), ROWS);
    let long = (
        (1, 8, 4),
        CHAIN.as_slice(),
        [Some(8)].as_slice(),
        Err(Depth),
    );
    let longest = ((1, 8, 4), &CHAIN[..8], [Some(7)].as_slice(), Ok(()));
    assert_first_faults(&rt, rt.alloc(), &[long, longest]);
}
