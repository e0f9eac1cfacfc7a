//! The plans of the watches. Where memory runs out, asking again makes them.
ghost use Rattle.std.specs.Prelude.{◌≤◌};
ghost use Rattle.wcp_clock.specs.Limits.{most_processes};
ghost use Rattle.wcp_model.specs.PlanFault.{IsCheckedPlan};

use std::alloc::Global;
use std::process::Abort;
use wcp_model::{Parent, Plan, Watched};

/// These items in a vector.
fn listed<T: Copy + Drop>(rt: &impl Abort, alloc: Global, items: &[T]) -> Vec<T> {
    match items.to_vec(alloc) {
        Ok(items) => items,
        Err(_) => items.to_vec(alloc).expect(rt, "memory"),
    }
}

/// So many processes, each watched, in this tree, with room for `cap` notes in each link.
pub fn plan_of(
    rt: &impl Abort,
    alloc: Global,
    n: u32,
    cap: u32,
    parents: &[Parent],
    attach: &[Option<u32>],
) -> Plan
    requires { n ≤ most_processes }
    ensures { IsCheckedPlan result }
{
    let parents = listed(rt, alloc, parents);
    let attach = listed(rt, alloc, attach);
    let plan = Plan::new(n, cap, 4, parents, attach, Watched::all(n));
    assert!(rt; plan.check().is_ok());
    plan
}

/// Two processes under a relay that is under another.
pub fn two_hops(rt: &impl Abort, alloc: Global) -> Plan
    ensures { IsCheckedPlan result }
{
    let parents = [Parent::Root, Parent::Relay(0)];
    plan_of(rt, alloc, 2, 8, &parents, &[Some(1), Some(1)])
}
