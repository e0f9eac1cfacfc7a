ghost use Rattle.std.specs.Prelude.{◌≡◌, ◌↔◌, ℕ, IsTrue, true};
ghost use Rattle.wcp_model.specs.PlanFault.{IsCheckedPlan};
ghost use Rattle.wcp_relay.specs.Members.{AreBelow, IsBelow, IsMetFrom};

use wcp_lane::Members;
use wcp_model::{Parent, Plan};

/// The processes below a relay.
pub(crate) fn processes_below(plan: &Plan, relay: u32) -> Members
    requires { IsCheckedPlan plan.now }
    ensures { AreBelow plan.now relay result }
{
    let mut members = Members::none();
    for p in 0..plan.n {
        if is_below(plan, relay, p) {
            members = members.with(p);
        }
    }
    members
}

/// Whether process `p` is below the relay.
fn is_below(plan: &Plan, relay: u32, p: u32) -> bool
    requires { IsCheckedPlan plan.now }
    ensures { IsTrue result ↔ IsBelow plan.now relay p }
{
    match plan.attach.get(p as usize) {
        Some(Some(leaf)) => is_met(plan, relay, *leaf),
        _ => false,
    }
}

/// Whether the climb from relay `from` to the root meets the relay.
fn is_met(plan: &Plan, relay: u32, from: u32) -> bool
    requires { IsCheckedPlan plan.now }
    ensures { IsTrue result ↔ IsMetFrom plan.now relay from }
{
    if from <= relay {
        return from == relay;
    }
    match plan.parent_of(from) {
        Some(Parent::Relay(parent)) => is_met(plan, relay, parent),
        _ => false,
    }
}
