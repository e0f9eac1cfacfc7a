ghost use Rattle.std.specs.Prelude.{◌≡◌, ◌≢◌, ◌<◌, ◌↔◌, ℕ, [], Some, length, slice_get, IsTrue, IfOk};
ghost use Rattle.wcp_model.specs.PlanFault.{IsCheckedPlan};
ghost use Rattle.wcp_model.specs.Tree.{parent_of};
ghost use Rattle.wcp_lane.specs.Ends.{PutEnd};
ghost use Rattle.wcp_tree.specs.Wiring.{AreBelowChildren, AreMemberSetsOf, IsSeatOf, IsMemberSetOf};

use crate::members::processes_below;
use std::alloc::{AllocError, Global};
use wcp_clock::Item;
use wcp_lane::{LaneFault, Members, Putter, Taker, lane};
use wcp_model::{Parent, Plan};
use wcp_relay::Bundle;

/// Opens the lane by which the root or a relay takes, and gives each of its children the end that puts
/// for it: the seats are those of all relays, by number. `Err` where memory runs out.
pub(crate) fn open_lane(
    alloc: Global,
    plan: &Plan,
    owner: Parent,
    seats: &mut Vec<Option<Putter<Bundle>>>,
) -> Result<Taker<Bundle>, AllocError>
    requires checked { IsCheckedPlan plan.now }
    requires all { length seats.old.items ≡ length plan.now.parents.items }
    ensures all { length seats.new.items ≡ length seats.old.items }
    ensures seated { IfOk result (λ taker. (relay : ℕ) → parent_of plan.now relay ≡ Some owner
        → (putter : PutEnd Bundle Item) × (slice_get seats.new.items relay ≡ Some (Some putter))
        × IsSeatOf plan.now relay taker.lane putter) }
    ensures others { (relay : ℕ) → parent_of plan.now relay ≢ Some owner
        → slice_get seats.new.items relay ≡ slice_get seats.old.items relay }
    ensures members { IfOk result (λ taker. AreBelowChildren plan.now owner taker.members) }
    ensures empty { IfOk result (λ taker. taker.taken ≡ []) }
    ensures room { IfOk result (λ taker. taker.room ≡ plan.now.cap) }
{
    let member_sets = member_sets(alloc, plan, owner)?;
    match lane(alloc, plan.cap, &member_sets) {
        Ok((putters, taker)) => {
            seat(plan, owner, putters, seats);
            Ok(taker)
        }
        Err(LaneFault::NoMemory) => Err(AllocError),
        Err(LaneFault::Cap) => unreachable!(),
        Err(LaneFault::MemberSets) => unreachable!(),
    }
}

/// The sets of the owner's lane.
fn member_sets(alloc: Global, plan: &Plan, owner: Parent) -> Result<Vec<Members>, AllocError>
    requires { IsCheckedPlan plan.now }
    ensures all { IfOk result (λ sets. length sets.items ≡ length plan.now.parents.items) }
    ensures sets { IfOk result (λ sets. AreMemberSetsOf plan.now owner sets.items) }
{
    let mut member_sets = Vec::with_capacity(alloc, plan.parents.len())?;
    for relay in 0..plan.parents.len() {
        member_sets.push(member_set(plan, owner, relay as u32))?;
    }
    Ok(member_sets)
}

/// The relay's set in the owner's lane.
fn member_set(plan: &Plan, owner: Parent, relay: u32) -> Members
    requires { IsCheckedPlan plan.now }
    ensures { IsMemberSetOf plan.now owner relay result }
{
    if is_child(plan, relay as usize, owner) {
        processes_below(plan, relay)
    } else {
        Members::none()
    }
}

/// Whether the owner is the relay's parent.
fn is_child(plan: &Plan, relay: usize, owner: Parent) -> bool
    ensures { IsTrue result ↔ (parent_of plan.now relay ≡ Some owner) }
{
    match plan.parents.get(relay) {
        Some(parent) => *parent == owner,
        None => false,
    }
}

/// Seats the owner's children, each with its end of the owner's lane.
fn seat(
    plan: &Plan,
    owner: Parent,
    mut putters: Vec<Putter<Bundle>>,
    seats: &mut Vec<Option<Putter<Bundle>>>,
)
    requires ends { length putters.items ≡ length plan.now.parents.items }
    requires all { length seats.old.items ≡ length plan.now.parents.items }
    ensures all { length seats.new.items ≡ length seats.old.items }
    ensures seated { (relay : ℕ) (putter : PutEnd Bundle Item) → parent_of plan.now relay ≡ Some owner
        → slice_get putters.items relay ≡ Some putter → slice_get seats.new.items relay ≡ Some (Some putter) }
    ensures others { (relay : ℕ) → parent_of plan.now relay ≢ Some owner
        → slice_get seats.new.items relay ≡ slice_get seats.old.items relay }
{
    while let Some(putter) = putters.pop() {
        let relay = putters.len();
        if is_child(plan, relay, owner) {
            seats[relay] = Some(putter);
        }
    }
}
