//! Elimination of the states that are in no moment.
ghost use Rattle.std.specs.Prelude.{◌≡◌, ◌≢◌, ◌<◌, ℕ, List, length, map, true, false, IfSome, IfNone, IfOk, OnOk};
ghost use Rattle.trace_moment.specs.Moment.{HostWatch, Taken};
ghost use Rattle.trace_explain.specs.Left.{is_over, NoneIsOver, IsOverAt, AreLeft, HaveFirsts, LacksFirst};
ghost use Rattle.trace_explain.specs.History.{AreInOrder, KeepPast, watched_in};

use crate::left::{StatesLeft, is_over, reason};
use crate::past::PastHost;
use std::alloc::{AllocError, Global};

/// All states of these hosts.
pub(crate) fn all_states(
    alloc: Global,
    hosts: &[PastHost],
) -> Result<Vec<StatesLeft<'_>>, AllocError>
    ensures { (taken : List Taken) → KeepPast taken hosts.now → IfOk result (λ left.
        AreLeft (watched_in hosts.now) taken left.items) }
{
    let mut left = Vec::with_capacity(alloc, hosts.len())?;
    for host in hosts {
        left.push(StatesLeft::all(alloc, host))?;
    }
    Ok(left)
}

/// Drops states that are over at the first state of another host until no first one is, with the reason of each.
pub(crate) fn eliminate(left: &mut [StatesLeft<'_>]) -> Result<(), AllocError>
    ensures left { (watched : List HostWatch) (taken : List Taken) → AreInOrder taken → AreLeft watched taken left.old →
        OnOk result (AreLeft watched taken left.new) }
    ensures settled { OnOk result (NoneIsOver left.new) }
{
    while let Some(over) = first_over(left) {
        let reason = reason(left, over.place, over.at);
        left[over.place].drop_first(reason)?;
    }
    Ok(())
}

/// The places of a host whose first state is over, and of the one at whose first state it is.
#[derive(Drop)]
struct OverAt {
    place: usize,
    at: usize,
}

/// The first host whose first state is over at that of another.
fn first_over(left: &[StatesLeft<'_>]) -> Option<OverAt>
    ensures none { IfNone result (NoneIsOver left.now) }
    ensures some { IfSome result (λ over. IsOverAt left.now over.place over.at) }
{
    for place in 0..left.len() {
        if let Some(at) = over_at(left, place) {
            return Some(OverAt { place, at });
        }
    }
    None
}

/// The first host at whose first state that of this one is over.
fn over_at(left: &[StatesLeft<'_>], place: usize) -> Option<usize>
    requires { place < length left.now }
    ensures none { IfNone result ((at : ℕ) → at < length left.now → at ≢ place →
        is_over left.now place at ≡ false) }
    ensures some { IfSome result (λ at. IsOverAt left.now place at) }
{
    for at in 0..left.len() {
        if at != place && is_over(left, place, at) {
            return Some(at);
        }
    }
    None
}

/// The first host of which no state is left.
pub(crate) fn first_without(left: &[StatesLeft<'_>]) -> Option<usize>
    ensures none { IfNone result (HaveFirsts left.now) }
    ensures some { IfSome result (LacksFirst left.now) }
{
    for place in 0..left.len() {
        if !left[place].has_first() {
            return Some(place);
        }
    }
    None
}
