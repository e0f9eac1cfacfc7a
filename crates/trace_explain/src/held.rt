//! What is said of the members of the earliest moment.
ghost use Rattle.std.specs.Prelude.{◌<◌, length, IfOk};
ghost use Rattle.trace_explain.specs.Left.{AreHeld, AreKnown, HaveFirsts, HoldsBack, HoldsOn, IsHeld, IsUntil};

use crate::left::StatesLeft;
use crate::past::PastEvent;
use crate::reason::HeldState;
use std::alloc::{AllocError, Global};

/// What is said of the first states that are left, in the order of the hosts.
pub(crate) fn held_states(
    alloc: Global,
    left: &[StatesLeft<'_>],
) -> Result<Vec<HeldState>, AllocError>
    requires { HaveFirsts left.now }
    ensures { IfOk result (λ held. AreHeld left.now held.items) }
{
    let mut held = Vec::with_capacity(alloc, left.len())?;
    for place in 0..left.len() {
        held.push(held_state(alloc, left, place)?)?;
    }
    Ok(held)
}

/// What is said of the first state of the host at this place.
fn held_state(alloc: Global, left: &[StatesLeft<'_>], place: usize) -> Result<HeldState, AllocError>
    requires place { place < length left.now }
    requires firsts { HaveFirsts left.now }
    ensures { IfOk result (IsHeld left.now place) }
{
    let one = &left[place];
    let host = one.host;
    let events = host.events.as_slice();
    let member = &events[one.front];
    let first = &events[begun_at(events, one.front)];
    Ok(HeldState {
        line: member.line,
        begun: first.line,
        until: until_line(events, one.front),
        knows: known_lines(alloc, left, member)?,
    })
}

/// The place from which on the condition holds up to this one.
fn begun_at(events: &[PastEvent], at: usize) -> usize
    requires { at < length events.now }
    ensures { HoldsBack events.now at result }
{
    for from in (0..at).rev() {
        let event = &events[from];
        if !event.holds {
            return from + 1;
        }
    }
    0
}

/// The line of the first event behind this place at which the condition doesn't hold.
fn until_line(events: &[PastEvent], at: usize) -> Option<u64>
    requires { at < length events.now }
    ensures { IsUntil events.now at result }
{
    match until_at(events, at) {
        Some(end) => {
            let event = &events[end];
            Some(event.line)
        }
        None => None,
    }
}

/// The first place behind this one at which the condition doesn't hold.
fn until_at(events: &[PastEvent], at: usize) -> Option<usize>
    requires { at < length events.now }
    ensures { HoldsOn events.now at result }
{
    for k in at + 1..events.len() {
        let event = &events[k];
        if !event.holds {
            return Some(k);
        }
    }
    None
}

/// The last line of each watched host that this event knows.
fn known_lines(
    alloc: Global,
    left: &[StatesLeft<'_>],
    event: &PastEvent,
) -> Result<Vec<Option<u64>>, AllocError>
    ensures { IfOk result (λ knows. AreKnown left.now event.now.numbers knows.items) }
{
    let mut knows = Vec::with_capacity(alloc, left.len())?;
    for place in 0..left.len() {
        knows.push(left[place].known_line(place, event.number(place)))?;
    }
    Ok(knows)
}
