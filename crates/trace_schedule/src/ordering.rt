//! The order in which the events that led to some of them can have happened.
ghost use Rattle.std.specs.Prelude.{◌≡◌, map, IfErr, IfOk};
ghost use Rattle.trace_detect.specs.Told.{seen_member};
ghost use Rattle.trace_schedule.specs.InOrder.{Refuses};
ghost use Rattle.trace_schedule.specs.Schedule.{IsByCount, IsSchedule};

use crate::ordered_fault::OrderedFault;
use crate::past::{past_of, told_among};
use crate::reached::first_counted;
use crate::recorded_event::RecordedEvent;
use std::alloc::{AllocError, Global};
use trace_detect::MomentMember;

/// The events that happened before these members, and the members, in an order that fits: none stands behind one that it
/// happened before.
pub(crate) fn schedule<'e>(
    alloc: Global,
    events: &'e [RecordedEvent],
    members: &[MomentMember],
) -> Result<Vec<&'e RecordedEvent>, OrderedFault>
    ensures fits { IfOk result (λ order. IsSchedule (map seen_member members.now) events.now
        (map (λ one. one.now) order.items)) }
    ensures refused { IfErr result (Refuses (map seen_member members.now) events.now) }
{
    let ends = told_among(alloc, events, members)?;
    let order = by_count(past_of(alloc, events, &ends)?)?;
    match first_counted(alloc, &order)? {
        Some(line) => Err(OrderedFault::Contradicts { line }),
        None => Ok(order),
    }
}

/// These events by how many events their clocks count; where these are as many, as they stand here.
fn by_count<'e>(events: Vec<&'e RecordedEvent>) -> Result<Vec<&'e RecordedEvent>, AllocError>
    ensures { IfOk result (λ order. IsByCount (map (λ one. one.now) events.entry.items)
        (map (λ one. one.now) order.items)) }
{
    let mut order = events;
    order.sort_by_cached_key(|event| event.counted())?;
    Ok(order)
}
