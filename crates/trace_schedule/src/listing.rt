//! The answer that lists the schedule of a moment in its place.
ghost use Rattle.std.specs.Prelude.{◌≡◌, map, IfErr, IfOk};
ghost use Rattle.trace_detect.specs.Told.{seen_member};
ghost use Rattle.trace_schedule.specs.InOrder.{IsListed, Lists, Refuses, RefusesOf, told_event};

use crate::ordered_fault::OrderedFault;
use crate::ordering::schedule;
use crate::recorded_event::RecordedEvent;
use crate::recording::RecordedAnswer;
use std::alloc::{AllocError, Global};
use trace_detect::{MomentMember, ReasonedAnswer, TraceAnswer};

/// The answer that lists, in place of the moment's members, the events that happened before them, and the members, in an
/// order that fits. Other answers stay as they are.
pub fn in_order(alloc: Global, recorded: RecordedAnswer) -> Result<ReasonedAnswer, OrderedFault>
    ensures listed { IfOk result (Lists recorded.events.items recorded.answer) }
    ensures refused { IfErr result (RefusesOf recorded.events.items recorded.answer.answer) }
{
    let RecordedAnswer { answer, events } = recorded;
    let ReasonedAnswer { answer, why } = answer;
    let answer = match answer {
        TraceAnswer::Found(members) => TraceAnswer::Found(scheduled(alloc, &events, &members)?),
        other => other,
    };
    Ok(ReasonedAnswer { answer, why })
}

/// The members of a moment, and the events before them, as they are told.
fn scheduled(
    alloc: Global,
    events: &[RecordedEvent],
    members: &[MomentMember],
) -> Result<Vec<MomentMember>, OrderedFault>
    ensures listed { IfOk result (λ listed. IsListed (map seen_member members.now) events.now
        (map seen_member listed.items)) }
    ensures refused { IfErr result (Refuses (map seen_member members.now) events.now) }
{
    let order = schedule(alloc, events, members)?;
    Ok(told(alloc, &order)?)
}

/// Events as members are told.
fn told(alloc: Global, order: &[&RecordedEvent]) -> Result<Vec<MomentMember>, AllocError>
    ensures { IfOk result (λ listed. map seen_member listed.items ≡ map (λ one. told_event one.now) order.now) }
{
    let mut listed = Vec::with_capacity(alloc, order.len())?;
    for event in order {
        listed.push(MomentMember {
            host: String::from_str(alloc, event.host())?,
            line: event.line(),
            text: String::from_str(alloc, event.text())?,
        })?;
    }
    Ok(listed)
}
