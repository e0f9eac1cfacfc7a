//! The events that led to some of them.
ghost use Rattle.std.specs.Prelude.{◌≡◌, filter, map, IfOk};
ghost use Rattle.trace_detect.specs.Told.{seen_member};
ghost use Rattle.trace_schedule.specs.Schedule.{is_counted_by, is_told, is_told_as, led_to, told_among};

use crate::recorded_event::RecordedEvent;
use std::alloc::{AllocError, Global};
use trace_detect::MomentMember;

/// The events that are told as these members.
pub(crate) fn told_among<'e>(
    alloc: Global,
    events: &'e [RecordedEvent],
    members: &[MomentMember],
) -> Result<Vec<&'e RecordedEvent>, AllocError>
    ensures { IfOk result (λ found. map (λ one. one.now) found.items
        ≡ told_among (map seen_member members.now) events.now) }
{
    let mut found = Vec::new(alloc);
    for event in events {
        if is_told(members, event) {
            found.push(event)?;
        }
    }
    Ok(found)
}

/// Whether an event is told as one of these members.
fn is_told(members: &[MomentMember], event: &RecordedEvent) -> bool
    ensures { result ≡ is_told (map seen_member members.now) event.now }
{
    for member in members {
        if is_told_as(event, member) {
            return true;
        }
    }
    false
}

/// Whether an event is told as this member.
fn is_told_as(event: &RecordedEvent, member: &MomentMember) -> bool
    ensures { result ≡ is_told_as event.now (seen_member member.now) }
{
    event.host() == member.host.as_str() && event.line() == member.line
}

/// The events that happened before one of these, and these.
pub(crate) fn past_of<'e>(
    alloc: Global,
    events: &'e [RecordedEvent],
    ends: &[&RecordedEvent],
) -> Result<Vec<&'e RecordedEvent>, AllocError>
    ensures { IfOk result (λ past. map (λ one. one.now) past.items
        ≡ filter (led_to (map (λ one. one.now) ends.now)) events.now) }
{
    let mut past = Vec::new(alloc);
    for event in events {
        if led_to(ends, event) {
            past.push(event)?;
        }
    }
    Ok(past)
}

/// Whether an event happened before one of these, or is one.
fn led_to(ends: &[&RecordedEvent], event: &RecordedEvent) -> bool
    ensures { result ≡ led_to (map (λ one. one.now) ends.now) event.now }
{
    for end in ends {
        if is_counted_by(event, end) {
            return true;
        }
    }
    false
}

/// Whether an event happened before another, or is it.
fn is_counted_by(event: &RecordedEvent, other: &RecordedEvent) -> bool
    ensures { result ≡ is_counted_by event.now other.now }
{
    event.own() <= other.number_of(event.host())
}
