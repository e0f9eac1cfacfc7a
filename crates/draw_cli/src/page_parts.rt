//! The hosts, the events and the messages of a page.

use crate::shown::Shown;
use crate::tracking::{TaskCounts, Tracked};
use draw_page::{ClockEntry, HostRule, HostWatch, MessageEnd, PageEvent, PageHost, PageMessage};
use draw_shapes::Name;
use std::alloc::{AllocError, Global};
use wcp_clock::MAX_PROCS;
use wcp_model::{Action, Watched};

/// The condition of each watched process, in words.
const CONDITION: &str = "observed true";

/// The hosts: the processes of these names, of which some are watched.
pub(crate) fn hosts_of(
    alloc: Global,
    names: &[Name],
    watched: &Watched,
) -> Result<Vec<PageHost>, AllocError> {
    let mut hosts = Vec::with_capacity(alloc, names.len())?;
    for (p, name) in names.iter().enumerate() {
        let name = String::from_str(alloc, name.given())?;
        let watch = if p < MAX_PROCS && watched.has(p as u32) {
            Some(HostWatch {
                rule: HostRule::While,
                condition: String::from_str(alloc, CONDITION)?,
            })
        } else {
            None
        };
        hosts.push(PageHost { name, watch })?;
    }
    Ok(hosts)
}

/// The events that are shown. The first task of the workload stands in this line of the text.
pub(crate) fn events_of(
    alloc: Global,
    first_line: u64,
    hosts: &[PageHost],
    tracked: &[Tracked],
    shown: &Shown,
) -> Result<Vec<PageEvent>, AllocError> {
    let mut events = Vec::new(alloc);
    for place in &shown.far {
        push_event(&mut events, alloc, first_line, hosts, tracked, *place, true)?;
    }
    for place in shown.start..shown.end {
        push_event(&mut events, alloc, first_line, hosts, tracked, place, false)?;
    }
    Ok(events)
}

/// Adds the event at this place of the tasks.
fn push_event(
    events: &mut Vec<PageEvent>,
    alloc: Global,
    first_line: u64,
    hosts: &[PageHost],
    tracked: &[Tracked],
    place: usize,
    far: bool,
) -> Result<(), AllocError> {
    let Some(one) = tracked.get(place) else {
        return Ok(());
    };
    let is_watched = match hosts.get(one.task.p as usize) {
        Some(host) => host.watch.is_some(),
        None => false,
    };
    events.push(PageEvent {
        host: one.task.p as usize,
        line: first_line.saturating_add(place as u64),
        text: text_of(alloc, hosts, one.task.action)?,
        clock: entries_of(alloc, &one.clock)?,
        holds: is_watched && one.task.action == Action::Observe(true),
        far,
    })?;
    Ok(())
}

/// What a process does, in words.
fn text_of(alloc: Global, hosts: &[PageHost], action: Action) -> Result<String, AllocError> {
    match action {
        Action::Observe(true) => String::from_str(alloc, "true"),
        Action::Observe(false) => String::from_str(alloc, "false"),
        Action::Send(to) => {
            let name = name_of(hosts, to);
            format!(in alloc; "send to {name}")
        }
        Action::Recv(from) => {
            let name = name_of(hosts, from);
            format!(in alloc; "receive from {name}")
        }
    }
}

/// The name of process `p`.
fn name_of<'a>(hosts: &'a [PageHost], p: u32) -> &'a str {
    match hosts.get(p as usize) {
        Some(host) => host.name.as_str(),
        None => "",
    }
}

/// The entries of a clock that aren't 0.
fn entries_of(alloc: Global, clock: &TaskCounts) -> Result<Vec<ClockEntry>, AllocError> {
    let mut entries = Vec::new(alloc);
    for (host, number) in clock.iter().enumerate() {
        if *number > 0 {
            let number = u64::from(*number);
            entries.push(ClockEntry { host, number })?;
        }
    }
    Ok(entries)
}

/// The messages of which an end is shown, in the order of their sends.
pub(crate) fn messages_of(
    alloc: Global,
    tracked: &[Tracked],
    shown: &Shown,
) -> Result<Vec<PageMessage>, AllocError> {
    let mut received = vec![in alloc; None; tracked.len()]?;
    for (place, one) in tracked.iter().enumerate() {
        if let Some(sent) = one.sent
            && let Some(slot) = received.get_mut(sent)
        {
            *slot = Some(place);
        }
    }
    let mut messages = Vec::new(alloc);
    for (place, one) in tracked.iter().enumerate() {
        let receive = received.get(place).copied().unwrap_or(None);
        if let Some(message) = message_of(one, place, receive, shown) {
            messages.push(message)?;
        }
    }
    Ok(messages)
}

/// The message that the task at this place sends, if it does and an end is shown. It may be received at another place.
fn message_of(
    one: &Tracked,
    place: usize,
    receive: Option<usize>,
    shown: &Shown,
) -> Option<PageMessage> {
    let Action::Send(to) = one.task.action else {
        return None;
    };
    let from_event = shown.place_of(place);
    let to_event = receive.and_then(|receive| shown.place_of(receive));
    if from_event.is_none() && to_event.is_none() {
        return None;
    }
    Some(PageMessage {
        from: end_of(from_event, one.task.p),
        to: end_of(to_event, to),
    })
}

/// An end of a message, of process `p`.
fn end_of(event: Option<usize>, p: u32) -> MessageEnd {
    match event {
        Some(place) => MessageEnd::Event(place),
        None => MessageEnd::Host(p as usize),
    }
}

/// The places on the page of the moment's members.
pub(crate) fn places_of(
    alloc: Global,
    moment: &[usize],
    shown: &Shown,
) -> Result<Vec<usize>, AllocError> {
    let mut places = Vec::with_capacity(alloc, moment.len())?;
    for member in moment {
        if let Some(place) = shown.place_of(*member) {
            places.push(place)?;
        }
    }
    Ok(places)
}
