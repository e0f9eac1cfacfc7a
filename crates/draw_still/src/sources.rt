//! From which events an event newly knows of other hosts.
use crate::history::History;
use crate::knowing::{known, own};
use draw_page::PageEvent;
use std::alloc::{AllocError, Global};

/// The places of the events of other hosts that the event at this place newly knows, the last one of each host; without
/// those that another of them knows. `Err` where memory runs out.
pub(crate) fn sources(
    alloc: Global,
    events: &[PageEvent],
    history: &History,
    place: usize,
) -> Result<Vec<usize>, AllocError> {
    let mut sources = Vec::new(alloc);
    let Some(event) = events.get(place) else {
        return Ok(sources);
    };
    let before = match history.previous(event.host, place) {
        Some(previous) => events.get(previous),
        None => None,
    };
    for entry in &event.clock {
        if entry.host == event.host {
            continue;
        }
        let known_before = before.map(|before| known(before, entry.host)).unwrap_or(0);
        if let Some(source) = last_known(
            events,
            history.of_host(entry.host),
            entry.number,
            known_before,
        ) {
            sources.push(source)?;
        }
    }
    without_known(alloc, events, &sources)
}

/// The last of a host's events that one which knows so many of them knows, if it is behind the first so many.
fn last_known(
    events: &[PageEvent],
    of_host: &[usize],
    number: u64,
    known_before: u64,
) -> Option<usize> {
    let mut last = None;
    for place in of_host {
        let own = own(events.get(*place)?);
        if known_before < own && own <= number {
            last = Some(*place);
        }
    }
    last
}

/// Those of these events that no other of them knows.
fn without_known(
    alloc: Global,
    events: &[PageEvent],
    places: &[usize],
) -> Result<Vec<usize>, AllocError> {
    let mut kept = Vec::with_capacity(alloc, places.len())?;
    for place in places {
        let Some(event) = events.get(*place) else {
            return Ok(kept);
        };
        let is_known = places.iter().any(|other| knows(events, *other, event));
        if !is_known {
            kept.push(*place)?;
        }
    }
    Ok(kept)
}

/// Whether the event at this place, which is of another host, knows an event.
fn knows(events: &[PageEvent], place: usize, event: &PageEvent) -> bool {
    match events.get(place) {
        Some(other) => other.host != event.host && known(other, event.host) >= own(event),
        None => false,
    }
}
