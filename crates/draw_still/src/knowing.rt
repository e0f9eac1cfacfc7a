//! What events know of hosts.
use draw_page::PageEvent;

/// How many events of a host an event knows.
pub(crate) fn known(event: &PageEvent, host: usize) -> u64 {
    let mut known = 0u64;
    for entry in &event.clock {
        if entry.host == host {
            known = known.max(entry.number);
        }
    }
    known
}

/// How many events of its own host an event knows, itself counted.
pub(crate) fn own(event: &PageEvent) -> u64 {
    known(event, event.host)
}

/// How many events of all hosts an event knows. What happened before it knows fewer.
pub(crate) fn known_of_all(event: &PageEvent) -> u64 {
    let mut sum = 0u64;
    for entry in &event.clock {
        sum = sum.saturating_add(entry.number);
    }
    sum
}
