//! The events of each host.
use draw_page::PageEvent;
use std::alloc::{AllocError, Global};

/// The places of events, by host, in the order of each host.
#[derive(Debug, Drop)]
pub(crate) struct History {
    of_hosts: Vec<Vec<usize>>,
}

impl History {
    /// The history of the events of so many hosts. An event of another host is in none. `Err` where memory runs out.
    pub(crate) fn of(
        alloc: Global,
        hosts: usize,
        events: &[PageEvent],
    ) -> Result<History, AllocError> {
        let mut of_hosts = Vec::with_capacity(alloc, hosts)?;
        for _ in 0..hosts {
            of_hosts.push(Vec::new(alloc))?;
        }
        for (place, event) in events.iter().enumerate() {
            if let Some(of_host) = of_hosts.get_mut(event.host) {
                of_host.push(place)?;
            }
        }
        Ok(History { of_hosts })
    }

    /// The places of a host's events.
    pub(crate) fn of_host(&self, host: usize) -> &[usize] {
        match self.of_hosts.get(host) {
            Some(of_host) => of_host.as_slice(),
            None => &[],
        }
    }

    /// The place of the event of this host before the one at this place, if there is one.
    pub(crate) fn previous(&self, host: usize, place: usize) -> Option<usize> {
        let mut previous = None;
        for other in self.of_host(host) {
            if *other < place {
                previous = Some(*other);
            }
        }
        previous
    }

    /// The place of the event of this host behind the one at this place, if there is one.
    pub(crate) fn next(&self, host: usize, place: usize) -> Option<usize> {
        self.of_host(host)
            .iter()
            .find(|other| **other > place)
            .copied()
    }
}
