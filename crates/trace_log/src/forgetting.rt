//! Events that forget: they know an event of another host, but not all that this knew. No contract rests on it.

use crate::event::Member;
use crate::host::number_by;
use crate::hosts::Hosts;
use std::alloc::{AllocError, Global};

/// What the events so far knew of other hosts, as far as memory was there.
#[derive(Drop)]
pub(crate) struct Forgetting {
    alloc: Global,
    /// For each host what its last event knew of the others, by their numbers.
    numbers: Vec<Vec<u32>>,
    known: KnownNumbers,
}

/// What an event knows of each host, by the host's number.
#[derive(Drop)]
struct KnownNumbers {
    numbers: Vec<u32>,
    is_learned: bool,
}

impl Forgetting {
    pub fn new(alloc: Global) -> Forgetting {
        Forgetting {
            alloc,
            numbers: Vec::new(alloc),
            known: KnownNumbers {
                numbers: Vec::new(alloc),
                is_learned: false,
            },
        }
    }

    /// The number of a host whose last event this host's last event knows, but not all that it knew, if there is one.
    /// Only what the event has learned is looked at.
    pub fn forgotten(&mut self, hosts: &Hosts, host: usize) -> Option<usize> {
        match self.find(hosts, host) {
            Ok(found) => found,
            Err(AllocError) => None,
        }
    }

    fn find(&mut self, hosts: &Hosts, host: usize) -> Result<Option<usize>, AllocError> {
        let clock = hosts.clock(host);
        self.make_room(host)?;
        self.known.is_learned = false;
        let Some(row) = self.numbers.get_mut(host) else {
            return Ok(None);
        };
        if row.len() < hosts.count() {
            row.resize(hosts.count(), 0)?;
        }
        let mut found = None;
        for place in 0..clock.len() {
            let number = clock[place].number;
            if let Some(other) = hosts.number_here(host, place)
                && has_changed(row, other, number)
                && found.is_none()
                && other != host
                && hosts.is_last(other, number)
            {
                found = self.known.lacking(hosts, host, other)?;
            }
        }
        Ok(found)
    }

    /// Makes room for the numbers of a host.
    fn make_room(&mut self, host: usize) -> Result<(), AllocError> {
        for _ in self.numbers.len()..host.saturating_add(1) {
            self.numbers.push(Vec::new(self.alloc))?;
        }
        Ok(())
    }
}

impl KnownNumbers {
    /// The number of another host, if a host's last event doesn't know all that its last event knew.
    fn lacking(
        &mut self,
        hosts: &Hosts,
        host: usize,
        other: usize,
    ) -> Result<Option<usize>, AllocError> {
        if !self.is_learned {
            self.learn(hosts, host)?;
        }
        match self.covers(hosts, other, hosts.clock(host)) {
            true => Ok(None),
            false => Ok(Some(other)),
        }
    }

    /// Puts what a host's last event knows of each host that has events.
    fn learn(&mut self, hosts: &Hosts, host: usize) -> Result<(), AllocError> {
        self.numbers.clear();
        self.numbers.resize(hosts.count(), 0)?;
        let clock = hosts.clock(host);
        for place in 0..clock.len() {
            if let Some(other) = hosts.number_here(host, place) {
                has_changed(&mut self.numbers, other, clock[place].number);
            }
        }
        self.is_learned = true;
        Ok(())
    }

    /// Whether the event with this clock, which was learned, knows all that another host's last event knows.
    fn covers(&self, hosts: &Hosts, other: usize, clock: &[Member]) -> bool {
        let earlier = hosts.clock(other);
        for place in 0..earlier.len() {
            let one = &earlier[place];
            let known = match hosts.number_here(other, place) {
                Some(number) => self.numbers.get(number).copied().unwrap_or(0),
                None => number_by(one.name.as_str(), clock, place),
            };
            if known < one.number {
                return false;
            }
        }
        true
    }
}

/// Puts a number at a place, and says whether there was another.
fn has_changed(row: &mut Vec<u32>, place: usize, number: u32) -> bool {
    if place >= row.len() || row[place] == number {
        return false;
    }
    row[place] = number;
    true
}
