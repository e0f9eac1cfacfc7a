//! Which hosts the clocks name, looked up once. No contract rests on it: whoever asks compares the names.

use crate::host::SeenHost;
use std::alloc::{AllocError, Global};
use std::collections::HashMap;

/// The number of no host.
const UNKNOWN: usize = usize::MAX;

/// The numbers of the hosts that each host's clock names, as far as they were known and memory was there.
#[derive(Drop)]
pub(crate) struct Lookups {
    alloc: Global,
    rows: Vec<Row>,
}

/// The numbers of the hosts that one clock names, place by place.
#[derive(Drop)]
struct Row {
    numbers: Vec<usize>,
    /// How many hosts there were when they were looked up.
    hosts: usize,
}

impl Lookups {
    pub fn new(alloc: Global) -> Lookups {
        Lookups {
            alloc,
            rows: Vec::new(alloc),
        }
    }

    /// Looks up the hosts that a host's clock names, if others have come since.
    pub fn look_up(&mut self, host: usize, hosts: &[SeenHost], numbers: &HashMap<String, usize>) {
        if self.is_done(host, hosts.len()) {
            return;
        }
        let _room = self.fill(host, hosts, numbers);
    }

    /// Forgets them, since the clock names others now.
    pub fn forget(&mut self, host: usize) {
        if host < self.rows.len() {
            self.rows[host].numbers.clear();
            self.rows[host].hosts = 0;
        }
    }

    /// The number of the host that stands at a place of a host's clock, if it is known.
    pub fn number(&self, host: usize, place: usize) -> usize {
        match self.rows.get(host) {
            Some(row) => number_at(row, place),
            None => UNKNOWN,
        }
    }

    /// The place of another host in a host's clock, if it is known.
    pub fn place(&self, host: usize, other: usize) -> usize {
        match self.rows.get(host) {
            Some(row) => place_in(row, other),
            None => UNKNOWN,
        }
    }

    /// Whether the hosts that a host's clock names were looked up among so many.
    fn is_done(&self, host: usize, count: usize) -> bool {
        match self.rows.get(host) {
            Some(row) => row.hosts == count,
            None => false,
        }
    }

    fn fill(
        &mut self,
        host: usize,
        hosts: &[SeenHost],
        numbers: &HashMap<String, usize>,
    ) -> Result<(), AllocError> {
        for _ in self.rows.len()..hosts.len() {
            self.rows.push(Row {
                numbers: Vec::new(self.alloc),
                hosts: 0,
            })?;
        }
        if host < hosts.len() && host < self.rows.len() {
            fill_row(&mut self.rows[host], &hosts[host], numbers)?;
            self.rows[host].hosts = hosts.len();
        }
        Ok(())
    }
}

/// Looks up what isn't known yet.
fn fill_row(
    row: &mut Row,
    host: &SeenHost,
    numbers: &HashMap<String, usize>,
) -> Result<(), AllocError> {
    let clock = host.clock();
    row.numbers.resize(clock.len(), UNKNOWN)?;
    for place in 0..clock.len() {
        if number_at(row, place) == UNKNOWN {
            if let Some(number) = numbers.get(clock[place].name.as_str()) {
                put_at(row, place, *number);
            }
        }
    }
    Ok(())
}

fn number_at(row: &Row, place: usize) -> usize {
    match row.numbers.get(place) {
        Some(number) => *number,
        None => UNKNOWN,
    }
}

fn put_at(row: &mut Row, place: usize, number: usize) {
    if place < row.numbers.len() {
        row.numbers[place] = number;
    }
}

fn place_in(row: &Row, other: usize) -> usize {
    for place in 0..row.numbers.len() {
        if row.numbers[place] == other {
            return place;
        }
    }
    UNKNOWN
}
