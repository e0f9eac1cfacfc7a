use crate::shown_names::ShownName;
use std::alloc::{AllocError, Global};
use std::collections::BTreeSet;
use std::fmt;

/// So many hosts are named at most.
const MOST_NAMED: usize = 10;

/// The first hosts of a log, and how many more it has.
#[derive(Drop)]
pub(crate) struct FirstHosts {
    alloc: Global,
    named: Vec<String>,
    more: BTreeSet<String>,
    /// The place of the host that logged last, where it is named.
    last: usize,
    /// Whether memory ran out, so that they aren't told.
    lacks_memory: bool,
}

impl FirstHosts {
    /// Before the first event.
    pub fn new(alloc: Global) -> FirstHosts {
        FirstHosts {
            alloc,
            named: Vec::new(alloc),
            more: BTreeSet::new(alloc),
            last: 0,
            lacks_memory: false,
        }
    }

    /// Takes the host of an event.
    pub fn take(&mut self, host: &str) {
        if !self.lacks_memory && self.add(host).is_err() {
            self.lacks_memory = true;
        }
    }

    /// Adds a host, unless it is known.
    fn add(&mut self, host: &str) -> Result<(), AllocError> {
        if is_at(&self.named, self.last, host) {
            return Ok(());
        }
        for place in 0..self.named.len() {
            if is_at(&self.named, place, host) {
                self.last = place;
                return Ok(());
            }
        }
        if self.named.len() < MOST_NAMED {
            self.last = self.named.len();
            self.named.push(String::from_str(self.alloc, host)?)?;
            return Ok(());
        }
        if !self.more.contains(host) {
            self.more.insert(String::from_str(self.alloc, host)?)?;
        }
        Ok(())
    }

    /// Whether they can be told.
    pub fn are_known(&self) -> bool {
        !self.lacks_memory && !self.named.is_empty()
    }
}

impl fmt::Display for FirstHosts {
    fn fmt<W: fmt::Write>(&self, f: &mut fmt::Formatter<W>) -> fmt::Result {
        let mut mark = "";
        for name in &self.named {
            write!(f, "{mark}{}", ShownName(name.as_str()))?;
            mark = ", ";
        }
        match self.more.len() {
            0 => Ok(()),
            more => write!(f, " and {more} more"),
        }
    }
}

/// Whether the host at this place has this name.
fn is_at(hosts: &[String], place: usize, name: &str) -> bool {
    match hosts.get(place) {
        Some(host) => host.as_str() == name,
        None => false,
    }
}
