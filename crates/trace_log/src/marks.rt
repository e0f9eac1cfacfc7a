//! What is kept of the last events for words alone: the words of a fault, and of an event that forgets. No answer
//! depends on it, but for the refusal of an event that forgets where that is asked for.

use crate::forgetting::Forgetting;
use crate::hosts::Hosts;
use crate::turn::Ended;
use std::alloc::{AllocError, Global};

/// The line of the last event of each host, under the host's number, as far as memory was there.
#[derive(Drop)]
pub(crate) struct Marks {
    lines: Vec<u64>,
    forgetting: Forgetting,
    /// The line of the event of which the last one forgot something.
    forgotten: Option<u64>,
}

impl Marks {
    pub fn new(alloc: Global) -> Marks {
        Marks {
            lines: Vec::new(alloc),
            forgetting: Forgetting::new(alloc),
            forgotten: None,
        }
    }

    /// Puts the line of an event, if there is one, under the number of its host, if there is memory for it.
    pub fn mark(&mut self, ended: Option<Ended>, hosts: &Hosts) {
        self.forgotten = None;
        let Some(Ended { line, host }) = ended else {
            return;
        };
        if let Some(other) = self.forgetting.forgotten(hosts, host) {
            self.forgotten = self.line(other);
        }
        if host < self.lines.len() {
            self.lines[host] = line;
        } else {
            let _room = self.grow(host, line);
        }
    }

    /// The line under the number of a host, if it is known.
    pub fn line(&self, host: usize) -> Option<u64> {
        match self.lines.get(host) {
            Some(0) => None,
            Some(line) => Some(*line),
            None => None,
        }
    }

    /// The line of the event that the last event knows without all that it knew, if there is one.
    pub fn forgotten(&self) -> Option<u64> {
        self.forgotten
    }

    fn grow(&mut self, host: usize, line: u64) -> Result<(), AllocError> {
        for _ in self.lines.len()..host {
            self.lines.push(0)?;
        }
        self.lines.push(line)?;
        Ok(())
    }
}
