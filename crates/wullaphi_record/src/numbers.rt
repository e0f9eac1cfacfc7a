//! The clocks of a log, by those of the probes.
ghost use Rattle.std.specs.Prelude.{◌≡◌, ◌<◌, ◌≤◌, IfOk, length, map, slice_index};
ghost use Rattle.wullaphi_record.specs.Logs.{known_events, number_in, number_known};

use crate::record::Record;
use std::alloc::{AllocError, Global};
use wcp_clock::Clock;

/// The numbers in the clock of an event of a record, one for each record.
pub(crate) fn numbers_at(
    alloc: Global,
    records: &[Record],
    own: &Record,
    at: usize,
) -> Result<Vec<u32>, AllocError>
    requires { at < length own.now.events }
    ensures { IfOk result (λ numbers. numbers.items ≡ map (number_in own.now at) records.now) }
{
    let mut numbers = Vec::with_capacity(alloc, records.len())?;
    for other in records {
        numbers.push(number_in(own, at, other))?;
    }
    Ok(numbers)
}

/// The number that stands for another record in the clock of an event.
fn number_in(own: &Record, at: usize, other: &Record) -> u32
    requires { at < length own.now.events }
    ensures { result ≡ number_in own.now at other.now }
{
    if other.process == own.process {
        own.passed + at as u32 + 1
    } else {
        let event = own.event_at(at);
        other.known_number(component(&event.clock, other.process))
    }
}

impl Record {
    /// The number of the last event before the process had counted so many of its own sends and receives, or 0 where
    /// none of those is kept.
    fn known_number(&self, count: u32) -> u32
        ensures { result ≡ number_known self.now count }
    {
        let known = self.known_events(count);
        if known == 0 {
            0
        } else {
            self.passed + known as u32
        }
    }

    /// How many of the kept events come before the process had counted so many of its own sends and receives.
    fn known_events(&self, count: u32) -> usize
        ensures value { result ≡ known_events self.now count }
        ensures within { result ≤ length self.now.events }
    {
        let process = self.process;
        self.events
            .partition_point(|event| component(&event.clock, process) < count)
    }
}

/// The component of a process, and 0 where the clock has none.
fn component(clock: &Clock, process: u32) -> u32
    ensures { result ≡ slice_index clock.now process }
{
    if process < clock.len() {
        clock.get(process)
    } else {
        0
    }
}
