//! What a process does, as it goes.
ghost use Rattle.std.specs.Prelude.{◌≡◌, ◌<◌, ◌≤◌, ◌↔◌, [], IfOk, OnOk, OnErr, IsTrue, MatchResult, length};
ghost use Rattle.wcp_clock.specs.Limits.{most_processes};
ghost use Rattle.wullaphi_record.specs.Recorded.{IsRefused, MayAdd, NoneFalls, begun, last_clock, recorded_at, with_event};
ghost use Rattle.wullaphi_record.specs.Views.{seen_event};

use crate::fault::RecordFault;
use crate::kept::{give_up_first, put_last};
use crate::recorded::RecordedEvent;
use std::alloc::{AllocError, Global};
use std::collections::VecDeque;
use std::marker::Model;
use wcp_clock::{CLOCK_LIMIT, Clock};

/// The most bytes of a text.
const MAX_TEXT: usize = 4096;

/// What a process of a watch did, in its words, with its vector clock at each event.
#[derive(Drop)]
pub struct Record {
    alloc: Global,
    pub(crate) process: u32,
    pub(crate) name: String,
    most: usize,
    pub(crate) passed: u32,
    pub(crate) events: VecDeque<RecordedEvent>,
}

impl Model for Record {
    ghost use Rattle.std.specs.Prelude.{◌<◌, ◌≤◌, ◌+◌, map, string_bytes, length};
    ghost use Rattle.wcp_clock.specs.Limits.{most_processes};
    ghost use Rattle.wullaphi_record.specs.Recorded.{AreInOrder, Recording, most_recorded};
    ghost use Rattle.wullaphi_record.specs.Views.{seen_events};

    ghost Value = { Recording };

    ghost view = { λ r. record {
      process = r.process;
      name = string_bytes r.name;
      most = r.most;
      passed = r.passed;
      events = seen_events r.events;
    } };

    ghost invariant = { λ r. (0 < r.most) × (AreInOrder (seen_events r.events)
        × (r.passed + length r.events.items ≤ most_recorded)) };
}

impl Record {
    /// A record of the process with this number, of which at most so many events are kept.
    pub(crate) fn of(
        alloc: Global,
        process: u32,
        name: &str,
        most: usize,
    ) -> Result<Record, AllocError>
        requires { 0 < most }
        ensures { IfOk result (λ made. made ≡ begun process name.now most) }
    {
        Ok(Record {
            alloc,
            process,
            name: String::from_str(alloc, name)?,
            most,
            passed: 0,
            events: VecDeque::new(alloc),
        })
    }

    /// Adds an event of a process with this clock.
    pub(crate) fn add(&mut self, process: u32, clock: Clock, text: &str) -> Result<(), RecordFault>
        ensures first { MatchResult
            result
            (λ _. MayAdd self.old process clock text.now)
            (λ fault. IsRefused self.old process clock text.now fault) }
        ensures unchanged { OnErr result (self.new ≡ self.old) }
        ensures added { OnOk result (self.new ≡ with_event self.old (record { clock = clock; text = text.now })) }
    {
        if process != self.process || !self.follows(&clock) {
            return Err(RecordFault::OtherProbe);
        }
        if text.len() > MAX_TEXT {
            return Err(RecordFault::Long);
        }
        if self.events.len() >= (CLOCK_LIMIT - self.passed) as usize {
            return Err(RecordFault::Full);
        }
        let text = String::from_str(self.alloc, text)?;
        if self.events.len() < self.most {
            self.events.reserve(1)?;
            put_last(&mut self.events, RecordedEvent { clock, text });
            return Ok(());
        }
        give_up_first(&mut self.events);
        self.passed += 1;
        put_last(&mut self.events, RecordedEvent { clock, text });
        Ok(())
    }

    /// Whether no component of the last event's clock is greater than that of this one.
    fn follows(&self, clock: &Clock) -> bool
        ensures { IsTrue result ↔ NoneFalls (last_clock self.now.events) clock.now }
    {
        match self.events.back() {
            Some(last) => falls_nowhere(&last.clock, clock),
            None => true,
        }
    }

    /// The event at this place of those that are kept.
    pub(crate) fn event_at(&self, at: usize) -> &RecordedEvent
        requires { at < length self.now.events }
        ensures { seen_event result.now ≡ recorded_at self.now.events at }
    {
        match self.events.get(at) {
            Some(event) => event,
            None => unreachable!(),
        }
    }
}

/// Whether no component of the earlier clock is greater than that of the later one.
fn falls_nowhere(earlier: &Clock, later: &Clock) -> bool
    ensures { IsTrue result ↔ NoneFalls earlier.now later.now }
{
    for process in 0..earlier.len() {
        if earlier.get(process) > later.get(process) {
            return false;
        }
    }
    true
}
