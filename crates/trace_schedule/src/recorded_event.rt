//! An event of a log that is kept.
ghost use Rattle.std.specs.Prelude.{◌≡◌, IfOk};
ghost use Rattle.trace_log.specs.Clock.{number_of};
ghost use Rattle.trace_log.specs.Turns.{seen_logged};
ghost use Rattle.trace_log.specs.Views.{seen_clock};
ghost use Rattle.trace_moment.specs.Moment.{own};
ghost use Rattle.trace_schedule.specs.Schedule.{counted};

use std::alloc::{AllocError, Global};
use std::marker::Model;
use trace_log::{Logged, Member, number_of};

/// An event of a log, with its line.
#[derive(Debug, Drop)]
pub struct RecordedEvent {
    line: u64,
    host: String,
    text: String,
    clock: Vec<Member>,
}

impl Model for RecordedEvent {
    ghost use Rattle.std.specs.Prelude.{string_bytes};
    ghost use Rattle.trace_log.specs.Log.{Logged as Seen};
    ghost use Rattle.trace_log.specs.Views.{seen_clock};

    ghost Value = { Seen };

    ghost view = { λ one. record {
      line = one.line;
      event = record {
        host = string_bytes one.host;
        clock = seen_clock one.clock.items;
        text = string_bytes one.text;
      };
    } };
}

impl RecordedEvent {
    /// A copy of an event. `Err` where memory runs out.
    pub fn new(alloc: Global, logged: &Logged<'_>) -> Result<RecordedEvent, AllocError>
        ensures { IfOk result (λ kept. kept ≡ seen_logged logged.now) }
    {
        let event = logged.event;
        Ok(RecordedEvent {
            line: logged.line,
            host: String::from_str(alloc, event.host)?,
            text: String::from_str(alloc, event.text)?,
            clock: copied(alloc, event.clock)?,
        })
    }

    /// Its line, counted from 1.
    pub fn line(&self) -> u64
        ensures { result ≡ self.now.line }
    {
        self.line
    }

    /// Its host.
    pub fn host(&self) -> &str
        ensures { result.now ≡ self.now.event.host }
    {
        self.host.as_str()
    }

    /// Its text.
    pub fn text(&self) -> &str
        ensures { result.now ≡ self.now.event.text }
    {
        self.text.as_str()
    }

    /// Its clock.
    pub(crate) fn clock(&self) -> &[Member]
        ensures { seen_clock result.now ≡ self.now.event.clock }
    {
        self.clock.as_slice()
    }

    /// The number of its own host in its clock.
    pub(crate) fn own(&self) -> u32
        ensures { result ≡ own self.now.event }
    {
        self.number_of(self.host.as_str())
    }

    /// How many events its clock counts.
    pub(crate) fn counted(&self) -> u64
        ensures { result ≡ counted self.now }
    {
        let mut counted = 0u64;
        for member in self.clock() {
            counted = counted.saturating_add(u64::from(member.number));
        }
        counted
    }

    /// The number of a host in its clock.
    pub(crate) fn number_of(&self, host: &str) -> u32
        ensures { result ≡ number_of host.now self.now.event.clock }
    {
        number_of(host, &self.clock)
    }
}

/// A copy of a clock.
fn copied(alloc: Global, clock: &[Member]) -> Result<Vec<Member>, AllocError>
    ensures { IfOk result (λ copy. seen_clock copy.items ≡ seen_clock clock.now) }
{
    let mut copy = Vec::with_capacity(alloc, clock.len())?;
    for member in clock {
        let name = String::from_str(alloc, member.name.as_str())?;
        let number = member.number;
        copy.push(Member { name, number })?;
    }
    Ok(copy)
}
