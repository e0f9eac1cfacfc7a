ghost use Rattle.std.specs.Prelude.{◌≡◌, ◌≤◌, List, [], Option, Err, IfOk, OnErr, ℕ, length, option_map, true};
ghost use Rattle.wcp_io.specs.Input.{most_waiting};
ghost use Rattle.wcp_io.specs.Reader.{left, waiting};
ghost use Rattle.trace_log.specs.Reading.{HasReadEvents, ReadsEvent};
ghost use Rattle.trace_log.specs.State.{last_event};
ghost use Rattle.trace_log.specs.Turns.{seen_logged};

use crate::event::Logged;
use crate::event_fault::EventFault;
use crate::forgotten::Forgotten;
use crate::log::Log;
use crate::turn::Form;
use std::alloc::{AllocError, Global};
use std::io::Read;
use wcp_io::LineReader;

/// Reads the events of an input, always the same one.
#[derive(Drop)]
pub struct EventReader {
    lines: LineReader,
    log: Log,
    ghost few: { length (waiting lines) ≤ most_waiting },
}

impl EventReader {
    /// A reader of a log of this form, before its first line.
    pub fn new(alloc: Global, form: Form) -> Result<EventReader, AllocError>
        ensures { IfOk result (λ reader. (input : Option (List ℕ)) →
            HasReadEvents form input (left reader.lines input) [] reader.log) }
    {
        let lines = LineReader::new(alloc)?;
        let log = Log::new(alloc, form);
        Ok(EventReader { lines, log })
    }

    /// Reads the input up to the next event, which `event` gives then, and `false` where the log ends before one. After
    /// an `Err` there is no more to be read.
    pub fn next_event<I: Read>(&mut self, input: &mut I) -> Result<bool, EventFault>
        ensures reads { (form : _) (known : _) (logged : _) →
            HasReadEvents form known (left self.old.lines (I.remaining input.old)) logged self.old.log →
            ReadsEvent form known (left self.new.lines (I.remaining input.new)) logged result self.new.log }
        ensures ahead { length (waiting self.new.lines) ≤ most_waiting }
        ensures refused { result ≡ Err EventFault.Read → waiting self.new.lines ≡ [] }
    {
        loop {
            if self.log.is_over() {
                self.log.end()?;
                return Ok(false);
            }
            if !self.lines.advance(input)? {
                self.log.end()?;
                return Ok(false);
            }
            if self.log.read(self.lines.line())? {
                self.check()?;
                return Ok(true);
            }
        }
    }

    /// Whether the event that was read last forgets, where that is a fault.
    fn check(&self) -> Result<(), Forgotten>
        ensures { OnErr result (self.now.log.form.check ≡ true) }
    {
        match self.log.forgets() {
            Some(forgotten) => Err(forgotten),
            None => Ok(()),
        }
    }

    /// The event that was read last, if the last line ended one.
    pub fn event(&self) -> Option<Logged<'_>>
        ensures { option_map seen_logged result ≡ last_event self.now.log }
    {
        self.log.event()
    }
}
