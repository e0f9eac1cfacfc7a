ghost use Rattle.std.specs.Prelude.{◌≡◌, [], IfOk};
ghost use Rattle.trace_log.specs.State.{last_event};

use crate::source::Source;
use std::alloc::{AllocError, Global};
use std::io::Read;
use trace_log::{EventFault, EventReader, Form, Logged};

/// The events of a log with clocks, by the lines of an input.
#[derive(Drop)]
pub struct Clocked<'i, I> {
    events: EventReader,
    input: &'i mut I,
}

impl<'i, I: Read> Clocked<'i, I> {
    ghost use Rattle.trace_source.specs.Clocked.{log_of, log_story};

    /// A log of this form, before its first line.
    pub fn new(alloc: Global, form: Form, input: &'i mut I) -> Result<Clocked<'i, I>, AllocError>
        ensures gave { IfOk result (λ clocked.
            (log_story I.remaining (log_of form (I.remaining input.entry.now) clocked)).gave [] clocked) }
        ensures same_reference { IfOk result (λ clocked. clocked.input.ghost_name ≡ input.entry.ghost_name) }
    {
        let events = EventReader::new(alloc, form)?;
        Ok(Clocked { events, input })
    }

    /// Gives the input back, of which some bytes may have been read ahead.
    pub fn into_input(self) -> &'i mut I
        ensures value { result.now ≡ self.entry.input.now }
        ensures same_reference { result.ghost_name ≡ self.entry.input.ghost_name }
    {
        self.input
    }
}

impl<I: Read> Source for Clocked<'_, I> {
    ghost use Rattle.trace_source.specs.Clocked.{LogInput, log_story};

    ghost Whole = { LogInput };

    ghost story = { log_story I.remaining };

    ghost last = { λ s. last_event s.events.log };

    fn advance(&mut self) -> Result<bool, EventFault> {
        self.events.next_event(self.input)
    }

    fn event(&self) -> Option<Logged<'_>> {
        self.events.event()
    }
}
