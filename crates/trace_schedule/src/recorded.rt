//! A source that keeps what another one gives.
ghost use Rattle.std.specs.Prelude.{◌≡◌, ◌∷◌, ◌++◌, [], OnOk};
ghost use Rattle.trace_log.specs.Turns.{seen_logged};

use crate::recorded_event::RecordedEvent;
use std::alloc::{AllocError, Global};
use trace_log::{EventFault, Logged};
use trace_source::Source;

/// The events that a source gives, which are kept.
#[derive(Drop)]
pub struct Recorded<S> {
    alloc: Global,
    source: S,
    events: Vec<RecordedEvent>,
}

impl<S: Source + Drop> Recorded<S> {
    ghost use Rattle.trace_schedule.specs.Recorded.{recorded_story};

    /// A source that gave nothing yet.
    pub fn new(alloc: Global, source: S) -> Recorded<S>
        ensures { (whole : S.Whole) → (S.story whole).gave [] source →
            (recorded_story (S.story whole)).gave [] result }
    {
        Recorded {
            alloc,
            source,
            events: Vec::new(alloc),
        }
    }

    /// What was given, and the source.
    pub fn into_parts(self) -> (Vec<RecordedEvent>, S)
        ensures events { result.0.items ≡ self.events.items }
        ensures source { result.1 ≡ self.source }
    {
        let Recorded { source, events, .. } = self;
        (events, source)
    }
}

impl<S: Source> Source for Recorded<S> {
    ghost use Rattle.trace_schedule.specs.Recorded.{recorded_story};

    ghost Whole = { S.Whole };

    ghost story = { λ whole. recorded_story (S.story whole) };

    ghost last = { λ recorded. S.last recorded.source };

    fn advance(&mut self) -> Result<bool, EventFault> {
        if !self.source.advance()? {
            return Ok(false);
        }
        if let Some(logged) = self.source.event() {
            keep(self.alloc, &mut self.events, &logged)?;
        }
        Ok(true)
    }

    fn event(&self) -> Option<Logged<'_>> {
        self.source.event()
    }
}

/// Keeps a copy of an event behind these.
fn keep(
    alloc: Global,
    events: &mut Vec<RecordedEvent>,
    logged: &Logged<'_>,
) -> Result<(), AllocError>
    ensures { OnOk result (events.new.items ≡ events.old.items ++ seen_logged logged.now ∷ []) }
{
    let event = RecordedEvent::new(alloc, logged)?;
    events.push(event)?;
    Ok(())
}
