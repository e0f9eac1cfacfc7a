ghost use Rattle.std.specs.Prelude.{◌≡◌, IfOk};
ghost use Rattle.trace_log.specs.Turns.{seen_logged};
ghost use Rattle.trace_moment.specs.Kept.{kept_event};
ghost use Rattle.trace_moment.specs.Views.{seen_kept};

use std::alloc::{AllocError, Global};
use std::marker::Model;
use trace_log::Logged;

/// An event as a search keeps it: the line of its text, counted from 1, and its text.
#[derive(Debug, Drop)]
pub struct KeptEvent {
    pub line: u64,
    pub text: String,
}

impl KeptEvent {
    /// What is kept of this event.
    pub(crate) fn of(alloc: Global, logged: &Logged<'_>) -> Result<KeptEvent, AllocError>
        ensures { IfOk result (λ kept. seen_kept kept ≡ kept_event (seen_logged logged.now)) }
    {
        let line = logged.line;
        let text = String::from_str(alloc, logged.event.text)?;
        Ok(KeptEvent { line, text })
    }
}

/// A state that can still be in the moment: the event that it begins with, the numbers of the watched hosts in the
/// event's clock, in their order, and the host's number up to which it lasts for sure.
#[derive(Debug, Drop)]
pub(crate) struct Candidate {
    pub event: KeptEvent,
    pub numbers: Vec<u32>,
    pub lasts_to: u32,
}

impl Model for Candidate {
    ghost use Rattle.trace_moment.specs.Kept.{KeptCandidate as Seen};
    ghost use Rattle.trace_moment.specs.Views.{seen_kept};

    ghost Value = { Seen };

    ghost view = { λ one. record {
      event = seen_kept one.event;
      numbers = one.numbers.items;
      lasts_to = one.lasts_to;
    } };
}
