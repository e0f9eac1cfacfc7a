//! What a history keeps of a watched host and its events.
ghost use Rattle.std.specs.Prelude.{◌≡◌, ◌≤◌, ◌++◌, ◌∷◌, [], slice_index, length, OnOk, OnErr};
ghost use Rattle.trace_explain.specs.Left.{IsLastUpTo, IsNextState, IsUpTo, KnowsFirst};

use std::alloc::AllocError;
use std::marker::Model;
use trace_moment::WatchedHost;

/// An event of a watched host: its line, whether the host's condition holds at it, and the numbers of the watched hosts
/// in its clock, in their order.
#[derive(Debug, Drop)]
pub(crate) struct PastEvent {
    pub line: u64,
    pub holds: bool,
    pub numbers: Vec<u32>,
}

impl Model for PastEvent {
    ghost use Rattle.trace_explain.specs.History.{Past as Seen};

    ghost Value = { Seen };

    ghost view = { λ one. record { line = one.line; holds = one.holds; numbers = one.numbers.items } };
}

impl PastEvent {
    /// The number of the watched host at this place.
    pub fn number(&self, place: usize) -> u32
        ensures { result ≡ slice_index self.now.numbers place }
    {
        self.numbers.get(place).copied().unwrap_or(0)
    }
}

/// A watched host and its events, in their order.
#[derive(Debug, Drop)]
pub(crate) struct PastHost {
    pub watched: WatchedHost,
    pub events: Vec<PastEvent>,
}

impl Model for PastHost {
    ghost use Rattle.std.specs.Prelude.{string_bytes};
    ghost use Rattle.trace_explain.specs.History.{PastHost as Seen};

    ghost Value = { Seen };

    ghost view = { λ one. record {
      host = string_bytes one.watched.host;
      lasting = one.watched.lasting;
      events = one.events.items;
    } };
}

impl PastHost {
    /// Adds the next event. `Err` where memory runs out: nothing has changed.
    pub fn add(&mut self, event: PastEvent) -> Result<(), AllocError>
        ensures added { OnOk result (self.new ≡ record self.old { events = self.old.events ++ event ∷ [] }) }
        ensures unchanged { OnErr result (self.new ≡ self.old) }
    {
        self.events.push(event)?;
        Ok(())
    }
}

/// The first place from this one on of an event at which the condition holds, and that behind the last event where
/// there is none.
pub(crate) fn next_state(events: &[PastEvent], from: usize) -> usize
    requires { from ≤ length events.now }
    ensures { IsNextState events.now from result }
{
    for k in from..events.len() {
        let event = &events[k];
        if event.holds {
            return k;
        }
    }
    events.len()
}

/// The place of the last event whose own number is no greater than this one. The host stands at `place`.
pub(crate) fn last_known(events: &[PastEvent], place: usize, number: u32) -> Option<usize>
    ensures { KnowsFirst events.now place number result }
{
    if events.is_empty() || events[0].number(place) > number {
        return None;
    }
    Some(last_known_from(events, 0, place, number))
}

/// The same, from an event on whose own number is no greater.
pub(crate) fn last_known_from(events: &[PastEvent], from: usize, place: usize, number: u32) -> usize
    requires { IsUpTo events.now place number from }
    ensures { IsLastUpTo events.now place number result }
{
    let mut low = from;
    let mut high = events.len();
    while high - low > 1 {
        let middle = low + (high - low) / 2;
        if events[middle].number(place) <= number {
            low = middle;
        } else {
            high = middle;
        }
    }
    low
}
