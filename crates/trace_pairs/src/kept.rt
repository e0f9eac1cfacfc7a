//! The events of a host that are kept for hosts which have logged nothing yet.

ghost use Rattle.std.specs.Prelude.{◌≡◌, ◌<◌, [], List, ℕ, length, IfOk, OnOk};
ghost use Rattle.trace_log.specs.Turns.{seen_logged};
ghost use Rattle.trace_moment.specs.Moment.{watch_at};
ghost use Rattle.trace_moment.specs.Search.{HasTaken, watched_by};
ghost use Rattle.trace_pairs.specs.Kept.{all_kept, no_events, seen_events, seen_taken, with_next};
ghost use Rattle.trace_pairs.specs.Thinned.{AreInTurn};

use crate::clocks::{clock_of, put_clock};
use crate::kept_taken::KeptTaken;
use std::alloc::{AllocError, Global};
use std::mem;
use trace_log::{Event, Logged};
use trace_moment::Search;

impl KeptTaken {
    /// This event, at which the condition holds or not.
    fn of(alloc: Global, logged: &Logged<'_>, holds: bool) -> Result<KeptTaken, AllocError>
        ensures { IfOk result (λ kept. seen_taken logged.now.event.host.now kept
            ≡ record { logged = seen_logged logged.now; holds = holds }) }
    {
        let line = logged.line;
        let clock = clock_of(alloc, logged.event.clock)?;
        let text = String::from_str(alloc, logged.event.text)?;
        Ok(KeptTaken {
            line,
            clock,
            text,
            holds,
        })
    }

    /// Puts this event into the place of another one, whose room is used again.
    fn put(&mut self, alloc: Global, logged: &Logged<'_>, holds: bool) -> Result<(), AllocError>
        ensures { OnOk result (seen_taken logged.now.event.host.now self.new
            ≡ record { logged = seen_logged logged.now; holds = holds }) }
    {
        let mut clock = mem::replace(&mut self.clock, Vec::new(alloc));
        put_clock(alloc, &mut clock, logged.event.clock)?;
        self.clock = clock;
        self.text.clear();
        self.text.push_str(logged.event.text)?;
        self.line = logged.line;
        self.holds = holds;
        Ok(())
    }

    /// The event again, of the host with this name.
    fn logged<'a>(&'a self, host: &'a str) -> Logged<'a>
        ensures { seen_logged result ≡ (seen_taken host.now self.now).logged }
    {
        Logged {
            line: self.line,
            forgets: None,
            event: Event {
                host,
                clock: self.clock.as_slice(),
                text: self.text.as_str(),
            },
        }
    }
}

/// The events of a host that a search can't do without: those at which the condition holds, the one right behind each
/// of them, which ends its state, and the last one.
#[derive(Debug, Drop)]
pub(crate) struct HostEvents {
    waiting: Vec<KeptTaken>,
    last: Option<KeptTaken>,
    /// Whether the condition held at the event before the last one.
    is_behind: bool,
}

impl HostEvents {
    /// Before the first event.
    pub fn new(alloc: Global) -> HostEvents
        ensures { (host : List ℕ) → seen_events host result ≡ no_events }
    {
        HostEvents {
            waiting: Vec::new(alloc),
            last: None,
            is_behind: false,
        }
    }

    /// Takes the host's next event, at which the condition holds or not.
    pub fn take(
        &mut self,
        alloc: Global,
        logged: &Logged<'_>,
        holds: bool,
    ) -> Result<(), AllocError>
        ensures { let host = logged.now.event.host.now in OnOk result (seen_events host self.new
            ≡ with_next (seen_events host self.old) (record { logged = seen_logged logged.now; holds = holds })) }
    {
        let is_behind = self.is_behind;
        match &mut self.last {
            Some(last) if !last.holds && !is_behind => last.put(alloc, logged, holds),
            _ => self.take_behind(alloc, logged, holds),
        }
    }

    /// The same where the last event can't be left out, or there is none.
    fn take_behind(
        &mut self,
        alloc: Global,
        logged: &Logged<'_>,
        holds: bool,
    ) -> Result<(), AllocError>
        ensures { let host = logged.now.event.host.now in OnOk result (seen_events host self.new
            ≡ with_next (seen_events host self.old) (record { logged = seen_logged logged.now; holds = holds })) }
    {
        let next = KeptTaken::of(alloc, logged, holds)?;
        if let Some(last) = self.last.replace(next) {
            let held = last.holds;
            if held || self.is_behind {
                self.waiting.push(last)?;
            }
            self.is_behind = held;
        }
        Ok(())
    }

    /// Has a search take what is kept of the host with this name, which it watches at its first place.
    pub fn replay(&self, host: &str, search: &mut Search) -> Result<(), AllocError>
        requires some { 0 < length (watched_by search.old) }
        ensures taken { HasTaken [] search.old → host.now ≡ (watch_at (watched_by search.old) 0).host →
            AreInTurn (all_kept (seen_events host.now self.now)) →
            OnOk result (HasTaken (all_kept (seen_events host.now self.now)) search.new) }
        ensures watched { watched_by search.new ≡ watched_by search.old }
    {
        for one in &self.waiting {
            search.take(0, &one.logged(host), one.holds)?;
        }
        if let Some(last) = &self.last {
            search.take(0, &last.logged(host), last.holds)?;
        }
        Ok(())
    }
}
