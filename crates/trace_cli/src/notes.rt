use crate::audience::Audience;
use crate::ends::EndExpressions;
use crate::first_hosts::FirstHosts;
use std::alloc::Global;
use std::io::Write;
use std::time::{Clock, Duration, Instant};
use trace_detect::{Listener, WatchedHosts};
use trace_log::{Event, Logged};

/// So many seconds pass before it is told again how far a log was read.
const SECONDS: u64 = 60;

/// Tells what a user of the program may want to know of a log that is read.
///
/// Once, that the text of a watched host's event ends in CR, at which an expression that ends in `$` has no match. And
/// once a minute, if that is wanted, how many events were read, and which watched hosts logged none of them: a line
/// each, the first with the first event that comes a minute after the first one of all. Where a host that is asked for
/// logs nothing, that the log has no event, or at the end which hosts it has. And at the end how many events forget, and
/// how many lines are no event. Where the clock can't be read, a line can't be written or memory runs out, nothing is
/// told.
#[derive(Drop)]
pub struct Notes<'a, 'q, C, E> {
    program: &'a str,
    clock: &'a C,
    errors: E,
    tells_progress: bool,
    has_told_cr: bool,
    events: u64,
    last: Option<Instant>,
    hosts: FirstHosts,
    ends: EndExpressions<'q>,
    misses_host: bool,
    forgotten: u64,
    /// The line of the first event that forgets, and that of the event of which it does.
    first_forgotten: Option<(u64, u64)>,
}

impl<'a, 'q, C: Clock, E: Write> Notes<'a, 'q, C, E> {
    /// Tells on `errors`, and how far a log was read only if `tells_progress`. `ends` takes each event.
    pub fn new(
        alloc: Global,
        program: &'a str,
        clock: &'a C,
        errors: E,
        tells_progress: bool,
        ends: EndExpressions<'q>,
    ) -> Notes<'a, 'q, C, E> {
        Notes {
            program,
            clock,
            errors,
            tells_progress,
            has_told_cr: false,
            events: 0,
            last: None,
            hosts: FirstHosts::new(alloc),
            ends,
            misses_host: false,
            forgotten: 0,
            first_forgotten: None,
        }
    }

    /// The ends of states that no event has matched so far.
    pub fn ends(&mut self) -> &mut EndExpressions<'q> {
        &mut self.ends
    }

    /// Tells what is known at the end of a log of which so many lines were passed over as no event.
    pub fn tell_end(&mut self, skipped: u64) {
        if self.misses_host && self.events > 0 && self.hosts.are_known() {
            let _ = writeln!(self.errors, "{}: the log has {}", self.program, self.hosts);
        }
        self.tell_forgotten();
        if skipped > 0 {
            let all = if self.events > 0 {
                ""
            } else {
                ", which are all"
            };
            let _ = writeln!(
                self.errors,
                "{}: lines that are no event: {skipped}{all}",
                self.program
            );
        }
    }

    /// Tells how many events forget, and of which event the first of them does.
    fn tell_forgotten(&mut self) {
        if let Some((line, of)) = self.first_forgotten {
            let _ = writeln!(
                self.errors,
                "{}: events that know another, but not all that this knew: {}, first line {line} of line {of}; so order \
                 is missing, and found may be no possible moment",
                self.program, self.forgotten
            );
        }
    }

    /// Counts an event that forgets, if it does.
    fn count_forgotten(&mut self, logged: &Logged<'_>) {
        if let Some(of) = logged.forgets {
            self.forgotten = self.forgotten.saturating_add(1);
            if self.first_forgotten.is_none() {
                self.first_forgotten = Some((logged.line, of));
            }
        }
    }

    /// Tells of the CR at the end of an event's text, if that is the first one.
    fn tell_cr(&mut self, event: &Event<'_>, hosts: &WatchedHosts<'_, '_>) {
        if self.has_told_cr || !event.text.ends_with('\r') || !hosts.contain(event.host) {
            return;
        }
        self.has_told_cr = true;
        let _ = writeln!(
            self.errors,
            "{}: a text ends in CR, as where lines end in CR LF: an expression that ends in $ doesn't match there; \
             write \\r?$",
            self.program
        );
    }

    /// Whether a minute has passed since it was told last, or since the first event.
    fn is_due(&mut self) -> bool {
        let Ok(now) = Instant::now(self.clock) else {
            return false;
        };
        let Some(last) = self.last else {
            self.last = Some(now);
            return false;
        };
        if now.duration_since(last) < Duration::from_secs(SECONDS) {
            return false;
        }
        self.last = Some(now);
        true
    }
}

impl<C: Clock, E: Write> Listener for Notes<'_, '_, C, E> {
    fn hear(&mut self, logged: &Logged<'_>, hosts: &WatchedHosts<'_, '_>) {
        let event = &logged.event;
        self.events = self.events.saturating_add(1);
        self.hosts.take(event.host);
        self.ends.take(event);
        self.count_forgotten(logged);
        self.tell_cr(event, hosts);
        if self.tells_progress && self.is_due() {
            let _ = write!(self.errors, "{}: {} events read", self.program, self.events);
            tell_silent(&mut self.errors, event, hosts);
        }
    }
}

impl<C: Clock, E: Write> Audience for Notes<'_, '_, C, E> {
    fn miss_host(&mut self) {
        if self.events == 0 && !self.misses_host {
            let _ = writeln!(self.errors, "{}: the log has no event", self.program);
        }
        self.misses_host = true;
    }
}

/// Ends a line with the hosts that have logged nothing before this event, but for its own.
fn tell_silent<E: Write>(errors: &mut E, event: &Event<'_>, hosts: &WatchedHosts<'_, '_>) {
    for place in 0..hosts.count() {
        if let Some(host) = hosts.silent_at(place) {
            tell_host(errors, event, host);
        }
    }
    let _ = writeln!(errors, "");
}

/// Names a host in a line, unless the event is its own.
fn tell_host<E: Write>(errors: &mut E, event: &Event<'_>, host: &str) {
    if host != event.host {
        let _ = write!(errors, ", none of {host}");
    }
}
