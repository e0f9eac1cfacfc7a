//! The states of a watched host that are left while others are ruled out.
ghost use Rattle.std.specs.Prelude.{◌≡◌, ◌<◌, true, length, nat_lt, OnOk};
ghost use Rattle.trace_explain.specs.History.{number_at, past_at};
ghost use Rattle.trace_explain.specs.Left.{AreFirst, DropsFirst, IsKnownLine, IsReason, end_at, is_over};

use crate::past::{PastHost, last_known, last_known_from, next_state};
use crate::reason::StateOver;
use std::alloc::{AllocError, Global};
use std::marker::Model;
use trace_moment::Lasting;

/// The states of a watched host that are left, and why those before them are in no moment.
#[derive(Drop)]
pub(crate) struct StatesLeft<'h> {
    pub host: &'h PastHost,
    /// The place of the event with which the first state begins that is left.
    pub front: usize,
    pub over: Vec<StateOver>,
}

impl<'h> Model for StatesLeft<'h> {
    ghost use Rattle.trace_explain.specs.Left.{Left as Seen};

    ghost Value = { Seen };

    ghost view = { λ one. record { host = one.host.now; front = one.front; over = one.over.items } };
}

impl<'h> StatesLeft<'h> {
    /// All states of a host.
    pub fn all(alloc: Global, host: &'h PastHost) -> StatesLeft<'h>
        ensures { AreFirst host.now result }
    {
        StatesLeft {
            host,
            front: next_state(&host.events, 0),
            over: Vec::new(alloc),
        }
    }

    /// Whether a state is left.
    pub fn has_first(&self) -> bool
        ensures { result ≡ nat_lt self.now.front (length self.now.host.events) }
    {
        let host = self.host;
        self.front < host.events.len()
    }

    /// The line of the first state.
    fn first_line(&self) -> u64
        requires { self.now.front < length self.now.host.events }
        ensures { result ≡ (past_at self.now.host self.now.front).line }
    {
        let host = self.host;
        let first = &host.events[self.front];
        first.line
    }

    /// The number of the watched host at this place that the first state knows.
    fn first_number(&self, place: usize) -> u32
        requires { self.now.front < length self.now.host.events }
        ensures { result ≡ number_at self.now.host self.now.front place }
    {
        let host = self.host;
        host.events[self.front].number(place)
    }

    /// The line of the last event of this host, whose place is this one, with no greater a number.
    pub fn known_line(&self, place: usize, number: u32) -> Option<u64>
        ensures { IsKnownLine self.now.host.events place number result }
    {
        let host = self.host;
        let known = last_known(&host.events, place, number)?;
        let event = &host.events[known];
        Some(event.line)
    }

    /// The place of the event that ends the first state.
    fn end(&self) -> usize
        requires { self.now.front < length self.now.host.events }
        ensures { result ≡ end_at self.now.host.lasting self.now.front }
    {
        let host = self.host;
        match host.watched.lasting {
            Lasting::While => self.front + 1,
            Lasting::At => self.front,
        }
    }

    /// Goes on behind the first state, which is in no moment for this reason.
    pub fn drop_first(&mut self, reason: StateOver) -> Result<(), AllocError>
        requires { self.old.front < length self.old.host.events }
        ensures { OnOk result (DropsFirst self.old reason self.new) }
    {
        self.over.push(reason)?;
        let host = self.host;
        self.front = next_state(&host.events, self.front + 1);
        Ok(())
    }
}

/// Whether the first state of the host at `place` is over at the first state of the one at `at`.
pub(crate) fn is_over(left: &[StatesLeft<'_>], place: usize, at: usize) -> bool
    requires place { place < length left.now }
    requires at { at < length left.now }
    ensures { result ≡ is_over left.now place at }
{
    let one = &left[place];
    let other = &left[at];
    if !one.has_first() || !other.has_first() {
        return false;
    }
    let host = one.host;
    let end = one.end();
    end < host.events.len() && host.events[end].number(place) <= other.first_number(place)
}

/// Why the first state of the host at `place` is over at the first state of the one at `at`.
pub(crate) fn reason(left: &[StatesLeft<'_>], place: usize, at: usize) -> StateOver
    requires place { place < length left.now }
    requires at { at < length left.now }
    requires over { is_over left.now place at ≡ true }
    ensures { IsReason left.now place at result }
{
    let one = &left[place];
    let other = &left[at];
    let host = one.host;
    let known = last_known_from(&host.events, one.end(), place, other.first_number(place));
    let last = &host.events[known];
    StateOver {
        line: one.first_line(),
        at_place: at,
        at_line: other.first_line(),
        knows_up_to: last.line,
    }
}
