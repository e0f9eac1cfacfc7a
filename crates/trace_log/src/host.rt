//! A host, and the clock of its last event.
ghost use Rattle.std.specs.Prelude.{◌≡◌, ◌<◌, ◌≤◌, ℕ, List, true, length, IfSome, IsTrue, string_bytes};
ghost use Rattle.json.specs.Print.{escape};
ghost use Rattle.trace_log.specs.Clock.{number_of, are_distinct};
ghost use Rattle.trace_log.specs.Names.{names_in};
ghost use Rattle.trace_log.specs.Look.{renumbered, ArePlain, LooksOn, Renumbers};
ghost use Rattle.trace_log.specs.Order.{know_each_other};
ghost use Rattle.trace_log.specs.Spelling.{clock_spelled};
ghost use Rattle.trace_log.specs.Views.{seen_clock};

use crate::event::{Member, has_name, number_at, number_of, place_of};
use crate::look::look;
use crate::members::look_at;
use crate::spelled::Spelled;
use std::marker::Model;

/// A host, and the clock of its last event.
#[derive(Drop)]
pub(crate) struct SeenHost {
    name: String,
    clock: Vec<Member>,
    /// Where the host itself stands in the clock.
    own: usize,
    /// Whether a printer spells each name of the clock as it is.
    is_plain: bool,
}

impl Model for SeenHost {
    ghost use Rattle.std.specs.Prelude.{◌≡◌, true, string_bytes};
    ghost use Rattle.trace_log.specs.Clock.{are_distinct};
    ghost use Rattle.trace_log.specs.Hosts.{Host as Seen};
    ghost use Rattle.trace_log.specs.Names.{names_in};
    ghost use Rattle.trace_log.specs.Look.{ArePlain};
    ghost use Rattle.trace_log.specs.Views.{seen_clock};

    ghost Value = { Seen };

    ghost view = { λ host. record { name = string_bytes host.name; clock = seen_clock host.clock.items } };

    ghost invariant = { λ host. (are_distinct (names_in (seen_clock host.clock.items)) ≡ true)
        × (host.is_plain ≡ true → ArePlain (seen_clock host.clock.items)) };
}

impl SeenHost {
    /// A host with this clock.
    pub fn new(name: String, clock: Vec<Member>) -> SeenHost
        requires { are_distinct (names_in (seen_clock clock.items)) ≡ true }
        ensures name { result.name ≡ string_bytes name }
        ensures clock { result.clock ≡ seen_clock clock.items }
    {
        let own = place_of(name.as_str(), &clock);
        let is_plain = are_plain(&clock);
        SeenHost {
            name,
            clock,
            own,
            is_plain,
        }
    }

    /// Its name.
    pub fn name(&self) -> &str
        ensures { result.now ≡ self.now.name }
    {
        self.name.as_str()
    }

    /// The clock of its last event.
    pub fn clock(&self) -> &[Member]
        ensures clock { seen_clock result.now ≡ self.now.clock }
        ensures distinct { are_distinct (names_in (seen_clock result.now)) ≡ true }
    {
        self.clock.as_slice()
    }

    /// Puts a clock in the place of the one before.
    pub fn put(&mut self, clock: Vec<Member>)
        requires { are_distinct (names_in (seen_clock clock.items)) ≡ true }
        ensures { self.new ≡ record self.old { clock = seen_clock clock.items } }
    {
        self.own = place_of(self.name.as_str(), &clock);
        self.is_plain = are_plain(&clock);
        self.clock = clock;
    }

    /// Reads the host's next clock at one look: its numbers, in the places of the names.
    pub fn looks(&self, spelled: Spelled<'_, '_>, next: &mut [u32]) -> bool
        ensures { IsTrue result → LooksOn self.now.name self.now.clock (clock_spelled spelled.entry) next.new }
    {
        if !looks_at(spelled, self.is_plain, self.clock.as_slice(), next) {
            return false;
        }
        rises(self.name.as_str(), self.clock.as_slice(), self.own, next)
    }

    /// Its own number among these, which stand in the places of the names of its clock. A guess may miss it.
    pub fn next_own(&self, next: &[u32]) -> Option<u32>
        ensures { length self.now.clock ≤ length next.now →
            IfSome result (λ own. own ≡ number_of self.now.name (renumbered self.now.clock next.now)) }
    {
        own_among(self.name.as_str(), self.clock.as_slice(), self.own, next)
    }

    /// Whether who knows this number of it knows its last event, and that event knows this number of another host.
    pub fn knows_back(&self, number: u32, host: &str, own: u32, place: usize) -> bool
        ensures { result ≡ know_each_other host.now own (record { name = self.now.name; number = number })
            self.now.clock }
    {
        let clock = self.clock.as_slice();
        number_by(self.name.as_str(), clock, self.own) <= number
            && own <= number_by(host, clock, place)
    }

    /// Its own number, if its clock has one. No contract rests on it.
    pub fn own(&self) -> Option<u32> {
        Some(self.clock.get(self.own)?.number)
    }

    /// Puts these numbers into its clock, in the places of the names.
    pub fn renumber(&mut self, next: &[u32])
        requires { length self.old.clock ≤ length next.now }
        ensures { self.new ≡ record self.old { clock = renumbered self.old.clock next.now } }
    {
        renumber(self.clock.as_mut_slice(), next);
    }
}

/// Whether a clock is the one before with other numbers, none of which is lower. They are put into `next`.
fn looks_at(spelled: Spelled<'_, '_>, is_plain: bool, before: &[Member], next: &mut [u32]) -> bool
    ensures { IsTrue result → Renumbers is_plain (clock_spelled spelled.entry) (seen_clock before.now) next.new }
{
    match spelled {
        Spelled::Text(text) => is_plain && look(text.as_bytes(), before, next),
        Spelled::Members(members) => look_at(members, before, next),
        Spelled::Beside(event) => is_plain && look(event.place, before, next),
    }
}

/// Whether the number of a host is greater among these, if it stands at this place of the clock.
fn rises(name: &str, clock: &[Member], own: usize, next: &[u32]) -> bool
    ensures { IsTrue result → are_distinct (names_in (seen_clock clock.now)) ≡ true →
        length (seen_clock clock.now) ≤ length next.now →
        number_of name.now (seen_clock clock.now) < number_of name.now (renumbered (seen_clock clock.now) next.now) }
{
    if own >= clock.len() || own >= next.len() {
        return false;
    }
    let member = &clock[own];
    has_name(member, name) && member.number < next[own]
}

/// The number of a host among these, if it stands at this place of the clock.
fn own_among(name: &str, clock: &[Member], own: usize, next: &[u32]) -> Option<u32>
    ensures { are_distinct (names_in (seen_clock clock.now)) ≡ true →
        length (seen_clock clock.now) ≤ length next.now →
        IfSome result (λ own. own ≡ number_of name.now (renumbered (seen_clock clock.now) next.now)) }
{
    if own >= clock.len() || own >= next.len() {
        return None;
    }
    if !has_name(&clock[own], name) {
        return None;
    }
    Some(next[own])
}

/// The number of a host in a clock in which no name stands twice. It is looked for at this place first.
pub(crate) fn number_by(host: &str, clock: &[Member], place: usize) -> u32
    ensures { are_distinct (names_in (seen_clock clock.now)) ≡ true →
        result ≡ number_of host.now (seen_clock clock.now) }
{
    match number_at(host, clock, place) {
        Some(number) => number,
        None => number_of(host, clock),
    }
}

/// Puts these numbers into a clock, in the places of the names.
fn renumber(clock: &mut [Member], numbers: &[u32])
    requires { length clock.old ≤ length numbers.now }
    ensures { seen_clock clock.new ≡ renumbered (seen_clock clock.old) numbers.now }
{
    for place in 0..clock.len() {
        clock[place].number = numbers[place];
    }
}

/// Whether a printer spells each name of a clock as it is.
fn are_plain(clock: &[Member]) -> bool
    ensures { result ≡ true → ArePlain (seen_clock clock.now) }
{
    for member in clock {
        if !is_plain(member.name.as_bytes()) {
            return false;
        }
    }
    true
}

/// Whether a printer spells a name as it is.
fn is_plain(name: &[u8]) -> bool
    ensures { result ≡ true → escape name.now ≡ name.now }
{
    for byte in name {
        if *byte < 32 || *byte == 34 || *byte == 92 {
            return false;
        }
    }
    true
}
