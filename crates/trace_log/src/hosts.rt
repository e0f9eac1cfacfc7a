//! The hosts of a log, and the clock of each one's last event.
ghost use Rattle.std.specs.Prelude.{◌≡◌, ◌<◌, ◌≤◌, ℕ, [], List, true, false, length, IfOk, IfSome, IfNone, IsTrue};
ghost use Rattle.std.specs.Prelude.{OnErr, option_copied};
ghost use Rattle.std.specs.HashMap.{get_by_text};
ghost use Rattle.trace_log.specs.Clock.{number_of, are_distinct};
ghost use Rattle.trace_log.specs.Hosts.{Host as Seen, host_at, number_among, clock_among, AreNumbered, KeepsClock};
ghost use Rattle.trace_log.specs.Hosts.{SpellsNext};
ghost use Rattle.trace_log.specs.Names.{names_in};
ghost use Rattle.trace_log.specs.Look.{renumbered};
ghost use Rattle.trace_log.specs.Order.{is_in_cycle, know_each_other};
ghost use Rattle.trace_log.specs.Spelling.{clock_spelled};
ghost use Rattle.trace_log.specs.Views.{seen_clock};

use crate::cycle::{Seat, any_next_closes_cycle};
use crate::event::Member;
use crate::host::SeenHost;
use crate::lookups::Lookups;
use crate::spelled::Spelled;
use std::alloc::{AllocError, Global};
use std::collections::HashMap;
use std::marker::Model;

/// The hosts in the order in which they first came. No two have one name: a host's number is its place.
#[derive(Drop)]
pub(crate) struct Hosts {
    numbers: HashMap<String, usize>,
    list: Vec<SeenHost>,
    lookups: Lookups,
    /// Room for the numbers of a clock that is read.
    next: Vec<u32>,
}

impl Model for Hosts {
    ghost use Rattle.std.specs.Prelude.{◌≡◌, ℕ, List};
    ghost use Rattle.std.specs.HashMap.{get_by_text};
    ghost use Rattle.trace_log.specs.Hosts.{Host as Seen, number_among, AreNumbered};

    ghost Value = { List Seen };

    ghost view = { λ hosts. hosts.list.items };

    ghost invariant = { λ hosts. ((name : List ℕ) → get_by_text hosts.numbers name ≡ number_among name hosts.list.items)
        × AreNumbered hosts.list.items };
}

impl Hosts {
    /// No host.
    pub fn new(alloc: Global) -> Hosts
        ensures { result ≡ [] }
    {
        Hosts {
            numbers: HashMap::new(alloc),
            list: Vec::new(alloc),
            lookups: Lookups::new(alloc),
            next: Vec::new(alloc),
        }
    }

    /// The number of the host with this name.
    pub fn number(&self, name: &str) -> Option<usize>
        ensures { result ≡ number_among name.now self.now }
    {
        self.numbers.get(name).copied()
    }

    /// The name of the host with this number.
    pub fn name(&self, number: usize) -> &str
        ensures { result.now ≡ (host_at self.now number).name }
    {
        match self.list.get(number) {
            Some(host) => host.name(),
            None => "",
        }
    }

    /// The clock of the host with this number.
    pub fn clock(&self, number: usize) -> &[Member]
        ensures clock { seen_clock result.now ≡ (host_at self.now number).clock }
        ensures distinct { are_distinct (names_in (seen_clock result.now)) ≡ true }
    {
        match self.list.get(number) {
            Some(host) => host.clock(),
            None => &[],
        }
    }

    /// The clock of the last event of the host with this name.
    pub fn last_clock(&self, name: &str) -> &[Member]
        ensures clock { seen_clock result.now ≡ clock_among name.now self.now }
        ensures distinct { are_distinct (names_in (seen_clock result.now)) ≡ true }
    {
        match self.number(name) {
            Some(number) => self.clock(number),
            None => &[],
        }
    }

    /// The number of the host with this name, which stands perhaps here.
    pub fn number_at(&self, name: &str, seat: Seat) -> Option<usize>
        ensures { result ≡ number_among name.now self.now }
    {
        let guess = self.lookups.number(seat.host, seat.place);
        match self.list.get(guess) {
            Some(seen) if seen.name() == name => Some(guess),
            _ => self.number(name),
        }
    }

    /// The number of the host that stands at a place of a host's clock, if it has events. No contract rests on it.
    pub fn number_here(&self, host: usize, place: usize) -> Option<usize> {
        let number = self.lookups.number(host, place);
        if number < self.list.len() {
            return Some(number);
        }
        let member = self.clock(host).get(place)?;
        self.number(member.name.as_str())
    }

    /// Whether another host has this number as its own in its last event.
    pub fn is_last(&self, other: usize, number: u32) -> bool {
        match self.list.get(other) {
            Some(seen) => seen.own() == Some(number),
            None => false,
        }
    }

    /// How many there are.
    pub fn count(&self) -> usize {
        self.list.len()
    }

    /// Whether who knows this number of the host with a number knows its last event, and that event knows this number
    /// of another host, which has perhaps this number among the hosts.
    pub fn knows_back(&self, other: usize, number: u32, host: &str, own: u32, guess: usize) -> bool
        ensures { result ≡ know_each_other host.now own
            (record { name = (host_at self.now other).name; number = number }) (host_at self.now other).clock }
    {
        match self.list.get(other) {
            Some(seen) => seen.knows_back(number, host, own, self.lookups.place(other, guess)),
            None => own == 0,
        }
    }

    /// Whether the event of a host with these numbers in its next clock may close a cycle with another's last event.
    fn next_may_cycle(&self, number: usize, next: &[u32]) -> bool
        ensures { result ≡ false → length (host_at self.now number).clock ≤ length next.now →
            clock_among (host_at self.now number).name self.now ≡ (host_at self.now number).clock →
            is_in_cycle (λ name. clock_among name self.now) (host_at self.now number).name
            (renumbered (host_at self.now number).clock next.now) ≡ false }
    {
        let Some(seen) = self.list.get(number) else {
            return true;
        };
        let Some(own) = seen.next_own(next) else {
            return true;
        };
        any_next_closes_cycle(self, seen.name(), number, own, seen.clock(), next)
    }

    /// Reads the host's next clock at one look: the host's number, where the clock is spelled so and may follow.
    pub fn follow(&mut self, name: &str, spelled: Spelled<'_, '_>) -> Option<usize>
        ensures none { IfNone result (self.new ≡ self.old) }
        ensures some { IfSome result (λ number. (clock : _)
            × SpellsNext self.old name.now (clock_spelled spelled.entry) clock
            × KeepsClock self.old name.now clock number self.new) }
    {
        let number = self.number(name)?;
        self.lookups
            .look_up(number, self.list.as_slice(), &self.numbers);
        if !self.list[number].looks(spelled, self.next.as_mut_slice()) {
            return None;
        }
        if self.next_may_cycle(number, self.next.as_slice()) {
            return None;
        }
        self.list[number].renumber(self.next.as_slice());
        Some(number)
    }

    /// Keeps the clock of a host in the place of the one before.
    pub fn keep(
        &mut self,
        alloc: Global,
        name: &str,
        clock: Vec<Member>,
    ) -> Result<usize, AllocError>
        requires { are_distinct (names_in (seen_clock clock.items)) ≡ true }
        ensures kept { IfOk result (λ number.
            KeepsClock self.old name.now (seen_clock clock.items) number self.new) }
        ensures err { OnErr result (self.new ≡ self.old) }
    {
        self.make_room(clock.len())?;
        match self.number(name) {
            Some(number) => {
                self.list[number].put(clock);
                self.lookups.forget(number);
                Ok(number)
            }
            None => self.add(alloc, name, clock),
        }
    }

    /// Makes room for so many numbers.
    fn make_room(&mut self, count: usize) -> Result<(), AllocError>
        ensures { self.new ≡ self.old }
    {
        if self.next.len() < count {
            self.next.resize(count, 0)?;
        }
        Ok(())
    }

    /// Adds a host.
    fn add(&mut self, alloc: Global, name: &str, clock: Vec<Member>) -> Result<usize, AllocError>
        requires new { number_among name.now self.old ≡ None }
        requires distinct { are_distinct (names_in (seen_clock clock.items)) ≡ true }
        ensures kept { IfOk result (λ number.
            KeepsClock self.old name.now (seen_clock clock.items) number self.new) }
        ensures err { OnErr result (self.new ≡ self.old) }
    {
        let number = self.list.len();
        let host = SeenHost::new(String::from_str(alloc, name)?, clock);
        let name = String::from_str(alloc, name)?;
        self.list.reserve(1)?;
        self.numbers.insert(name, number)?;
        self.list.push_reserved(host);
        Ok(number)
    }
}
