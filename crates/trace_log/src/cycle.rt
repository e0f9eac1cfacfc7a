//! Whether an event closes a cycle: it and the last event of another host know each other.
ghost use Rattle.std.specs.Prelude.{◌≡◌, ◌≤◌, ◌&&◌, length, false, nat_lt, true};
ghost use Rattle.trace_log.specs.Clock.{are_distinct};
ghost use Rattle.trace_log.specs.Hosts.{clock_among};
ghost use Rattle.trace_log.specs.Look.{renumbered};
ghost use Rattle.trace_log.specs.Names.{names_in};
ghost use Rattle.trace_log.specs.Order.{any_closes_cycle, know_each_other};
ghost use Rattle.trace_log.specs.Views.{seen_clock};

use crate::event::Member;
use crate::host::number_by;
use crate::hosts::Hosts;

/// Where a host's name stands perhaps: at a place of the clock of the host with a number.
#[derive(Clone, Copy)]
pub(crate) struct Seat {
    pub host: usize,
    pub place: usize,
}

impl Seat {
    /// Nothing is known of where it stands.
    pub fn unknown() -> Seat {
        Seat {
            host: usize::MAX,
            place: 0,
        }
    }
}

/// Whether an event of a host, with this number of its own and this clock, closes a cycle with the last event of
/// another host.
pub(crate) fn any_closes_cycle(hosts: &Hosts, host: &str, own: u32, clock: &[Member]) -> bool
    ensures { result ≡ any_closes_cycle (λ name. clock_among name hosts.now) host.now own (seen_clock clock.now) }
{
    let earlier = hosts.last_clock(host);
    let here = hosts.number(host).unwrap_or(usize::MAX);
    for place in 0..clock.len() {
        let one = &clock[place];
        let before = number_by(one.name.as_str(), earlier, place);
        let seat = Seat { host: here, place };
        if closes_cycle(
            hosts,
            host,
            own,
            before,
            one.name.as_str(),
            one.number,
            seat,
        ) {
            return true;
        }
    }
    false
}

/// The same of the host with a number, whose last event has this clock, with these numbers in the places of the names.
/// `true` also where some are missing.
pub(crate) fn any_next_closes_cycle(
    hosts: &Hosts,
    host: &str,
    here: usize,
    own: u32,
    clock: &[Member],
    next: &[u32],
) -> bool
    ensures { result ≡ false → clock_among host.now hosts.now ≡ seen_clock clock.now →
        any_closes_cycle (λ name. clock_among name hosts.now) host.now own
        (renumbered (seen_clock clock.now) next.now) ≡ false }
{
    if next.len() < clock.len() {
        return true;
    }
    for place in 0..clock.len() {
        let one = &clock[place];
        let seat = Seat { host: here, place };
        if closes_cycle(
            hosts,
            host,
            own,
            one.number,
            one.name.as_str(),
            next[place],
            seat,
        ) {
            return true;
        }
    }
    false
}

/// Whether a number of another host rises above the one before, and its last event knows this number of the host.
fn closes_cycle(
    hosts: &Hosts,
    host: &str,
    own: u32,
    before: u32,
    name: &str,
    number: u32,
    seat: Seat,
) -> bool
    ensures { result ≡ (nat_lt before number && know_each_other host.now own
        (record { name = name.now; number = number }) (clock_among name.now hosts.now)) }
{
    before < number && knows_back(hosts, host, own, name, number, seat)
}

/// Whether who knows this number of the host with a name knows its last event, and that event knows this number of
/// another host.
pub(crate) fn knows_back(
    hosts: &Hosts,
    host: &str,
    own: u32,
    name: &str,
    number: u32,
    seat: Seat,
) -> bool
    ensures { result ≡ know_each_other host.now own (record { name = name.now; number = number })
        (clock_among name.now hosts.now) }
{
    match hosts.number_at(name, seat) {
        Some(other) => hosts.knows_back(other, number, host, own, seat.host),
        None => own == 0,
    }
}
