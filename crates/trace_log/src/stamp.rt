ghost use Rattle.std.specs.Prelude.{◌≡◌, Ok, Err, true, not, MatchOption, OnErr};
ghost use Rattle.trace_log.specs.declared.fault.LogFaultKind.TheVariants.{Cycle, Text};
ghost use Rattle.trace_log.specs.Judgement.{Gives, ask};
ghost use Rattle.trace_log.specs.Clock.{are_distinct};
ghost use Rattle.trace_log.specs.Event.{host_and_rest, clock_in_text, own_in};
ghost use Rattle.trace_log.specs.Log.{stamp_after};
ghost use Rattle.trace_log.specs.Hosts.{KeepsLast, clock_among};
ghost use Rattle.trace_log.specs.Names.{names_in};
ghost use Rattle.trace_log.specs.Order.{is_in_cycle};
ghost use Rattle.trace_log.specs.Kept.{stamp_of, stamp_of_text, KeepsStamp};
ghost use Rattle.trace_log.specs.Views.{seen_clock};

use crate::clock::clock_in;
use crate::cycle::any_closes_cycle;
use crate::event::{Member, number_of};
use crate::fault::{LineFault, LogFaultKind, ask};
use crate::hosts::Hosts;
use crate::line::text_in;
use crate::order::judge;
use crate::spelled::Spelled;
use json::{Error, Scratch, Value};
use std::alloc::Global;

/// The number of the host that a line spells, with its clock. The clock is kept.
pub(crate) fn stamp_kept(
    alloc: Global,
    hosts: &mut Hosts,
    scratch: &mut Scratch,
    line: &[u8],
) -> Result<usize, LineFault>
    ensures stamp { (earlier : _) → KeepsLast hosts.old earlier →
        KeepsStamp earlier (stamp_after earlier line.now) result hosts.new }
    ensures err { OnErr result (hosts.new ≡ hosts.old) }
{
    let text = match text_in(line) {
        Ok(text) => text,
        Err(kind) => return Err(LineFault::Has(kind)),
    };
    let Some((host, rest)) = split_host(text) else {
        return Err(LineFault::Has(LogFaultKind::Text));
    };
    parts_kept(alloc, hosts, scratch, host, rest)
}

/// The same, by the two parts of the line.
fn parts_kept(
    alloc: Global,
    hosts: &mut Hosts,
    scratch: &mut Scratch,
    host: &str,
    text: &str,
) -> Result<usize, LineFault>
    ensures stamp { (earlier : _) → KeepsLast hosts.old earlier →
        KeepsStamp earlier (stamp_of_text earlier host.now text.now) result hosts.new }
    ensures err { OnErr result (hosts.new ≡ hosts.old) }
{
    match hosts.follow(host, Spelled::Text(text)) {
        Some(number) => Ok(number),
        None => text_kept(alloc, hosts, scratch, host, text),
    }
}

/// The same where the clock is read as JSON, however it is spelled.
fn text_kept(
    alloc: Global,
    hosts: &mut Hosts,
    scratch: &mut Scratch,
    host: &str,
    text: &str,
) -> Result<usize, LineFault>
    ensures stamp { (earlier : _) → KeepsLast hosts.old earlier →
        KeepsStamp earlier (stamp_of_text earlier host.now text.now) result hosts.new }
    ensures err { OnErr result (hosts.new ≡ hosts.old) }
{
    let clock = clock_in_text(alloc, scratch, text)?;
    clock_kept(alloc, hosts, host, clock)
}

/// The number of a host with its next clock, which is kept if it may follow.
pub(crate) fn clock_kept(
    alloc: Global,
    hosts: &mut Hosts,
    host: &str,
    clock: Vec<Member>,
) -> Result<usize, LineFault>
    requires { are_distinct (names_in (seen_clock clock.items)) ≡ true }
    ensures stamp { (earlier : _) → KeepsLast hosts.old earlier →
        KeepsStamp earlier (stamp_of earlier host.now (seen_clock clock.items)) result hosts.new }
    ensures err { OnErr result (hosts.new ≡ hosts.old) }
{
    own_in(host, clock.as_slice())?;
    judge(alloc, host, hosts.last_clock(host), clock.as_slice())?;
    in_no_cycle(hosts, host, clock.as_slice())?;
    let number = hosts.keep(alloc, host, clock)?;
    Ok(number)
}

/// Whether the host's own number is in its clock.
fn own_in(host: &str, clock: &[Member]) -> Result<(), LogFaultKind>
    ensures { result ≡ own_in host.now (seen_clock clock.now) }
{
    ask(number_of(host, clock) > 0, LogFaultKind::Own)
}

/// Whether the event of a host with this clock is in no cycle with another's last event.
fn in_no_cycle(hosts: &Hosts, host: &str, clock: &[Member]) -> Result<(), LogFaultKind>
    ensures { result ≡ ask (not (is_in_cycle (λ name. clock_among name hosts.now) host.now (seen_clock clock.now)))
        Cycle }
{
    ask(
        !any_closes_cycle(hosts, host, number_of(host, clock), clock),
        LogFaultKind::Cycle,
    )
}

/// What stands before the first space of a text, and what stands after it.
#[tactic(auto, using(crate::proofs::Texts::cut_once))]
fn split_host(text: &str) -> Option<(&str, &str)>
    ensures { MatchOption result
        (host_and_rest text.now ≡ Err Text) (λ parts. host_and_rest text.now ≡ Ok (parts.0.now, parts.1.now)) }
{
    text.split_once(' ')
}

/// The clock that a text is.
#[tactic(auto, unfolding(crate::specs::Event::clock_in_text), using(crate::proofs::Distinct::tells_names))]
fn clock_in_text(alloc: Global, scratch: &mut Scratch, text: &str) -> Result<Vec<Member>, LineFault>
    ensures { Gives (λ clock. seen_clock clock.items) result (clock_in_text text.now) }
{
    match Value::parse_strict(alloc, text, scratch) {
        Ok(value) => clock_in(alloc, Some(&value)),
        Err(Error::OutOfMemory) => Err(LineFault::Memory),
        Err(_) => Err(LineFault::Has(LogFaultKind::Clock)),
    }
}
