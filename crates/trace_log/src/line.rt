ghost use Rattle.std.specs.Prelude.{◌≡◌, ◌≢◌, Ok, Err, true, option_map, string_bytes};
ghost use Rattle.std.specs.Prelude.{IfNone, IfOk, IfSome, MatchResult, OnOk, OnErr};
ghost use Rattle.json.specs.Value.{value_view};
ghost use Rattle.trace_log.specs.declared.fault.LogFaultKind.TheVariants.{Text};
ghost use Rattle.trace_log.specs.declared.fault.LineFault.TheVariants.{Has, Memory};
ghost use Rattle.trace_log.specs.Clock.{has_distinct_names};
ghost use Rattle.trace_log.specs.Event.{clock_in, text_in, text_at};
ghost use Rattle.trace_log.specs.Log.{event_after};
ghost use Rattle.trace_log.specs.Hosts.{KeepsClock, KeepsLast, SpellsNext};
ghost use Rattle.trace_log.specs.Kept.{event_of_json, have_distinct_names, stamp_of_value, KeepsEvent, KeepsStamp};

use crate::clock::clock_in;
use crate::fault::{LineFault, LogFaultKind, ask};
use crate::hosts::Hosts;
use crate::plain_event::plain_event;
use crate::spelled::Spelled;
use crate::stamp::clock_kept;
use json::{Error, Scratch, Value};
use std::alloc::{AllocError, Global};

/// The most bytes of a line.
pub const MAX_LINE: usize = 65_536;

/// The number of the host of the event that a line spells, in one JSON object. Its clock is kept, and its text put into
/// the place of the one before.
#[tactic(auto, unfolding(crate::specs::Event::event_in))]
pub(crate) fn event_kept(
    alloc: Global,
    hosts: &mut Hosts,
    said: &mut String,
    scratch: &mut Scratch,
    line: &[u8],
) -> Result<usize, LineFault>
    ensures event { (earlier : _) → KeepsLast hosts.old earlier →
        KeepsEvent earlier (event_after earlier line.now) result hosts.new (string_bytes said.new) }
    ensures err { OnErr result (hosts.new ≡ hosts.old) }
{
    let text = text_in(line)?;
    if let Some(number) = plain_kept(hosts, said, line)? {
        return Ok(number);
    }
    document_kept(alloc, hosts, said, scratch, text)
}

/// The same where the line is spelled plainly, the names of its clock stand as before and it may follow.
fn plain_kept(
    hosts: &mut Hosts,
    said: &mut String,
    line: &[u8],
) -> Result<Option<usize>, AllocError>
    ensures none { IfOk result (λ found. IfNone found (hosts.new ≡ hosts.old)) }
    ensures some { IfOk result (λ found. IfSome found (λ number. (earlier : _) → text_in line.now ≡ Ok line.now →
        KeepsLast hosts.old earlier →
        KeepsEvent earlier (event_after earlier line.now) (Ok number) hosts.new (string_bytes said.new))) }
    ensures err { OnErr result (hosts.new ≡ hosts.old) }
{
    let Some(event) = plain_event(line) else {
        return Ok(None);
    };
    put(said, event.text)?;
    Ok(hosts.follow(event.host, Spelled::Beside(event)))
}

/// The same of the text that a line is, however it is spelled.
#[tactic(auto, unfolding(crate::specs::Event::event_in), using(crate::proofs::Distinct::tells_names))]
fn document_kept(
    alloc: Global,
    hosts: &mut Hosts,
    said: &mut String,
    scratch: &mut Scratch,
    text: &str,
) -> Result<usize, LineFault>
    ensures event { (earlier : _) (line : _) → text_in line ≡ Ok text.now → KeepsLast hosts.old earlier →
        KeepsEvent earlier (event_after earlier line) result hosts.new (string_bytes said.new) }
    ensures err { OnErr result (hosts.new ≡ hosts.old) }
{
    let error = match Value::parse_strict(alloc, text, scratch) {
        Ok(value) => return json_kept(alloc, hosts, said, true, &value),
        Err(error) => error,
    };
    if error != Error::DuplicateKey {
        return Err(fault_of(error));
    }
    match Value::parse(alloc, text, scratch) {
        Ok(value) => json_kept(alloc, hosts, said, false, &value),
        Err(error) => Err(fault_of(error)),
    }
}

/// The text that a line is: at most so many bytes, in UTF-8.
#[tactic(auto, using(crate::proofs::Texts::utf8_passes, crate::proofs::Texts::not_utf8))]
pub(crate) fn text_in(line: &[u8]) -> Result<&str, LogFaultKind>
    ensures { MatchResult result (λ text. text_in line.now ≡ Ok text.now) (λ kind. text_in line.now ≡ Err kind) }
{
    ask(line.len() <= MAX_LINE, LogFaultKind::Long)?;
    match str::from_utf8(line) {
        Ok(text) => Ok(text),
        Err(_) => Err(LogFaultKind::Text),
    }
}

/// Puts a text into the place of another.
pub(crate) fn put(said: &mut String, text: &str) -> Result<(), AllocError>
    ensures { OnOk result (string_bytes said.new ≡ text.now) }
{
    said.clear();
    said.push_str(text)?;
    Ok(())
}

/// The same of the event in one JSON object, by whether no name stands in it twice.
#[tactic(auto, unfolding(crate::specs::Event::event_in_json))]
fn json_kept(
    alloc: Global,
    hosts: &mut Hosts,
    said: &mut String,
    distinct: bool,
    value: &Value<'_>,
) -> Result<usize, LineFault>
    requires { distinct ≡ true → has_distinct_names (value_view value.now) ≡ true }
    ensures event { (earlier : _) → KeepsLast hosts.old earlier →
        KeepsEvent earlier (event_of_json earlier distinct (value_view value.now)) result hosts.new
        (string_bytes said.new) }
    ensures err { OnErr result (hosts.new ≡ hosts.old) }
{
    let Some(host) = text_at(value, "host") else {
        return Err(LineFault::Has(LogFaultKind::Text));
    };
    let Some(text) = text_at(value, "event") else {
        return Err(LineFault::Has(LogFaultKind::Text));
    };
    ask(distinct, LogFaultKind::Clock)?;
    put(said, text)?;
    value_kept(alloc, hosts, host, value.get("clock"))
}

/// The number of a host with the clock that a value is, which is kept if it may follow.
fn value_kept(
    alloc: Global,
    hosts: &mut Hosts,
    host: &str,
    value: Option<&Value<'_>>,
) -> Result<usize, LineFault>
    requires { have_distinct_names (option_map (λ value. value_view value.now) value) ≡ true }
    ensures stamp { (earlier : _) → KeepsLast hosts.old earlier → KeepsStamp earlier
        (stamp_of_value earlier host.now (option_map (λ value. value_view value.now) value.entry)) result hosts.new }
    ensures err { OnErr result (hosts.new ≡ hosts.old) }
{
    if let Some(object) = value {
        if let Some(number) = value_followed(hosts, host, object) {
            return Ok(number);
        }
    }
    let clock = clock_in(alloc, value)?;
    clock_kept(alloc, hosts, host, clock)
}

/// The number of a host with the clock that a value is, where its names stand as before and it may follow: it is kept.
fn value_followed(hosts: &mut Hosts, host: &str, value: &Value<'_>) -> Option<usize>
    ensures none { IfNone result (hosts.new ≡ hosts.old) }
    ensures some { IfSome result (λ number. (clock : _) ×
        SpellsNext hosts.old host.now (clock_in (Some (value_view value.now))) clock ×
        KeepsClock hosts.old host.now clock number hosts.new) }
{
    match value {
        Value::Object(members) => hosts.follow(host, Spelled::Members(members.as_slice())),
        _ => None,
    }
}

/// The text of a member of an object.
fn text_at<'a>(value: &Value<'a>, name: &str) -> Option<&'a str>
    ensures { option_map (λ text. text.now) result ≡ text_at name.now (value_view value.now) }
{
    value.get(name)?.as_str()
}

/// What it means for a line that it wasn't read as JSON.
fn fault_of(error: Error) -> LineFault
    ensures memory { error ≡ Error.OutOfMemory → result ≡ Memory }
    ensures other { error ≢ Error.OutOfMemory → result ≡ Has Text }
{
    match error {
        Error::OutOfMemory => LineFault::Memory,
        _ => LineFault::Has(LogFaultKind::Text),
    }
}
