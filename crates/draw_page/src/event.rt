//! The events of a page.
ghost use Rattle.std.specs.Prelude.{◌++◌, OnOk};
ghost use Rattle.draw_page.specs.Adding.{Adds};
ghost use Rattle.draw_page.specs.Events.{clock_tokens, entry_tokens, event_flags, event_place, event_tokens, flag_tokens};

use crate::data::{put_count, put_text};
use json::Writer;
use std::alloc::AllocError;

/// An event, or a task of a process.
#[derive(Debug, Drop)]
pub struct PageEvent {
    /// The place of its host among the hosts.
    pub host: usize,
    /// The line that it stands in, counted from 1.
    pub line: u64,
    pub text: String,
    /// Its clock: an entry for each host of which it knows an event.
    pub clock: Vec<ClockEntry>,
    /// Whether the condition of its host holds at it.
    pub holds: bool,
    /// Whether it is a member of the moment that comes before the first event of those that stand together.
    pub far: bool,
}

/// The number of a host in a clock.
#[derive(Clone, Copy, Debug)]
pub struct ClockEntry {
    pub host: usize,
    pub number: u64,
}

/// Writes an event.
pub(crate) fn put_event(out: &mut Writer, event: &PageEvent) -> Result<(), AllocError>
    ensures { OnOk result (Adds out.old out.new (event_tokens event.now)) }
{
    out.begin_object()?;
    put_place(out, event)?;
    put_clock(out, &event.clock)?;
    put_flags(out, event)?;
    out.end_object()
}

/// Writes the host of an event, and where in the log or the workload it stands.
fn put_place(out: &mut Writer, event: &PageEvent) -> Result<(), AllocError>
    ensures { OnOk result (Adds out.old out.new (event_place event.now)) }
{
    put_count(out, "host", event.host as u64)?;
    put_count(out, "line", event.line)?;
    put_text(out, "text", event.text.as_str())
}

/// Writes the flags of an event.
fn put_flags(out: &mut Writer, event: &PageEvent) -> Result<(), AllocError>
    ensures { OnOk result (Adds out.old out.new (event_flags event.now)) }
{
    put_flag(out, "holds", event.holds)?;
    put_flag(out, "far", event.far)
}

/// Writes a clock.
fn put_clock(out: &mut Writer, clock: &[ClockEntry]) -> Result<(), AllocError>
    ensures { OnOk result (Adds out.old out.new (clock_tokens clock.now)) }
{
    out.key("clock")?;
    out.begin_array()?;
    for entry in clock {
        put_entry(out, *entry)?;
    }
    out.end_array()
}

/// Writes the number of a host in a clock.
fn put_entry(out: &mut Writer, entry: ClockEntry) -> Result<(), AllocError>
    ensures { OnOk result (Adds out.old out.new (entry_tokens entry)) }
{
    out.begin_array()?;
    out.u64(entry.host as u64)?;
    out.u64(entry.number)?;
    out.end_array()
}

/// Writes a member that stands only where it's true.
fn put_flag(out: &mut Writer, name: &str, is_set: bool) -> Result<(), AllocError>
    ensures { OnOk result (Adds out.old out.new (flag_tokens name.now is_set)) }
{
    if !is_set {
        return Ok(());
    }
    out.key(name)?;
    out.boolean(true)
}
