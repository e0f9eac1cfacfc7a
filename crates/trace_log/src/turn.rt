ghost use Rattle.std.specs.Prelude.{◌≡◌, ℕ, option_map, string_bytes, OnErr, OnOk};
ghost use Rattle.trace_log.specs.Log.{place_of, stamped, texted};
ghost use Rattle.trace_log.specs.Hosts.{KeepsLast};
ghost use Rattle.trace_log.specs.Turns.{seen_half, seen_halves, with_half, IsTurnAt, IsTurnOf};
ghost use Rattle.trace_log.specs.Kept.{stamp_at};

use crate::fault::{LineFault, LogFaultKind, ask};
use crate::hosts::Hosts;
use crate::line::{MAX_LINE, event_kept, put, text_in};
use crate::numbered::{LineSays, number_said, numbered_in};
use crate::stamp::stamp_kept;
use json::Scratch;
use std::alloc::Global;

/// How a log spells its events.
#[derive(Clone, Copy, Debug, PartialEq, Eq)]
pub enum LogLayout {
    /// A line for each event: a JSON object with `host`, `clock` and `event`.
    Lines,
    /// Two lines for each event: its host and its clock, and then its text.
    Shiviz,
    /// Two lines for each event: its text, and then its host and its clock.
    ShivizReversed,
    /// A line for each event or fault, said of the line with a number: `NUMBER JSON`, where the JSON object is as in
    /// `Lines`, or `NUMBER!KIND WORDS`. Events and faults are those of the lines with these numbers.
    Numbered,
}

/// The form of a log, and which of its lines are read.
#[derive(Clone, Copy, Debug, PartialEq, Eq)]
pub struct Form {
    pub layout: LogLayout,
    /// The first line that is read, counted from 1. Those before it say nothing.
    pub first: u64,
    /// The last line that is read, where there is one: the log ends behind it.
    pub last: Option<u64>,
    /// Whether an event that forgets is a fault.
    pub check: bool,
}

impl LogLayout {
    /// The form of a log of which all lines are read.
    pub fn whole(self) -> Form {
        Form {
            layout: self,
            first: 1,
            last: None,
            check: false,
        }
    }
}

/// The number of the line of which a line speaks: its own, by the lines so far, unless it names another.
pub(crate) fn place_of(layout: LogLayout, at: u64, line: &[u8]) -> u64
    ensures { result ≡ place_of layout at line.now }
{
    match layout {
        LogLayout::Numbered => number_said(at, line),
        _ => at,
    }
}

/// What the first of an event's two lines says.
#[derive(Clone, Copy, Debug)]
pub(crate) enum Half {
    /// The host with this number and its clock, which is the one that is kept of it.
    Stamped(usize),
    /// The text that is kept, with its line.
    Texted(u64),
}

/// An event that a line ended: the line of its text, and its host's number. Its clock is the one that is kept of the
/// host, and its text the one that is kept.
#[derive(Clone, Copy, Debug)]
pub(crate) struct Ended {
    pub line: u64,
    pub host: usize,
}

/// What one line more says: the half that waits for the next line, and the event if the line ended one.
#[derive(Clone, Copy, Debug)]
pub(crate) struct Turned {
    pub half: Option<Half>,
    pub ended: Option<Ended>,
}

/// What is kept of the lines so far: the hosts with their clocks, and a text.
#[derive(Drop)]
pub(crate) struct Kept {
    pub alloc: Global,
    pub hosts: Hosts,
    pub text: String,
    pub scratch: Scratch,
}

impl Kept {
    /// What the line of this number says: nothing before the first that is read. Where it has a fault or memory runs
    /// out, all is as before.
    pub fn turn(
        &mut self,
        form: Form,
        half: Option<Half>,
        at: u64,
        line: &[u8],
    ) -> Result<Turned, LineFault>
        ensures turn { (earlier : _) → KeepsLast self.old.hosts (with_half earlier (seen_halves self.old half)) →
            IsTurnAt form (seen_halves self.old half) earlier at line.now result self.new }
        ensures hosts { OnErr result (self.new.hosts ≡ self.old.hosts) }
        ensures waits { OnErr result (seen_halves self.new half ≡ seen_halves self.old half) }
    {
        if at < form.first {
            ask(line.len() <= MAX_LINE, LogFaultKind::Long)?;
            return Ok(Turned { half, ended: None });
        }
        self.turn_of(form.layout, half, at, line)
    }

    /// The same of a line that is read.
    fn turn_of(
        &mut self,
        layout: LogLayout,
        half: Option<Half>,
        at: u64,
        line: &[u8],
    ) -> Result<Turned, LineFault>
        ensures turn { (earlier : _) → KeepsLast self.old.hosts (with_half earlier (seen_halves self.old half)) →
            IsTurnOf layout (seen_halves self.old half) earlier at line.now result self.new }
        ensures hosts { OnErr result (self.new.hosts ≡ self.old.hosts) }
        ensures waits { OnErr result (seen_halves self.new half ≡ seen_halves self.old half) }
    {
        match half {
            None => self.first_turn(layout, at, line),
            Some(Half::Stamped(host)) => self.text_turn(host, at, line),
            Some(Half::Texted(before)) => self.stamp_turn(before, line),
        }
    }

    /// The same where the host with this number and its clock wait for the text.
    fn text_turn(&mut self, host: usize, at: u64, line: &[u8]) -> Result<Turned, LineFault>
        ensures turn { (layout : _) (earlier : _) →
            KeepsLast self.old.hosts (with_half earlier (Some (stamped (stamp_at self.old.hosts host)))) →
            IsTurnOf layout (Some (stamped (stamp_at self.old.hosts host))) earlier at line.now result self.new }
        ensures hosts { self.new.hosts ≡ self.old.hosts }
    {
        let text = text_in(line)?;
        put(&mut self.text, text)?;
        Ok(Turned {
            half: None,
            ended: Some(Ended { line: at, host }),
        })
    }

    /// The same where the text, with its line, waits for the host and the clock.
    fn stamp_turn(&mut self, before: u64, line: &[u8]) -> Result<Turned, LineFault>
        ensures turn { (layout : _) (earlier : _) (at : ℕ) → KeepsLast self.old.hosts earlier →
            IsTurnOf layout (Some (texted before (string_bytes self.old.text))) earlier at line.now result self.new }
        ensures hosts { OnErr result (self.new.hosts ≡ self.old.hosts) }
        ensures text { string_bytes self.new.text ≡ string_bytes self.old.text }
    {
        let host = stamp_kept(self.alloc, &mut self.hosts, &mut self.scratch, line)?;
        Ok(Turned {
            half: None,
            ended: Some(Ended { line: before, host }),
        })
    }

    /// The same where no half waits.
    fn first_turn(&mut self, layout: LogLayout, at: u64, line: &[u8]) -> Result<Turned, LineFault>
        ensures turn { (earlier : _) → KeepsLast self.old.hosts earlier →
            IsTurnOf layout None earlier at line.now result self.new }
        ensures hosts { OnErr result (self.new.hosts ≡ self.old.hosts) }
    {
        match layout {
            LogLayout::Lines => self.event_turn(at, line),
            LogLayout::Shiviz => self.half_turn(line),
            LogLayout::ShivizReversed => self.text_first(at, line),
            LogLayout::Numbered => self.numbered_turn(line),
        }
    }

    /// The same where the line is a whole event.
    fn event_turn(&mut self, at: u64, line: &[u8]) -> Result<Turned, LineFault>
        ensures turn { (earlier : _) → KeepsLast self.old.hosts earlier →
            IsTurnOf LogLayout.Lines None earlier at line.now result self.new }
        ensures hosts { OnErr result (self.new.hosts ≡ self.old.hosts) }
    {
        let host = event_kept(
            self.alloc,
            &mut self.hosts,
            &mut self.text,
            &mut self.scratch,
            line,
        )?;
        Ok(Turned {
            half: None,
            ended: Some(Ended { line: at, host }),
        })
    }

    /// The same where the line says what the line with a number says.
    fn numbered_turn(&mut self, line: &[u8]) -> Result<Turned, LineFault>
        ensures turn { (earlier : _) (at : ℕ) → KeepsLast self.old.hosts earlier →
            IsTurnOf LogLayout.Numbered None earlier at line.now result self.new }
        ensures hosts { OnErr result (self.new.hosts ≡ self.old.hosts) }
    {
        let one = numbered_in(line)?;
        match one.says {
            LineSays::Event(text) => self.event_turn(one.number, text.as_bytes()),
            LineSays::Fault(kind, _) => Err(LineFault::Has(kind)),
        }
    }

    /// The same where the host and the clock come first.
    fn half_turn(&mut self, line: &[u8]) -> Result<Turned, LineFault>
        ensures turn { (earlier : _) (at : ℕ) → KeepsLast self.old.hosts earlier →
            IsTurnOf LogLayout.Shiviz None earlier at line.now result self.new }
        ensures hosts { OnErr result (self.new.hosts ≡ self.old.hosts) }
    {
        let host = stamp_kept(self.alloc, &mut self.hosts, &mut self.scratch, line)?;
        Ok(Turned {
            half: Some(Half::Stamped(host)),
            ended: None,
        })
    }

    /// The same where the text comes first.
    fn text_first(&mut self, at: u64, line: &[u8]) -> Result<Turned, LineFault>
        ensures turn { (earlier : _) → KeepsLast self.old.hosts earlier →
            IsTurnOf LogLayout.ShivizReversed None earlier at line.now result self.new }
        ensures hosts { self.new.hosts ≡ self.old.hosts }
    {
        let text = text_in(line)?;
        put(&mut self.text, text)?;
        Ok(Turned {
            half: Some(Half::Texted(at)),
            ended: None,
        })
    }
}
