ghost use Rattle.std.specs.Prelude.{◌≡◌, ◌+◌, IfOk, IfSome, option_map, true};
ghost use Rattle.trace_log.specs.Log.{SoFar, no_lines, end_of};
ghost use Rattle.trace_log.specs.Hosts.{host_at};
ghost use Rattle.trace_log.specs.State.{HasRead, ReadsLine, fault_at, is_over, last_event, lines_left};
ghost use Rattle.trace_log.specs.Turns.{seen_ended, seen_logged};

use crate::detail::FaultDetail;
use crate::event::{Event, Logged};
use crate::explain::{Explainer, Part};
use crate::fault::{LineFault, LogFault, LogFaultKind, LogReadFault};
use crate::forgotten::Forgotten;
use crate::hosts::Hosts;
use crate::marks::Marks;
use crate::turn::{Ended, Form, Half, Kept, LogLayout, place_of};
use json::Scratch;
use std::alloc::Global;

/// A log that is being read, line after line.
#[derive(Drop)]
pub struct Log {
    form: Form,
    lines: u64,
    half: Option<Half>,
    ended: Option<Ended>,
    kept: Kept,
    /// The line of the last event of each host, as far as memory was there. No contract rests on it.
    marks: Marks,
}

impl Log {
    /// A log of this form, before its first line.
    pub fn new(alloc: Global, form: Form) -> Log
        ensures { HasRead form no_lines result }
    {
        Log {
            form,
            lines: 0,
            half: None,
            ended: None,
            kept: Kept {
                alloc,
                hosts: Hosts::new(alloc),
                text: String::new(alloc),
                scratch: Scratch::new(alloc),
            },
            marks: Marks::new(alloc),
        }
    }

    /// Reads one line more, given without its LF. `true`: it ended an event, which `event` gives. After an `Err` the
    /// log is as before.
    pub fn read(&mut self, line: &[u8]) -> Result<bool, LogReadFault>
        ensures reads { (form : _) (so_far : SoFar) → HasRead form so_far self.old →
            ReadsLine form so_far line.now result self.new }
        ensures counts { IfOk result (λ _. lines_left self.old ≡ lines_left self.new + 1) }
    {
        self.ended = None;
        if self.lines == u64::MAX {
            return Err(LogReadFault::Log(LogFault {
                line: u64::MAX,
                kind: LogFaultKind::Many,
                detail: FaultDetail::new(None),
            }));
        }
        let at = self.lines + 1;
        match self.kept.turn(self.form, self.half, at, line) {
            Ok(turned) => {
                self.lines = at;
                self.half = turned.half;
                self.ended = turned.ended;
                self.marks.mark(turned.ended, &self.kept.hosts);
                Ok(self.ended.is_some())
            }
            Err(fault) => {
                let place = place_of(self.form.layout, at, line);
                Err(self.fault_at(place, fault, line))
            }
        }
    }

    /// Whether the last line that is read was read.
    pub fn is_over(&self) -> bool
        ensures { result ≡ is_over self.now }
    {
        match self.form.last {
            Some(last) => last <= self.lines,
            None => false,
        }
    }

    /// The event that the last line ended, if it ended one.
    pub fn event(&self) -> Option<Logged<'_>>
        ensures { option_map seen_logged result ≡ last_event self.now }
    {
        match self.ended {
            Some(ended) => Some(self.logged(ended)),
            None => None,
        }
    }

    /// An event that a line ended.
    fn logged(&self, ended: Ended) -> Logged<'_>
        ensures { seen_logged result ≡ seen_ended self.now.kept ended }
    {
        Logged {
            line: ended.line,
            forgets: self.marks.forgotten(),
            event: Event {
                host: self.kept.hosts.name(ended.host),
                clock: self.kept.hosts.clock(ended.host),
                text: self.kept.text.as_str(),
            },
        }
    }

    /// How the last event forgets, if it does and that is a fault in this form.
    pub fn forgets(&self) -> Option<Forgotten>
        ensures { IfSome result (λ _. self.now.form.check ≡ true) }
    {
        if !self.form.check {
            return None;
        }
        let line = self.ended?.line;
        let of = self.marks.forgotten()?;
        Some(Forgotten { line, of })
    }

    /// Whether the log may end here. Else the other line of an event is missing.
    pub fn end(&self) -> Result<(), LogFault>
        ensures { (form : _) (so_far : SoFar) → HasRead form so_far self.now → result ≡ end_of so_far }
    {
        if self.half.is_some() {
            return Err(LogFault {
                line: self.lines,
                kind: LogFaultKind::Text,
                detail: self.missing_half(),
            });
        }
        Ok(())
    }

    /// The fault of a line, with the line's number and what is wrong there.
    fn fault_at(&self, at: u64, fault: LineFault, line: &[u8]) -> LogReadFault
        ensures { result ≡ fault_at at fault }
    {
        match fault {
            LineFault::Has(kind) => LogReadFault::Log(LogFault {
                line: at,
                kind,
                detail: self.detail(kind, line),
            }),
            LineFault::Memory => LogReadFault::Memory,
        }
    }

    /// What is wrong with a line after the lines so far.
    fn detail(&self, kind: LogFaultKind, line: &[u8]) -> FaultDetail {
        let explainer = Explainer {
            alloc: self.kept.alloc,
            hosts: &self.kept.hosts,
            marks: &self.marks,
            kind,
        };
        let words = match self.form.layout {
            LogLayout::Numbered => explainer.numbered(line),
            _ => explainer.explain(self.part(), line),
        };
        FaultDetail::new(words.ok())
    }

    /// What the next line is to say.
    fn part(&self) -> Part {
        match (self.form.layout, self.half) {
            (LogLayout::Lines, _) => Part::Event,
            (_, Some(Half::Stamped(_))) | (LogLayout::ShivizReversed, None) => Part::Text,
            _ => Part::Stamp,
        }
    }

    /// What is missing where the log ends between the two lines of an event.
    fn missing_half(&self) -> FaultDetail {
        let words = match self.half {
            Some(Half::Stamped(_)) => "the log ends before the text of this event",
            _ => "the log ends before the host and the clock of this event",
        };
        FaultDetail::new(String::from_str(self.kept.alloc, words).ok())
    }
}
