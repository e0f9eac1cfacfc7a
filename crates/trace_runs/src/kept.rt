ghost use Rattle.std.specs.Prelude.{◌≡◌, IfOk};
ghost use Rattle.trace_log.specs.Turns.{seen_logged};
ghost use Rattle.trace_runs.specs.Kept.{begin_with};

use std::alloc::{AllocError, Global};
use std::marker::Model;
use trace_log::Logged;

/// A run that is known: the line and the text of its first event, and the line of the event at which it is over.
#[derive(Clone, Copy, Debug)]
pub struct KeptRun<'a> {
    pub line: u64,
    pub text: &'a str,
    pub over: Option<u64>,
}

/// The first event of a run: its line, its text, and its number among the events of its host.
#[derive(Debug, Drop)]
pub(crate) struct RunBegin {
    pub line: u64,
    pub text: String,
    pub number: u32,
}

impl Model for RunBegin {
    ghost use Rattle.std.specs.Prelude.{string_bytes};
    ghost use Rattle.trace_runs.specs.Kept.{KeptBegin as Seen};

    ghost Value = { Seen };

    ghost view = { λ one. record {
      line = one.line;
      text = string_bytes one.text;
      number = one.number;
    } };
}

impl RunBegin {
    /// What is kept of this event, which has this number.
    pub(crate) fn of(
        alloc: Global,
        logged: &Logged<'_>,
        number: u32,
    ) -> Result<RunBegin, AllocError>
        ensures { IfOk result (λ begin. begin ≡ begin_with (seen_logged logged.now) number) }
    {
        let line = logged.line;
        let text = String::from_str(alloc, logged.event.text)?;
        Ok(RunBegin { line, text, number })
    }
}

/// A run that is over: its first event, the line of the event that ends it, and the numbers of the watched hosts in the
/// clock of that one, in their order.
#[derive(Debug, Drop)]
pub(crate) struct OverRun {
    pub begin: RunBegin,
    pub line: u64,
    pub numbers: Vec<u32>,
}

impl Model for OverRun {
    ghost use Rattle.trace_runs.specs.Kept.{KeptOver as Seen};

    ghost Value = { Seen };

    ghost view = { λ one. record {
      begin = one.begin;
      line = one.line;
      numbers = one.numbers.items;
    } };
}
