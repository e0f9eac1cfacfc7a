ghost use Rattle.std.specs.Prelude.{◌≡◌};
ghost use Rattle.trace_log.specs.Judgement.{ask};
ghost use Rattle.trace_log.specs.Numbered.{name_of};
ghost use Rattle.trace_log.specs.declared.fault.LineFault.TheVariants.{Has, Memory};

use crate::detail::FaultDetail;
use std::alloc::{AllocError, AllocFailed};
use thiserror::Error;

/// What is wrong with a line of a log.
#[derive(Clone, Copy, Debug, PartialEq, Eq, Error)]
pub enum LogFaultKind {
    /// The line has more than 65,536 bytes.
    #[error("long")]
    Long,
    /// No event stands there.
    #[error("text")]
    Text,
    /// The clock isn't a JSON object of whole numbers, or has a name twice.
    #[error("clock")]
    Clock,
    /// The host's own number is missing from the clock, or is 0.
    #[error("own")]
    Own,
    /// The host's own number isn't greater than at its event before.
    #[error("order")]
    Order,
    /// The number of another host is lower than at the event before.
    #[error("falls")]
    Falls,
    /// The event and the last one of another host know each other: each happened before the other.
    #[error("cycle")]
    Cycle,
    /// The log has more lines than can be counted: the last one counted is given.
    #[error("many")]
    Many,
    /// A message is sent a second time.
    #[error("twice")]
    Twice,
    /// Lines wait at the end of the log for a message that no line sends. It is the fault of the first of them.
    #[error("waits")]
    Waits,
}

impl LogFaultKind {
    /// The name with which it displays.
    pub fn name(self) -> &'static str
        ensures { result.now ≡ name_of self }
    {
        match self {
            LogFaultKind::Long => "long",
            LogFaultKind::Text => "text",
            LogFaultKind::Clock => "clock",
            LogFaultKind::Own => "own",
            LogFaultKind::Order => "order",
            LogFaultKind::Falls => "falls",
            LogFaultKind::Cycle => "cycle",
            LogFaultKind::Many => "many",
            LogFaultKind::Twice => "twice",
            LogFaultKind::Waits => "waits",
        }
    }
}

/// The fault of a log, and its line, counted from 1. It displays with what is wrong there, in words.
#[derive(Debug, Drop, Error)]
#[error("line {line}: {kind}{detail}")]
pub struct LogFault {
    pub line: u64,
    pub kind: LogFaultKind,
    pub detail: FaultDetail,
}

/// Why a line of a log wasn't read.
#[derive(Debug, Drop, Error)]
pub enum LogReadFault {
    /// The log has this fault.
    #[error(transparent)]
    Log(LogFault),
    /// Memory ran out.
    #[error("memory")]
    Memory,
}

/// Why a line wasn't read.
#[derive(Clone, Copy, Debug, PartialEq, Eq)]
pub(crate) enum LineFault {
    /// It has this fault.
    Has(LogFaultKind),
    /// Memory ran out.
    Memory,
}

impl From<LogFaultKind> for LineFault {
    ghost from_gives = { λ kind given. given ≡ Has kind };

    fn from(kind: LogFaultKind) -> LineFault {
        LineFault::Has(kind)
    }
}

impl From<AllocError> for LineFault {
    ghost from_gives = { λ _ given. given ≡ Memory };

    fn from(_error: AllocError) -> LineFault {
        LineFault::Memory
    }
}

impl<T: Drop> From<AllocFailed<T>> for LineFault {
    ghost from_gives = { λ _ given. given ≡ Memory };

    fn from(_error: AllocFailed<T>) -> LineFault {
        LineFault::Memory
    }
}

/// A question about a line, and the fault where its answer is no.
pub(crate) fn ask(holds: bool, kind: LogFaultKind) -> Result<(), LogFaultKind>
    ensures { result ≡ ask holds kind }
{
    if holds { Ok(()) } else { Err(kind) }
}
